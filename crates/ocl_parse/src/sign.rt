// The fixed tokens of expressions, keywords and marks, by what they do.
ghost use Rattle.std.specs.Prelude.{◌≡◌, ◌==◌, ◌||◌, map};
ghost use Rattle.ocl_parse.specs.Signs.{find as find_in, operator_words, structure_words, constant_words, type_words, other_words, marks, word as word_of, mark as mark_of, is_iterator as is_iterator_of};

use atl_tree::expr::BinaryOp;
use atl_tree::kind::{BasicWord, CollWord};

/// A word that is an expression by itself.
#[derive(Clone, Copy, Debug, PartialEq, Eq)]
pub enum Constant {
    True,
    False,
    /// `OclUndefined`
    Undefined,
    /// `self`
    Own,
    /// `thisModule`
    Module,
}

/// A token that ends an operand, for what is open round it.
#[derive(Clone, Copy, Debug, PartialEq, Eq)]
pub enum Ender {
    /// `)`
    Close,
    /// `}`
    CloseBrace,
    Comma,
    /// `|`
    Bar,
    Then,
    Else,
    Endif,
    In,
}

/// What a keyword or a mark does in an expression.
#[derive(Clone, Copy, Debug, PartialEq, Eq)]
pub enum Sign {
    /// An operator between operands; `-` may stand before one, too.
    Operator(BinaryOp),
    Not,
    Constant(Constant),
    Basic(BasicWord),
    Coll(CollWord),
    Let,
    If,
    Dot,
    /// `->`
    Arrow,
    /// `(`
    Open,
    /// `{`
    OpenBrace,
    Colon,
    Semicolon,
    /// `!`
    Bang,
    /// `#`
    Hash,
    End(Ender),
    /// A keyword or a mark that no expression has.
    Other,
}

// What the first of these words that is the text does.
fn find(text: &str, words: &[(&str, Sign)]) -> Option<Sign>
    ensures { result ≡ find_in text.now (map (λ w. (w.0.now, w.1)) words.now) }
{
    for word in words {
        if text == word.0 {
            return Some(word.1);
        }
    }
    None
}

#[tactic(auto, unfolding(crate::specs::Signs::operator_words))]
fn operator_word(text: &str) -> Option<Sign>
    ensures { result ≡ find_in text.now operator_words }
{
    find(
        text,
        &[
            ("and", Sign::Operator(BinaryOp::And)),
            ("or", Sign::Operator(BinaryOp::Or)),
            ("xor", Sign::Operator(BinaryOp::Xor)),
            ("implies", Sign::Operator(BinaryOp::Implies)),
            ("div", Sign::Operator(BinaryOp::Div)),
            ("mod", Sign::Operator(BinaryOp::Mod)),
            ("not", Sign::Not),
        ],
    )
}

#[tactic(auto, unfolding(crate::specs::Signs::structure_words))]
fn structure_word(text: &str) -> Option<Sign>
    ensures { result ≡ find_in text.now structure_words }
{
    find(
        text,
        &[
            ("let", Sign::Let),
            ("in", Sign::End(Ender::In)),
            ("if", Sign::If),
            ("then", Sign::End(Ender::Then)),
            ("else", Sign::End(Ender::Else)),
            ("endif", Sign::End(Ender::Endif)),
        ],
    )
}

#[tactic(auto, unfolding(crate::specs::Signs::constant_words))]
fn constant_word(text: &str) -> Option<Sign>
    ensures { result ≡ find_in text.now constant_words }
{
    find(
        text,
        &[
            ("true", Sign::Constant(Constant::True)),
            ("false", Sign::Constant(Constant::False)),
            ("OclUndefined", Sign::Constant(Constant::Undefined)),
            ("self", Sign::Constant(Constant::Own)),
            ("thisModule", Sign::Constant(Constant::Module)),
        ],
    )
}

#[tactic(auto, unfolding(crate::specs::Signs::type_words))]
fn type_word(text: &str) -> Option<Sign>
    ensures { result ≡ find_in text.now type_words }
{
    find(
        text,
        &[
            ("String", Sign::Basic(BasicWord::Words)),
            ("Integer", Sign::Basic(BasicWord::Whole)),
            ("Boolean", Sign::Basic(BasicWord::Truth)),
            ("OclAny", Sign::Basic(BasicWord::Any)),
            ("Sequence", Sign::Coll(CollWord::Sequence)),
            ("Set", Sign::Coll(CollWord::Set)),
            ("Bag", Sign::Coll(CollWord::Bag)),
            ("OrderedSet", Sign::Coll(CollWord::OrderedSet)),
        ],
    )
}

#[tactic(auto, unfolding(crate::specs::Signs::other_words))]
fn other_word(text: &str) -> Option<Sign>
    ensures { result ≡ find_in text.now other_words }
{
    find(
        text,
        &[
            ("module", Sign::Other),
            ("create", Sign::Other),
            ("from", Sign::Other),
            ("refining", Sign::Other),
            ("uses", Sign::Other),
            ("query", Sign::Other),
            ("library", Sign::Other),
            ("helper", Sign::Other),
            ("context", Sign::Other),
            ("def", Sign::Other),
            ("rule", Sign::Other),
            ("lazy", Sign::Other),
            ("unique", Sign::Other),
            ("abstract", Sign::Other),
            ("entrypoint", Sign::Other),
            ("endpoint", Sign::Other),
            ("extends", Sign::Other),
            ("using", Sign::Other),
            ("to", Sign::Other),
            ("do", Sign::Other),
            ("for", Sign::Other),
            ("Tuple", Sign::Other),
            ("TupleType", Sign::Other),
            ("Map", Sign::Other),
            ("Real", Sign::Other),
        ],
    )
}

/// What the plain word does, where it is a keyword.
pub(crate) fn word(text: &str) -> Option<Sign>
    ensures { result ≡ word_of text.now }
{
    if let Some(sign) = operator_word(text) {
        return Some(sign);
    }
    if let Some(sign) = structure_word(text) {
        return Some(sign);
    }
    if let Some(sign) = constant_word(text) {
        return Some(sign);
    }
    if let Some(sign) = type_word(text) {
        return Some(sign);
    }
    other_word(text)
}

#[tactic(auto, unfolding(crate::specs::Signs::marks))]
fn find_mark(text: &str) -> Option<Sign>
    ensures { result ≡ find_in text.now marks }
{
    find(
        text,
        &[
            ("=", Sign::Operator(BinaryOp::Eq)),
            ("<>", Sign::Operator(BinaryOp::Ne)),
            ("<", Sign::Operator(BinaryOp::Lt)),
            (">", Sign::Operator(BinaryOp::Gt)),
            ("<=", Sign::Operator(BinaryOp::Le)),
            (">=", Sign::Operator(BinaryOp::Ge)),
            ("+", Sign::Operator(BinaryOp::Plus)),
            ("-", Sign::Operator(BinaryOp::Minus)),
            ("*", Sign::Operator(BinaryOp::Times)),
            (".", Sign::Dot),
            ("->", Sign::Arrow),
            ("(", Sign::Open),
            (")", Sign::End(Ender::Close)),
            ("{", Sign::OpenBrace),
            ("}", Sign::End(Ender::CloseBrace)),
            (",", Sign::End(Ender::Comma)),
            ("|", Sign::End(Ender::Bar)),
            (":", Sign::Colon),
            (";", Sign::Semicolon),
            ("!", Sign::Bang),
            ("#", Sign::Hash),
        ],
    )
}

/// What the mark does.
pub(crate) fn mark(text: &str) -> Sign
    ensures { result ≡ mark_of text.now }
{
    match find_mark(text) {
        Some(sign) => sign,
        None => Sign::Other,
    }
}

/// Whether it is the name of an iterator with one variable.
pub(crate) fn is_iterator(name: &str) -> bool
    ensures { result ≡ is_iterator_of name.now }
{
    name == "exists"
        || name == "forAll"
        || name == "one"
        || name == "isUnique"
        || name == "any"
        || name == "select"
        || name == "reject"
        || name == "collect"
        || name == "sortedBy"
}
