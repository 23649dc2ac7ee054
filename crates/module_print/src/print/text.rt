// The text of keywords and marks.
ghost use Rattle.std.specs.Prelude.{◌≡◌, IsTrue};
ghost use Rattle.std.specs.List.{list_all};
ghost use Rattle.atl_base.specs.XmlText.{is_ascii_text};
ghost use Rattle.module_print.specs.Printed.{operator_text as operator_text_of, constant_text as constant_text_of, basic_text as basic_text_of, coll_text as coll_text_of, ender_text as ender_text_of, sign_text as sign_text_of, keyword_text as keyword_text_of};

use atl_tree::expr::BinaryOp;
use atl_tree::kind::{BasicWord, CollWord};
use module_grammar::keyword::Keyword;
use ocl_parse::sign::{Constant, Ender, Sign};

fn operator_text(op: BinaryOp) -> &'static str
    ensures text { result.now ≡ operator_text_of op }
    ensures ascii { IsTrue (list_all is_ascii_text result.now) }
{
    match op {
        BinaryOp::And => "and",
        BinaryOp::Or => "or",
        BinaryOp::Xor => "xor",
        BinaryOp::Implies => "implies",
        BinaryOp::Eq => "=",
        BinaryOp::Ne => "<>",
        BinaryOp::Lt => "<",
        BinaryOp::Gt => ">",
        BinaryOp::Le => "<=",
        BinaryOp::Ge => ">=",
        BinaryOp::Plus => "+",
        BinaryOp::Minus => "-",
        BinaryOp::Times => "*",
        BinaryOp::Div => "div",
        BinaryOp::Mod => "mod",
    }
}

fn constant_text(constant: Constant) -> &'static str
    ensures text { result.now ≡ constant_text_of constant }
    ensures ascii { IsTrue (list_all is_ascii_text result.now) }
{
    match constant {
        Constant::True => "true",
        Constant::False => "false",
        Constant::Undefined => "OclUndefined",
        Constant::Own => "self",
        Constant::Module => "thisModule",
    }
}

fn basic_text(word: BasicWord) -> &'static str
    ensures text { result.now ≡ basic_text_of word }
    ensures ascii { IsTrue (list_all is_ascii_text result.now) }
{
    match word {
        BasicWord::Words => "String",
        BasicWord::Whole => "Integer",
        BasicWord::Truth => "Boolean",
        BasicWord::Any => "OclAny",
    }
}

fn coll_text(word: CollWord) -> &'static str
    ensures text { result.now ≡ coll_text_of word }
    ensures ascii { IsTrue (list_all is_ascii_text result.now) }
{
    match word {
        CollWord::Sequence => "Sequence",
        CollWord::Set => "Set",
        CollWord::Bag => "Bag",
        CollWord::OrderedSet => "OrderedSet",
    }
}

fn ender_text(ender: Ender) -> &'static str
    ensures text { result.now ≡ ender_text_of ender }
    ensures ascii { IsTrue (list_all is_ascii_text result.now) }
{
    match ender {
        Ender::Close => ")",
        Ender::CloseBrace => "}",
        Ender::Comma => ",",
        Ender::Bar => "|",
        Ender::Then => "then",
        Ender::Else => "else",
        Ender::Endif => "endif",
        Ender::In => "in",
    }
}

/// The text of a keyword or a mark of expressions; there is none of what no expression has.
pub(crate) fn sign_text(sign: Sign) -> &'static str
    ensures text { result.now ≡ sign_text_of sign }
    ensures ascii { IsTrue (list_all is_ascii_text result.now) }
{
    match sign {
        Sign::Operator(op) => operator_text(op),
        Sign::Not => "not",
        Sign::Constant(constant) => constant_text(constant),
        Sign::Basic(word) => basic_text(word),
        Sign::Coll(word) => coll_text(word),
        Sign::Let => "let",
        Sign::If => "if",
        Sign::Dot => ".",
        Sign::Arrow => "->",
        Sign::Open => "(",
        Sign::OpenBrace => "{",
        Sign::Colon => ":",
        Sign::Semicolon => ";",
        Sign::Bang => "!",
        Sign::Hash => "#",
        Sign::End(ender) => ender_text(ender),
        Sign::Other => "",
    }
}

/// The text of a keyword of modules.
pub(crate) fn keyword_text(keyword: Keyword) -> &'static str
    ensures text { result.now ≡ keyword_text_of keyword }
    ensures ascii { IsTrue (list_all is_ascii_text result.now) }
{
    match keyword {
        Keyword::Module => "module",
        Keyword::Create => "create",
        Keyword::From => "from",
        Keyword::Refining => "refining",
        Keyword::Uses => "uses",
        Keyword::Query => "query",
        Keyword::Library => "library",
        Keyword::Helper => "helper",
        Keyword::Context => "context",
        Keyword::Def => "def",
        Keyword::Rule => "rule",
        Keyword::Lazy => "lazy",
        Keyword::Unique => "unique",
        Keyword::Abstract => "abstract",
        Keyword::Entrypoint => "entrypoint",
        Keyword::Endpoint => "endpoint",
        Keyword::Extends => "extends",
        Keyword::Using => "using",
        Keyword::To => "to",
        Keyword::Do => "do",
        Keyword::For => "for",
        Keyword::Gives => "<-",
    }
}
