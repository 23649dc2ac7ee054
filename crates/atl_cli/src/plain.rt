// Plain names, and the names that modules and documents take for themselves.
ghost use Rattle.std.specs.Prelude.{◌≡◌, ◌||◌, ◌&&◌, ◌==◌, map};
ghost use Rattle.std.specs.List.{list_all};
ghost use Rattle.atl_cli.specs.Plain.{begins_name as begins_name_of, continues_name as continues_name_of, is_plain_name as is_plain_name_of};
ghost use Rattle.atl_cli.specs.OneRule.{module_words, expression_words, type_words, is_among, is_keyword as is_keyword_of, is_name as is_name_of, is_reserved as is_reserved_of};

use atl_base::text::Text;

// A letter or `_`, of ASCII.
pub(crate) fn begins_name(byte: u8) -> bool
    ensures { result ≡ begins_name_of byte }
{
    matches!(byte, b'a'..=b'z' | b'A'..=b'Z' | b'_')
}

// That or a digit.
pub(crate) fn continues_name(byte: u8) -> bool
    ensures { result ≡ continues_name_of byte }
{
    begins_name(byte) || matches!(byte, b'0'..=b'9')
}

fn all_continue(bytes: &[u8]) -> bool
    ensures { result ≡ list_all continues_name_of bytes.now }
{
    bytes.iter().all(|byte| continues_name(*byte))
}

/// Whether it is a letter or `_` and then letters, digits and `_`, all of ASCII.
pub fn is_plain_name(name: &[u8]) -> bool
    ensures { result ≡ is_plain_name_of name.now }
{
    match name {
        [] => false,
        [first, rest @ ..] => begins_name(*first) && all_continue(rest),
    }
}

fn is_one_of(name: &str, words: &[&str]) -> bool
    ensures { result ≡ is_among name.now (map (λ w. w.now) words.now) }
{
    for word in words {
        if name == *word {
            return true;
        }
    }
    false
}

#[tactic(auto, unfolding(crate::specs::OneRule::module_words))]
fn is_module_word(name: &str) -> bool
    ensures { result ≡ is_among name.now module_words }
{
    is_one_of(
        name,
        &[
            "module",
            "create",
            "from",
            "refining",
            "uses",
            "query",
            "library",
            "helper",
            "context",
            "def",
            "rule",
            "lazy",
            "unique",
            "abstract",
            "entrypoint",
            "endpoint",
            "extends",
            "using",
            "to",
            "do",
        ],
    )
}

#[tactic(auto, unfolding(crate::specs::OneRule::expression_words))]
fn is_expression_word(name: &str) -> bool
    ensures { result ≡ is_among name.now expression_words }
{
    is_one_of(
        name,
        &[
            "if",
            "then",
            "else",
            "endif",
            "let",
            "in",
            "for",
            "and",
            "or",
            "xor",
            "implies",
            "not",
            "div",
            "mod",
            "true",
            "false",
            "self",
            "thisModule",
            "OclUndefined",
        ],
    )
}

#[tactic(auto, unfolding(crate::specs::OneRule::type_words))]
fn is_type_word(name: &str) -> bool
    ensures { result ≡ is_among name.now type_words }
{
    is_one_of(
        name,
        &[
            "Sequence",
            "Set",
            "Bag",
            "OrderedSet",
            "Tuple",
            "TupleType",
            "Map",
            "String",
            "Integer",
            "Boolean",
            "Real",
            "OclAny",
        ],
    )
}

fn is_keyword(name: &str) -> bool
    ensures { result ≡ is_keyword_of name.now }
{
    is_module_word(name) || is_expression_word(name) || is_type_word(name)
}

/// Whether it is a plain name and no keyword.
pub fn is_name(name: &Text) -> bool
    ensures { result ≡ is_name_of name.now }
{
    is_plain_name(name.bytes()) && !is_keyword(name.as_str())
}

/// Whether it is a prefix that the header of a document takes for itself.
pub fn is_reserved(name: &Text) -> bool
    ensures { result ≡ is_reserved_of name.now }
{
    let name = name.as_str();
    name == "xml" || name == "xmi" || name == "xsi" || name == "xmlns"
}
