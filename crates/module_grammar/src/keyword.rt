// The keywords of modules that no expression has.
ghost use Rattle.std.specs.Prelude.{◌≡◌, map};
ghost use Rattle.module_grammar.specs.Keywords.{find as find_in, words, keyword as keyword_of};

/// A keyword or a mark that stands in modules and in no expression.
#[derive(Clone, Copy, Debug, PartialEq, Eq)]
pub enum Keyword {
    Module,
    Create,
    From,
    Refining,
    Uses,
    Query,
    Library,
    Helper,
    Context,
    Def,
    Rule,
    Lazy,
    Unique,
    Abstract,
    Entrypoint,
    Endpoint,
    Extends,
    Using,
    To,
    Do,
    For,
    /// `<-`
    Gives,
}

// The keyword of the first of these words that is the text.
fn find(text: &str, words: &[(&str, Keyword)]) -> Option<Keyword>
    ensures { result ≡ find_in text.now (map (λ w. (w.0.now, w.1)) words.now) }
{
    for word in words {
        if text == word.0 {
            return Some(word.1);
        }
    }
    None
}

/// The keyword that the plain word is.
#[tactic(auto, unfolding(crate::specs::Keywords::words))]
pub fn word(text: &str) -> Option<Keyword>
    ensures { result ≡ keyword_of text.now }
{
    find(
        text,
        &[
            ("module", Keyword::Module),
            ("create", Keyword::Create),
            ("from", Keyword::From),
            ("refining", Keyword::Refining),
            ("uses", Keyword::Uses),
            ("query", Keyword::Query),
            ("library", Keyword::Library),
            ("helper", Keyword::Helper),
            ("context", Keyword::Context),
            ("def", Keyword::Def),
            ("rule", Keyword::Rule),
            ("lazy", Keyword::Lazy),
            ("unique", Keyword::Unique),
            ("abstract", Keyword::Abstract),
            ("entrypoint", Keyword::Entrypoint),
            ("endpoint", Keyword::Endpoint),
            ("extends", Keyword::Extends),
            ("using", Keyword::Using),
            ("to", Keyword::To),
            ("do", Keyword::Do),
            ("for", Keyword::For),
        ],
    )
}
