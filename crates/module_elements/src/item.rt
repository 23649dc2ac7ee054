// Where an item begins.
ghost use Rattle.std.specs.Prelude.{◌≡◌};
ghost use Rattle.module_states.specs.Machine.{at_item as at_item_of, modified as modified_of};
ghost use Rattle.module_grammar.specs.Parts.{no_modifiers, has as has_of, with_modifier as with_modifier_of};
ghost use Rattle.module_states.specs.Nexts.{meant, modifier_of, modifiers_of, step_of};

use atl_tree::module::{Module, RuleSort};
use module_grammar::keyword::Keyword;
use module_states::content::Content;
use module_states::next::{Form, Head, Helping, Modifier, Modifiers, Move, Next};

fn has(words: Modifiers, word: Modifier) -> bool
    ensures { result ≡ has_of (modifiers_of words) (modifier_of word) }
{
    match word {
        Modifier::Abstract => words.is_abstract,
        Modifier::Unique => words.is_unique,
        Modifier::Lazy => words.is_lazy,
    }
}

fn with_modifier(words: Modifiers, word: Modifier) -> Modifiers
    ensures { modifiers_of result ≡ with_modifier_of (modifiers_of words) (modifier_of word) }
{
    match word {
        Modifier::Abstract => Modifiers {
            is_abstract: true,
            is_unique: words.is_unique,
            is_lazy: words.is_lazy,
        },
        Modifier::Unique => Modifiers {
            is_abstract: words.is_abstract,
            is_unique: true,
            is_lazy: words.is_lazy,
        },
        Modifier::Lazy => Modifiers {
            is_abstract: words.is_abstract,
            is_unique: words.is_unique,
            is_lazy: true,
        },
    }
}

/// A word before `rule`, where it has not stood yet.
pub fn modified(before: Module, words: Modifiers, word: Modifier) -> Move
    ensures { modified_of before (modifiers_of words) (modifier_of word) ≡ step_of result }
{
    if has(words, word) {
        return Move::Refuses;
    }
    Move::Goes(Next::InHead(Head::Word(before, with_modifier(words, word))))
}

// The first word before `rule`.
fn first_word(before: Module, word: Modifier) -> Move
    ensures { modified_of before no_modifiers (modifier_of word) ≡ step_of result }
{
    let none = Modifiers {
        is_abstract: false,
        is_unique: false,
        is_lazy: false,
    };
    modified(before, none, word)
}

/// An item, or the end.
pub fn step(before: Module, content: Content) -> Move
    ensures { at_item_of before (meant content) ≡ step_of result }
{
    let Content::Word(word) = content else {
        return Move::Refuses;
    };
    match word {
        Keyword::Helper => Move::Goes(Next::InHelper(Helping::Begun(before))),
        Keyword::Abstract => first_word(before, Modifier::Abstract),
        Keyword::Unique => first_word(before, Modifier::Unique),
        Keyword::Lazy => first_word(before, Modifier::Lazy),
        Keyword::Rule => Move::Goes(Next::InHead(Head::RuleName(
            before,
            Form::Plain,
            RuleSort::Matched,
            false,
        ))),
        Keyword::Entrypoint => Move::Goes(Next::InHead(Head::RuleWord(before, RuleSort::Entry))),
        Keyword::Endpoint => Move::Goes(Next::InHead(Head::RuleWord(before, RuleSort::End))),
        _ => Move::Refuses,
    }
}
