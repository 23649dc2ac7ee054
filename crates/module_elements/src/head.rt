// A rule before its `{`.
ghost use Rattle.std.specs.Prelude.{◌≡◌, IfOk, true};
ghost use Rattle.module_states.specs.Machine.{Modified, Plain, Started, at_word as at_word_of, rule_open as rule_open_of, step as stepped, worded as worded_of};
ghost use Rattle.module_grammar.specs.Parts.{may_stand as may_stand_of, sort_of as sort_of_words};
ghost use Rattle.module_states.specs.Nexts.{form_of, head_of, meant, modifiers_of, step_of};
ghost use Rattle.module_states.specs.declared.next.Head.TheVariants as D;

use crate::item::modified;
use atl_base::place::Place;
use atl_tree::module::{Module, RuleSort};
use module_grammar::keyword::Keyword;
use module_states::content::Content;
use module_states::next::{
    Draft, Form, Head, Modifier, Modifiers, Move, Next, Owner, Params, Point,
};
use module_states::parts::bare;
use module_states::wanted::{a_name, a_rule};
use ocl_parse::sign::Sign;
use ocl_parse::symbol::Symbol;
use sqlite_items::Boxed;
use std::alloc::{AllocError, Global};

// `unique` needs `lazy`.
fn may_stand(words: Modifiers) -> bool
    ensures { result ≡ may_stand_of (modifiers_of words) }
{
    if words.is_unique { words.is_lazy } else { true }
}

fn sort_of(words: Modifiers) -> RuleSort
    ensures { result ≡ sort_of_words (modifiers_of words) }
{
    if words.is_unique {
        return RuleSort::Unique;
    }
    if words.is_lazy {
        return RuleSort::Lazy;
    }
    RuleSort::Matched
}

// `rule` behind words.
fn worded(before: Module, words: Modifiers) -> Move
    ensures { worded_of before (modifiers_of words) ≡ step_of result }
{
    if !may_stand(words) {
        return Move::Refuses;
    }
    Move::Goes(Next::InHead(Head::RuleName(
        before,
        Form::Modified,
        sort_of(words),
        words.is_abstract,
    )))
}

fn at_word(before: Module, words: Modifiers, content: Content) -> Move
    ensures { at_word_of before (modifiers_of words) (meant content) ≡ step_of result }
{
    let Content::Word(word) = content else {
        return Move::Refuses;
    };
    match word {
        Keyword::Abstract => modified(before, words, Modifier::Abstract),
        Keyword::Unique => modified(before, words, Modifier::Unique),
        Keyword::Lazy => modified(before, words, Modifier::Lazy),
        Keyword::Rule => worded(before, words),
        _ => Move::Refuses,
    }
}

fn rule_name(
    alloc: Global,
    before: Module,
    form: Form,
    sort: RuleSort,
    is_abstract: bool,
    content: Content,
    place: Place,
) -> Result<Move, AllocError>
    ensures { IfOk result (λ m. stepped true (head_of (D.RuleName before form sort is_abstract)) (meant content) place ≡ step_of m) }
{
    match a_name(content, place) {
        Some(name) => {
            let rule = bare(alloc, sort, is_abstract, name);
            let draft = Boxed::new(alloc, Draft { before, rule })?;
            Ok(Move::Goes(Next::InHead(Head::RuleOpen(form, draft))))
        }
        None => Ok(Move::Refuses),
    }
}

// Behind the name of a rule with `rule` alone before it.
fn plain_open(draft: Boxed<Draft>, content: Content) -> Move
    ensures { rule_open_of draft.before Plain draft.rule (meant content) ≡ step_of result }
{
    match content {
        Content::Shared(Symbol::Fixed(Sign::Open)) => {
            Move::Goes(Next::InParams(Params::First(Owner::OfRule(draft))))
        }
        Content::Shared(Symbol::Fixed(Sign::OpenBrace)) => {
            Move::Goes(Next::InRule(Point::From, draft))
        }
        Content::Word(Keyword::Extends) => Move::Goes(Next::InRule(Point::Parent, draft)),
        _ => Move::Refuses,
    }
}

// Behind the name of a rule with words before it.
fn modified_open(draft: Boxed<Draft>, content: Content) -> Move
    ensures { rule_open_of draft.before Modified draft.rule (meant content) ≡ step_of result }
{
    match content {
        Content::Shared(Symbol::Fixed(Sign::OpenBrace)) => {
            Move::Goes(Next::InRule(Point::From, draft))
        }
        Content::Word(Keyword::Extends) => Move::Goes(Next::InRule(Point::Parent, draft)),
        _ => Move::Refuses,
    }
}

// Behind the name of an entrypoint or endpoint rule.
fn started_open(draft: Boxed<Draft>, content: Content) -> Move
    ensures { rule_open_of draft.before Started draft.rule (meant content) ≡ step_of result }
{
    match content {
        Content::Shared(Symbol::Fixed(Sign::Open)) => {
            Move::Goes(Next::InRule(Point::NoParams, draft))
        }
        _ => Move::Refuses,
    }
}

fn rule_open(form: Form, draft: Boxed<Draft>, content: Content) -> Move
    ensures { rule_open_of draft.before (form_of form) draft.rule (meant content) ≡ step_of result }
{
    match form {
        Form::Plain => plain_open(draft, content),
        Form::Modified => modified_open(draft, content),
        Form::Started => started_open(draft, content),
    }
}

/// One token before a rule's `{`.
pub fn step(alloc: Global, head: Head, content: Content, place: Place) -> Result<Move, AllocError>
    ensures { IfOk result (λ m. stepped true (head_of head) (meant content) place ≡ step_of m) }
{
    match head {
        Head::Word(before, words) => Ok(at_word(before, words, content)),
        Head::RuleWord(before, sort) => Ok(a_rule(
            content,
            Next::InHead(Head::RuleName(before, Form::Started, sort, false)),
        )),
        Head::RuleName(before, form, sort, is_abstract) => {
            rule_name(alloc, before, form, sort, is_abstract, content, place)
        }
        Head::RuleOpen(form, draft) => Ok(rule_open(form, draft, content)),
    }
}
