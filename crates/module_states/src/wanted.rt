// One mark alone may stand here.
ghost use Rattle.std.specs.Prelude.{◌≡◌};
ghost use Rattle.atl_tree.specs.declared.name.Name.{Name as SomeName};
ghost use Rattle.module_states.specs.Machine.{Refuses, Step, a_name as a_name_of, a_colon as a_colon_of, a_semicolon as a_semicolon_of, an_open as an_open_of, a_close as a_close_of, a_brace as a_brace_of, an_equal as an_equal_of, a_bang as a_bang_of, an_in as an_in_of, a_gives as a_gives_of, a_def as a_def_of, a_rule as a_rule_of};
ghost use Rattle.module_states.specs.Nexts.{meant, named, state_of, step_of};

use crate::content::Content;
use crate::next::{Class, Head, Header, Helping, Move, Next, Params, Part, Stating};
use atl_base::place::Place;
use atl_tree::expr::BinaryOp;
use atl_tree::module::Target;
use atl_tree::name::Name;
use module_grammar::keyword::Keyword;
use ocl_parse::sign::{Ender, Sign};
use ocl_parse::symbol::Symbol;

fn leave_header(_header: Header) {}

fn leave_helping(_helping: Helping) {}

fn leave_params(_params: Params) {}

fn leave_head(_head: Head) {}

fn leave_class(_class: Class) {}

fn leave_stating(_stating: Stating) {}

fn leave_part(_part: Part) {}

fn leave_target(_target: Target, _feature: Option<Name>) {}

/// Nothing goes on from there.
pub fn leave(next: Next) {
    match next {
        Next::InHeader(header) => leave_header(header),
        Next::Item(before) => drop(before),
        Next::InHelper(helping) => leave_helping(helping),
        Next::InParams(params) => leave_params(params),
        Next::InKind(purpose, part) => {
            drop(purpose);
            leave_part(part);
        }
        Next::InExpr(purpose, part) => {
            drop(purpose);
            leave_part(part);
        }
        Next::InHead(head) => leave_head(head),
        Next::InRule(_point, draft) => drop(draft),
        Next::BeforeColon(_kind, draft, name) => {
            drop(draft);
            drop(name);
        }
        Next::InClass(class) => leave_class(class),
        Next::InTarget(_point, draft, target) => {
            drop(draft);
            leave_target(target, None);
        }
        Next::Gives(draft, target, feature) => {
            drop(draft);
            leave_target(target, Some(feature));
        }
        Next::InBlock(stating) => leave_stating(stating),
    }
}

// The token does not stand there.
fn refuse(then: Next) -> Move
    ensures { Refuses ≡ step_of result }
{
    leave(then);
    Move::Refuses
}

/// The name, where it is one.
pub fn a_name(content: Content, place: Place) -> Option<Name>
    ensures { (k : SomeName → Step) → a_name_of (meant content) place k ≡ named result k }
{
    match content {
        Content::Shared(Symbol::Name(text)) => Some(Name { text, place }),
        _ => None,
    }
}

/// `:`, and on from there.
pub fn a_colon(content: Content, then: Next) -> Move
    ensures { a_colon_of (meant content) (state_of then) ≡ step_of result }
{
    match content {
        Content::Shared(Symbol::Fixed(Sign::Colon)) => Move::Goes(then),
        _ => refuse(then),
    }
}

/// `(`, and on from there.
pub fn an_open(content: Content, then: Next) -> Move
    ensures { an_open_of (meant content) (state_of then) ≡ step_of result }
{
    match content {
        Content::Shared(Symbol::Fixed(Sign::Open)) => Move::Goes(then),
        _ => refuse(then),
    }
}

/// `)`, and on from there.
pub fn a_close(content: Content, then: Next) -> Move
    ensures { a_close_of (meant content) (state_of then) ≡ step_of result }
{
    match content {
        Content::Shared(Symbol::Fixed(Sign::End(Ender::Close))) => Move::Goes(then),
        _ => refuse(then),
    }
}

/// `{`, and on from there.
pub fn a_brace(content: Content, then: Next) -> Move
    ensures { a_brace_of (meant content) (state_of then) ≡ step_of result }
{
    match content {
        Content::Shared(Symbol::Fixed(Sign::OpenBrace)) => Move::Goes(then),
        _ => refuse(then),
    }
}

/// `;`, and on from there.
pub fn a_semicolon(content: Content, then: Next) -> Move
    ensures { a_semicolon_of (meant content) (state_of then) ≡ step_of result }
{
    match content {
        Content::Shared(Symbol::Fixed(Sign::Semicolon)) => Move::Goes(then),
        _ => refuse(then),
    }
}

/// `=`, and on from there.
pub fn an_equal(content: Content, then: Next) -> Move
    ensures { an_equal_of (meant content) (state_of then) ≡ step_of result }
{
    match content {
        Content::Shared(Symbol::Fixed(Sign::Operator(BinaryOp::Eq))) => Move::Goes(then),
        _ => refuse(then),
    }
}

/// `!`, and on from there.
pub fn a_bang(content: Content, then: Next) -> Move
    ensures { a_bang_of (meant content) (state_of then) ≡ step_of result }
{
    match content {
        Content::Shared(Symbol::Fixed(Sign::Bang)) => Move::Goes(then),
        _ => refuse(then),
    }
}

/// `in`, and on from there.
pub fn an_in(content: Content, then: Next) -> Move
    ensures { an_in_of (meant content) (state_of then) ≡ step_of result }
{
    match content {
        Content::Shared(Symbol::Fixed(Sign::End(Ender::In))) => Move::Goes(then),
        _ => refuse(then),
    }
}

/// `<-`, and on from there.
pub fn a_gives(content: Content, then: Next) -> Move
    ensures { a_gives_of (meant content) (state_of then) ≡ step_of result }
{
    match content {
        Content::Word(Keyword::Gives) => Move::Goes(then),
        _ => refuse(then),
    }
}

/// `def`, and on from there.
pub fn a_def(content: Content, then: Next) -> Move
    ensures { a_def_of (meant content) (state_of then) ≡ step_of result }
{
    match content {
        Content::Word(Keyword::Def) => Move::Goes(then),
        _ => refuse(then),
    }
}

/// `rule`, and on from there.
pub fn a_rule(content: Content, then: Next) -> Move
    ensures { a_rule_of (meant content) (state_of then) ≡ step_of result }
{
    match content {
        Content::Word(Keyword::Rule) => Move::Goes(then),
        _ => refuse(then),
    }
}
