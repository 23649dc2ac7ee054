// The reader's step: one symbol.
ghost use Rattle.std.specs.Prelude.{◌≡◌, ◌∷◌, [], List, true, IfOk};
ghost use Rattle.ocl_parse.specs.Trees.{variable as variable_of, feature as feature_of};
ghost use Rattle.ocl_parse.specs.Machine.{step_of, have_sign as have_sign_of, have as have_of, word as word_of, operand as operand_of, argued as argued_of, unargued as unargued_of, first_bar as first_bar_of, first_semicolon as first_semicolon_of, first as first_of, argument as argument_of, step as stepped, last as last_of};
ghost use Rattle.ocl_parse.specs.declared.frame.Frame.{Frame as SomeFrame};
ghost use Rattle.ocl_parse.specs.declared.frame.Frame.TheVariants as F;
ghost use Rattle.ocl_parse.specs.declared.frame.Next.TheVariants as N;

use crate::close::{at, call};
use crate::frame::{Callee, Frame, Move, Next};
use crate::kind_step::{a_kind, have_kind, kind_bang, kind_class, kind_open};
use crate::operand::{is_shallow, operand};
use crate::pending::{end_all, end_before, level};
use crate::sign::{Ender, Sign, is_iterator};
use crate::stack::Stack;
use crate::symbol::Symbol;
use atl_base::place::Place;
use atl_tree::expr::{Expr, ExprKind};
use atl_tree::kind::CollWord;
use atl_tree::name::{ClassRef, Name};
use sqlite_items::{Boxed, Items};
use std::alloc::{AllocError, Global};

// A keyword or a mark behind an operand.
fn have_sign(
    alloc: Global,
    stack: &mut Stack,
    e: Expr,
    sign: Sign,
    place: Place,
) -> Result<Move, AllocError>
    ensures { IfOk result (λ m. have_sign_of stack.old e sign place ≡ step_of stack.new m) }
{
    match sign {
        Sign::Operator(op) => {
            let left = end_before(alloc, stack, level(op), e)?;
            stack.push(Frame::Left(Boxed::new(alloc, left)?, place, op))?;
            Ok(Move::Goes(Next::Operand))
        }
        Sign::Dot => Ok(Move::Goes(Next::Feature(Boxed::new(alloc, e)?))),
        Sign::Arrow => Ok(Move::Goes(Next::ArrowName(Boxed::new(alloc, e)?))),
        Sign::End(ender) => {
            let whole = end_all(alloc, stack, e)?;
            at(alloc, stack, ender, whole)
        }
        _ => Ok(Move::Stops(e)),
    }
}

// A symbol behind an operand.
fn have(
    alloc: Global,
    stack: &mut Stack,
    e: Expr,
    symbol: Symbol,
    place: Place,
) -> Result<Move, AllocError>
    ensures { IfOk result (λ m. have_of stack.old e symbol place ≡ step_of stack.new m) }
{
    match symbol {
        Symbol::Fixed(sign) => have_sign(alloc, stack, e, sign, place),
        _ => Ok(Move::Stops(e)),
    }
}

fn variable(name: Name) -> Expr
    ensures { result ≡ variable_of name }
{
    let Name { text, place } = name;
    Expr {
        what: ExprKind::Var(text),
        place,
    }
}

fn feature(source: Boxed<Expr>, name: Name) -> Expr
    ensures { result ≡ feature_of source name }
{
    let Name { text, place } = name;
    Expr {
        what: ExprKind::Read(source, text),
        place,
    }
}

// Behind a name that stands for an operand.
fn word(
    alloc: Global,
    stack: &mut Stack,
    name: Name,
    symbol: Symbol,
    place: Place,
) -> Result<Move, AllocError>
    ensures { IfOk result (λ m. word_of stack.old name symbol place ≡ step_of stack.new m) }
{
    match symbol {
        Symbol::Fixed(Sign::Bang) => Ok(Move::Goes(Next::ClassName(name))),
        other => have(alloc, stack, variable(name), other, place),
    }
}

// An argument begins with the name.
fn argued(
    alloc: Global,
    stack: &mut Stack,
    callee: Callee,
    name: Name,
    symbol: Symbol,
    place: Place,
) -> Result<Move, AllocError>
    ensures { IfOk result (λ m. argued_of true stack.old callee name symbol place ≡ step_of stack.new m) }
{
    stack.push(Frame::Arguments(callee, Items::new(alloc)))?;
    if !is_shallow(stack) {
        return Ok(Move::TooDeep(name.place));
    }
    word(alloc, stack, name, symbol, place)
}

// No argument that begins with the name can go on so.
fn unargued(
    alloc: Global,
    stack: &mut Stack,
    callee: Callee,
    name: Name,
) -> Result<Move, AllocError>
    ensures { IfOk result (λ m. unargued_of true stack.old callee name ≡ step_of stack.new m) }
{
    stack.push(Frame::Arguments(callee, Items::new(alloc)))?;
    if !is_shallow(stack) {
        return Ok(Move::TooDeep(name.place));
    }
    Ok(Move::Refuses)
}

// `|` behind the first name in the parentheses of an arrow's call.
fn first_bar(
    alloc: Global,
    stack: &mut Stack,
    callee: Callee,
    name: Name,
) -> Result<Move, AllocError>
    ensures { IfOk result (λ m. first_bar_of true stack.old callee name ≡ step_of stack.new m) }
{
    if is_iterator(callee.name.text.as_str()) {
        stack.push(Frame::Body(callee, name))?;
        return Ok(Move::Goes(Next::Operand));
    }
    unargued(alloc, stack, callee, name)
}

// `;` behind the first name in the parentheses of an arrow's call.
fn first_semicolon(
    alloc: Global,
    stack: &mut Stack,
    callee: Callee,
    name: Name,
) -> Result<Move, AllocError>
    ensures { IfOk result (λ m. first_semicolon_of true stack.old callee name ≡ step_of stack.new m) }
{
    if callee.name.text.as_str() == "iterate" {
        return Ok(Move::Goes(Next::OutcomeName(callee, name)));
    }
    unargued(alloc, stack, callee, name)
}

// Behind the first name in the parentheses of an arrow's call.
fn first(
    alloc: Global,
    stack: &mut Stack,
    callee: Callee,
    name: Name,
    symbol: Symbol,
    place: Place,
) -> Result<Move, AllocError>
    ensures { IfOk result (λ m. first_of true stack.old callee name symbol place ≡ step_of stack.new m) }
{
    match symbol {
        Symbol::Fixed(Sign::End(Ender::Bar)) => first_bar(alloc, stack, callee, name),
        Symbol::Fixed(Sign::Semicolon) => first_semicolon(alloc, stack, callee, name),
        other => argued(alloc, stack, callee, name, other, place),
    }
}

// The first argument, if it does not begin with the name that may be a variable.
fn open_arguments(
    alloc: Global,
    stack: &mut Stack,
    callee: Callee,
    symbol: Symbol,
    place: Place,
) -> Result<Move, AllocError>
    ensures { IfOk result (λ m. operand_of true (F.Arguments callee [] ∷ stack.old) symbol place ≡ step_of stack.new m) }
{
    stack.push(Frame::Arguments(callee, Items::new(alloc)))?;
    operand(stack, symbol, place)
}

// In the parentheses of a call.
fn argument(
    alloc: Global,
    stack: &mut Stack,
    callee: Callee,
    symbol: Symbol,
    place: Place,
) -> Result<Move, AllocError>
    ensures { IfOk result (λ m. argument_of true stack.old callee symbol place ≡ step_of stack.new m) }
{
    match symbol {
        Symbol::Fixed(Sign::End(Ender::Close)) => {
            Ok(Move::Goes(Next::Have(call(callee, Items::new(alloc)))))
        }
        Symbol::Name(text) => {
            if callee.arrow {
                return Ok(Move::Goes(Next::First(callee, Name { text, place })));
            }
            open_arguments(alloc, stack, callee, Symbol::Name(text), place)
        }
        other => open_arguments(alloc, stack, callee, other, place),
    }
}

fn class_name(meta: Name, symbol: Symbol, place: Place) -> Move
    ensures { (stack : List SomeFrame) → stepped true stack (N.ClassName meta) symbol place ≡ step_of stack result }
{
    match symbol {
        Symbol::Name(class) => Move::Goes(Next::Have(Expr {
            place: meta.place,
            what: ExprKind::Class(ClassRef {
                meta: meta.text,
                class,
                place: meta.place,
            }),
        })),
        _ => Move::Refuses,
    }
}

fn literal(at: Place, symbol: Symbol, place: Place) -> Move
    ensures { (stack : List SomeFrame) → stepped true stack (N.Literal at) symbol place ≡ step_of stack result }
{
    match symbol {
        Symbol::Name(name) => Move::Goes(Next::Have(Expr {
            what: ExprKind::Literal(name),
            place: at,
        })),
        _ => Move::Refuses,
    }
}

fn brace(word: CollWord, at: Place, symbol: Symbol, place: Place) -> Move
    ensures { (stack : List SomeFrame) → stepped true stack (N.Brace word at) symbol place ≡ step_of stack result }
{
    match symbol {
        Symbol::Fixed(Sign::OpenBrace) => Move::Goes(Next::Element(word, at)),
        _ => Move::Refuses,
    }
}

fn element(
    alloc: Global,
    stack: &mut Stack,
    word: CollWord,
    at: Place,
    symbol: Symbol,
    place: Place,
) -> Result<Move, AllocError>
    ensures { IfOk result (λ m. stepped true stack.old (N.Element word at) symbol place ≡ step_of stack.new m) }
{
    match symbol {
        Symbol::Fixed(Sign::End(Ender::CloseBrace)) => Ok(Move::Goes(Next::Have(Expr {
            what: ExprKind::Coll(word, Items::new(alloc)),
            place: at,
        }))),
        other => {
            stack.push(Frame::Elements(word, at, Items::new(alloc)))?;
            operand(stack, other, place)
        }
    }
}

fn let_name(at: Place, symbol: Symbol, place: Place) -> Move
    ensures { (stack : List SomeFrame) → stepped true stack (N.LetName at) symbol place ≡ step_of stack result }
{
    match symbol {
        Symbol::Name(text) => Move::Goes(Next::LetColon(at, Name { text, place })),
        _ => Move::Refuses,
    }
}

fn let_colon(
    stack: &mut Stack,
    at: Place,
    name: Name,
    symbol: Symbol,
    place: Place,
) -> Result<Move, AllocError>
    ensures { IfOk result (λ m. stepped true stack.old (N.LetColon at name) symbol place ≡ step_of stack.new m) }
{
    match symbol {
        Symbol::Fixed(Sign::Colon) => {
            stack.push(Frame::LetKind(at, name))?;
            Ok(Move::Goes(Next::Kind))
        }
        _ => Ok(Move::Refuses),
    }
}

fn outcome_name(callee: Callee, variable: Name, symbol: Symbol, place: Place) -> Move
    ensures { (stack : List SomeFrame) → stepped true stack (N.OutcomeName callee variable) symbol place ≡ step_of stack result }
{
    match symbol {
        Symbol::Name(text) => {
            Move::Goes(Next::OutcomeColon(callee, variable, Name { text, place }))
        }
        _ => Move::Refuses,
    }
}

fn outcome_colon(
    stack: &mut Stack,
    callee: Callee,
    variable: Name,
    outcome: Name,
    symbol: Symbol,
    place: Place,
) -> Result<Move, AllocError>
    ensures { IfOk result (λ m. stepped true stack.old (N.OutcomeColon callee variable outcome) symbol place ≡ step_of stack.new m) }
{
    match symbol {
        Symbol::Fixed(Sign::Colon) => {
            stack.push(Frame::OutcomeKind(callee, variable, outcome))?;
            Ok(Move::Goes(Next::Kind))
        }
        _ => Ok(Move::Refuses),
    }
}

fn feature_name(source: Boxed<Expr>, symbol: Symbol, place: Place) -> Move
    ensures { (stack : List SomeFrame) → stepped true stack (N.Feature source) symbol place ≡ step_of stack result }
{
    match symbol {
        Symbol::Name(text) => Move::Goes(Next::Named(source, Name { text, place })),
        _ => Move::Refuses,
    }
}

fn named(
    alloc: Global,
    stack: &mut Stack,
    source: Boxed<Expr>,
    name: Name,
    symbol: Symbol,
    place: Place,
) -> Result<Move, AllocError>
    ensures { IfOk result (λ m. stepped true stack.old (N.Named source name) symbol place ≡ step_of stack.new m) }
{
    match symbol {
        Symbol::Fixed(Sign::Open) => Ok(Move::Goes(Next::Argument(Callee {
            source,
            arrow: false,
            name,
        }))),
        other => have(alloc, stack, feature(source, name), other, place),
    }
}

fn arrow_name(source: Boxed<Expr>, symbol: Symbol, place: Place) -> Move
    ensures { (stack : List SomeFrame) → stepped true stack (N.ArrowName source) symbol place ≡ step_of stack result }
{
    match symbol {
        Symbol::Name(text) => Move::Goes(Next::ArrowOpen(source, Name { text, place })),
        _ => Move::Refuses,
    }
}

fn arrow_open(source: Boxed<Expr>, name: Name, symbol: Symbol, place: Place) -> Move
    ensures { (stack : List SomeFrame) → stepped true stack (N.ArrowOpen source name) symbol place ≡ step_of stack result }
{
    match symbol {
        Symbol::Fixed(Sign::Open) => Move::Goes(Next::Argument(Callee {
            source,
            arrow: true,
            name,
        })),
        _ => Move::Refuses,
    }
}

/// One symbol.
pub fn step(
    alloc: Global,
    stack: &mut Stack,
    next: Next,
    symbol: Symbol,
    place: Place,
) -> Result<Move, AllocError>
    ensures { IfOk result (λ m. stepped true stack.old next symbol place ≡ step_of stack.new m) }
{
    match next {
        Next::Operand => operand(stack, symbol, place),
        Next::Argument(callee) => argument(alloc, stack, callee, symbol, place),
        Next::First(callee, name) => first(alloc, stack, callee, name, symbol, place),
        Next::Word(name) => word(alloc, stack, name, symbol, place),
        Next::ClassName(meta) => Ok(class_name(meta, symbol, place)),
        Next::Literal(at) => Ok(literal(at, symbol, place)),
        Next::Brace(word, at) => Ok(brace(word, at, symbol, place)),
        Next::Element(word, at) => element(alloc, stack, word, at, symbol, place),
        Next::LetName(at) => Ok(let_name(at, symbol, place)),
        Next::LetColon(at, name) => let_colon(stack, at, name, symbol, place),
        Next::OutcomeName(callee, variable) => Ok(outcome_name(callee, variable, symbol, place)),
        Next::OutcomeColon(callee, variable, outcome) => {
            outcome_colon(stack, callee, variable, outcome, symbol, place)
        }
        Next::Kind => Ok(a_kind(symbol, place)),
        Next::KindOpen(word, at) => kind_open(stack, word, at, symbol, place),
        Next::KindBang(meta) => Ok(kind_bang(meta, symbol, place)),
        Next::KindClass(meta) => Ok(kind_class(meta, symbol, place)),
        Next::HaveKind(kind) => have_kind(alloc, stack, kind, symbol),
        Next::Feature(source) => Ok(feature_name(source, symbol, place)),
        Next::Named(source, name) => named(alloc, stack, source, name, symbol, place),
        Next::ArrowName(source) => Ok(arrow_name(source, symbol, place)),
        Next::ArrowOpen(source, name) => Ok(arrow_open(source, name, symbol, place)),
        Next::Have(e) => have(alloc, stack, e, symbol, place),
    }
}

/// The end of the text.
pub fn last(alloc: Global, stack: &mut Stack, next: Next) -> Result<Move, AllocError>
    ensures { IfOk result (λ m. last_of true stack.old next ≡ step_of stack.new m) }
{
    match next {
        Next::Have(e) => Ok(Move::Stops(e)),
        Next::Word(name) => Ok(Move::Stops(variable(name))),
        Next::Named(source, name) => Ok(Move::Stops(feature(source, name))),
        Next::First(callee, name) => unargued(alloc, stack, callee, name),
        _ => Ok(Move::Refuses),
    }
}
