// Statements, in `do` and in the blocks within.
ghost use Rattle.std.specs.Prelude.{◌≡◌, ◌++◌, ◌∷◌, [], None, IfOk, reverse, true};
ghost use Rattle.atl_tree.specs.declared.module.Stat.TheVariants as A;
ghost use Rattle.ocl_parse.specs.declared.frame.Frame.TheVariants as F;
ghost use Rattle.ocl_parse.specs.declared.frame.Next.TheVariants as N;
ghost use Rattle.module_states.specs.Machine.{AtStat, ForStat, ForValues, InExpr, an_in as an_in_of, at_else as at_else_of, at_if as at_if_of, at_stat as at_stat_of, block_end as block_end_of, in_expr as in_expr_of, step as stepped};
ghost use Rattle.module_states.specs.Nexts.{blocks_in, blocks_of, is_else as is_else_of, is_open as is_open_of, meant, opening_of, state_of, stating_of, step_of};
ghost use Rattle.module_states.specs.declared.next.Stating.TheVariants as S;

use atl_base::place::Place;
use atl_tree::expr::Expr;
use atl_tree::module::Stat;
use atl_tree::name::Name;
use atl_tree::statements::Statements;
use module_elements::expr::{begin, stat_ends, step as step_expr};
use module_grammar::keyword::Keyword;
use module_states::content::Content;
use module_states::next::{
    Block, Draft, ForExpr, Move, Next, Opening, Outer, Part, Point, Stating,
};
use module_states::parts::with_block;
use module_states::wanted::{a_brace, a_name, an_in, an_open};
use ocl_parse::frame::{Frame, Next as NextInside};
use ocl_parse::sign::{Ender, Sign};
use ocl_parse::stack::Stack;
use ocl_parse::symbol::Symbol;
use sqlite_items::{Boxed, Items};
use std::alloc::{AllocError, Global};

// Behind the `}` of a block in another.
fn inner_end(block: Block, last: Outer) -> Result<Next, AllocError>
    ensures { IfOk result (λ n. block_end_of (blocks_in block.draft (last ∷ reverse block.outer)) block.stats ≡ state_of n) }
{
    let Block {
        draft,
        outer,
        stats,
    } = block;
    match last {
        Outer::Branch(before, condition) => {
            let block = Block {
                draft,
                outer,
                stats: before,
            };
            Ok(Next::InBlock(Stating::Else(block, condition, stats)))
        }
        Outer::Otherwise(before, condition, branch) => {
            let block = Block {
                draft,
                outer,
                stats: before,
            };
            stat_ends(
                block,
                Stat::If(condition, branch.into_items(), Some(stats.into_items())),
            )
        }
        Outer::Each(before, name, values) => {
            let block = Block {
                draft,
                outer,
                stats: before,
            };
            stat_ends(block, Stat::For(name, values, stats.into_items()))
        }
    }
}

// Behind the `}` of a block.
fn block_end(alloc: Global, block: Block) -> Result<Next, AllocError>
    ensures { IfOk result (λ n. block_end_of (blocks_of block) block.stats ≡ state_of n) }
{
    let mut block = block;
    match block.outer.pop() {
        None => {
            let Block {
                draft,
                outer: _,
                stats,
            } = block;
            let draft = with_block(alloc, draft, stats)?;
            Ok(Next::InRule(Point::RuleEnd, draft))
        }
        Some(last) => inner_end(block, last),
    }
}

// An expression begins a statement.
fn begins(alloc: Global, block: Block, content: Content, place: Place) -> Result<Move, AllocError>
    ensures { IfOk result (λ m. in_expr_of true (ForStat (blocks_of block) block.stats) [] N.Operand (meant content) place ≡ step_of m) }
{
    let part = Part {
        stack: Stack::new(alloc),
        next: NextInside::Operand,
    };
    let purpose = Boxed::new(alloc, ForExpr::Eval(block))?;
    step_expr(alloc, purpose, part, content, place)
}

// How a statement begins.
fn opening(content: &Content) -> Opening
    ensures { result ≡ opening_of (meant content.now) }
{
    match content {
        Content::Shared(Symbol::Fixed(Sign::End(Ender::CloseBrace))) => Opening::Closes,
        Content::Word(Keyword::For) => Opening::ForWord,
        Content::Shared(Symbol::Fixed(Sign::If)) => Opening::IfWord,
        _ => Opening::Expression,
    }
}

// A statement, or `}`.
#[tactic(auto, using(crate::proofs::Contexts::stat_closes, crate::proofs::Contexts::stat_for, crate::proofs::Contexts::stat_if, crate::proofs::Contexts::stat_expr))]
fn at_stat(alloc: Global, block: Block, content: Content, place: Place) -> Result<Move, AllocError>
    ensures { IfOk result (λ m. at_stat_of true (blocks_of block) block.stats (meant content) place ≡ step_of m) }
{
    match opening(&content) {
        Opening::Closes => Ok(Move::Goes(block_end(alloc, block)?)),
        Opening::ForWord => Ok(Move::Goes(Next::InBlock(Stating::For(block)))),
        Opening::IfWord => Ok(Move::Goes(Next::InBlock(Stating::If(block, place)))),
        Opening::Expression => {
            let moved = begins(alloc, block, content, place)?;
            Ok(moved)
        }
    }
}

// The condition of an expression begins a statement, behind the `if` at the place.
fn condition_begins(
    alloc: Global,
    block: Block,
    at: Place,
    content: Content,
    place: Place,
) -> Result<Move, AllocError>
    ensures { IfOk result (λ m. in_expr_of true (ForStat (blocks_of block) block.stats) (F.Condition at ∷ []) N.Operand (meant content) place ≡ step_of m) }
{
    let mut stack = Stack::new(alloc);
    stack.push(Frame::Condition(at))?;
    let part = Part {
        stack,
        next: NextInside::Operand,
    };
    let purpose = Boxed::new(alloc, ForExpr::Eval(block))?;
    step_expr(alloc, purpose, part, content, place)
}

fn is_open(content: &Content) -> bool
    ensures { result ≡ is_open_of (meant content.now) }
{
    matches!(content, Content::Shared(Symbol::Fixed(Sign::Open)))
}

// Behind the `if` that begins a statement, and stands at the place.
#[tactic(auto, using(crate::proofs::Contexts::if_open, crate::proofs::Contexts::if_else))]
fn at_if(
    alloc: Global,
    block: Block,
    at: Place,
    content: Content,
    place: Place,
) -> Result<Move, AllocError>
    ensures { IfOk result (λ m. at_if_of true (blocks_of block) block.stats at (meant content) place ≡ step_of m) }
{
    if is_open(&content) {
        return Ok(Move::Goes(begin(alloc, ForExpr::Condition(block))?));
    }
    let moved = condition_begins(alloc, block, at, content, place)?;
    Ok(moved)
}

// The statement has no `else`.
fn no_else(
    alloc: Global,
    block: Block,
    condition: Expr,
    branch: Statements,
    content: Content,
    place: Place,
) -> Result<Move, AllocError>
    ensures { IfOk result (λ m. at_stat_of true (blocks_of block) (block.stats ++ (A.If condition branch None ∷ [])) (meant content) place ≡ step_of m) }
{
    let mut block = block;
    block
        .stats
        .push(Stat::If(condition, branch.into_items(), None))?;
    at_stat(alloc, block, content, place)
}

fn is_else(content: &Content) -> bool
    ensures { result ≡ is_else_of (meant content.now) }
{
    matches!(
        content,
        Content::Shared(Symbol::Fixed(Sign::End(Ender::Else)))
    )
}

// `else`, or whatever may follow a statement.
#[tactic(auto, using(crate::proofs::Contexts::else_brace, crate::proofs::Contexts::no_else))]
fn at_else(
    alloc: Global,
    block: Block,
    condition: Expr,
    branch: Statements,
    content: Content,
    place: Place,
) -> Result<Move, AllocError>
    ensures { IfOk result (λ m. at_else_of true (blocks_of block) block.stats condition branch (meant content) place ≡ step_of m) }
{
    if is_else(&content) {
        return Ok(Move::Goes(Next::InBlock(Stating::ElseBrace(block, condition, branch))));
    }
    let moved = no_else(alloc, block, condition, branch, content, place)?;
    Ok(moved)
}

// A block begins within a block.
fn nested(
    alloc: Global,
    draft: Boxed<Draft>,
    outer: Items<Outer>,
    last: Outer,
) -> Result<Next, AllocError>
    ensures { IfOk result (λ n. AtStat (blocks_in draft (last ∷ reverse outer)) [] ≡ state_of n) }
{
    let mut outer = outer;
    outer.push(last)?;
    Ok(Next::InBlock(Stating::Statement(Block {
        draft,
        outer,
        stats: Statements::new(alloc),
    })))
}

// `{` behind a condition.
fn if_brace(
    alloc: Global,
    block: Block,
    condition: Expr,
    content: Content,
    place: Place,
) -> Result<Move, AllocError>
    ensures { IfOk result (λ m. stepped true (stating_of (S.IfBrace block condition)) (meant content) place ≡ step_of m) }
{
    let Block {
        draft,
        outer,
        stats,
    } = block;
    let then = nested(alloc, draft, outer, Outer::Branch(stats, condition))?;
    Ok(a_brace(content, then))
}

// `{` behind `else`.
fn else_brace(
    alloc: Global,
    block: Block,
    condition: Expr,
    branch: Statements,
    content: Content,
    place: Place,
) -> Result<Move, AllocError>
    ensures { IfOk result (λ m. stepped true (stating_of (S.ElseBrace block condition branch)) (meant content) place ≡ step_of m) }
{
    let Block {
        draft,
        outer,
        stats,
    } = block;
    let then = nested(
        alloc,
        draft,
        outer,
        Outer::Otherwise(stats, condition, branch),
    )?;
    Ok(a_brace(content, then))
}

// `{` behind the values of `for`.
fn for_brace(
    alloc: Global,
    block: Block,
    name: Name,
    values: Expr,
    content: Content,
    place: Place,
) -> Result<Move, AllocError>
    ensures { IfOk result (λ m. stepped true (stating_of (S.ForBrace block name values)) (meant content) place ≡ step_of m) }
{
    let Block {
        draft,
        outer,
        stats,
    } = block;
    let then = nested(alloc, draft, outer, Outer::Each(stats, name, values))?;
    Ok(a_brace(content, then))
}

fn for_name(block: Block, content: Content, place: Place) -> Move
    ensures { stepped true (stating_of (S.ForName block)) (meant content) place ≡ step_of result }
{
    match a_name(content, place) {
        Some(name) => Move::Goes(Next::InBlock(Stating::ForIn(block, name))),
        None => Move::Refuses,
    }
}

// `in`
fn for_in(alloc: Global, block: Block, name: Name, content: Content) -> Result<Move, AllocError>
    ensures { IfOk result (λ m. an_in_of (meant content) (InExpr (ForValues (blocks_of block) block.stats name) [] N.Operand) ≡ step_of m) }
{
    let then = begin(alloc, ForExpr::Values(block, name))?;
    Ok(an_in(content, then))
}

/// One token among statements.
pub fn step(
    alloc: Global,
    stating: Stating,
    content: Content,
    place: Place,
) -> Result<Move, AllocError>
    ensures { IfOk result (λ m. stepped true (stating_of stating) (meant content) place ≡ step_of m) }
{
    match stating {
        Stating::Statement(block) => at_stat(alloc, block, content, place),
        Stating::If(block, at) => at_if(alloc, block, at, content, place),
        Stating::IfBrace(block, condition) => if_brace(alloc, block, condition, content, place),
        Stating::Else(block, condition, branch) => {
            at_else(alloc, block, condition, branch, content, place)
        }
        Stating::ElseBrace(block, condition, branch) => {
            else_brace(alloc, block, condition, branch, content, place)
        }
        Stating::For(block) => Ok(an_open(content, Next::InBlock(Stating::ForName(block)))),
        Stating::ForName(block) => Ok(for_name(block, content, place)),
        Stating::ForIn(block, name) => for_in(alloc, block, name, content),
        Stating::ForBrace(block, name, values) => {
            for_brace(alloc, block, name, values, content, place)
        }
    }
}
