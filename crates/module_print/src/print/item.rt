// Helpers and rules, each on a line of its own.
ghost use Rattle.std.specs.Prelude.{◌≡◌, ◌++◌, flat_map, OnOk};
ghost use Rattle.module_grammar.specs.Grammar.{context_marks, signature_marks, helper_marks, words_marks, parent_marks, guard_marks, block_marks, rule_marks, item_marks};
ghost use Rattle.module_print.specs.Writing.{context_written, signature_written, helper_written, abstract_words, sort_words, parent_written, guard_written, block_written, called_written, matched_written, by_sort, item_written};
ghost use Rattle.module_print.specs.Pending.{spaced};
ghost use Rattle.module_print.specs.Fragments.{rest_text, head_text, called_text};
ghost use Rattle.module_print.specs.Printed.{line_text};

use crate::print::lists::{push_params, push_sources, push_targets, push_using};
use crate::print::nested::{push_expression, push_kind, push_statements};
use crate::print::token::{push_keyword, push_last, push_name, push_sign};
use atl_base::text::Text;
use atl_tree::expr::{BinaryOp, Expr};
use atl_tree::kind::KindNode;
use atl_tree::module::{Helper, Item, Param, Rule, RuleSort};
use atl_tree::name::Name;
use atl_tree::statements::Statements;
use module_grammar::keyword::Keyword;
use ocl_parse::sign::{Ender, Sign};
use sqlite_items::Items;
use std::alloc::{AllocError, Global};

fn push_context(alloc: Global, out: &mut Text, context: &Option<KindNode>) -> Result<(), AllocError>
    ensures { OnOk result (out.new ≡ out.old ++ spaced (context_marks (context_written context.now))) }
{
    match context {
        None => Ok(()),
        Some(kind) => {
            push_keyword(out, Keyword::Context)?;
            push_kind(alloc, out, kind)
        }
    }
}

fn push_signature(
    alloc: Global,
    out: &mut Text,
    params: &Option<Items<Param>>,
) -> Result<(), AllocError>
    ensures { OnOk result (out.new ≡ out.old ++ spaced (signature_marks (signature_written params.now))) }
{
    match params {
        None => Ok(()),
        Some(params) => push_params(alloc, out, params.as_slice()),
    }
}

fn push_helper(alloc: Global, out: &mut Text, helper: &Helper) -> Result<(), AllocError>
    ensures { OnOk result (out.new ≡ out.old ++ line_text (helper_marks (helper_written helper.now))) }
{
    push_keyword(out, Keyword::Helper)?;
    push_context(alloc, out, &helper.context)?;
    push_keyword(out, Keyword::Def)?;
    push_sign(out, Sign::Colon)?;
    push_name(alloc, out, &helper.name.text)?;
    push_signature(alloc, out, &helper.params)?;
    push_sign(out, Sign::Colon)?;
    push_kind(alloc, out, &helper.result)?;
    push_sign(out, Sign::Operator(BinaryOp::Eq))?;
    push_expression(alloc, out, &helper.body)?;
    push_last(out, Sign::Semicolon)
}

fn push_abstract(out: &mut Text, is_abstract: bool) -> Result<(), AllocError>
    ensures { OnOk result (out.new ≡ out.old ++ spaced (words_marks (abstract_words is_abstract))) }
{
    if is_abstract {
        return push_keyword(out, Keyword::Abstract);
    }
    Ok(())
}

// The words before `rule`: abstract, unique, lazy.
#[tactic(auto, using(crate::proofs::Fragmented::unique_words, crate::proofs::Fragmented::lazy_words))]
fn push_modifiers(out: &mut Text, sort: RuleSort, is_abstract: bool) -> Result<(), AllocError>
    ensures { OnOk result (out.new ≡ out.old ++ spaced (words_marks (sort_words sort (abstract_words is_abstract)))) }
{
    push_abstract(out, is_abstract)?;
    match sort {
        RuleSort::Unique => {
            push_keyword(out, Keyword::Unique)?;
            push_keyword(out, Keyword::Lazy)
        }
        RuleSort::Lazy => push_keyword(out, Keyword::Lazy),
        RuleSort::Matched => Ok(()),
        RuleSort::Called => Ok(()),
        RuleSort::Entry => Ok(()),
        RuleSort::End => Ok(()),
    }
}

fn push_parent(alloc: Global, out: &mut Text, parent: &Option<Name>) -> Result<(), AllocError>
    ensures { OnOk result (out.new ≡ out.old ++ spaced (parent_marks (parent_written parent.now))) }
{
    match parent {
        None => Ok(()),
        Some(name) => {
            push_keyword(out, Keyword::Extends)?;
            push_name(alloc, out, &name.text)
        }
    }
}

fn push_guard(alloc: Global, out: &mut Text, guard: &Option<Expr>) -> Result<(), AllocError>
    ensures { OnOk result (out.new ≡ out.old ++ spaced (guard_marks (guard_written guard.now))) }
{
    match guard {
        None => Ok(()),
        Some(condition) => {
            push_sign(out, Sign::Open)?;
            push_expression(alloc, out, condition)?;
            push_sign(out, Sign::End(Ender::Close))
        }
    }
}

fn push_block(alloc: Global, out: &mut Text, block: &Option<Statements>) -> Result<(), AllocError>
    ensures { OnOk result (out.new ≡ out.old ++ spaced (block_marks (block_written block.now))) }
{
    match block {
        None => Ok(()),
        Some(stats) => {
            push_keyword(out, Keyword::Do)?;
            push_sign(out, Sign::OpenBrace)?;
            push_statements(alloc, out, stats.as_slice())?;
            push_sign(out, Sign::End(Ender::CloseBrace))
        }
    }
}

// The variables, the targets and the block of a rule, and its end.
fn push_rest(alloc: Global, out: &mut Text, rule: &Rule) -> Result<(), AllocError>
    ensures { OnOk result (out.new ≡ out.old ++ rest_text rule.now) }
{
    push_using(alloc, out, rule.locals.as_slice())?;
    push_targets(alloc, out, rule.targets.as_slice())?;
    push_block(alloc, out, &rule.block)?;
    push_last(out, Sign::End(Ender::CloseBrace))
}

// The words and the name of a rule with sources, and what it extends.
fn push_head(alloc: Global, out: &mut Text, rule: &Rule) -> Result<(), AllocError>
    ensures { OnOk result (out.new ≡ out.old ++ head_text rule.now) }
{
    push_modifiers(out, rule.sort, rule.is_abstract)?;
    push_keyword(out, Keyword::Rule)?;
    push_name(alloc, out, &rule.name.text)?;
    push_parent(alloc, out, &rule.parent)
}

fn push_matched(alloc: Global, out: &mut Text, rule: &Rule) -> Result<(), AllocError>
    ensures { OnOk result (out.new ≡ out.old ++ line_text (rule_marks (matched_written rule.now))) }
{
    push_head(alloc, out, rule)?;
    push_sign(out, Sign::OpenBrace)?;
    push_keyword(out, Keyword::From)?;
    push_sources(alloc, out, rule.sources.as_slice())?;
    push_guard(alloc, out, &rule.guard)?;
    push_rest(alloc, out, rule)
}

// A rule without sources, behind the word before it.
fn push_called(alloc: Global, out: &mut Text, rule: &Rule) -> Result<(), AllocError>
    ensures { OnOk result (out.new ≡ out.old ++ called_text rule.now) }
{
    push_keyword(out, Keyword::Rule)?;
    push_name(alloc, out, &rule.name.text)?;
    push_params(alloc, out, rule.params.as_slice())?;
    push_sign(out, Sign::OpenBrace)?;
    push_rest(alloc, out, rule)
}

fn push_rule(alloc: Global, out: &mut Text, rule: &Rule) -> Result<(), AllocError>
    ensures { OnOk result (out.new ≡ out.old ++ line_text (rule_marks (by_sort rule.now.sort rule.now))) }
{
    match rule.sort {
        RuleSort::Called => push_called(alloc, out, rule),
        RuleSort::Entry => {
            push_keyword(out, Keyword::Entrypoint)?;
            push_called(alloc, out, rule)
        }
        RuleSort::End => {
            push_keyword(out, Keyword::Endpoint)?;
            push_called(alloc, out, rule)
        }
        RuleSort::Matched => push_matched(alloc, out, rule),
        RuleSort::Lazy => push_matched(alloc, out, rule),
        RuleSort::Unique => push_matched(alloc, out, rule),
    }
}

fn push_item(alloc: Global, out: &mut Text, item: &Item) -> Result<(), AllocError>
    ensures { OnOk result (out.new ≡ out.old ++ line_text (item_marks (item_written item.now))) }
{
    match item {
        Item::Help(helper) => push_helper(alloc, out, helper),
        Item::Make(rule) => push_rule(alloc, out, rule),
    }
}

/// Adds the lines of items.
pub(crate) fn push_items(alloc: Global, out: &mut Text, items: &[Item]) -> Result<(), AllocError>
    ensures { OnOk result (out.new ≡ out.old ++ flat_map (λ i. line_text (item_marks (item_written i))) items.now) }
{
    for item in items {
        push_item(alloc, out, item)?;
    }
    Ok(())
}
