// Lists with commas between, and the parts of them: models, parameters, sources, variables, bindings and targets.
ghost use Rattle.std.specs.Prelude.{◌≡◌, ◌++◌, flat_map, OnOk};
ghost use Rattle.module_grammar.specs.Grammar.{models_marks, bracketed_marks, sources_marks, using_marks, list_marks, to_marks};
ghost use Rattle.module_print.specs.Writing.{models_written, bracketed_written, sources_written, using_written, list_written, to_written};
ghost use Rattle.module_print.specs.Pending.{spaced};
ghost use Rattle.module_print.specs.Fragments.{model_text, param_text, params_text, class_text, source_text, local_text, bind_text, target_text, comma};

use crate::print::nested::{push_expression, push_kind};
use crate::print::token::{push_keyword, push_name, push_sign};
use atl_base::text::Text;
use atl_tree::expr::BinaryOp;
use atl_tree::module::{Bind, LocalVar, ModelDecl, Param, Pattern, Target};
use atl_tree::name::ClassRef;
use module_grammar::keyword::Keyword;
use ocl_parse::sign::{Ender, Sign};
use std::alloc::{AllocError, Global};

fn push_model(alloc: Global, out: &mut Text, decl: &ModelDecl) -> Result<(), AllocError>
    ensures { OnOk result (out.new ≡ out.old ++ model_text decl.now) }
{
    push_name(alloc, out, &decl.model.text)?;
    push_sign(out, Sign::Colon)?;
    push_name(alloc, out, &decl.meta.text)
}

fn push_more_models(alloc: Global, out: &mut Text, decls: &[ModelDecl]) -> Result<(), AllocError>
    ensures { OnOk result (out.new ≡ out.old ++ flat_map (λ d. comma (model_text d)) decls.now) }
{
    for decl in decls {
        push_sign(out, Sign::End(Ender::Comma))?;
        push_model(alloc, out, decl)?;
    }
    Ok(())
}

/// Adds the models of one side of a header; where a tree has none, an empty name stands there.
pub(crate) fn push_models(
    alloc: Global,
    out: &mut Text,
    decls: &[ModelDecl],
) -> Result<(), AllocError>
    ensures { OnOk result (out.new ≡ out.old ++ spaced (models_marks (models_written decls.now))) }
{
    match decls.split_first() {
        None => out.push_ascii("\"\" : \"\" "),
        Some((decl, others)) => {
            push_model(alloc, out, decl)?;
            push_more_models(alloc, out, others)
        }
    }
}

fn push_param(alloc: Global, out: &mut Text, param: &Param) -> Result<(), AllocError>
    ensures { OnOk result (out.new ≡ out.old ++ param_text param.now) }
{
    push_name(alloc, out, &param.name.text)?;
    push_sign(out, Sign::Colon)?;
    push_kind(alloc, out, &param.kind)
}

fn push_more_params(alloc: Global, out: &mut Text, params: &[Param]) -> Result<(), AllocError>
    ensures { OnOk result (out.new ≡ out.old ++ flat_map (λ p. comma (param_text p)) params.now) }
{
    for param in params {
        push_sign(out, Sign::End(Ender::Comma))?;
        push_param(alloc, out, param)?;
    }
    Ok(())
}

fn push_all_params(alloc: Global, out: &mut Text, params: &[Param]) -> Result<(), AllocError>
    ensures { OnOk result (out.new ≡ out.old ++ params_text params.now) }
{
    match params.split_first() {
        None => Ok(()),
        Some((param, others)) => {
            push_param(alloc, out, param)?;
            push_more_params(alloc, out, others)
        }
    }
}

/// Adds parameters in parentheses.
pub(crate) fn push_params(alloc: Global, out: &mut Text, params: &[Param]) -> Result<(), AllocError>
    ensures { OnOk result (out.new ≡ out.old ++ spaced (bracketed_marks (bracketed_written params.now))) }
{
    push_sign(out, Sign::Open)?;
    push_all_params(alloc, out, params)?;
    push_sign(out, Sign::End(Ender::Close))
}

fn push_class(alloc: Global, out: &mut Text, class: &ClassRef) -> Result<(), AllocError>
    ensures { OnOk result (out.new ≡ out.old ++ class_text class.now) }
{
    push_name(alloc, out, &class.meta)?;
    push_sign(out, Sign::Bang)?;
    push_name(alloc, out, &class.class)
}

fn push_source(alloc: Global, out: &mut Text, source: &Pattern) -> Result<(), AllocError>
    ensures { OnOk result (out.new ≡ out.old ++ source_text source.now) }
{
    push_name(alloc, out, &source.name.text)?;
    push_sign(out, Sign::Colon)?;
    push_class(alloc, out, &source.class)
}

fn push_more_sources(alloc: Global, out: &mut Text, sources: &[Pattern]) -> Result<(), AllocError>
    ensures { OnOk result (out.new ≡ out.old ++ flat_map (λ s. comma (source_text s)) sources.now) }
{
    for source in sources {
        push_sign(out, Sign::End(Ender::Comma))?;
        push_source(alloc, out, source)?;
    }
    Ok(())
}

/// Adds the sources of a rule; where a tree has none, an empty name stands there.
pub(crate) fn push_sources(
    alloc: Global,
    out: &mut Text,
    sources: &[Pattern],
) -> Result<(), AllocError>
    ensures { OnOk result (out.new ≡ out.old ++ spaced (sources_marks (sources_written sources.now))) }
{
    match sources.split_first() {
        None => out.push_ascii("\"\" : \"\" ! \"\" "),
        Some((source, others)) => {
            push_source(alloc, out, source)?;
            push_more_sources(alloc, out, others)
        }
    }
}

fn push_local(alloc: Global, out: &mut Text, local: &LocalVar) -> Result<(), AllocError>
    ensures { OnOk result (out.new ≡ out.old ++ local_text local.now) }
{
    push_name(alloc, out, &local.name.text)?;
    push_sign(out, Sign::Colon)?;
    push_kind(alloc, out, &local.kind)?;
    push_sign(out, Sign::Operator(BinaryOp::Eq))?;
    push_expression(alloc, out, &local.value)?;
    push_sign(out, Sign::Semicolon)
}

fn push_locals(alloc: Global, out: &mut Text, locals: &[LocalVar]) -> Result<(), AllocError>
    ensures { OnOk result (out.new ≡ out.old ++ flat_map local_text locals.now) }
{
    for local in locals {
        push_local(alloc, out, local)?;
    }
    Ok(())
}

/// Adds the variables of `using`, where there are any.
pub(crate) fn push_using(
    alloc: Global,
    out: &mut Text,
    locals: &[LocalVar],
) -> Result<(), AllocError>
    ensures { OnOk result (out.new ≡ out.old ++ spaced (using_marks (using_written locals.now))) }
{
    if locals.is_empty() {
        return Ok(());
    }
    push_keyword(out, Keyword::Using)?;
    push_sign(out, Sign::OpenBrace)?;
    push_locals(alloc, out, locals)?;
    push_sign(out, Sign::End(Ender::CloseBrace))
}

fn push_bind(alloc: Global, out: &mut Text, bind: &Bind) -> Result<(), AllocError>
    ensures { OnOk result (out.new ≡ out.old ++ bind_text bind.now) }
{
    push_name(alloc, out, &bind.feature.text)?;
    push_keyword(out, Keyword::Gives)?;
    push_expression(alloc, out, &bind.value)
}

fn push_more_binds(alloc: Global, out: &mut Text, binds: &[Bind]) -> Result<(), AllocError>
    ensures { OnOk result (out.new ≡ out.old ++ flat_map (λ b. comma (bind_text b)) binds.now) }
{
    for bind in binds {
        push_sign(out, Sign::End(Ender::Comma))?;
        push_bind(alloc, out, bind)?;
    }
    Ok(())
}

// The bindings of a target in parentheses, where there are any.
fn push_binds(alloc: Global, out: &mut Text, binds: &[Bind]) -> Result<(), AllocError>
    ensures { OnOk result (out.new ≡ out.old ++ spaced (list_marks (list_written binds.now))) }
{
    match binds.split_first() {
        None => Ok(()),
        Some((bind, others)) => {
            push_sign(out, Sign::Open)?;
            push_bind(alloc, out, bind)?;
            push_more_binds(alloc, out, others)?;
            push_sign(out, Sign::End(Ender::Close))
        }
    }
}

fn push_target(alloc: Global, out: &mut Text, target: &Target) -> Result<(), AllocError>
    ensures { OnOk result (out.new ≡ out.old ++ target_text target.now) }
{
    push_name(alloc, out, &target.name.text)?;
    push_sign(out, Sign::Colon)?;
    push_class(alloc, out, &target.class)?;
    push_binds(alloc, out, target.binds.as_slice())
}

fn push_more_targets(alloc: Global, out: &mut Text, targets: &[Target]) -> Result<(), AllocError>
    ensures { OnOk result (out.new ≡ out.old ++ flat_map (λ t. comma (target_text t)) targets.now) }
{
    for target in targets {
        push_sign(out, Sign::End(Ender::Comma))?;
        push_target(alloc, out, target)?;
    }
    Ok(())
}

/// Adds the targets of `to`, where there are any.
pub(crate) fn push_targets(
    alloc: Global,
    out: &mut Text,
    targets: &[Target],
) -> Result<(), AllocError>
    ensures { OnOk result (out.new ≡ out.old ++ spaced (to_marks (to_written targets.now))) }
{
    match targets.split_first() {
        None => Ok(()),
        Some((target, others)) => {
            push_keyword(out, Keyword::To)?;
            push_target(alloc, out, target)?;
            push_more_targets(alloc, out, others)
        }
    }
}
