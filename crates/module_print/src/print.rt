// The canonical text of a module.
ghost use Rattle.std.specs.Prelude.{◌≡◌, ◌++◌, IfOk, OnOk};
ghost use Rattle.module_print.specs.Printed.{printed};
ghost use Rattle.module_print.specs.Fragments.{first_line, second_line};

mod expression;
mod item;
mod lists;
mod nested;
mod part;
mod statement;
mod text;
mod token;

use crate::print::item::push_items;
use crate::print::lists::push_models;
use crate::print::token::{push_keyword, push_last, push_name};
use atl_base::text::Text;
use atl_tree::module::Module;
use atl_tree::name::Name;
use module_grammar::keyword::Keyword;
use ocl_parse::sign::Sign;
use std::alloc::{AllocError, Global};

// The line of the module's name.
fn push_first_line(alloc: Global, out: &mut Text, name: &Name) -> Result<(), AllocError>
    ensures { OnOk result (out.new ≡ out.old ++ first_line name.now) }
{
    push_keyword(out, Keyword::Module)?;
    push_name(alloc, out, &name.text)?;
    push_last(out, Sign::Semicolon)
}

// The line of the models.
fn push_second_line(alloc: Global, out: &mut Text, module: &Module) -> Result<(), AllocError>
    ensures { OnOk result (out.new ≡ out.old ++ second_line «module».now) }
{
    push_keyword(out, Keyword::Create)?;
    push_models(alloc, out, module.targets.as_slice())?;
    push_keyword(out, Keyword::From)?;
    push_models(alloc, out, module.sources.as_slice())?;
    push_last(out, Sign::Semicolon)
}

/// The canonical text of a module: tokens with one blank between; `module`, `create`, each helper and each rule on a line
/// of its own; parentheses exactly where they are needed.
pub fn print_module(alloc: Global, module: &Module) -> Result<Text, AllocError>
    ensures { IfOk result (λ t. t ≡ printed «module».now) }
{
    let mut out = Text::new(alloc);
    push_first_line(alloc, &mut out, &module.name)?;
    push_second_line(alloc, &mut out, module)?;
    push_items(alloc, &mut out, module.items.as_slice())?;
    Ok(out)
}

#[cfg(test)]
mod tests;
