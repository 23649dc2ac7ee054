// Elements one after another, by a stack of what is still to be written.
ghost use Rattle.std.specs.Prelude.{◌≡◌, ◌++◌, ◌<◌, ◌-◌, ◌^◌, ◌∷◌, IfOk, OnOk, length, map, reverse};
ghost use Rattle.doc_text.specs.Written.{contents, end_tag, indent, written_child, written_element};
ghost use Rattle.xmi_write.specs.Pending.{begun, ends, pending, todo_lines};
ghost use Rattle.xmi_write.specs.Settings.{IsSetting};
ghost use Rattle.xmi_write.specs.Xmi.{declared, element, root_name, value_element, words};

use crate::heads::{attributes_of, head_named};
use crate::named::Named;
use crate::parts::{Part, Todo, parts_of, stack_up};
use crate::setting::Setting;
use crate::values::push_value;
use atl_base::numbers::{FeatId, ObjId};
use atl_base::text::Text;
use doc_text::tree::Element;
use doc_text::{Escapes, push_end_tag, push_escaped, push_opening};
use model_store::parts::Cellv;
use sqlite_items::Items;
use std::alloc::AllocError;

/// Begins an element behind `depth` others: it is written whole, or stays open for what is to stand in it. Gives how many
/// elements are open then.
pub(crate) fn begin<'a>(
    out: &mut Text,
    stack: &mut Vec<Todo<'a>>,
    setting: &Setting<'a>,
    named: Named,
    head: &Element,
    inside: Vec<Todo<'a>>,
    depth: usize,
) -> Result<usize, AllocError>
    requires setting { IsSetting setting.now }
    requires few { depth < 2 ^ 64 - 1 }
    requires depth { ends (reverse stack.old.items) ≡ depth }
    requires inside { ends inside.items ≡ 0 }
    ensures written { OnOk result (out.new ++ pending setting.now.model.now (reverse stack.new.items)
        ≡ out.old ++ (begun setting.now.model.now named head.now inside.entry.items depth ++ pending setting.now.model.now (reverse stack.old.items))) }
    ensures depth { IfOk result (λ deep. ends (reverse stack.new.items) ≡ deep) }
    ensures grows { OnOk result (length out.old < length out.new) }
{
    push_opening(out, setting.declared.as_slice(), head, depth)?;
    if inside.is_empty() {
        out.push_ascii("/>\n")?;
        return Ok(depth);
    }
    out.push_ascii(">\n")?;
    stack.push(Todo::End(named))?;
    stack_up(stack, inside)?;
    Ok(depth + 1)
}

// Begins an object's element.
fn push_object<'a>(
    out: &mut Text,
    stack: &mut Vec<Todo<'a>>,
    setting: &Setting<'a>,
    named: Named,
    o: ObjId,
    depth: usize,
) -> Result<usize, AllocError>
    requires setting { IsSetting setting.now }
    requires few { depth < 2 ^ 64 - 1 }
    requires depth { ends (reverse stack.old.items) ≡ depth }
    ensures written { OnOk result (out.new ++ pending setting.now.model.now (reverse stack.new.items)
        ≡ out.old ++ (written_element (declared setting.now.model.now.meta) (element setting.now.model.now named o) depth ++ pending setting.now.model.now (reverse stack.old.items))) }
    ensures depth { IfOk result (λ deep. ends (reverse stack.new.items) ≡ deep) }
    ensures grows { OnOk result (length out.old < length out.new) }
{
    let alloc = setting.alloc;
    let meta = setting.model.meta();
    let Some(object) = setting.model.object(o) else {
        let head = head_named(alloc, meta, named, Items::new(alloc), Vec::new(alloc))?;
        return begin(out, stack, setting, named, &head, Vec::new(alloc), depth);
    };
    let attributes = attributes_of(setting, Vec::new(alloc), named, object)?;
    let head = head_named(alloc, meta, named, Items::new(alloc), attributes)?;
    let inside = parts_of(alloc, meta, object)?;
    begin(out, stack, setting, named, &head, inside, depth)
}

// Adds a text alone, and the end tag of its element.
fn push_words(
    out: &mut Text,
    setting: &Setting,
    head: &Element,
    text: &Text,
) -> Result<(), AllocError>
    ensures { OnOk result (out.new ≡ out.old ++ contents (end_tag setting.now.declared head.now.space head.now.name) 0 (map (written_child setting.now.declared) (words text.now))) }
{
    if text.as_str().is_empty() {
        return out.push_ascii("/>\n");
    }
    out.push_ascii(">")?;
    push_escaped(out, Escapes::Text, text)?;
    push_end_tag(out, setting.declared.as_slice(), head)
}

// Adds the element of a value.
fn push_value_element(
    out: &mut Text,
    setting: &Setting,
    f: FeatId,
    value: &Cellv,
    depth: usize,
) -> Result<(), AllocError>
    requires { IsSetting setting.now }
    ensures written { OnOk result (out.new ≡ out.old ++ written_element (declared setting.now.model.now.meta) (value_element setting.now.model.now f value.now) depth) }
    ensures grows { OnOk result (length out.old < length out.new) }
{
    let alloc = setting.alloc;
    let mut words = Text::new(alloc);
    push_value(&mut words, setting.model, f, value)?;
    let meta = setting.model.meta();
    let head = head_named(
        alloc,
        meta,
        Named::Inside(f),
        Items::new(alloc),
        Vec::new(alloc),
    )?;
    push_opening(out, setting.declared.as_slice(), &head, depth)?;
    push_words(out, setting, &head, &words)
}

fn push_indent(out: &mut Text, depth: usize) -> Result<(), AllocError>
    ensures { OnOk result (out.new ≡ out.old ++ indent depth) }
{
    for _level in 0..depth {
        out.push_ascii("  ")?;
    }
    Ok(())
}

// Ends an element that is behind `depth` others.
fn push_end(out: &mut Text, setting: &Setting, named: Named, depth: usize) -> Result<(), AllocError>
    requires { IsSetting setting.now }
    ensures written { OnOk result (out.new ≡ out.old ++ todo_lines setting.now.model.now depth (Todo.End named)) }
    ensures grows { OnOk result (length out.old < length out.new) }
{
    let alloc = setting.alloc;
    let meta = setting.model.meta();
    let head = head_named(alloc, meta, named, Items::new(alloc), Vec::new(alloc))?;
    push_indent(out, depth)?;
    push_end_tag(out, setting.declared.as_slice(), &head)
}

/// The name of a root.
pub(crate) fn root_name(setting: &Setting, o: ObjId) -> Named
    ensures { result ≡ root_name setting.now.model.now o }
{
    match setting.model.object(o) {
        Some(object) => Named::Root(object.class()),
        None => Named::Around,
    }
}

// Adds a part of an object.
fn push_part<'a>(
    out: &mut Text,
    stack: &mut Vec<Todo<'a>>,
    setting: &Setting<'a>,
    part: Part<'a>,
    depth: usize,
) -> Result<usize, AllocError>
    requires setting { IsSetting setting.now }
    requires few { depth < 2 ^ 64 - 1 }
    requires depth { ends (reverse stack.old.items) ≡ depth }
    ensures written { OnOk result (out.new ++ pending setting.now.model.now (reverse stack.new.items)
        ≡ out.old ++ pending setting.now.model.now (Todo.Inside part.entry ∷ reverse stack.old.items)) }
    ensures depth { IfOk result (λ deep. ends (reverse stack.new.items) ≡ deep) }
    ensures grows { OnOk result (length out.old < length out.new) }
{
    match part {
        Part::Content(f, o) => push_object(out, stack, setting, Named::Inside(f), o, depth),
        Part::Value(f, value) => {
            push_value_element(out, setting, f, value, depth)?;
            Ok(depth)
        }
    }
}

/// Adds what was on top of the stack; gives how many elements are open then.
pub(crate) fn push_next<'a>(
    out: &mut Text,
    stack: &mut Vec<Todo<'a>>,
    setting: &Setting<'a>,
    todo: Todo<'a>,
    depth: usize,
) -> Result<usize, AllocError>
    requires setting { IsSetting setting.now }
    requires few { depth < 2 ^ 64 - 1 }
    requires depth { ends (todo ∷ reverse stack.old.items) ≡ depth }
    ensures written { OnOk result (out.new ++ pending setting.now.model.now (reverse stack.new.items)
        ≡ out.old ++ pending setting.now.model.now (todo.entry ∷ reverse stack.old.items)) }
    ensures depth { IfOk result (λ deep. ends (reverse stack.new.items) ≡ deep) }
    ensures grows { OnOk result (length out.old < length out.new) }
{
    match todo {
        Todo::Inside(part) => push_part(out, stack, setting, part, depth),
        Todo::Root(o) => push_object(out, stack, setting, root_name(setting, o), o, depth),
        Todo::End(named) => {
            push_end(out, setting, named, depth - 1)?;
            Ok(depth - 1)
        }
    }
}
