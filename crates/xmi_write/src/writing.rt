// Writing a model.
ghost use Rattle.std.specs.Prelude.{◌≡◌, ◌++◌, ◌<◌, ◌∷◌, [], IfOk, OnOk, length, map, reverse};
ghost use Rattle.doc_text.specs.Written.{declaration, written_element};
ghost use Rattle.model_store.specs.Order.{HasNoCycle};
ghost use Rattle.xmi_write.specs.Answers.{WritesModel};
ghost use Rattle.xmi_write.specs.Pending.{ends, pending};
ghost use Rattle.xmi_write.specs.Settings.{IsSetting};
ghost use Rattle.xmi_write.specs.Xmi.{around, declared, document, outermost, root_element, version, xmi};

use crate::cycles::least_cycle;
use crate::elements::{begin, push_next, root_name};
use crate::heads::{attributes_of, head_named, version};
use crate::named::Named;
use crate::parts::{Todo, parts_of, root_parts};
use crate::refusal::WriteRefusal;
use crate::setting::{Setting, declared, setting_of};
use atl_base::numbers::ObjId;
use atl_base::text::Text;
use doc_text::DECLARATION;
use doc_text::tree::Attribute;
use model_store::model::Model;
use std::alloc::{AllocError, Global};

// What stands first in the element that a file begins with.
fn first_attributes(alloc: Global) -> Result<Vec<Attribute>, AllocError>
    ensures { IfOk result (λ list. list.items ≡ version ∷ []) }
{
    let mut list = Vec::new(alloc);
    list.push(version(alloc)?)?;
    Ok(list)
}

// Begins a file of one root.
fn begin_root<'a>(
    out: &mut Text,
    stack: &mut Vec<Todo<'a>>,
    setting: &Setting<'a>,
    o: ObjId,
) -> Result<usize, AllocError>
    requires setting { IsSetting setting.now }
    requires empty { stack.old.items ≡ [] }
    ensures written { OnOk result (out.new ++ pending setting.now.model.now (reverse stack.new.items)
        ≡ out.old ++ written_element (declared setting.now.model.now.meta) (outermost setting.now.model.now.meta (root_element setting.now.model.now o)) 0) }
    ensures depth { IfOk result (λ deep. ends (reverse stack.new.items) ≡ deep) }
{
    let alloc = setting.alloc;
    let meta = setting.model.meta();
    let named = root_name(setting, o);
    let first = first_attributes(alloc)?;
    let spaces = declared(alloc, meta)?;
    let Some(object) = setting.model.object(o) else {
        let head = head_named(alloc, meta, named, spaces, first)?;
        return begin(out, stack, setting, named, &head, Vec::new(alloc), 0);
    };
    let attributes = attributes_of(setting, first, named, object)?;
    let head = head_named(alloc, meta, named, spaces, attributes)?;
    let inside = parts_of(alloc, meta, object)?;
    begin(out, stack, setting, named, &head, inside, 0)
}

// Begins a file of several roots, or none.
fn begin_around<'a>(
    out: &mut Text,
    stack: &mut Vec<Todo<'a>>,
    setting: &Setting<'a>,
    roots: &[ObjId],
) -> Result<usize, AllocError>
    requires setting { IsSetting setting.now }
    requires empty { stack.old.items ≡ [] }
    ensures written { OnOk result (out.new ++ pending setting.now.model.now (reverse stack.new.items)
        ≡ out.old ++ written_element (declared setting.now.model.now.meta) (outermost setting.now.model.now.meta (around setting.now.model.now.meta (map (root_element setting.now.model.now) roots.now))) 0) }
    ensures depth { IfOk result (λ deep. ends (reverse stack.new.items) ≡ deep) }
{
    let alloc = setting.alloc;
    let meta = setting.model.meta();
    let first = first_attributes(alloc)?;
    let spaces = declared(alloc, meta)?;
    let head = head_named(alloc, meta, Named::Around, spaces, first)?;
    let inside = root_parts(alloc, roots)?;
    begin(out, stack, setting, Named::Around, &head, inside, 0)
}

// Begins a file.
fn begin_file<'a>(
    out: &mut Text,
    stack: &mut Vec<Todo<'a>>,
    setting: &Setting<'a>,
) -> Result<usize, AllocError>
    requires setting { IsSetting setting.now }
    requires empty { stack.old.items ≡ [] }
    ensures written { OnOk result (out.new ++ pending setting.now.model.now (reverse stack.new.items)
        ≡ out.old ++ written_element (document setting.now.model.now).root.declared (document setting.now.model.now).root 0) }
    ensures depth { IfOk result (λ deep. ends (reverse stack.new.items) ≡ deep) }
{
    let roots = setting.model.roots();
    if roots.len() == 1 {
        return begin_root(out, stack, setting, roots[0]);
    }
    begin_around(out, stack, setting, roots)
}

// The text of a model without a containment cycle.
fn text_of(alloc: Global, model: &Model) -> Result<Text, AllocError>
    requires { HasNoCycle model.now }
    ensures { IfOk result (λ text. text ≡ xmi model.now) }
{
    let setting = setting_of(alloc, model)?;
    let mut out = Text::from_ascii(alloc, DECLARATION)?;
    let mut stack = Vec::new(alloc);
    let mut depth = begin_file(&mut out, &mut stack, &setting)?;
    while let Some(todo) = stack.pop() {
        depth = push_next(&mut out, &mut stack, &setting, todo, depth)?;
    }
    Ok(out)
}

/// The XMI text of a model.
pub fn write_model(alloc: Global, model: &Model) -> Result<Text, WriteRefusal>
    ensures { WritesModel model.now result }
{
    model.valid();
    match least_cycle(alloc, model)? {
        Some(ring) => Err(WriteRefusal::Cycle(ring)),
        None => Ok(text_of(alloc, model)?),
    }
}
