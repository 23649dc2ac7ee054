// The objects that fragments name. (`path.rt` has the fragments of objects.)
ghost use Rattle.std.specs.Prelude.{◌≡◌, ◌+◌, ◌-◌, ◌*◌, ◌<◌, ◌&&◌, Some, None, length, nat_lt, find, if◌then◌else◌};
ghost use Rattle.std.specs.Int.{is_in_range};
ghost use Rattle.std.specs.Option.{option_and_then};
ghost use Rattle.std.specs.Str.{bytes_eq};
ghost use Rattle.ecore_meta.specs.Inheritance.{name_of};
ghost use Rattle.ecore_meta.specs.Valid.{number_of};
ghost use Rattle.model_store.specs.Paths.{are_digits, parts_of, root_named, is_content, content_feature, content_at, many_content, single_content, content_in_class, content_named, descend, object_of_path};

use crate::lookups::{contains, first_object, is_many};
use crate::parts::Cellv;
use crate::store::Store;
use atl_base::numbers::{ClassId, FeatId, ObjId};
use ecore_meta::metamodel::Metamodel;

// A number with one digit more, where that is below a bound.
fn next_number(number: usize, b: u8, bound: usize) -> Option<usize>
    ensures { result ≡ (if is_in_range 48 57 b && nat_lt (10 * number + (b - 48)) bound then Some (10 * number + (b - 48)) else None) }
{
    if !b.is_ascii_digit() {
        return None;
    }
    let next = number.checked_mul(10)?.checked_add((b - b'0') as usize)?;
    if next < bound { Some(next) } else { None }
}

// The number of these digits, where it is below a bound.
fn number_below(digits: &[u8], bound: usize) -> Option<usize>
    ensures { result ≡ (if are_digits digits.now && nat_lt (number_of digits.now) bound then Some (number_of digits.now) else None) }
{
    if digits.is_empty() {
        return None;
    }
    let mut number = 0;
    for b in digits {
        number = next_number(number, *b, bound)?;
    }
    Some(number)
}

// The root that the first part of a fragment names.
fn root_named(roots: &[ObjId], digits: &str) -> Option<ObjId>
    ensures { result ≡ root_named roots.now digits.now }
{
    if roots.len() == 1 && digits.is_empty() {
        return Some(roots[0]);
    }
    let at = number_below(digits.as_bytes(), roots.len())?;
    Some(roots[at])
}

// Whether a feature has a name.
fn is_named(meta: &Metamodel, f: FeatId, name: &str) -> bool
    ensures { result ≡ bytes_eq (name_of meta.now.features f) name.now }
{
    match meta.all_features().get(f.0 as usize) {
        Some(feature) => feature.name.as_str() == name,
        None => name.is_empty(),
    }
}

// Whether a feature contains, and has a name.
fn is_content(meta: &Metamodel, f: FeatId, name: &str) -> bool
    ensures { result ≡ is_content meta.now name.now f }
{
    contains(meta, f) && is_named(meta, f, name)
}

// The containment feature of a name.
fn content_feature(meta: &Metamodel, class: ClassId, name: &str) -> Option<FeatId>
    requires { class.0 < length meta.now.classes }
    ensures { result ≡ content_feature meta.now class name.now }
{
    meta.features_seen(class)
        .iter()
        .copied()
        .find(|f| is_content(meta, *f, name))
}

// The object at a place of a slot.
fn content_at(cells: &[Cellv], digits: &str) -> Option<ObjId>
    ensures { result ≡ content_at cells.now digits.now }
{
    let at = number_below(digits.as_bytes(), cells.len())?;
    match &cells[at] {
        Cellv::Obj(q) => Some(*q),
        _ => None,
    }
}

// What an object contains at a place of a many-valued feature.
fn many_content(model: &Store, o: ObjId, digits: &str, f: FeatId) -> Option<ObjId>
    ensures { result ≡ many_content model.now o digits.now f }
{
    if is_many(model.meta(), f) {
        content_at(model.cells(o, f), digits)
    } else {
        None
    }
}

// What an object contains by a single-valued feature.
fn single_content(model: &Store, o: ObjId, f: FeatId) -> Option<ObjId>
    ensures { result ≡ single_content model.now o f }
{
    if is_many(model.meta(), f) {
        None
    } else {
        first_object(model.cells(o, f))
    }
}

// What an object contains by `f.i` or `f`.
fn content_in_class(model: &Store, o: ObjId, text: &str, class: ClassId) -> Option<ObjId>
    requires { class.0 < length model.now.meta.classes }
    ensures { result ≡ content_in_class model.now o text.now class }
{
    match text.split_once('.') {
        Some((name, digits)) => {
            many_content(
                model,
                o,
                digits,
                content_feature(model.meta(), class, name)?,
            )
        }
        None => single_content(model, o, content_feature(model.meta(), class, text)?),
    }
}

// What an object contains by a step.
fn content_named(model: &Store, o: ObjId, part: &str) -> Option<ObjId>
    ensures { result ≡ content_named model.now o part.now }
{
    let text = part.strip_prefix('@')?;
    content_in_class(model, o, text, model.class(o)?)
}

// What stands below an object after all steps.
fn descend(model: &Store, top: ObjId, steps: &str) -> Option<ObjId>
    ensures { result ≡ descend model.now (Some top) (parts_of steps.now) }
{
    let mut o = top;
    let mut rest = steps;
    'down: while let Some((part, more)) = rest.split_once('/') {
        o = content_named(model, o, part)?;
        rest = more;
    }
    content_named(model, o, rest)
}

impl Store {
    // The object of a fragment, and none where it names none.
    pub(crate) fn at_path(&self, path: &str) -> Option<ObjId>
        ensures { result ≡ object_of_path self.now path.now }
    {
        let below = path.strip_prefix('/')?;
        match below.split_once('/') {
            Some((root, steps)) => descend(self, root_named(self.roots(), root)?, steps),
            None => root_named(self.roots(), below),
        }
    }
}
