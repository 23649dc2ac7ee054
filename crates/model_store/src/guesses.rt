// Where each content stands in its slot, as far as is known: a guess, which a caller checks. A refused write can leave a wrong one.
ghost use Rattle.std.specs.Prelude.{◌<◌, length};

use crate::held::Held;
use crate::lookups::contains;
use crate::parts::Cellv;
use crate::store::Store;
use atl_base::numbers::ObjId;
use ecore_meta::metamodel::Metamodel;
use std::alloc::AllocError;

// Another guess.
pub(crate) fn guess(places: &mut [usize], p: ObjId, place: usize) {
    let at = p.0 as usize;
    if at < places.len() {
        places[at] = place;
    }
}

// A guess more, for the object of this number. A refusal can have left one for it.
pub(crate) fn guess_more(places: &mut Vec<usize>, number: usize) -> Result<(), AllocError> {
    if places.len() <= number {
        places.push(0)?;
    }
    Ok(())
}

// The places in a slot, where it contains.
pub(crate) fn guess_slot(places: &mut [usize], content: bool, cells: &[Cellv]) {
    if content {
        for (place, cell) in cells.iter().enumerate() {
            if let Cellv::Obj(p) = cell {
                guess(places, *p, place);
            }
        }
    }
}

// The places in the slots of an object.
fn guess_object(places: &mut [usize], meta: &Metamodel, object: &Held)
    requires { object.now.class.0 < length meta.now.classes }
{
    let features = meta.features_seen(object.class());
    for (f, slot) in features.iter().zip(object.slots()) {
        guess_slot(places, contains(meta, *f), slot.as_slice());
    }
}

// The places in all slots.
pub(crate) fn guess_all(model: &Store) -> Result<Vec<usize>, AllocError> {
    let mut places = vec![in model.alloc(); 0; model.given() as usize]?;
    for n in 0..model.given() {
        if let Some(object) = model.object(ObjId(n)) {
            guess_object(&mut places, model.meta(), object);
        }
    }
    Ok(places)
}
