// A metamodel of nodes, built by hand, and the calls of its models.
ghost use Rattle.std.specs.Prelude.{◌≡◌, [], ◌∷◌, ◌++◌, IfOk, IsTrue, true, false, Some, None, codes, length};
ghost use Rattle.ecore_meta.specs.Valid.{IsMetamodel};
ghost use Rattle.model_store.specs.Order.{HasNoCycle};

use crate::model::Model;
use crate::order::contents;
use crate::parts::{Cellv, Object, Slot};
use crate::refusal::StoreRefusal;
use atl_base::numbers::{ClassId, FeatId, ObjId};
use atl_base::text::{Text, TextRefusal};
use ecore_meta::metamodel::Metamodel;
use ecore_meta::parts::{Class, FeatKind, Feature, Package, Parts};
use sqlite_items::Items;
use std::alloc::{AllocError, Global};
use std::rc::Rc;
use std::test::Fail;

const NAME: FeatId = FeatId(0);

const KIDS: FeatId = FeatId(1);

const UP: FeatId = FeatId(2);

const HEART: FeatId = FeatId(3);

const FRIENDS: FeatId = FeatId(4);

const ADMIRERS: FeatId = FeatId(5);

const SPOUSE: FeatId = FeatId(6);

const TAGS: FeatId = FeatId(7);

fn text(alloc: Global, words: &str) -> Result<Text, TextRefusal>
    ensures { IfOk result (λ t. t ≡ words.now) }
{
    Text::from_bytes(alloc, words.as_bytes())
}

// A package whose uri and prefix are its name.
fn package(alloc: Global, name: &str) -> Result<Items<Package>, TextRefusal>
    ensures { IfOk result (λ list. list ≡ record { name = name.now; uri = name.now; prefix = name.now } ∷ []) }
{
    let mut list = Items::new(alloc);
    list.push(Package {
        name: text(alloc, name)?,
        uri: text(alloc, name)?,
        prefix: text(alloc, name)?,
    })?;
    Ok(list)
}

// One class more.
fn with_class(
    alloc: Global,
    mut list: Items<Class>,
    name: &str,
    supers: &[ClassId],
    own: &[FeatId],
) -> Result<Items<Class>, TextRefusal>
    ensures { IfOk result (λ longer. longer ≡ list ++ record { name = name.now; «package» = 0; is_abstract = false; supers = supers.now; own = own.now } ∷ []) }
{
    list.push(Class {
        name: text(alloc, name)?,
        package: 0,
        is_abstract: false,
        supers: Items::from_slice(alloc, supers)?,
        own: Items::from_slice(alloc, own)?,
    })?;
    Ok(list)
}

// One feature of the first class more.
fn with_feature(
    alloc: Global,
    mut list: Items<Feature>,
    name: &str,
    kind: FeatKind,
    many: bool,
) -> Result<Items<Feature>, TextRefusal>
    ensures { IfOk result (λ longer. longer ≡ list ++ record { name = name.now; owner = record { 0 = 0 }; kind = kind; many = many; unique = true; is_id = false; default = None } ∷ []) }
{
    list.push(Feature {
        name: text(alloc, name)?,
        owner: ClassId(0),
        kind,
        many,
        unique: true,
        is_id: false,
        default: None,
    })?;
    Ok(list)
}

// A reference with an opposite.
fn refer(contains: bool, opposite: u32) -> FeatKind
    ensures { result ≡ FeatKind.Refer (record { 0 = 0 }) contains (Some (record { 0 = opposite })) }
{
    FeatKind::Refer {
        class: ClassId(0),
        contains,
        opposite: Some(FeatId(opposite)),
    }
}

// A containment without one.
fn alone() -> FeatKind
    ensures { result ≡ FeatKind.Refer (record { 0 = 0 }) true None }
{
    FeatKind::Refer {
        class: ClassId(0),
        contains: true,
        opposite: None,
    }
}

// Nodes, and leaves that are nodes.
fn nodes(alloc: Global) -> Result<Parts, TextRefusal>
    ensures { IfOk result IsMetamodel }
{
    let packages = package(alloc, "Nodes")?;
    let classes = with_class(
        alloc,
        Items::new(alloc),
        "Node",
        &[],
        &[
            FeatId(0),
            FeatId(1),
            FeatId(2),
            FeatId(3),
            FeatId(4),
            FeatId(5),
            FeatId(6),
            FeatId(7),
        ],
    )?;
    let classes = with_class(alloc, classes, "Leaf", &[ClassId(0)], &[])?;
    let features = with_feature(alloc, Items::new(alloc), "name", FeatKind::Str, false)?;
    let features = with_feature(alloc, features, "kids", refer(true, 2), true)?;
    let features = with_feature(alloc, features, "up", refer(false, 1), false)?;
    let features = with_feature(alloc, features, "heart", alone(), false)?;
    let features = with_feature(alloc, features, "friends", refer(false, 5), true)?;
    let features = with_feature(alloc, features, "admirers", refer(false, 4), true)?;
    let features = with_feature(alloc, features, "spouse", refer(false, 6), false)?;
    let features = with_feature(alloc, features, "tags", FeatKind::Str, true)?;
    Ok(Parts {
        packages,
        classes,
        features,
        enums: Items::new(alloc),
        skipped: Items::new(alloc),
    })
}

// A model without objects.
fn empty(alloc: Global) -> Result<Model, TextRefusal> {
    let meta = Metamodel::new(alloc, nodes(alloc)?)?;
    match Rc::new(alloc, meta) {
        Ok(meta) => Ok(Model::new(alloc, meta)?),
        Err(_) => Err(TextRefusal::Memory),
    }
}

// One class, without features.
fn things(alloc: Global) -> Result<Parts, TextRefusal>
    ensures { IfOk result (λ p. IsMetamodel p × (p.classes ≡ record { name = codes "Thing"; «package» = 0; is_abstract = false; supers = []; own = [] } ∷ [])) }
{
    let packages = package(alloc, "Things")?;
    let classes = with_class(alloc, Items::new(alloc), "Thing", &[], &[])?;
    Ok(Parts {
        packages,
        classes,
        features: Items::new(alloc),
        enums: Items::new(alloc),
        skipped: Items::new(alloc),
    })
}

// Two objects without slots.
fn bare_objects(alloc: Global) -> Result<Vec<Object>, AllocError>
    ensures { IfOk result (λ list. list.items ≡ record { class = record { 0 = 0 }; slots = [] } ∷ record { class = record { 0 = 0 }; slots = [] } ∷ []) }
{
    let mut list = Vec::new(alloc);
    list.push(Object {
        class: ClassId(0),
        slots: Items::new(alloc),
    })?;
    list.push(Object {
        class: ClassId(0),
        slots: Items::new(alloc),
    })?;
    Ok(list)
}

// The model of two things, of which the second is the first root.
fn two_things(alloc: Global) -> Result<Model, TextRefusal> {
    let meta = Metamodel::new(alloc, things(alloc)?)?;
    let Ok(meta) = Rc::new(alloc, meta) else {
        return Err(TextRefusal::Memory);
    };
    let objects = bare_objects(alloc)?;
    let roots = Vec::from_slice(alloc, &[ObjId(1), ObjId(0)])?;
    Ok(Model::from_parts(alloc, meta, objects, roots)?)
}

// A new object, where there is such a class.
fn make(model: &mut Model, class: u32) -> Result<ObjId, StoreRefusal> {
    let concrete = match model.meta().classes().get(class as usize) {
        Some(found) => !found.is_abstract,
        None => false,
    };
    if concrete {
        model.create(ClassId(class))
    } else {
        Err(StoreRefusal::NoObject)
    }
}

// Objects as values.
fn objects(alloc: Global, numbers: &[ObjId]) -> Result<Slot, AllocError> {
    let mut slot = Items::new(alloc);
    for o in numbers {
        slot.push(Cellv::Obj(*o))?;
    }
    Ok(slot)
}

fn words(alloc: Global, texts: &[&str]) -> Result<Slot, TextRefusal> {
    let mut slot = Items::new(alloc);
    for t in texts {
        slot.push(Cellv::Words(text(alloc, t)?))?;
    }
    Ok(slot)
}

// Whether a slot holds these objects, in this order.
fn holds(model: &Model, o: ObjId, f: FeatId, numbers: &[ObjId]) -> bool {
    let Ok(slot) = model.get(o, f) else {
        return false;
    };
    let cells = slot.as_slice();
    if cells.len() != numbers.len() {
        return false;
    }
    for (cell, o) in cells.iter().zip(numbers) {
        match cell {
            Cellv::Obj(q) if *q == *o => {}
            _ => return false,
        }
    }
    true
}

// Whether each object has a smaller number than its contents.
fn rises(model: &Model) -> Result<bool, AllocError>
    ensures { IfOk result (λ answer. IsTrue answer → HasNoCycle model.now) }
{
    for n in 0..model.given() {
        for q in &contents(model.store(), ObjId(n))? {
            if q.0 <= n {
                return Ok(false);
            }
        }
    }
    Ok(true)
}

// The objects in their order, where they rise.
fn order(model: &Model) -> Result<Vec<ObjId>, AllocError> {
    if rises(model)? {
        return model.preorder();
    }
    Err(AllocError)
}

fn extent(model: &Model, class: u32) -> Result<Vec<ObjId>, AllocError> {
    if rises(model)? && (class as usize) < model.meta().classes().len() {
        return model.extent(ClassId(class));
    }
    Err(AllocError)
}

fn path(model: &Model, o: ObjId) -> Result<Text, StoreRefusal> {
    if rises(model)? {
        return model.path_of(o);
    }
    Err(StoreRefusal::Memory)
}

#[test]
fn paths_lead_from_a_root(rt: HostRuntime) -> Result<(), Fail> {
    let alloc = rt.alloc();
    let mut model = empty(alloc)?;
    let a = make(&mut model, 0)?;
    let b = make(&mut model, 1)?;
    let c = make(&mut model, 0)?;
    assert_eq!(rt; path(&model, c)?.as_str(), "/2");
    model.write(a, KIDS, &objects(alloc, &[c, b])?)?;
    assert_eq!(rt; path(&model, a)?.as_str(), "/");
    assert_eq!(rt; path(&model, b)?.as_str(), "//@kids.1");
    model.write(b, HEART, &objects(alloc, &[c])?)?;
    assert_eq!(rt; path(&model, c)?.as_str(), "//@kids.0/@heart");
    assert_eq!(rt; path(&model, ObjId(3)).err(), Some(StoreRefusal::NoObject));
    Ok(())
}

#[test]
fn paths_count_many_children(rt: HostRuntime) -> Result<(), Fail> {
    let alloc = rt.alloc();
    let mut model = empty(alloc)?;
    let a = make(&mut model, 0)?;
    for _ in 0..40 {
        let kid = make(&mut model, 1)?;
        model.write(a, KIDS, &objects(alloc, &[kid])?)?;
    }
    assert_eq!(rt; path(&model, ObjId(40))?.as_str(), "//@kids.39");
    // one leaves, and those behind it move up
    model.write(ObjId(7), UP, &objects(alloc, &[])?)?;
    assert_eq!(rt; path(&model, ObjId(6))?.as_str(), "/0/@kids.5");
    assert_eq!(rt; path(&model, ObjId(40))?.as_str(), "/0/@kids.38");
    assert_eq!(rt; path(&model, ObjId(7))?.as_str(), "/1");
    Ok(())
}

#[test]
fn fragments_name_objects(rt: HostRuntime) -> Result<(), Fail> {
    let alloc = rt.alloc();
    let mut model = empty(alloc)?;
    let a = make(&mut model, 0)?;
    let b = make(&mut model, 1)?;
    let c = make(&mut model, 0)?;
    assert_eq!(rt; model.at_path("/2"), Some(c));
    assert_eq!(rt; model.at_path("/02"), Some(c));
    for fragment in ["", "/", "2", "/3", "/-1", "/2/"] {
        assert_eq!(rt; model.at_path(fragment), None, "{fragment}");
    }
    model.write(a, KIDS, &objects(alloc, &[c, b])?)?;
    model.write(b, HEART, &objects(alloc, &[c])?)?;
    assert_eq!(rt; model.at_path("/"), Some(a));
    assert_eq!(rt; model.at_path("/0"), Some(a));
    assert_eq!(rt; model.at_path("//@kids.0"), Some(b));
    assert_eq!(rt; model.at_path("//@kids.00/@heart"), Some(c));
    for fragment in [
        "//",
        "//@kids",
        "//@kids.",
        "//@kids.1",
        "//@kids.0.0",
        "//@kids.18446744073709551616",
        "//@kids.0/@heart.0",
        "//@kids.0/@up",
        "//kids.0",
        "//@heart",
    ] {
        assert_eq!(rt; model.at_path(fragment), None, "{fragment}");
    }
    Ok(())
}

#[test]
fn objects_are_numbered(rt: HostRuntime) -> Result<(), Fail> {
    let alloc = rt.alloc();
    let mut model = empty(alloc)?;
    let a = make(&mut model, 0)?;
    let b = make(&mut model, 1)?;
    assert_eq!(rt; a, ObjId(0));
    assert_eq!(rt; b, ObjId(1));
    assert_eq!(rt; model.given(), 2);
    assert_eq!(rt; model.class(b), Some(ClassId(1)));
    assert_eq!(rt; model.class(ObjId(2)), None);
    assert_eq!(rt; model.roots(), [a, b].as_slice());
    assert_eq!(rt; model.meta().classes().len(), 2);
    Ok(())
}

#[test]
fn parts_make_a_model(rt: HostRuntime) -> Result<(), Fail> {
    let mut model = two_things(rt.alloc())?;
    assert_eq!(rt; model.given(), 2);
    assert_eq!(rt; model.roots(), [ObjId(1), ObjId(0)].as_slice());
    assert_eq!(rt; model.class(ObjId(1)), Some(ClassId(0)));
    assert_eq!(rt;
        model.get(ObjId(1), NAME).err(),
        Some(StoreRefusal::NoFeature)
    );
    assert_eq!(rt; model.container(ObjId(0)), None);
    assert_eq!(rt; model.at_path("/0"), Some(ObjId(1)));
    assert_eq!(rt; make(&mut model, 0)?, ObjId(2));
    model.valid();
    Ok(())
}

#[test]
fn refusals_in_their_order(rt: HostRuntime) -> Result<(), Fail> {
    let alloc = rt.alloc();
    let mut model = empty(alloc)?;
    let a = make(&mut model, 0)?;
    let none = objects(alloc, &[])?;
    assert_eq!(rt;
        model.get(ObjId(7), NAME).err(),
        Some(StoreRefusal::NoObject)
    );
    assert_eq!(rt;
        model.get(a, FeatId(9)).err(),
        Some(StoreRefusal::NoFeature)
    );
    assert_eq!(rt;
        model.write(ObjId(7), FeatId(9), &none),
        Err(StoreRefusal::NoObject)
    );
    assert_eq!(rt;
        model.write(a, FeatId(9), &none),
        Err(StoreRefusal::NoFeature)
    );
    assert_eq!(rt;
        model.write(a, NAME, &objects(alloc, &[a])?),
        Err(StoreRefusal::BadType)
    );
    assert_eq!(rt;
        model.write(a, KIDS, &objects(alloc, &[ObjId(7)])?),
        Err(StoreRefusal::BadType)
    );
    assert_eq!(rt;
        model.write(a, SPOUSE, &objects(alloc, &[a, a])?),
        Err(StoreRefusal::BadType)
    );
    Ok(())
}

#[test]
fn children_move_with_their_opposites(rt: HostRuntime) -> Result<(), Fail> {
    let alloc = rt.alloc();
    let mut model = empty(alloc)?;
    let a = make(&mut model, 0)?;
    let b = make(&mut model, 0)?;
    let c = make(&mut model, 1)?;
    let d = make(&mut model, 1)?;
    model.write(a, KIDS, &objects(alloc, &[d, c, d])?)?;
    assert!(rt; holds(&model, a, KIDS, &[d, c]));
    assert!(rt; holds(&model, c, UP, &[a]));
    assert_eq!(rt; model.container(c), Some(a));
    assert_eq!(rt; model.roots(), [a, b].as_slice());
    // another container by the other end
    model.write(c, UP, &objects(alloc, &[b])?)?;
    assert!(rt; holds(&model, a, KIDS, &[d]));
    assert!(rt; holds(&model, b, KIDS, &[c]));
    // and by a containment without opposite
    model.write(a, HEART, &objects(alloc, &[c])?)?;
    assert!(rt; holds(&model, b, KIDS, &[]));
    assert!(rt; holds(&model, c, UP, &[]));
    assert_eq!(rt; model.container(c), Some(a));
    // a reset: the object is a root again, before the first of greater number
    model.write(a, HEART, &objects(alloc, &[])?)?;
    assert_eq!(rt; model.roots(), [a, b, c].as_slice());
    model.write(b, KIDS, &objects(alloc, &[a])?)?;
    model.write(a, UP, &objects(alloc, &[])?)?;
    assert_eq!(rt; model.roots(), [a, b, c].as_slice());
    Ok(())
}

#[test]
fn single_ends_give_up_their_partners(rt: HostRuntime) -> Result<(), Fail> {
    let alloc = rt.alloc();
    let mut model = empty(alloc)?;
    let a = make(&mut model, 0)?;
    let b = make(&mut model, 0)?;
    let c = make(&mut model, 0)?;
    let d = make(&mut model, 0)?;
    model.write(a, SPOUSE, &objects(alloc, &[b])?)?;
    model.write(c, SPOUSE, &objects(alloc, &[d])?)?;
    model.write(a, SPOUSE, &objects(alloc, &[c])?)?;
    assert!(rt; holds(&model, a, SPOUSE, &[c]));
    assert!(rt; holds(&model, c, SPOUSE, &[a]));
    assert!(rt; holds(&model, b, SPOUSE, &[]));
    assert!(rt; holds(&model, d, SPOUSE, &[]));
    model.write(b, FRIENDS, &objects(alloc, &[c, d])?)?;
    assert!(rt; holds(&model, c, ADMIRERS, &[b]));
    model.write(d, ADMIRERS, &objects(alloc, &[a, b])?)?;
    assert!(rt; holds(&model, a, FRIENDS, &[d]));
    assert!(rt; holds(&model, d, ADMIRERS, &[b, a]));
    Ok(())
}

#[test]
fn attributes_hold_texts(rt: HostRuntime) -> Result<(), Fail> {
    let alloc = rt.alloc();
    let mut model = empty(alloc)?;
    let a = make(&mut model, 0)?;
    model.write(a, NAME, &words(alloc, &["x"])?)?;
    model.write(a, NAME, &words(alloc, &["y"])?)?;
    model.write(a, TAGS, &words(alloc, &["p", "q", "p"])?)?;
    model.write(a, TAGS, &words(alloc, &["q", "r"])?)?;
    assert_eq!(rt; model.get(a, NAME)?.len(), 1);
    assert_eq!(rt; model.get(a, TAGS)?.len(), 3);
    model.write(a, NAME, &words(alloc, &[])?)?;
    assert_eq!(rt; model.get(a, NAME)?.len(), 0);
    Ok(())
}

#[test]
fn objects_in_their_order(rt: HostRuntime) -> Result<(), Fail> {
    let alloc = rt.alloc();
    let mut model = empty(alloc)?;
    let a = make(&mut model, 0)?;
    let b = make(&mut model, 1)?;
    let c = make(&mut model, 0)?;
    let d = make(&mut model, 1)?;
    let e = make(&mut model, 0)?;
    model.write(a, HEART, &objects(alloc, &[b])?)?;
    model.write(a, KIDS, &objects(alloc, &[e, c])?)?;
    model.write(c, KIDS, &objects(alloc, &[d])?)?;
    assert_eq!(rt; order(&model)?.as_slice(), [a, e, c, d, b].as_slice());
    assert_eq!(rt; extent(&model, 0)?.as_slice(), [a, e, c, d, b].as_slice());
    assert_eq!(rt; extent(&model, 1)?.as_slice(), [d, b].as_slice());
    let again = model.copy()?;
    assert_eq!(rt; order(&again)?.as_slice(), [a, e, c, d, b].as_slice());
    Ok(())
}
