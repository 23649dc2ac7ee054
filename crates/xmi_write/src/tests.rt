// A metamodel of nodes, built by hand, and the files of its models.
ghost use Rattle.std.specs.Prelude.{◌≡◌, [], ◌∷◌, ◌++◌, IfOk, true, false, Some, None, codes};
ghost use Rattle.ecore_meta.specs.Valid.{IsMetamodel};

use crate::refusal::WriteRefusal;
use crate::write_model;
use atl_base::numbers::{ClassId, FeatId, ObjId};
use atl_base::text::{Text, TextRefusal};
use ecore_meta::metamodel::Metamodel;
use ecore_meta::parts::{Class, EnumDef, FeatKind, Feature, Literal, Package, Parts};
use model_store::model::Model;
use model_store::parts::{Cellv, Slot};
use model_store::refusal::StoreRefusal;
use sqlite_items::Items;
use std::alloc::{AllocError, Global};
use std::rc::Rc;
use std::test::Fail;

const NAME: FeatId = FeatId(0);

const COUNT: FeatId = FeatId(1);

const COLOR: FeatId = FeatId(2);

const NEXT: FeatId = FeatId(3);

const KIDS: FeatId = FeatId(4);

const TAGS: FeatId = FeatId(6);

const HEART: FeatId = FeatId(7);

const OPEN: FeatId = FeatId(8);

const FRIENDS: FeatId = FeatId(9);

fn text(alloc: Global, words: &str) -> Result<Text, TextRefusal>
    ensures { IfOk result (λ t. t ≡ words.now) }
{
    Text::from_bytes(alloc, words.as_bytes())
}

// One package more, whose prefix is its name.
fn with_package(
    alloc: Global,
    mut list: Items<Package>,
    name: &str,
    uri: &str,
) -> Result<Items<Package>, TextRefusal>
    ensures { IfOk result (λ longer. longer ≡ list ++ record { name = name.now; uri = uri.now; prefix = name.now } ∷ []) }
{
    list.push(Package {
        name: text(alloc, name)?,
        uri: text(alloc, uri)?,
        prefix: text(alloc, name)?,
    })?;
    Ok(list)
}

// One class more.
fn with_class(
    alloc: Global,
    mut list: Items<Class>,
    name: &str,
    package: u32,
    supers: &[ClassId],
    own: &[FeatId],
) -> Result<Items<Class>, TextRefusal>
    ensures { IfOk result (λ longer. longer ≡ list ++ record { name = name.now; «package» = «package»; is_abstract = false; supers = supers.now; own = own.now } ∷ []) }
{
    list.push(Class {
        name: text(alloc, name)?,
        package,
        is_abstract: false,
        supers: Items::from_slice(alloc, supers)?,
        own: Items::from_slice(alloc, own)?,
    })?;
    Ok(list)
}

// One feature of the first class more.
fn with_feature(
    alloc: Global,
    mut list: Items<Feature>,
    name: &str,
    kind: FeatKind,
    many: bool,
    default: Option<Text>,
) -> Result<Items<Feature>, TextRefusal>
    ensures { IfOk result (λ longer. longer ≡ list ++ record { name = name.now; owner = record { 0 = 0 }; kind = kind; many = many; unique = false; is_id = false; default = default } ∷ []) }
{
    list.push(Feature {
        name: text(alloc, name)?,
        owner: ClassId(0),
        kind,
        many,
        unique: false,
        is_id: false,
        default,
    })?;
    Ok(list)
}

// A reference to nodes.
fn refer(contains: bool, opposite: Option<FeatId>) -> FeatKind
    ensures { result ≡ FeatKind.Refer (record { 0 = 0 }) contains opposite }
{
    FeatKind::Refer {
        class: ClassId(0),
        contains,
        opposite,
    }
}

// One literal more.
fn with_literal(
    alloc: Global,
    mut list: Items<Literal>,
    name: &str,
    words: &str,
) -> Result<Items<Literal>, TextRefusal>
    ensures { IfOk result (λ longer. longer ≡ list ++ record { name = name.now; text = words.now } ∷ []) }
{
    list.push(Literal {
        name: text(alloc, name)?,
        text: text(alloc, words)?,
    })?;
    Ok(list)
}

// An enumeration, the only one.
fn enumeration(
    alloc: Global,
    name: &str,
    literals: Items<Literal>,
) -> Result<Items<EnumDef>, TextRefusal>
    ensures { IfOk result (λ list. list ≡ record { name = name.now; literals = literals } ∷ []) }
{
    let mut list = Items::new(alloc);
    list.push(EnumDef {
        name: text(alloc, name)?,
        literals,
    })?;
    Ok(list)
}

// Two packages: nodes in the first, leaves, which are nodes, in the second.
fn nodes(alloc: Global) -> Result<Parts, TextRefusal>
    ensures { IfOk result IsMetamodel }
{
    let packages = with_package(alloc, Items::new(alloc), "A", "urn:a")?;
    let packages = with_package(alloc, packages, "L", "urn:l")?;
    let classes = with_class(
        alloc,
        Items::new(alloc),
        "Node",
        0,
        &[],
        &[
            FeatId(0),
            FeatId(1),
            FeatId(2),
            FeatId(3),
            FeatId(4),
            FeatId(5),
            FeatId(6),
            FeatId(7),
            FeatId(8),
            FeatId(9),
        ],
    )?;
    let classes = with_class(alloc, classes, "Leaf", 1, &[ClassId(0)], &[])?;
    let one = Some(text(alloc, "01")?);
    let green = Some(text(alloc, "green")?);
    let up = Some(FeatId(5));
    let features = with_feature(alloc, Items::new(alloc), "name", FeatKind::Str, false, None)?;
    let features = with_feature(alloc, features, "count", FeatKind::Int, false, one)?;
    let features = with_feature(alloc, features, "color", FeatKind::Enum(0), false, green)?;
    let features = with_feature(alloc, features, "next", refer(false, None), false, None)?;
    let features = with_feature(alloc, features, "kids", refer(true, up), true, None)?;
    let features = with_feature(alloc, features, "up", refer(false, Some(KIDS)), false, None)?;
    let features = with_feature(alloc, features, "tags", FeatKind::Str, true, None)?;
    let features = with_feature(alloc, features, "heart", refer(true, None), false, None)?;
    let features = with_feature(alloc, features, "open", FeatKind::Truth, false, None)?;
    let features = with_feature(alloc, features, "friends", refer(false, None), true, None)?;
    let literals = with_literal(alloc, Items::new(alloc), "Red", "dark red")?;
    let literals = with_literal(alloc, literals, "Green", "green")?;
    let enums = enumeration(alloc, "Color", literals)?;
    Ok(Parts {
        packages,
        classes,
        features,
        enums,
        skipped: Items::new(alloc),
    })
}

fn empty(alloc: Global) -> Result<Model, TextRefusal> {
    let meta = Metamodel::new(alloc, nodes(alloc)?)?;
    match Rc::new(alloc, meta) {
        Ok(meta) => Ok(Model::new(alloc, meta)?),
        Err(_) => Err(TextRefusal::Memory),
    }
}

// A new object, where there is such a class.
fn make(model: &mut Model, class: u32) -> Result<ObjId, StoreRefusal> {
    let concrete = match model.meta().classes().get(class as usize) {
        Some(found) => !found.is_abstract,
        None => false,
    };
    if concrete {
        model.create(ClassId(class))
    } else {
        Err(StoreRefusal::NoObject)
    }
}

fn objects(alloc: Global, numbers: &[ObjId]) -> Result<Slot, AllocError> {
    let mut slot = Items::new(alloc);
    for o in numbers {
        slot.push(Cellv::Obj(*o))?;
    }
    Ok(slot)
}

fn one(alloc: Global, value: Cellv) -> Result<Slot, AllocError> {
    let mut slot = Items::new(alloc);
    slot.push(value)?;
    Ok(slot)
}

fn words(alloc: Global, texts: &[&str]) -> Result<Slot, TextRefusal> {
    let mut slot = Items::new(alloc);
    for t in texts {
        slot.push(Cellv::Words(text(alloc, t)?))?;
    }
    Ok(slot)
}

// The file of a model.
fn file(alloc: Global, model: &Model) -> Result<Text, AllocError> {
    match write_model(alloc, model) {
        Ok(text) => Ok(text),
        Err(_) => Err(AllocError),
    }
}

// The cycle that a model is refused for, empty where it is written.
fn cycle(alloc: Global, model: &Model) -> Result<Items<ObjId>, AllocError> {
    match write_model(alloc, model) {
        Ok(_) => Ok(Items::new(alloc)),
        Err(WriteRefusal::Cycle(ring)) => Ok(ring),
        Err(WriteRefusal::Memory) => Err(AllocError),
    }
}

#[test]
fn a_model_without_objects(rt: HostRuntime) -> Result<(), Fail> {
    let alloc = rt.alloc();
    let model = empty(alloc)?;
    assert_eq!(rt;
        file(alloc, &model)?.as_str(),
        "<?xml version=\"1.0\" encoding=\"UTF-8\"?>\n<xmi:XMI xmi:version=\"2.0\" xmlns:xmi=\"http://www.omg.org/XMI\" xmlns:xsi=\"http://www.w3.org/2001/XMLSchema-instance\" xmlns:A=\"urn:a\" xmlns:L=\"urn:l\"/>\n"
    );
    Ok(())
}

// The values of a root, and its references.
fn fill_root(alloc: Global, model: &mut Model, a: ObjId, b: ObjId, c: ObjId) -> Result<(), Fail> {
    model.write(a, NAME, &words(alloc, &["r<"])?)?;
    model.write(a, COUNT, &one(alloc, Cellv::Int(-7))?)?;
    model.write(a, COLOR, &one(alloc, Cellv::Literal(0))?)?;
    model.write(a, OPEN, &one(alloc, Cellv::Truth(false))?)?;
    model.write(a, KIDS, &objects(alloc, &[b, c])?)?;
    model.write(a, TAGS, &words(alloc, &["x > y", "", "z"])?)?;
    model.write(a, NEXT, &objects(alloc, &[b])?)?;
    Ok(())
}

// Those of its contents. What is at its default is not written.
fn fill_kids(alloc: Global, model: &mut Model, a: ObjId, b: ObjId, c: ObjId) -> Result<(), Fail> {
    model.write(b, NEXT, &objects(alloc, &[a])?)?;
    model.write(b, COUNT, &one(alloc, Cellv::Int(1))?)?;
    model.write(b, COLOR, &one(alloc, Cellv::Literal(1))?)?;
    model.write(c, FRIENDS, &objects(alloc, &[b, c, a])?)?;
    Ok(())
}

#[test]
fn one_root_with_contents(rt: HostRuntime) -> Result<(), Fail> {
    let alloc = rt.alloc();
    let mut model = empty(alloc)?;
    let a = make(&mut model, 0)?;
    let b = make(&mut model, 1)?;
    let c = make(&mut model, 0)?;
    fill_root(alloc, &mut model, a, b, c)?;
    fill_kids(alloc, &mut model, a, b, c)?;
    assert_eq!(rt;
        file(alloc, &model)?.as_str(),
        "<?xml version=\"1.0\" encoding=\"UTF-8\"?>
<A:Node xmi:version=\"2.0\" xmlns:xmi=\"http://www.omg.org/XMI\" xmlns:xsi=\"http://www.w3.org/2001/XMLSchema-instance\" xmlns:A=\"urn:a\" xmlns:L=\"urn:l\" name=\"r&lt;\" count=\"-7\" color=\"dark red\" next=\"//@kids.0\" open=\"false\">
  <kids xsi:type=\"L:Leaf\" next=\"/\"/>
  <kids friends=\"//@kids.0 //@kids.1 /\"/>
  <tags>x &gt; y</tags>
  <tags/>
  <tags>z</tags>
</A:Node>
"
    );
    Ok(())
}

#[test]
fn several_roots(rt: HostRuntime) -> Result<(), Fail> {
    let alloc = rt.alloc();
    let mut model = empty(alloc)?;
    let a = make(&mut model, 0)?;
    let b = make(&mut model, 1)?;
    let c = make(&mut model, 0)?;
    let d = make(&mut model, 0)?;
    model.write(c, HEART, &objects(alloc, &[d])?)?;
    model.write(d, HEART, &objects(alloc, &[a])?)?;
    model.write(b, FRIENDS, &objects(alloc, &[c, a])?)?;
    assert_eq!(rt;
        file(alloc, &model)?.as_str(),
        "<?xml version=\"1.0\" encoding=\"UTF-8\"?>
<xmi:XMI xmi:version=\"2.0\" xmlns:xmi=\"http://www.omg.org/XMI\" xmlns:xsi=\"http://www.w3.org/2001/XMLSchema-instance\" xmlns:A=\"urn:a\" xmlns:L=\"urn:l\">
  <L:Leaf friends=\"/1 /1/@heart/@heart\"/>
  <A:Node>
    <heart>
      <heart/>
    </heart>
  </A:Node>
</xmi:XMI>
"
    );
    Ok(())
}

#[test]
fn the_cycle_of_the_least_object(rt: HostRuntime) -> Result<(), Fail> {
    let alloc = rt.alloc();
    let mut model = empty(alloc)?;
    let a = make(&mut model, 0)?;
    let b = make(&mut model, 0)?;
    let c = make(&mut model, 0)?;
    let d = make(&mut model, 0)?;
    let e = make(&mut model, 0)?;
    let f = make(&mut model, 0)?;
    model.write(e, KIDS, &objects(alloc, &[f, a])?)?;
    model.write(f, HEART, &objects(alloc, &[e])?)?;
    assert_eq!(rt; cycle(alloc, &model)?.as_slice(), [e, f].as_slice());
    model.write(b, KIDS, &objects(alloc, &[d])?)?;
    model.write(d, KIDS, &objects(alloc, &[c])?)?;
    model.write(c, KIDS, &objects(alloc, &[b])?)?;
    assert_eq!(rt; cycle(alloc, &model)?.as_slice(), [b, d, c].as_slice());
    model.write(f, HEART, &Items::new(alloc))?;
    model.write(a, HEART, &objects(alloc, &[a])?)?;
    assert_eq!(rt; cycle(alloc, &model)?.as_slice(), [a].as_slice());
    Ok(())
}
