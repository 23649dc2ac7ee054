// Metamodels built by hand: families, persons, and classes that inherit by several ways.
ghost use Rattle.std.specs.Prelude.{◌≡◌, [], ◌∷◌, ◌++◌, IfOk, true, false, None, length};
ghost use Rattle.ecore_meta.specs.Valid.{IsMetamodel};

use crate::metamodel::Metamodel;
use crate::parts::{Class, FeatKind, Feature, Package, Parts};
use atl_base::numbers::{ClassId, FeatId};
use atl_base::text::{Text, TextRefusal};
use sqlite_items::Items;
use std::alloc::{AllocError, Global};
use std::test::Fail;

fn text(alloc: Global, words: &str) -> Result<Text, TextRefusal>
    ensures { IfOk result (λ t. t ≡ words.now) }
{
    Text::from_bytes(alloc, words.as_bytes())
}

// A package whose uri and prefix are its name.
fn package(alloc: Global, name: &str) -> Result<Items<Package>, TextRefusal>
    ensures { IfOk result (λ list. list ≡ record { name = name.now; uri = name.now; prefix = name.now } ∷ []) }
{
    let mut list = Items::new(alloc);
    list.push(Package {
        name: text(alloc, name)?,
        uri: text(alloc, name)?,
        prefix: text(alloc, name)?,
    })?;
    Ok(list)
}

// One class more.
fn with_class(
    alloc: Global,
    mut list: Items<Class>,
    name: &str,
    is_abstract: bool,
    supers: &[ClassId],
    own: &[FeatId],
) -> Result<Items<Class>, TextRefusal>
    ensures { IfOk result (λ longer. longer ≡ list ++ record { name = name.now; «package» = 0; is_abstract = is_abstract; supers = supers.now; own = own.now } ∷ []) }
{
    list.push(Class {
        name: text(alloc, name)?,
        package: 0,
        is_abstract,
        supers: Items::from_slice(alloc, supers)?,
        own: Items::from_slice(alloc, own)?,
    })?;
    Ok(list)
}

// One feature more.
fn with_feature(
    alloc: Global,
    mut list: Items<Feature>,
    name: &str,
    owner: u32,
    kind: FeatKind,
    many: bool,
) -> Result<Items<Feature>, TextRefusal>
    ensures { IfOk result (λ longer. longer ≡ list ++ record { name = name.now; owner = record { 0 = owner }; kind = kind; many = many; unique = true; is_id = false; default = None } ∷ []) }
{
    list.push(Feature {
        name: text(alloc, name)?,
        owner: ClassId(owner),
        kind,
        many,
        unique: true,
        is_id: false,
        default: None,
    })?;
    Ok(list)
}

// A reference with an opposite.
fn refer(class: u32, contains: bool, opposite: u32) -> FeatKind
    ensures { result ≡ FeatKind.Refer (record { 0 = class }) contains (Some (record { 0 = opposite })) }
{
    FeatKind::Refer {
        class: ClassId(class),
        contains,
        opposite: Some(FeatId(opposite)),
    }
}

// Families: members in families, by containment references and their opposites.
fn families(alloc: Global) -> Result<Parts, TextRefusal>
    ensures valid { IfOk result IsMetamodel }
    ensures classes { IfOk result (λ m. length m.classes ≡ 2) }
{
    let packages = package(alloc, "Families")?;
    let classes = with_class(
        alloc,
        Items::new(alloc),
        "Family",
        false,
        &[],
        &[FeatId(0), FeatId(1), FeatId(2), FeatId(3), FeatId(4)],
    )?;
    let classes = with_class(
        alloc,
        classes,
        "Member",
        false,
        &[],
        &[FeatId(5), FeatId(6), FeatId(7), FeatId(8), FeatId(9)],
    )?;
    let features = with_feature(
        alloc,
        Items::new(alloc),
        "lastName",
        0,
        FeatKind::Str,
        false,
    )?;
    let features = with_feature(alloc, features, "father", 0, refer(1, true, 6), false)?;
    let features = with_feature(alloc, features, "mother", 0, refer(1, true, 7), false)?;
    let features = with_feature(alloc, features, "sons", 0, refer(1, true, 8), true)?;
    let features = with_feature(alloc, features, "daughters", 0, refer(1, true, 9), true)?;
    let features = with_feature(alloc, features, "firstName", 1, FeatKind::Str, false)?;
    let features = with_feature(
        alloc,
        features,
        "familyFather",
        1,
        refer(0, false, 1),
        false,
    )?;
    let features = with_feature(
        alloc,
        features,
        "familyMother",
        1,
        refer(0, false, 2),
        false,
    )?;
    let features = with_feature(alloc, features, "familySon", 1, refer(0, false, 3), false)?;
    let features = with_feature(
        alloc,
        features,
        "familyDaughter",
        1,
        refer(0, false, 4),
        false,
    )?;
    Ok(Parts {
        packages,
        classes,
        features,
        enums: Items::new(alloc),
        skipped: Items::new(alloc),
    })
}

// Persons: an abstract class after the two that inherit from it.
fn persons(alloc: Global) -> Result<Parts, TextRefusal>
    ensures valid { IfOk result IsMetamodel }
    ensures classes { IfOk result (λ m. length m.classes ≡ 3) }
{
    let packages = package(alloc, "Persons")?;
    let classes = with_class(alloc, Items::new(alloc), "Male", false, &[ClassId(2)], &[])?;
    let classes = with_class(alloc, classes, "Female", false, &[ClassId(2)], &[])?;
    let classes = with_class(alloc, classes, "Person", true, &[], &[FeatId(0)])?;
    let features = with_feature(
        alloc,
        Items::new(alloc),
        "fullName",
        2,
        FeatKind::Str,
        false,
    )?;
    Ok(Parts {
        packages,
        classes,
        features,
        enums: Items::new(alloc),
        skipped: Items::new(alloc),
    })
}

// A diamond, its lowest class first, and a class below that names the top before it.
fn diamond(alloc: Global) -> Result<Parts, TextRefusal>
    ensures valid { IfOk result IsMetamodel }
    ensures classes { IfOk result (λ m. length m.classes ≡ 5) }
{
    let packages = package(alloc, "Shapes")?;
    let classes = with_class(
        alloc,
        Items::new(alloc),
        "Low",
        false,
        &[ClassId(1), ClassId(2)],
        &[FeatId(0)],
    )?;
    let classes = with_class(alloc, classes, "Left", false, &[ClassId(3)], &[FeatId(1)])?;
    let classes = with_class(alloc, classes, "Right", false, &[ClassId(3)], &[FeatId(2)])?;
    let classes = with_class(alloc, classes, "Top", true, &[], &[FeatId(3)])?;
    let classes = with_class(
        alloc,
        classes,
        "Lowest",
        false,
        &[ClassId(3), ClassId(0)],
        &[FeatId(4)],
    )?;
    let features = with_feature(alloc, Items::new(alloc), "low", 0, FeatKind::Str, false)?;
    let features = with_feature(alloc, features, "left", 1, FeatKind::Str, false)?;
    let features = with_feature(alloc, features, "right", 2, FeatKind::Str, false)?;
    let features = with_feature(alloc, features, "top", 3, FeatKind::Str, false)?;
    let features = with_feature(alloc, features, "lowest", 4, FeatKind::Str, false)?;
    Ok(Parts {
        packages,
        classes,
        features,
        enums: Items::new(alloc),
        skipped: Items::new(alloc),
    })
}

// The look-ups at a class that is there.
fn seen(meta: &Metamodel, class: u32) -> &[FeatId] {
    if (class as usize) < meta.classes().len() {
        meta.features_seen(ClassId(class))
    } else {
        &[]
    }
}

fn copied(meta: &Metamodel, class: u32) -> Result<Vec<FeatId>, AllocError> {
    if (class as usize) < meta.classes().len() {
        return meta.features(ClassId(class));
    }
    Err(AllocError)
}

fn named(
    alloc: Global,
    meta: &Metamodel,
    class: u32,
    name: &str,
) -> Result<Option<FeatId>, TextRefusal> {
    let name = text(alloc, name)?;
    if (class as usize) < meta.classes().len() {
        return Ok(meta.feature_of(ClassId(class), &name));
    }
    Ok(None)
}

// The places of the classes that a class conforms to.
fn conformed(meta: &Metamodel, class: u32) -> &[usize] {
    if class as usize >= meta.classes().len() {
        return &[];
    }
    meta.conformed(ClassId(class))
}

fn conforms(meta: &Metamodel, sub: u32, sup: u32) -> bool {
    let classes = meta.classes().len();
    (sub as usize) < classes
        && (sup as usize) < classes
        && meta.conforms(ClassId(sub), ClassId(sup))
}

#[test]
fn features_of_families(rt: HostRuntime) -> Result<(), Fail> {
    let alloc = rt.alloc();
    let meta = Metamodel::new(alloc, families(alloc)?)?;
    let family = [FeatId(0), FeatId(1), FeatId(2), FeatId(3), FeatId(4)];
    let member = [FeatId(5), FeatId(6), FeatId(7), FeatId(8), FeatId(9)];
    assert_eq!(rt; seen(&meta, 0), family.as_slice());
    assert_eq!(rt; seen(&meta, 1), member.as_slice());
    assert!(rt; conforms(&meta, 1, 1));
    assert!(rt; !conforms(&meta, 0, 1));
    Ok(())
}

#[test]
fn features_by_their_names(rt: HostRuntime) -> Result<(), Fail> {
    let alloc = rt.alloc();
    let meta = Metamodel::new(alloc, families(alloc)?)?;
    assert_eq!(rt; named(alloc, &meta, 0, "sons")?, Some(FeatId(3)));
    assert_eq!(rt; named(alloc, &meta, 1, "sons")?, None);
    assert_eq!(rt; named(alloc, &meta, 1, "familySon")?, Some(FeatId(8)));
    assert_eq!(rt; named(alloc, &meta, 0, "nobody")?, None);
    Ok(())
}

#[test]
fn features_of_persons(rt: HostRuntime) -> Result<(), Fail> {
    let alloc = rt.alloc();
    let meta = Metamodel::new(alloc, persons(alloc)?)?;
    assert_eq!(rt; copied(&meta, 0)?.as_slice(), [FeatId(0)].as_slice());
    assert_eq!(rt; named(alloc, &meta, 1, "fullName")?, Some(FeatId(0)));
    assert!(rt; conforms(&meta, 0, 2));
    assert!(rt; !conforms(&meta, 2, 0));
    assert!(rt; !conforms(&meta, 0, 1));
    assert_eq!(rt; conformed(&meta, 0), [0usize, 2].as_slice());
    assert_eq!(rt; conformed(&meta, 2), [2usize].as_slice());
    Ok(())
}

#[test]
fn lists_of_persons(rt: HostRuntime) -> Result<(), Fail> {
    let alloc = rt.alloc();
    let meta = Metamodel::new(alloc, persons(alloc)?)?;
    assert_eq!(rt; meta.packages().len(), 1);
    assert_eq!(rt; meta.all_features().len(), 1);
    assert_eq!(rt; meta.enums().len(), 0);
    assert_eq!(rt; meta.skipped().len(), 0);
    assert_eq!(rt; meta.parts().classes.len(), 3);
    Ok(())
}

#[test]
fn features_of_a_diamond(rt: HostRuntime) -> Result<(), Fail> {
    let alloc = rt.alloc();
    let meta = Metamodel::new(alloc, diamond(alloc)?)?;
    let low = [FeatId(3), FeatId(1), FeatId(2), FeatId(0)];
    let lowest = [FeatId(3), FeatId(1), FeatId(2), FeatId(0), FeatId(4)];
    assert_eq!(rt; seen(&meta, 0), low.as_slice());
    assert_eq!(rt; copied(&meta, 4)?.as_slice(), lowest.as_slice());
    assert!(rt; conforms(&meta, 4, 3));
    assert!(rt; conforms(&meta, 4, 2));
    assert!(rt; !conforms(&meta, 1, 2));
    Ok(())
}
