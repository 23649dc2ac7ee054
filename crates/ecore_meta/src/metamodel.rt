// A metamodel: valid lists, kept together with the tables that answer what a class inherits.
ghost use Rattle.std.specs.Prelude.{◌≡◌, ◌≢◌, ◌<◌, ◌↔◌, length, IsTrue, IfOk, IfSome, IfNone, Contains};
ghost use Rattle.std.specs.List.Sorted.{IsStrictlyIncreasing};
ghost use Rattle.atl_base.specs.declared.numbers.ClassId.{ClassId};
ghost use Rattle.atl_base.specs.declared.numbers.FeatId.{FeatId};
ghost use Rattle.ecore_meta.specs.declared.parts.Parts.{Parts};
ghost use Rattle.ecore_meta.specs.Inheritance.{Conforms, features, name_of, IsFeaturesLaw, IsSeenLaw};
ghost use Rattle.ecore_meta.specs.Valid.{IsMetamodel};

use crate::inherited::{conformed_lists, feature_lists};
use crate::names::{Places, first_places, named_rows};
use crate::order::supers_first;
use crate::parts::{Class, EnumDef, Feature, Package, Parts, Skipped};
use atl_base::numbers::{ClassId, FeatId};
use atl_base::text::Text;
use sqlite_items::Items;
use std::alloc::{AllocError, Global};
use std::collections::HashMap;
use std::marker::Model;

/// A valid metamodel. Contracts see it as its five lists.
#[derive(Drop)]
pub struct Metamodel {
    alloc: Global,
    parts: Parts,
    // for each class the features that are seen in it
    seen: Vec<Items<FeatId>>,
    // for each class the places of the classes that it conforms to, rising
    conformed: Vec<Items<usize>>,
    // for each name of a feature the place of the first that bears it
    firsts: HashMap<String, usize>,
    // for each class its features, each under the place that its name leads to
    named: Vec<HashMap<usize, FeatId>>,
}

impl Model for Metamodel {
    ghost use Rattle.ecore_meta.specs.declared.parts.Parts.{Parts};
    ghost use Rattle.ecore_meta.specs.Tables.{AreTables};

    ghost Value = { Parts };

    ghost view = { λ m. m.parts };

    ghost invariant = { λ m. AreTables m.parts m.seen.items m.conformed.items m.firsts m.named.items };
}

impl Metamodel {
    /// The metamodel of these lists.
    pub fn new(alloc: Global, parts: Parts) -> Result<Metamodel, AllocError>
        requires { IsMetamodel parts }
        ensures { IfOk result (λ meta. meta ≡ parts) }
    {
        let classes = parts.classes.as_slice();
        let order = supers_first(alloc, classes)?;
        let seen = feature_lists(alloc, classes, &order)?;
        let conformed = conformed_lists(alloc, classes, &order)?;
        let Places { firsts, of } = first_places(alloc, parts.features.as_slice())?;
        let named = named_rows(alloc, &of, &seen)?;
        Ok(Metamodel {
            alloc,
            parts,
            seen,
            conformed,
            firsts,
            named,
        })
    }

    /// The five lists.
    pub fn parts(&self) -> &Parts
        ensures parts { result.now ≡ self.now }
        ensures valid { IsMetamodel self.now }
    {
        &self.parts
    }

    pub fn packages(&self) -> &[Package]
        ensures { result.now ≡ self.now.packages }
    {
        self.parts.packages.as_slice()
    }

    pub fn classes(&self) -> &[Class]
        ensures { result.now ≡ self.now.classes }
    {
        self.parts.classes.as_slice()
    }

    pub fn all_features(&self) -> &[Feature]
        ensures { result.now ≡ self.now.features }
    {
        self.parts.features.as_slice()
    }

    pub fn enums(&self) -> &[EnumDef]
        ensures { result.now ≡ self.now.enums }
    {
        self.parts.enums.as_slice()
    }

    pub fn skipped(&self) -> &[Skipped]
        ensures { result.now ≡ self.now.skipped }
    {
        self.parts.skipped.as_slice()
    }

    /// Whether a class is another one or inherits from it.
    pub fn conforms(&self, sub: ClassId, sup: ClassId) -> bool
        requires sub { sub.0 < length self.now.classes }
        requires sup { sup.0 < length self.now.classes }
        ensures { IsTrue result ↔ Conforms self.now.classes sub sup }
    {
        let conformed = self.conformed[sub.0 as usize].as_slice();
        conformed.binary_search(&(sup.0 as usize)).is_ok()
    }

    /// The places of the classes that a class conforms to, rising.
    pub fn conformed(&self, class: ClassId) -> &[usize]
        requires { class.0 < length self.now.classes }
        ensures each { (d : ClassId) → Contains result.now d.0 ↔ Conforms self.now.classes class d }
        ensures rising { IsStrictlyIncreasing result.now }
    {
        self.conformed[class.0 as usize].as_slice()
    }

    /// The feature of a name that is seen in a class.
    pub fn feature_of(&self, class: ClassId, name: &Text) -> Option<FeatId>
        requires { class.0 < length self.now.classes }
        ensures some { IfSome result (λ f. Contains (features self.now.classes class) f
            × (name_of self.now.features f ≡ name.now)) }
        ensures none { IfNone result ((f : FeatId) → Contains (features self.now.classes class) f
            → name_of self.now.features f ≢ name.now) }
    {
        let first = self.firsts.get(name.as_str())?;
        self.named[class.0 as usize].get(first).copied()
    }

    /// The features that are seen in a class: those of its supertypes in their order, depth first and
    /// each once, then its own.
    pub fn features(&self, class: ClassId) -> Result<Vec<FeatId>, AllocError>
        requires { class.0 < length self.now.classes }
        ensures { IfOk result (λ list. list.items ≡ features self.now.classes class) }
    {
        Vec::from_slice(self.alloc, self.features_seen(class))
    }

    /// The same, lent.
    pub fn features_seen(&self, class: ClassId) -> &[FeatId]
        requires { class.0 < length self.now.classes }
        ensures { result.now ≡ features self.now.classes class }
    {
        self.seen[class.0 as usize].as_slice()
    }
}

/// The law of the features that are seen in a class, by those of its supertypes.
pub fn features_law()
    ensures { (m : Parts) → IsMetamodel m → IsFeaturesLaw m.classes }
{}

/// What is seen in a class is what the classes declare that it conforms to.
pub fn seen_law()
    ensures { (m : Parts) → IsMetamodel m → IsSeenLaw m.classes }
{}
