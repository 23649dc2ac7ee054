// What a writing reads: the model, the defaults of its features, and the namespaces that are declared.
ghost use Rattle.std.specs.Prelude.{◌≡◌, ◌++◌, ◌∷◌, [], IfOk, IsTrue, length, map, take};
ghost use Rattle.std.specs.List.{list_all};
ghost use Rattle.atl_base.specs.XmlText.{is_ascii_text};
ghost use Rattle.model_store.specs.Order.{HasNoCycle};
ghost use Rattle.xmi_write.specs.Settings.{AreDefaults, IsSetting};
ghost use Rattle.xmi_write.specs.Xmi.{declared, package_prefix};

use atl_base::numbers::FeatId;
use atl_base::text::Text;
use doc_text::XMI;
use doc_text::tree::Prefix;
use ecore_meta::metamodel::Metamodel;
use ecore_meta::parts::Package;
use model_store::attributes::initial;
use model_store::model::Model;
use model_store::parts::Slot;
use sqlite_items::Items;
use std::alloc::{AllocError, Global};

/// The namespace of `xsi:type`.
pub(crate) const XSI: &str = "http://www.w3.org/2001/XMLSchema-instance";

/// What a writing reads.
#[derive(Drop)]
pub(crate) struct Setting<'a> {
    pub alloc: Global,
    pub model: &'a Model,
    /// For each feature what a slot holds that nothing was written to.
    pub defaults: Vec<Slot>,
    pub declared: Items<Prefix>,
}

// How many features have a number.
fn numbered(meta: &Metamodel) -> u32 {
    let count = meta.all_features().len();
    if count < 4_294_967_295 {
        count as u32
    } else {
        4_294_967_295
    }
}

// For each feature what a slot holds that nothing was written to.
fn defaults(alloc: Global, meta: &Metamodel) -> Result<Vec<Slot>, AllocError>
    ensures { IfOk result (λ list. AreDefaults meta.now list.items) }
{
    let mut list = Vec::new(alloc);
    for f in 0..numbered(meta) {
        list.push(initial(alloc, meta, FeatId(f))?)?;
    }
    Ok(list)
}

fn prefix(alloc: Global, name: &str, uri: &str) -> Result<Prefix, AllocError>
    requires name { IsTrue (list_all is_ascii_text name.now) }
    requires uri { IsTrue (list_all is_ascii_text uri.now) }
    ensures { IfOk result (λ p. p ≡ record { prefix = name.now; uri = uri.now }) }
{
    Ok(Prefix {
        prefix: Text::from_ascii(alloc, name)?,
        uri: Text::from_ascii(alloc, uri)?,
    })
}

fn package_prefix(alloc: Global, found: &Package) -> Result<Prefix, AllocError>
    ensures { IfOk result (λ p. p ≡ package_prefix found.now) }
{
    Ok(Prefix {
        prefix: found.prefix.copy(alloc)?,
        uri: found.uri.copy(alloc)?,
    })
}

/// The namespaces of a file: XMI's, that of XML Schema's instances, and each package's.
pub(crate) fn declared(alloc: Global, meta: &Metamodel) -> Result<Items<Prefix>, AllocError>
    ensures { IfOk result (λ list. list ≡ declared meta.now) }
{
    let mut list = Items::new(alloc);
    list.push(prefix(alloc, "xmi", XMI)?)?;
    list.push(prefix(alloc, "xsi", XSI)?)?;
    let packages = meta.packages();
    for found in packages {
        list.push(package_prefix(alloc, found)?)?;
    }
    Ok(list)
}

/// What the writing of a model reads.
pub(crate) fn setting_of<'a>(alloc: Global, model: &'a Model) -> Result<Setting<'a>, AllocError>
    requires { HasNoCycle model.now }
    ensures model { IfOk result (λ s. s.model.now ≡ model.now) }
    ensures setting { IfOk result IsSetting }
{
    let meta = model.meta();
    Ok(Setting {
        alloc,
        model,
        defaults: defaults(alloc, meta)?,
        declared: declared(alloc, meta)?,
    })
}
