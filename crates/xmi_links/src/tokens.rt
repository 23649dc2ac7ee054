// What the tokens of references name. A path begins with a slash, before which a `#` may stand; all else is an id, and an id may
// stand behind a `#`.
ghost use Rattle.std.specs.Prelude.{◌≡◌, ℕ, List, IfOk, IfSome};
ghost use Rattle.std.specs.Option.{option_copied};
ghost use Rattle.atl_base.specs.declared.numbers.ObjId.{ObjId as SomeObjId};
ghost use Rattle.atl_base.specs.XmlText.{IsXmlText};
ghost use Rattle.model_store.specs.Paths.{object_of_path};
ghost use Rattle.xmi_links.specs.References.{by_path, by_bearers, names, path_in as path_in_token, id_in as id_in_token};
ghost use Rattle.xmi_links.specs.Found.{AreBearers, named_in};

use crate::ids::{Bearers, Ids, bearers_in};
use atl_base::numbers::ObjId;
use model_store::sketch::Sketch;
use std::alloc::{AllocError, Global};
use xmi_models::value::text_of;

/// What a token names.
#[derive(Clone, Copy)]
pub(crate) enum Named {
    Object(ObjId),
    /// A path that names nothing.
    NoPath,
    /// An id that no object bears.
    NoId,
    /// An id that several objects bear.
    Several,
}

// The path that a token is.
fn path_in(token: &[u8]) -> Option<&[u8]>
    requires { IsXmlText token.now }
    ensures path { option_copied result ≡ path_in_token token.now }
    ensures text { IfSome result (λ path. IsXmlText path.now) }
{
    if token.len() > 1 && token[0] == b'#' && token[1] == b'/' {
        return Some(&token[1..]);
    }
    if !token.is_empty() && token[0] == b'/' {
        return Some(token);
    }
    None
}

// The id that a token is.
fn id_in(token: &[u8]) -> &[u8]
    ensures { result.now ≡ id_in_token token.now }
{
    if !token.is_empty() && token[0] == b'#' {
        return &token[1..];
    }
    token
}

fn at_path(alloc: Global, sketch: &Sketch, path: &[u8]) -> Result<Named, AllocError>
    requires { IsXmlText path.now }
    ensures { IfOk result (λ n. named_in n ≡ by_path (object_of_path sketch.now path.now)) }
{
    let path = text_of(alloc, path)?;
    match sketch.at_path(path.as_str()) {
        Some(o) => Ok(Named::Object(o)),
        None => Ok(Named::NoPath),
    }
}

fn by_id(ids: &Ids<'_>, id: &[u8]) -> Named
    ensures { (who : List ℕ → List SomeObjId) → AreBearers who ids.now → named_in result ≡ by_bearers (who id.now) }
{
    match bearers_in(ids, id) {
        Some(Bearers::One(o)) => Named::Object(o),
        Some(Bearers::Several) => Named::Several,
        None => Named::NoId,
    }
}

/// What a token names.
pub(crate) fn token_names(
    alloc: Global,
    sketch: &Sketch,
    ids: &Ids<'_>,
    token: &[u8],
) -> Result<Named, AllocError>
    requires { IsXmlText token.now }
    ensures { IfOk result (λ n. (who : List ℕ → List SomeObjId) → AreBearers who ids.now → named_in n ≡ names sketch.now who token.now) }
{
    match path_in(token) {
        Some(path) => at_path(alloc, sketch, path),
        None => Ok(by_id(ids, id_in(token))),
    }
}
