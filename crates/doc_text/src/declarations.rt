// Namespace declarations among the attributes of a start tag.
ghost use Rattle.std.specs.Prelude.{◌≡◌};
ghost use Rattle.doc_text.specs.Declarations.{is_default as is_default_name, is_declaration as is_declaration_name, declared_prefix as declared_prefix_of};

use crate::state::Name;

/// Whether an attribute declares the default namespace.
pub fn is_default(name: &Name) -> bool
    ensures { result ≡ is_default_name name.now }
{
    name.prefix.as_str().is_empty() && name.local.as_str() == "xmlns"
}

/// Whether an attribute declares a namespace.
pub fn is_declaration(name: &Name) -> bool
    ensures { result ≡ is_declaration_name name.now }
{
    is_default(name) || name.prefix.as_str() == "xmlns"
}

/// The prefix that a declaration declares.
pub fn declared_prefix(name: &Name) -> &str
    ensures { result.now ≡ declared_prefix_of name.now }
{
    if is_default(name) {
        return "";
    }
    name.local.as_str()
}
