// Names in a module's text, with their places.
use atl_base::place::Place;
use atl_base::text::Text;

/// A name, without the double quotes that it may have been written in.
#[derive(Debug, Drop)]
pub struct Name {
    pub text: Text,
    pub place: Place,
}

/// A class, written `meta!class`. The place is that of the metamodel's name.
#[derive(Debug, Drop)]
pub struct ClassRef {
    pub meta: Text,
    pub class: Text,
    pub place: Place,
}
