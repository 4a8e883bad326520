//! One binding.

use history::Name;
use object_ids::ObjId;
use sequence::Sequence;

/// A name and the object for which it stands.
#[derive(Debug, Drop)]
pub struct Binding {
    /// The name.
    pub name: Name,
    /// Its object.
    pub object: ObjId,
}

/// A list of bindings.
pub type BindingList = Sequence<Binding>;
