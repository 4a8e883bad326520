//! One reference of a client.

use object_ids::ObjId;
use sequence::Sequence;

/// A reference that a client holds.
#[derive(Clone, Copy, Debug, PartialEq, Eq)]
pub struct ClientRef {
    /// The object.
    pub id: ObjId,
    /// The number that was the next one when the reference was registered.
    pub since: i64,
    /// True where the server is known to keep the object for this client while the client's time lasts.
    pub sure: bool,
    /// True where a dirty call that names the object failed since the reference was registered.
    pub strong: bool,
}

/// A list of references.
pub type RefList = Sequence<ClientRef>;
