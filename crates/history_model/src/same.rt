//! Equality of names and clients, as the definitions test it.
ghost use Rattle.std.specs.Prelude.{◌≡◌};
ghost use Rattle.object_ids.specs.Same.{same_bytes, same_client};

use history::equality::equal_uids;
use object_ids::Vmid;

/// Returns whether two addresses are equal.
pub fn equal_bytes(a: &[u8], b: &[u8]) -> bool
    ensures { result ≡ same_bytes a.now b.now }
{
    a == b
}

/// Returns whether two names are equal.
pub fn equal_units(a: &[u16], b: &[u16]) -> bool
    ensures { result ≡ same_bytes a.now b.now }
{
    a == b
}

/// Returns whether two clients are equal.
pub fn equal_clients(a: &Vmid, b: &Vmid) -> bool
    ensures { result ≡ same_client a.now b.now }
{
    equal_bytes(a.addr().as_slice(), b.addr().as_slice()) && equal_uids(a.uid(), b.uid())
}
