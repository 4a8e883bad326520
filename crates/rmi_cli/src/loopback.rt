//! The host that the program serves at.
ghost use Rattle.std.specs.Prelude.{◌≡◌, IfOk};
ghost use Rattle.rmi_cli.specs.Loopback.{loopback_host};

use mod_utf::utf::units_of_ascii;
use sequence::Units;
use std::alloc::{AllocError, Global};

/// The text `127.0.0.1`.
pub(crate) fn loopback_host(alloc: Global) -> Result<Units, AllocError>
    ensures { IfOk result (λ host. host ≡ loopback_host) }
{
    units_of_ascii(alloc, b"127.0.0.1")
}
