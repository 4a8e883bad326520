//! Why a command of a client goes no further.
ghost use Rattle.std.specs.Prelude.{◌≡◌};

use dgc_client::ClientFault;
use rmi_client::ClientEnd;

/// Why a command of a client goes no further.
#[derive(Debug)]
pub enum CommandEnd {
    /// No link was given: the dialer failed, and its count of faults rose.
    DialFault,
    /// The session of a link came to an end.
    Session(ClientEnd),
    /// The table of the client's references refused a call.
    Table(ClientFault),
}

// Written out, so that whoever owns one has one call at each exit, and not the drop of each variant.
impl Drop for CommandEnd {
    fn drop(self) {
        match self {
            CommandEnd::Session(end) => drop(end),
            CommandEnd::DialFault => {}
            CommandEnd::Table(_) => {}
        }
    }
}
