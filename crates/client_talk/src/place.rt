//! Where servers are.
use sequence::Units;

/// Where a link is dialled: a host, which is a name or the numbers of an address, and a port.
#[derive(Debug)]
pub struct Place {
    /// The host, as a text.
    pub host: Units,
    /// The port.
    pub port: i32,
}

// Written out, so that whoever owns one has one call at each exit, and not the drop of each field.
impl Drop for Place {
    fn drop(self) {
        let Place { host, port: _ } = self;
        drop(host);
    }
}
