//! The settings of a connection.
use object_ids::UidDraw;
use sequence::Units;

/// The identifiers that a connection draws begin at a moment below this one, in milliseconds: so the drawing doesn't end.
pub const DRAWS_BEGIN_BELOW: u64 = 1 << 61;

/// The settings of a connection. Serving the connection draws identifiers, and changes nothing else of them.
pub struct Setup {
    /// The number of the connection.
    pub by: u32,
    /// The client's host, as the server sees it.
    pub peer_host: Units,
    /// The client's port, as the server sees it.
    pub peer_port: i32,
    /// The server's own host.
    pub host: Units,
    /// The server's own port.
    pub port: i32,
    /// True where clients may bind names.
    pub binding: bool,
    /// Where identifiers come from.
    pub draw: UidDraw,
    /// The bytes that replace the address of a client that names no virtual machine.
    pub mark: [u8; 8],
}

// Written out, so that whoever owns one has one call at each exit, and not the drop of each field.
impl Drop for Setup {
    fn drop(self) {
        let Setup {
            by: _,
            peer_host,
            peer_port: _,
            host,
            port: _,
            binding: _,
            draw,
            mark: _,
        } = self;
        drop(peer_host);
        drop(host);
        drop(draw);
    }
}
