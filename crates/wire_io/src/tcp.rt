//! Connections over TCP. They tell no content. Contracts see each half as its count of faults and whether it was shut, and a dialer as its
//! count of faults. Of a listener they see its counts (`untold_listener` of `specs/Links`), and whether it was told to stop or closed.

mod dial;
mod link;
mod listen;
mod sink;
mod socket;
mod source;

pub use dial::TcpDial;
pub use link::{TcpLink, tcp_link};
pub use listen::TcpListen;
pub use sink::TcpSink;
pub use source::TcpSource;
