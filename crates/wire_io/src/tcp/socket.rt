//! A handle of a connection's socket, and single reads and writes of it.
ghost use Rattle.std.specs.Io.{ReadsAtMost, WritesAtMost};

use std::io;
use std::io::{Read, Write};
use std::net::TcpStream;
use std::sync::Arc;
use std::time::Duration;

/// The most times that one read or write asks the system anew where a signal interrupted it. Each time its limit of
/// time begins anew.
const MAX_INTERRUPTIONS: u32 = 16;

/// A handle of a socket, of one half's own or shared by both halves of a link. The system has the socket back when the last handle is dropped.
#[derive(Drop)]
pub(crate) enum Handle {
    /// The one handle of a half.
    Own(TcpStream),
    /// The handle that both halves of a link share.
    Shared(Arc<TcpStream>),
}

impl Handle {
    /// Returns the socket.
    pub(crate) fn stream(&self) -> &TcpStream {
        match self {
            Handle::Own(stream) => stream,
            Handle::Shared(stream) => stream,
        }
    }

    /// Lets a read take so many seconds until bytes come, and as long as it wants where that is 0.
    pub(crate) fn limit_reads(&self, seconds: u64) {
        let limit = match seconds {
            0 => None,
            _ => Some(Duration::from_secs(seconds)),
        };
        let _ = self.stream().set_read_timeout(limit);
    }

    /// Lets a write take so many seconds until it takes bytes.
    pub(crate) fn limit_writes(&self, seconds: u64) {
        let _ = self
            .stream()
            .set_write_timeout(Some(Duration::from_secs(seconds)));
    }
}

/// One read of a socket. Where a signal interrupts it, the system is asked again, [`MAX_INTERRUPTIONS`] times at most.
pub(crate) fn read_stream(stream: &TcpStream, buf: &mut [u8]) -> io::Result<usize>
    ensures { ReadsAtMost result buf.new }
{
    let mut stream = stream;
    for _ in 0..MAX_INTERRUPTIONS {
        match stream.read(buf) {
            Err(error) if error.kind() == io::ErrorKind::Interrupted => {}
            ended => return ended,
        }
    }
    stream.read(buf)
}

/// One write to a socket. Where a signal interrupts it, the system is asked again, [`MAX_INTERRUPTIONS`] times at most.
pub(crate) fn write_stream(stream: &TcpStream, piece: &[u8]) -> io::Result<usize>
    ensures { WritesAtMost result piece.now }
{
    let mut stream = stream;
    for _ in 0..MAX_INTERRUPTIONS {
        match stream.write(piece) {
            Err(error) if error.kind() == io::ErrorKind::Interrupted => {}
            ended => return ended,
        }
    }
    stream.write(piece)
}
