//! The half of a TCP connection that bytes are written to.
ghost use Rattle.std.specs.Prelude.{◌≡◌, None, false, is_none, OnOk, OnErr};
ghost use Rattle.wire_io.specs.Wire.{Written, ShutsWrite, next_count, first_shut, untold_write};

use crate::limits::WRITE_SECONDS;
use crate::sink::Sink;
use crate::source::Failed;
use crate::tcp::socket::{Handle, write_stream};
use std::marker::Model;
use std::net::{Shutdown, TcpStream};

/// The half of a TCP connection that bytes are written to.
///
/// It keeps no bytes back: each write is one of the socket. Each error of the socket is a fault, and so are a write that takes no
/// byte of a piece that is not empty, a write after `shut`, and a write that takes longer than [`WRITE_SECONDS`].
#[derive(Drop)]
pub struct TcpSink {
    half: Option<Handle>,
    faults: u64,
}

impl Model for TcpSink {
    ghost use Rattle.std.specs.Prelude.{is_none};
    ghost use Rattle.wire_io.specs.Wire.{WriteHalf, untold_write};

    ghost Value = { WriteHalf };

    ghost view = { λ s. untold_write s.faults (is_none s.half) };
}

impl TcpSink {
    /// The sink to this connection, which sends each write at once. It takes no memory.
    pub fn new(stream: TcpStream) -> TcpSink
        ensures { result ≡ untold_write 0 false }
    {
        TcpSink::over(Handle::Own(stream))
    }

    /// The sink over this handle, which sends each write at once.
    pub(crate) fn over(handle: Handle) -> TcpSink
        ensures { result ≡ untold_write 0 false }
    {
        let _ = handle.stream().set_nodelay(true);
        handle.limit_writes(WRITE_SECONDS);
        TcpSink {
            half: Some(handle),
            faults: 0,
        }
    }

    /// Returns the number of writes that failed.
    pub fn faults(&self) -> u64
        ensures { result ≡ self.now.faults }
    {
        self.faults
    }
}

/// One write to the half, if it was not shut.
fn write_half(half: &Option<Handle>, piece: &[u8]) -> Result<usize, Failed>
    ensures { OnOk result (Written (untold_write 0 false) (untold_write 0 false) piece.now result) }
{
    let Some(handle) = half else {
        return Err(Failed);
    };
    match write_stream(handle.stream(), piece) {
        Ok(n) if n > 0 || piece.is_empty() => Ok(n),
        _ => Err(Failed),
    }
}

impl Sink for TcpSink {
    ghost half = { λ s. s };

    fn write(&mut self, piece: &[u8]) -> Result<usize, Failed>
        ensures written { Written self.old self.new piece.now result }
        ensures ok { OnOk result (self.new ≡ self.old) }
        ensures err { OnErr result
            (self.new ≡ record self.old { faults = next_count self.old.faults }) }
    {
        match write_half(&self.half, piece) {
            Ok(n) => Ok(n),
            Err(failed) => {
                self.faults = self.faults.saturating_add(1);
                Err(failed)
            }
        }
    }

    /// Shuts this direction down and gives its handle of the socket back to the system.
    fn shut(&mut self)
        ensures shut { ShutsWrite self.old self.new }
        ensures after { self.new ≡ record self.old { shut = first_shut self.old.shut None } }
    {
        if let Some(handle) = self.half.take() {
            let _ = handle.stream().shutdown(Shutdown::Write);
        }
    }
}
