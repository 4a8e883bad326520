//! The half of a TCP connection that bytes are read from, and its limits of time.
ghost use Rattle.std.specs.Prelude.{◌≡◌, None, false, is_none, IfOk, OnOk, OnErr};
ghost use Rattle.std.specs.Io.{ReadsAtMost};
ghost use Rattle.wire_io.specs.Wire.{Read, ShutsRead, next_count, first_shut, untold_read};

use crate::limits::{FIRST_BYTE_SECONDS, LOOK_SECONDS, NEXT_BYTE_SECONDS};
use crate::read_ahead::ReadAhead;
use crate::source::{Failed, Source};
use crate::tcp::socket::{Handle, read_stream};
use std::alloc::{AllocError, Global};
use std::io;
use std::io::Read;
use std::marker::Model;
use std::net::{Shutdown, TcpStream};
use std::sync::Arc;
use std::sync::atomic::{AtomicBool, Ordering};

/// Rules for reading the socket of a link: how many seconds a read may take until bytes come, where 0 stands for no limit, and the flag, if there
/// is one, that ends all reading.
#[derive(Drop)]
pub(crate) struct ReadRules {
    /// The seconds until the first byte came.
    pub(crate) first: u64,
    /// The seconds from then on.
    pub(crate) next: u64,
    /// Where this is set, nothing more is read.
    pub(crate) stop: Option<Arc<AtomicBool>>,
}

impl ReadRules {
    /// The rules for a connection that was accepted.
    pub(crate) fn for_accepted(stop: Option<Arc<AtomicBool>>) -> ReadRules {
        ReadRules {
            first: FIRST_BYTE_SECONDS,
            next: NEXT_BYTE_SECONDS,
            stop,
        }
    }

    /// For how many seconds the system lets one read wait, where a read as a whole may take this many.
    fn wait(&self, seconds: u64) -> u64 {
        match self.stop {
            Some(_) => LOOK_SECONDS,
            None => seconds,
        }
    }
}

/// Reads a socket, each time for a while at most: for one time until the first byte, and for another one from then on.
#[derive(Drop)]
struct Reader {
    handle: Handle,
    rules: ReadRules,
    has_first: bool,
}

impl Reader {
    /// The reader over this handle, of which no byte was read.
    fn new(handle: Handle, rules: ReadRules) -> Reader {
        handle.limit_reads(rules.wait(rules.first));
        Reader {
            handle,
            rules,
            has_first: false,
        }
    }

    /// Lets the system wait in each read as long as the rules say for those behind the first byte.
    fn limit_next(&self) {
        let seconds = self.rules.wait(self.rules.next);
        self.handle.limit_reads(seconds);
    }

    /// One read by the rules.
    fn read_once(&self, buf: &mut [u8]) -> io::Result<usize>
        ensures { ReadsAtMost result buf.new }
    {
        let seconds = if self.has_first {
            self.rules.next
        } else {
            self.rules.first
        };
        match &self.rules.stop {
            Some(stop) => read_until_told(self.handle.stream(), buf, stop, seconds),
            None => read_stream(self.handle.stream(), buf),
        }
    }
}

impl Read for Reader {
    fn read(&mut self, buf: &mut [u8]) -> io::Result<usize> {
        let count = self.read_once(buf)?;
        if count > 0 && !self.has_first {
            self.has_first = true;
            self.limit_next();
        }
        Ok(count)
    }
}

/// One read of a socket for so many seconds at most, of which the system waits [`LOOK_SECONDS`] at a time. Where the flag is set, it is as if the
/// peer sent nothing more.
fn read_until_told(
    stream: &TcpStream,
    buf: &mut [u8],
    stop: &AtomicBool,
    seconds: u64,
) -> io::Result<usize>
    ensures { ReadsAtMost result buf.new }
{
    for _ in 0..seconds / LOOK_SECONDS {
        if stop.load(Ordering::SeqCst) {
            return Ok(0);
        }
        match read_stream(stream, buf) {
            Err(error) if error.kind() == io::ErrorKind::WouldBlock => {}
            ended => return ended,
        }
    }
    Err(io::Error::from(io::ErrorKind::TimedOut))
}

/// The half of a TCP connection that bytes are read from.
///
/// It reads ahead into a buffer of its own. Each error of the socket is a fault, and so is a read after `shut`. Where the first byte takes
/// longer than [`FIRST_BYTE_SECONDS`], or a later one longer than [`NEXT_BYTE_SECONDS`], that is a fault too; in a link that was dialled,
/// where any read takes longer than its dialer lets it.
#[derive(Drop)]
pub struct TcpSource {
    half: Option<ReadAhead<Reader>>,
    faults: u64,
}

impl Model for TcpSource {
    ghost use Rattle.std.specs.Prelude.{is_none};
    ghost use Rattle.wire_io.specs.Wire.{ReadHalf, untold_read};

    ghost Value = { ReadHalf };

    ghost view = { λ s. untold_read s.faults (is_none s.half) };
}

impl TcpSource {
    /// The source of this connection's bytes. It takes memory for the buffer, and drops its handle of the socket where there is none.
    pub fn new(alloc: Global, stream: TcpStream) -> Result<TcpSource, AllocError>
        ensures { IfOk result (λ source. source ≡ untold_read 0 false) }
    {
        TcpSource::over(alloc, Handle::Own(stream), ReadRules::for_accepted(None))
    }

    /// The source over this handle.
    pub(crate) fn over(
        alloc: Global,
        handle: Handle,
        rules: ReadRules,
    ) -> Result<TcpSource, AllocError>
        ensures { IfOk result (λ source. source ≡ untold_read 0 false) }
    {
        Ok(TcpSource {
            half: Some(ReadAhead::new(alloc, Reader::new(handle, rules))?),
            faults: 0,
        })
    }

    /// Returns the number of reads that failed.
    pub fn faults(&self) -> u64
        ensures { result ≡ self.now.faults }
    {
        self.faults
    }
}

/// One read of what is left of the half, if it was not shut.
#[inline(always)]
fn read_half(half: &mut Option<ReadAhead<Reader>>, buf: &mut [u8]) -> Result<usize, Failed>
    ensures read { OnOk result (Read (untold_read 0 false) (untold_read 0 false) buf.new result) }
    ensures kept { is_none half.new ≡ is_none half.old }
{
    match half {
        Some(reader) => reader.read(buf),
        None => Err(Failed),
    }
}

impl Source for TcpSource {
    ghost half = { λ s. s };

    #[inline(always)]
    fn read(&mut self, buf: &mut [u8]) -> Result<usize, Failed>
        ensures read { Read self.old self.new buf.new result }
        ensures ok { OnOk result (self.new ≡ self.old) }
        ensures err { OnErr result
            (self.new ≡ record self.old { faults = next_count self.old.faults }) }
    {
        match read_half(&mut self.half, buf) {
            Ok(n) => Ok(n),
            Err(failed) => {
                self.faults = self.faults.saturating_add(1);
                Err(failed)
            }
        }
    }

    /// Shuts this direction down and gives its handle of the socket back to the system.
    fn shut(&mut self)
        ensures shut { ShutsRead self.old self.new }
        ensures after { self.new ≡ record self.old { shut = first_shut self.old.shut None } }
    {
        if let Some(reader) = self.half.take() {
            let _ = reader.inner().handle.stream().shutdown(Shutdown::Read);
        }
    }
}
