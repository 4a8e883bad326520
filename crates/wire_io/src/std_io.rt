//! Sources, sinks and clocks over the real thing. They tell no content. Contracts see each half as its count of faults and whether it was
//! shut, and the clock as its count of faults.
ghost use Rattle.std.specs.Prelude.{◌≡◌, ◌≤◌, ◌⊎◌, false, [], ◌∷◌, None, IfOk, OnOk, OnErr};
ghost use Rattle.wire_io.specs.Wire.{Read, Written, ShutsRead, ShutsWrite, Gave, next_count, first_shut, untold_read, untold_write};
ghost use Rattle.wire_io.specs.declared.limits.TheConstants.{LAST_MOMENT};

use crate::clock::Clock;
use crate::limits::LAST_MOMENT;
use crate::read_ahead::ReadAhead;
use crate::sink::Sink;
use crate::source::{Failed, Source};
use std::alloc::{AllocError, Global};
use std::io::{Read, Write};
use std::marker::Model;
use std::{io, time};

/// Bytes from a reader, as standard input or a file.
///
/// It reads ahead into a buffer of its own, so that a read of one byte is seldom a call of the system. Each error of
/// the reader is a fault, one that interrupts a call among them.
#[derive(Drop)]
pub struct StdSource<R> {
    reader: ReadAhead<R>,
    faults: u64,
    is_shut: bool,
}

impl<R> Model for StdSource<R> {
    ghost use Rattle.wire_io.specs.Wire.{ReadHalf, untold_read};

    ghost Value = { ReadHalf };

    ghost view = { λ s. untold_read s.faults s.is_shut };
}

impl<R: Read + Drop> StdSource<R> {
    /// The source of this reader's bytes. It takes memory for the buffer, and drops the reader where there is none.
    pub fn new(alloc: Global, reader: R) -> Result<StdSource<R>, AllocError>
        ensures { IfOk result (λ source. source ≡ untold_read 0 false) }
    {
        Ok(StdSource {
            reader: ReadAhead::new(alloc, reader)?,
            faults: 0,
            is_shut: false,
        })
    }
}

impl<R> StdSource<R> {
    /// Returns the number of reads that failed.
    pub fn faults(&self) -> u64
        ensures { result ≡ self.now.faults }
    {
        self.faults
    }
}

impl<R: Read> Source for StdSource<R> {
    ghost half = { λ s. s };

    #[inline(always)]
    fn read(&mut self, buf: &mut [u8]) -> Result<usize, Failed>
        ensures read { Read self.old self.new buf.new result }
        ensures ok { OnOk result (self.new ≡ self.old) }
        ensures err { OnErr result
            (self.new ≡ record self.old { faults = next_count self.old.faults }) }
    {
        match self.reader.read(buf) {
            Ok(n) => Ok(n),
            Err(failed) => {
                self.faults = self.faults.saturating_add(1);
                Err(failed)
            }
        }
    }

    fn shut(&mut self)
        ensures shut { ShutsRead self.old self.new }
        ensures after { self.new ≡ record self.old { shut = first_shut self.old.shut None } }
    {
        self.is_shut = true;
    }
}

/// Bytes to a writer, as standard output or a file.
///
/// It keeps no bytes back: each write is one of the writer. Each error of the writer is a fault, and so is a write that
/// takes no byte of a piece that is not empty.
#[derive(Drop)]
pub struct StdSink<W> {
    writer: W,
    faults: u64,
    is_shut: bool,
}

impl<W> Model for StdSink<W> {
    ghost use Rattle.wire_io.specs.Wire.{WriteHalf, untold_write};

    ghost Value = { WriteHalf };

    ghost view = { λ s. untold_write s.faults s.is_shut };
}

impl<W> StdSink<W> {
    /// The sink to this writer. It takes no memory.
    pub fn new(writer: W) -> StdSink<W>
        ensures { result ≡ untold_write 0 false }
    {
        StdSink {
            writer,
            faults: 0,
            is_shut: false,
        }
    }

    /// Returns the number of writes that failed.
    pub fn faults(&self) -> u64
        ensures { result ≡ self.now.faults }
    {
        self.faults
    }
}

impl<W: Write> Sink for StdSink<W> {
    ghost half = { λ s. s };

    fn write(&mut self, piece: &[u8]) -> Result<usize, Failed>
        ensures written { Written self.old self.new piece.now result }
        ensures ok { OnOk result (self.new ≡ self.old) }
        ensures err { OnErr result
            (self.new ≡ record self.old { faults = next_count self.old.faults }) }
    {
        match self.writer.write(piece) {
            Ok(n) if n > 0 || piece.is_empty() => Ok(n),
            _ => {
                self.faults = self.faults.saturating_add(1);
                Err(Failed)
            }
        }
    }

    fn shut(&mut self)
        ensures shut { ShutsWrite self.old self.new }
        ensures after { self.new ≡ record self.old { shut = first_shut self.old.shut None } }
    {
        self.is_shut = true;
    }
}

/// The time of day, in milliseconds since the year 1970 began, and 2^62 - 1 in place of a later moment.
///
/// Where the system gives no time, that is a fault, and the moment given last is given again; at first that is 0.
#[derive(Drop)]
pub struct StdClock<R> {
    rt: R,
    last: u64,
    faults: u64,
}

impl<R> Model for StdClock<R> {
    ghost use Rattle.std.specs.Prelude.{ℕ, ◌≤◌};
    ghost use Rattle.wire_io.specs.declared.limits.TheConstants.{LAST_MOMENT};

    ghost Value = { ℕ };

    ghost view = { λ c. c.faults };

    ghost invariant = { λ c. c.last ≤ LAST_MOMENT };
}

impl<R> StdClock<R> {
    /// The clock of this runtime. It takes no memory, and does not read the time yet.
    pub fn new(rt: R) -> StdClock<R>
        ensures { result ≡ 0 }
    {
        StdClock {
            rt,
            last: 0,
            faults: 0,
        }
    }

    /// Returns the number of times that the system gave no time.
    pub fn faults(&self) -> u64
        ensures { result ≡ self.now }
    {
        self.faults
    }
}

impl<R: time::Clock> Clock for StdClock<R> {
    ghost given = { λ _. None };

    fn now(&mut self) -> u64
        ensures bound { result ≤ LAST_MOMENT }
        ensures given { Gave None None (result ∷ []) }
        ensures faults { (self.new ≡ self.old) ⊎ (self.new ≡ next_count self.old) }
    {
        match milliseconds_since_1970(&self.rt) {
            Ok(moment) => self.last = moment,
            Err(_) => self.faults = self.faults.saturating_add(1),
        }
        self.last
    }
}

/// The system's time in milliseconds.
fn milliseconds_since_1970<R: time::Clock>(rt: &R) -> io::Result<u64>
    ensures { IfOk result (λ moment. moment ≤ LAST_MOMENT) }
{
    let since = rt.since_1970()?;
    let milliseconds = since
        .as_secs()
        .saturating_mul(1000)
        .saturating_add(u64::from(since.subsec_millis()));
    Ok(milliseconds.min(LAST_MOMENT))
}
