//! The two halves of a connection: a client that makes its bytes as they are read, and a sink that counts those that are written.
ghost use Rattle.std.specs.Prelude.{◌≤◌, length, true};
ghost use Rattle.wire_io.specs.Wire.{untold_read, untold_write};

use object_ids::UidDraw;
use sequence::ByteList;
use std::alloc::{AllocError, Global};
use wire_io::{Failed, Sink, Source};

/// The bytes that a client sends first. They name no host and no port of its own.
const OPENING: &[u8] = b"JRMI\x00\x02K\x00\x00\x00\x00\x00\x00";

/// The code of an acknowledgement.
const ACK: u8 = 0x54;

/// A client's bytes: an opening, and then the same call so many times. Where its Returns are acknowledged, an acknowledgement follows each
/// call.
#[derive(Drop)]
pub(crate) struct CallSource<'a> {
    /// The message that is read now.
    message: ByteList,
    /// The number of its bytes that were read.
    at: usize,
    call: &'a [u8],
    /// The number of calls after the message and its acknowledgement.
    calls: u32,
    /// The identifiers that the server draws.
    draw: UidDraw,
    is_acknowledged: bool,
    /// True where the message is a call whose Return is still to be acknowledged.
    owes_ack: bool,
}

impl<'a> CallSource<'a> {
    /// A client that makes a call so many times. The server draws the identifiers of its Returns as `draw` does.
    pub(crate) fn new(
        alloc: Global,
        call: &'a [u8],
        calls: u32,
        draw: UidDraw,
        is_acknowledged: bool,
    ) -> Result<CallSource<'a>, AllocError> {
        Ok(CallSource {
            message: ByteList::from_slice(alloc, OPENING)?,
            at: 0,
            call,
            calls,
            draw,
            is_acknowledged,
            owes_ack: false,
        })
    }

    /// Goes on to the next message. It is empty where there is none.
    fn advance(&mut self) -> Result<(), AllocError> {
        self.at = 0;
        self.message.truncate(0);
        if self.owes_ack {
            self.owes_ack = false;
            return put_ack(&mut self.message, &mut self.draw);
        }
        if self.calls > 0 {
            self.calls -= 1;
            self.owes_ack = self.is_acknowledged;
            self.message.append(self.call)?;
        }
        Ok(())
    }
}

/// Appends the acknowledgement of the next Return.
fn put_ack(bytes: &mut ByteList, draw: &mut UidDraw) -> Result<(), AllocError> {
    if let Some(uid) = draw.next() {
        bytes.push(ACK)?;
        bytes.append(&uid.unique.to_be_bytes())?;
        bytes.append(&uid.time.to_be_bytes())?;
        bytes.append(&uid.count.to_be_bytes())?;
    }
    Ok(())
}

/// Copies as many bytes as both have to the front of `to`, and answers how many.
fn copy_front(from: &[u8], to: &mut [u8]) -> usize
    ensures given { result ≤ length from.now }
    ensures taken { result ≤ length to.new }
{
    let count = from.len().min(to.len());
    to[..count].copy_from_slice(&from[..count]);
    count
}

impl Source for CallSource<'_> {
    ghost half = { λ _. untold_read 0 true };

    fn read(&mut self, buf: &mut [u8]) -> Result<usize, Failed> {
        if self.at == self.message.len() && self.advance().is_err() {
            return Ok(0);
        }
        let Some(rest) = self.message.as_slice().get(self.at..) else {
            return Ok(0);
        };
        let count = copy_front(rest, buf);
        self.at += count;
        Ok(count)
    }

    fn shut(&mut self) {}
}

/// A sink that counts the bytes that are written, and keeps none.
#[derive(Drop)]
pub(crate) struct CountingSink {
    pub(crate) bytes: u64,
}

impl CountingSink {
    /// The sink to which nothing was written.
    pub(crate) fn new() -> CountingSink {
        CountingSink { bytes: 0 }
    }
}

impl Sink for CountingSink {
    ghost half = { λ _. untold_write 0 true };

    fn write(&mut self, piece: &[u8]) -> Result<usize, Failed> {
        self.bytes = self.bytes.saturating_add(piece.len() as u64);
        Ok(piece.len())
    }

    fn shut(&mut self) {}
}
