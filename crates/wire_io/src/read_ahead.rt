//! Bytes of a reader, some of them read before they are asked for.
ghost use Rattle.std.specs.Prelude.{◌≡◌, ◌-◌, ◌≤◌, min, ◌++◌, length, take, drop, slice_range, vec_len, ◌<◌, IfOk, OnOk, OnErr};
ghost use Rattle.std.specs.Io.{ReadsAtMost};
ghost use Rattle.std.specs.Io.KnownBytes.{Consumes, IsAtEnd, Keeps, ReadConsumes, prepend_known};

use crate::source::Failed;
use std::alloc::{AllocError, Global};
use std::io::Read;

/// The most bytes that are read ahead.
const READ_AHEAD_BYTES: usize = 2048;

/// A reader, and bytes that were read of it and not yet given: those of `bytes` from `start` to `end`.
#[derive(Drop)]
pub(crate) struct ReadAhead<R> {
    inner: R,
    bytes: Vec<u8>,
    start: usize,
    end: usize,
    ghost ordered: { start ≤ end },
    ghost within: { end ≤ vec_len bytes },
}

impl<R: Read> ReadAhead<R> {
    /// Reads this reader, of which nothing was read yet. It takes memory for the bytes read ahead, and drops the reader where there is
    /// none.
    pub(crate) fn new(alloc: Global, inner: R) -> Result<ReadAhead<R>, AllocError>
    where
        R: Drop,
        ensures inner { IfOk result (λ ahead. ahead.inner ≡ inner) }
        ensures length { IfOk result (λ ahead. vec_len ahead.bytes ≡ 2048) }
        ensures start { IfOk result (λ ahead. ahead.start ≡ 0) }
        ensures end { IfOk result (λ ahead. ahead.end ≡ 0) }
    {
        let mut bytes = Vec::with_capacity(alloc, READ_AHEAD_BYTES)?;
        bytes.resize(READ_AHEAD_BYTES, 0)?;
        Ok(ReadAhead {
            inner,
            bytes,
            start: 0,
            end: 0,
        })
    }

    /// The reader.
    pub(crate) fn inner(&self) -> &R
        ensures { result.now ≡ self.now.inner }
    {
        &self.inner
    }

    /// Gives the next bytes into the front of `buf`, and answers how many: of those read ahead where there are any, else of one
    /// read of the reader. It gives none exactly at the end and for an empty `buf`, for which the reader is not asked. It fails where the reader does.
    #[inline(always)]
    pub(crate) fn read(&mut self, buf: &mut [u8]) -> Result<usize, Failed>
        ensures bound { ReadsAtMost result buf.new }
        ensures bytes { ReadConsumes
            (prepend_known (slice_range self.old.bytes.items self.old.start self.old.end)
            (R.remaining self.old.inner))
            (prepend_known (slice_range self.new.bytes.items self.new.start self.new.end)
            (R.remaining self.new.inner)) result buf.new }
    {
        if self.start < self.end {
            Ok(self.give(buf))
        } else {
            self.read_more(buf)
        }
    }

    /// Reads where all that was read ahead is given: ahead, or into `buf` where that is no shorter.
    #[cold]
    #[inline(never)]
    fn read_more(&mut self, buf: &mut [u8]) -> Result<usize, Failed>
        requires { self.old.end ≤ self.old.start }
        ensures bound { ReadsAtMost result buf.new }
        ensures bytes { ReadConsumes (R.remaining self.old.inner)
            (prepend_known (slice_range self.new.bytes.items self.new.start self.new.end)
            (R.remaining self.new.inner)) result buf.new }
    {
        if buf.is_empty() {
            return Ok(0);
        }
        if buf.len() < self.bytes.len() {
            return match self.refill() {
                Ok(()) => Ok(self.give(buf)),
                Err(failed) => Err(failed),
            };
        }
        match self.inner.read(buf) {
            Ok(count) => Ok(count),
            Err(_) => Err(Failed),
        }
    }

    /// Gives as many of the bytes read ahead as `buf` has room for.
    #[inline(always)]
    fn give(&mut self, buf: &mut [u8]) -> usize
        ensures bound { result ≤ length buf.new }
        ensures count { result ≡ min (self.old.end - self.old.start) (length buf.old) }
        ensures bytes { slice_range self.old.bytes.items self.old.start self.old.end
            ≡ take result buf.new ++ slice_range self.new.bytes.items self.new.start self.new.end }
        ensures inner { self.new.inner ≡ self.old.inner }
    {
        let (start, end) = (self.start, self.end);
        let count = copy_front(&self.bytes[start..end], buf);
        self.start = start + count;
        count
    }

    /// Reads ahead once, where all that was read is given.
    fn refill(&mut self) -> Result<(), Failed>
        requires given { self.old.end ≤ self.old.start }
        requires room { 0 < vec_len self.old.bytes }
        ensures bytes { Keeps (R.remaining self.old.inner)
            (prepend_known (slice_range self.new.bytes.items self.new.start self.new.end)
            (R.remaining self.new.inner)) }
        ensures end { OnOk result
            (self.new.end ≤ self.new.start → IsAtEnd (R.remaining self.new.inner)) }
    {
        self.start = 0;
        self.end = 0;
        self.end = read_over(&mut self.inner, &mut self.bytes)?;
        Ok(())
    }
}

/// One read over these bytes, which answers how many of them it changed at most.
fn read_over<R: Read>(reader: &mut R, bytes: &mut Vec<u8>) -> Result<usize, Failed>
    ensures length { vec_len bytes.new ≡ vec_len bytes.old }
    ensures bound { IfOk result (λ n. n ≤ vec_len bytes.new) }
    ensures ok { IfOk result
        (λ n. Consumes (R.remaining reader.old) (R.remaining reader.new) (take n bytes.new.items)) }
    ensures end { IfOk result
        (λ n. n ≡ 0 → 0 < vec_len bytes.old → IsAtEnd (R.remaining reader.new)) }
    ensures err { OnErr result (Keeps (R.remaining reader.old) (R.remaining reader.new)) }
{
    match reader.read(bytes.as_mut_slice()) {
        Ok(count) => Ok(count),
        Err(_) => Err(Failed),
    }
}

/// Copies as many bytes as both have to the front of `to`, and answers how many.
#[inline(always)]
fn copy_front(from: &[u8], to: &mut [u8]) -> usize
    ensures count { result ≡ min (length from.now) (length to.old) }
    ensures copied { to.new ≡ take result from.now ++ drop result to.old }
{
    let count = to.len();
    if count <= from.len() {
        to.copy_from_slice(&from[..count]);
        count
    } else {
        copy_all(from, to)
    }
}

/// Copies fewer bytes than `to` has to its front, and answers how many.
#[cold]
#[inline(never)]
fn copy_all(from: &[u8], to: &mut [u8]) -> usize
    requires { length from.now ≤ length to.old }
    ensures count { result ≡ length from.now }
    ensures copied { to.new ≡ from.now ++ drop (length from.now) to.old }
{
    to[..from.len()].copy_from_slice(from);
    from.len()
}
