//! Sources, sinks and clocks in memory, whose calls are known exactly.
ghost use Rattle.std.specs.Prelude.{◌≡◌, ◌≤◌, ◌↔◌, [], ◌++◌, ◌∷◌, length, take, drop, min, None, Some, IfOk, OnOk, OnErr, IsErr, IsTrue, Contains, slice_get};
ghost use Rattle.wire_io.specs.Wire.{Read, Written, ShutsRead, ShutsWrite, Gave};
ghost use Rattle.wire_io.specs.Mem.{most_given, count_given, source_half, sink_half, after_read, after_failed_read, after_shut_source, after_write, after_failed_write, after_shut_sink, moment_at, moments_given, after_call};
ghost use Rattle.wire_io.specs.declared.limits.TheConstants.{LAST_MOMENT};

use crate::clock::Clock;
use crate::limits::LAST_MOMENT;
use crate::sink::Sink;
use crate::source::{Failed, Source};
use sequence::{ByteList, Kinds, MomentList};
use std::alloc::Global;
use std::marker::Model;
use std::snapshot::Snapshot;

/// A source that gives its bytes in pieces, and fails at chosen reads.
///
/// Its reads are counted from 0, up to `u64::MAX`, where the count stands still. A read whose index stands in `failing`
/// fails and takes nothing; so no read past the index `u32::MAX` fails. Any other read gives at most as many bytes as
/// stand in `cuts` at its index, and 1 where 0 stands there. Past the end of `cuts` it gives all that it is asked for.
pub struct MemSource {
    bytes: ByteList,
    taken: usize,
    cuts: Kinds,
    failing: Kinds,
    reads: u64,
    faults: u64,
    /// The number of bytes that were taken when the source was first shut.
    shut_at: Option<usize>,
}

// Written out, so that whoever owns one has one call at each exit, and not the drop of each field.
impl Drop for MemSource {
    fn drop(self) {
        let MemSource {
            bytes,
            taken: _,
            cuts,
            failing,
            reads: _,
            faults: _,
            shut_at: _,
        } = self;
        drop(bytes);
        drop(cuts);
        drop(failing);
    }
}

impl Model for MemSource {
    ghost use Rattle.std.specs.Prelude.{◌≤◌, drop, length, Some, option_map};
    ghost use Rattle.wire_io.specs.Mem.{SourceState};

    ghost Value = { SourceState };

    ghost view = { λ s. record {
      left = drop s.taken s.bytes;
      cuts = s.cuts;
      failing = s.failing;
      reads = s.reads;
      faults = s.faults;
      shut = option_map (λ taken. Some (drop taken s.bytes)) s.shut_at;
    } };

    ghost invariant = { λ s. s.taken ≤ length s.bytes };
}

impl MemSource {
    /// The source of these bytes, with no read so far. It takes no memory.
    pub fn new(bytes: ByteList, cuts: Kinds, failing: Kinds) -> MemSource
        ensures left { result.left ≡ bytes }
        ensures cuts { result.cuts ≡ cuts }
        ensures failing { result.failing ≡ failing }
        ensures reads { result.reads ≡ 0 }
        ensures faults { result.faults ≡ 0 }
        ensures shut { result.shut ≡ None }
    {
        MemSource {
            bytes,
            taken: 0,
            cuts,
            failing,
            reads: 0,
            faults: 0,
            shut_at: None,
        }
    }

    /// The bytes still to come.
    pub fn rest(&self) -> &[u8]
        ensures { result.now ≡ self.now.left }
    {
        &self.bytes.as_slice()[self.taken..]
    }

    /// Returns the number of reads, those that failed among them.
    pub fn reads(&self) -> u64
        ensures { result ≡ self.now.reads }
    {
        self.reads
    }

    /// Returns the number of reads that failed.
    pub fn faults(&self) -> u64
        ensures { result ≡ self.now.faults }
    {
        self.faults
    }
}

impl Source for MemSource {
    ghost half = { source_half };

    /// A read fails exactly where its index stands in `failing`.
    fn read(&mut self, buf: &mut [u8]) -> Result<usize, Failed>
        ensures read { Read (source_half self.old) (source_half self.new) buf.new result }
        ensures fails { IsErr result ↔ Contains self.old.failing self.old.reads }
        ensures count { IfOk result (λ n. n ≡ count_given self.old (length buf.old)) }
        ensures bytes { IfOk result (λ n. buf.new ≡ take n self.old.left ++ drop n buf.old) }
        ensures ok { IfOk result (λ n. self.new ≡ after_read self.old n) }
        ensures untouched { OnErr result (buf.new ≡ buf.old) }
        ensures err { OnErr result (self.new ≡ after_failed_read self.old) }
    {
        let index = self.reads;
        self.reads = index.saturating_add(1);
        if stands_in(self.failing.as_slice(), index) {
            self.faults = self.faults.saturating_add(1);
            return Err(Failed);
        }
        let most = most_for(self.cuts.as_slice(), index, buf.len());
        let count = give(&self.bytes.as_slice()[self.taken..], most, buf);
        self.taken += count;
        Ok(count)
    }

    fn shut(&mut self)
        ensures shut { ShutsRead (source_half self.old) (source_half self.new) }
        ensures after { self.new ≡ after_shut_source self.old }
    {
        if self.shut_at.is_none() {
            self.shut_at = Some(self.taken);
        }
    }
}

/// Returns whether this index is among these.
pub(crate) fn stands_in(indices: &[u32], index: u64) -> bool
    ensures { IsTrue result ↔ Contains indices.now index }
{
    indices.iter().any(|i| u64::from(*i) == index)
}

/// The most bytes that the read of this index gives into a buffer of this length.
fn most_for(cuts: &[u32], index: u64, room: usize) -> usize
    ensures { result ≡ most_given (slice_get cuts.now index) room }
{
    match cuts.get(index as usize) {
        Some(cut) => room.min((*cut).max(1) as usize),
        None => room,
    }
}

/// Copies as many bytes as it may into the front of `buf`, and answers how many.
fn give(bytes: &[u8], most: usize, buf: &mut [u8]) -> usize
    ensures count { result ≡ min most (min (length bytes.now) (length buf.old)) }
    ensures buf { buf.new ≡ take result bytes.now ++ drop result buf.old }
{
    let count = most.min(bytes.len().min(buf.len()));
    buf[..count].copy_from_slice(&bytes[..count]);
    count
}

/// A sink that keeps what is written, and fails at chosen writes.
///
/// Its writes are counted from 0, up to `u64::MAX`, where the count stands still. A write whose index stands in
/// `failing` fails; so no write past the index `u32::MAX` fails for that. Any other write takes its whole piece, or
/// fails where there is no memory to keep it. A write that fails takes nothing.
pub struct MemSink {
    bytes: ByteList,
    failing: Kinds,
    writes: u64,
    faults: u64,
    /// The bytes that it held when it was first shut, which takes no bytes and is known to contracts alone.
    shut: Option<Snapshot<ByteList>>,
}

// Written out, so that whoever owns one has one call at each exit, and not the drop of each field.
impl Drop for MemSink {
    fn drop(self) {
        let MemSink {
            bytes,
            failing,
            writes: _,
            faults: _,
            shut: _,
        } = self;
        drop(bytes);
        drop(failing);
    }
}

impl Model for MemSink {
    ghost use Rattle.std.specs.Prelude.{Some, option_map};
    ghost use Rattle.wire_io.specs.Mem.{SinkState};

    ghost Value = { SinkState };

    ghost view = { λ s. record {
      held = s.bytes;
      failing = s.failing;
      writes = s.writes;
      faults = s.faults;
      shut = option_map (λ noted. Some noted.value) s.shut;
    } };
}

impl MemSink {
    /// The sink that holds nothing, with no write so far. It takes no memory.
    pub fn new(alloc: Global, failing: Kinds) -> MemSink
        ensures held { result.held ≡ [] }
        ensures failing { result.failing ≡ failing }
        ensures writes { result.writes ≡ 0 }
        ensures faults { result.faults ≡ 0 }
        ensures shut { result.shut ≡ None }
    {
        MemSink {
            bytes: ByteList::new(alloc),
            failing,
            writes: 0,
            faults: 0,
            shut: None,
        }
    }

    /// The bytes that it took.
    pub fn bytes(&self) -> &[u8]
        ensures { result.now ≡ self.now.held }
    {
        self.bytes.as_slice()
    }

    /// Returns the number of writes, those that failed among them.
    pub fn writes(&self) -> u64
        ensures { result ≡ self.now.writes }
    {
        self.writes
    }

    /// Returns the number of writes that failed.
    pub fn faults(&self) -> u64
        ensures { result ≡ self.now.faults }
    {
        self.faults
    }
}

impl Sink for MemSink {
    ghost half = { sink_half };

    /// A write fails where its index stands in `failing`, and else only for want of memory.
    fn write(&mut self, piece: &[u8]) -> Result<usize, Failed>
        ensures written { Written (sink_half self.old) (sink_half self.new) piece.now result }
        ensures fails { Contains self.old.failing self.old.writes → IsErr result }
        ensures count { IfOk result (λ n. n ≡ length piece.now) }
        ensures ok { OnOk result (self.new ≡ after_write self.old piece.now) }
        ensures err { OnErr result (self.new ≡ after_failed_write self.old) }
    {
        let index = self.writes;
        self.writes = index.saturating_add(1);
        if stands_in(self.failing.as_slice(), index) || self.bytes.append(piece).is_err() {
            self.faults = self.faults.saturating_add(1);
            return Err(Failed);
        }
        Ok(piece.len())
    }

    fn shut(&mut self)
        ensures shut { ShutsWrite (sink_half self.old) (sink_half self.new) }
        ensures after { self.new ≡ after_shut_sink self.old }
    {
        if self.shut.is_none() {
            self.shut = Some(Snapshot::of(&self.bytes));
        }
    }
}

/// A clock that gives the moments of a list, one at each call, and the last one again past its end. It gives 0 where
/// the list is empty, and 2^62 - 1 in place of a greater moment.
///
/// It tells what it gave for the first 2^64 - 2 calls.
pub struct MemClock {
    moments: MomentList,
    calls: u64,
}

// Written out, so that whoever owns one has one call at each exit, and not the drop of each field.
impl Drop for MemClock {
    fn drop(self) {
        let MemClock { moments, calls: _ } = self;
        drop(moments);
    }
}

impl Model for MemClock {
    ghost use Rattle.wire_io.specs.Mem.{ClockState};

    ghost Value = { ClockState };

    ghost view = { λ c. record { moments = c.moments; calls = c.calls } };
}

impl MemClock {
    /// The clock of these moments, with no call so far. It takes no memory.
    pub fn new(moments: MomentList) -> MemClock
        ensures moments { result.moments ≡ moments }
        ensures calls { result.calls ≡ 0 }
    {
        MemClock { moments, calls: 0 }
    }

    /// Returns the number of moments that the clock gave.
    pub fn calls(&self) -> u64
        ensures { result ≡ self.now.calls }
    {
        self.calls
    }
}

impl Clock for MemClock {
    ghost given = { moments_given };

    fn now(&mut self) -> u64
        ensures bound { result ≤ LAST_MOMENT }
        ensures given { Gave (moments_given self.old) (moments_given self.new) (result ∷ []) }
        ensures moment { result ≡ moment_at self.old.moments self.old.calls }
        ensures after { self.new ≡ after_call self.old }
    {
        let moment = moment_for(self.moments.as_slice(), self.calls);
        self.calls = self.calls.saturating_add(1);
        moment
    }
}

/// The moment that the call of this index gives.
fn moment_for(moments: &[u64], index: u64) -> u64
    ensures { result ≡ moment_at moments.now index }
{
    if moments.is_empty() {
        return 0;
    }
    let last = moments.len() - 1;
    moments[last.min(index as usize)].min(LAST_MOMENT)
}
