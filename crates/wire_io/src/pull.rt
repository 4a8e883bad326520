//! Taking bytes one after the other, with their positions.
ghost use Rattle.std.specs.Prelude.{◌≡◌, ◌≢◌, ◌+◌, ◌<◌, ◌≤◌, ◌++◌, length, max, min, replicate, Err, OnOk, OnErr, vec_len, vec_capacity};
ghost use Rattle.wire_io.specs.declared.limits.TheConstants.{LAST_POSITION};
ghost use Rattle.wire_io.specs.declared.pull.TheConstants.{AHEAD};

use crate::limits::LAST_POSITION;
use crate::source::Source;
use sequence::ByteList;
use std::alloc::{AllocError, Global};

/// The most bytes that `take` makes room for ahead of what it read.
const AHEAD: usize = 4096;

/// Why no byte came.
#[derive(Clone, Copy, Debug, PartialEq, Eq)]
pub enum PullEnd {
    /// The input ends at this position. It comes exactly there, also where a message's limit is reached there.
    End { at: u64 },
    /// The message already has as many bytes as it may have, or the position is the last, and the input goes on. It comes
    /// exactly there. The byte that shows it was taken from the source and dropped, and the position stayed.
    Limit { at: u64 },
    /// The source failed. It comes only where the source's count of faults rose. In no other case does that count change.
    ReadFault,
    /// There was no memory to keep the bytes. Only `take` answers it.
    OutOfMemory,
}

/// Takes bytes from a source and counts them, up to a limit.
#[derive(Drop)]
pub struct Pull<'s, S> {
    /// The source that the bytes are taken from.
    pub source: &'s mut S,
    /// The position: how many bytes of the connection or input were taken.
    pub at: u64,
    /// The position at which no byte is taken: [`LAST_POSITION`], or where the present message's limit ends, if that is earlier.
    pub stop: u64,
    ghost within: { at ≤ stop },
    ghost small: { stop ≤ LAST_POSITION },
}

impl<'s, S: Source> Pull<'s, S> {
    ghost use Rattle.wire_io.specs.Pulled.{pull_state, with_bytes, GivesByte, GivesBytes, GivesFront, TakesRest, AppendsSome};

    /// At position 0, with no mark.
    pub fn new(source: &'s mut S) -> Pull<'s, S>
        ensures lent { result.source.ghost_name ≡ source.entry.ghost_name }
        ensures source { result.source.now ≡ source.old }
        ensures at { result.at ≡ 0 }
        ensures stop { result.stop ≡ LAST_POSITION }
    {
        Pull::resume(source, 0)
    }

    /// At position `at`, with no mark.
    pub fn resume(source: &'s mut S, at: u64) -> Pull<'s, S>
        requires { at ≤ LAST_POSITION }
        ensures lent { result.source.ghost_name ≡ source.entry.ghost_name }
        ensures source { result.source.now ≡ source.old }
        ensures at { result.at ≡ at }
        ensures stop { result.stop ≡ LAST_POSITION }
    {
        Pull {
            source,
            at,
            stop: LAST_POSITION,
        }
    }

    /// The position: how many bytes were taken.
    pub fn at(&self) -> u64
        ensures { result ≡ self.now.at }
    {
        self.at
    }

    /// The byte at this position is the first of a message of at most `limit` bytes. It takes no byte. An earlier
    /// mark is forgotten.
    pub fn mark(&mut self, limit: u64)
        ensures lent { self.new.source.ghost_name ≡ self.old.source.ghost_name }
        ensures source { self.new.source.now ≡ self.old.source.now }
        ensures at { self.new.at ≡ self.old.at }
        ensures stop { self.new.stop ≡ min (self.old.at + limit) LAST_POSITION }
    {
        self.stop = self.at.saturating_add(limit).min(LAST_POSITION);
    }

    /// The next byte. The source is asked for this byte and for no more.
    ///
    /// `End`, `Limit` and `ReadFault` come as [`PullEnd`] says; it takes no memory.
    #[inline]
    pub fn byte(&mut self) -> Result<u8, PullEnd>
        ensures gives { GivesByte (pull_state S.half self.old) (pull_state S.half self.new) result }
        ensures kept { result ≢ Err PullEnd.ReadFault
            → (S.half self.new.source.now).faults ≡ (S.half self.old.source.now).faults }
        ensures lent { self.new.source.ghost_name ≡ self.old.source.ghost_name }
    {
        let mut one = [0u8; 1];
        match self.source.read(&mut one) {
            Ok(n) => {
                if n == 0 {
                    Err(PullEnd::End { at: self.at })
                } else if self.at < self.stop {
                    let byte = one[0];
                    self.at += 1;
                    Ok(byte)
                } else {
                    Err(PullEnd::Limit { at: self.at })
                }
            }
            Err(_) => Err(PullEnd::ReadFault),
        }
    }

    /// The next `n` bytes. The source is asked for these bytes and for no more, but for the one that shows a limit.
    ///
    /// It answers as so many calls of [`Pull::byte`] would, or `OutOfMemory`. After an answer other than `Ok` a front
    /// of the bytes was taken and is lost, and the position is behind it. At every moment there is room for at most
    /// 4,096 bytes ahead of those that were read.
    pub fn take(&mut self, alloc: Global, n: u32) -> Result<ByteList, PullEnd>
        ensures gives { GivesBytes
            (pull_state S.half self.old) (pull_state S.half self.new) n result }
        ensures kept { result ≢ Err PullEnd.ReadFault
            → (S.half self.new.source.now).faults ≡ (S.half self.old.source.now).faults }
        ensures lent { self.new.source.ghost_name ≡ self.old.source.ghost_name }
    {
        let wanted = n as usize;
        let mut bytes = Vec::new(alloc);
        while bytes.len() < wanted {
            let is_close = bytes.capacity() <= bytes.len() + AHEAD;
            prove!(is_close);
            let more = wanted - bytes.len();
            match self.append_some(&mut bytes, more) {
                Ok(()) => {}
                Err(end) => return Err(end),
            }
        }
        Ok(ByteList::from_vec(bytes))
    }

    /// Takes the next bytes into the whole of `buf`. The source is asked for these bytes and for no more, but for the one that shows a limit.
    ///
    /// It answers as so many calls of [`Pull::byte`] would, and takes no memory. After an answer other than `Ok` a front of the bytes was
    /// taken and is lost, and the position is behind it.
    #[inline(always)]
    pub fn take_into(&mut self, buf: &mut [u8]) -> Result<(), PullEnd>
        ensures gives { GivesBytes (pull_state S.half self.old) (pull_state S.half self.new)
            (length buf.old) (with_bytes buf.new result) }
        ensures kept { result ≢ Err PullEnd.ReadFault
            → (S.half self.new.source.now).faults ≡ (S.half self.old.source.now).faults }
        ensures lent { self.new.source.ghost_name ≡ self.old.source.ghost_name }
    {
        let wanted = buf.len();
        if wanted == 0 || wanted as u64 > self.stop - self.at {
            return self.take_rest(buf, 0);
        }
        match self.fill(buf) {
            Ok(count) if count == wanted => Ok(()),
            Ok(count) => self.take_rest(buf, count),
            Err(end) => Err(end),
        }
    }

    /// Takes the next bytes into `buf` from the place `from` on.
    #[cold]
    #[inline(never)]
    fn take_rest(&mut self, buf: &mut [u8], from: usize) -> Result<(), PullEnd>
        requires within { from ≤ length buf.old }
        ensures gives { TakesRest
            (pull_state S.half self.old) (pull_state S.half self.new) from buf.old buf.new result }
        ensures kept { result ≢ Err PullEnd.ReadFault
            → (S.half self.new.source.now).faults ≡ (S.half self.old.source.now).faults }
        ensures lent { self.new.source.ghost_name ≡ self.old.source.ghost_name }
    {
        let mut done = from;
        while done < buf.len() {
            match self.fill_some(&mut buf[done..]) {
                Ok(count) => done += count,
                Err(end) => return Err(end),
            }
        }
        Ok(())
    }

    /// Takes into the front of `buf` what one read gives before the stop, and answers how many bytes that is.
    #[inline(always)]
    fn fill_some(&mut self, buf: &mut [u8]) -> Result<usize, PullEnd>
        requires { 0 < length buf.old }
        ensures gives { GivesFront
            (pull_state S.half self.old) (pull_state S.half self.new) buf.new result }
        ensures kept { result ≢ Err PullEnd.ReadFault
            → (S.half self.new.source.now).faults ≡ (S.half self.old.source.now).faults }
        ensures lent { self.new.source.ghost_name ≡ self.old.source.ghost_name }
    {
        if self.at == self.stop {
            return match self.byte() {
                Ok(_) => unreachable!(),
                Err(end) => Err(end),
            };
        }
        let most = buf.len().min((self.stop - self.at) as usize);
        self.fill(&mut buf[..most])
    }

    /// Appends what one read gives of the next `wanted` bytes. It makes room for at most 4,096 bytes behind those that
    /// stand there.
    fn append_some(&mut self, bytes: &mut Vec<u8>, wanted: usize) -> Result<(), PullEnd>
        requires { 0 < wanted }
        ensures gives { AppendsSome (pull_state S.half self.old) (pull_state S.half self.new)
            wanted bytes.old.items bytes.new.items result }
        ensures kept { result ≢ Err PullEnd.ReadFault
            → (S.half self.new.source.now).faults ≡ (S.half self.old.source.now).faults }
        ensures room { vec_capacity bytes.new ≤
            max (vec_capacity bytes.old) (vec_len bytes.old + AHEAD) }
        ensures lent { self.new.source.ghost_name ≡ self.old.source.ghost_name }
    {
        if self.at == self.stop {
            return match self.byte() {
                Ok(_) => unreachable!(),
                Err(end) => Err(end),
            };
        }
        let most = wanted.min(AHEAD).min((self.stop - self.at) as usize);
        let start = bytes.len();
        if append_zeros(bytes, most).is_err() {
            return Err(PullEnd::OutOfMemory);
        }
        match self.fill(&mut bytes[start..]) {
            Ok(count) => {
                bytes.truncate(start + count);
                Ok(())
            }
            Err(end) => {
                bytes.truncate(start);
                Err(end)
            }
        }
    }

    /// Takes into the front of `buf` what one read gives, and answers how many bytes that is.
    #[inline(always)]
    fn fill(&mut self, buf: &mut [u8]) -> Result<usize, PullEnd>
        requires some { 0 < length buf.old }
        requires room { self.old.at + length buf.old ≤ self.old.stop }
        ensures gives { GivesFront
            (pull_state S.half self.old) (pull_state S.half self.new) buf.new result }
        ensures kept { result ≢ Err PullEnd.ReadFault
            → (S.half self.new.source.now).faults ≡ (S.half self.old.source.now).faults }
        ensures lent { self.new.source.ghost_name ≡ self.old.source.ghost_name }
    {
        match self.source.read(buf) {
            Ok(n) => {
                if n == 0 {
                    return Err(PullEnd::End { at: self.at });
                }
                self.at += n as u64;
                Ok(n)
            }
            Err(_) => Err(PullEnd::ReadFault),
        }
    }
}

/// Appends so many zeros, and makes room for no more than these.
fn append_zeros(bytes: &mut Vec<u8>, more: usize) -> Result<(), AllocError>
    ensures ok { OnOk result (bytes.new.items ≡ bytes.old.items ++ replicate more 0) }
    ensures err { OnErr result (bytes.new.items ≡ bytes.old.items) }
    ensures room { vec_capacity bytes.new ≤
        max (vec_capacity bytes.old) (vec_len bytes.old + more) }
{
    bytes.reserve_exact(more)?;
    for _i in 0..more {
        bytes.push_reserved(0);
    }
    Ok(())
}
