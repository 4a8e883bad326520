//! Block data in the outermost place.
ghost use Rattle.std.specs.Prelude.{◌≡◌, ℕ, [], length};
ghost use Rattle.ser_read.specs.Here.{ReadsTaken, StopsTaken};
ghost use Rattle.ser_read.specs.Heads.{one_head, any_head, is_empty, head_at};
ghost use Rattle.ser_read.specs.Wants.{WantStopsTaken, WantReadsTaken, fault_at, no_block, opened_at, run_at};

use crate::fault::{StreamFault, StreamKind};
use crate::pieces::bad;
use crate::pulled::{add_piece, byte, count, fill, take};
use sequence::ByteList;
use std::alloc::Global;
use wire_io::pull::Pull;
use wire_io::source::Source;

/// The construct that a code begins in the outermost place.
#[derive(Clone, Copy, Debug, PartialEq, Eq)]
pub(crate) enum Head {
    /// A block of so many bytes.
    Block(u32),
    /// Another code, and its position.
    Code(u8, u64),
}

/// Returns the construct that a code at a position begins. It takes a block's length.
#[tactic(auto, unfolding(crate::specs::Heads::one_head))]
fn one_head<S: Source>(pull: &mut Pull<'_, S>, code: u8, at: u64) -> Result<Head, StreamFault>
    ensures lent { pull.new.source.ghost_name ≡ pull.old.source.ghost_name }
    ensures reads { ReadsTaken S.half pull.old pull.new result (λ end. one_head end code at)
        (λ x rest. (x, rest)) }
    ensures stops { StopsTaken S.half pull.old pull.new result (λ end. one_head end code at) }
{
    if code == 0x77 {
        let n = byte(pull)?;
        Ok(Head::Block(u32::from(n)))
    } else if code == 0x7A {
        let n = count(pull)?;
        Ok(Head::Block(n))
    } else {
        Ok(Head::Code(code, at))
    }
}

/// Takes the next code, and returns the construct that it begins.
#[tactic(auto, unfolding(crate::specs::Heads::any_head))]
fn any_head<S: Source>(pull: &mut Pull<'_, S>) -> Result<Head, StreamFault>
    ensures lent { pull.new.source.ghost_name ≡ pull.old.source.ghost_name }
    ensures reads { ReadsTaken S.half pull.old pull.new result (λ end. any_head end)
        (λ x rest. (x, rest)) }
    ensures stops { StopsTaken S.half pull.old pull.new result (λ end. any_head end) }
{
    let at = pull.at;
    let code = byte(pull)?;
    one_head(pull, code, at)
}

/// Returns whether it is the head of an empty block.
fn is_empty(head: Head) -> bool
    ensures { result ≡ is_empty head }
{
    match head {
        Head::Block(n) => n == 0,
        Head::Code(_, _) => false,
    }
}

/// Returns the next head, and passes over empty blocks.
pub(crate) fn next_head<S: Source>(pull: &mut Pull<'_, S>) -> Result<Head, StreamFault>
    ensures lent { pull.new.source.ghost_name ≡ pull.old.source.ghost_name }
    ensures reads { ReadsTaken S.half pull.old pull.new result (λ end. head_at end)
        (λ x rest. (x, rest)) }
    ensures stops { StopsTaken S.half pull.old pull.new result (λ end. head_at end) }
{
    loop {
        let head = any_head(pull)?;
        if !is_empty(head) {
            return Ok(head);
        }
    }
}

/// Why a code does not stand where block data is wanted.
#[tactic(auto, unfolding(crate::specs::Wants::no_block))]
fn no_block(code: u8) -> StreamKind
    ensures { (at : ℕ) → fault_at result at ≡ no_block code at }
{
    if code == 0x79 {
        StreamKind::Reset
    } else if code == 0x7B {
        StreamKind::InnerException
    } else if 0x70 <= code && code <= 0x7E {
        StreamKind::MissingBlock
    } else {
        StreamKind::BadCode
    }
}

/// Returns the number of bytes of a block that come next, at least one, where so many of the present block are left.
#[tactic(auto, unfolding(crate::specs::Wants::opened_at))]
fn present_block<S: Source>(pull: &mut Pull<'_, S>, block: u32) -> Result<u32, StreamFault>
    ensures lent { pull.new.source.ghost_name ≡ pull.old.source.ghost_name }
    ensures reads { WantReadsTaken S.half pull.old pull.new result (λ end. opened_at end block)
        (λ x rest. (x, rest)) }
    ensures stops { WantStopsTaken S.half pull.old pull.new result (λ end. opened_at end block) }
{
    if block > 0 {
        return Ok(block);
    }
    match next_head(pull)? {
        Head::Block(n) => Ok(n),
        Head::Code(code, at) => Err(bad(no_block(code), at)),
    }
}

/// Takes the next `n` bytes of block data, across blocks, into an empty list, where so many of the present block are left.
fn run_onto<S: Source>(
    alloc: Global,
    pull: &mut Pull<'_, S>,
    block: &mut u32,
    n: u32,
    bytes: &mut ByteList,
) -> Result<(), StreamFault>
    requires empty { bytes.old ≡ [] }
    ensures lent { pull.new.source.ghost_name ≡ pull.old.source.ghost_name }
    ensures reads { WantReadsTaken S.half pull.old pull.new result (λ end. run_at end n block.old)
        (λ x rest. (bytes.new, block.new, rest)) }
    ensures stops { WantStopsTaken S.half pull.old pull.new result (λ end. run_at end n block.old) }
{
    let mut left = n;
    while left > 0 {
        let present = present_block(pull, *block)?;
        let more = left.min(present);
        let piece = take(alloc, pull, u64::from(more))?;
        add_piece(bytes, piece)?;
        *block = present - more;
        left -= more;
    }
    Ok(())
}

/// The next `n` bytes of block data, across blocks, where so many of the present block are left.
pub(crate) fn run<S: Source>(
    alloc: Global,
    pull: &mut Pull<'_, S>,
    block: &mut u32,
    n: u32,
) -> Result<ByteList, StreamFault>
    ensures lent { pull.new.source.ghost_name ≡ pull.old.source.ghost_name }
    ensures reads { WantReadsTaken S.half pull.old pull.new result (λ end. run_at end n block.old)
        (λ x rest. (x, block.new, rest)) }
    ensures stops { WantStopsTaken S.half pull.old pull.new result (λ end. run_at end n block.old) }
{
    let mut bytes = ByteList::new(alloc);
    run_onto(alloc, pull, block, n, &mut bytes)?;
    Ok(bytes)
}

/// The next bytes of block data, across blocks, into the whole of `buf`, where so many of the present block are left.
pub(crate) fn run_into<S: Source>(
    pull: &mut Pull<'_, S>,
    block: &mut u32,
    buf: &mut [u8],
) -> Result<(), StreamFault>
    ensures lent { pull.new.source.ghost_name ≡ pull.old.source.ghost_name }
    ensures reads { WantReadsTaken S.half pull.old pull.new result
        (λ end. run_at end (length buf.old) block.old) (λ x rest. (buf.new, block.new, rest)) }
    ensures stops { WantStopsTaken S.half pull.old pull.new result
        (λ end. run_at end (length buf.old) block.old) }
{
    let mut done = 0;
    while done < buf.len() {
        let present = present_block(pull, *block)?;
        let more = (buf.len() - done).min(present as usize);
        fill(pull, &mut buf[done..done + more])?;
        *block = present - more as u32;
        done += more;
    }
    Ok(())
}
