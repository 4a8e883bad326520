//! The end of a source whose bytes are read and dropped.
ghost use Rattle.std.specs.Prelude.{◌≡◌, ◌≤◌, ℕ, List, false, true, length, IfOk};
ghost use Rattle.input_end.specs.Ends.{Drops, Steps, Finds, LookedAtSource};
ghost use Rattle.input_end.specs.declared.drained.PieceEnd.TheVariants.{Stopped};
ghost use Rattle.input_end.specs.declared.drained.TheConstants.{MAX_PIECES};
ghost use Rattle.input_end.specs.declared.watch.Readiness.{Readiness as Readinesses};
ghost use Rattle.input_end.specs.declared.watch.Readiness.TheVariants.{WouldAnswer};

use crate::end::InputEnd;
use crate::watch::{Readiness, Watch};
use wire_io::Source;

/// The most bytes that one read takes.
pub const PIECE_BYTES: usize = 4096;

/// The most reads that one look makes. The next look goes on where this one stops.
pub const MAX_PIECES: u32 = 256;

/// Finds the end of a source: it reads the bytes and drops them.
///
/// It reads only where its watch says that the read returns at once.
#[derive(Drop)]
pub struct DrainedSource<W, S> {
    watch: W,
    source: S,
    is_seen: bool,
}

impl<W, S> DrainedSource<W, S> {
    /// Makes the end of this source, over a watch of the same input. No look was made yet. It takes no memory.
    pub fn new(watch: W, source: S) -> DrainedSource<W, S>
        ensures watch { result.watch ≡ watch }
        ensures source { result.source ≡ source }
        ensures seen { result.is_seen ≡ false }
    {
        DrainedSource {
            watch,
            source,
            is_seen: false,
        }
    }

    /// Returns the source, with the bytes that were not read.
    pub fn source(&self) -> &S
        ensures { result.now ≡ self.now.source }
    {
        &self.source
    }
}

/// The outcome of one step of a look.
enum PieceEnd {
    /// At least one byte was dropped.
    Dropped,
    /// The input is at its end.
    Ended,
    /// A read would wait, or it failed.
    Stopped,
}

/// Reads a piece and drops it.
fn drop_piece<S: Source>(source: &mut S) -> PieceEnd
    ensures { Steps WouldAnswer (S.half source.old) (S.half source.new) result }
{
    let mut piece = [0u8; PIECE_BYTES];
    match source.read(&mut piece) {
        Ok(count) => {
            if count == 0 {
                PieceEnd::Ended
            } else {
                PieceEnd::Dropped
            }
        }
        Err(_failed) => PieceEnd::Stopped,
    }
}

/// Reads a piece and drops it, where the watch says that the read returns at once.
fn drop_ready<W: Watch, S: Source>(watch: &mut W, source: &mut S) -> PieceEnd
    ensures steps { Steps (W.answered watch.new) (S.half source.old) (S.half source.new) result }
    ensures watches { W.watches watch.new ≡ W.watches watch.old }
    ensures unwatched { W.watches watch.old ≡ false
        → (result ≡ Stopped) × (source.new ≡ source.old) }
{
    match watch.readiness() {
        Readiness::WouldWait => PieceEnd::Stopped,
        Readiness::WouldAnswer => drop_piece(source),
        Readiness::HungUp => PieceEnd::Ended,
    }
}

/// Reads and drops bytes as long as that needs no wait, in [`MAX_PIECES`] reads at most. It returns true at the end of the input.
#[tactic(auto, using(crate::proofs::Draining::ends, crate::proofs::Draining::stops, crate::proofs::Draining::fills))]
fn drain<W: Watch, S: Source>(watch: &mut W, source: &mut S) -> bool
    ensures finds { (bytes : List ℕ) × Drops (S.half source.old) (S.half source.new) bytes
        × Finds MAX_PIECES (W.answered watch.new) (S.half source.old) (S.half source.new) bytes
        result }
    ensures watches { W.watches watch.new ≡ W.watches watch.old }
    ensures unwatched { W.watches watch.old ≡ false
        → (result ≡ false) × (source.new ≡ source.old) }
{
    for _ in 0..MAX_PIECES {
        match drop_ready(watch, source) {
            PieceEnd::Dropped => {}
            PieceEnd::Ended => return true,
            PieceEnd::Stopped => return false,
        }
    }
    false
}

impl<W: Watch, S: Source> InputEnd for DrainedSource<W, S> {
    ghost use Rattle.input_end.specs.Ends.{LookedAtSource};

    ghost seen = { λ d. d.is_seen };

    ghost looked = { LookedAtSource W.answered W.watches S.half };

    /// Drops bytes from the front of the source, in [`MAX_PIECES`] reads at most. The look sees the end where a read finds nothing left, or
    /// where the watch says that the other end is gone. From then on no look reads the source.
    ///
    /// Where the watch cannot watch the input, no look sees the end or reads the source.
    ///
    /// The watch is asked before each read. No clause says that of an input that can be watched. It is tested, in
    /// `test_input_end/src/drains.rt`.
    fn look(&mut self) -> bool
        ensures looked { LookedAtSource W.answered W.watches S.half self.old self.new result }
        ensures seen { result ≡ self.new.is_seen }
        ensures stays { self.old.is_seen ≡ true → result ≡ true }
    {
        if self.is_seen {
            return true;
        }
        self.is_seen = drain(&mut self.watch, &mut self.source);
        self.is_seen
    }

    fn was_seen(&self) -> bool
        ensures seen { result ≡ self.now.is_seen }
    {
        self.is_seen
    }
}
