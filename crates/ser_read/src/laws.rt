//! Laws of reading, for those who read contracts: these functions do nothing.
ghost use Rattle.ser_read.specs.WantLaws.{WantsAreSpelled, SpelledIsServed, SpelledIsOne, SpelledAreStreams, ServedOneAfterTheOther, HeadEndsInBlock, HeadGoesOn, SpelledIsHeaded, MissingBlocksStand, LeftBlocksStand};
ghost use Rattle.ser_read.specs.Whole.{FaultsStandInBytes};

/// Reading want by want, from left to right, answers exactly what a front of the bytes spells.
pub fn wants_are_spelled()
    ensures { WantsAreSpelled }
{}

/// Bytes that spell wants are read, whatever comes behind them.
pub fn spelled_is_served()
    ensures { SpelledIsServed }
{}

/// Nothing that the same wants ask for is a proper front of another.
pub fn spelled_is_one()
    ensures { SpelledIsOne }
{}

/// Bytes that spell wants are a stream of the answers, joined.
pub fn spelled_are_streams()
    ensures { SpelledAreStreams }
{}

/// Lists of wants that are served one after the other are served as one list.
pub fn served_one_after_the_other()
    ensures { ServedOneAfterTheOther }
{}

/// The front that is taken for bytes before a stream ends in a block.
pub fn head_ends_in_block()
    ensures { HeadEndsInBlock }
{}

/// Reading on behind such bytes makes the whole a spelling of all the wants.
pub fn head_goes_on()
    ensures { HeadGoesOn }
{}

/// A spelling that begins with a want of bytes has such a head.
pub fn spelled_is_headed()
    ensures { SpelledIsHeaded }
{}

/// A fault that reading answers of bytes that end at a position, as `read_to_end` does, is shown by the bytes at the fault's position.
pub fn faults_stand_in_bytes()
    ensures { FaultsStandInBytes }
{}

/// A block is missing, as wanted bytes answer, where fewer are there, up to the end of a block, and a code with which none begins stands at the
/// fault's position.
pub fn missing_blocks_stand()
    ensures { MissingBlocksStand }
{}

/// A block is left, as a wanted reference answers, where bytes of the present block are left and the next one stands at the fault's position; or
/// none is, and behind empty blocks, if any, stands the header of a block that has bytes, and the fault's position is the one behind it.
pub fn left_blocks_stand()
    ensures { LeftBlocksStand }
{}
