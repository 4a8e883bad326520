//! The promise of a world. The function does nothing, and its contract is the law.
ghost use Rattle.lease_world.specs.World.{Course, WorldKeepsPromise};

/// Whatever is lost, late or repeated: an object whose dirty call arrived while it was exported, and was answered in time, stays exported as long as
/// the client's lease runs on and the client has not dropped it.
pub fn what_is_promised_is_exported()
    ensures { (course : Course) → WorldKeepsPromise course }
{}
