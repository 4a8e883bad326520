//! Scripts of lines, and how they are read.
ghost use Rattle.std.specs.Prelude.{◌≤◌};
ghost use Rattle.history.specs.declared.limits.TheConstants.{MAX_DURATION_MS};

use history::SpaceConfig;
use history::limits::MAX_DURATION_MS;
use journal::read_first_line;
use sequence::ByteList;
use std::alloc::AllocError;
use std::process::Abort;

/// The message where a test finds no memory.
pub(crate) const MEMORY: &str = "memory";

/// Stops where this does not hold.
pub(crate) fn must(rt: &impl Abort, holds: bool, what: &str) {
    assert!(rt; holds, "{what}");
}

/// Stops where a text is not the wanted one.
pub(crate) fn must_be(rt: &impl Abort, text: &ByteList, wanted: &str) {
    must(rt, text.as_slice() == wanted.as_bytes(), wanted);
}

/// Appends a line.
pub(crate) fn put_script_line(text: &mut ByteList, line: &str) -> Result<(), AllocError> {
    text.append(line.as_bytes())?;
    text.push(b'\n')
}

/// The configuration that a line spells, where its durations are those of a space.
pub(crate) fn config_of(rt: &impl Abort, line: &str) -> SpaceConfig
    ensures lease { (1 ≤ result.lease_ms) × (result.lease_ms ≤ MAX_DURATION_MS) }
    ensures ack { (1 ≤ result.ack_ms) × (result.ack_ms ≤ MAX_DURATION_MS) }
{
    let config = read_first_line(line.as_bytes()).expect(rt, "a configuration");
    let durations = 1..=MAX_DURATION_MS;
    assert!(rt; durations.contains(&config.lease_ms), "a lease's duration");
    assert!(rt; durations.contains(&config.ack_ms), "a return's duration");
    config
}
