//! The end of a run, as a line on the errors' sink and the status of the process.
ghost use Rattle.std.specs.Prelude.{◌≡◌, ◌⊎◌, ◌++◌, ◌∷◌, [], ℕ, List, IfOk, string_bytes};
ghost use Rattle.wire_io.specs.Wire.{WriteHalf};
ghost use Rattle.rmi_cli.specs.Hosted.{TellsHost};
ghost use Rattle.rmi_cli.specs.Line.{line_of, status_of_run};
ghost use Rattle.rmi_cli.specs.Sinks.{Goes};
ghost use Rattle.rmi_cli.specs.Told.{TellsEnd, TellsExactly, end_of_words, told_by, told_of_halves};

use crate::end::RunEnd;
use crate::host_input::HostEnd;
use crate::sink_state::SinkState;
use rmi_words::WordsFault;
use std::alloc::{AllocError, Global};
use wire_io::put::put_all;
use wire_io::sink::Sink;

/// Writes the line that tells why the words gave no command, and answers the status. It takes no memory.
#[tactic(auto, using(crate::proofs::Telling::took))]
pub(crate) fn report_words<E: Sink>(errors: &mut E, fault: WordsFault) -> u8
    ensures told { TellsExactly (told_by E.half errors.old errors.new result) (end_of_words fault) }
    ensures open { (E.half errors.new).shut ≡ (E.half errors.old).shut }
{
    match fault {
        WordsFault::Usage => {
            let _ = put_all(errors, b"usage\n");
            RunEnd::Usage.status()
        }
        WordsFault::OutOfMemory => report_memory(errors),
    }
}

/// Writes the line that tells an end, where the sink takes it, and answers the status. Where there is no memory for the line, want of
/// memory is told.
#[tactic(auto, using(crate::proofs::Telling::took))]
pub(crate) fn report_end<E: Sink>(alloc: Global, errors: &mut E, end: RunEnd) -> u8
    ensures told { TellsEnd (told_by E.half errors.old errors.new result) end }
    ensures status { (result ≡ status_of_run end) ⊎ (result ≡ 5) }
    ensures open { (E.half errors.new).shut ≡ (E.half errors.old).shut }
{
    if end.is_silent() {
        return end.status();
    }
    match line_with_end(alloc, &end) {
        Ok(line) => {
            let _ = put_all(errors, line.as_bytes());
            end.status()
        }
        Err(_) => report_memory(errors),
    }
}

/// Writes the line that tells the end of `host` behind the lines before it, and answers the status. Where the errors' sink has failed, it is not written.
/// Where there was no memory for one of the lines, it and the status are those of want of memory.
pub(crate) fn report_host<E: Sink>(alloc: Global, errors: &mut E, ended: HostEnd) -> u8
    ensures told { (first : WriteHalf) (lines : List (List ℕ))
        → Goes first (E.half errors.old) lines SinkState.Whole ended.told
        → TellsHost (told_of_halves first (E.half errors.new) result) lines ended.end }
    ensures status { (result ≡ status_of_run ended.end) ⊎ (result ≡ 5) }
    ensures open { (E.half errors.new).shut ≡ (E.half errors.old).shut }
{
    match ended.told {
        SinkState::Whole => report_end(alloc, errors, ended.end),
        SinkState::Failed => ended.end.status(),
        SinkState::Lost => report_memory(errors),
    }
}

/// Writes the line that tells want of memory, and answers the status. It takes no memory.
#[tactic(auto, using(crate::proofs::Telling::took))]
fn report_memory<E: Sink>(errors: &mut E) -> u8
    ensures told { TellsExactly (told_by E.half errors.old errors.new result) RunEnd.OutOfMemory }
    ensures status { result ≡ 5 }
    ensures open { (E.half errors.new).shut ≡ (E.half errors.old).shut }
{
    let _ = put_all(errors, b"out of memory\n");
    RunEnd::OutOfMemory.status()
}

/// Returns the line that tells an end, with its line feed.
fn line_with_end(alloc: Global, end: &RunEnd) -> Result<String, AllocError>
    ensures { IfOk result (λ line. string_bytes line ≡ line_of end.now ++ 10 ∷ []) }
{
    let mut line = end.line(alloc)?;
    line.push_str("\n")?;
    Ok(line)
}
