//! `drill` and `journal` over the program's output.
ghost use Rattle.std.specs.Prelude.{◌≡◌, ◌≢◌, ◌≤◌, true, IfOk, IfErr};
ghost use Rattle.space.specs.Built.{space_of};
ghost use Rattle.drill.specs.Rounds.{drill_config, drill_events};
ghost use Rattle.rmi_cli.specs.Drilled.{text_of, drill_text, TakesAll, DrillStops, end_of_refused, DrillEnds};
ghost use Rattle.rmi_cli.specs.Line.{status_of_run};
ghost use Rattle.rmi_words.specs.declared.numbers.TheConstants.{MAX_ROUNDS};
ghost use Rattle.rmi_cli.specs.Told.{WriteFailed};

use crate::end::RunEnd;
use drill::drill;
use history::Refused;
use rmi_words::DrillText;
use sequence::ByteList;
use space::{Space, journal, summary};
use std::alloc::{AllocError, Global};
use wire_io::put::put_all;
use wire_io::sink::Sink;

/// Makes the turns of a drill in a space of its own, and writes this text of the space.
pub fn write_drill<K: Sink>(
    alloc: Global,
    sink: &mut K,
    text: DrillText,
    seed: u64,
    rounds: u64,
) -> RunEnd
    requires { rounds ≤ MAX_ROUNDS }
    ensures ends { DrillEnds seed rounds (drill_text text seed rounds) (K.half sink.old).held
        (K.half sink.new).held result }
    ensures known { status_of_run result ≢ 1 }
    ensures unread { status_of_run result ≢ 3 }
    ensures write_fault { status_of_run result ≡ 4 → WriteFailed K.half sink.old sink.new }
    ensures open { (K.half sink.new).shut ≡ (K.half sink.old).shut }
{
    let space = match drilled_space(alloc, seed, rounds) {
        Ok(space) => space,
        Err(refused) => return end_of_refused(refused),
    };
    let written = match text_of(alloc, &space, text) {
        Ok(written) => written,
        Err(_) => return RunEnd::OutOfMemory,
    };
    match put_all(sink, written.as_slice()) {
        Ok(()) => RunEnd::Done,
        Err(_) => RunEnd::WriteFault,
    }
}

/// The space that takes the events of a drill.
fn drilled_space(alloc: Global, seed: u64, rounds: u64) -> Result<Space, Refused>
    requires { rounds ≤ MAX_ROUNDS }
    ensures space { IfOk result (λ space. space
        ≡ space_of drill_config (drill_events seed rounds)) }
    ensures all { IfOk result (λ _. TakesAll seed rounds) }
    ensures refused { IfErr result (DrillStops seed rounds) }
{
    match drill(alloc, seed, rounds) {
        Ok(space) => {
            let _len = space.len();
            Ok(space)
        }
        Err(refused) => Err(refused),
    }
}

/// Returns the end of a run where an event was refused.
fn end_of_refused(refused: Refused) -> RunEnd
    ensures { result ≡ end_of_refused refused }
{
    match refused {
        Refused::HistoryFull => RunEnd::Refused,
        Refused::Full(_kind) => RunEnd::Refused,
        Refused::OutOfMemory => RunEnd::OutOfMemory,
    }
}

/// This text of a space.
fn text_of(alloc: Global, space: &Space, text: DrillText) -> Result<ByteList, AllocError>
    requires { space.now.configuration.stored ≡ true }
    ensures { IfOk result (λ written. written
        ≡ text_of text space.now.configuration space.now.events) }
{
    match text {
        DrillText::Summary => summary(alloc, space),
        DrillText::Journal => journal(alloc, space),
    }
}
