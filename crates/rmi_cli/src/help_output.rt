//! `help` over the program's output.
ghost use Rattle.std.specs.Prelude.{◌≡◌, ◌≢◌};
ghost use Rattle.rmi_words.specs.HelpText.{help_text};
ghost use Rattle.rmi_cli.specs.Line.{status_of_run};
ghost use Rattle.rmi_cli.specs.ServedLinks.{PrintedOn};
ghost use Rattle.rmi_cli.specs.Told.{WriteFailed};

use crate::end::RunEnd;
use rmi_words::{HelpTopic, help_text};
use std::alloc::Global;
use wire_io::put::put_all;
use wire_io::sink::Sink;

/// Writes the text that explains these commands.
pub fn write_help<K: Sink>(alloc: Global, sink: &mut K, topic: HelpTopic) -> RunEnd
    ensures printed { PrintedOn K.half sink.old sink.new (help_text topic) result }
    ensures known { status_of_run result ≢ 1 }
    ensures unread { status_of_run result ≢ 3 }
    ensures write_fault { status_of_run result ≡ 4 → WriteFailed K.half sink.old sink.new }
    ensures open { (K.half sink.new).shut ≡ (K.half sink.old).shut }
{
    let text = match help_text(alloc, topic) {
        Ok(text) => text,
        Err(_) => return RunEnd::OutOfMemory,
    };
    match put_all(sink, text.as_bytes()) {
        Ok(()) => RunEnd::Done,
        Err(_) => RunEnd::WriteFault,
    }
}
