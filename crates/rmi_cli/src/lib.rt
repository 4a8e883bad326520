// SPDX-License-Identifier: Apache-2.0 OR MIT
//! All that the program `rmi` does, over any input and output. `run` takes the words and a `Host`:
//! the input, output and errors' sink, a clock, a listener, a dialer, and random words.
//! `docs/GUIDE.md` explains the commands.
//!
//! # What is proved of `run`
//!
//! The status and the line on the errors' sink are those of one end. The sink took the line, or a
//! prefix of it and failed. If there is no memory for the line, the status is 5. Words that are no
//! command line read and write nothing else (`usage`, `no_command`, `untouched`).
//!
//! Who does what: only `answer`, `call` and `host` ask the clock (`clock`), only `serve` and `host`
//! the listener (`network`), only a client's commands the dialer (`dialing`); these read nothing
//! (`unread`). Nothing is shut (`open`, `errors_open`).
//!
//! Causes: status 3 comes only if the input (`read_fault`), the listener (`network_fault`,
//! `host_fault`), the dialer or a link's source (`link_fault`) failed. Status 4 comes only if the
//! output (`write_fault`) or a link's sink (`sink_fault`) failed. If neither did, `serve` and
//! `host` end with 0 or 5 (`settled`, `host_settled`).
//!
//! Below, a written text may also be cut, if the output failed, or absent, for lack of memory.
//!
//! - `answer`: the bytes taken and written are a dialogue with this end, over the sample's space,
//!   and the only one of this input and of what clock, space and worker answered. A told input that
//!   begins with a dialogue without turns has that one (`exact`). Each Call is invoked at most
//!   once. Whole messages are answered to their end.
//! - `serve`: its port of 127.0.0.1 was listened on, and no other. What it served is `ServesLinks`
//!   of `conn_server`. The reports are left in `served`, and the outline of the one history was
//!   written (`serves`).
//! - `host`: the same of its port of its address, over a space that keeps no events (`hosts`,
//!   `HostsLinks`). With `silent`, what is exported at the end was written; with `journal`, the
//!   first line and a line for each event. The errors' sink took a line when it listened and one
//!   for each ended link. If memory lacked for one of these lines, those before it were written,
//!   and the status is 5. The milliseconds of a link run from the moment of one of the server's own
//!   turns to the moment that the link's clock gave next (`IsTimed`). If memory lacked for a Tick
//!   that was due (`tick_missed`), the status is 5 at the end, unless the output or the listener
//!   failed. The host's own input is not read (`host_unread`), and its listener is closed last
//!   (`host_closes`). Events are recorded exactly with `journal`; with it and status 0 the whole
//!   journal was written. If its numbers are within their ranges and its units within the limit of a
//!   kept history, `replay` prints what stands, and then the withdrawals (`host_journal`:
//!   `hosts` with the law `laws::journals_replay`).
//! - `list`, `lookup`, `bind`, `unbind`: one talk by the command's script, the only one if the link
//!   tells its bytes. The answer was printed if the talk ended well, and nothing otherwise. The
//!   halves are left in `talked`, shut (`asks`).
//! - `call`: the same on two links. The seed decides who calls, the words what is called (`calls`).
//! - `replay`: the whole input was a journal and its outline was written; or `bad line N` spells no
//!   event; or the next event passes a limit (`refused`); or the input is too large (`replay`,
//!   `replay_exact`). Of a bad line and a refused event the earlier counts.
//! - `show`: the whole input was a stream and its graph's text was written; or the first fault is
//!   named, and nothing behind it was read (`show`, `show_exact`).
//! - `drill`, `journal`: the summary or journal of the drill's history was written (`drill`,
//!   `drill_exact`).
//! - `world`: the whole input was a script, and its world's end was written (`world`,
//!   `world_exact`). With status 0 each object that is promised to a client is exported in the
//!   printed world (`promise`: `world` with a law of all worlds).
//! - `suid`, `suidtext`, `describe`: the whole input was an outline, and its number, text or
//!   description was written; or the first bad line is named (`class`, `class_exact`).
//! - `help`: the table's text was written (`help`).
//!
//! # What is not
//!
//! - That the bytes are those of real files and sockets. The adapters of `wire_io` are tested.
//! - At `answer`, that the worker was given nothing besides. At `serve`, where a real listener
//!   listens, and how often a failing one was asked. At `host`, that links give no more bytes after
//!   the stop.
//! - At `serve` and `host`, which calls a link's hand was given: a hand shows how many, and not the
//!   calls or the counters, which all hands share. The test `connections_count_together` looks at
//!   the answers.
//! - At `host`, that a link's time begins at the turn before that link, and not at another of the
//!   server's own turns or, as for lack of memory, at its end: `ReportTaker` is told which link
//!   begins by no clause. The test `a_link_takes_the_time_of_its_own_clock` shows it.
//! - That memory lacked where the status is 5, and that a `host` lets any link be live at once.
//! - At `host`, when a link is accepted, and when a line is written, before the stop or at it. That
//!   the numbers of its events are within their types' ranges (`CanBeRead`): `interop/run` replays
//!   journals of Java's clients.
//!
//! Limits are constants that clauses cite. That they are what the documents say is proved (`prove!`
//! in `src/limits.rt`).
#![tactic(auto)]

mod answer_input;
mod call_arguments;
mod call_output;
mod call_request;
mod call_text;
mod class_input;
mod class_output;
mod client_output;
mod drill_output;
mod end;
mod event_lines;
mod help_output;
mod host;
mod host_desk;
mod host_input;
mod host_parts;
mod journal_input;
pub mod laws;
mod limits;
mod link_line;
mod loopback;
mod obey;
mod opening;
mod outlines;
mod program;
mod report;
mod serve_input;
mod sink_state;
mod stream_input;
mod talk_end;
mod talk_text;
mod world_input;

pub use answer_input::setup_of;
pub use class_input::OUTLINE_BYTES;
pub use end::{RunEnd, status_of};
pub use host::Host;
pub use journal_input::JOURNAL_BYTES;
pub use link_line::{EndedLink, listening_line};
pub use outlines::{ReplayFault, replay};
pub use program::run;
pub use rmi_words::{
    Address, Argument, ArgumentList, CallWords, ClassOutput, ClientCommand, Command, DrillText,
    HelpTopic, HostWords, LeaseOptions, Record, ServeWords, ServerAddress, Words, WordsFault,
};
pub use stream_input::STREAM_BYTES;
