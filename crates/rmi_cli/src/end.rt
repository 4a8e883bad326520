//! The end of a run of the program.
ghost use Rattle.std.specs.Prelude.{◌≡◌};
ghost use Rattle.rmi_cli.specs.Line.{status_of_fault};
ghost use Rattle.rmi_cli.specs.Statuses.{status_of};

use crate::talk_end::{status_of_talk, talk_line};
use call_dispatch::end::ConnEnd;
use client_talk::CommandEnd;
use ser_read::StreamFault;
use std::alloc::{AllocError, Global};

/// The end of a run of the program.
#[derive(Debug)]
pub enum RunEnd {
    /// The words are no command line.
    Usage,
    /// One connection was served to this end.
    Answered(ConnEnd),
    /// A server was asked, and that went no further.
    Talked(CommandEnd),
    /// All was done. No line tells it.
    Done,
    /// The line of this number, from 1, is none of a journal, of a world's script, or of a class outline.
    BadLine { line: u64 },
    /// A turn of the journal, or a step of the script, was refused at a limit, or the class has too many fields to describe.
    Refused,
    /// The input has more bytes than this limit.
    TooLarge { limit: u64 },
    /// The input could not be read as a stream.
    NotShown(StreamFault),
    /// The port could not be listened on.
    ListenFault,
    /// A link could not be accepted.
    AcceptFault,
    /// Reading the input failed.
    ReadFault,
    /// Writing the output failed.
    WriteFault,
    /// There was no memory.
    OutOfMemory,
}

// Written out, so that whoever owns one has one call at each exit, and not the drop of each variant.
impl Drop for RunEnd {
    fn drop(self) {
        match self {
            RunEnd::Talked(end) => drop(end),
            RunEnd::Usage => {}
            RunEnd::Answered(_) => {}
            RunEnd::Done => {}
            RunEnd::BadLine { line: _ } => {}
            RunEnd::Refused => {}
            RunEnd::TooLarge { limit: _ } => {}
            RunEnd::NotShown(_) => {}
            RunEnd::ListenFault => {}
            RunEnd::AcceptFault => {}
            RunEnd::ReadFault => {}
            RunEnd::WriteFault => {}
            RunEnd::OutOfMemory => {}
        }
    }
}

impl RunEnd {
    ghost use Rattle.std.specs.Prelude.{◌≡◌, IsTrue, ◌↔◌, IfOk, string_bytes};
    ghost use Rattle.rmi_cli.specs.Line.{line_of, status_of_run};
    ghost use Rattle.rmi_cli.specs.declared.end.RunEnd.{RunEnd as RunEnds};

    /// The status of the process.
    pub fn status(&self) -> u8
        ensures { result ≡ status_of_run self.now }
    {
        match self {
            RunEnd::Answered(end) => status_of(end),
            RunEnd::Talked(end) => status_of_talk(end),
            RunEnd::Done => 0,
            RunEnd::Usage => 1,
            RunEnd::BadLine { line: _ } => 2,
            RunEnd::NotShown(fault) => status_of_fault(*fault),
            RunEnd::ListenFault | RunEnd::AcceptFault | RunEnd::ReadFault => 3,
            RunEnd::WriteFault => 4,
            RunEnd::OutOfMemory => 5,
            RunEnd::Refused | RunEnd::TooLarge { limit: _ } => 6,
        }
    }

    /// Returns whether no line tells the end.
    pub fn is_silent(&self) -> bool
        ensures { IsTrue result ↔ (self.now ≡ RunEnds.Done) }
    {
        matches!(self, RunEnd::Done)
    }

    /// Returns the line that tells it, without its line feed.
    pub fn line(&self, alloc: Global) -> Result<String, AllocError>
        ensures { IfOk result (λ line. string_bytes line ≡ line_of self.now) }
    {
        match self {
            RunEnd::Usage => "usage".to_string(alloc),
            RunEnd::Answered(end) => end.to_string(alloc),
            RunEnd::Talked(end) => talk_line(alloc, end),
            RunEnd::Done => "done".to_string(alloc),
            RunEnd::BadLine { line } => format!(in alloc; "bad line {line}"),
            RunEnd::Refused => "refused".to_string(alloc),
            RunEnd::TooLarge { limit } => format!(in alloc; "too large bytes at {limit}"),
            RunEnd::NotShown(fault) => fault.to_string(alloc),
            RunEnd::ListenFault => "listen fault".to_string(alloc),
            RunEnd::AcceptFault => "accept fault".to_string(alloc),
            RunEnd::ReadFault => "read fault".to_string(alloc),
            RunEnd::WriteFault => "write fault".to_string(alloc),
            RunEnd::OutOfMemory => "out of memory".to_string(alloc),
        }
    }
}

/// The status of a process whose one connection ends so.
pub fn status_of(end: &ConnEnd) -> u8
    ensures { result ≡ status_of end.now }
{
    match end {
        ConnEnd::Ended => 0,
        ConnEnd::BadHeader { at: _ } => 2,
        ConnEnd::UnknownProtocol { byte: _ } => 2,
        ConnEnd::BadMessage { byte: _, at: _ } => 2,
        ConnEnd::BadStream { kind: _, at: _ } => 2,
        ConnEnd::Truncated { at: _ } => 2,
        ConnEnd::ReadFault => 3,
        ConnEnd::WriteFault { sent: _ } => 4,
        ConnEnd::OutOfMemory => 5,
        ConnEnd::TooLarge { what: _, at: _ } => 6,
        ConnEnd::SpaceFull => 6,
        ConnEnd::MessageLimit => 6,
        ConnEnd::NoSuchObject { id: _ } => 7,
        ConnEnd::NoSuchMethod {
            operation: _,
            hash: _,
        } => 7,
    }
}

/// The status of the process where a stream could not be read.
fn status_of_fault(fault: StreamFault) -> u8
    ensures { result ≡ status_of_fault fault }
{
    match fault {
        StreamFault::Bad { .. } => 2,
        StreamFault::Truncated { .. } => 2,
        StreamFault::ReadFault => 3,
        StreamFault::OutOfMemory => 5,
        StreamFault::TooLarge { .. } => 6,
    }
}
