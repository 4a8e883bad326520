//! The end of a talk with a server, as a line and as a status.
ghost use Rattle.std.specs.Prelude.{◌≡◌, IfOk, string_bytes};
ghost use Rattle.rmi_cli.specs.TalkEnds.{line_of_session, line_of_table, line_of_talk, status_of_session, status_of_table, status_of_talk};

use client_talk::CommandEnd;
use dgc_client::ClientFault;
use rmi_client::ClientEnd;
use sequence::Units;
use ser_read::StreamFault;
use std::alloc::{AllocError, Global};

/// The status of a process whose talk with a server ends so.
pub(crate) fn status_of_talk(end: &CommandEnd) -> u8
    ensures { result ≡ status_of_talk end.now }
{
    match end {
        CommandEnd::DialFault => 3,
        CommandEnd::Session(end) => status_of_session(end),
        CommandEnd::Table(fault) => status_of_table(*fault),
    }
}

/// The same where a session ends so.
fn status_of_session(end: &ClientEnd) -> u8
    ensures { result ≡ status_of_session end.now }
{
    match end {
        ClientEnd::Nack => 2,
        ClientEnd::BadReply { kind: _, at: _ } => 2,
        ClientEnd::Truncated { at: _ } => 2,
        ClientEnd::ReadFault => 3,
        ClientEnd::WriteFault { sent: _ } => 4,
        ClientEnd::OutOfMemory => 5,
        ClientEnd::TooLarge { what: _, at: _ } => 6,
        ClientEnd::Over => 6,
        ClientEnd::RemoteFault(_) => 7,
    }
}

/// The same where the table of references refuses.
fn status_of_table(fault: ClientFault) -> u8
    ensures { result ≡ status_of_table fault }
{
    match fault {
        ClientFault::NumbersSpent => 6,
        ClientFault::FullRefs => 6,
        ClientFault::OutOfMemory => 5,
    }
}

/// Returns the line of a talk's end, without its line feed.
pub(crate) fn talk_line(alloc: Global, end: &CommandEnd) -> Result<String, AllocError>
    ensures { IfOk result (λ line. string_bytes line ≡ line_of_talk end.now) }
{
    match end {
        CommandEnd::DialFault => "dial fault".to_string(alloc),
        CommandEnd::Session(end) => session_line(alloc, end),
        CommandEnd::Table(fault) => table_line(alloc, *fault),
    }
}

/// Returns the line of a session's end.
fn session_line(alloc: Global, end: &ClientEnd) -> Result<String, AllocError>
    ensures { IfOk result (λ line. string_bytes line ≡ line_of_session end.now) }
{
    match end {
        ClientEnd::Nack => "nack".to_string(alloc),
        ClientEnd::BadReply { kind: _, at } => format!(in alloc; "bad reply at {at}"),
        ClientEnd::TooLarge { what, at } => {
            let fault = StreamFault::TooLarge {
                what: *what,
                at: *at,
            };
            fault.to_string(alloc)
        }
        ClientEnd::Truncated { at } => format!(in alloc; "truncated at {at}"),
        ClientEnd::RemoteFault(text) => remote_line(alloc, text),
        ClientEnd::ReadFault => "read fault".to_string(alloc),
        ClientEnd::WriteFault { sent: _ } => "write fault".to_string(alloc),
        ClientEnd::Over => "refused".to_string(alloc),
        ClientEnd::OutOfMemory => "out of memory".to_string(alloc),
    }
}

/// Returns the line of an exception that the server answered.
fn remote_line(alloc: Global, text: &Units) -> Result<String, AllocError>
    ensures { IfOk result (λ line. string_bytes line
        ≡ line_of_session (ClientEnd.RemoteFault text.now)) }
{
    let text = String::from_utf16_lossy(alloc, text.as_slice())?;
    format!(in alloc; "remote fault {text}")
}

/// Returns the line of a refusal by the table of references.
fn table_line(alloc: Global, fault: ClientFault) -> Result<String, AllocError>
    ensures { IfOk result (λ line. string_bytes line ≡ line_of_table fault) }
{
    match fault {
        ClientFault::NumbersSpent => "refused".to_string(alloc),
        ClientFault::FullRefs => "refused".to_string(alloc),
        ClientFault::OutOfMemory => "out of memory".to_string(alloc),
    }
}
