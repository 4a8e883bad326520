//! The words that tell how a connection ended.
use crate::end::ConnEnd;
use std::fmt;

/// The end in lower-case words, as `bad message ff at 62`: a byte in two hexadecimal digits, a position in decimals.
impl fmt::Display for ConnEnd {
    ghost use Rattle.std.specs.Prelude.{Some};
    ghost use Rattle.call_dispatch.specs.Words.{words_of};

    ghost output = { λ end. Some (words_of end) };

    fn fmt<W: fmt::Write>(&self, f: &mut fmt::Formatter<W>) -> fmt::Result {
        match *self {
            ConnEnd::Ended => write!(f, "ended"),
            ConnEnd::BadHeader { at } => write!(f, "bad header at {at}"),
            ConnEnd::UnknownProtocol { byte } => write!(f, "unknown protocol {byte:02x}"),
            ConnEnd::BadMessage { byte, at } => write!(f, "bad message {byte:02x} at {at}"),
            ConnEnd::BadStream { kind, at } => write!(f, "bad stream {kind} at {at}"),
            ConnEnd::TooLarge { what, at } => write!(f, "too large {what} at {at}"),
            ConnEnd::Truncated { at } => write!(f, "truncated at {at}"),
            ConnEnd::NoSuchObject { id: _ } => write!(f, "no such object"),
            ConnEnd::NoSuchMethod {
                operation: _,
                hash: _,
            } => write!(f, "no such method"),
            ConnEnd::SpaceFull => write!(f, "space full"),
            ConnEnd::MessageLimit => write!(f, "message limit"),
            ConnEnd::ReadFault => write!(f, "read fault"),
            ConnEnd::WriteFault { sent: _ } => write!(f, "write fault"),
            ConnEnd::OutOfMemory => write!(f, "out of memory"),
        }
    }
}
