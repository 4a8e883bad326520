//! The words that tell why a stream could not be read.
use crate::fault::{Large, StreamFault, StreamKind};
use std::fmt;

/// Writes the word for what there is too much of, as `bytes`.
impl fmt::Display for Large {
    ghost use Rattle.std.specs.Prelude.{Some};
    ghost use Rattle.ser_read.specs.Words.{words_of_large};

    ghost output = { λ what. Some (words_of_large what) };

    fn fmt<W: fmt::Write>(&self, f: &mut fmt::Formatter<W>) -> fmt::Result {
        match *self {
            Large::Bytes => write!(f, "bytes"),
            Large::Nodes => write!(f, "nodes"),
            Large::Depth => write!(f, "depth"),
        }
    }
}

/// The kind in lower-case words, as `block left`.
impl fmt::Display for StreamKind {
    ghost use Rattle.std.specs.Prelude.{Some};
    ghost use Rattle.ser_read.specs.Words.{words_of_kind};

    ghost output = { λ kind. Some (words_of_kind kind) };

    fn fmt<W: fmt::Write>(&self, f: &mut fmt::Formatter<W>) -> fmt::Result {
        match *self {
            StreamKind::BadMagic => write!(f, "bad magic"),
            StreamKind::BadCode => write!(f, "bad code"),
            StreamKind::BadHandle => write!(f, "bad handle"),
            StreamKind::WrongHandleKind => write!(f, "wrong handle kind"),
            StreamKind::BadDesc => write!(f, "bad desc"),
            StreamKind::BadUtf => write!(f, "bad utf"),
            StreamKind::NegativeLength => write!(f, "negative length"),
            StreamKind::BlockLeft => write!(f, "block left"),
            StreamKind::MissingBlock => write!(f, "missing block"),
            StreamKind::Reset => write!(f, "reset"),
            StreamKind::InnerException => write!(f, "inner exception"),
            StreamKind::OldExternal => write!(f, "old external"),
        }
    }
}

/// The fault in lower-case words with its position, as `bad stream block left at 68`.
impl fmt::Display for StreamFault {
    ghost use Rattle.std.specs.Prelude.{Some};
    ghost use Rattle.ser_read.specs.Words.{words_of};

    ghost output = { λ fault. Some (words_of fault) };

    fn fmt<W: fmt::Write>(&self, f: &mut fmt::Formatter<W>) -> fmt::Result {
        match *self {
            StreamFault::Bad { kind, at } => write!(f, "bad stream {kind} at {at}"),
            StreamFault::TooLarge { what, at } => write!(f, "too large {what} at {at}"),
            StreamFault::Truncated { at } => write!(f, "truncated at {at}"),
            StreamFault::ReadFault => write!(f, "read fault"),
            StreamFault::OutOfMemory => write!(f, "out of memory"),
        }
    }
}
