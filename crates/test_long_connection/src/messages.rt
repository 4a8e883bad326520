//! The bytes of calls.
use sequence::ByteList;
use std::alloc::{AllocError, Global};
use test_support::texts::put_digits;

/// A call of `get` of the counter, object 17 of the space, by its hash.
const GET: &str = "50 ACED0005 77 22 0000000000000011 00000007 0000000000000009 0000
FFFFFFFF E2CA1A08EBC02A8D";

/// A call of the registry: `lookup` of the name `counter`, by its operation.
const LOOKUP: &str = "50 ACED0005 77 22 0000000000000000 00000000 0000000000000000 0000
00000002 44154DC9D4E63BDF 74 0007 636F756E746572";

/// A call of the collector: `dirty`, by its operation, of the counter. It has an array of one identifier, the call's number, and a lease
/// of ten minutes for a client with an address of eight bytes.
const DIRTY: &str = "50 ACED0005 77 22 0000000000000002 00000000 0000000000000000 0000
00000001 F6B6898D8BF28643
75 72 0018 5B4C6A6176612E726D692E7365727665722E4F626A49443B 871300B8D02C647E 02 0000 70 78 70
00000001
73 72 0015 6A6176612E726D692E7365727665722E4F626A4944 A75EFA128DDCE55C 02 0002
4A 0006 6F626A4E756D
4C 0005 7370616365 74 0015 4C6A6176612F726D692F7365727665722F5549443B 70 78 70
0000000000000011
73 72 0013 6A6176612E726D692E7365727665722E554944 0F12700DBF364F12 02 0003
53 0005 636F756E74 4A 0004 74696D65 49 0006 756E69717565 70 78 70
0000 0000000000000009 00000007
77 08 0000000000000001
73 72 0012 6A6176612E726D692E6467632E4C65617365 B0B5E2660C4ADC34 02 0002
4A 0005 76616C7565
4C 0004 766D6964 74 0013 4C6A6176612F726D692F6467632F564D49443B 70 78 70
00000000000927C0
73 72 0011 6A6176612E726D692E6467632E564D4944 F8865BAFA4A56DB6 02 0002
5B 0004 61646472 74 0002 5B42
4C 0003 756964 71 007E0003 70 78 70
75 72 0002 5B42 ACF317F8060854E0 02 0000 70 78 70
00000008 0102030405060708
73 71 007E0005 0005 0000000000000004 00000003";

/// A kind of call.
#[derive(Clone, Copy)]
pub(crate) enum CallKind {
    /// `get` of the counter.
    Get,
    /// `lookup` of the counter's name. Its Return is acknowledged.
    Lookup,
    /// `dirty` of the counter.
    Dirty,
}

impl CallKind {
    /// The kind that a word names.
    pub(crate) fn named(word: &str) -> Option<CallKind> {
        match word {
            "get" => Some(CallKind::Get),
            "lookup" => Some(CallKind::Lookup),
            "dirty" => Some(CallKind::Dirty),
            _ => None,
        }
    }

    /// Returns whether a client acknowledges the Return of such a call.
    pub(crate) fn is_acknowledged(self) -> bool {
        matches!(self, CallKind::Lookup)
    }

    /// The bytes of such a call.
    pub(crate) fn bytes(self, alloc: Global) -> Result<ByteList, AllocError> {
        let digits = match self {
            CallKind::Get => GET,
            CallKind::Lookup => LOOKUP,
            CallKind::Dirty => DIRTY,
        };
        let mut bytes = ByteList::new(alloc);
        put_digits(&mut bytes, digits)?;
        Ok(bytes)
    }
}
