//! A client's end of a connection.
ghost use Rattle.std.specs.Prelude.{◌≡◌, ◌≢◌, ◌≤◌, true, false, ℕ, ◌+◌, length, IfOk, IfErr, OnOk, Ok, Err};
ghost use Rattle.wire_io.specs.declared.limits.TheConstants.{LAST_POSITION};
ghost use Rattle.mod_utf.specs.Utf.{utf};
ghost use Rattle.rmi_client.specs.Ends.{is_end};
ghost use Rattle.rmi_client.specs.Replies.{HearsAck, HearsPing};
ghost use Rattle.rmi_client.specs.declared.end.ClientEnd.TheVariants as ends;

use crate::end::{ClientEnd, is_end};
use crate::hear::{hear_ack, hear_answer, hear_ping};
use crate::reply::Answer;
use class_desc::TypeCode;
use jrmp_frames::{CallHead, Protocol, call_bytes, dgc_ack_bytes, endpoint_bytes, header_bytes};
use object_ids::Uid;
use sequence::{ByteList, Units};
use ser_values::Graph;
use std::alloc::Global;
use wire_io::{Halves, LAST_POSITION, Sink, Source, put_all};

/// A connection of the stream protocol, at the client's end (Java RMI Specification, 10.2 and 10.3).
///
/// A session sends one message at a time and reads its reply. After the first call that answers neither `Ok` nor `RemoteFault` it is over: each later
/// call answers `Over`, and sends and reads nothing.
pub struct Session<S, K> {
    pub(crate) alloc: Global,
    source: S,
    sink: K,
    /// The number of bytes that were read.
    pub(crate) at: u64,
    pub(crate) is_over: bool,
    ghost small: { at ≤ LAST_POSITION },
}

// Written out, so that whoever owns one has one call at each exit, and not the drop of each field.
impl<S: Drop, K: Drop> Drop for Session<S, K> {
    fn drop(self) {
        let Session {
            alloc: _,
            source,
            sink,
            at: _,
            is_over: _,
        } = self;
        drop(source);
        drop(sink);
    }
}

/// Why a connection could not be begun, and its halves.
pub struct Refusal<S, K> {
    /// Why it could not.
    pub end: ClientEnd,
    /// The halves, as they were left.
    pub halves: Halves<S, K>,
}

// Written out, so that whoever owns one has one call at each exit, and not the drop of each field.
impl<S: Drop, K: Drop> Drop for Refusal<S, K> {
    fn drop(self) {
        let Refusal { end, halves } = self;
        drop(end);
        drop(halves);
    }
}

impl<S, K> Refusal<S, K> {
    /// Why the connection could not be begun, and its halves.
    pub fn into_parts(self) -> (ClientEnd, Halves<S, K>)
        ensures end { result.0 ≡ self.end }
        ensures halves { result.1 ≡ self.halves }
    {
        let Refusal { end, halves } = self;
        (end, halves)
    }
}

impl<S: Source, K: Sink> Session<S, K> {
    ghost use Rattle.rmi_client.specs.Sessions.{LinkState, link_at, link_of, Asks, Tells, HearsReturnOf, IsPing, IsDgcAck, IsHeader, IsCall, Begins, BeginsWith, Sends, SendsFront};

    /// Begins a connection over two halves, of which nothing was read yet. It writes the header of the stream protocol, and reads the
    /// server's acknowledgement. Then it writes the client's endpoint, which is this host and port 0.
    ///
    /// `Nack` comes exactly at the answer `4F`, `BadReply` with `NotReturn` at any other first byte than `4E`, and `Truncated` where the input ends
    /// before or inside the acknowledgement.
    pub fn begin(
        alloc: Global,
        source: S,
        sink: K,
        host: &Units,
    ) -> Result<Session<S, K>, Refusal<S, K>>
        requires { length (utf host.now) ≤ 65535 }
        ensures begins { IfOk result (λ session. Begins {A = Unit {0}} host.now
            (link_at (S.half source) (K.half sink) 0) (link_of S.half K.half session) (Ok tt)) }
        ensures open { IfOk result (λ session. session.is_over ≡ false) }
        ensures refuses { IfErr result (λ refusal. (at : ℕ)
            × Begins {A = Unit {0}} host.now (link_at (S.half source) (K.half sink) 0)
            (link_at (S.half refusal.halves.source) (K.half refusal.halves.sink) at)
            (Err refusal.end)) }
    {
        let mut session = Session {
            alloc,
            source,
            sink,
            at: 0,
            is_over: false,
        };
        match session.greet(host) {
            Ok(()) => Ok(session),
            Err(end) => Err(Refusal {
                end,
                halves: session.close(),
            }),
        }
    }

    /// The halves, as the session left them. It takes no memory, and neither writes nor reads.
    pub fn close(self) -> Halves<S, K>
        ensures source { result.source ≡ self.source }
        ensures sink { result.sink ≡ self.sink }
    {
        let Session {
            alloc: _,
            source,
            sink,
            at: _,
            is_over: _,
        } = self;
        Halves { source, sink }
    }

    /// Asks the server whether it is there (Java RMI Specification, 10.3, Ping).
    ///
    /// `BadReply` with `NotReturn` comes exactly at another answer than `53`, and `Truncated` where the input ends before it. It takes no memory.
    pub fn ping(&mut self) -> Result<(), ClientEnd>
        ensures over { self.old.is_over ≡ true
            → (result ≡ Err ClientEnd.Over) × (self.new ≡ self.old) }
        ensures asks { self.old.is_over ≡ false → Asks IsPing HearsPing
            (link_of S.half K.half self.old) (link_of S.half K.half self.new) result }
        ensures memory { result ≢ Err ClientEnd.OutOfMemory }
        ensures ended { self.new.is_over ≡ is_end result }
    {
        if self.is_over {
            return Err(ClientEnd::Over);
        }
        let result = self.ask_ping();
        self.is_over = is_end(&result);
        result
    }

    /// Acknowledges a Return by its identifier (Java RMI Specification, 10.3, DgcAck): the client has registered the references in it. The server
    /// answers nothing. It takes no memory.
    pub fn ack(&mut self, uid: Uid) -> Result<(), ClientEnd>
        ensures over { self.old.is_over ≡ true
            → (result ≡ Err ClientEnd.Over) × (self.new ≡ self.old) }
        ensures tells { self.old.is_over ≡ false → Tells (IsDgcAck uid)
            (link_of S.half K.half self.old) (link_of S.half K.half self.new) result }
        ensures ended { self.new.is_over ≡ is_end result }
    {
        if self.is_over {
            return Err(ClientEnd::Over);
        }
        let result = self.put(&dgc_ack_bytes(uid));
        self.is_over = is_end(&result);
        result
    }

    /// Calls a method (Java RMI Specification, 10.3, CallData) with the items of a graph as its arguments, and reads its Return. `want` is the type
    /// of the method's result; None where it has none.
    ///
    /// `RemoteFault` comes exactly where the Return is an exception with a part of class `java.lang.Throwable`; any other exception is `BadReply` with
    /// `WrongShape`. `BadReply` with `NotReturn` comes exactly at another first byte than `51`. It comes with `BadReturnKind` at a kind that is neither
    /// `01` nor `02`, and with `Stream` where what follows is no stream of the Return. `TooLarge` comes past a limit, and `Truncated` where the input ends.
    pub fn call(
        &mut self,
        head: &CallHead,
        arguments: &Graph,
        want: Option<TypeCode>,
    ) -> Result<Answer, ClientEnd>
        ensures over { self.old.is_over ≡ true
            → (result ≡ Err ClientEnd.Over) × (self.new ≡ self.old) }
        ensures asks { self.old.is_over ≡ false → Asks
            (IsCall head.now arguments.now) (HearsReturnOf want)
            (link_of S.half K.half self.old) (link_of S.half K.half self.new) result }
        ensures ended { self.new.is_over ≡ is_end result }
    {
        if self.is_over {
            return Err(ClientEnd::Over);
        }
        let result = self.invoke(head, arguments, want);
        self.is_over = is_end(&result);
        result
    }

    /// Writes bytes.
    fn put(&mut self, bytes: &[u8]) -> Result<(), ClientEnd>
        ensures tells { Tells (λ sent. sent ≡ bytes.now)
            (link_of S.half K.half self.old) (link_of S.half K.half self.new) result }
        ensures kept { self.new.is_over ≡ self.old.is_over }
    {
        match put_all(&mut self.sink, bytes) {
            Ok(()) => Ok(()),
            Err(fault) => Err(ClientEnd::WriteFault {
                sent: fault.sent as u64,
            }),
        }
    }

    /// Sends a Ping and reads its answer.
    fn ask_ping(&mut self) -> Result<(), ClientEnd>
        ensures asks { Asks IsPing HearsPing
            (link_of S.half K.half self.old) (link_of S.half K.half self.new) result }
        ensures memory { result ≢ Err ClientEnd.OutOfMemory }
    {
        match self.put(&[0x52]) {
            Ok(()) => hear_ping(&mut self.source, &mut self.at),
            Err(end) => Err(end),
        }
    }

    /// Sends a call and reads its Return.
    fn invoke(
        &mut self,
        head: &CallHead,
        arguments: &Graph,
        want: Option<TypeCode>,
    ) -> Result<Answer, ClientEnd>
        ensures asks { Asks
            (IsCall head.now arguments.now) (HearsReturnOf want)
            (link_of S.half K.half self.old) (link_of S.half K.half self.new) result }
    {
        match call_bytes(self.alloc, *head, arguments) {
            Ok(bytes) => self.exchange(bytes.as_slice(), want),
            Err(_refused) => Err(ClientEnd::OutOfMemory),
        }
    }

    /// Sends the bytes of a call and reads its Return.
    pub(crate) fn exchange(
        &mut self,
        bytes: &[u8],
        want: Option<TypeCode>,
    ) -> Result<Answer, ClientEnd>
        ensures asks { Asks
            (λ sent. sent ≡ bytes.now) (HearsReturnOf want)
            (link_of S.half K.half self.old) (link_of S.half K.half self.new) result }
    {
        match self.put(bytes) {
            Ok(()) => hear_answer(self.alloc, &mut self.source, &mut self.at, want),
            Err(end) => Err(end),
        }
    }

    /// Writes the header, reads the acknowledgement, and writes the client's endpoint.
    fn greet(&mut self, host: &Units) -> Result<(), ClientEnd>
        requires { length (utf host.now) ≤ 65535 }
        ensures begins { Begins host.now
            (link_of S.half K.half self.old) (link_of S.half K.half self.new) result }
        ensures kept { self.new.is_over ≡ self.old.is_over }
    {
        match endpoint_bytes(self.alloc, host, 0) {
            Ok(own) => self.greet_with(own.as_slice()),
            Err(_refused) => Err(ClientEnd::OutOfMemory),
        }
    }

    /// Begins the connection, with these bytes as the client's endpoint.
    fn greet_with(&mut self, own: &[u8]) -> Result<(), ClientEnd>
        ensures begins { BeginsWith own.now
            (link_of S.half K.half self.old) (link_of S.half K.half self.new) result }
        ensures kept { self.new.is_over ≡ self.old.is_over }
    {
        match self.ask_protocol() {
            Ok(()) => self.put_behind_header(own),
            Err(end) => Err(end),
        }
    }

    /// Writes the header and reads its acknowledgement.
    fn ask_protocol(&mut self) -> Result<(), ClientEnd>
        ensures asks { Asks IsHeader HearsAck
            (link_of S.half K.half self.old) (link_of S.half K.half self.new) result }
        ensures memory { result ≢ Err ClientEnd.OutOfMemory }
        ensures kept { self.new.is_over ≡ self.old.is_over }
    {
        match self.put(&header_bytes(Protocol::Stream)) {
            Ok(()) => hear_ack(&mut self.source, &mut self.at),
            Err(end) => Err(end),
        }
    }

    /// Writes bytes that follow the header; a fault counts those of the header, too.
    fn put_behind_header(&mut self, bytes: &[u8]) -> Result<(), ClientEnd>
        ensures ok { OnOk result (Sends (K.half self.old.sink) (K.half self.new.sink) bytes.now) }
        ensures err { IfErr result (λ end. (n : ℕ) × (end ≡ ends.WriteFault (7 + n))
            × SendsFront (K.half self.old.sink) (K.half self.new.sink) n bytes.now) }
        ensures source { self.new.source ≡ self.old.source }
        ensures at { self.new.at ≡ self.old.at }
        ensures kept { self.new.is_over ≡ self.old.is_over }
    {
        match put_all(&mut self.sink, bytes) {
            Ok(()) => Ok(()),
            Err(fault) => Err(ClientEnd::WriteFault {
                sent: 7 + fault.sent as u64,
            }),
        }
    }
}
