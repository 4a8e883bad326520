//! `call`: a method of the remote object that a name of a registry stands for.
ghost use Rattle.std.specs.Prelude.{◌≡◌, ◌≢◌, ◌≤◌, ◌<◌, ◌+◌, ◌∷◌, [], ℕ, List, negsuc, Option, Err, OnOk, false, map, vec_len, vec_capacity};
ghost use Rattle.object_ids.specs.Bytes.{bytes_of_uid};
ghost use Rattle.wire_io.specs.Wire.{Rose};
ghost use Rattle.wire_io.specs.Links.{Dialed};
ghost use Rattle.dgc_client.specs.Log.{ClientCall};
ghost use Rattle.rmi_client.specs.Sessions.{link_at, link_of};
ghost use Rattle.client_talk.specs.Calling.{Lessee, Keeps, lessee_of, releases_all, winds_up, holds_each, settles, invokes, calls, holds_and_calls, dials_on, looks_up_and_calls, call_script};
ghost use Rattle.client_talk.specs.Commands.{acks_if, greets};
ghost use Rattle.client_talk.specs.Contents.{CallAnswer, content_of, returned, is_flagged, answering, with_content};
ghost use Rattle.client_talk.specs.Rmi.{rmi};
ghost use Rattle.client_talk.specs.Scripts.{Script};
ghost use Rattle.client_talk.specs.Sessions.{seen_of, ended_as, LeavesPair, LeavesMore};
ghost use Rattle.client_talk.specs.Steps.{IsAt, Stands, Steps, Spoke, with_seen};
ghost use Rattle.client_talk.specs.Talk.{Linked, linked, Talks};
ghost use Rattle.client_talk.specs.declared.end.CommandEnd.TheVariants as CommandEnds;

use crate::acknowledge::acknowledge;
use crate::contents::{ids_held, is_flagged};
use crate::end::CommandEnd;
use crate::leases::{Leases, hold, hold_each, release_each};
use crate::opening::{begin, dial, has_room, put_away, put_back};
use crate::request::{MethodCall, Request};
use java_shapes::LiveRef;
use jrmp_frames::CallHead;
use object_ids::{ObjId, Uid};
use rmi_client::{Answer, ClientEnd, Session};
use std::alloc::Global;
use wire_io::{Clock, Dialer, Halves, Link, Sink, Source};

/// The session on which a reference was found, and the reference, in a Return of this identifier.
struct Found<I, O> {
    session: Session<I, O>,
    uid: Uid,
    reference: LiveRef,
}

// Written out, so that whoever owns one has one call at each exit, and not the drop of each field.
impl<I: Drop, O: Drop> Drop for Found<I, O> {
    fn drop(self) {
        let Found {
            session,
            uid: _,
            reference,
        } = self;
        drop(session);
        drop(reference);
    }
}

impl<I: Source, O: Sink> Found<I, O> {
    /// The halves of the session's link.
    fn close(self) -> Halves<I, O>
        ensures source { result.source ≡ self.session.source }
        ensures sink { result.sink ≡ self.session.sink }
    {
        let Found {
            session,
            uid: _,
            reference,
        } = self;
        drop(reference);
        session.close()
    }
}

/// Keeps a session together with the reference that a lookup found on it.
fn found_on<I: Source + Drop, O: Sink + Drop>(
    session: Session<I, O>,
    found: (Uid, LiveRef),
) -> Found<I, O>
    ensures { result ≡ record { session = session; uid = found.0; reference = found.1 } }
{
    let (uid, reference) = found;
    Found {
        session,
        uid,
        reference,
    }
}

/// Acknowledges the Return of this identifier where a reference in it has its flag set.
fn acknowledge_if<I: Source, O: Sink>(
    session: &mut Session<I, O>,
    uid: Uid,
    flagged: bool,
) -> Result<(), CommandEnd>
    requires { session.old.is_over ≡ false }
    ensures acks { (s : Script rmi CallAnswer) (k : ℕ) (links : List Linked)
        (given given2 : Option (List ℕ)) (next : Script rmi CallAnswer)
        → IsAt k links (seen_of (link_of I.half O.half session.old))
        → Stands s links given given2 (acks_if k (bytes_of_uid uid) flagged next)
        → Steps s k links (seen_of (link_of I.half O.half session.new))
        given given2 (λ u. next) result }
    ensures open { OnOk result (session.new.is_over ≡ false) }
    ensures apart { result ≢ Err CommandEnds.DialFault }
{
    match acknowledge(session, uid, flagged) {
        Ok(()) => Ok(()),
        Err(end) => Err(CommandEnd::Session(end)),
    }
}

/// Acknowledges a result where a reference in it has its flag set.
fn acknowledge_result<I: Source, O: Sink>(
    alloc: Global,
    session: &mut Session<I, O>,
    answer: &Answer,
) -> Result<(), CommandEnd>
    requires { session.old.is_over ≡ false }
    ensures acks { (s : Script rmi CallAnswer) (k : ℕ) (links : List Linked)
        (given given2 : Option (List ℕ)) (next : Script rmi CallAnswer)
        → IsAt k links (seen_of (link_of I.half O.half session.old))
        → Stands s links given given2 (acks_if k (bytes_of_uid answer.now.uid)
        (is_flagged (content_of answer.now.body)) next)
        → Steps s k links (seen_of (link_of I.half O.half session.new))
        given given2 (λ u. next) result }
    ensures open { OnOk result (session.new.is_over ≡ false) }
    ensures apart { result ≢ Err CommandEnds.DialFault }
{
    match is_flagged(alloc, &answer.body) {
        Ok(flagged) => acknowledge_if(session, answer.uid, flagged),
        Err(_refused) => Err(CommandEnd::Session(ClientEnd::OutOfMemory)),
    }
}

/// Releases all references, one after the other.
fn release_all<I: Source, O: Sink, T: Clock>(
    session: &mut Session<I, O>,
    ticks: &mut T,
    leases: &mut Leases,
) -> Result<(), CommandEnd>
    requires { session.old.is_over ≡ false }
    ensures talks { (s : Script rmi CallAnswer) (k : ℕ) (links : List Linked)
        (given : Option (List ℕ)) (lessee : Lessee) (log : List ClientCall) (answer : CallAnswer)
        → Keeps lessee leases.old log
        → IsAt k links (seen_of (link_of I.half O.half session.old))
        → Stands s links given (T.given ticks.old) (releases_all k lessee answer log)
        → Talks s (with_seen k (seen_of (link_of I.half O.half session.new)) links)
        given (T.given ticks.new) (answering answer result) }
    ensures apart { result ≢ Err CommandEnds.DialFault }
{
    match leases.ids() {
        Ok(ids) => release_each(session, ticks, leases, ids.as_slice()),
        Err(_refused) => Err(CommandEnd::Session(ClientEnd::OutOfMemory)),
    }
}

/// Acknowledges a result where a reference in it has its flag set, and releases all references.
fn wind_up<I: Source, O: Sink, T: Clock>(
    session: &mut Session<I, O>,
    ticks: &mut T,
    leases: &mut Leases,
    answer: &Answer,
) -> Result<(), CommandEnd>
    requires { session.old.is_over ≡ false }
    ensures talks { (s : Script rmi CallAnswer) (k : ℕ) (links : List Linked)
        (given : Option (List ℕ)) (lessee : Lessee) (log : List ClientCall)
        → Keeps lessee leases.old log
        → IsAt k links (seen_of (link_of I.half O.half session.old))
        → Stands s links given (T.given ticks.old)
        (winds_up k lessee (returned answer.now) log)
        → Talks s (with_seen k (seen_of (link_of I.half O.half session.new)) links)
        given (T.given ticks.new) (answering (returned answer.now) result) }
    ensures apart { result ≢ Err CommandEnds.DialFault }
{
    match acknowledge_result(leases.alloc, session, answer) {
        Ok(()) => release_all(session, ticks, leases),
        Err(end) => Err(end),
    }
}

/// Holds these references of a result, acknowledges it and releases all.
fn settle_with<I: Source, O: Sink, T: Clock>(
    session: &mut Session<I, O>,
    ticks: &mut T,
    leases: &mut Leases,
    objects: &[ObjId],
    answer: &Answer,
) -> Result<(), CommandEnd>
    requires { session.old.is_over ≡ false }
    ensures talks { (s : Script rmi CallAnswer) (k : ℕ) (links : List Linked)
        (given : Option (List ℕ)) (lessee : Lessee) (log : List ClientCall)
        → Keeps lessee leases.old log
        → IsAt k links (seen_of (link_of I.half O.half session.old))
        → Stands s links given (T.given ticks.old) (holds_each k lessee objects.now log
        (winds_up k lessee (returned answer.now)))
        → Talks s (with_seen k (seen_of (link_of I.half O.half session.new)) links)
        given (T.given ticks.new) (answering (returned answer.now) result) }
    ensures apart { result ≢ Err CommandEnds.DialFault }
{
    match hold_each(session, ticks, leases, objects) {
        Ok(()) => wind_up(session, ticks, leases, answer),
        Err(end) => Err(end),
    }
}

/// Holds the references of a result that are of the server of this one, acknowledges the result and releases all.
fn settle<I: Source, O: Sink, T: Clock>(
    session: &mut Session<I, O>,
    ticks: &mut T,
    leases: &mut Leases,
    reference: &LiveRef,
    answer: &Answer,
) -> Result<(), CommandEnd>
    requires { session.old.is_over ≡ false }
    ensures talks { (s : Script rmi CallAnswer) (k : ℕ) (links : List Linked)
        (given : Option (List ℕ)) (lessee : Lessee) (log : List ClientCall)
        → Keeps lessee leases.old log
        → IsAt k links (seen_of (link_of I.half O.half session.old))
        → Stands s links given (T.given ticks.old)
        (settles k lessee reference.now (returned answer.now) log)
        → Talks s (with_seen k (seen_of (link_of I.half O.half session.new)) links)
        given (T.given ticks.new) (answering (returned answer.now) result) }
    ensures apart { result ≢ Err CommandEnds.DialFault }
{
    match ids_held(leases.alloc, &answer.body, reference) {
        Ok(ids) => settle_with(session, ticks, leases, ids.as_slice(), answer),
        Err(_refused) => Err(CommandEnd::Session(ClientEnd::OutOfMemory)),
    }
}

/// Does so, and hands the answer back.
fn finish<I: Source, O: Sink, T: Clock>(
    session: &mut Session<I, O>,
    ticks: &mut T,
    leases: &mut Leases,
    reference: &LiveRef,
    answer: Answer,
) -> Result<Answer, CommandEnd>
    requires { session.old.is_over ≡ false }
    ensures talks { (s : Script rmi CallAnswer) (k : ℕ) (links : List Linked)
        (given : Option (List ℕ)) (lessee : Lessee) (log : List ClientCall)
        → Keeps lessee leases.old log
        → IsAt k links (seen_of (link_of I.half O.half session.old))
        → Stands s links given (T.given ticks.old)
        (settles k lessee reference.now (returned answer) log)
        → Talks s (with_seen k (seen_of (link_of I.half O.half session.new)) links)
        given (T.given ticks.new) (with_content result) }
    ensures apart { result ≢ Err CommandEnds.DialFault }
{
    match settle(session, ticks, leases, reference, &answer) {
        Ok(()) => Ok(answer),
        Err(end) => Err(end),
    }
}

/// The head of the call of a method, by its hash.
fn head_of(method: &MethodCall, reference: &LiveRef) -> CallHead
    ensures { result ≡ record {
      id = reference.now.id;
      operation = negsuc 0;
      hash = method.now.hash;
    } }
{
    CallHead {
        id: reference.id,
        operation: -1,
        hash: method.hash,
    }
}

/// Makes the call, on the session on which the reference is held.
fn invoke<I: Source, O: Sink, T: Clock>(
    session: &mut Session<I, O>,
    ticks: &mut T,
    leases: &mut Leases,
    reference: &LiveRef,
    method: &MethodCall,
) -> Result<Answer, CommandEnd>
    requires { session.old.is_over ≡ false }
    ensures talks { (s : Script rmi CallAnswer) (k : ℕ) (links : List Linked)
        (given : Option (List ℕ)) (lessee : Lessee) (log : List ClientCall)
        → Keeps lessee leases.old log
        → IsAt k links (seen_of (link_of I.half O.half session.old))
        → Stands s links given (T.given ticks.old) (invokes k lessee method.now reference.now log)
        → Talks s (with_seen k (seen_of (link_of I.half O.half session.new)) links)
        given (T.given ticks.new) (with_content result) }
    ensures apart { result ≢ Err CommandEnds.DialFault }
{
    let head = head_of(method, reference);
    match session.call(&head, &method.arguments, method.result) {
        Ok(answer) => finish(session, ticks, leases, reference, answer),
        Err(end) => Err(CommandEnd::Session(end)),
    }
}

/// Acknowledges the reference on the first session where its flag is set, and makes the call on the second one.
fn call_held<I: Source, O: Sink, T: Clock>(
    found: &mut Found<I, O>,
    second: &mut Session<I, O>,
    ticks: &mut T,
    leases: &mut Leases,
    method: &MethodCall,
) -> Result<Answer, CommandEnd>
    requires first { found.old.session.is_over ≡ false }
    requires second { second.old.is_over ≡ false }
    ensures talks { (s : Script rmi CallAnswer) (b0 b1 : Dialed) (given : Option (List ℕ))
        (lessee : Lessee) (log : List ClientCall)
        → Keeps lessee leases.old log
        → Stands s (linked b0 (seen_of (link_of I.half O.half found.old.session))
        ∷ linked b1 (seen_of (link_of I.half O.half second.old)) ∷ []) given (T.given ticks.old)
        (calls lessee method.now (bytes_of_uid found.old.uid) found.old.reference log)
        → Talks s (linked b0 (seen_of (link_of I.half O.half found.new.session))
        ∷ linked b1 (seen_of (link_of I.half O.half second.new)) ∷ [])
        given (T.given ticks.new) (with_content result) }
    ensures apart { result ≢ Err CommandEnds.DialFault }
{
    match acknowledge_if(&mut found.session, found.uid, found.reference.result) {
        Ok(()) => invoke(second, ticks, leases, &found.reference, method),
        Err(unsent) => Err(unsent),
    }
}

/// Holds the reference on the second session, and makes the call.
fn call_leased<I: Source, O: Sink, T: Clock>(
    found: &mut Found<I, O>,
    second: &mut Session<I, O>,
    ticks: &mut T,
    leases: &mut Leases,
    method: &MethodCall,
) -> Result<Answer, CommandEnd>
    requires first { found.old.session.is_over ≡ false }
    requires second { second.old.is_over ≡ false }
    ensures talks { (s : Script rmi CallAnswer) (b0 b1 : Dialed) (given : Option (List ℕ))
        (lessee : Lessee)
        → Keeps lessee leases.old []
        → Stands s (linked b0 (seen_of (link_of I.half O.half found.old.session))
        ∷ linked b1 (seen_of (link_of I.half O.half second.old)) ∷ []) given (T.given ticks.old)
        (holds_and_calls lessee method.now (bytes_of_uid found.old.uid) found.old.reference)
        → Talks s (linked b0 (seen_of (link_of I.half O.half found.new.session))
        ∷ linked b1 (seen_of (link_of I.half O.half second.new)) ∷ [])
        given (T.given ticks.new) (with_content result) }
    ensures apart { result ≢ Err CommandEnds.DialFault }
{
    match hold(second, ticks, leases, &found.reference.id) {
        Ok(()) => call_held(found, second, ticks, leases, method),
        Err(end) => Err(end),
    }
}

/// Does so with leases of its own.
fn call_with<I: Source, O: Sink, T: Clock>(
    found: &mut Found<I, O>,
    second: &mut Session<I, O>,
    ticks: &mut T,
    leases: Leases,
    method: &MethodCall,
) -> Result<Answer, CommandEnd>
    requires first { found.old.session.is_over ≡ false }
    requires second { second.old.is_over ≡ false }
    ensures talks { (s : Script rmi CallAnswer) (b0 b1 : Dialed) (given : Option (List ℕ))
        (lessee : Lessee)
        → Keeps lessee leases []
        → Stands s (linked b0 (seen_of (link_of I.half O.half found.old.session))
        ∷ linked b1 (seen_of (link_of I.half O.half second.old)) ∷ []) given (T.given ticks.old)
        (holds_and_calls lessee method.now (bytes_of_uid found.old.uid) found.old.reference)
        → Talks s (linked b0 (seen_of (link_of I.half O.half found.new.session))
        ∷ linked b1 (seen_of (link_of I.half O.half second.new)) ∷ [])
        given (T.given ticks.new) (with_content result) }
    ensures apart { result ≢ Err CommandEnds.DialFault }
{
    let mut leases = leases;
    call_leased(found, second, ticks, &mut leases, method)
}

/// Holds the reference on the second session, and makes the call.
fn call_on<I: Source, O: Sink, T: Clock>(
    found: &mut Found<I, O>,
    second: &mut Session<I, O>,
    ticks: &mut T,
    request: &Request,
) -> Result<Answer, CommandEnd>
    requires first { found.old.session.is_over ≡ false }
    requires second { second.old.is_over ≡ false }
    ensures talks { (s : Script rmi CallAnswer) (b0 b1 : Dialed) (given : Option (List ℕ))
        → Stands s (linked b0 (seen_of (link_of I.half O.half found.old.session))
        ∷ linked b1 (seen_of (link_of I.half O.half second.old)) ∷ []) given (T.given ticks.old)
        (holds_and_calls (lessee_of request.now.caller) request.now.method
        (bytes_of_uid found.old.uid) found.old.reference)
        → Talks s (linked b0 (seen_of (link_of I.half O.half found.new.session))
        ∷ linked b1 (seen_of (link_of I.half O.half second.new)) ∷ [])
        given (T.given ticks.new) (with_content result) }
    ensures apart { result ≢ Err CommandEnds.DialFault }
{
    match Leases::new(&request.caller) {
        Ok(leases) => call_with(found, second, ticks, leases, &request.method),
        Err(_refused) => Err(CommandEnd::Session(ClientEnd::OutOfMemory)),
    }
}

/// Does so over two sessions, and leaves the halves of both links.
fn call_between<I: Source + Drop, O: Sink + Drop, T: Clock>(
    ticks: &mut T,
    talked: &mut Vec<Halves<I, O>>,
    found: Found<I, O>,
    second: Session<I, O>,
    request: &Request,
) -> Result<Answer, CommandEnd>
    requires first { found.session.is_over ≡ false }
    requires second { second.is_over ≡ false }
    requires room { vec_len talked.old + 2 ≤ vec_capacity talked.old }
    ensures talks { (s : Script rmi CallAnswer) (b0 b1 : Dialed) (given : Option (List ℕ))
        → Stands s (linked b0 (seen_of (link_of I.half O.half found.session))
        ∷ linked b1 (seen_of (link_of I.half O.half second)) ∷ []) given (T.given ticks.old)
        (holds_and_calls (lessee_of request.now.caller) request.now.method
        (bytes_of_uid found.uid) found.reference)
        → LeavesPair I.half O.half s b0 b1 given (T.given ticks.new)
        talked.old.items talked.new.items (with_content result) }
    ensures apart { result ≢ Err CommandEnds.DialFault }
{
    let mut found = found;
    let mut second = second;
    let result = call_on(&mut found, &mut second, ticks, request);
    put_away(talked, found.close());
    put_away(talked, second.close());
    result
}

/// Opens a session over a second link that was just dialled, makes the call, and leaves the halves of both links.
fn call_over<I: Source + Drop, O: Sink + Drop, C: Drop, T: Clock>(
    ticks: &mut T,
    talked: &mut Vec<Halves<I, O>>,
    found: Found<I, O>,
    link: Link<I, O, C>,
    request: &Request,
) -> Result<Answer, CommandEnd>
    requires first { found.session.is_over ≡ false }
    requires room { vec_len talked.old + 2 ≤ vec_capacity talked.old }
    ensures talks { (s : Script rmi CallAnswer) (b0 b1 : Dialed) (given : Option (List ℕ))
        → Stands s (linked b0 (seen_of (link_of I.half O.half found.session))
        ∷ linked b1 (seen_of (link_at (I.half link.source) (O.half link.sink) 0)) ∷ [])
        given (T.given ticks.old) (greets 1 link.host
        (holds_and_calls (lessee_of request.now.caller) request.now.method
        (bytes_of_uid found.uid) found.reference))
        → LeavesPair I.half O.half s b0 b1 given (T.given ticks.new)
        talked.old.items talked.new.items (with_content result) }
    ensures apart { result ≢ Err CommandEnds.DialFault }
{
    match begin(request.caller.alloc, link) {
        Ok(second) => call_between(ticks, talked, found, second, request),
        Err(refusal) => {
            put_away(talked, found.close());
            Err(put_back(talked, refusal))
        }
    }
}

/// Dials the reference's own server, makes the call there, and leaves the halves of each link.
fn call_found<D: Dialer, T: Clock>(
    dialer: &mut D,
    ticks: &mut T,
    talked: &mut Vec<Halves<D::In, D::Out>>,
    found: Found<D::In, D::Out>,
    request: &Request,
) -> Result<Answer, CommandEnd>
    requires open { found.session.is_over ≡ false }
    requires room { vec_len talked.old + 2 ≤ vec_capacity talked.old }
    ensures talks { (s : Script rmi CallAnswer) (b : Dialed) (given : Option (List ℕ))
        → Stands s (linked b (seen_of (link_of D.In.half D.Out.half found.session)) ∷ [])
        given (T.given ticks.old) (dials_on (lessee_of request.now.caller) request.now.method
        (bytes_of_uid found.uid) found.reference)
        → LeavesMore D.In.half D.Out.half s b
        (D.dialing dialer.old).dialed (D.dialing dialer.new).dialed given (T.given ticks.new)
        talked.old.items talked.new.items (with_content result) }
    ensures fault { result ≡ Err CommandEnds.DialFault
        → Rose (D.dialing dialer.old).faults (D.dialing dialer.new).faults }
{
    match dial(dialer, &found.reference.host, &found.reference.port) {
        Ok(link) => call_over(ticks, talked, found, link, request),
        Err(end) => {
            put_away(talked, found.close());
            Err(end)
        }
    }
}

/// Looks the name up over the session of a link that was just dialled, calls, and leaves the halves of each link.
fn call_from<D: Dialer, T: Clock>(
    dialer: &mut D,
    ticks: &mut T,
    talked: &mut Vec<Halves<D::In, D::Out>>,
    session: Session<D::In, D::Out>,
    request: &Request,
) -> Result<Answer, CommandEnd>
    requires open { session.is_over ≡ false }
    requires room { vec_len talked.old + 2 ≤ vec_capacity talked.old }
    ensures talks { (s : Script rmi CallAnswer) (b : Dialed) (given : Option (List ℕ))
        → Stands s (linked b (seen_of (link_of D.In.half D.Out.half session)) ∷ [])
        given (T.given ticks.old) (looks_up_and_calls request.now)
        → LeavesMore D.In.half D.Out.half s b
        (D.dialing dialer.old).dialed (D.dialing dialer.new).dialed given (T.given ticks.new)
        talked.old.items talked.new.items (with_content result) }
    ensures fault { result ≡ Err CommandEnds.DialFault
        → Rose (D.dialing dialer.old).faults (D.dialing dialer.new).faults }
{
    let mut session = session;
    match session.lookup(&request.name) {
        Ok(found) => call_found(dialer, ticks, talked, found_on(session, found), request),
        Err(end) => {
            put_away(talked, session.close());
            Err(CommandEnd::Session(end))
        }
    }
}

/// Opens a session over a link that was just dialled, looks the name up, calls, and leaves the halves of each link.
fn call_through<D: Dialer, T: Clock>(
    dialer: &mut D,
    ticks: &mut T,
    talked: &mut Vec<Halves<D::In, D::Out>>,
    link: Link<D::In, D::Out, D::Ticks>,
    request: &Request,
) -> Result<Answer, CommandEnd>
    requires { vec_len talked.old + 2 ≤ vec_capacity talked.old }
    ensures talks { (s : Script rmi CallAnswer) (b : Dialed) (given : Option (List ℕ))
        → Stands s
        (linked b (seen_of (link_at (D.In.half link.source) (D.Out.half link.sink) 0)) ∷ [])
        given (T.given ticks.old) (greets 0 link.host (looks_up_and_calls request.now))
        → LeavesMore D.In.half D.Out.half s b
        (D.dialing dialer.old).dialed (D.dialing dialer.new).dialed given (T.given ticks.new)
        talked.old.items talked.new.items (with_content result) }
    ensures fault { result ≡ Err CommandEnds.DialFault
        → Rose (D.dialing dialer.old).faults (D.dialing dialer.new).faults }
{
    match begin(request.caller.alloc, link) {
        Ok(session) => call_from(dialer, ticks, talked, session, request),
        Err(refusal) => Err(put_back(talked, refusal)),
    }
}

/// `call HOST PORT NAME METHOD [ARG ..]`: calls a method of the remote object that a name of a registry stands for, in these steps.
///
/// 1. It dials the registry and looks the name up.
/// 2. It dials the host and port of the reference that it finds, and sends a dirty call for that reference there.
/// 3. It acknowledges the lookup on the first link, where the reference's flag is set.
/// 4. It calls the method on the second link.
/// 5. It sends there a dirty call for each reference of that host and port in the result.
/// 6. It acknowledges the result there, where the flag of a reference in it is set.
/// 7. It sends there a clean call for each reference, in the order in which they were registered.
///
/// Before each dirty call the reference is registered in a table of its own, and what is due then is sent; a reference that is registered already is passed
/// over. The clock is read before each lease call is planned, and after the Return of each dirty call. The result is the Return's. The links' halves are
/// left in `talked`, shut, in order of dialling.
///
/// `DialFault` comes only where the dialer's count of faults rose, `ReadFault` and `WriteFault` only where a link's did. `Table` comes exactly where the table
/// refuses. It comes with `FullRefs` where 16,384 references are registered and one more is to be, and with `NumbersSpent` where no number is left for
/// a lease call. Nothing is sent after the first end.
pub fn call<D: Dialer, T: Clock>(
    dialer: &mut D,
    ticks: &mut T,
    talked: &mut Vec<Halves<D::In, D::Out>>,
    request: &Request,
) -> Result<Answer, CommandEnd>
    ensures spoke { Spoke (call_script request.now)
        (D.dialing dialer.old).dialed (D.dialing dialer.new).dialed
        (map (ended_as D.In.half D.Out.half) talked.old.items)
        (map (ended_as D.In.half D.Out.half) talked.new.items)
        (T.given ticks.old) (T.given ticks.new) (with_content result) }
    ensures fault { result ≡ Err CommandEnds.DialFault
        → Rose (D.dialing dialer.old).faults (D.dialing dialer.new).faults }
{
    if !has_room(talked, 2) {
        return Err(CommandEnd::Session(ClientEnd::OutOfMemory));
    }
    match dial(dialer, &request.place.host, &request.place.port) {
        Ok(link) => call_through(dialer, ticks, talked, link, request),
        Err(end) => Err(end),
    }
}
