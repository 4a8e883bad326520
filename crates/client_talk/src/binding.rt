//! `bind`: a name of a registry stands for what another one does.
ghost use Rattle.std.specs.Prelude.{◌≡◌, ◌≢◌, ◌<◌, ℕ, List, [], ◌∷◌, map, Option, Err, false, vec_len, vec_capacity};
ghost use Rattle.wire_io.specs.Wire.{Rose};
ghost use Rattle.wire_io.specs.Links.{Dialed};
ghost use Rattle.rmi_client.specs.Sessions.{link_at, link_of};
ghost use Rattle.client_talk.specs.Scripts.{Script};
ghost use Rattle.client_talk.specs.Talk.{Linked, linked, Talks};
ghost use Rattle.client_talk.specs.Steps.{IsAt, Stands, Spoke, with_seen};
ghost use Rattle.client_talk.specs.Sessions.{seen_of, ended_as, LeavesTalk};
ghost use Rattle.client_talk.specs.Rmi.{rmi};
ghost use Rattle.object_ids.specs.Bytes.{bytes_of_uid};
ghost use Rattle.client_talk.specs.Scripts.{asks, done};
ghost use Rattle.client_talk.specs.Rmi.{Bind};
ghost use Rattle.client_talk.specs.Commands.{greets, binds, bind_script, acks};
ghost use Rattle.client_talk.specs.declared.end.CommandEnd.TheVariants as CommandEnds;

use crate::acknowledge::acknowledge;
use crate::end::CommandEnd;
use crate::opening::{begin, dial, has_room, put_away, put_back};
use crate::place::Place;
use history::Name;
use java_shapes::LiveRef;
use mod_utf::encoded_len;
use object_ids::Uid;
use rmi_client::{ClientEnd, Session};
use std::alloc::Global;
use wire_io::{Dialer, Halves, Link, Sink, Source};

/// A name, and the one for whose reference it is to stand.
#[derive(Debug)]
pub struct Binding {
    /// The name.
    pub name: Name,
    /// The other one.
    pub from: Name,
}

// Written out, so that whoever owns one has one call at each exit, and not the drop of each field.
impl Drop for Binding {
    fn drop(self) {
        let Binding { name, from } = self;
        drop(name);
        drop(from);
    }
}

/// Binds a name to what another one stands for, over a session.
fn bind_on<I: Source, O: Sink>(
    session: &mut Session<I, O>,
    binding: &Binding,
) -> Result<(), CommandEnd>
    requires { session.old.is_over ≡ false }
    ensures talks { (s : Script rmi (Unit {0})) (k : ℕ) (links : List Linked)
        (given given2 : Option (List ℕ))
        → IsAt k links (seen_of (link_of I.half O.half session.old))
        → Stands s links given given2 (binds k binding.now.name binding.now.from)
        → Talks s (with_seen k (seen_of (link_of I.half O.half session.new)) links) given given2
        result }
    ensures apart { result ≢ Err CommandEnds.DialFault }
{
    match session.lookup(&binding.from) {
        Ok(found) => bind_found(session, found, &binding.name),
        Err(end) => Err(CommandEnd::Session(end)),
    }
}

/// Acknowledges a reference that was found, where its flag is set, and binds a name to it.
fn bind_found<I: Source, O: Sink>(
    session: &mut Session<I, O>,
    found: (Uid, LiveRef),
    name: &Name,
) -> Result<(), CommandEnd>
    requires { session.old.is_over ≡ false }
    ensures talks { (s : Script rmi (Unit {0})) (k : ℕ) (links : List Linked)
        (given given2 : Option (List ℕ))
        → IsAt k links (seen_of (link_of I.half O.half session.old))
        → Stands s links given given2
        (acks k (bytes_of_uid found.0) found.1
        (asks k (Bind name.now found.1) (λ finished. done tt)))
        → Talks s (with_seen k (seen_of (link_of I.half O.half session.new)) links) given given2
        result }
    ensures apart { result ≢ Err CommandEnds.DialFault }
{
    let (uid, reference) = found;
    bind_acknowledged(session, uid, &reference, name)
}

/// Acknowledges the Return of this identifier where the reference in it has its flag set, and binds a name to the reference.
fn bind_acknowledged<I: Source, O: Sink>(
    session: &mut Session<I, O>,
    uid: Uid,
    reference: &LiveRef,
    name: &Name,
) -> Result<(), CommandEnd>
    requires { session.old.is_over ≡ false }
    ensures talks { (s : Script rmi (Unit {0})) (k : ℕ) (links : List Linked)
        (given given2 : Option (List ℕ))
        → IsAt k links (seen_of (link_of I.half O.half session.old))
        → Stands s links given given2
        (acks k (bytes_of_uid uid) reference.now
        (asks k (Bind name.now reference.now) (λ finished. done tt)))
        → Talks s (with_seen k (seen_of (link_of I.half O.half session.new)) links) given given2
        result }
    ensures apart { result ≢ Err CommandEnds.DialFault }
{
    match acknowledge(session, uid, reference.result) {
        Ok(()) => bind_to(session, name, reference),
        Err(end) => Err(CommandEnd::Session(end)),
    }
}

/// Binds a name to a reference. The host of a reference that was read takes at most 65,535 bytes; where it took more, there would be no memory for it.
fn bind_to<I: Source, O: Sink>(
    session: &mut Session<I, O>,
    name: &Name,
    reference: &LiveRef,
) -> Result<(), CommandEnd>
    requires { session.old.is_over ≡ false }
    ensures talks { (s : Script rmi (Unit {0})) (k : ℕ) (links : List Linked)
        (given given2 : Option (List ℕ))
        → IsAt k links (seen_of (link_of I.half O.half session.old))
        → Stands s links given given2 (asks k (Bind name.now reference.now) (λ finished. done tt))
        → Talks s (with_seen k (seen_of (link_of I.half O.half session.new)) links) given given2
        result }
    ensures apart { result ≢ Err CommandEnds.DialFault }
{
    if encoded_len(&reference.host) > 65_535 {
        return Err(CommandEnd::Session(ClientEnd::OutOfMemory));
    }
    match session.bind(name, reference) {
        Ok(()) => Ok(()),
        Err(end) => Err(CommandEnd::Session(end)),
    }
}

/// Does so over the session of a link that was just dialled, and leaves its halves.
fn bind_with<I: Source + Drop, O: Sink + Drop>(
    talked: &mut Vec<Halves<I, O>>,
    session: Session<I, O>,
    binding: &Binding,
) -> Result<(), CommandEnd>
    requires open { session.is_over ≡ false }
    requires room { vec_len talked.old < vec_capacity talked.old }
    ensures talks { (s : Script rmi (Unit {0})) (b : Dialed) (given given2 : Option (List ℕ))
        → Stands s (linked b (seen_of (link_of I.half O.half session)) ∷ [])
        given given2 (binds 0 binding.now.name binding.now.from)
        → LeavesTalk I.half O.half s b given given2 talked.old.items talked.new.items result }
    ensures apart { result ≢ Err CommandEnds.DialFault }
{
    let mut session = session;
    let result = bind_on(&mut session, binding);
    put_away(talked, session.close());
    result
}

/// Does so over a link that was just dialled, and leaves its halves.
fn bind_over<I: Source + Drop, O: Sink + Drop, T: Drop>(
    alloc: Global,
    talked: &mut Vec<Halves<I, O>>,
    link: Link<I, O, T>,
    binding: &Binding,
) -> Result<(), CommandEnd>
    requires { vec_len talked.old < vec_capacity talked.old }
    ensures talks { (s : Script rmi (Unit {0})) (b : Dialed) (given given2 : Option (List ℕ))
        → Stands s (linked b (seen_of (link_at (I.half link.source) (O.half link.sink) 0)) ∷ [])
        given given2 (greets 0 link.host (binds 0 binding.now.name binding.now.from))
        → LeavesTalk I.half O.half s b given given2 talked.old.items talked.new.items result }
    ensures apart { result ≢ Err CommandEnds.DialFault }
{
    match begin(alloc, link) {
        Ok(session) => bind_with(talked, session, binding),
        Err(refusal) => Err(put_back(talked, refusal)),
    }
}

/// `bind HOST PORT NAME FROM`: dials the registry there, looks FROM up, acknowledges the reference where its flag is set, and binds it to NAME on the same link.  The link's halves are left in `talked`, shut.
///
/// `DialFault` comes only where the dialer's count of faults rose, `ReadFault` and `WriteFault` only where the link's did. Nothing is sent after the first
/// end.
pub fn bind<D: Dialer>(
    alloc: Global,
    dialer: &mut D,
    talked: &mut Vec<Halves<D::In, D::Out>>,
    place: &Place,
    binding: &Binding,
) -> Result<(), CommandEnd>
    ensures spoke { (given : Option (List ℕ))
        → Spoke (bind_script place.now binding.now.name binding.now.from)
        (D.dialing dialer.old).dialed (D.dialing dialer.new).dialed
        (map (ended_as D.In.half D.Out.half) talked.old.items)
        (map (ended_as D.In.half D.Out.half) talked.new.items) given given result }
    ensures fault { result ≡ Err CommandEnds.DialFault
        → Rose (D.dialing dialer.old).faults (D.dialing dialer.new).faults }
{
    if !has_room(talked, 1) {
        return Err(CommandEnd::Session(ClientEnd::OutOfMemory));
    }
    match dial(dialer, &place.host, &place.port) {
        Ok(link) => bind_over(alloc, talked, link, binding),
        Err(end) => Err(end),
    }
}
