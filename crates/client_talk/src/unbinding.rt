//! `unbind`: a name of a registry stands for nothing.
ghost use Rattle.std.specs.Prelude.{◌≡◌, ◌≢◌, ◌<◌, ℕ, List, [], ◌∷◌, map, Option, Err, false, vec_len, vec_capacity};
ghost use Rattle.wire_io.specs.Wire.{Rose};
ghost use Rattle.wire_io.specs.Links.{Dialed};
ghost use Rattle.rmi_client.specs.Sessions.{link_at, link_of};
ghost use Rattle.client_talk.specs.Scripts.{Script};
ghost use Rattle.client_talk.specs.Talk.{Linked, linked, Talks};
ghost use Rattle.client_talk.specs.Steps.{IsAt, Stands, Spoke, with_seen};
ghost use Rattle.client_talk.specs.Sessions.{seen_of, ended_as, LeavesTalk};
ghost use Rattle.client_talk.specs.Rmi.{rmi};
ghost use Rattle.client_talk.specs.Commands.{greets, unbinds, unbind_script};
ghost use Rattle.client_talk.specs.declared.end.CommandEnd.TheVariants as CommandEnds;

use crate::end::CommandEnd;
use crate::opening::{begin, dial, has_room, put_away, put_back};
use crate::place::Place;
use history::Name;
use rmi_client::{ClientEnd, Session};
use std::alloc::Global;
use wire_io::{Dialer, Halves, Link, Sink, Source};

/// Unbinds a name of the registry over a session.
fn unbind_on<I: Source, O: Sink>(session: &mut Session<I, O>, name: &Name) -> Result<(), CommandEnd>
    requires { session.old.is_over ≡ false }
    ensures talks { (s : Script rmi (Unit {0})) (k : ℕ) (links : List Linked)
        (given given2 : Option (List ℕ))
        → IsAt k links (seen_of (link_of I.half O.half session.old))
        → Stands s links given given2 (unbinds k name.now)
        → Talks s (with_seen k (seen_of (link_of I.half O.half session.new)) links) given given2
        result }
    ensures apart { result ≢ Err CommandEnds.DialFault }
{
    match session.unbind(name) {
        Ok(()) => Ok(()),
        Err(end) => Err(CommandEnd::Session(end)),
    }
}

/// Does so over the session of a link that was just dialled, and leaves its halves.
fn unbind_with<I: Source + Drop, O: Sink + Drop>(
    talked: &mut Vec<Halves<I, O>>,
    session: Session<I, O>,
    name: &Name,
) -> Result<(), CommandEnd>
    requires open { session.is_over ≡ false }
    requires room { vec_len talked.old < vec_capacity talked.old }
    ensures talks { (s : Script rmi (Unit {0})) (b : Dialed) (given given2 : Option (List ℕ))
        → Stands s (linked b (seen_of (link_of I.half O.half session)) ∷ [])
        given given2 (unbinds 0 name.now)
        → LeavesTalk I.half O.half s b given given2 talked.old.items talked.new.items result }
    ensures apart { result ≢ Err CommandEnds.DialFault }
{
    let mut session = session;
    let result = unbind_on(&mut session, name);
    put_away(talked, session.close());
    result
}

/// Does so over a link that was just dialled, and leaves its halves.
fn unbind_over<I: Source + Drop, O: Sink + Drop, T: Drop>(
    alloc: Global,
    talked: &mut Vec<Halves<I, O>>,
    link: Link<I, O, T>,
    name: &Name,
) -> Result<(), CommandEnd>
    requires { vec_len talked.old < vec_capacity talked.old }
    ensures talks { (s : Script rmi (Unit {0})) (b : Dialed) (given given2 : Option (List ℕ))
        → Stands s (linked b (seen_of (link_at (I.half link.source) (O.half link.sink) 0)) ∷ [])
        given given2 (greets 0 link.host (unbinds 0 name.now))
        → LeavesTalk I.half O.half s b given given2 talked.old.items talked.new.items result }
    ensures apart { result ≢ Err CommandEnds.DialFault }
{
    match begin(alloc, link) {
        Ok(session) => unbind_with(talked, session, name),
        Err(refusal) => Err(put_back(talked, refusal)),
    }
}

/// `unbind HOST PORT NAME`: dials the registry there and unbinds the name.  The link's halves are left in `talked`, shut.
///
/// `DialFault` comes only where the dialer's count of faults rose, `ReadFault` and `WriteFault` only where the link's did. Nothing is sent after the first
/// end.
pub fn unbind<D: Dialer>(
    alloc: Global,
    dialer: &mut D,
    talked: &mut Vec<Halves<D::In, D::Out>>,
    place: &Place,
    name: &Name,
) -> Result<(), CommandEnd>
    ensures spoke { (given : Option (List ℕ)) → Spoke (unbind_script place.now name.now)
        (D.dialing dialer.old).dialed (D.dialing dialer.new).dialed
        (map (ended_as D.In.half D.Out.half) talked.old.items)
        (map (ended_as D.In.half D.Out.half) talked.new.items) given given result }
    ensures fault { result ≡ Err CommandEnds.DialFault
        → Rose (D.dialing dialer.old).faults (D.dialing dialer.new).faults }
{
    if !has_room(talked, 1) {
        return Err(CommandEnd::Session(ClientEnd::OutOfMemory));
    }
    match dial(dialer, &place.host, &place.port) {
        Ok(link) => unbind_over(alloc, talked, link, name),
        Err(end) => Err(end),
    }
}
