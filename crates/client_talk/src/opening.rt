//! Links that a command dials and leaves behind.
ghost use Rattle.std.specs.Prelude.{◌≡◌, ◌≤◌, ◌<◌, ◌+◌, ℕ, [], ◌∷◌, ◌++◌, map, IfOk, IfErr, Ok, Err, true, false, vec_len, vec_capacity, MatchBool};
ghost use Rattle.wire_io.specs.Links.{Dials, accepted_as};
ghost use Rattle.wire_io.specs.Wire.{AreNewHalves};
ghost use Rattle.rmi_client.specs.Sessions.{Begins, link_at, link_of};
ghost use Rattle.client_talk.specs.Steps.{IsLeft};
ghost use Rattle.client_talk.specs.Sessions.{ended_as, Leaves};
ghost use Rattle.client_talk.specs.declared.end.CommandEnd.TheVariants as CommandEnds;

use crate::end::CommandEnd;
use rmi_client::{Refusal, Session};
use sequence::Units;
use std::alloc::Global;
use wire_io::{Dialer, Halves, Link, Sink, Source};

/// Returns whether there is room for so many further items. It makes the room where there is memory.
pub(crate) fn has_room<X>(items: &mut Vec<X>, more: usize) -> bool
    ensures room { MatchBool result
        (vec_len items.new + more ≤ vec_capacity items.new) (Unit {0}) }
    ensures items { items.new.items ≡ items.old.items }
{
    match items.reserve(more) {
        Ok(()) => true,
        Err(_) => false,
    }
}

/// Dials a port of a host.
pub(crate) fn dial<D: Dialer>(
    dialer: &mut D,
    host: &Units,
    port: &i32,
) -> Result<Link<D::In, D::Out, D::Ticks>, CommandEnd>
    ensures dials { Dials (accepted_as D.In.half D.Out.half D.Ticks.given)
        (D.dialing dialer.old) (D.dialing dialer.new) host.now port.now result }
    ensures halves { IfOk result
        (λ link. AreNewHalves (D.In.half link.source) (D.Out.half link.sink)) }
    ensures end { IfErr result (λ end. end ≡ CommandEnds.DialFault) }
{
    match dialer.dial(host, *port) {
        Ok(link) => Ok(link),
        Err(_) => Err(CommandEnd::DialFault),
    }
}

/// Begins a session over a link.
pub(crate) fn begin<I: Source + Drop, O: Sink + Drop, T: Drop>(
    alloc: Global,
    link: Link<I, O, T>,
) -> Result<Session<I, O>, Refusal<I, O>>
    ensures begins { IfOk result (λ session. Begins {A = Unit {0}} link.host
        (link_at (I.half link.source) (O.half link.sink) 0) (link_of I.half O.half session)
        (Ok tt)) }
    ensures open { IfOk result (λ session. session.is_over ≡ false) }
    ensures refuses { IfErr result (λ refusal. (at : ℕ) × Begins {A = Unit {0}} link.host
        (link_at (I.half link.source) (O.half link.sink) 0)
        (link_at (I.half refusal.halves.source) (O.half refusal.halves.sink) at)
        (Err refusal.end)) }
{
    let Link {
        source,
        sink,
        clock: _,
        host,
        port: _,
    } = link;
    Session::begin(alloc, source, sink, &host)
}

/// Leaves the halves of a link, shut, behind the others.
pub(crate) fn put_away<I: Source + Drop, O: Sink + Drop>(
    talked: &mut Vec<Halves<I, O>>,
    halves: Halves<I, O>,
)
    requires room { vec_len talked.old < vec_capacity talked.old }
    ensures left { Leaves I.half O.half talked.old.items talked.new.items
        (I.half halves.source) (O.half halves.sink) }
    ensures len { vec_len talked.new ≡ vec_len talked.old + 1 }
    ensures capacity { vec_capacity talked.new ≡ vec_capacity talked.old }
{
    let Halves {
        mut source,
        mut sink,
    } = halves;
    source.shut();
    sink.shut();
    talked.push_reserved(Halves { source, sink });
}

/// Leaves the halves of a link over which no session began, shut, behind the others.
pub(crate) fn put_back<I: Source + Drop, O: Sink + Drop>(
    talked: &mut Vec<Halves<I, O>>,
    refusal: Refusal<I, O>,
) -> CommandEnd
    requires room { vec_len talked.old < vec_capacity talked.old }
    ensures end { result ≡ CommandEnds.Session refusal.end }
    ensures left { Leaves I.half O.half talked.old.items talked.new.items
        (I.half refusal.halves.source) (O.half refusal.halves.sink) }
{
    let (end, halves) = refusal.into_parts();
    put_away(talked, halves);
    CommandEnd::Session(end)
}
