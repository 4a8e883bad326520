//! The references that a command holds at a server, and the lease calls that it sends for them.
ghost use Rattle.std.specs.Prelude.{◌≡◌, ◌≢◌, ◌≤◌, ℕ, List, Option, Err, OnOk, IfOk, false, map};
ghost use Rattle.dgc_client.specs.declared.limits.TheConstants.{MAX_GRANTED_MS};
ghost use Rattle.dgc_client.specs.Log.{ClientCall};
ghost use Rattle.rmi_client.specs.Sessions.{link_of};
ghost use Rattle.client_talk.specs.Calling.{Lessee, Keeps, NotesPart, renewal, granting, renews, sends_due, holds, holds_each, releases, releases_each, ids_there};
ghost use Rattle.client_talk.specs.Contents.{CallAnswer};
ghost use Rattle.client_talk.specs.Rmi.{rmi};
ghost use Rattle.client_talk.specs.Scripts.{Script, asks};
ghost use Rattle.client_talk.specs.Sessions.{seen_of};
ghost use Rattle.client_talk.specs.Steps.{Asks, IsAt, Stands, Steps};
ghost use Rattle.client_talk.specs.Talk.{Linked};
ghost use Rattle.client_talk.specs.declared.end.CommandEnd.TheVariants as CommandEnds;

use crate::end::CommandEnd;
use crate::request::Caller;
use dgc_client::{ClientRef, ClientTable, Plan};
use object_ids::{ObjId, ObjIds};
use rmi_client::{Session, number_of_plan};
use std::alloc::{AllocError, Global};
use wire_io::{Clock, Sink, Source};

/// The references that a client holds at a server.
pub(crate) struct Leases {
    /// Where they take memory.
    pub(crate) alloc: Global,
    table: ClientTable,
    /// The duration that a dirty call asks for, in milliseconds.
    asked: i64,
}

// Written out, so that whoever owns one has one call at each exit, and not the drop of each field.
impl Drop for Leases {
    fn drop(self) {
        let Leases {
            alloc: _,
            table,
            asked: _,
        } = self;
        drop(table);
    }
}

impl Leases {
    ghost use Rattle.std.specs.Prelude.{[]};
    ghost use Rattle.client_talk.specs.Calling.{lessee_of};

    /// Those of a client that made no lease calls.
    pub(crate) fn new(caller: &Caller) -> Result<Leases, AllocError>
        ensures { IfOk result (λ leases. Keeps (lessee_of caller.now) leases []) }
    {
        match caller.vmid.copy(caller.alloc) {
            Ok(vmid) => Ok(Leases {
                alloc: caller.alloc,
                table: ClientTable::new(caller.alloc, vmid, caller.first),
                asked: caller.asked,
            }),
            Err(refused) => Err(refused),
        }
    }

    /// The objects of the references, in the order of registration.
    pub(crate) fn ids(&self) -> Result<ObjIds, AllocError>
        ensures { IfOk result (λ ids. (lessee : Lessee) (log : List ClientCall)
            → Keeps lessee self.now log → ids ≡ ids_there lessee log) }
    {
        match self.table.refs().list(self.alloc) {
            Ok(refs) => ids_of(self.alloc, refs.as_slice()),
            Err(refused) => Err(refused),
        }
    }
}

/// The objects of references.
fn ids_of(alloc: Global, refs: &[ClientRef]) -> Result<ObjIds, AllocError>
    ensures { IfOk result (λ ids. ids ≡ map (λ r. r.id) refs.now) }
{
    let mut ids = ObjIds::new(alloc);
    for reference in refs {
        ids.push(reference.id)?;
    }
    Ok(ids)
}

/// Sends a lease call. The answer is for how many milliseconds the lease is granted.
fn send<I: Source, O: Sink>(
    session: &mut Session<I, O>,
    leases: &Leases,
    plan: &Plan,
) -> Result<u64, CommandEnd>
    requires { session.old.is_over ≡ false }
    ensures asks { (lessee : Lessee) (log : List ClientCall)
        → Keeps lessee leases.now log → Asks rmi
        (seen_of (link_of I.half O.half session.old)) (seen_of (link_of I.half O.half session.new))
        (renewal lessee plan.now) (granting result) }
    ensures few { IfOk result (λ granted. granted ≤ MAX_GRANTED_MS) }
    ensures open { OnOk result (session.new.is_over ≡ false) }
    ensures apart { result ≢ Err CommandEnds.DialFault }
{
    match session.renew(leases.table.vmid(), plan, leases.asked) {
        Ok(granted) => Ok(granted),
        Err(end) => Err(CommandEnd::Session(end)),
    }
}

/// Sends a dirty call, reads the clock and notes the answer.
fn renew<I: Source, O: Sink, T: Clock>(
    session: &mut Session<I, O>,
    ticks: &mut T,
    leases: &mut Leases,
    plan: &Plan,
) -> Result<(), CommandEnd>
    requires { session.old.is_over ≡ false }
    ensures notes { NotesPart (λ k lessee. renews k lessee plan.now)
        (seen_of (link_of I.half O.half session.old)) (seen_of (link_of I.half O.half session.new))
        (T.given ticks.old) (T.given ticks.new) leases.old leases.new result }
    ensures open { OnOk result (session.new.is_over ≡ false) }
    ensures apart { result ≢ Err CommandEnds.DialFault }
{
    match send(session, leases, plan) {
        Ok(granted) => {
            let now = ticks.now();
            leases.table.answered(number_of_plan(plan), granted, now);
            Ok(())
        }
        Err(end) => Err(end),
    }
}

/// Reads the clock and sends what is due.
fn send_due<I: Source, O: Sink, T: Clock>(
    session: &mut Session<I, O>,
    ticks: &mut T,
    leases: &mut Leases,
) -> Result<(), CommandEnd>
    requires { session.old.is_over ≡ false }
    ensures notes { NotesPart sends_due
        (seen_of (link_of I.half O.half session.old)) (seen_of (link_of I.half O.half session.new))
        (T.given ticks.old) (T.given ticks.new) leases.old leases.new result }
    ensures open { OnOk result (session.new.is_over ≡ false) }
    ensures apart { result ≢ Err CommandEnds.DialFault }
{
    let now = ticks.now();
    match leases.table.due(now) {
        Ok(Some(plan)) => renew(session, ticks, leases, &plan),
        Ok(None) => Ok(()),
        Err(fault) => Err(CommandEnd::Table(fault)),
    }
}

/// Registers a reference, unless it is there, and sends what is due then.
pub(crate) fn hold<I: Source, O: Sink, T: Clock>(
    session: &mut Session<I, O>,
    ticks: &mut T,
    leases: &mut Leases,
    object: &ObjId,
) -> Result<(), CommandEnd>
    requires { session.old.is_over ≡ false }
    ensures notes { NotesPart (λ k lessee. holds k lessee object.now)
        (seen_of (link_of I.half O.half session.old)) (seen_of (link_of I.half O.half session.new))
        (T.given ticks.old) (T.given ticks.new) leases.old leases.new result }
    ensures open { OnOk result (session.new.is_over ≡ false) }
    ensures apart { result ≢ Err CommandEnds.DialFault }
{
    match leases.table.register(*object) {
        Ok(true) => send_due(session, ticks, leases),
        Ok(false) => Ok(()),
        Err(fault) => Err(CommandEnd::Table(fault)),
    }
}

/// Registers each of these references, unless it is there, and sends what is due then.
pub(crate) fn hold_each<I: Source, O: Sink, T: Clock>(
    session: &mut Session<I, O>,
    ticks: &mut T,
    leases: &mut Leases,
    objects: &[ObjId],
) -> Result<(), CommandEnd>
    requires { session.old.is_over ≡ false }
    ensures notes { NotesPart (λ k lessee. holds_each k lessee objects.now)
        (seen_of (link_of I.half O.half session.old)) (seen_of (link_of I.half O.half session.new))
        (T.given ticks.old) (T.given ticks.new) leases.old leases.new result }
    ensures open { OnOk result (session.new.is_over ≡ false) }
    ensures apart { result ≢ Err CommandEnds.DialFault }
{
    for object in objects {
        match hold(session, ticks, leases, object) {
            Ok(()) => {}
            Err(end) => return Err(end),
        }
    }
    Ok(())
}

/// Sends a clean call.
fn send_clean<I: Source, O: Sink>(
    session: &mut Session<I, O>,
    leases: &Leases,
    plan: &Plan,
) -> Result<(), CommandEnd>
    requires { session.old.is_over ≡ false }
    ensures sends { (s : Script rmi CallAnswer) (k : ℕ) (links : List Linked)
        (given given2 : Option (List ℕ)) (lessee : Lessee) (log : List ClientCall)
        (next : Script rmi CallAnswer)
        → Keeps lessee leases.now log
        → IsAt k links (seen_of (link_of I.half O.half session.old))
        → Stands s links given given2 (asks k (renewal lessee plan.now) (λ reply. next))
        → Steps s k links (seen_of (link_of I.half O.half session.new))
        given given2 (λ u. next) result }
    ensures open { OnOk result (session.new.is_over ≡ false) }
    ensures apart { result ≢ Err CommandEnds.DialFault }
{
    match send(session, leases, plan) {
        Ok(_granted) => Ok(()),
        Err(end) => Err(end),
    }
}

/// Reads the clock, drops a reference, and sends its clean call.
fn release<I: Source, O: Sink, T: Clock>(
    session: &mut Session<I, O>,
    ticks: &mut T,
    leases: &mut Leases,
    object: &ObjId,
) -> Result<(), CommandEnd>
    requires { session.old.is_over ≡ false }
    ensures notes { NotesPart (λ k lessee. releases k lessee object.now)
        (seen_of (link_of I.half O.half session.old)) (seen_of (link_of I.half O.half session.new))
        (T.given ticks.old) (T.given ticks.new) leases.old leases.new result }
    ensures open { OnOk result (session.new.is_over ≡ false) }
    ensures apart { result ≢ Err CommandEnds.DialFault }
{
    let now = ticks.now();
    match leases.table.drop_ref(*object, now) {
        Ok(Some(plan)) => send_clean(session, leases, &plan),
        Ok(None) => Ok(()),
        Err(fault) => Err(CommandEnd::Table(fault)),
    }
}

/// Drops each of these references, and sends its clean call.
pub(crate) fn release_each<I: Source, O: Sink, T: Clock>(
    session: &mut Session<I, O>,
    ticks: &mut T,
    leases: &mut Leases,
    objects: &[ObjId],
) -> Result<(), CommandEnd>
    requires { session.old.is_over ≡ false }
    ensures notes { NotesPart (λ k lessee. releases_each k lessee objects.now)
        (seen_of (link_of I.half O.half session.old)) (seen_of (link_of I.half O.half session.new))
        (T.given ticks.old) (T.given ticks.new) leases.old leases.new result }
    ensures open { OnOk result (session.new.is_over ≡ false) }
    ensures apart { result ≢ Err CommandEnds.DialFault }
{
    for object in objects {
        match release(session, ticks, leases, object) {
            Ok(()) => {}
            Err(end) => return Err(end),
        }
    }
    Ok(())
}
