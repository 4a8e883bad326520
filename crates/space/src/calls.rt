//! The lease table's part of a request.
ghost use Rattle.std.specs.Prelude.{◌≡◌, ◌<◌, ◌++◌, ◌∷◌, filter, true, IfOk, OnOk, OnErr};
ghost use Rattle.std.specs.List.{list_all};
ghost use Rattle.history.specs.LeaseCalls.{call_with};
ghost use Rattle.history.specs.declared.limits.TheConstants.{END_OF_TIME};
ghost use Rattle.export_table.specs.ExportRows.{is_exported};
ghost use Rattle.dgc_server.specs.Counts.{dirty_call, clean_call};
ghost use Rattle.dgc_server.specs.StandsForCalls.{StandsFor};
ghost use Rattle.space.specs.Acts.{ForEachLogBy, call_refusal, lease_refusal, Agrees};
ghost use Rattle.space.specs.Faults.{refused_for};

use crate::asks::is_exported;
use dgc_server::{LeaseFault, Leases};
use export_table::Exports;
use history::{Ask, Refused};
use object_ids::{FullKind, ObjId, ObjIds, Vmid};
use std::alloc::{AllocError, Global};

/// A dirty call but for its objects.
#[derive(Clone, Copy)]
struct DirtyCall<'a> {
    /// The client that makes it.
    client: &'a Vmid,
    /// Its number among those of the client.
    number: i64,
    /// The lease that it asks for, in milliseconds.
    asked: i64,
    /// The moment of the call, in milliseconds.
    moment: u64,
}

/// A clean call but for its objects.
#[derive(Clone, Copy)]
struct CleanCall<'a> {
    /// The client that makes it.
    client: &'a Vmid,
    /// Its number among those of the client.
    number: i64,
    /// True where its number is remembered for good.
    strong: bool,
    /// The moment of the call, in milliseconds.
    moment: u64,
}

/// Tells the lease table of an ask at a moment. After a refusal it is as it was.
pub(crate) fn tell(
    alloc: Global,
    leases: &mut Leases,
    exports: &Exports,
    now: u64,
    ask: &Ask,
) -> Result<(), Refused>
    requires { now < END_OF_TIME }
    ensures ok { OnOk result
        (ForEachLogBy now leases.old (λ lease calls. StandsFor lease leases.new now
        (call_with (is_exported exports.now.rows) now ask.now ++ calls))) }
    ensures refusal { ForEachLogBy now leases.old (λ lease calls. Agrees
        (lease_refusal lease now calls (call_with (is_exported exports.now.rows) now ask.now))
        result) }
    ensures err { OnErr result (leases.new ≡ leases.old) }
{
    match ask {
        Ask::Dirty {
            client,
            number,
            asked,
            objects: named,
        } => {
            let call = DirtyCall {
                client,
                number: *number,
                asked: *asked,
                moment: now,
            };
            tell_dirty(alloc, leases, exports, &call, named)
        }
        Ask::Clean {
            client,
            number,
            objects: named,
            strong,
        } => {
            let call = CleanCall {
                client,
                number: *number,
                strong: *strong,
                moment: now,
            };
            tell_clean(alloc, leases, exports, &call, named)
        }
        _ => {
            leases.lapse(now);
            Ok(())
        }
    }
}

fn tell_dirty(
    alloc: Global,
    leases: &mut Leases,
    exports: &Exports,
    call: &DirtyCall<'_>,
    named: &ObjIds,
) -> Result<(), Refused>
    requires { call.now.moment < END_OF_TIME }
    ensures ok { OnOk result
        (ForEachLogBy call.now.moment leases.old (λ lease calls. StandsFor lease leases.new
        call.now.moment
        (dirty_call call.now.moment call.now.client.now call.now.number call.now.asked
        (filter (is_exported exports.now.rows) named.now) ∷ calls))) }
    ensures refusal { ForEachLogBy call.now.moment leases.old (λ lease calls. Agrees
        (call_refusal lease call.now.moment calls
        (dirty_call call.now.moment call.now.client.now call.now.number call.now.asked
        (filter (is_exported exports.now.rows) named.now))) result) }
    ensures err { OnErr result (leases.new ≡ leases.old) }
{
    if are_exported(exports, named) {
        return take_dirty(leases, call, named);
    }
    let live = live_among(alloc, exports, named)?;
    take_dirty(leases, call, &live)
}

/// Tells the lease table of a dirty of these objects.
fn take_dirty(leases: &mut Leases, call: &DirtyCall<'_>, live: &ObjIds) -> Result<(), Refused>
    requires { call.now.moment < END_OF_TIME }
    ensures ok { OnOk result
        (ForEachLogBy call.now.moment leases.old (λ lease calls. StandsFor lease leases.new
        call.now.moment
        (dirty_call call.now.moment call.now.client.now call.now.number call.now.asked
        live.now ∷ calls))) }
    ensures refusal { ForEachLogBy call.now.moment leases.old (λ lease calls. Agrees
        (call_refusal lease call.now.moment calls
        (dirty_call call.now.moment call.now.client.now call.now.number call.now.asked live.now))
        result) }
    ensures err { OnErr result (leases.new ≡ leases.old) }
{
    match leases.dirty(call.client, call.number, call.asked, live, call.moment) {
        // The reply stands already: `reply_at` grants `grant` of the configured lease. By its clause `granted`, so does `dirty`.
        Ok(_granted) => Ok(()),
        Err(fault) => Err(refused_for(fault)),
    }
}

fn tell_clean(
    alloc: Global,
    leases: &mut Leases,
    exports: &Exports,
    call: &CleanCall<'_>,
    named: &ObjIds,
) -> Result<(), Refused>
    requires { call.now.moment < END_OF_TIME }
    ensures ok { OnOk result
        (ForEachLogBy call.now.moment leases.old (λ lease calls. StandsFor lease leases.new
        call.now.moment
        (clean_call call.now.moment call.now.client.now call.now.number
        (filter (is_exported exports.now.rows) named.now) call.now.strong ∷ calls))) }
    ensures refusal { ForEachLogBy call.now.moment leases.old (λ lease calls. Agrees
        (call_refusal lease call.now.moment calls
        (clean_call call.now.moment call.now.client.now call.now.number
        (filter (is_exported exports.now.rows) named.now) call.now.strong)) result) }
    ensures err { OnErr result (leases.new ≡ leases.old) }
{
    if are_exported(exports, named) {
        return take_clean(leases, call, named);
    }
    let live = live_among(alloc, exports, named)?;
    take_clean(leases, call, &live)
}

/// Tells the lease table of a clean of these objects.
fn take_clean(leases: &mut Leases, call: &CleanCall<'_>, live: &ObjIds) -> Result<(), Refused>
    requires { call.now.moment < END_OF_TIME }
    ensures ok { OnOk result
        (ForEachLogBy call.now.moment leases.old (λ lease calls. StandsFor lease leases.new
        call.now.moment
        (clean_call call.now.moment call.now.client.now call.now.number live.now
        call.now.strong ∷ calls))) }
    ensures refusal { ForEachLogBy call.now.moment leases.old (λ lease calls. Agrees
        (call_refusal lease call.now.moment calls
        (clean_call call.now.moment call.now.client.now call.now.number live.now
        call.now.strong)) result) }
    ensures err { OnErr result (leases.new ≡ leases.old) }
{
    match leases.clean(call.client, call.number, live, call.strong, call.moment) {
        Ok(()) => Ok(()),
        Err(fault) => Err(refused_for(fault)),
    }
}

/// Returns whether some objects are all exported.
fn are_all_exported(exports: &Exports, named: &[ObjId]) -> bool
    ensures { result ≡ list_all (is_exported exports.now.rows) named.now }
{
    named.iter().all(|object| is_exported(exports, object))
}

/// Returns whether some objects are all exported. Then those of them that are exported are all of them.
#[tactic(auto, using(crate::proofs::Refusals::filter_all))]
fn are_exported(exports: &Exports, named: &ObjIds) -> bool
    ensures { result ≡ true → filter (is_exported exports.now.rows) named.now ≡ named.now }
{
    are_all_exported(exports, named.as_slice())
}

/// Those of some objects that are exported.
pub(crate) fn live_among(
    alloc: Global,
    exports: &Exports,
    named: &ObjIds,
) -> Result<ObjIds, AllocError>
    ensures { IfOk result (λ live. live ≡ filter (is_exported exports.now.rows) named.now) }
{
    let live = named
        .as_slice()
        .iter()
        .copied()
        .filter(|object| is_exported(exports, object))
        .collect(alloc)?;
    Ok(ObjIds::from_vec(live))
}

/// The refusal of an event whose lease call is refused.
fn refused_for(fault: LeaseFault) -> Refused
    ensures { result ≡ refused_for fault }
{
    match fault {
        LeaseFault::Clients => Refused::Full(FullKind::Clients),
        LeaseFault::Pairs => Refused::Full(FullKind::Pairs),
        LeaseFault::OutOfMemory => Refused::OutOfMemory,
    }
}
