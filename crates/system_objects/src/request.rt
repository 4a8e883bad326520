//! The requests that calls of the registry and the collector make.
ghost use Rattle.std.specs.Prelude.{◌≡◌, [], None, IfOk};
ghost use Rattle.history.specs.declared.asks.Ask.TheVariants.{Dirty};
ghost use Rattle.system_ids.specs.declared.methods.SystemMethod.TheVariants.{Collector};
ghost use Rattle.system_objects.specs.SystemRequests.{Finds, FindsArgument, FindsRequest, IsRequest, bind_of, name_and_object, name_to_change, clean_of, client_draws, client_or, collector_request, request_of, dirty_of, lease_in, live_ref_in, lookup_of, number_in, objids_in, own_object, rebind_of, reference_in, registry_request, short_name, name_to_find, text_in, truth_in, unbind_of, name_to_unbind, unnamed, vmid_in};
ghost use Rattle.system_objects.specs.Terms.{terms_of};

use crate::setup::Setup;
use class_desc::Slot;
use history::{Ask, Name};
use java_shapes::{
    LeaseView, LiveRef, ShapeFault, as_lease, as_live_ref, as_objids, as_text, as_vmid, is_local,
};
use jrmp_frames::{Arg, Arguments};
use method_hash::{CollectorMethod, RegistryMethod};
use object_ids::{ObjId, ObjIds, Uid, Vmid};
use sequence::{ByteList, Units};
use ser_values::Value;
use std::alloc::{AllocError, Global};
use system_ids::SystemMethod;

/// Why a call of the registry or the collector is rejected before any turn.
#[derive(Clone, Copy)]
pub enum Rejection {
    /// An argument is none of its method's.
    WrongArgument,
    /// Names can't be bound or unbound over this connection.
    BindingClosed,
    /// A name has more than 255 units.
    NameTooLong,
    /// A reference to be bound is of another host or port than the server's own.
    ForeignReference,
}

/// The part of a request that its Return needs.
pub enum ReplyContext {
    /// Nothing.
    Nothing,
    /// The client of a dirty call.
    Client(Vmid),
    /// The name to bind, unbind or look up.
    Name(Name),
}

// Written out, so that whoever owns one has one call at each exit, and not the drop of each variant.
impl Drop for ReplyContext {
    fn drop(self) {
        match self {
            ReplyContext::Nothing => {}
            ReplyContext::Client(client) => drop(client),
            ReplyContext::Name(name) => drop(name),
        }
    }
}

/// A call of the registry or the collector, as a request to the space.
#[derive(Drop)]
pub enum SystemRequest {
    /// The call is rejected.
    Rejected(Rejection),
    /// The request, and the part of it that its Return needs.
    Asks(Ask, ReplyContext),
    /// The same of a dirty whose lease names no client: it asks for the client that was made for it.
    AsksForNew(Ask, ReplyContext),
}

/// Why a call makes no request.
#[derive(Clone, Copy)]
enum NoRequest {
    /// The call is rejected.
    Rejected(Rejection),
    /// There was no memory.
    OutOfMemory,
}

impl From<AllocError> for NoRequest {
    ghost use Rattle.system_objects.specs.declared.request.NoRequest.TheVariants.{OutOfMemory};

    ghost from_gives = { λ _ stop. stop ≡ OutOfMemory };

    fn from(_error: AllocError) -> NoRequest {
        NoRequest::OutOfMemory
    }
}

impl From<ShapeFault> for NoRequest {
    ghost use Rattle.java_shapes.specs.declared.fault.ShapeFault.{ShapeFault};
    ghost use Rattle.system_objects.specs.SystemRequests.{stop_from};

    ghost from_gives = { λ fault stop. stop ≡ stop_from fault };

    fn from(fault: ShapeFault) -> NoRequest {
        match fault {
            ShapeFault::WrongShape => NoRequest::Rejected(Rejection::WrongArgument),
            ShapeFault::OutOfMemory => NoRequest::OutOfMemory,
        }
    }
}

// ---- arguments

/// The argument at a place, as a reference.
fn reference_in(arguments: &Arguments, place: usize) -> Result<Slot, NoRequest>
    ensures { FindsArgument result (reference_in arguments.now place) }
{
    match arguments.values.as_slice().get(place) {
        Some(Arg::Ref(slot)) => Ok(*slot),
        _ => Err(NoRequest::Rejected(Rejection::WrongArgument)),
    }
}

/// The argument at a place, as a number of 64 bits.
fn number_in(arguments: &Arguments, place: usize) -> Result<i64, NoRequest>
    ensures { FindsArgument result (number_in arguments.now place) }
{
    match arguments.values.as_slice().get(place) {
        Some(Arg::Prim(Value::Long(number))) => Ok(*number),
        _ => Err(NoRequest::Rejected(Rejection::WrongArgument)),
    }
}

/// The argument at a place, as a truth value.
fn truth_in(arguments: &Arguments, place: usize) -> Result<bool, NoRequest>
    ensures { FindsArgument result (truth_in arguments.now place) }
{
    match arguments.values.as_slice().get(place) {
        Some(Arg::Prim(Value::Boolean(truth))) => Ok(*truth),
        _ => Err(NoRequest::Rejected(Rejection::WrongArgument)),
    }
}

/// The argument at a place, as a text.
fn text_in(alloc: Global, arguments: &Arguments, place: usize) -> Result<Units, NoRequest>
    ensures { FindsArgument result (text_in arguments.now place) }
{
    let slot = reference_in(arguments, place)?;
    Ok(as_text(alloc, &arguments.graph, slot)?)
}

/// The argument at a place, as a reference to a remote object.
fn live_ref_in(alloc: Global, arguments: &Arguments, place: usize) -> Result<LiveRef, NoRequest>
    ensures { FindsArgument result (live_ref_in arguments.now place) }
{
    let slot = reference_in(arguments, place)?;
    Ok(as_live_ref(alloc, &arguments.graph, slot)?)
}

/// The argument at a place, as a list of objects.
fn objids_in(alloc: Global, arguments: &Arguments, place: usize) -> Result<ObjIds, NoRequest>
    ensures { FindsArgument result (objids_in arguments.now place) }
{
    let slot = reference_in(arguments, place)?;
    Ok(as_objids(alloc, &arguments.graph, slot)?)
}

/// The argument at a place, as a client.
fn vmid_in(alloc: Global, arguments: &Arguments, place: usize) -> Result<Vmid, NoRequest>
    ensures { FindsArgument result (vmid_in arguments.now place) }
{
    let slot = reference_in(arguments, place)?;
    Ok(as_vmid(alloc, &arguments.graph, slot)?)
}

/// The argument at a place, as a lease.
fn lease_in(alloc: Global, arguments: &Arguments, place: usize) -> Result<LeaseView, NoRequest>
    ensures { FindsArgument result (lease_in arguments.now place) }
{
    let slot = reference_in(arguments, place)?;
    Ok(as_lease(alloc, &arguments.graph, slot)?)
}

// ---- names

/// The name of these units.
fn short_name(units: Units) -> Result<Name, NoRequest>
    ensures { Finds result (short_name units) }
{
    match Name::new(units) {
        Ok(name) => Ok(name),
        Err(_long) => Err(NoRequest::Rejected(Rejection::NameTooLong)),
    }
}

/// The name to bind or unbind.
fn name_to_change(binding: bool, units: Units) -> Result<Name, NoRequest>
    ensures { Finds result (name_to_change binding units) }
{
    if !binding {
        return Err(NoRequest::Rejected(Rejection::BindingClosed));
    }
    short_name(units)
}

/// The name to look up.
fn name_to_find(alloc: Global, arguments: &Arguments) -> Result<Name, NoRequest>
    ensures { Finds result (name_to_find (text_in arguments.now 0)) }
{
    short_name(text_in(alloc, arguments, 0)?)
}

/// The name to unbind.
fn name_to_unbind(alloc: Global, setup: &Setup, arguments: &Arguments) -> Result<Name, NoRequest>
    ensures { Finds result (name_to_unbind (terms_of [] setup.now) (text_in arguments.now 0)) }
{
    name_to_change(setup.binding, text_in(alloc, arguments, 0)?)
}

/// The object of a reference to the server's own host and port.
fn own_object(setup: &Setup, reference: &LiveRef) -> Result<ObjId, NoRequest>
    ensures { Finds result (own_object (terms_of [] setup.now) reference.now) }
{
    if !is_local(reference, &setup.host, setup.port) {
        return Err(NoRequest::Rejected(Rejection::ForeignReference));
    }
    Ok(reference.id)
}

/// The name to bind, and the object.
fn name_and_object(
    alloc: Global,
    setup: &Setup,
    arguments: &Arguments,
) -> Result<(Name, ObjId), NoRequest>
    ensures { Finds result
        (name_and_object (terms_of [] setup.now) (text_in arguments.now 0)
        (live_ref_in arguments.now 1)) }
{
    let units = text_in(alloc, arguments, 0)?;
    let reference = live_ref_in(alloc, arguments, 1)?;
    let name = name_to_change(setup.binding, units)?;
    let object = own_object(setup, &reference)?;
    Ok((name, object))
}

/// A copy of a name, to be kept.
fn kept_name(alloc: Global, name: &Name) -> Result<ReplyContext, AllocError>
    ensures { IfOk result (λ kept. kept ≡ ReplyContext.Name name.now) }
{
    Ok(ReplyContext::Name(name.copy(alloc)?))
}

// ---- calls of the registry

/// Returns the request of a bind.
fn bind(alloc: Global, setup: &Setup, arguments: &Arguments) -> Result<SystemRequest, NoRequest>
    ensures { FindsRequest result
        (bind_of
        (name_and_object (terms_of [] setup.now) (text_in arguments.now 0)
        (live_ref_in arguments.now 1))) 0 }
{
    let (name, object) = name_and_object(alloc, setup, arguments)?;
    let kept = kept_name(alloc, &name)?;
    Ok(SystemRequest::Asks(Ask::Bind { name, object }, kept))
}

/// Returns the request of a rebind.
fn rebind(alloc: Global, setup: &Setup, arguments: &Arguments) -> Result<SystemRequest, NoRequest>
    ensures { FindsRequest result
        (rebind_of
        (name_and_object (terms_of [] setup.now) (text_in arguments.now 0)
        (live_ref_in arguments.now 1))) 0 }
{
    let (name, object) = name_and_object(alloc, setup, arguments)?;
    Ok(SystemRequest::Asks(Ask::Rebind { name, object }, ReplyContext::Nothing))
}

/// Returns the request of an unbind.
fn unbind(alloc: Global, setup: &Setup, arguments: &Arguments) -> Result<SystemRequest, NoRequest>
    ensures { FindsRequest result
        (unbind_of (name_to_unbind (terms_of [] setup.now) (text_in arguments.now 0))) 0 }
{
    let name = name_to_unbind(alloc, setup, arguments)?;
    let kept = kept_name(alloc, &name)?;
    Ok(SystemRequest::Asks(Ask::Unbind { name }, kept))
}

/// Returns the request of a lookup.
fn lookup(alloc: Global, arguments: &Arguments, uid: Uid) -> Result<SystemRequest, NoRequest>
    ensures { FindsRequest result (lookup_of uid (name_to_find (text_in arguments.now 0))) 0 }
{
    let name = name_to_find(alloc, arguments)?;
    let kept = kept_name(alloc, &name)?;
    Ok(SystemRequest::Asks(Ask::Lookup { name, uid }, kept))
}

/// Returns the request of a call of the registry.
fn registry_request(
    alloc: Global,
    setup: &Setup,
    method: RegistryMethod,
    arguments: &Arguments,
    uid: Uid,
) -> Result<SystemRequest, NoRequest>
    ensures { FindsRequest result
        (registry_request (terms_of [] setup.now) method arguments.now uid) 0 }
{
    match method {
        RegistryMethod::Bind => bind(alloc, setup, arguments),
        RegistryMethod::List => Ok(SystemRequest::Asks(Ask::List, ReplyContext::Nothing)),
        RegistryMethod::Lookup => lookup(alloc, arguments, uid),
        RegistryMethod::Rebind => rebind(alloc, setup, arguments),
        RegistryMethod::Unbind => unbind(alloc, setup, arguments),
    }
}

// ---- calls of the collector

/// Returns the request of a clean.
fn clean(alloc: Global, arguments: &Arguments) -> Result<SystemRequest, NoRequest>
    ensures { FindsRequest result
        (clean_of (number_in arguments.now 1) (truth_in arguments.now 3) (vmid_in arguments.now 2)
        (objids_in arguments.now 0)) 0 }
{
    let number = number_in(arguments, 1)?;
    let strong = truth_in(arguments, 3)?;
    let client = vmid_in(alloc, arguments, 2)?;
    let objects = objids_in(alloc, arguments, 0)?;
    let ask = Ask::Clean {
        client,
        number,
        objects,
        strong,
    };
    Ok(SystemRequest::Asks(ask, ReplyContext::Nothing))
}

/// The client of this identifier at the connection's mark.
fn client_at_mark(alloc: Global, setup: &Setup, uid: Uid) -> Result<Vmid, AllocError>
    ensures { IfOk result (λ client. client ≡ client_or (terms_of [] setup.now) uid None) }
{
    let mark = ByteList::from_slice(alloc, &setup.mark)?;
    match Vmid::new(mark, uid) {
        Some(client) => Ok(client),
        None => unreachable!(),
    }
}

/// A copy of a client, to be kept.
fn kept_client(alloc: Global, client: &Vmid) -> Result<ReplyContext, AllocError>
    ensures { IfOk result (λ kept. kept ≡ ReplyContext.Client client.now) }
{
    Ok(ReplyContext::Client(client.copy(alloc)?))
}

/// Returns the request of a dirty of this number, this client, this duration and these objects, and the part of it
/// that its Return needs.
fn dirty_with(
    alloc: Global,
    client: Vmid,
    number: i64,
    asked: i64,
    objects: ObjIds,
) -> Result<(Ask, ReplyContext), AllocError>
    ensures { IfOk result (λ parts. (parts.0 ≡ Dirty client number asked objects)
        × (parts.1 ≡ ReplyContext.Client client)) }
{
    let kept = kept_client(alloc, &client)?;
    let ask = Ask::Dirty {
        client,
        number,
        asked,
        objects,
    };
    Ok((ask, kept))
}

/// Returns the request of a dirty.
#[tactic(auto, using(crate::proofs::SystemAsks::no_objects))]
fn dirty(
    alloc: Global,
    setup: &Setup,
    arguments: &Arguments,
    uid: Uid,
) -> Result<SystemRequest, NoRequest>
    ensures { FindsRequest result
        (dirty_of (terms_of [] setup.now) uid (number_in arguments.now 1) (lease_in arguments.now 2)
        (objids_in arguments.now 0))
        (unnamed (number_in arguments.now 1) (lease_in arguments.now 2)
        (objids_in arguments.now 0)) }
{
    let number = number_in(arguments, 1)?;
    let lease = lease_in(alloc, arguments, 2)?;
    let objects = objids_in(alloc, arguments, 0)?;
    let asked = lease.value;
    if let Some(client) = lease.into_vmid() {
        let (ask, kept) = dirty_with(alloc, client, number, asked, objects)?;
        return Ok(SystemRequest::Asks(ask, kept));
    }
    let client = client_at_mark(alloc, setup, uid)?;
    let (ask, kept) = dirty_with(alloc, client, number, asked, objects)?;
    Ok(SystemRequest::AsksForNew(ask, kept))
}

/// Returns the request of a call of the collector.
#[tactic(auto, unfolding(crate::specs::SystemRequests::client_draws))]
fn collector_request(
    alloc: Global,
    setup: &Setup,
    method: CollectorMethod,
    arguments: &Arguments,
    client: Uid,
) -> Result<SystemRequest, NoRequest>
    ensures { FindsRequest result
        (collector_request (terms_of [] setup.now) method arguments.now client)
        (client_draws (Collector method) arguments.now) }
{
    match method {
        CollectorMethod::Clean => clean(alloc, arguments),
        CollectorMethod::Dirty => dirty(alloc, setup, arguments, client),
    }
}

// ---- any call

/// Returns the request of a call of a method with these arguments, or why it is rejected.
///
/// A wrong argument is found first, then a closed binding, a name that is too long, and a reference of another host or port.
///
/// One identifier is for a client that its lease doesn't name, the other for the Return. No request needs both, so the caller may pass one identifier
/// twice. The call fails only if there is no memory.
#[tactic(auto, unfolding(crate::specs::SystemRequests::request_of, crate::specs::SystemRequests::client_draws))]
pub fn request_for(
    alloc: Global,
    setup: &Setup,
    method: SystemMethod,
    arguments: &Arguments,
    client: Uid,
    uid: Uid,
) -> Result<SystemRequest, AllocError>
    ensures { IfOk result
        (IsRequest (request_of (terms_of [] setup.now) method arguments.now client uid)
        (client_draws method arguments.now)) }
{
    let request = match method {
        SystemMethod::Registry(method) => registry_request(alloc, setup, method, arguments, uid),
        SystemMethod::Collector(method) => {
            collector_request(alloc, setup, method, arguments, client)
        }
    };
    match request {
        Ok(request) => Ok(request),
        Err(NoRequest::Rejected(rejection)) => Ok(SystemRequest::Rejected(rejection)),
        Err(NoRequest::OutOfMemory) => Err(AllocError),
    }
}
