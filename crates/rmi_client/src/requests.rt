//! The bytes of the calls that a client makes of the registry.
ghost use Rattle.std.specs.Prelude.{◌≡◌, ◌≤◌, ◌∷◌, [], Some, length, codes, IfOk, OnOk};
ghost use Rattle.mod_utf.specs.Utf.{utf};
ghost use Rattle.class_desc.specs.declared.slot.Item.TheVariants as listed;
ghost use Rattle.method_hash.specs.System.{registry_number};
ghost use Rattle.java_shapes.specs.Objects.{text_at};
ghost use Rattle.java_shapes.specs.Proxies.{ProxyAt};
ghost use Rattle.java_shapes.specs.Put.{Grows};
ghost use Rattle.java_shapes.specs.RefNotes.{ref_note};
ghost use Rattle.rmi_client.specs.Requests.{registry_head, sent_ref, IsBuiltCall, IsNameCall, IsListCall, IsBindCall};

use class_desc::{Item, Items, Slot};
use history::Name;
use java_shapes::{LiveRef, put_live_ref};
use jrmp_frames::{CallHead, call_bytes};
use method_hash::RegistryMethod;
use mod_utf::utf::units_of_ascii;
use sequence::ByteList;
use ser_values::{BuildFault, Builder};
use std::alloc::{AllocError, Global};
use system_ids::{REGISTRY_ID, REGISTRY_INTERFACE};

/// The operation number of a method of the registry.
fn registry_number(method: RegistryMethod) -> i32
    ensures { result ≡ registry_number method }
{
    match method {
        RegistryMethod::Bind => 0,
        RegistryMethod::List => 1,
        RegistryMethod::Lookup => 2,
        RegistryMethod::Rebind => 3,
        RegistryMethod::Unbind => 4,
    }
}

/// The head of a call of the registry.
fn registry_head(method: RegistryMethod) -> CallHead
    ensures { result ≡ registry_head method }
{
    CallHead {
        id: REGISTRY_ID,
        operation: registry_number(method),
        hash: REGISTRY_INTERFACE,
    }
}

/// The call whose arguments are these items over a builder's nodes.
pub(crate) fn built_call(
    alloc: Global,
    head: CallHead,
    b: Builder,
    arguments: Items,
) -> Result<ByteList, BuildFault>
    ensures { IfOk result (IsBuiltCall head b arguments) }
{
    let graph = b.finish(arguments)?;
    let bytes = call_bytes(alloc, head, &graph)?;
    Ok(bytes)
}

/// Puts a name.
fn put_name(alloc: Global, b: &mut Builder, name: &Name) -> Result<Slot, BuildFault>
    ensures { IfOk result (λ slot. text_at b.new slot ≡ Some name.now) }
{
    b.text(name.units().copy(alloc)?)
}

/// One reference as the arguments of a call.
fn one_reference(alloc: Global, slot: Slot) -> Result<Items, AllocError>
    ensures { IfOk result (λ arguments. arguments ≡ listed.Ref slot ∷ []) }
{
    let mut arguments = Items::new(alloc);
    arguments.push(Item::Ref(slot))?;
    Ok(arguments)
}

/// The call of a method of the registry whose one argument is a name.
pub(crate) fn name_call(
    alloc: Global,
    method: RegistryMethod,
    name: &Name,
) -> Result<ByteList, BuildFault>
    ensures { IfOk result (IsNameCall method name.now) }
{
    let mut b = Builder::new(alloc);
    let slot = put_name(alloc, &mut b, name)?;
    let arguments = one_reference(alloc, slot)?;
    built_call(alloc, registry_head(method), b, arguments)
}

/// The call that lists the names.
pub(crate) fn list_call(alloc: Global) -> Result<ByteList, BuildFault>
    ensures { IfOk result IsListCall }
{
    built_call(
        alloc,
        registry_head(RegistryMethod::List),
        Builder::new(alloc),
        Items::new(alloc),
    )
}

/// Returns a reference as it is sent in a call: it was not made for a result.
pub fn sent_ref(alloc: Global, reference: &LiveRef) -> Result<LiveRef, AllocError>
    ensures { IfOk result (λ sent. sent ≡ sent_ref reference.now) }
{
    Ok(LiveRef {
        host: reference.host.copy(alloc)?,
        port: reference.port,
        id: reference.id,
        result: false,
    })
}

/// Puts a reference, as a proxy of `java.rmi.Remote` alone.
fn put_reference(alloc: Global, b: &mut Builder, reference: &LiveRef) -> Result<Slot, BuildFault>
    requires { length (utf reference.now.host) ≤ 65535 }
    ensures put { IfOk result
        (ProxyAt b.new (codes "java.rmi.Remote") (ref_note (sent_ref reference.now))) }
    ensures grown { OnOk result (Grows 16 b.old b.new) }
{
    let interface = units_of_ascii(alloc, b"java.rmi.Remote")?;
    let sent = sent_ref(alloc, reference)?;
    put_live_ref(alloc, b, &interface, &sent)
}

/// Two references as the arguments of a call.
fn two_references(alloc: Global, first: Slot, second: Slot) -> Result<Items, AllocError>
    ensures { IfOk result (λ arguments. arguments ≡ listed.Ref first ∷ listed.Ref second ∷ []) }
{
    let mut arguments = Items::new(alloc);
    arguments.push(Item::Ref(first))?;
    arguments.push(Item::Ref(second))?;
    Ok(arguments)
}

/// The call that binds a name to a reference.
pub(crate) fn bind_call(
    alloc: Global,
    name: &Name,
    reference: &LiveRef,
) -> Result<ByteList, BuildFault>
    requires { length (utf reference.now.host) ≤ 65535 }
    ensures { IfOk result (IsBindCall name.now reference.now) }
{
    let mut b = Builder::new(alloc);
    let named = put_name(alloc, &mut b, name)?;
    let bound = put_reference(alloc, &mut b, reference)?;
    let arguments = two_references(alloc, named, bound)?;
    built_call(alloc, registry_head(RegistryMethod::Bind), b, arguments)
}
