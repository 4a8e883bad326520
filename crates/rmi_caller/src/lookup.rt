//! Looking remote objects up.
ghost use Rattle.std.specs.Prelude.{◌≡◌, ◌≢◌, ◌≤◌, Err, ◌<◌, pos, ℕ, length, codes, true, false, IfOk, IfErr, OnOk, OnErr};
ghost use Rattle.history.specs.declared.limits.TheConstants.{MAX_NAME_UNITS};
ghost use Rattle.rmi_client.specs.Sessions.{link_of};
ghost use Rattle.rmi_caller.specs.Finding.{AcksIf, AcksNot, Finds, Holds};
ghost use Rattle.mod_utf.specs.Texts.{units_of};
ghost use Rattle.rmi_caller.specs.declared.error.CallError.TheVariants as errors;
ghost use Rattle.wire_io.specs.Wire.{Rose};

use crate::client::Client;
use crate::connect::{SessionOf, connect};
use crate::error::{CallError, error_of};
use crate::exception::class_of;
use crate::remote::Remote;
use history::Name;
use java_shapes::LiveRef;
use mod_utf::units_of_text;
use object_ids::Uid;
use rmi_client::ClientEnd;
use std::alloc::Global;
use wire_io::Dialer;

/// The class of the exception that a registry answers where it has no such name.
const NOT_BOUND: &[u8] = b"java.rmi.NotBoundException";

/// Acknowledges a Return on this session, if a reference in it was made for a result.
fn acknowledge<D: Dialer>(
    session: &mut SessionOf<D>,
    uid: Uid,
    flagged: bool,
) -> Result<(), ClientEnd>
    ensures ok { OnOk result (AcksIf flagged uid
        (link_of D.In.half D.Out.half session.old) (link_of D.In.half D.Out.half session.new)) }
    ensures err { OnErr result (AcksNot uid
        (link_of D.In.half D.Out.half session.old) (link_of D.In.half D.Out.half session.new)) }
{
    if flagged { session.ack(uid) } else { Ok(()) }
}

/// Takes a lease on the object of a reference that a Return had, and acknowledges that Return on this session then, if the reference was made for a
/// result.
pub(crate) fn hold_found<D: Dialer>(
    client: &mut Client,
    dialer: &mut D,
    session: &mut SessionOf<D>,
    uid: Uid,
    reference: &LiveRef,
) -> Result<Remote<D>, CallError>
    ensures held { IfOk result
        (λ remote. Holds (D.dialing dialer.old) (D.dialing dialer.new) reference.now
        remote.object remote.table (link_of D.In.half D.Out.half remote.session)
        × AcksIf reference.now.result uid
        (link_of D.In.half D.Out.half session.old) (link_of D.In.half D.Out.half session.new)) }
    ensures refused { OnErr result (AcksNot uid
        (link_of D.In.half D.Out.half session.old) (link_of D.In.half D.Out.half session.new)) }
    ensures fault { result ≡ Err errors.DialFault
        → Rose (D.dialing dialer.old).faults (D.dialing dialer.new).faults }
{
    let vmid = client.identifier()?;
    let remote = Remote::hold(client.alloc, dialer, vmid, reference)?;
    match acknowledge::<D>(session, uid, reference.result) {
        Ok(()) => Ok(remote),
        Err(end) => Err(error_of(client.alloc, end)),
    }
}

/// A port, as a number of the type that references have.
fn number_of_port(port: u16) -> i32
    ensures { result ≡ pos port }
{
    i32::from(port)
}

/// The name of a registry that this text is. TooLong comes exactly where it has more than 255 units.
fn name_of(alloc: Global, text: &str) -> Result<Name, CallError>
    ensures name { IfOk result (λ name. name ≡ units_of text.now) }
    ensures apart { result ≢ Err errors.DialFault }
{
    match Name::new(units_of_text(alloc, text)?) {
        Ok(name) => Ok(name),
        Err(_long) => Err(CallError::TooLong),
    }
}

/// Returns true if units are these bytes of ASCII.
fn is_ascii(units: &[u16], bytes: &[u8]) -> bool {
    units.len() == bytes.len()
        && units
            .iter()
            .zip(bytes)
            .all(|(unit, byte)| *unit == u16::from(*byte))
}

/// Returns true if the end of a lookup is an exception of the class that says that the name is not bound.
fn is_not_bound(end: &ClientEnd) -> bool {
    match end {
        ClientEnd::RemoteFault(text) => is_ascii(class_of(text.as_slice()), NOT_BOUND),
        _ => false,
    }
}

/// Returns the error for the end of a lookup.
fn lookup_error(alloc: Global, end: ClientEnd) -> CallError
    ensures { result ≢ CallError.DialFault }
{
    if is_not_bound(&end) {
        CallError::NotBound
    } else {
        error_of(alloc, end)
    }
}

impl<D: Dialer> Remote<D> {
    /// Looks a name up in the registry at a port of a host, and takes a lease on the object that it stands for, over a connection of its own. Then it
    /// acknowledges the lookup.
    pub fn lookup(
        client: &mut Client,
        dialer: &mut D,
        host: &str,
        port: u16,
        name: &str,
    ) -> Result<Remote<D>, CallError>
        ensures found { IfOk result (λ remote. Finds (D.dialing dialer.old) (D.dialing dialer.new)
            (units_of host.now) (pos port) (units_of name.now)
            remote.object remote.table (link_of D.In.half D.Out.half remote.session)) }
        ensures fault { result ≡ Err errors.DialFault
            → Rose (D.dialing dialer.old).faults (D.dialing dialer.new).faults }
    {
        let name = name_of(client.alloc, name)?;
        let host = units_of_text(client.alloc, host)?;
        let port = number_of_port(port);
        let (mut session, _clock) = connect(client.alloc, dialer, &host, &port)?;
        match session.lookup(&name) {
            Ok((uid, reference)) => hold_found(client, dialer, &mut session, uid, &reference),
            Err(end) => Err(lookup_error(client.alloc, end)),
        }
    }
}
