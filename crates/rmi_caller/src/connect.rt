//! Sessions over links that are dialled.
ghost use Rattle.std.specs.Prelude.{◌≡◌, Err, IfOk, OnOk, false};
ghost use Rattle.wire_io.specs.Wire.{Rose};
ghost use Rattle.rmi_client.specs.Sessions.{link_of};
ghost use Rattle.rmi_caller.specs.Finding.{Connects};
ghost use Rattle.rmi_caller.specs.declared.error.CallError.TheVariants as errors;

use crate::error::{CallError, error_of};
use rmi_client::Session;
use sequence::Units;
use std::alloc::Global;
use wire_io::{Dialer, Link};

/// The session of a link that a dialer gives.
pub(crate) type SessionOf<D> = Session<<D as Dialer>::In, <D as Dialer>::Out>;

/// Dials a port of a host, and opens a session over the link. DialFault comes only where the dialer's count of faults rose.
pub(crate) fn connect<D: Dialer>(
    alloc: Global,
    dialer: &mut D,
    host: &Units,
    port: &i32,
) -> Result<(SessionOf<D>, D::Ticks), CallError>
    ensures connects { IfOk result (λ made. Connects (D.dialing dialer.old) (D.dialing dialer.new)
        host.now port.now (link_of D.In.half D.Out.half made.0)) }
    ensures open { IfOk result (λ made. made.0.is_over ≡ false) }
    ensures same { OnOk result ((D.dialing dialer.new).faults ≡ (D.dialing dialer.old).faults) }
    ensures fault { result ≡ Err errors.DialFault
        → Rose (D.dialing dialer.old).faults (D.dialing dialer.new).faults }
{
    let Ok(link) = dialer.dial(host, *port) else {
        return Err(CallError::DialFault);
    };
    let Link {
        source,
        sink,
        clock,
        host,
        port: _,
    } = link;
    match Session::begin(alloc, source, sink, &host) {
        Ok(session) => Ok((session, clock)),
        Err(refusal) => Err(error_of(alloc, refusal.into_parts().0)),
    }
}
