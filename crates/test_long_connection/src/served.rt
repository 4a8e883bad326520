//! Serving a connection over a space.
ghost use Rattle.std.specs.Prelude.{◌≡◌, ◌≤◌, pos, length, IfOk};
ghost use Rattle.mod_utf.specs.Utf.{utf};
ghost use Rattle.wire_io.specs.declared.limits.TheConstants.{MAX_HOST_BYTES};

use crate::messages::CallKind;
use crate::wires::{CallSource, CountingSink};
use call_dispatch::{ConnEnd, Setup, serve_connection};
use mod_utf::utf::{encoded_len, units_of_ascii};
use object_ids::UidDraw;
use ports::ToldPort;
use sample_app::{SampleWorker, sample_book};
use sequence::{MomentList, Units};
use space::Space;
use std::alloc::{AllocError, Global};
use wire_io::{MAX_HOST_BYTES, MemClock};

/// Draws the identifiers of a connection from its first one on.
fn first_draw() -> UidDraw
    ensures { result ≡ record { unique = pos 2; time = pos 2; drawn = 0 } }
{
    UidDraw::new(2, 2)
}

/// The text `127.0.0.1`. It is refused only for want of memory.
fn this_host(alloc: Global) -> Result<Units, AllocError>
    ensures { IfOk result (λ host. length (utf host) ≤ MAX_HOST_BYTES) }
{
    let host = units_of_ascii(alloc, b"127.0.0.1")?;
    if encoded_len(&host) > MAX_HOST_BYTES {
        return Err(AllocError);
    }
    Ok(host)
}

/// The settings of the connection.
fn setup(alloc: Global) -> Result<Setup, AllocError>
    ensures draw { IfOk result
        (λ setup. setup.draw ≡ record { unique = pos 2; time = pos 2; drawn = 0 }) }
    ensures peer_host { IfOk result (λ setup. length (utf setup.peer_host) ≤ MAX_HOST_BYTES) }
    ensures host { IfOk result (λ setup. length (utf setup.host) ≤ MAX_HOST_BYTES) }
{
    Ok(Setup {
        by: 1,
        peer_host: this_host(alloc)?,
        peer_port: 1234,
        host: this_host(alloc)?,
        port: 1099,
        binding: false,
        draw: first_draw(),
        mark: [0; 8],
    })
}

/// Serves a client on one connection, at the moment 0.
fn serve_client(
    alloc: Global,
    space: &mut Space,
    source: &mut CallSource,
    sink: &mut CountingSink,
) -> Result<ConnEnd, AllocError> {
    let book = sample_book(alloc)?;
    let mut setup = setup(alloc)?;
    let mut clock = MemClock::new(MomentList::new(alloc));
    let mut port = ToldPort::new_told(space, 1);
    let mut worker = SampleWorker::new(alloc);
    let end = serve_connection(
        alloc,
        source,
        sink,
        &mut clock,
        &mut port,
        &mut worker,
        &book,
        &mut setup,
    );
    Ok(end)
}

/// Serves a client that makes so many calls of a kind on one connection.
pub(crate) fn serve_calls(
    alloc: Global,
    space: &mut Space,
    sink: &mut CountingSink,
    kind: CallKind,
    calls: u32,
) -> Result<ConnEnd, AllocError> {
    let call = kind.bytes(alloc)?;
    let acknowledged = kind.is_acknowledged();
    let mut source = CallSource::new(alloc, call.as_slice(), calls, first_draw(), acknowledged)?;
    serve_client(alloc, space, &mut source, sink)
}
