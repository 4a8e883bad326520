//! Endpoints: a host and a port.
ghost use Rattle.std.specs.Prelude.{◌≡◌, ◌≤◌, ◌++◌, length, IfOk, OnOk};
ghost use Rattle.wire_io.specs.Pulled.{pull_state};
ghost use Rattle.mod_utf.specs.Utf.{utf};
ghost use Rattle.jrmp_frames.specs.Frames.{endpoint, protocol_ack};
ghost use Rattle.jrmp_frames.specs.Gives.{GivesEndpoint, GivesSkipped};

use crate::fault::FrameFault;
use mod_utf::utf::encode;
use sequence::{ByteList, Units};
use std::alloc::{AllocError, Global};
use wire_io::pull::{Pull, PullEnd};
use wire_io::source::Source;

/// Takes a client's endpoint, whatever it is: a length of 16 bits, so many bytes, and 4 bytes. It takes no memory.
pub fn skip_endpoint<S: Source>(pull: &mut Pull<'_, S>) -> Result<(), FrameFault>
    ensures gives { GivesEndpoint (pull_state S.half pull.old) (pull_state S.half pull.new) result }
    ensures lent { pull.new.source.ghost_name ≡ pull.old.source.ghost_name }
{
    let high = pull.byte()?;
    let low = pull.byte()?;
    let host_len = high as u32 * 256 + low as u32;
    skip(pull, host_len + 4)?;
    Ok(())
}

/// Takes `n` bytes, whatever they are.
fn skip<S: Source>(pull: &mut Pull<'_, S>, n: u32) -> Result<(), PullEnd>
    ensures gives { GivesSkipped (pull_state S.half pull.old) (pull_state S.half pull.new) n
        result }
    ensures lent { pull.new.source.ghost_name ≡ pull.old.source.ghost_name }
{
    for _skipped in 0..n {
        pull.byte()?;
    }
    Ok(())
}

/// Appends an endpoint: the length of the host in 16 bits, the host, and the port.
fn put_endpoint(
    alloc: Global,
    out: &mut ByteList,
    host: &Units,
    port: i32,
) -> Result<(), AllocError>
    requires { length (utf host.now) ≤ 65535 }
    ensures { OnOk result (out.new ≡ out.old ++ endpoint host.now port) }
{
    let text = encode(alloc, host)?;
    out.append(&(text.len() as u16).to_be_bytes())?;
    out.append(text.as_slice())?;
    out.append(&port.to_be_bytes())
}

/// The acknowledgement of the stream protocol, `4E`: it tells the client its own host and port as the server sees them.
/// It is refused only for want of memory.
#[tactic(auto, unfolding(crate::specs::Frames::protocol_ack))]
pub fn ack_bytes(alloc: Global, host: &Units, port: i32) -> Result<ByteList, AllocError>
    requires { length (utf host.now) ≤ 65535 }
    ensures { IfOk result (λ bytes. bytes ≡ protocol_ack host.now port) }
{
    let mut out = ByteList::new(alloc);
    out.push(0x4E)?;
    put_endpoint(alloc, &mut out, host, port)?;
    Ok(out)
}

/// The endpoint that a client sends once the server has acknowledged the stream protocol: its own host and port.
/// It is refused only for want of memory.
pub fn endpoint_bytes(alloc: Global, host: &Units, port: i32) -> Result<ByteList, AllocError>
    requires { length (utf host.now) ≤ 65535 }
    ensures { IfOk result (λ bytes. bytes ≡ endpoint host.now port) }
{
    let mut out = ByteList::new(alloc);
    put_endpoint(alloc, &mut out, host, port)?;
    Ok(out)
}
