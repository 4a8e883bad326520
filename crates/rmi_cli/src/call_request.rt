//! The request of `call`, by its words and the seed of the run.
ghost use Rattle.std.specs.Prelude.{◌≡◌, ◌≤◌, length, IfOk};
ghost use Rattle.client_talk.specs.Calling.{lessee_of};
ghost use Rattle.method_hash.specs.Hash.{hash_of};
ghost use Rattle.rmi_cli.specs.Arguments.{argument_items, argument_nodes};
ghost use Rattle.rmi_cli.specs.Called.{IsRequestOf, caller_of};
ghost use Rattle.rmi_cli.specs.Talked.{place_of};

use crate::call_arguments::arguments_graph;
use client_talk::{Caller, MethodCall, Place, Request};
use conn_server::plan::{low_half, moment_of};
use method_hash::{Method, hash};
use object_ids::{Uid, Vmid};
use rmi_words::{Argument, CallWords, ServerAddress};
use sequence::ByteList;
use std::alloc::{AllocError, Global};

/// For how many milliseconds a lease is asked for, as Java's clients do.
const ASKED_MS: i64 = 600_000;

/// Returns the identifier of the client's virtual machine, by the seed of the run.
fn vmid_of(alloc: Global, seed: &[u64; 4]) -> Result<Vmid, AllocError>
    ensures { IfOk result (λ vmid. vmid ≡ (caller_of seed.now).client) }
{
    let addr = ByteList::from_slice(alloc, &seed[3].to_be_bytes())?;
    let uid = Uid {
        unique: low_half(seed[0]),
        time: moment_of(seed[1]) as i64,
        count: 0,
    };
    match Vmid::new(addr, uid) {
        Some(vmid) => Ok(vmid),
        None => unreachable!(),
    }
}

/// Returns the client that calls.
fn caller_of(alloc: Global, seed: &[u64; 4]) -> Result<Caller, AllocError>
    ensures { IfOk result (λ caller. lessee_of caller ≡ caller_of seed.now) }
{
    let vmid = vmid_of(alloc, seed)?;
    Ok(Caller {
        alloc,
        vmid,
        first: i64::MIN,
        asked: ASKED_MS,
    })
}

/// Returns where a server is dialled.
fn place_of(alloc: Global, server: &ServerAddress) -> Result<Place, AllocError>
    ensures { IfOk result (λ place. place ≡ place_of server.now) }
{
    Ok(Place {
        host: server.host.copy(alloc)?,
        port: i32::from(server.port),
    })
}

/// Returns the call of a method with arguments.
fn method_call(
    alloc: Global,
    method: &Method,
    arguments: &[Argument],
) -> Result<MethodCall, AllocError>
    requires { length arguments.now ≤ 255 }
    ensures hash { IfOk result (λ call. call.hash ≡ hash_of method.now.text) }
    ensures nodes { IfOk result (λ call. call.arguments.nodes ≡ argument_nodes arguments.now) }
    ensures items { IfOk result (λ call. call.arguments.items ≡ argument_items arguments.now) }
    ensures result { IfOk result (λ call. call.result ≡ method.now.result) }
{
    let arguments = arguments_graph(alloc, arguments)?;
    Ok(MethodCall {
        hash: hash(method),
        arguments,
        result: method.result,
    })
}

/// Returns the call that words ask for, by the client that the seed gives. It is refused only for want of memory.
pub(crate) fn request_of(
    alloc: Global,
    seed: &[u64; 4],
    call: &CallWords,
) -> Result<Request, AllocError>
    requires { length call.now.arguments ≤ 255 }
    ensures { IfOk result (IsRequestOf seed.now call.now) }
{
    let caller = caller_of(alloc, seed)?;
    let method = method_call(alloc, &call.method, call.arguments.as_slice())?;
    let place = place_of(alloc, &call.server)?;
    let name = call.name.copy(alloc)?;
    Ok(Request {
        caller,
        place,
        name,
        method,
    })
}
