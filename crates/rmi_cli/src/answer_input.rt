//! `answer` over the program's input and output.
ghost use Rattle.std.specs.Prelude.{◌≡◌, IfOk};
ghost use Rattle.wire_io.specs.Wire.{wires};
ghost use Rattle.call_dispatch.specs.End.{IsWriteFault};
ghost use Rattle.system_objects.specs.Terms.{terms_of};
ghost use Rattle.sample_app.specs.Kinds.{sample_kinds};
ghost use Rattle.rmi_cli.specs.Answer.{answer_terms, ServesOne, ServesExactly};
ghost use Rattle.rmi_cli.specs.Opening.{served_opening};
ghost use Rattle.rmi_words.specs.Options.{IsInRange};
ghost use Rattle.rmi_cli.specs.Told.{ReadFailed, StayOpen, WriteFailed};

use crate::loopback::loopback_host;
use crate::opening::opened_space;
use call_dispatch::{Book, ConnEnd, Setup, serve_connection};
use conn_server::plan::{low_half, moment_of};
use object_ids::UidDraw;
use ports::DirectPort;
use rmi_words::LeaseOptions;
use sample_app::{SampleWorker, sample_book};
use space::Space;
use std::alloc::{AllocError, Global};
use wire_io::{Clock, Sink, Source};

/// The setup of a connection, the kinds of objects that it knows, and the space where its turns are made.
#[derive(Drop)]
struct AnswerParts {
    setup: Setup,
    book: Book,
    space: Space,
}

/// Serves the input and the output as one connection, over a sample space of its own, at the moments of the clock. Its identifiers and its
/// space's are made from the seed. The peer is 127.0.0.1, port 1234. Its calls are done by a sample worker that has counted nothing yet.
pub fn answer_input<S: Source, K: Sink, C: Clock>(
    alloc: Global,
    source: &mut S,
    sink: &mut K,
    clock: &mut C,
    seed: &[u64; 4],
    options: LeaseOptions,
) -> ConnEnd
    requires { IsInRange options }
    ensures serves { ServesOne seed.now options
        (wires S.half K.half source.old sink.old) (wires S.half K.half source.new sink.new)
        (C.given clock.old) (C.given clock.new) result }
    ensures exact { ServesExactly seed.now options
        (wires S.half K.half source.old sink.old) (wires S.half K.half source.new sink.new) result }
    ensures read_fault { result ≡ ConnEnd.ReadFault → ReadFailed S.half source.old source.new }
    ensures write_fault { IsWriteFault result → WriteFailed K.half sink.old sink.new }
    ensures open { StayOpen S.half K.half source.old sink.old source.new sink.new }
{
    let mut parts = match answer_parts(alloc, seed, options) {
        Ok(parts) => parts,
        Err(_) => return ConnEnd::OutOfMemory,
    };
    let mut port = DirectPort::new(alloc, &mut parts.space, 1);
    let mut worker = SampleWorker::new(alloc);
    serve_connection(
        alloc,
        source,
        sink,
        clock,
        &mut port,
        &mut worker,
        &parts.book,
        &mut parts.setup,
    )
}

/// Returns the setup of the connection, the sample kinds and the sample space.
fn answer_parts(
    alloc: Global,
    seed: &[u64; 4],
    options: LeaseOptions,
) -> Result<AnswerParts, AllocError>
    requires { IsInRange options }
    ensures terms { IfOk result (λ parts. terms_of parts.book parts.setup
        ≡ answer_terms seed.now options.binding) }
    ensures drawn { IfOk result (λ parts. parts.setup.draw.drawn ≡ 0) }
    ensures space { IfOk result (λ parts. parts.space ≡ served_opening seed.now options) }
{
    let setup = setup_of(alloc, seed, options.binding)?;
    let book = sample_book(alloc)?;
    let space = opened_space(alloc, seed, options)?;
    Ok(AnswerParts { setup, book, space })
}

/// Returns the setup of the connection, where clients may bind names or not.
pub fn setup_of(alloc: Global, seed: &[u64; 4], binding: bool) -> Result<Setup, AllocError>
    ensures terms { IfOk result (λ setup. terms_of sample_kinds setup
        ≡ answer_terms seed.now binding) }
    ensures drawn { IfOk result (λ setup. setup.draw.drawn ≡ 0) }
{
    Ok(Setup {
        by: 1,
        peer_host: loopback_host(alloc)?,
        peer_port: 1234,
        host: loopback_host(alloc)?,
        port: 1099,
        binding,
        draw: UidDraw::new(low_half(seed[0].wrapping_add(1)), moment_of(seed[1]) as i64),
        mark: seed[2].to_be_bytes(),
    })
}
