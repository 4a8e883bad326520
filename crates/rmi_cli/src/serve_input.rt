//! `serve` over the program's listener and output.
ghost use Rattle.std.specs.Prelude.{◌≡◌, ◌≢◌, ◌≤◌, true, length, IfOk, IfSome};
ghost use Rattle.mod_utf.specs.Utf.{utf};
ghost use Rattle.conn_server.specs.Reports.{ServesLinks};
ghost use Rattle.conn_server.specs.Stops.{IsLostLink};
ghost use Rattle.conn_server.specs.declared.plan.TheConstants.{MAX_LINKS};
ghost use Rattle.wire_io.specs.declared.limits.TheConstants.{MAX_HOST_BYTES};
ghost use Rattle.history.specs.Outline.{outline};
ghost use Rattle.turn_lock.specs.Handles.{IsFresh, opening_of};
ghost use Rattle.sample_app.specs.Kinds.{sample_kinds};
ghost use Rattle.rmi_cli.specs.Line.{status_of_run};
ghost use Rattle.rmi_cli.specs.Opening.{served_opening};
ghost use Rattle.rmi_words.specs.Options.{IsServeInRange};
ghost use Rattle.rmi_cli.specs.ServedLinks.{serve_plan, IsSampleLink, ListensAlone, PrintedOn, ServeEnds, end_after};
ghost use Rattle.rmi_cli.specs.Told.{ListenerFailed, WriteFailed};

use crate::end::RunEnd;
use crate::loopback::loopback_host;
use crate::opening::opened_space;
use call_dispatch::Book;
use conn_server::{Report, ServePlan, Server, Stop};
use rmi_words::ServeWords;
use sample_app::{SampleCrew, SampleHand, sample_book};
use space::{Space, outline};
use std::alloc::{AllocError, Global};
use std::sync::Wait;
use std::thread::Threads;
use turn_lock::{Root, TurnLock};
use wire_io::put::put_all;
use wire_io::{Listener, Sink};

/// A report of the links that were served, where it came to that, and the end of the run.
#[derive(Drop)]
pub struct ServeOutcome<I, O, T, H> {
    pub end: RunEnd,
    pub report: Option<Report<I, O, T, H>>,
}

/// The parts that links are served with: the crew that does the calls, the kinds of objects, the server's plan, and the sample space in its
/// lock.
#[derive(Drop)]
struct ServeParts<'t, R: Wait + Sync> {
    crew: SampleCrew<'t, R>,
    book: Book,
    plan: ServePlan,
    lock: TurnLock,
    root: Root,
}

/// Listens on the port, serves as many links over a sample space of its own, and writes the outline of the space that is left. Identifiers are made
/// from the seed.
pub fn serve_input<'t, R: Threads + Wait + Sync, L: Listener, K: Sink>(
    rt: &'t R,
    alloc: Global,
    listener: &mut L,
    sink: &mut K,
    seed: &[u64; 4],
    words: &ServeWords,
) -> ServeOutcome<L::In, L::Out, L::Ticks, SampleHand<'t, R>>
    requires { IsServeInRange words.now }
    ensures served { IfSome result.report
        (ServesLinks (IsSampleLink L.In.half L.Out.half L.Ticks.given
        (serve_plan seed.now words.now))
        (IsLostLink L.In.half L.Out.half L.Ticks.given)
        (served_opening seed.now words.now.options) words.now.count
        (L.listening listener.old).accepted (L.listening listener.new).accepted) }
    ensures alone { ListensAlone words.now.port (L.listening listener.old)
        (L.listening listener.new) result.report }
    ensures ends { ServeEnds (K.half sink.old).held (K.half sink.new).held (K.half sink.old).faults
        (K.half sink.new).faults result.report result.end }
    ensures known { status_of_run result.end ≢ 1 }
    ensures fault { status_of_run result.end ≡ 3
        → ListenerFailed L.listening listener.old listener.new }
    ensures write_fault { status_of_run result.end ≡ 4 → WriteFailed K.half sink.old sink.new }
    ensures open { (K.half sink.new).shut ≡ (K.half sink.old).shut }
{
    match serve_parts(rt, alloc, seed, words) {
        Ok(parts) => serve_on(rt, alloc, listener, sink, parts, words.port),
        Err(_refused) => nothing_served(RunEnd::OutOfMemory),
    }
}

/// Listens on the port, serves the links, and writes the outline.
fn serve_on<'t, R: Threads + Wait + Sync, L: Listener, K: Sink>(
    rt: &'t R,
    alloc: Global,
    listener: &mut L,
    sink: &mut K,
    parts: ServeParts<'t, R>,
    port: u16,
) -> ServeOutcome<L::In, L::Out, L::Ticks, SampleHand<'t, R>>
    requires fresh { IsFresh parts.lock parts.root }
    requires few { parts.plan.count ≤ MAX_LINKS }
    requires host { length (utf parts.plan.host) ≤ MAX_HOST_BYTES }
    requires book { parts.book ≡ sample_kinds }
    requires stored { (opening_of parts.lock).configuration.stored ≡ true }
    ensures served { IfSome result.report
        (ServesLinks (IsSampleLink L.In.half L.Out.half L.Ticks.given parts.entry.plan)
        (IsLostLink L.In.half L.Out.half L.Ticks.given)
        (opening_of parts.entry.lock) parts.entry.plan.count (L.listening listener.old).accepted
        (L.listening listener.new).accepted) }
    ensures alone { ListensAlone port (L.listening listener.old) (L.listening listener.new)
        result.report }
    ensures ends { ServeEnds (K.half sink.old).held (K.half sink.new).held (K.half sink.old).faults
        (K.half sink.new).faults result.report result.end }
    ensures known { status_of_run result.end ≢ 1 }
    ensures fault { status_of_run result.end ≡ 3
        → ListenerFailed L.listening listener.old listener.new }
    ensures write_fault { status_of_run result.end ≡ 4 → WriteFailed K.half sink.old sink.new }
    ensures open { (K.half sink.new).shut ≡ (K.half sink.old).shut }
{
    if listener.listen("127.0.0.1", port).is_err() {
        return nothing_served(RunEnd::ListenFault);
    }
    let report = serve_links(rt, alloc, listener, parts);
    let printed = print_outline(alloc, sink, &report.space);
    ServeOutcome {
        end: end_after(report.stop, printed),
        report: Some(report),
    }
}

/// Serves the links that the listener gives.
fn serve_links<'t, R: Threads + Wait + Sync, L: Listener>(
    rt: &'t R,
    alloc: Global,
    listener: &mut L,
    parts: ServeParts<'t, R>,
) -> Report<L::In, L::Out, L::Ticks, SampleHand<'t, R>>
    requires fresh { IsFresh parts.lock parts.root }
    requires few { parts.plan.count ≤ MAX_LINKS }
    requires host { length (utf parts.plan.host) ≤ MAX_HOST_BYTES }
    requires book { parts.book ≡ sample_kinds }
    ensures served { ServesLinks (IsSampleLink L.In.half L.Out.half L.Ticks.given parts.entry.plan)
        (IsLostLink L.In.half L.Out.half L.Ticks.given)
        (opening_of parts.entry.lock) parts.entry.plan.count (L.listening listener.old).accepted
        (L.listening listener.new).accepted result }
    ensures ports { (L.listening listener.new).ports ≡ (L.listening listener.old).ports }
    ensures fault { result.stop ≡ Stop.AcceptFault
        → ListenerFailed L.listening listener.old listener.new }
    ensures faults { (L.listening listener.old).faults ≤ (L.listening listener.new).faults }
{
    let ServeParts {
        crew,
        book,
        plan,
        lock,
        root,
    } = parts;
    let server = Server {
        rt,
        alloc,
        crew: &crew,
        book: &book,
    };
    server.serve(listener, lock, root, &plan)
}

/// Nothing was served.
fn nothing_served<I, O, T, H>(end: RunEnd) -> ServeOutcome<I, O, T, H>
    ensures { (result.end ≡ end) × (result.report ≡ None) }
{
    ServeOutcome { end, report: None }
}

/// Writes the outline of the space that is left, and answers how that ended.
fn print_outline<K: Sink>(alloc: Global, sink: &mut K, space: &Space) -> RunEnd
    requires { space.now.configuration.stored ≡ true }
    ensures printed { PrintedOn K.half sink.old sink.new
        (outline space.now.configuration space.now.events) result }
    ensures open { (K.half sink.new).shut ≡ (K.half sink.old).shut }
{
    match outline(alloc, space) {
        Ok(text) => match put_all(sink, text.as_slice()) {
            Ok(()) => RunEnd::Done,
            Err(_) => RunEnd::WriteFault,
        },
        Err(_refused) => RunEnd::OutOfMemory,
    }
}

/// Returns the end of the run. It is as printing ended where the stop is All or Told, and else as the stop says.
pub(crate) fn end_after(stop: Stop, printed: RunEnd) -> RunEnd
    ensures { result ≡ end_after stop printed }
{
    match stop {
        Stop::All => printed,
        Stop::Told => printed,
        Stop::AcceptFault => RunEnd::AcceptFault,
        Stop::OutOfMemory => RunEnd::OutOfMemory,
    }
}

/// Returns the parts that links are served with.
fn serve_parts<'t, R: Wait + Sync>(
    rt: &'t R,
    alloc: Global,
    seed: &[u64; 4],
    words: &ServeWords,
) -> Result<ServeParts<'t, R>, AllocError>
    requires { IsServeInRange words.now }
    ensures book { IfOk result (λ parts. parts.book ≡ sample_kinds) }
    ensures plan { IfOk result (λ parts. parts.plan ≡ serve_plan seed.now words.now) }
    ensures fresh { IfOk result (λ parts. IsFresh parts.lock parts.root) }
    ensures opening { IfOk result (λ parts. opening_of parts.lock
        ≡ served_opening seed.now words.now.options) }
{
    let crew = SampleCrew::new(rt, alloc)?;
    let book = sample_book(alloc)?;
    let plan = plan_of(alloc, seed, words)?;
    let (lock, root) = lock_of(alloc, seed, words)?;
    Ok(ServeParts {
        crew,
        book,
        plan,
        lock,
        root,
    })
}

/// The sample space in its lock, and the lock's root.
fn lock_of(
    alloc: Global,
    seed: &[u64; 4],
    words: &ServeWords,
) -> Result<(TurnLock, Root), AllocError>
    requires { IsServeInRange words.now }
    ensures fresh { IfOk result (λ t. IsFresh t.0 t.1) }
    ensures opening { IfOk result (λ t. opening_of t.0
        ≡ served_opening seed.now words.now.options) }
{
    let space = opened_space(alloc, seed, words.options)?;
    match TurnLock::around(alloc, space) {
        Ok(made) => Ok(made),
        Err(_space) => Err(AllocError),
    }
}

/// Returns the plan of the server.
fn plan_of(alloc: Global, seed: &[u64; 4], words: &ServeWords) -> Result<ServePlan, AllocError>
    ensures { IfOk result (λ plan. plan ≡ serve_plan seed.now words.now) }
{
    Ok(ServePlan {
        count: u32::from(words.count),
        host: loopback_host(alloc)?,
        port: i32::from(words.port),
        binding: words.options.binding,
        seed: *seed,
    })
}
