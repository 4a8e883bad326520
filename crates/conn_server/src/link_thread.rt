//! Links that are being served.
ghost use Rattle.std.specs.Prelude.{◌≡◌, ◌+◌, IfOk, IfErr};
ghost use Rattle.turn_lock.specs.Handles.{IsRootOf, view_of};
ghost use Rattle.turn_lock.specs.declared.view.View.{View};
ghost use Rattle.conn_server.specs.Serves.{IsLinkTask, Serves};
ghost use Rattle.conn_server.specs.Starts.{IsUnder, IsEndOf, open_in};
ghost use Rattle.conn_server.specs.Talks.{TalksOver};
ghost use Rattle.conn_server.specs.Views.{Grows};
ghost use Rattle.conn_server.specs.declared.link_task.LinkDone.{LinkDone};

use crate::link_task::{LinkDone, LinkReport, LinkTask, TaskPromise, serve_task};
use crate::shared::Shared;
use call_dispatch::{Book, Worker};
use std::snapshot::Snapshot;
use std::sync::Wait;
use std::thread::{PromisedHandle, Scope, SpawnError, Threads};
use turn_lock::{Root, TurnLock};
use wire_io::{Clock, Sink, Source};

/// The most times that a thread is asked for again where none can be made. With a pause of 50 milliseconds each that takes three seconds.
const MAX_SPAWN_TRIES: u32 = 60;

/// A link that was begun: its number, its task, and how far it is.
#[derive(Drop)]
pub struct StartedLink<I: Source, O: Sink, T: Clock, H: Worker> {
    pub by: u32,
    pub task: Snapshot<LinkTask<I, O, T, H>>,
    pub link_state: LinkState<I, O, T, H>,
}

/// The state of a link that was begun.
#[derive(Drop)]
pub enum LinkState<I: Source, O: Sink, T: Clock, H: Worker> {
    /// A thread serves it.
    Running(PromisedHandle<LinkDone<I, O, T, H>, TaskPromise<I, O, T, H>>),
    /// It was served here, since no thread could be made.
    ServedHere(LinkDone<I, O, T, H>),
    /// It was served, its pass was given back, and its report was handed on. Only the list of all links, which exists
    /// in proofs alone, has such links.
    Ended(Snapshot<LinkReport<I, O, T, H>>),
}

/// The thread of a link, with its promise.
type LinkThread<I, O, T, H> = PromisedHandle<LinkDone<I, O, T, H>, TaskPromise<I, O, T, H>>;

/// Starts a thread of the scope that does this job, which is the link's task. Gives the job back where no thread can be made.
fn spawn_once<
    's,
    E,
    R,
    I: Source + Send + Drop + 's,
    O: Sink + Send + Drop + 's,
    T: Clock + Send + Drop + 's,
    H: Worker + Send + Drop + 's,
    F: FnOnce() -> LinkDone<I, O, T, H> + Send + 's,
>(
    scope: &Scope<'s, E>,
    shared: &Shared<'s, R>,
    known: &Snapshot<LinkTask<I, O, T, H>>,
    job: F,
) -> Result<LinkThread<I, O, T, H>, SpawnError<F>>
    requires runs { F.pre job }
    requires keeps { (done : LinkDone I O T H) → F.post job done
        → Serves (TalksOver I.half O.half T.given H.shown H.may H.moves shared.now.book.now)
        shared.now.lock.now known.now.value done }
    ensures lock { IfOk result (λ child. child.promise.lock.value ≡ shared.now.lock.now) }
    ensures book { IfOk result (λ child. child.promise.book.value ≡ shared.now.book.now) }
    ensures task { IfOk result (λ child. child.promise.task.value ≡ known.now) }
    ensures same { IfErr result (λ refused. refused.value ≡ job) }
{
    let promise = TaskPromise {
        lock: Snapshot::of(shared.lock),
        book: Snapshot::of(shared.book),
        task: Snapshot::of(known),
    };
    scope.spawn_with(promise, job)
}

/// Starts a thread as `spawn_once` does. Where none can be made, it tries again, each time once a link has ended or after a pause.
fn spawn_patiently<
    's,
    E,
    R: Wait,
    I: Source + Send + Drop + 's,
    O: Sink + Send + Drop + 's,
    T: Clock + Send + Drop + 's,
    H: Worker + Send + Drop + 's,
    F: FnOnce() -> LinkDone<I, O, T, H> + Send + 's,
>(
    scope: &Scope<'s, E>,
    shared: &Shared<'s, R>,
    known: &Snapshot<LinkTask<I, O, T, H>>,
    job: F,
) -> Result<LinkThread<I, O, T, H>, SpawnError<F>>
    requires runs { F.pre job }
    requires keeps { (done : LinkDone I O T H) → F.post job done
        → Serves (TalksOver I.half O.half T.given H.shown H.may H.moves shared.now.book.now)
        shared.now.lock.now known.now.value done }
    ensures lock { IfOk result (λ child. child.promise.lock.value ≡ shared.now.lock.now) }
    ensures book { IfOk result (λ child. child.promise.book.value ≡ shared.now.book.now) }
    ensures task { IfOk result (λ child. child.promise.task.value ≡ known.now) }
    ensures same { IfErr result (λ refused. refused.value ≡ job) }
{
    let mut left = job;
    for _ in 0..MAX_SPAWN_TRIES {
        let seen = shared.ended.count();
        match spawn_once(scope, shared, known, left) {
            Ok(child) => return Ok(child),
            Err(refused) => left = refused.value,
        }
        shared.ended.pause(shared.rt, seen);
    }
    spawn_once(scope, shared, known, left)
}

/// Serves the link in a thread of the scope. Where none can be made for three seconds, the task comes back and is done here.
pub fn start<
    's,
    E,
    R: Threads + Wait + Sync,
    I: Source + Send + Drop + 's,
    O: Sink + Send + Drop + 's,
    T: Clock + Send + Drop + 's,
    H: Worker + Send + Drop + 's,
>(
    scope: &Scope<'s, E>,
    shared: &Shared<'s, R>,
    task: LinkTask<I, O, T, H>,
) -> StartedLink<I, O, T, H>
    requires { IsLinkTask H.shown shared.now.lock.now task }
    ensures begun { (v : View) → IsUnder
        (TalksOver I.half O.half T.given H.shown H.may H.moves shared.now.book.now)
        shared.now.lock.now shared.now.book.now v result.task.value result.link_state }
    ensures out { open_in result.link_state ≡ 1 }
    ensures task { result.task.value ≡ task }
    ensures by { result.by ≡ task.by }
{
    let number = task.by;
    let (rt, alloc) = (shared.rt, shared.alloc);
    let (lock, book, ended) = (shared.lock, shared.book, shared.ended);
    let known = Snapshot::of(&task);
    let spawned = spawn_patiently(
        scope,
        shared,
        &known,
        move || -> LinkDone<I, O, T, H>
            requires { IsLinkTask H.shown lock.now task }
            ensures { Serves
                (TalksOver I.half O.half T.given H.shown H.may H.moves book.entry.now)
                lock.entry.now task result }
        {
            let by = task.by;
            let done = serve_task(rt, alloc, lock, book, task);
            ended.note(rt, by);
            done
        },
    );
    let link_state = match spawned {
        Ok(child) => LinkState::Running(child),
        Err(refused) => LinkState::ServedHere((refused.value)()),
    };
    StartedLink {
        by: number,
        task: known,
        link_state,
    }
}

/// Gives the root the pass of a link back that was served.
fn give_back<I: Source, O: Sink, T: Clock, H: Worker>(
    lock: &TurnLock,
    book: &Book,
    root: &mut Root,
    task: &Snapshot<LinkTask<I, O, T, H>>,
    done: LinkDone<I, O, T, H>,
) -> LinkReport<I, O, T, H>
    requires root { IsRootOf lock.now root.old }
    requires served { Serves
        (TalksOver I.half O.half T.given H.shown H.may H.moves book.now)
        lock.now task.now.value done }
    ensures root { IsRootOf lock.now root.new × (root.new.out + 1 ≡ root.old.out)
        × (root.new.made ≡ root.old.made) }
    ensures grown { Grows (view_of root.old.pass) (view_of root.new.pass) }
    ensures ended { IsEndOf
        (TalksOver I.half O.half T.given H.shown H.may H.moves book.now)
        (view_of root.new.pass) task.now.value result }
{
    let _ = book;
    let _ = task;
    let LinkDone { pass, report } = done;
    root.join(lock, pass);
    report
}

/// Waits until the link is served, and gives the root its pass back.
pub fn finish<'s, R: Threads, I: Source, O: Sink, T: Clock, H: Worker>(
    shared: &Shared<'s, R>,
    root: &mut Root,
    task: &Snapshot<LinkTask<I, O, T, H>>,
    link_state: LinkState<I, O, T, H>,
) -> LinkReport<I, O, T, H>
    requires root { IsRootOf shared.now.lock.now root.old }
    requires begun { IsUnder
        (TalksOver I.half O.half T.given H.shown H.may H.moves shared.now.book.now)
        shared.now.lock.now shared.now.book.now (view_of root.old.pass) task.now.value link_state }
    requires open { open_in link_state ≡ 1 }
    ensures root { IsRootOf shared.now.lock.now root.new × (root.new.out + 1 ≡ root.old.out)
        × (root.new.made ≡ root.old.made) }
    ensures grown { Grows (view_of root.old.pass) (view_of root.new.pass) }
    ensures ended { IsEndOf
        (TalksOver I.half O.half T.given H.shown H.may H.moves shared.now.book.now)
        (view_of root.new.pass) task.now.value result }
{
    match link_state {
        LinkState::Running(child) => give_back(
            shared.lock,
            shared.book,
            root,
            task,
            child.join(shared.rt),
        ),
        LinkState::ServedHere(done) => give_back(shared.lock, shared.book, root, task, done),
        LinkState::Ended(_known) => unreachable!(),
    }
}
