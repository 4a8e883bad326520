//! All that `host` begins with.
ghost use Rattle.std.specs.Prelude.{◌≡◌, IfOk, MatchResult};
ghost use Rattle.turn_lock.specs.Handles.{IsFresh, keeps_events, opening_of};
ghost use Rattle.rmi_cli.specs.Hosted.{ArePartsOf, AreReady, first_text, host_plan, is_recorded};
ghost use Rattle.rmi_cli.specs.Opening.{hosted_opening};
ghost use Rattle.rmi_words.specs.HostWords.{IsHostInRange};
ghost use Rattle.rmi_words.specs.Options.{IsInRange};

use crate::opening::{erased_space, opened_space, space_uid};
use call_dispatch::Book;
use conn_server::ServePlan;
use conn_server::plan::LAST_NUMBER;
use object_ids::Uid;
use rmi_words::{Address, HostWords, LeaseOptions, Record};
use sample_app::{SampleCrew, sample_book};
use sequence::ByteList;
use space::{Space, journal};
use std::alloc::{AllocError, Global};
use std::sync::Wait;
use turn_lock::{Root, TurnLock};

/// All that `host` begins with.
#[derive(Drop)]
pub struct HostParts<'t, R: Wait + Sync> {
    /// Where memory comes from.
    pub alloc: Global,
    /// Makes the hand of each connection.
    pub crew: SampleCrew<'t, R>,
    /// The kinds of objects that clients may call.
    pub book: Book,
    /// The plan that the server is given before it serves.
    pub plan: ServePlan,
    /// The lock round the space. It records where events are printed.
    pub lock: TurnLock,
    /// The lock's root.
    pub root: Root,
    /// The address that is listened on.
    pub address: Address,
    /// The port that is listened on.
    pub port: u16,
    /// The choice of what `host` prints: what is exported at the end, or a journal of all events.
    pub recording: Record,
    /// The identifier of the space.
    pub space: Uid,
    /// The text that the output begins with.
    pub first: ByteList,
}

/// Returns what `host` begins with, by the seed and the words. The space does not keep its events.
pub fn host_parts<'t, R: Wait + Sync>(
    rt: &'t R,
    alloc: Global,
    seed: &[u64; 4],
    words: &HostWords,
) -> Result<HostParts<'t, R>, AllocError>
    requires { IsHostInRange words.now }
    ensures are { IfOk result (ArePartsOf seed.now words.now) }
    ensures ready { IfOk result AreReady }
{
    let address = Address::new(alloc, words.address.as_str())?;
    let first = first_text(alloc, seed, words.options, words.output)?;
    let plan = plan_of(alloc, seed, words)?;
    let crew = SampleCrew::new(rt, alloc)?;
    let book = sample_book(alloc)?;
    let (lock, root) = host_lock(alloc, seed, words.options, words.output)?;
    Ok(HostParts {
        alloc,
        crew,
        book,
        plan,
        lock,
        root,
        address,
        port: words.port,
        recording: words.output,
        space: space_uid(seed, words.options),
        first,
    })
}

/// Returns the plan of the server.
fn plan_of(alloc: Global, seed: &[u64; 4], words: &HostWords) -> Result<ServePlan, AllocError>
    ensures { IfOk result (λ plan. plan ≡ host_plan seed.now words.now) }
{
    Ok(ServePlan {
        count: LAST_NUMBER,
        host: words.host.copy(alloc)?,
        port: i32::from(words.port),
        binding: words.options.binding,
        seed: *seed,
    })
}

/// Returns the text that the output begins with: the journal of the space as it is opened, where events are recorded, and nothing otherwise. It is
/// printed from a space of the same opening that keeps its events.
fn first_text(
    alloc: Global,
    seed: &[u64; 4],
    options: LeaseOptions,
    output: Record,
) -> Result<ByteList, AllocError>
    requires { IsInRange options }
    ensures { IfOk result (λ text. text ≡ first_text output (hosted_opening seed.now options)) }
{
    match output {
        Record::Silent => Ok(ByteList::new(alloc)),
        Record::Journal => {
            let space = opened_space(alloc, seed, options)?;
            journal(alloc, &space)
        }
    }
}

/// Returns the sample space in its lock, and the lock's root. The space does not keep its events. The lock records them where they are printed.
fn host_lock(
    alloc: Global,
    seed: &[u64; 4],
    options: LeaseOptions,
    output: Record,
) -> Result<(TurnLock, Root), AllocError>
    requires { IsInRange options }
    ensures fresh { IfOk result (λ t. IsFresh t.0 t.1) }
    ensures opening { IfOk result (λ t. opening_of t.0 ≡ hosted_opening seed.now options) }
    ensures records { IfOk result (λ t. keeps_events t.0 ≡ is_recorded output) }
{
    let space = erased_space(alloc, seed, options)?;
    match lock_round(alloc, space, output) {
        Ok(made) => Ok(made),
        Err(_space) => Err(AllocError),
    }
}

/// Returns the lock round a space, and its root. It records events where they are printed.
fn lock_round(alloc: Global, space: Space, output: Record) -> Result<(TurnLock, Root), Space>
    ensures fresh { MatchResult result (λ t. IsFresh t.0 t.1 × (opening_of t.0 ≡ space))
        (λ s. s ≡ space) }
    ensures records { IfOk result (λ t. keeps_events t.0 ≡ is_recorded output) }
{
    match output {
        Record::Silent => TurnLock::around(alloc, space),
        Record::Journal => TurnLock::recording(alloc, space),
    }
}
