//! Turns at a lock.
ghost use Rattle.std.specs.Prelude.{◌≤◌, IfSome};

use crate::crew::{crew, fresh};
use std::alloc::Global;
use std::io;
use std::process::ExitCode;
use std::sync::Wait;
use std::thread::Threads;
use std::time::{Clock, Instant};
use turn_lock::TurnLock;

/// The most threads, and the most turns of each.
const MOST_THREADS: u32 = 64;

const MOST_TURNS: u64 = 100_000;

/// Returns the number of threads and the number of turns of each, where the words are two such numbers.
fn asked(words: &[String]) -> Option<(u32, u64)>
    ensures { IfSome result (λ p. p.1 ≤ 100000) }
{
    match words {
        [threads, turns] => bounded(threads.parse::<u32>().ok()?, turns.parse::<u64>().ok()?),
        _ => None,
    }
}

/// These numbers, where none is above its bound.
fn bounded(threads: u32, turns: u64) -> Option<(u32, u64)>
    ensures { IfSome result (λ p. p.1 ≤ 100000) }
{
    if threads <= MOST_THREADS && turns <= MOST_TURNS {
        Some((threads, turns))
    } else {
        None
    }
}

/// Measures so many threads that take so many turns each. Returns the number of events that came of it, and its
/// microseconds, or none where there is no memory.
fn measured<R: Threads + Wait + Sync + Clock>(
    rt: &R,
    alloc: Global,
    threads: u32,
    turns: u64,
) -> io::Result<Option<(u64, u128)>>
    requires few { turns ≤ 100000 }
{
    let Ok((lock, root)) = TurnLock::around(alloc, fresh(alloc)) else {
        return Ok(None);
    };
    let start = Instant::now(rt)?;
    let root = crew(rt, alloc, &lock, root, threads, turns);
    let elapsed = start.elapsed(rt)?;
    Ok(Some((lock.close(root).len(), elapsed.as_micros())))
}

/// Takes turns at a lock with as many threads as the first word says, each of as many turns as the second word says. Standard output has how
/// many events came of it, standard error how many microseconds it took.
pub(crate) fn time_lock<R: Print + Eprint + Threads + Wait + Sync + Clock>(
    rt: &R,
    alloc: Global,
    words: &[String],
) -> io::Result<ExitCode> {
    let Some((threads, turns)) = asked(words) else {
        eprintln!(rt;
            "usage: bench_parts lock THREADS TURNS, at most {MOST_THREADS} and {MOST_TURNS}"
        )?;
        return Ok(ExitCode::from(1));
    };
    let Some((events, micros)) = measured(rt, alloc, threads, turns)? else {
        return Ok(ExitCode::from(2));
    };
    println!(rt; "{events} events")?;
    eprintln!(rt; "{micros}")?;
    Ok(ExitCode::from(0))
}
