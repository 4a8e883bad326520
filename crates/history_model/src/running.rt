//! The calls that connections run.
ghost use Rattle.std.specs.Prelude.{◌≡◌, ◌≤◌, ◌<◌, ◌+◌, ◌-◌, ◌^◌, length, if◌then◌else◌};
ghost use Rattle.history.specs.Running as words;

use history::equality::equal_ids;
use history::{Ask, Place};
use object_ids::ObjId;

fn is_begin_of(object: ObjId, ask: &Ask) -> bool
    ensures { result ≡ words.is_begin_of object ask.now }
{
    match ask {
        Ask::Begin { object: o } => equal_ids(*o, object),
        _ => false,
    }
}

fn is_end_of(object: ObjId, ask: &Ask) -> bool
    ensures { result ≡ words.is_end_of object ask.now }
{
    match ask {
        Ask::Finish {
            object: o,
            made: _,
            listed: _,
            uid: _,
        } => equal_ids(*o, object),
        Ask::Abandon { object: o } => equal_ids(*o, object),
        _ => false,
    }
}

fn begins_call(by: u32, object: ObjId, p: &Place) -> bool
    ensures { result ≡ words.begins_call by object p.now }
{
    p.effective && p.event.by == by && is_begin_of(object, &p.event.ask)
}

fn ends_call(by: u32, object: ObjId, p: &Place) -> bool
    ensures { result ≡ words.ends_call by object p.now }
{
    p.effective && p.event.by == by && is_end_of(object, &p.event.ask)
}

/// Returns the number of calls of an object that a connection runs.
#[tactic(auto, unfolding(history::specs::Running::running_calls_by))]
pub fn running_calls_by(places: &[Place], by: u32, object: ObjId) -> usize
    ensures value { result ≡ words.running_calls_by places.now by object }
    ensures bound { result ≤ length places.now }
{
    match places {
        [] => 0,
        [p, before @ ..] => {
            let runs = running_calls_by(before, by, object);
            count_after(begins_call(by, object, p), ends_call(by, object, p), runs)
        }
    }
}

/// A count after a place that begins or ends a call.
fn count_after(begins: bool, ends: bool, runs: usize) -> usize
    requires { runs + 1 < 2 ^ 64 }
    ensures value { result ≡ (if begins then runs + 1 else if ends then runs - 1 else runs) }
    ensures bound { result ≤ runs + 1 }
{
    if begins {
        runs + 1
    } else if ends {
        runs.saturating_sub(1)
    } else {
        runs
    }
}

/// Returns the number of calls of an object that all connections run.
#[tactic(auto, unfolding(history::specs::Running::running_calls))]
pub fn running_calls(places: &[Place], object: ObjId) -> usize
    ensures value { result ≡ words.running_calls places.now object }
    ensures bound { result ≤ length places.now }
{
    match places {
        [] => 0,
        [p, before @ ..] => {
            let runs = running_calls(before, object);
            let begins = p.effective && is_begin_of(object, &p.event.ask);
            let ends = p.effective && is_end_of(object, &p.event.ask);
            count_after(begins, ends, runs)
        }
    }
}

/// Returns whether some connection runs a call of an object.
#[tactic(auto, unfolding(history::specs::Running::is_running))]
pub fn is_running(places: &[Place], object: ObjId) -> bool
    ensures { result ≡ words.is_running places.now object }
{
    0 < running_calls(places, object)
}
