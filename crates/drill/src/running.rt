//! A drill in a space.
ghost use Rattle.std.specs.Prelude.{◌≡◌, ◌++◌, ◌≤◌, ◌<◌, ◌^◌, [], IfOk, IfErr, OnOk};
ghost use Rattle.std.specs.List.{AllByRecursion};
ghost use Rattle.history.specs.declared.limits.TheConstants.{END_OF_TIME};
ghost use Rattle.drill.specs.Rounds.{drill_config, start, events_from, drill_events};
ghost use Rattle.drill.specs.Runs.{EndsIn};

use crate::rounds::{Drill, drill_config};
use history::{Event, Refused};
use space::Space;
use std::alloc::Global;

/// Takes events, one after another, up to the first that is refused.
fn take_all(space: &mut Space, events: Vec<Event>) -> Result<(), Refused>
    requires { AllByRecursion (λ e. e.moment < END_OF_TIME) events.items }
    ensures ok { OnOk result (space.new.events ≡ space.old.events ++ events.items) }
    ensures err { IfErr result (EndsIn space.old.configuration space.old.events events.items) }
    ensures config { space.new.configuration ≡ space.old.configuration }
{
    let turns = space.turns(events)?;
    let _len = space.len();
    match turns.refused {
        None => Ok(()),
        Some(refused) => Err(refused),
    }
}

/// Takes the events of so many rounds, one after another, up to the first that is refused.
fn go_on(alloc: Global, space: &mut Space, seed: u64, rounds: u64) -> Result<(), Refused>
    requires { rounds ≤ 2 ^ 32 }
    ensures ok { OnOk result
        (space.new.events ≡ space.old.events ++ events_from 0 (start seed) rounds) }
    ensures err { IfErr result
        (EndsIn space.old.configuration space.old.events (events_from 0 (start seed) rounds)) }
    ensures config { space.new.configuration ≡ space.old.configuration }
{
    let mut drill = Drill::new(seed);
    let mut left = rounds;
    while left > 0 {
        let events = drill.round(alloc)?;
        take_all(space, events)?;
        left -= 1;
    }
    Ok(())
}

/// The space that takes a drill's events, of a seed and so many rounds, one after another. The first that is refused is answered:
/// for want of memory, or because the history or a table is full.
pub fn drill(alloc: Global, seed: u64, rounds: u64) -> Result<Space, Refused>
    requires { rounds ≤ 2 ^ 32 }
    ensures config { IfOk result (λ space. space.configuration ≡ drill_config) }
    ensures events { IfOk result (λ space. space.events ≡ drill_events seed rounds) }
    ensures refused { IfErr result (EndsIn drill_config [] (drill_events seed rounds)) }
{
    let mut space = Space::fresh(alloc, &drill_config());
    let mut opening = Vec::with_capacity(alloc, 1)?;
    opening.push_reserved(Drill::opening());
    take_all(&mut space, opening)?;
    go_on(alloc, &mut space, seed, rounds)?;
    Ok(space)
}
