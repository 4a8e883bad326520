//! The limits of a space and of its configuration.
ghost use Rattle.std.specs.Prelude.{◌≡◌, ◌+◌, ◌^◌, ◌<◌, ◌≤◌, nat_lt, if◌then◌else◌};
ghost use Rattle.history.specs.Limits as words;

use crate::asks::SpaceConfig;

/// The most units of a name.
pub const MAX_NAME_UNITS: usize = 255;
/// The most exported objects.
pub const MAX_EXPORTS: u64 = 65_536;
/// The most references that await their acknowledgement.
pub const MAX_AWAITING: u64 = 65_536;
/// The most clients with time left.
pub const MAX_CLIENTS: u64 = 65_536;
/// The most remembered pairs of a client and an object.
pub const MAX_PAIRS: u64 = 262_144;
/// The most bound names.
pub const MAX_NAMES: u64 = 4_096;
/// The most units of a history that is stored, those reserved for running calls included.
pub const MAX_HISTORY_UNITS: u64 = 4_194_304;
/// The most units of a history that exists in proofs alone, those reserved for running calls included.
pub const MAX_ERASED_UNITS: u64 = 1 << 61;
/// The most running calls. A stored history has no room for as many.
pub const MAX_RUNNING_CALLS: u64 = 4_194_304;
/// The longest configured lease and the longest time to acknowledge, in milliseconds. The shortest is 1.
pub const MAX_DURATION_MS: u64 = 1 << 40;
/// Each event's moment is below this one, in milliseconds.
pub const END_OF_TIME: u64 = 1 << 62;
/// The exported objects of a whole history are fewer.
pub const END_OF_OBJECT_COUNT: u64 = 1 << 62;

/// The most units of a history, which is stored or exists in proofs alone.
pub fn units_limit(stored: bool) -> u64
    ensures { result ≡ words.units_limit stored }
{
    if stored {
        MAX_HISTORY_UNITS
    } else {
        MAX_ERASED_UNITS
    }
}

/// The most entries of each table, the most units of a history, and the most running calls.
#[derive(Clone, Copy, Debug, PartialEq, Eq)]
pub struct Limits {
    pub exports: u64,
    pub awaiting: u64,
    pub clients: u64,
    pub pairs: u64,
    pub names: u64,
    pub units: u64,
    pub running: u64,
}

impl Limits {
    ghost use Rattle.history.specs.Limits.{limits};

    /// The limits of a space of this configuration.
    pub fn of_space(config: &SpaceConfig) -> Limits
        ensures { result ≡ limits config.now }
    {
        Limits {
            exports: MAX_EXPORTS,
            awaiting: MAX_AWAITING,
            clients: MAX_CLIENTS,
            pairs: MAX_PAIRS,
            names: MAX_NAMES,
            units: units_limit(config.stored),
            running: MAX_RUNNING_CALLS,
        }
    }
}

fn one_if(test: bool) -> u128
    ensures value { result ≡ (if test then 1 else 0) }
    ensures bound { result ≤ 1 }
{
    if test { 1 } else { 0 }
}

/// Returns whether the units used pass a limit. A call that starts adds one to the units, and a call that ends adds
/// one to the limit.
pub fn is_past(limit: u64, used: u128, starts: bool, ends: bool) -> bool
    requires { used < 2 ^ 127 }
    ensures { result ≡ nat_lt (limit + (if ends then 1 else 0)) (used + (if starts then 1 else 0)) }
{
    u128::from(limit) + one_if(ends) < used + one_if(starts)
}
