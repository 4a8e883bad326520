//! The options on which a space is served, and what `serve` is told.
ghost use Rattle.std.specs.Prelude.{option_map};
ghost use Rattle.journal.specs.Reading.{Finds};
ghost use Rattle.rmi_words.specs.Options.{IsBindingOf, IsDurationOf, IsSmallOf};
ghost use Rattle.rmi_words.specs.Values.{AreOptionsOf, IsServeOf, values_of};

use crate::numbers::{read_duration, read_small};
use clap::ArgMatches;

/// The options on which a space is served.
#[derive(Clone, Copy, Debug, PartialEq, Eq)]
pub struct LeaseOptions {
    /// True where clients may bind names.
    pub binding: bool,
    /// The longest lease that is granted, in milliseconds.
    pub lease_ms: u64,
    /// The time that a returned reference is awaited, in milliseconds.
    pub ack_ms: u64,
}

/// The words of `serve`, as they were read.
#[derive(Clone, Copy, Debug, PartialEq, Eq)]
pub struct ServeWords {
    /// The port that is listened on.
    pub port: u16,
    /// The number of links that are served.
    pub count: u16,
    /// The options on which they are.
    pub options: LeaseOptions,
}

/// The longest lease that is granted where no word says it, in milliseconds.
const LEASE_MS: u64 = 600_000;

/// The time that a returned reference is awaited where no word says it, in milliseconds.
const ACK_MS: u64 = 300_000;

/// Returns the options that the words BINDING, LEASE and ACK give, or None where one of them gives none.
pub(crate) fn read_lease_options(values: &ArgMatches) -> Option<LeaseOptions>
    ensures { Finds AreOptionsOf result (values_of values.now) }
{
    let binding = read_binding(values.get_str("BINDING"))?;
    let lease_ms = read_duration_or(values.get_str("LEASE"), LEASE_MS)?;
    let ack_ms = read_duration_or(values.get_str("ACK"), ACK_MS)?;
    Some(LeaseOptions {
        binding,
        lease_ms,
        ack_ms,
    })
}

/// Returns what the words of `serve` tell it, or None where one of them is out of range.
pub(crate) fn read_serve(values: &ArgMatches) -> Option<ServeWords>
    ensures { Finds IsServeOf result (values_of values.now) }
{
    let port = read_small_of(values.get_str("PORT"))?;
    let count = read_small_of(values.get_str("COUNT"))?;
    let options = read_lease_options(values)?;
    Some(ServeWords {
        port,
        count,
        options,
    })
}

/// Returns the number, 1 to 65535, that the word spells, or None where it spells none or is left out.
pub(crate) fn read_small_of(word: Option<&str>) -> Option<u16>
    ensures { Finds IsSmallOf result (option_map (λ text. text.now) word.entry) }
{
    match word {
        Some(text) => read_small(text),
        None => None,
    }
}

/// Returns whether clients may bind names, as the word `open` or `closed` says. Where there is no word, they may not. Any other word gives
/// None.
fn read_binding(word: Option<&str>) -> Option<bool>
    ensures { Finds IsBindingOf result (option_map (λ text. text.now) word.entry) }
{
    match word {
        Some("open") => Some(true),
        Some("closed") | None => Some(false),
        Some(_) => None,
    }
}

/// The duration that the word spells, or the default where there is none.
fn read_duration_or(word: Option<&str>, default: u64) -> Option<u64>
    ensures { Finds (IsDurationOf default) result (option_map (λ text. text.now) word.entry) }
{
    match word {
        Some(text) => read_duration(text),
        None => Some(default),
    }
}
