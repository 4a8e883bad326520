//! The words that the program is run with.
ghost use Rattle.std.specs.Prelude.{◌≡◌, ◌≢◌, [], map, option_map, string_bytes, IfOk};
ghost use Rattle.std.specs.List.{list_any};
ghost use Rattle.journal.specs.Reading.{Finds};
ghost use Rattle.clap.specs.Words.{subcommand_rows_of};
ghost use Rattle.rmi_words.specs.Clients.{Reads};
ghost use Rattle.rmi_words.specs.Command.{word_of_text};
ghost use Rattle.rmi_words.specs.Program.{AreTaken, faults_in, is_option};
ghost use Rattle.rmi_words.specs.Values.{IsCommandIn, IsCommandOf, IsOwnOf, IsTopicOf, given_of};

use crate::call_words::read_call;
use crate::client::{read_bind, read_list, read_lookup, read_unbind};
use crate::command::{ClassOutput, Command, DrillText, HelpTopic, WordsFault};
use crate::declared::declared_program;
use crate::host_words::read_host;
use crate::numbers::read_drill;
use crate::options::{read_lease_options, read_serve};
use clap::ArgMatches;
use clap::error::ErrorKind;
use std::alloc::Global;
use std::marker::Model;

/// A list of texts, which contracts see as the list of their bytes.
#[derive(Drop)]
pub struct Words {
    items: Vec<String>,
}

impl Model for Words {
    ghost use Rattle.std.specs.Prelude.{List, ℕ, map, string_bytes};

    ghost Value = { List (List ℕ) };

    ghost view = { λ w. map string_bytes w.items.items };
}

impl Words {
    ghost use Rattle.rmi_words.specs.Command.{AskFor, AskForNothing};

    /// The words of a vector. It takes no memory.
    pub fn from_vec(items: Vec<String>) -> Words
        ensures { result ≡ map string_bytes items.items }
    {
        Words { items }
    }

    /// Returns the command that the words ask for. The fault is Usage only where they are no command line; where there is no memory to
    /// read them, it is OutOfMemory.
    pub fn command(&self, alloc: Global) -> Result<Command, WordsFault>
        ensures asked { IfOk result (AskFor self.now) }
        ensures refused { result ≡ Err WordsFault.Usage → AskForNothing self.now }
    {
        let words = self.items.as_slice();
        if has_option(words) {
            return Err(WordsFault::Usage);
        }
        let matches = matches_of(alloc, words)?;
        command_of(alloc, &matches)
    }
}

/// Returns whether one of the words begins with `-`.
fn has_option(words: &[String]) -> bool
    ensures { result ≡ list_any (λ word. is_option (string_bytes word)) words.now }
{
    words.iter().any(|word| is_option(word.as_str()))
}

/// Returns whether the word begins with `-`.
fn is_option(word: &str) -> bool
    ensures { result ≡ is_option word.now }
{
    let bytes = word.as_bytes();
    !bytes.is_empty() && bytes[0] == b'-'
}

/// Returns what `clap` makes of words none of which begins with `-`. The fault is Usage only where it finds them wrong.
fn matches_of<'a>(alloc: Global, words: &'a [String]) -> Result<ArgMatches<'a>, WordsFault>
    ensures taken { IfOk result (AreTaken (map string_bytes words.entry.now)) }
    ensures refused { result ≡ Err WordsFault.Usage
        → faults_in (map string_bytes words.entry.now) ≢ [] }
{
    let declared = match declared_program(alloc) {
        Ok(declared) => declared,
        Err(_) => return Err(WordsFault::OutOfMemory),
    };
    match declared.try_get_matches_from(words) {
        Ok(matches) => Ok(matches),
        Err(error) => Err(fault_of_kind(error.kind())),
    }
}

/// Returns OutOfMemory for want of memory, and Usage for all else that `clap` finds wrong.
fn fault_of_kind(kind: ErrorKind) -> WordsFault
    ensures { result ≡ WordsFault.Usage → kind ≢ ErrorKind.OutOfMemory }
{
    match kind {
        ErrorKind::OutOfMemory => WordsFault::OutOfMemory,
        _ => WordsFault::Usage,
    }
}

/// Returns the command that `clap` found. The fault is Usage only where what it is told is out of range.
fn command_of(alloc: Global, matches: &ArgMatches) -> Result<Command, WordsFault>
    ensures { Reads IsCommandIn result (subcommand_rows_of matches.now) }
{
    match matches.subcommand() {
        Some((name, values)) => read_command(alloc, name, values),
        None => Err(WordsFault::Usage),
    }
}

/// Returns the command of this name. The fault is Usage only where what its words tell it is out of range.
fn read_command(alloc: Global, name: &str, values: &ArgMatches) -> Result<Command, WordsFault>
    ensures { Reads (IsCommandOf name.now) result (given_of values.now) }
{
    match name {
        "list" => read_list(alloc, values),
        "lookup" => read_lookup(alloc, values),
        "bind" => read_bind(alloc, values),
        "unbind" => read_unbind(alloc, values),
        "call" => read_call(alloc, values),
        "host" => read_host(alloc, values),
        _ => match read_own(name, values) {
            Some(command) => Ok(command),
            None => Err(WordsFault::Usage),
        },
    }
}

/// Returns the command of this name whose words are read without memory, where what they tell it is in range.
fn read_own(name: &str, values: &ArgMatches) -> Option<Command>
    ensures { Finds (IsOwnOf name.now) result (given_of values.now) }
{
    match name {
        "answer" => Some(Command::Answer(read_lease_options(values)?)),
        "serve" => Some(Command::Serve(read_serve(values)?)),
        "replay" => Some(Command::Replay),
        "show" => Some(Command::Show),
        "drill" => read_drill_of(values, DrillText::Summary),
        "journal" => read_drill_of(values, DrillText::Journal),
        "world" => Some(Command::World),
        "suid" => Some(Command::Class(ClassOutput::Number)),
        "suidtext" => Some(Command::Class(ClassOutput::Text)),
        "describe" => Some(Command::Class(ClassOutput::Description)),
        "help" => Some(Command::Help(read_topic(values.get_str("COMMAND"))?)),
        _ => None,
    }
}

/// Returns the drill of which this text is printed, where the words SEED and N are in range.
fn read_drill_of(values: &ArgMatches, text: DrillText) -> Option<Command>
    ensures { Finds (IsOwnOf (word_of_text text)) result (given_of values.now) }
{
    let (seed, rounds) = read_drill(values.get_str("SEED")?, values.get_str("N")?)?;
    Some(Command::Drill { text, seed, rounds })
}

/// Returns which commands to explain, or None where the word names no command.
fn read_topic(word: Option<&str>) -> Option<HelpTopic>
    ensures { Finds IsTopicOf result (option_map (λ text. text.now) word.entry) }
{
    match word {
        None => Some(HelpTopic::All),
        Some("answer") => Some(HelpTopic::Answer),
        Some("serve") => Some(HelpTopic::Serve),
        Some("host") => Some(HelpTopic::Host),
        Some("list") => Some(HelpTopic::List),
        Some("lookup") => Some(HelpTopic::Lookup),
        Some("bind") => Some(HelpTopic::Bind),
        Some("unbind") => Some(HelpTopic::Unbind),
        Some("call") => Some(HelpTopic::Call),
        Some("replay") => Some(HelpTopic::Replay),
        Some("show") => Some(HelpTopic::Show),
        Some("drill") => Some(HelpTopic::Drill),
        Some("journal") => Some(HelpTopic::Journal),
        Some("world") => Some(HelpTopic::World),
        Some("suid") => Some(HelpTopic::Suid),
        Some("suidtext") => Some(HelpTopic::SuidText),
        Some("describe") => Some(HelpTopic::Describe),
        Some("help") => Some(HelpTopic::Help),
        Some(_) => None,
    }
}
