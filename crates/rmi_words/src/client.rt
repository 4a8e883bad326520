//! The commands that ask something of a server, and their words.
ghost use Rattle.std.specs.Prelude.{◌≡◌, ◌≤◌, codes, length, option_map, IfOk};
ghost use Rattle.history.specs.declared.limits.TheConstants.{MAX_NAME_UNITS};
ghost use Rattle.rmi_words.specs.Clients.{IsAddressIn, IsTextIn, Reads, named_words};
ghost use Rattle.rmi_words.specs.Values.{IsCommandOf, given_of, values_of};

use crate::command::{Command, WordsFault};
use crate::options::read_small_of;
use clap::ArgMatches;
use history::Name;
use history::limits::MAX_NAME_UNITS;
use mod_utf::units_of_text;
use sequence::Units;
use std::alloc::Global;

/// Where a server is, as the words HOST and PORT say.
#[derive(Debug, Drop)]
pub struct ServerAddress {
    /// The host, a name or the numbers of an address: at most 255 units.
    pub host: Units,
    /// The port.
    pub port: u16,
}

/// A request to a server, with the words of its command.
#[derive(Debug, Drop)]
pub enum ClientCommand {
    /// `list HOST PORT`: print the names of the registry there.
    List {
        /// Where the registry is.
        server: ServerAddress,
    },
    /// `lookup HOST PORT NAME`: print the reference that the name stands for.
    Lookup {
        /// Where the registry is.
        server: ServerAddress,
        /// The name.
        name: Name,
    },
    /// `bind HOST PORT NAME FROM`: bind a name to what another one stands for.
    Bind {
        /// Where the registry is.
        server: ServerAddress,
        /// The name that is bound.
        name: Name,
        /// The name that is looked up.
        from: Name,
    },
    /// `unbind HOST PORT NAME`: unbind the name.
    Unbind {
        /// Where the registry is.
        server: ServerAddress,
        /// The name.
        name: Name,
    },
}

/// Returns what `list` is told.
pub(crate) fn read_list(alloc: Global, values: &ArgMatches) -> Result<Command, WordsFault>
    ensures { Reads (IsCommandOf (codes "list")) result (given_of values.now) }
{
    let server = read_server(alloc, values)?;
    Ok(Command::Client(ClientCommand::List { server }))
}

/// Returns what `lookup` is told.
pub(crate) fn read_lookup(alloc: Global, values: &ArgMatches) -> Result<Command, WordsFault>
    ensures { Reads (IsCommandOf (codes "lookup")) result (given_of values.now) }
{
    let server = read_server(alloc, values)?;
    let name = read_name(alloc, values.get_str("NAME"))?;
    Ok(Command::Client(ClientCommand::Lookup { server, name }))
}

/// Returns what `bind` is told.
pub(crate) fn read_bind(alloc: Global, values: &ArgMatches) -> Result<Command, WordsFault>
    ensures { Reads (IsCommandOf (codes "bind")) result (given_of values.now) }
{
    let server = read_server(alloc, values)?;
    let name = read_name(alloc, values.get_str("NAME"))?;
    let from = read_name(alloc, values.get_str("FROM"))?;
    Ok(Command::Client(ClientCommand::Bind { server, name, from }))
}

/// Returns what `unbind` is told.
pub(crate) fn read_unbind(alloc: Global, values: &ArgMatches) -> Result<Command, WordsFault>
    ensures { Reads (IsCommandOf (codes "unbind")) result (given_of values.now) }
{
    let server = read_server(alloc, values)?;
    let name = read_name(alloc, values.get_str("NAME"))?;
    Ok(Command::Client(ClientCommand::Unbind { server, name }))
}

/// Returns where the words HOST and PORT say that a server is. The fault is Usage only where they say it of none.
pub(crate) fn read_server(alloc: Global, values: &ArgMatches) -> Result<ServerAddress, WordsFault>
    ensures { Reads IsAddressIn result (named_words (values_of values.now)) }
{
    let host = read_text(alloc, values.get_str("HOST"))?;
    match read_small_of(values.get_str("PORT")) {
        Some(port) => Ok(ServerAddress { host, port }),
        None => Err(WordsFault::Usage),
    }
}

/// Returns the name that a word is. The fault is Usage only where it is too long or left out.
pub(crate) fn read_name(alloc: Global, word: Option<&str>) -> Result<Name, WordsFault>
    ensures { Reads IsTextIn result (option_map (λ text. text.now) word.entry) }
{
    match Name::new(read_text(alloc, word)?) {
        Ok(name) => Ok(name),
        Err(_) => Err(WordsFault::Usage),
    }
}

/// Returns the text of a word, at most 255 units. The fault is Usage only where it is longer or left out.
fn read_text(alloc: Global, word: Option<&str>) -> Result<Units, WordsFault>
    ensures text { Reads IsTextIn result (option_map (λ text. text.now) word.entry) }
    ensures short { IfOk result (λ units. length units ≤ MAX_NAME_UNITS) }
{
    match word {
        Some(text) => match units_of_text(alloc, text) {
            Ok(units) if units.len() <= MAX_NAME_UNITS => Ok(units),
            Ok(_) => Err(WordsFault::Usage),
            Err(_) => Err(WordsFault::OutOfMemory),
        },
        None => Err(WordsFault::Usage),
    }
}
