//! The words of `host`.
ghost use Rattle.std.specs.Prelude.{◌≡◌, codes, option_map, IfOk};
ghost use Rattle.journal.specs.Reading.{Finds};
ghost use Rattle.rmi_words.specs.Clients.{Reads};
ghost use Rattle.rmi_words.specs.HostWords.{IsAddress, IsOwnHost, IsRecordOf};
ghost use Rattle.rmi_words.specs.Values.{IsCommandOf, given_of};

use crate::command::{Command, WordsFault};
use crate::options::{LeaseOptions, read_lease_options, read_small_of};
use clap::ArgMatches;
use mod_utf::{encoded_len, units_of_text};
use sequence::Units;
use std::alloc::{AllocError, Global};
use std::marker::Model;
use wire_io::MAX_HOST_BYTES;

/// An address to listen on, a name or the numbers of one. Contracts see it as its bytes.
#[derive(Debug, Drop)]
pub struct Address {
    text: String,
}

impl Model for Address {
    ghost use Rattle.std.specs.Prelude.{List, ℕ, string_bytes};

    ghost Value = { List ℕ };

    ghost view = { λ a. string_bytes a.text };
}

impl Address {
    /// Makes the address of this text.
    pub fn new(alloc: Global, text: &str) -> Result<Address, AllocError>
        ensures { IfOk result (λ address. address ≡ text.now) }
    {
        let mut copied = String::new(alloc);
        copied.push_str(text)?;
        Ok(Address { text: copied })
    }

    /// Returns its text.
    pub fn as_str(&self) -> &str
        ensures { result.now ≡ self.now }
    {
        self.text.as_str()
    }
}

/// What `host` prints.
#[derive(Clone, Copy, Debug, PartialEq, Eq)]
pub enum Record {
    /// `silent`: what is exported at the end.
    Silent,
    /// `journal`: a journal of all events, as they are made.
    Journal,
}

/// The words of `host`.
#[derive(Debug)]
pub struct HostWords {
    /// The address that is listened on: at most 255 bytes.
    pub address: Address,
    /// The host that references name: at most 255 bytes as modified UTF.
    pub host: Units,
    /// The port that is listened on, and that references name.
    pub port: u16,
    /// The options on which links are served.
    pub options: LeaseOptions,
    /// What is printed.
    pub output: Record,
}

// Written out, so that whoever owns one has one call at each exit, and not the drop of each field.
impl Drop for HostWords {
    fn drop(self) {
        let HostWords {
            address,
            host,
            port: _,
            options: _,
            output: _,
        } = self;
        drop(address);
        drop(host);
    }
}

/// Returns what `host` is told.
pub(crate) fn read_host(alloc: Global, values: &ArgMatches) -> Result<Command, WordsFault>
    ensures { Reads (IsCommandOf (codes "host")) result (given_of values.now) }
{
    let port = match read_small_of(values.get_str("PORT")) {
        Some(port) => port,
        None => return Err(WordsFault::Usage),
    };
    let options = match read_lease_options(values) {
        Some(options) => options,
        None => return Err(WordsFault::Usage),
    };
    let output = match read_record(values.get_str("RECORD")) {
        Some(output) => output,
        None => return Err(WordsFault::Usage),
    };
    let address = read_address(alloc, values.get_str("ADDRESS"))?;
    let host = read_own_host(alloc, values.get_str("HOST"))?;
    Ok(Command::Host(HostWords {
        address,
        host,
        port,
        options,
        output,
    }))
}

/// Returns what is printed, as the word `silent` or `journal` says. Where there is no word, it is `silent`. Any other word gives None.
fn read_record(word: Option<&str>) -> Option<Record>
    ensures { Finds IsRecordOf result (option_map (λ text. text.now) word.entry) }
{
    match word {
        Some("journal") => Some(Record::Journal),
        Some("silent") | None => Some(Record::Silent),
        Some(_) => None,
    }
}

/// Returns the address that a word is. The fault is Usage only where it is too long or left out.
fn read_address(alloc: Global, word: Option<&str>) -> Result<Address, WordsFault>
    ensures { Reads IsAddress result (option_map (λ text. text.now) word.entry) }
{
    match word {
        Some(text) if text.len() as u64 <= MAX_HOST_BYTES => match Address::new(alloc, text) {
            Ok(address) => Ok(address),
            Err(_) => Err(WordsFault::OutOfMemory),
        },
        Some(_) => Err(WordsFault::Usage),
        None => Err(WordsFault::Usage),
    }
}

/// Returns the host that a word is. The fault is Usage only where it is too long or left out.
fn read_own_host(alloc: Global, word: Option<&str>) -> Result<Units, WordsFault>
    ensures { Reads IsOwnHost result (option_map (λ text. text.now) word.entry) }
{
    match word {
        Some(text) => match units_of_text(alloc, text) {
            Ok(host) if encoded_len(&host) <= MAX_HOST_BYTES => Ok(host),
            Ok(_) => Err(WordsFault::Usage),
            Err(_) => Err(WordsFault::OutOfMemory),
        },
        None => Err(WordsFault::Usage),
    }
}
