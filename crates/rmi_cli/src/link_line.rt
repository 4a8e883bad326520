//! The lines on the errors' sink that a server for good writes: one when it listens, and one for each link that has ended.
ghost use Rattle.std.specs.Prelude.{◌≡◌, ◌∷◌, ◌++◌, IfOk, OnOk, decimal};
ghost use Rattle.rmi_cli.specs.LinkLine.{listening_line, peer_part, end_part, counts_part};

use crate::talk_text::{put_port, put_shown};
use call_dispatch::ConnEnd;
use journal::put::put_decimal;
use sequence::{ByteList, Units};
use std::alloc::{AllocError, Global};

/// A link that has ended, as its line tells it.
#[derive(Drop)]
pub struct EndedLink {
    /// Its number, from 1 in the order of accepting.
    pub number: u32,
    /// The peer's host, as a text.
    pub host: Units,
    /// The peer's port.
    pub port: i32,
    /// The end of its connection.
    pub end: ConnEnd,
    /// The number of calls that began on it.
    pub calls: u64,
    /// The time from the moment of the turn before it to the moment at which its report was handed on, in milliseconds. That is up to a second after its
    /// end.
    pub milliseconds: u64,
}

impl EndedLink {
    ghost use Rattle.std.specs.Prelude.{◌≡◌, IfOk};
    ghost use Rattle.rmi_cli.specs.LinkLine.{link_line};

    /// Returns its line: `link NUMBER HOST PORT END calls CALLS ms MILLISECONDS`, and a line feed. The host is in UTF-8, with U+FFFD for each
    /// surrogate that has no partner.
    pub fn line(&self, alloc: Global) -> Result<ByteList, AllocError>
        ensures { IfOk result (λ line. line ≡ link_line self.now) }
    {
        let mut line = ByteList::new(alloc);
        line.append(b"link ")?;
        put_decimal(&mut line, u64::from(self.number))?;
        put_peer(alloc, &mut line, &self.host, self.port)?;
        put_end(alloc, &mut line, &self.end)?;
        put_counts(&mut line, self.calls, self.milliseconds)?;
        line.push(b'\n')?;
        Ok(line)
    }
}

/// Appends a blank and a peer's host and port.
fn put_peer(alloc: Global, out: &mut ByteList, host: &Units, port: i32) -> Result<(), AllocError>
    ensures { OnOk result (out.new ≡ out.old ++ peer_part host.now port) }
{
    out.push(b' ')?;
    put_shown(alloc, out, host)?;
    put_port(out, port)
}

/// Appends a blank and the words of an end.
fn put_end(alloc: Global, out: &mut ByteList, end: &ConnEnd) -> Result<(), AllocError>
    ensures { OnOk result (out.new ≡ out.old ++ end_part end.now) }
{
    out.push(b' ')?;
    let words = end.to_string(alloc)?;
    out.append(words.as_bytes())
}

/// Appends the number of calls and of milliseconds.
fn put_counts(out: &mut ByteList, calls: u64, milliseconds: u64) -> Result<(), AllocError>
    ensures { OnOk result (out.new ≡ out.old ++ counts_part calls milliseconds) }
{
    out.append(b" calls ")?;
    put_decimal(out, calls)?;
    out.append(b" ms ")?;
    put_decimal(out, milliseconds)
}

/// Returns the line that tells where a server listens: `listening ADDRESS PORT`, and a line feed.
pub fn listening_line(alloc: Global, address: &str, port: u16) -> Result<ByteList, AllocError>
    ensures { IfOk result (λ line. line ≡ listening_line address.now port) }
{
    let mut line = ByteList::new(alloc);
    line.append(b"listening ")?;
    line.append(address.as_bytes())?;
    put_blank_and_number(&mut line, u64::from(port))?;
    line.push(b'\n')?;
    Ok(line)
}

/// Appends a blank and a number.
fn put_blank_and_number(out: &mut ByteList, number: u64) -> Result<(), AllocError>
    ensures { OnOk result (out.new ≡ out.old ++ 32 ∷ decimal number) }
{
    out.push(b' ')?;
    put_decimal(out, number)
}
