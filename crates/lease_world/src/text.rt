//! The end of a world as text.
ghost use Rattle.std.specs.Prelude.{◌≡◌, ◌++◌, flat_map, pos, length, IfOk, OnOk};
ghost use Rattle.dgc_client.specs.StandsForLog.{ForEachLog, is_usable_after};
ghost use Rattle.lease_world.specs.Script.{end_text, ref_line, client_lines, clients_lines, until_line};
ghost use Rattle.lease_world.specs.Stands.{ForEachCourse};
ghost use Rattle.lease_world.specs.World.{world};

use crate::world::World;
use dgc_client::{ClientRef, ClientTable};
use journal::Word;
use journal::outline::put_line;
use sequence::ByteList;
use space::outline;
use std::alloc::{AllocError, Global};

/// Appends the line of a reference of a client.
fn put_ref(
    text: &mut ByteList,
    client: u64,
    reference: &ClientRef,
    is_usable: bool,
) -> Result<(), AllocError>
    ensures { OnOk result (text.new ≡ text.old ++ ref_line client reference.now is_usable) }
{
    let sure: &[u8] = if reference.sure { b"sure" } else { b"unsure" };
    let usable: &[u8] = if is_usable { b"usable" } else { b"lapsed" };
    put_line(
        text,
        &[
            Word::Text(b"ref"),
            Word::Number(client),
            Word::Signed(reference.id.number),
            Word::Text(sure),
            Word::Text(usable),
        ],
    )
}

/// Appends the lines of references of a client.
fn put_refs(
    text: &mut ByteList,
    client: u64,
    table: &ClientTable,
    refs: &[ClientRef],
    now: u64,
) -> Result<(), AllocError>
    ensures { OnOk result
        (ForEachLog table.now (λ vmid first log. text.new
        ≡ text.old ++ flat_map (λ r. ref_line client r (is_usable_after first log r.id now))
        refs.now)) }
{
    for reference in refs {
        put_ref(text, client, reference, table.usable(reference.id, now))?;
    }
    Ok(())
}

/// Appends the line of a client's time.
fn put_until(text: &mut ByteList, client: u64, until: u64) -> Result<(), AllocError>
    ensures { OnOk result (text.new ≡ text.old ++ until_line client until) }
{
    put_line(
        text,
        &[
            Word::Text(b"client"),
            Word::Number(client),
            Word::Text(b"until"),
            Word::Number(until),
        ],
    )
}

/// Appends the lines of a client.
fn put_client(
    alloc: Global,
    text: &mut ByteList,
    client: u64,
    table: &ClientTable,
    now: u64,
) -> Result<(), AllocError>
    ensures { OnOk result
        (ForEachLog table.now
        (λ vmid first log. first ≡ pos 0 → text.new ≡ text.old ++ client_lines client now log)) }
{
    put_until(text, client, table.until())?;
    let refs = table.refs().list(alloc)?;
    put_refs(text, client, table, refs.as_slice(), now)
}

impl World {
    /// Returns what is printed of a world: the outline of the server's space, and the lines of its clients. It is refused only for want of memory.
    pub(crate) fn print(&self) -> Result<ByteList, AllocError>
        ensures { IfOk result
            (λ text. ForEachCourse self.now (λ course. text ≡ end_text (world course))) }
    {
        let mut text = outline(self.alloc, &self.space)?;
        self.put_clients(&mut text)?;
        Ok(text)
    }

    /// Appends the lines of the clients.
    fn put_clients(&self, text: &mut ByteList) -> Result<(), AllocError>
        ensures { OnOk result (ForEachCourse self.now (λ course.
            text.new ≡ text.old ++ clients_lines (world course) (world course).clients)) }
    {
        let now = self.moment;
        let mut number = 0;
        while number < self.members.len() {
            put_client(
                self.alloc,
                text,
                number as u64,
                &self.members[number].table,
                now,
            )?;
            number += 1;
        }
        Ok(())
    }
}
