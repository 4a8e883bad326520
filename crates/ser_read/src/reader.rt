//! Reading a stream want by want.
ghost use Rattle.std.specs.Prelude.{◌≡◌, ◌≢◌, [], ◌∷◌, length, OnOk, IfOk, IfErr, Some, None, Err};
ghost use Rattle.stream_grammar.specs.Reading.{magic_at};
ghost use Rattle.ser_read.specs.declared.fault.StreamFault.{StreamFault};
ghost use Rattle.ser_read.specs.declared.fault.StreamFault.TheVariants.{Bad};
ghost use Rattle.ser_read.specs.declared.fault.StreamKind.TheVariants.{BlockLeft};
ghost use Rattle.ser_read.specs.Here.{env, Caused, GivesTold, ReadsTaken, StopsTaken};
ghost use Rattle.ser_read.specs.Wants.{WantGivesTold, WantGives, WantStopsTaken, WantReadsTaken, bytes_at, counted_at, reference_at, slot_next, serve, close_at, nothing_read};
ghost use Rattle.ser_read.specs.Tables.{now_of};
ghost use Rattle.ser_read.specs.ReaderStand.{stand_of};

use crate::block::{Head, next_head, run, run_into};
use crate::fault::{StreamFault, StreamKind};
use crate::header::magic;
use crate::pieces::{add, bad, count_parts};
use crate::reading::construct;
use crate::serving::{Want, serve_all};
use crate::table::Table;
use class_desc::{Item, Items, Slot};
use sequence::ByteList;
use ser_values::limits::LEVELS;
use ser_values::{Graph, Node, SlotPlace};
use std::alloc::Global;
use std::marker::Model;
use wire_io::pull::Pull;
use wire_io::source::Source;

/// The state of a reader.
#[derive(Drop)]
pub(crate) struct Stand {
    /// The nodes so far.
    table: Table,
    /// The items so far.
    items: Vec<Item>,
    /// The number of bytes of the present block that are left.
    block: u32,
}

/// The next bytes of block data, across blocks.
#[tactic(auto, unfolding(crate::specs::Wants::bytes_at))]
fn bytes_in<S: Source>(
    alloc: Global,
    pull: &mut Pull<'_, S>,
    stand: &mut Stand,
    n: u32,
) -> Result<ByteList, StreamFault>
    ensures lent { pull.new.source.ghost_name ≡ pull.old.source.ghost_name }
    ensures table { stand.new.table ≡ stand.old.table }
    ensures reads { WantReadsTaken S.half pull.old pull.new result
        (λ end. bytes_at end n (stand_of stand.old)) (λ x rest. (x, stand_of stand.new, rest)) }
    ensures stops { WantStopsTaken S.half pull.old pull.new result
        (λ end. bytes_at end n (stand_of stand.old)) }
{
    let bytes = run(alloc, pull, &mut stand.block, n)?;
    let copy = bytes.copy(alloc)?;
    add(&mut stand.items, Item::Bytes(copy))?;
    Ok(bytes)
}

/// The next bytes of block data, across blocks, into the whole of `buf`.
#[tactic(auto, unfolding(crate::specs::Wants::bytes_at))]
fn bytes_put<S: Source>(
    alloc: Global,
    pull: &mut Pull<'_, S>,
    stand: &mut Stand,
    buf: &mut [u8],
) -> Result<(), StreamFault>
    ensures lent { pull.new.source.ghost_name ≡ pull.old.source.ghost_name }
    ensures table { stand.new.table ≡ stand.old.table }
    ensures reads { WantReadsTaken S.half pull.old pull.new result
        (λ end. bytes_at end (length buf.old) (stand_of stand.old))
        (λ x rest. (buf.new, stand_of stand.new, rest)) }
    ensures stops { WantStopsTaken S.half pull.old pull.new result
        (λ end. bytes_at end (length buf.old) (stand_of stand.old)) }
{
    run_into(pull, &mut stand.block, buf)?;
    let copy = ByteList::from_slice(alloc, buf)?;
    add(&mut stand.items, Item::Bytes(copy))?;
    Ok(())
}

/// The reference or null behind its code, which is counted as a part once it was read.
fn counted<S: Source>(
    alloc: Global,
    pull: &mut Pull<'_, S>,
    table: &mut Table,
    at: u64,
    code: u8,
) -> Result<Slot, StreamFault>
    requires read { table.old.unread.items ≡ [] }
    ensures lent { pull.new.source.ghost_name ≡ pull.old.source.ghost_name }
    ensures read { OnOk result (table.new.unread.items ≡ []) }
    ensures reads { ReadsTaken S.half pull.old pull.new result
        (λ end. counted_at end at code (now_of table.old)) (λ x rest. (x, now_of table.new, rest)) }
    ensures stops { StopsTaken S.half pull.old pull.new result
        (λ end. counted_at end at code (now_of table.old)) }
{
    let slot = construct(alloc, pull, table, SlotPlace::Reference, LEVELS, at, code)?;
    count_parts(table, 1, at)?;
    Ok(slot)
}

/// The next reference, once no block data is left.
#[tactic(auto, unfolding(crate::specs::Wants::reference_at))]
fn reference<S: Source>(
    alloc: Global,
    pull: &mut Pull<'_, S>,
    table: &mut Table,
) -> Result<Slot, StreamFault>
    requires read { table.old.unread.items ≡ [] }
    ensures lent { pull.new.source.ghost_name ≡ pull.old.source.ghost_name }
    ensures read { OnOk result (table.new.unread.items ≡ []) }
    ensures reads { WantReadsTaken S.half pull.old pull.new result
        (λ end. reference_at end (now_of table.old)) (λ x rest. (x, now_of table.new, rest)) }
    ensures stops { WantStopsTaken S.half pull.old pull.new result
        (λ end. reference_at end (now_of table.old)) }
{
    match next_head(pull)? {
        Head::Block(_) => Err(bad(StreamKind::BlockLeft, pull.at)),
        Head::Code(code, at) => counted(alloc, pull, table, at, code),
    }
}

/// The next reference or null.
#[tactic(auto, unfolding(crate::specs::Wants::slot_next))]
fn slot_in<S: Source>(
    alloc: Global,
    pull: &mut Pull<'_, S>,
    stand: &mut Stand,
) -> Result<Slot, StreamFault>
    requires read { stand.old.table.unread.items ≡ [] }
    ensures lent { pull.new.source.ghost_name ≡ pull.old.source.ghost_name }
    ensures read { OnOk result (stand.new.table.unread.items ≡ []) }
    ensures reads { WantReadsTaken S.half pull.old pull.new result
        (λ end. slot_next end (stand_of stand.old)) (λ x rest. (x, stand_of stand.new, rest)) }
    ensures stops { WantStopsTaken S.half pull.old pull.new result
        (λ end. slot_next end (stand_of stand.old)) }
{
    if stand.block > 0 {
        return Err(bad(StreamKind::BlockLeft, pull.at));
    }
    let slot = reference(alloc, pull, &mut stand.table)?;
    stand.items.push(Item::Ref(slot))?;
    Ok(slot)
}

/// Reads a stream, want by want: block data and references, as its caller asks for them. It is handed its Pull at each call.
///
/// At a fault a call has taken exactly the bytes that show it; where a read failed or there was no memory, none that could be left out.
/// Every later call answers the same refusal and takes nothing.
pub struct Reader {
    stand: Stand,
    refused: Option<StreamFault>,
}

// Written out, so that whoever owns one has one call at each exit, and not the drop of each field.
impl Drop for Reader {
    fn drop(self) {
        let Reader { stand, refused: _ } = self;
        drop(stand);
    }
}

impl Model for Reader {
    ghost use Rattle.std.specs.Prelude.{◌≡◌, [], None};
    ghost use Rattle.ser_read.specs.ReaderStand.{stand_of};
    ghost use Rattle.ser_read.specs.Wants.{ReaderState, IsReached};

    ghost Value = { ReaderState };

    ghost view = { λ r. record { stand = stand_of r.stand; refused = r.refused } };

    ghost invariant = { λ r. r.refused ≡ None → (r.stand.table.unread.items ≡ []) × ∥ IsReached (stand_of r.stand) ∥₁ };
}

impl Reader {
    /// Reads the magic number and the version. `BadMagic` comes at the first byte that differs.
    pub fn start<S: Source>(alloc: Global, pull: &mut Pull<'_, S>) -> Result<Reader, StreamFault>
        ensures kept { IfOk result (λ reader. reader.refused ≡ None) }
        ensures stand { IfOk result (λ reader. reader.stand ≡ nothing_read) }
        ensures cause { Caused (S.half pull.old.source.now).faults
            (S.half pull.new.source.now).faults result }
        ensures lent { pull.new.source.ghost_name ≡ pull.old.source.ghost_name }
        ensures env { OnOk result (env S.half pull.new ≡ env S.half pull.old) }
        ensures gives { GivesTold S.half pull.old pull.new result
            (λ end. magic_at end (0xAC ∷ 0xED ∷ 0x00 ∷ 0x05 ∷ [])) (λ x rest. rest) }
        ensures reads { ReadsTaken S.half pull.old pull.new result
            (λ end. magic_at end (0xAC ∷ 0xED ∷ 0x00 ∷ 0x05 ∷ [])) (λ x rest. rest) }
        ensures stops { StopsTaken S.half pull.old pull.new result
            (λ end. magic_at end (0xAC ∷ 0xED ∷ 0x00 ∷ 0x05 ∷ [])) }
    {
        magic(pull)?;
        Ok(Reader {
            stand: Stand {
                table: Table::new(alloc),
                items: Vec::new(alloc),
                block: 0,
            },
            refused: None,
        })
    }

    /// The next `n` bytes of block data, across blocks. None are taken, and no block is begun, where `n` is 0.
    ///
    /// `MissingBlock`, or what else the code says, comes at a code that stands where block data is wanted.
    pub fn bytes<S: Source>(
        &mut self,
        alloc: Global,
        pull: &mut Pull<'_, S>,
        n: u32,
    ) -> Result<ByteList, StreamFault>
        ensures again { (fault : StreamFault) → self.old.refused ≡ Some fault → (result ≡ Err fault)
            × (self.new.refused ≡ Some fault) × (pull.new.source.now ≡ pull.old.source.now)
            × (pull.new.at ≡ pull.old.at) × (pull.new.stop ≡ pull.old.stop) }
        ensures kept { OnOk result (self.new.refused ≡ None) }
        ensures refused { IfErr result (λ fault. self.new.refused ≡ Some fault) }
        ensures cause { self.old.refused ≡ None → Caused (S.half pull.old.source.now).faults
            (S.half pull.new.source.now).faults result }
        ensures lent { pull.new.source.ghost_name ≡ pull.old.source.ghost_name }
        ensures env { OnOk result (env S.half pull.new ≡ env S.half pull.old) }
        ensures gives { self.old.refused ≡ None → WantGivesTold S.half pull.old pull.new result
            (λ end. bytes_at end n self.old.stand) (λ x rest. (x, self.new.stand, rest)) }
        ensures reads { WantReadsTaken S.half pull.old pull.new result
            (λ end. bytes_at end n self.old.stand) (λ x rest. (x, self.new.stand, rest)) }
        ensures stops { self.old.refused ≡ None → WantStopsTaken S.half pull.old pull.new result
            (λ end. bytes_at end n self.old.stand) }
    {
        if let Some(earlier) = self.refused {
            return Err(earlier);
        }
        match bytes_in(alloc, pull, &mut self.stand, n) {
            Ok(bytes) => Ok(bytes),
            Err(fault) => {
                self.refused = Some(fault);
                Err(fault)
            }
        }
    }

    /// The next bytes of block data, across blocks, into the whole of `buf`. None are taken, and no block is begun, where it is empty.
    ///
    /// Each fault comes as at [`Reader::bytes`]. What stands in `buf` after a fault is left open.
    pub fn bytes_into<S: Source>(
        &mut self,
        alloc: Global,
        pull: &mut Pull<'_, S>,
        buf: &mut [u8],
    ) -> Result<(), StreamFault>
        ensures again { (fault : StreamFault) → self.old.refused ≡ Some fault → (result ≡ Err fault)
            × (self.new.refused ≡ Some fault) × (pull.new.source.now ≡ pull.old.source.now)
            × (pull.new.at ≡ pull.old.at) × (pull.new.stop ≡ pull.old.stop) }
        ensures kept { OnOk result (self.new.refused ≡ None) }
        ensures refused { IfErr result (λ fault. self.new.refused ≡ Some fault) }
        ensures cause { self.old.refused ≡ None → Caused (S.half pull.old.source.now).faults
            (S.half pull.new.source.now).faults result }
        ensures lent { pull.new.source.ghost_name ≡ pull.old.source.ghost_name }
        ensures env { OnOk result (env S.half pull.new ≡ env S.half pull.old) }
        ensures gives { self.old.refused ≡ None → WantGivesTold S.half pull.old pull.new result
            (λ end. bytes_at end (length buf.old) self.old.stand)
            (λ x rest. (buf.new, self.new.stand, rest)) }
        ensures reads { WantReadsTaken S.half pull.old pull.new result
            (λ end. bytes_at end (length buf.old) self.old.stand)
            (λ x rest. (buf.new, self.new.stand, rest)) }
        ensures stops { self.old.refused ≡ None → WantStopsTaken S.half pull.old pull.new result
            (λ end. bytes_at end (length buf.old) self.old.stand) }
    {
        if let Some(earlier) = self.refused {
            return Err(earlier);
        }
        match bytes_put(alloc, pull, &mut self.stand, buf) {
            Ok(()) => Ok(()),
            Err(fault) => {
                self.refused = Some(fault);
                Err(fault)
            }
        }
    }

    /// The next reference or null. Empty blocks before it are passed over.
    ///
    /// `BlockLeft` comes at the first byte of block data that is left.
    pub fn slot<S: Source>(
        &mut self,
        alloc: Global,
        pull: &mut Pull<'_, S>,
    ) -> Result<Slot, StreamFault>
        ensures again { (fault : StreamFault) → self.old.refused ≡ Some fault → (result ≡ Err fault)
            × (self.new.refused ≡ Some fault) × (pull.new.source.now ≡ pull.old.source.now)
            × (pull.new.at ≡ pull.old.at) × (pull.new.stop ≡ pull.old.stop) }
        ensures kept { OnOk result (self.new.refused ≡ None) }
        ensures refused { IfErr result (λ fault. self.new.refused ≡ Some fault) }
        ensures cause { self.old.refused ≡ None → Caused (S.half pull.old.source.now).faults
            (S.half pull.new.source.now).faults result }
        ensures lent { pull.new.source.ghost_name ≡ pull.old.source.ghost_name }
        ensures env { OnOk result (env S.half pull.new ≡ env S.half pull.old) }
        ensures gives { self.old.refused ≡ None → WantGivesTold S.half pull.old pull.new result
            (λ end. slot_next end self.old.stand) (λ x rest. (x, self.new.stand, rest)) }
        ensures reads { WantReadsTaken S.half pull.old pull.new result
            (λ end. slot_next end self.old.stand) (λ x rest. (x, self.new.stand, rest)) }
        ensures stops { self.old.refused ≡ None → WantStopsTaken S.half pull.old pull.new result
            (λ end. slot_next end self.old.stand) }
    {
        if let Some(fault) = self.refused {
            return Err(fault);
        }
        match slot_in(alloc, pull, &mut self.stand) {
            Ok(slot) => Ok(slot),
            Err(fault) => {
                self.refused = Some(fault);
                Err(fault)
            }
        }
    }

    /// Answers wants, one after the other.
    ///
    /// Each fault comes as at [`Reader::bytes`] and [`Reader::slot`].
    pub fn serve<S: Source>(
        &mut self,
        alloc: Global,
        pull: &mut Pull<'_, S>,
        wants: &[Want],
    ) -> Result<Items, StreamFault>
        ensures again { (fault : StreamFault) → self.old.refused ≡ Some fault → (result ≡ Err fault)
            × (self.new.refused ≡ Some fault) × (pull.new.source.now ≡ pull.old.source.now)
            × (pull.new.at ≡ pull.old.at) × (pull.new.stop ≡ pull.old.stop) }
        ensures kept { OnOk result (self.new.refused ≡ None) }
        ensures refused { IfErr result (λ fault. self.new.refused ≡ Some fault) }
        ensures cause { self.old.refused ≡ None → Caused (S.half pull.old.source.now).faults
            (S.half pull.new.source.now).faults result }
        ensures lent { pull.new.source.ghost_name ≡ pull.old.source.ghost_name }
        ensures env { OnOk result (env S.half pull.new ≡ env S.half pull.old) }
        ensures gives { self.old.refused ≡ None → WantGivesTold S.half pull.old pull.new result
            (λ end. serve end wants.now self.old.stand) (λ x rest. (x, self.new.stand, rest)) }
        ensures reads { WantReadsTaken S.half pull.old pull.new result
            (λ end. serve end wants.now self.old.stand) (λ x rest. (x, self.new.stand, rest)) }
        ensures stops { self.old.refused ≡ None → WantStopsTaken S.half pull.old pull.new result
            (λ end. serve end wants.now self.old.stand) }
    {
        if let Some(earlier) = self.refused {
            return Err(earlier);
        }
        match serve_all(alloc, pull, self, wants) {
            Ok(answers) => Ok(answers),
            Err(fault) => {
                self.refused = Some(fault);
                Err(fault)
            }
        }
    }

    /// The nodes so far.
    pub fn nodes(&self) -> &[Node]
        ensures { result.now ≡ self.now.stand.progress.nodes }
    {
        self.stand.table.nodes.as_slice()
    }

    /// The items so far.
    pub fn items(&self) -> &[Item]
        ensures { result.now ≡ self.now.stand.items }
    {
        self.stand.items.as_slice()
    }

    /// All that was read. It takes no byte and no memory. `BlockLeft` comes at the first byte that is left of the present block, and no
    /// other fault comes.
    #[tactic(auto, unfolding(crate::specs::Wants::close_at))]
    pub fn close<S: Source>(self, pull: &Pull<'_, S>) -> Result<Graph, StreamFault>
        ensures again { (fault : StreamFault) → self.refused ≡ Some fault → result ≡ Err fault }
        ensures kept { OnOk result (self.refused ≡ None) }
        ensures cause { self.refused ≡ None → Caused (S.half pull.now.source.now).faults
            (S.half pull.now.source.now).faults result }
        ensures left { self.refused ≡ None → IfErr result
            (λ fault. (fault ≡ Bad BlockLeft pull.now.at) × (self.stand.block ≢ 0)) }
        ensures gives { self.refused ≡ None → WantGives (env S.half pull.now).after
            (λ graph. (graph.nodes, graph.items)) result (close_at pull.now.at self.stand) }
    {
        let Reader { stand, refused } = self;
        if let Some(fault) = refused {
            return Err(fault);
        }
        let Stand {
            table,
            items,
            block,
        } = stand;
        if block > 0 {
            return Err(bad(StreamKind::BlockLeft, pull.at));
        }
        Ok(Graph::from_parts(table.into_nodes(), Items::from_vec(items)))
    }
}
