//! The answer of a turn and what it adds, found before anything changes.
ghost use Rattle.std.specs.Prelude.{◌≡◌, ◌+◌, ◌≤◌, ◌<◌, true, drop, length, map, option_and_then, None, Some, IfOk, IfErr, vec_len, vec_capacity};
ghost use Rattle.rmi_registry.specs.Bindings.{names_in, object_of};
ghost use Rattle.history.specs.Names.{name_in};
ghost use Rattle.history.specs.Places.{id_at};
ghost use Rattle.history.specs.declared.limits.TheConstants.{END_OF_OBJECT_COUNT};
ghost use Rattle.space.specs.Doubts.{AreInDoubt, taken_by};
ghost use Rattle.space.specs.Acts.{Agrees, await_refusal, effective_by, opens, reply_at, returned_by, room_refusal};

use crate::acts::{fit_list, gone_ids};
use crate::asks::{is_effective, opens, reply_at, room_refusal, stood_for};
use crate::doubts::in_doubt;
use crate::returns::returned_objects;
use crate::tables::Tables;
use history::{Ask, Refused, Reply, Turn};
use object_ids::{ObjId, ObjIds};
use std::alloc::{AllocError, Global};

/// The facts of a request that may be taken, by the limits of the history and of the exported objects.
#[derive(Clone, Copy)]
pub(crate) struct Admitted {
    /// The object for which its name stands, if there is a name and it stands for something.
    pub stood: Option<ObjId>,
    /// True where it is effective.
    pub effective: bool,
}

/// Looks up what an ask's name stands for, and whether the ask of this connection is effective. It is refused where there is no room for it in the
/// history, or among the exported objects.
pub(crate) fn admit(tables: &Tables, by: u32, ask: &Ask) -> Result<Admitted, Refused>
    ensures stood { IfOk result
        (λ a. a.stood ≡ option_and_then (object_of tables.now.names) (name_in ask.now)) }
    ensures effective { IfOk result (λ a. a.effective
        ≡ effective_by tables.now.exports.rows tables.now.runs.items a.stood by ask.now) }
    ensures room { IfOk result (λ a. room_refusal tables.now.config.stored tables.now.units
        (length tables.now.runs.items) (length tables.now.exports.rows) a.effective ask.now
        ≡ None) }
    ensures refused { IfErr result (λ refused.
        let stood = option_and_then (object_of tables.now.names) (name_in ask.now) in
        let effective = effective_by tables.now.exports.rows tables.now.runs.items stood by
        ask.now in
        room_refusal tables.now.config.stored tables.now.units (length tables.now.runs.items)
        (length tables.now.exports.rows) effective ask.now ≡ Some refused) }
{
    let stood = stood_for(&tables.names, ask);
    let effective = is_effective(&tables.exports, &tables.runs, stood, by, ask);
    match room_refusal(tables, effective, ask) {
        Some(refused) => Err(refused),
        None => Ok(Admitted { stood, effective }),
    }
}

/// The objects that a turn is about.
pub(crate) struct Listed {
    /// The objects to which it returns references.
    pub references: Vec<ObjId>,
    /// The objects from which it, or the time that passed, may take what keeps them.
    pub doubtful: Vec<ObjId>,
}

/// Written out, as that of `Prepared` is.
impl Drop for Listed {
    fn drop(self) {
        let Listed {
            references,
            doubtful,
        } = self;
        drop(references);
        drop(doubtful);
    }
}

/// The objects that a turn reports as gone.
pub(crate) struct Untold {
    /// The objects of the withdrawals that are still to be told, with room for those in doubt.
    pub gone: Vec<ObjId>,
    /// Room for a copy of them all, where one is asked for.
    pub spare: Vec<ObjId>,
}

/// Written out, as that of `Prepared` is.
impl Drop for Untold {
    fn drop(self) {
        let Untold { gone, spare } = self;
        drop(gone);
        drop(spare);
    }
}

impl Untold {
    /// The list of the objects that a turn tells as gone, and a copy of it, where one is asked for: there is room for it.
    fn into_lists(self, alloc: Global, noted: bool) -> (ObjIds, ObjIds)
        requires { noted ≡ true → length self.gone.items ≤ vec_capacity self.spare }
        ensures gone { result.0 ≡ self.gone.items }
        ensures copy { noted ≡ true → result.1 ≡ result.0 }
    {
        let Untold { gone, spare } = self;
        let gone = gone_ids(alloc, gone);
        let copy = if noted {
            fit_list(alloc, spare, &gone)
        } else {
            ObjIds::new(alloc)
        };
        (gone, copy)
    }
}

/// The answer of a turn and what it adds.
pub(crate) struct Prepared {
    /// The number of objects that it exports.
    pub opened: u64,
    /// The number of objects that are exported then, before any is withdrawn.
    pub objects: usize,
    /// The objects that it is about.
    pub listed: Listed,
    /// The objects that it reports as gone.
    pub untold: Untold,
    /// Its reply.
    pub reply: Reply,
}

/// Written out: a function that owns one then calls this at each of its exits.
impl Drop for Prepared {
    fn drop(self) {
        let Prepared {
            opened: _,
            objects: _,
            listed,
            untold,
            reply,
        } = self;
        drop(listed);
        drop(untold);
        drop(reply);
    }
}

impl Prepared {
    /// The turn at a place, and a copy of the objects that it tells as gone, where one is asked for: there is room for it.
    pub(crate) fn into_turn(self, alloc: Global, place: u64, noted: bool) -> (Turn, ObjIds)
        requires { noted ≡ true → length self.untold.gone.items ≤ vec_capacity self.untold.spare }
        ensures turn { result.0 ≡ record
            { place = place; reply = self.reply; gone = self.untold.gone.items } }
        ensures copy { noted ≡ true → result.1 ≡ result.0.gone }
    {
        let Prepared {
            opened: _,
            objects: _,
            listed,
            untold,
            reply,
        } = self;
        drop(listed);
        let (gone, copy) = untold.into_lists(alloc, noted);
        (Turn { place, reply, gone }, copy)
    }
}

/// Finds the answer of an admitted turn at a moment and what it adds. It is refused where the references that it returns
/// would pass the limit of those that await.
pub(crate) fn prepare(
    tables: &Tables,
    admitted: Admitted,
    now: u64,
    noted: bool,
    ask: &Ask,
) -> Result<Prepared, Refused>
    requires countable { tables.now.added + opens admitted.effective ask.now < END_OF_OBJECT_COUNT }
    requires told { tables.now.withdrawn.told ≤ tables.now.reported }
    requires reported { tables.now.reported ≤ length tables.now.withdrawn.items }
    ensures opened { IfOk result (λ p. p.opened ≡ opens admitted.effective ask.now) }
    ensures objects { IfOk result
        (λ p. p.objects ≡ length tables.now.exports.rows + opens admitted.effective ask.now) }
    ensures references { IfOk result (λ p. p.listed.references.items
        ≡ returned_by tables.now.config.uid tables.now.added tables.now.exports.rows
        admitted.stood admitted.effective ask.now) }
    ensures doubtful { IfOk result (λ p. AreInDoubt tables.now.leases now tables.now.exports.waits
        (taken_by tables.now.exports.waits (id_at tables.now.config.uid tables.now.added)
        admitted.stood p.listed.references.items ask.now) p.listed.doubtful.items) }
    ensures gone { IfOk result (λ p. p.untold.gone.items
        ≡ map (λ w. w.object) (drop tables.now.reported tables.now.withdrawn.items)) }
    ensures room { IfOk result
        (λ p. vec_len p.untold.gone + length p.listed.doubtful.items ≤ vec_capacity p.untold.gone) }
    ensures spare { IfOk result (λ p. noted ≡ true
        → vec_len p.untold.gone + length p.listed.doubtful.items ≤ vec_capacity p.untold.spare) }
    ensures reply { IfOk result (λ p. p.reply ≡ reply_at tables.now.config tables.now.added
        tables.now.exports.rows (names_in tables.now.names) admitted.stood admitted.effective
        ask.now) }
    ensures refusal { Agrees
        (await_refusal now tables.now.exports.rows tables.now.exports.waits admitted.stood
        admitted.effective ask.now) result }
{
    let opened = opens(admitted.effective, ask);
    let objects = tables.exports.count() as usize + opened as usize;
    let (listed, untold) = listed_and_untold(tables, admitted, now, noted, ask)?;
    let reply = reply_at(tables, admitted, ask)?;
    Ok(Prepared {
        opened,
        objects,
        listed,
        untold,
        reply,
    })
}

/// The objects that an admitted turn at a moment is about, and those that it tells as gone. It is refused where the references that it returns
/// would pass the limit of those that await.
fn listed_and_untold(
    tables: &Tables,
    admitted: Admitted,
    now: u64,
    noted: bool,
    ask: &Ask,
) -> Result<(Listed, Untold), Refused>
    requires countable { tables.now.added + opens admitted.effective ask.now < END_OF_OBJECT_COUNT }
    requires told { tables.now.withdrawn.told ≤ tables.now.reported }
    requires reported { tables.now.reported ≤ length tables.now.withdrawn.items }
    ensures references { IfOk result (λ x. x.0.references.items
        ≡ returned_by tables.now.config.uid tables.now.added tables.now.exports.rows
        admitted.stood admitted.effective ask.now) }
    ensures doubtful { IfOk result (λ x. AreInDoubt tables.now.leases now tables.now.exports.waits
        (taken_by tables.now.exports.waits (id_at tables.now.config.uid tables.now.added)
        admitted.stood x.0.references.items ask.now) x.0.doubtful.items) }
    ensures gone { IfOk result (λ x. x.1.gone.items
        ≡ map (λ w. w.object) (drop tables.now.reported tables.now.withdrawn.items)) }
    ensures room { IfOk result
        (λ x. vec_len x.1.gone + length x.0.doubtful.items ≤ vec_capacity x.1.gone) }
    ensures spare { IfOk result (λ x. noted ≡ true
        → vec_len x.1.gone + length x.0.doubtful.items ≤ vec_capacity x.1.spare) }
    ensures refusal { Agrees
        (await_refusal now tables.now.exports.rows tables.now.exports.waits admitted.stood
        admitted.effective ask.now) result }
{
    let listed = listed_by(tables, admitted, now, ask)?;
    let untold = untold_with(tables, noted, listed.doubtful.len())?;
    Ok((listed, untold))
}

/// The objects that an admitted turn at a moment is about. It is refused where the references that it returns would pass the limit of those
/// that await.
fn listed_by(tables: &Tables, admitted: Admitted, now: u64, ask: &Ask) -> Result<Listed, Refused>
    requires countable { tables.now.added + opens admitted.effective ask.now < END_OF_OBJECT_COUNT }
    ensures references { IfOk result (λ l. l.references.items
        ≡ returned_by tables.now.config.uid tables.now.added tables.now.exports.rows
        admitted.stood admitted.effective ask.now) }
    ensures doubtful { IfOk result (λ l. AreInDoubt tables.now.leases now tables.now.exports.waits
        (taken_by tables.now.exports.waits (id_at tables.now.config.uid tables.now.added)
        admitted.stood l.references.items ask.now) l.doubtful.items) }
    ensures refusal { Agrees
        (await_refusal now tables.now.exports.rows tables.now.exports.waits admitted.stood
        admitted.effective ask.now) result }
{
    let references = returned_objects(tables, admitted, now, ask)?;
    let doubtful = in_doubt(tables, admitted.stood, &references, now, ask)?;
    Ok(Listed {
        references,
        doubtful,
    })
}

/// The objects that are still to be told as gone, with room for so many more, and for a copy of them all, where one is asked for.
fn untold_with(tables: &Tables, noted: bool, most: usize) -> Result<Untold, AllocError>
    requires told { tables.now.withdrawn.told ≤ tables.now.reported }
    requires reported { tables.now.reported ≤ length tables.now.withdrawn.items }
    ensures gone { IfOk result (λ u.
        u.gone.items ≡ map (λ w. w.object) (drop tables.now.reported tables.now.withdrawn.items)) }
    ensures room { IfOk result (λ u. vec_len u.gone + most ≤ vec_capacity u.gone) }
    ensures spare { IfOk result (λ u. noted ≡ true → vec_len u.gone + most ≤ vec_capacity u.spare) }
{
    let gone = tables
        .withdrawn
        .still_to_tell(tables.alloc, tables.reported, most)?;
    let spare = room_for_copy(tables.alloc, noted, gone.len() + most)?;
    Ok(Untold { gone, spare })
}

/// Room for so many objects, where a copy is asked for.
fn room_for_copy(alloc: Global, noted: bool, most: usize) -> Result<Vec<ObjId>, AllocError>
    ensures { IfOk result (λ spare. noted ≡ true → most ≤ vec_capacity spare) }
{
    if noted {
        Vec::with_capacity(alloc, most)
    } else {
        Ok(Vec::new(alloc))
    }
}
