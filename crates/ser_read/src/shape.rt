//! The shape of a class's objects.
ghost use Rattle.std.specs.Prelude.{◌≡◌, ◌∷◌, [], ◌&&◌, ◌||◌, not, true, None, if◌then◌else◌, ℕ, Bool, List, Option, Some, suc, IfOk, IfSome, option_map, reverse, slice_get};
ghost use Rattle.class_desc.specs.ClassDesc.{has_flag, lacks_flag};
ghost use Rattle.class_desc.specs.declared.slot.Slot.{Slot};
ghost use Rattle.class_desc.specs.declared.slot.Slot.TheVariants as slots;
ghost use Rattle.ser_values.specs.declared.limits.TheConstants.{PARTS};
ghost use Rattle.ser_values.specs.declared.node.Node.TheVariants.{Desc};
ghost use Rattle.stream_grammar.specs.Reading.{Row, chain_above, chain_of, class_fault, rows_of, old_external, bad_desc};
ghost use Rattle.ser_read.specs.ObjectRows.{class_rows};
ghost use Rattle.ser_read.specs.Chains.{shown, climb_by};
ghost use Rattle.ser_read.specs.Here.{kind_of, IsInBytes};

use crate::fault::StreamKind;
use crate::row::{ClassRow, Codes, Rows, codes_of};
use crate::table::Table;
use class_desc::{
    BLOCK_DATA, ClassDesc, ENUM, EXTERNALIZABLE, SERIALIZABLE, Slot, WRITE_METHOD, has_flag,
    lacks_flag,
};
use ser_values::Node;
use ser_values::limits::PARTS;
use std::alloc::{AllocError, Global};

/// The result of one step up a chain.
#[derive(Drop)]
pub(crate) enum Climb {
    /// Null, which is above the highest superclass.
    Top,
    /// No description.
    NoClass,
    /// A class.
    Class {
        /// The class's row.
        row: ClassRow,
        /// True where it is serializable or a proxy.
        is_serial: bool,
        /// Its superclass.
        parent: Slot,
    },
}

/// The classes of a chain.
#[derive(Drop)]
struct Chain {
    /// The classes' rows.
    rows: Rows,
    /// True where each class is serializable or a proxy.
    is_serial: bool,
}

/// The parts that an object of a class has, and why there are no such objects.
#[derive(Drop)]
pub(crate) struct ClassShape {
    /// The highest superclass's part first.
    pub(crate) rows: Rows,
    /// Why the class has no objects.
    pub(crate) fault: Option<StreamKind>,
}

/// Returns whether both hold.
fn both(a: bool, b: bool) -> bool
    ensures { result ≡ (a && b) }
{
    a && b
}

/// Returns the step up a chain at a node of it.
#[inline(never)]
fn link_of(alloc: Global, node: &Node) -> Result<Climb, AllocError>
    ensures { IfOk result (λ climb. (above : Slot → List Row × Bool)
        → shown (chain_above above (Some node.now)) ≡ climb_by above climb) }
{
    match node {
        Node::Desc(desc) => {
            let codes = codes_of(alloc, desc.fields.as_slice())?;
            let note = has_flag(desc.flags, WRITE_METHOD);
            let is_serial = has_flag(desc.flags, SERIALIZABLE);
            Ok(Climb::Class {
                row: ClassRow { codes, note },
                is_serial,
                parent: desc.parent,
            })
        }
        Node::Proxy(proxy) => Ok(Climb::Class {
            row: ClassRow {
                codes: Codes::new(alloc),
                note: false,
            },
            is_serial: true,
            parent: proxy.parent,
        }),
        Node::Text(_) => Ok(Climb::NoClass),
        Node::Object { .. } => Ok(Climb::NoClass),
        Node::Array { .. } => Ok(Climb::NoClass),
        Node::Class { .. } => Ok(Climb::NoClass),
        Node::Enum { .. } => Ok(Climb::NoClass),
    }
}

/// One step up a chain.
#[tactic(auto, unfolding(stream_grammar::specs::Reading::chain_of))]
fn step_up(alloc: Global, nodes: &[Node], slot: Slot) -> Result<Climb, AllocError>
    ensures { IfOk result (λ climb. (n : ℕ) → shown (chain_of (suc n) nodes.now slot)
        ≡ climb_by (chain_of n nodes.now) climb) }
{
    match slot {
        Slot::Null => Ok(Climb::Top),
        Slot::Node(number) => match nodes.get(number as usize) {
            None => Ok(Climb::NoClass),
            Some(node) => link_of(alloc, node),
        },
    }
}

/// The chain of a class, the class's own row first.
fn chain_up(alloc: Global, nodes: &[Node], class: u32) -> Result<Chain, AllocError>
    ensures rows { IfOk result (λ chain. reverse chain.rows
        ≡ (shown (chain_of PARTS nodes.now (slots.Node class))).0) }
    ensures is_serial { IfOk result (λ chain. chain.is_serial
        ≡ (shown (chain_of PARTS nodes.now (slots.Node class))).1) }
{
    let mut rows = Rows::new();
    let mut is_serial = true;
    let mut slot = Slot::Node(class);
    let mut left = PARTS;
    while left > 0 {
        match step_up(alloc, nodes, slot)? {
            Climb::Top => return Ok(Chain { rows, is_serial }),
            Climb::NoClass => {
                return Ok(Chain {
                    rows,
                    is_serial: false,
                });
            }
            Climb::Class {
                row,
                is_serial: also,
                parent,
            } => {
                rows = rows.and(alloc, row)?;
                is_serial = both(also, is_serial);
                slot = parent;
            }
        }
        left -= 1;
    }
    match slot {
        Slot::Null => Ok(Chain { rows, is_serial }),
        Slot::Node(_) => Ok(Chain {
            rows,
            is_serial: false,
        }),
    }
}

/// The chain of a class, the highest superclass first.
#[inline(never)]
fn chain_of(alloc: Global, nodes: &[Node], class: u32) -> Result<Chain, AllocError>
    ensures rows { IfOk result (λ chain. chain.rows
        ≡ class_rows (chain_of PARTS nodes.now (slots.Node class)).0) }
    ensures is_serial { IfOk result (λ chain. chain.is_serial
        ≡ (chain_of PARTS nodes.now (slots.Node class)).1) }
{
    let Chain { rows, is_serial } = chain_up(alloc, nodes, class)?;
    Ok(Chain {
        rows: rows.into_reverse(),
        is_serial,
    })
}

/// The chain of a class that is described, the highest superclass first.
#[inline(always)]
#[tactic(auto, using(crate::proofs::Links::one_chain))]
fn desc_chain(
    alloc: Global,
    nodes: &[Node],
    class: u32,
    desc: &ClassDesc,
) -> Result<Chain, AllocError>
    requires { slice_get nodes.now class ≡ Some (Desc desc.now) }
    ensures rows { IfOk result (λ chain. chain.rows
        ≡ class_rows (chain_of PARTS nodes.now (slots.Node class)).0) }
    ensures is_serial { IfOk result (λ chain. chain.is_serial
        ≡ (chain_of PARTS nodes.now (slots.Node class)).1) }
{
    match desc.parent {
        Slot::Null => {
            let codes = codes_of(alloc, desc.fields.as_slice())?;
            let note = has_flag(desc.flags, WRITE_METHOD);
            Ok(Chain {
                rows: Rows::one(ClassRow { codes, note }),
                is_serial: has_flag(desc.flags, SERIALIZABLE),
            })
        }
        Slot::Node(_) => chain_of(alloc, nodes, class),
    }
}

/// Why a class with these flags has no objects.
fn desc_fault(flags: u8, is_array: bool, is_serial: bool) -> Option<StreamKind>
    ensures kind { option_map kind_of result
        ≡ (if has_flag flags 4 && not (has_flag flags 8) then Some old_external else
        (if lacks_flag flags 16 && (not is_array && (has_flag flags 4 || is_serial)) then None else
        Some bad_desc)) }
    ensures known { IfSome result IsInBytes }
{
    if has_flag(flags, EXTERNALIZABLE) && !has_flag(flags, BLOCK_DATA) {
        Some(StreamKind::OldExternal)
    } else if lacks_flag(flags, ENUM)
        && (!is_array && (has_flag(flags, EXTERNALIZABLE) || is_serial))
    {
        None
    } else {
        Some(StreamKind::BadDesc)
    }
}

/// Why a proxy class has no objects.
fn proxy_fault(is_serial: bool) -> Option<StreamKind>
    ensures kind { option_map kind_of result ≡ (if is_serial then None else Some bad_desc) }
    ensures known { IfSome result IsInBytes }
{
    if is_serial {
        None
    } else {
        Some(StreamKind::BadDesc)
    }
}

/// The one row of an externalizable class: a note alone.
fn external_rows(alloc: Global) -> Rows
    ensures { result ≡ class_rows (([], true) ∷ []) }
{
    Rows::one(ClassRow {
        codes: Codes::new(alloc),
        note: true,
    })
}

/// The parts that an object of a class has, and why the class has no objects. A chain that is looked through has a part for
/// each of its classes.
#[inline(always)]
pub(crate) fn shape_of(alloc: Global, table: &Table, class: u32) -> Result<ClassShape, AllocError>
    ensures rows { IfOk result (λ shape. shape.rows
        ≡ class_rows (rows_of (slice_get table.now.nodes.items class)
        (chain_of PARTS table.now.nodes.items (slots.Node class)).0)) }
    ensures fault { IfOk result (λ shape. option_map kind_of shape.fault
        ≡ class_fault (slice_get table.now.nodes.items class)
        (chain_of PARTS table.now.nodes.items (slots.Node class)).1) }
    ensures known { IfOk result (λ shape. IfSome shape.fault IsInBytes) }
{
    match table.node(class) {
        Some(Node::Desc(desc)) => {
            let is_array = table.elements_at(class).is_some();
            if has_flag(desc.flags, EXTERNALIZABLE) {
                let rows = external_rows(alloc);
                let fault = desc_fault(desc.flags, is_array, false);
                Ok(ClassShape { rows, fault })
            } else {
                let chain = desc_chain(alloc, table.nodes.as_slice(), class, desc)?;
                let fault = desc_fault(desc.flags, is_array, chain.is_serial);
                Ok(ClassShape {
                    rows: chain.rows,
                    fault,
                })
            }
        }
        Some(Node::Proxy(_)) => {
            let chain = chain_of(alloc, table.nodes.as_slice(), class)?;
            let fault = proxy_fault(chain.is_serial);
            Ok(ClassShape {
                rows: chain.rows,
                fault,
            })
        }
        _ => {
            let chain = chain_of(alloc, table.nodes.as_slice(), class)?;
            Ok(ClassShape {
                rows: chain.rows,
                fault: Some(StreamKind::BadDesc),
            })
        }
    }
}
