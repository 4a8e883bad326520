//! The parts of an object's class that are read.
ghost use Rattle.std.specs.Prelude.{◌≡◌, ◌≤◌, ◌∷◌, [], ◌++◌, length, reverse, IfOk};
ghost use Rattle.ser_read.specs.Codes.{codes_of};

use class_desc::{FieldDesc, TypeCode};
use sequence::Sequence;
use std::alloc::{AllocError, Global};
use std::marker::Model;
use std::slice;

/// The types of fields, in their order.
type CodeList = Sequence<TypeCode>;

/// The most types that a row holds itself. So most classes take no memory here.
const FEW: usize = 8;

/// Where the types of fields stand.
#[derive(Drop)]
enum HeldCodes {
    /// In place.
    Few {
        /// The types, and behind them any.
        all: [TypeCode; FEW],
        /// The number of types.
        count: usize,
    },
    /// In a list.
    Many(CodeList),
}

/// The types of fields, in their order.
#[derive(Drop)]
pub(crate) struct Codes {
    held: HeldCodes,
}

impl Model for Codes {
    ghost use Rattle.std.specs.Prelude.{List};
    ghost use Rattle.class_desc.specs.declared.field.TypeCode.{TypeCode};
    ghost use Rattle.ser_read.specs.HeldCodes.{codes_in, FitsIn};

    ghost Value = { List TypeCode };

    ghost view = { λ c. codes_in c.held };

    ghost invariant = { λ c. FitsIn c.held };
}

impl Codes {
    /// None.
    pub(crate) fn new(alloc: Global) -> Codes
        ensures { result ≡ [] }
    {
        Codes {
            held: HeldCodes::Many(CodeList::new(alloc)),
        }
    }

    /// The types in order.
    pub(crate) fn as_slice(&self) -> &[TypeCode]
        ensures { result.now ≡ self.now }
    {
        match &self.held {
            HeldCodes::Few { all, count } => &all[..*count],
            HeldCodes::Many(codes) => codes.as_slice(),
        }
    }
}

/// The content of an object's part for one class of its chain.
#[derive(Drop)]
pub(crate) struct ClassRow {
    /// The types of the class's fields.
    pub(crate) codes: Codes,
    /// True where the class writes a note.
    pub(crate) note: bool,
}

/// Where the rows of a chain stand.
#[derive(Drop)]
enum HeldRows {
    /// There is none.
    Empty,
    /// In place, as most chains have one.
    One(ClassRow),
    /// In a list.
    Many(Vec<ClassRow>),
}

/// The rows of a chain of classes.
#[derive(Drop)]
pub(crate) struct Rows {
    held: HeldRows,
}

impl Model for Rows {
    ghost use Rattle.std.specs.Prelude.{List};
    ghost use Rattle.ser_read.specs.declared.row.ClassRow.{ClassRow};
    ghost use Rattle.ser_read.specs.HeldRows.{rows_in};

    ghost Value = { List ClassRow };

    ghost view = { λ r. rows_in r.held };
}

impl Rows {
    /// None.
    pub(crate) fn new() -> Rows
        ensures { result ≡ [] }
    {
        Rows {
            held: HeldRows::Empty,
        }
    }

    /// One.
    pub(crate) fn one(row: ClassRow) -> Rows
        ensures { result ≡ row ∷ [] }
    {
        Rows {
            held: HeldRows::One(row),
        }
    }

    /// These rows and one behind them.
    pub(crate) fn and(self, alloc: Global, row: ClassRow) -> Result<Rows, AllocError>
        ensures { IfOk result (λ rows. rows ≡ self ++ row ∷ []) }
    {
        match self.held {
            HeldRows::Empty => Ok(Rows::one(row)),
            HeldRows::One(first) => {
                let mut rows = Vec::new(alloc);
                rows.push(first)?;
                rows.push(row)?;
                Ok(Rows {
                    held: HeldRows::Many(rows),
                })
            }
            HeldRows::Many(mut rows) => {
                rows.push(row)?;
                Ok(Rows {
                    held: HeldRows::Many(rows),
                })
            }
        }
    }

    /// The same rows, the last first.
    pub(crate) fn into_reverse(self) -> Rows
        ensures { result ≡ reverse self }
    {
        match self.held {
            HeldRows::Empty => Rows::new(),
            HeldRows::One(row) => Rows::one(row),
            HeldRows::Many(mut rows) => {
                rows.reverse();
                Rows {
                    held: HeldRows::Many(rows),
                }
            }
        }
    }

    /// The rows in order.
    pub(crate) fn as_slice(&self) -> &[ClassRow]
        ensures value { result.now ≡ self.now }
    {
        match &self.held {
            HeldRows::Empty => &[],
            HeldRows::One(row) => slice::from_ref(row),
            HeldRows::Many(rows) => rows.as_slice(),
        }
    }
}

/// The types of few fields.
#[inline(always)]
fn few_codes_of(fields: &[FieldDesc]) -> Codes
    requires { length fields.now ≤ FEW }
    ensures { result ≡ codes_of fields.now }
{
    let mut all = [TypeCode::Byte; FEW];
    for index in 0..fields.len() {
        all[index] = fields[index].code;
    }
    Codes {
        held: HeldCodes::Few {
            all,
            count: fields.len(),
        },
    }
}

/// The types of many fields.
#[inline(never)]
fn many_codes_of(alloc: Global, fields: &[FieldDesc]) -> Result<CodeList, AllocError>
    ensures { IfOk result (λ codes. codes ≡ codes_of fields.now) }
{
    let mut codes = CodeList::new(alloc);
    for field in fields {
        codes.push(field.code)?;
    }
    Ok(codes)
}

/// The types of fields.
#[inline(always)]
pub(crate) fn codes_of(alloc: Global, fields: &[FieldDesc]) -> Result<Codes, AllocError>
    ensures { IfOk result (λ codes. codes ≡ codes_of fields.now) }
{
    if fields.len() <= FEW {
        Ok(few_codes_of(fields))
    } else {
        Ok(Codes {
            held: HeldCodes::Many(many_codes_of(alloc, fields)?),
        })
    }
}
