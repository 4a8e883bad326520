//! Numbers and truth values, each of a fixed number of bytes.
ghost use Rattle.std.specs.Prelude.{◌≡◌, ◌*◌, ◌≤◌, ◌++◌, ℕ, List, length, OnOk, true};
ghost use Rattle.std.specs.Int.{w16, w32, w64};
ghost use Rattle.class_desc.specs.declared.slot.Slot.{Slot};
ghost use Rattle.class_desc.specs.TypeCode.{is_primitive};
ghost use Rattle.stream_grammar.specs.Reading.{Progress, Step, plain, byte_at, number_at, many_at, value_at, elements_at};
ghost use Rattle.ser_read.specs.Signed.{signed_at, truth_at};
ghost use Rattle.ser_read.specs.declared.numbers.TheConstants.{BLOCK};
ghost use Rattle.ser_read.specs.Here.{ReadsTaken, StopsTaken};
ghost use Rattle.std.proofs.Common.{rules};
ghost use Rattle.ser_read.specs.NumberRuns.{byte_of, truth_of, number_of, signed_of, of_front, run_of, byte_is, truth_is, number_is, signed_is};

use crate::fault::StreamFault;
use crate::pulled::{byte, eight, four, piece, take, two};
use class_desc::TypeCode;
use lane_kernels::{be_words32, be_words64};
use sequence::{ByteList, Sequence};
use ser_values::{Value, Values};
use std::alloc::{AllocError, Global};
use wire_io::pull::Pull;
use wire_io::source::Source;

/// The most numbers that are taken at once. Each has at most eight bytes.
const BLOCK: u32 = 512;

/// A value that is read from a fixed number of bytes.
pub(crate) trait Number: Drop {
    /// Reading it from bytes.
    ghost read: { Step Self };
    /// The value that so many bytes spell.
    ghost value: { List ℕ → Self };

    ghost WIDTH: { ℕ };

    /// The number of its bytes.
    const WIDTH: usize;

    /// The next one.
    fn pull<S: Source>(pull: &mut Pull<'_, S>) -> Result<Self, StreamFault>
        ensures lent { pull.new.source.ghost_name ≡ pull.old.source.ghost_name }
        ensures reads { (now : Progress) → ReadsTaken S.half pull.old pull.new result
            (λ end. read now) (λ x rest. (x, now, rest)) }
        ensures stops { (now : Progress) → StopsTaken S.half pull.old pull.new result
            (λ end. read now) };

    /// The one that these bytes spell.
    fn of(bytes: &[u8]) -> Self
        requires { length bytes.now ≡ WIDTH }
        ensures { result ≡ value bytes.now };

    /// Appends the `count` numbers that the bytes spell.
    fn append_block(
        numbers: &mut Sequence<Self>,
        bytes: &[u8],
        count: u32,
    ) -> Result<(), AllocError>
        requires long { length bytes.now ≡ count * WIDTH }
        requires short { count ≤ BLOCK }
        ensures { OnOk result (numbers.new ≡ numbers.old ++ run_of WIDTH value count bytes.now) }
    {
        let mut at = 0;
        for _ in 0..count {
            numbers.push(Self::of(&bytes[at..at + Self::WIDTH]))?;
            at += Self::WIDTH;
        }
        Ok(())
    }

    /// It has few bytes.
    ghost few: { WIDTH ≤ 8 };
    /// Reading takes its bytes, and is what they spell.
    ghost spelled: { (now : Progress) (bs : List ℕ) → read now bs ≡ of_front WIDTH value now bs };
}

impl Number for u8 {
    ghost read = { plain byte_at };

    ghost value = { byte_of };

    ghost WIDTH = { 1 };

    ghost few = { Prim.search rules };

    ghost spelled = { byte_is };

    const WIDTH: usize = 1;

    fn pull<S: Source>(pull: &mut Pull<'_, S>) -> Result<u8, StreamFault> {
        byte(pull)
    }

    fn of(bytes: &[u8]) -> u8 {
        bytes[0]
    }
}

impl Number for u16 {
    ghost read = { plain (number_at w16) };

    ghost value = { number_of w16 };

    ghost WIDTH = { 2 };

    ghost few = { Prim.search rules };

    ghost spelled = { number_is w16 };

    const WIDTH: usize = 2;

    fn pull<S: Source>(pull: &mut Pull<'_, S>) -> Result<u16, StreamFault> {
        two(pull)
    }

    fn of(bytes: &[u8]) -> u16 {
        u16::from_be_bytes([bytes[0], bytes[1]])
    }
}

impl Number for u32 {
    ghost read = { plain (number_at w32) };

    ghost value = { number_of w32 };

    ghost WIDTH = { 4 };

    ghost few = { Prim.search rules };

    ghost spelled = { number_is w32 };

    const WIDTH: usize = 4;

    fn pull<S: Source>(pull: &mut Pull<'_, S>) -> Result<u32, StreamFault> {
        four(pull)
    }

    fn of(bytes: &[u8]) -> u32 {
        u32::from_be_bytes([bytes[0], bytes[1], bytes[2], bytes[3]])
    }
}

impl Number for u64 {
    ghost read = { plain (number_at w64) };

    ghost value = { number_of w64 };

    ghost WIDTH = { 8 };

    ghost few = { Prim.search rules };

    ghost spelled = { number_is w64 };

    const WIDTH: usize = 8;

    fn pull<S: Source>(pull: &mut Pull<'_, S>) -> Result<u64, StreamFault> {
        eight(pull)
    }

    fn of(bytes: &[u8]) -> u64 {
        u64::from_be_bytes([
            bytes[0], bytes[1], bytes[2], bytes[3], bytes[4], bytes[5], bytes[6], bytes[7],
        ])
    }
}

impl Number for i16 {
    ghost read = { signed_at w16 };

    ghost value = { signed_of w16 };

    ghost WIDTH = { 2 };

    ghost few = { Prim.search rules };

    ghost spelled = { signed_is w16 };

    const WIDTH: usize = 2;

    fn pull<S: Source>(pull: &mut Pull<'_, S>) -> Result<i16, StreamFault> {
        Ok(two(pull)?.cast_signed())
    }

    fn of(bytes: &[u8]) -> i16 {
        i16::from_be_bytes([bytes[0], bytes[1]])
    }
}

impl Number for i32 {
    ghost read = { signed_at w32 };

    ghost value = { signed_of w32 };

    ghost WIDTH = { 4 };

    ghost few = { Prim.search rules };

    ghost spelled = { signed_is w32 };

    const WIDTH: usize = 4;

    fn pull<S: Source>(pull: &mut Pull<'_, S>) -> Result<i32, StreamFault> {
        Ok(four(pull)?.cast_signed())
    }

    fn of(bytes: &[u8]) -> i32 {
        i32::from_be_bytes([bytes[0], bytes[1], bytes[2], bytes[3]])
    }

    fn append_block(
        numbers: &mut Sequence<i32>,
        bytes: &[u8],
        count: u32,
    ) -> Result<(), AllocError> {
        let mut words = [0; BLOCK as usize];
        let words = &mut words[..count as usize];
        be_words32(bytes, words);
        numbers.append(words)?;
        Ok(())
    }
}

impl Number for i64 {
    ghost read = { signed_at w64 };

    ghost value = { signed_of w64 };

    ghost WIDTH = { 8 };

    ghost few = { Prim.search rules };

    ghost spelled = { signed_is w64 };

    const WIDTH: usize = 8;

    fn pull<S: Source>(pull: &mut Pull<'_, S>) -> Result<i64, StreamFault> {
        Ok(eight(pull)?.cast_signed())
    }

    fn of(bytes: &[u8]) -> i64 {
        i64::from_be_bytes([
            bytes[0], bytes[1], bytes[2], bytes[3], bytes[4], bytes[5], bytes[6], bytes[7],
        ])
    }

    fn append_block(
        numbers: &mut Sequence<i64>,
        bytes: &[u8],
        count: u32,
    ) -> Result<(), AllocError> {
        let mut words = [0; BLOCK as usize];
        let words = &mut words[..count as usize];
        be_words64(bytes, words);
        numbers.append(words)?;
        Ok(())
    }
}

impl Number for bool {
    ghost read = { truth_at };

    ghost value = { truth_of };

    ghost WIDTH = { 1 };

    ghost few = { Prim.search rules };

    ghost spelled = { truth_is };

    const WIDTH: usize = 1;

    fn pull<S: Source>(pull: &mut Pull<'_, S>) -> Result<bool, StreamFault> {
        Ok(byte(pull)? != 0)
    }

    fn of(bytes: &[u8]) -> bool {
        bytes[0] != 0
    }
}

/// The next `n` numbers. There is room for at most one block ahead of what was read.
fn numbers<T: Number, S: Source>(
    alloc: Global,
    pull: &mut Pull<'_, S>,
    n: u32,
) -> Result<Sequence<T>, StreamFault>
    ensures lent { pull.new.source.ghost_name ≡ pull.old.source.ghost_name }
    ensures reads { (now : Progress) → ReadsTaken S.half pull.old pull.new result
        (λ end. many_at T.read n now) (λ x rest. (x, now, rest)) }
    ensures stops { (now : Progress) → StopsTaken S.half pull.old pull.new result
        (λ end. many_at T.read n now) }
{
    let mut numbers = Sequence::new(alloc);
    let mut left = n;
    while left > 0 {
        let more = left.min(BLOCK);
        let block = piece(alloc, pull, more * T::WIDTH as u32)?;
        T::append_block(&mut numbers, block.as_slice(), more)?;
        left -= more;
    }
    Ok(numbers)
}

/// The next `n` bytes, as elements.
fn bytes<S: Source>(alloc: Global, pull: &mut Pull<'_, S>, n: u32) -> Result<ByteList, StreamFault>
    ensures lent { pull.new.source.ghost_name ≡ pull.old.source.ghost_name }
    ensures reads { (now : Progress) → ReadsTaken S.half pull.old pull.new result
        (λ end. many_at (plain byte_at) n now) (λ x rest. (x, now, rest)) }
    ensures stops { (now : Progress) → StopsTaken S.half pull.old pull.new result
        (λ end. many_at (plain byte_at) n now) }
{
    let bytes = take(alloc, pull, u64::from(n))?;
    Ok(bytes)
}

/// The value of a field of a primitive type.
#[tactic(auto, unfolding(stream_grammar::specs::Reading::value_at))]
pub(crate) fn primitive<S: Source>(
    pull: &mut Pull<'_, S>,
    code: TypeCode,
) -> Result<Value, StreamFault>
    requires { is_primitive code ≡ true }
    ensures lent { pull.new.source.ghost_name ≡ pull.old.source.ghost_name }
    ensures reads { (inner : Step Slot) (now : Progress)
        → ReadsTaken S.half pull.old pull.new result (λ end. value_at inner code now)
        (λ x rest. (x, now, rest)) }
    ensures stops { (inner : Step Slot) (now : Progress)
        → StopsTaken S.half pull.old pull.new result (λ end. value_at inner code now) }
{
    match code {
        TypeCode::Byte => Ok(Value::Byte(u8::pull(pull)?)),
        TypeCode::Char => Ok(Value::Char(u16::pull(pull)?)),
        TypeCode::Double => Ok(Value::Double(u64::pull(pull)?)),
        TypeCode::Float => Ok(Value::Float(u32::pull(pull)?)),
        TypeCode::Int => Ok(Value::Int(i32::pull(pull)?)),
        TypeCode::Long => Ok(Value::Long(i64::pull(pull)?)),
        TypeCode::Short => Ok(Value::Short(i16::pull(pull)?)),
        TypeCode::Boolean => Ok(Value::Boolean(bool::pull(pull)?)),
        TypeCode::Array => unreachable!(),
        TypeCode::Object => unreachable!(),
    }
}

/// The elements of an array of a primitive type.
#[tactic(auto, unfolding(stream_grammar::specs::Reading::elements_at))]
pub(crate) fn primitives<S: Source>(
    alloc: Global,
    pull: &mut Pull<'_, S>,
    code: TypeCode,
    n: u32,
) -> Result<Values, StreamFault>
    requires { is_primitive code ≡ true }
    ensures lent { pull.new.source.ghost_name ≡ pull.old.source.ghost_name }
    ensures reads { (inner : Step Slot) (now : Progress)
        → ReadsTaken S.half pull.old pull.new result (λ end. elements_at inner code n now)
        (λ x rest. (x, now, rest)) }
    ensures stops { (inner : Step Slot) (now : Progress)
        → StopsTaken S.half pull.old pull.new result (λ end. elements_at inner code n now) }
{
    match code {
        TypeCode::Byte => Ok(Values::Bytes(bytes(alloc, pull, n)?)),
        TypeCode::Char => Ok(Values::Chars(numbers(alloc, pull, n)?)),
        TypeCode::Double => Ok(Values::Doubles(numbers(alloc, pull, n)?)),
        TypeCode::Float => Ok(Values::Floats(numbers(alloc, pull, n)?)),
        TypeCode::Int => Ok(Values::Ints(numbers(alloc, pull, n)?)),
        TypeCode::Long => Ok(Values::Longs(numbers(alloc, pull, n)?)),
        TypeCode::Short => Ok(Values::Shorts(numbers(alloc, pull, n)?)),
        TypeCode::Boolean => Ok(Values::Bools(numbers(alloc, pull, n)?)),
        TypeCode::Array => unreachable!(),
        TypeCode::Object => unreachable!(),
    }
}
