//! The texts that bytes spell in modified UTF (Java Object Serialization Specification, 6.2).
ghost use Rattle.std.specs.Prelude.{◌≡◌, ◌+◌, ◌++◌, ◌<◌, ◌≤◌, not, List, ℕ, IfOk, IfErr, OnOk, length, take, vec_len, vec_capacity};
ghost use Rattle.std.specs.List.{prefix_len};
ghost use Rattle.lane_kernels.specs.Kernels.{is_plain};
ghost use Rattle.mod_utf.specs.Utf.{Utf};
ghost use Rattle.mod_utf.specs.Decoding.{decoded_units, IsUnread, GivesUnits};

use lane_kernels::{is_plain, plain_run};
use mod_utf::decode::{UtfFault, decode, decode_onto};
use sequence::Units;
use std::alloc::Global;

/// The text that these bytes spell, as `decode` of `mod_utf` reads it.
#[inline(always)]
pub(crate) fn text_of(alloc: Global, bytes: &[u8]) -> Result<Units, UtfFault>
    ensures err { IfErr result (λ fault. IsUnread bytes.now fault) }
    ensures value { GivesUnits result (decoded_units bytes.now) }
{
    if plain_run(bytes) == bytes.len() {
        plain(alloc, bytes)
    } else {
        decode_mixed(alloc, bytes)
    }
}

/// The text of ASCII characters other than zero. There is room at once for all, and it takes no more.
#[inline(always)]
fn plain(alloc: Global, bytes: &[u8]) -> Result<Units, UtfFault>
    requires { prefix_len is_plain bytes.now ≡ length bytes.now }
    ensures err { IfErr result (λ fault. IsUnread bytes.now fault) }
    ensures value { GivesUnits result (decoded_units bytes.now) }
{
    let mut units = Vec::new(alloc);
    if units.reserve_exact(bytes.len()).is_err() {
        return Err(UtfFault::OutOfMemory);
    }
    push_each(&mut units, bytes);
    Ok(Units::from_vec(units))
}

/// Appends a unit for each byte.
#[inline(always)]
fn push_each(units: &mut Vec<u16>, bytes: &[u8])
    requires room { vec_len units.old + length bytes.now ≤ vec_capacity units.old }
    ensures { units.new.items ≡ units.old.items ++ bytes.now }
{
    for byte in bytes {
        units.push_reserved(u16::from(*byte));
    }
}

/// The text of characters that take one to three bytes each. There is room at once for as many as are there at least.
#[inline(never)]
fn decode_mixed(alloc: Global, bytes: &[u8]) -> Result<Units, UtfFault>
    ensures err { IfErr result (λ fault. IsUnread bytes.now fault) }
    ensures value { GivesUnits result (decoded_units bytes.now) }
{
    let mut units = Units::new(alloc);
    if units.reserve(bytes.len() / 3).is_err() {
        return Err(UtfFault::OutOfMemory);
    }
    match push_runs(&mut units, bytes) {
        Ok(()) => Ok(units),
        Err(_) => {
            // The fault of a part has its index in that part. So the whole is read once more for the fault.
            drop(units);
            decode(alloc, bytes)
        }
    }
}

/// Appends the text that these bytes spell, by runs. After a fault some of it may have been appended.
fn push_runs(units: &mut Units, bytes: &[u8]) -> Result<(), UtfFault>
    ensures { OnOk result ((text : List ℕ) × Utf text bytes.now × (units.new ≡ units.old ++ text)) }
{
    let mut at = 0;
    while at < bytes.len() {
        at += push_run(units, &bytes[at..])?;
    }
    Ok(())
}

/// Appends the text of a plain run and of what lies between it and the next one, and returns how many bytes spell it.
fn push_run(units: &mut Units, bytes: &[u8]) -> Result<usize, UtfFault>
    requires { 0 < length bytes.now }
    ensures text { IfOk result (λ n. (text : List ℕ) × Utf text (take n bytes.now)
        × (units.new ≡ units.old ++ text)) }
    ensures some { IfOk result (λ n. 0 < n) }
    ensures within { IfOk result (λ n. n ≤ length bytes.now) }
{
    let plain = plain_run(bytes);
    put_each(units, &bytes[..plain])?;
    let next = plain + other_run(&bytes[plain..]);
    decode_onto(units, &bytes[plain..next])?;
    Ok(next)
}

/// Appends a unit for each byte.
fn put_each(units: &mut Units, bytes: &[u8]) -> Result<(), UtfFault>
    ensures { OnOk result (units.new ≡ units.old ++ bytes.now) }
{
    for byte in bytes {
        if units.push(u16::from(*byte)).is_err() {
            return Err(UtfFault::OutOfMemory);
        }
    }
    Ok(())
}

/// Returns how many bytes at the front are not plain, up to the first that is.
fn other_run(bytes: &[u8]) -> usize
    ensures value { result ≡ prefix_len (λ b. not (is_plain b)) bytes.now }
    ensures within { result ≤ length bytes.now }
{
    for i in 0..bytes.len() {
        if is_plain(bytes[i]) {
            return i;
        }
    }
    bytes.len()
}
