//! Laws of outlines, as contracts of small functions.
ghost use Rattle.std.specs.Prelude.{◌≡◌, ◌⊎◌, true, false, IfOk, IfErr};
ghost use Rattle.suid_calc.specs.Grammar.{IsUnread};
ghost use Rattle.suid_calc.specs.Laws.{HasNumber, IsReordered, IsOutlineText};

use crate::outline::OutlineFault;
use crate::parse::parse_outline;
use crate::text::suid;
use std::alloc::{AllocError, Global};

/// Returns the numbers of two outlines. They are the same where the second text has the lines of the first, those after the first line
/// in another order. BadLine names the first bad line of the first text, or else of the second.
pub fn numbers_of(alloc: Global, text: &[u8], other: &[u8]) -> Result<(i64, i64), OutlineFault>
    ensures same { IsReordered text.now other.now → IfOk result (λ numbers. numbers.0 ≡ numbers.1) }
    ensures numbers { IfOk result
        (λ numbers. HasNumber text.now numbers.0 × HasNumber other.now numbers.1) }
    ensures err { IfErr result (λ fault. IsUnread text.now fault ⊎ IsUnread other.now fault) }
{
    let outline = parse_outline(alloc, text)?;
    let reordered = parse_outline(alloc, other)?;
    let number = suid(alloc, &outline)?;
    let same = suid(alloc, &reordered)?;
    Ok((number, same))
}

/// Returns true exactly where a text is a class's outline.
pub fn is_outline(alloc: Global, text: &[u8]) -> Result<bool, AllocError>
    ensures taken { IfOk result (λ taken. taken ≡ true → IsOutlineText text.now) }
    ensures refused { IfOk result (λ taken. taken ≡ false → IsOutlineText text.now → ⊥) }
{
    match parse_outline(alloc, text) {
        Ok(_outline) => Ok(true),
        Err(OutlineFault::BadLine { line: _ }) => Ok(false),
        Err(OutlineFault::OutOfMemory) => Err(AllocError),
    }
}
