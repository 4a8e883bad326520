//! Texts of a program, in 16-bit units.
ghost use Rattle.std.specs.Prelude.{◌≡◌, ◌++◌, IfOk, OnOk};
ghost use Rattle.std.specs.Char.Escape.{encode_utf16};
ghost use Rattle.mod_utf.specs.Texts.{units_of};

use sequence::Units;
use std::alloc::{AllocError, Global};

/// Returns the units of a text, as Java's strings have them: one for a character up to U+FFFF, and two for a greater one.
pub fn units_of_text(alloc: Global, text: &str) -> Result<Units, AllocError>
    ensures { IfOk result (λ units. units ≡ units_of text.now) }
{
    let mut units = Units::new(alloc);
    for c in text.chars() {
        push_char(&mut units, c)?;
    }
    Ok(units)
}

/// Appends the one or two units of a character.
fn push_char(units: &mut Units, c: char) -> Result<(), AllocError>
    ensures { OnOk result (units.new ≡ units.old ++ encode_utf16 c) }
{
    units.append(c.encode_utf16(&mut [0; 2]))
}
