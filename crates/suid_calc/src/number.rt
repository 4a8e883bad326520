//! Numbers of a line.
ghost use Rattle.std.specs.Prelude.{◌≡◌};
ghost use Rattle.suid_calc.specs.Grammar.{is_digit};
ghost use Rattle.suid_calc.specs.Reading.{number, number_after};

use crate::outline::MAX_MODIFIERS;

/// Returns whether a byte is a decimal digit.
fn is_digit(byte: u8) -> bool
    ensures { result ≡ is_digit byte }
{
    b'0' <= byte && byte <= b'9'
}

/// Returns the number of some digits; None where a byte is no digit, or the number is above 65,535.
#[tactic(auto, using(crate::proofs::Loops::number_stops, crate::proofs::Loops::number_too_high, crate::proofs::Loops::number_goes_on, crate::proofs::Loops::number_ends))]
fn number_of(digits: &[u8]) -> Option<u16>
    ensures { result ≡ number_after 0 digits.now }
{
    let mut number = 0u32;
    for digit in digits {
        if !is_digit(*digit) {
            return None;
        }
        let next = 10 * number + u32::from(*digit - b'0');
        if next > MAX_MODIFIERS {
            return None;
        }
        number = next;
    }
    Some(number as u16)
}

/// Returns the number of a word, from 0 to 65,535: decimal digits without a leading zero.
pub(crate) fn number(word: &[u8]) -> Option<u16>
    ensures { result ≡ number word.now }
{
    match word {
        [] => None,
        [_] => number_of(word),
        [first, ..] => {
            if *first == b'0' {
                None
            } else {
                number_of(word)
            }
        }
    }
}
