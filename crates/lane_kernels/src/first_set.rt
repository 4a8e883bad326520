//! The first lane that passes a comparison.
ghost use Rattle.std.specs.Prelude.{◌≡◌, if◌then◌else◌, ◌==◌};
ghost use Rattle.std.specs.Int.{w64, trailing_zeros};

/// Returns the index of the lowest bit that is set, or `lanes` where none is.
#[inline(always)]
pub(crate) fn first_set(mask: u64, lanes: usize) -> usize
    ensures { result ≡ (if mask == 0 then lanes else trailing_zeros w64 mask) }
{
    if mask == 0 {
        lanes
    } else {
        mask.trailing_zeros() as usize
    }
}
