//! An input that may be absent.
ghost use Rattle.std.specs.Prelude.{◌≡◌, true};
ghost use Rattle.input_end.specs.Ends.{seen_in, LookedIn};

use crate::end::InputEnd;

/// An input that may be absent. No look sees the end of one that is.
impl<E: InputEnd> InputEnd for Option<E> {
    ghost use Rattle.input_end.specs.Ends.{seen_in, LookedIn};

    ghost seen = { seen_in E.seen };

    ghost looked = { LookedIn E.looked };

    fn look(&mut self) -> bool
        ensures looked { LookedIn E.looked self.old self.new result }
        ensures seen { result ≡ seen_in E.seen self.new }
        ensures stays { seen_in E.seen self.old ≡ true → result ≡ true }
    {
        match self {
            Some(input) => input.look(),
            None => false,
        }
    }

    fn was_seen(&self) -> bool
        ensures seen { result ≡ seen_in E.seen self.now }
    {
        match self {
            Some(input) => input.was_seen(),
            None => false,
        }
    }
}
