//! Where a connection makes its turns.
ghost use Rattle.std.specs.Prelude.{◌≡◌, ℕ, ◌+◌, ◌<◌, ◌≤◌, ◌++◌, ◌∷◌, []};
ghost use Rattle.history.specs.declared.limits.TheConstants.{END_OF_TIME};
ghost use Rattle.space.specs.TurnAnswers.{IsAnswerTo};
ghost use Rattle.ports.specs.Ports.{PortState, abandoned_at, entries_of, Shows};

use history::{Ask, Refused, Turn};
use object_ids::ObjId;

/// The turns of one connection, which keeps an entry of each.
pub trait Port {
    // The entries since the port was made, and how many more calls there is room for.
    ghost shown: { Self → PortState };

    // The condition that holds between two calls.
    ghost ready: { Self → Type 0 };

    // The relation that calls keep, from a port before to the port after.
    ghost leads: { Self → Self → Type 0 };

    /// Hands in a request of the connection at a moment, in milliseconds. The turn gets an entry, whether it is taken or refused. Only a
    /// turn without memory gets none.
    fn turn(&mut self, moment: u64, ask: Ask) -> Result<Turn, Refused>
        requires ready { ready self.old }
        requires room { 0 < (shown self.old).room }
        requires moment { moment < END_OF_TIME }
        ensures asked { (shown self.new).asked
            ≡ (shown self.old).asked ++ entries_of moment ask result }
        ensures answer { IsAnswerTo (Shows (shown self.old).asked) ask result }
        ensures room { (shown self.old).room ≤ (shown self.new).room + 1 }
        ensures ready { ready self.new }
        ensures leads { leads self.old self.new };

    /// Ends a call of an object without an answer, of which the entries show one running. It takes no memory.
    fn abandon(&mut self, moment: u64, object: ObjId)
        requires ready { ready self.old }
        requires room { 0 < (shown self.old).room }
        requires moment { moment < END_OF_TIME }
        requires runs { Shows (shown self.old).asked object }
        ensures asked { (place : ℕ)
            × ((shown self.new).asked
            ≡ (shown self.old).asked ++ abandoned_at moment object place ∷ []) }
        ensures room { (shown self.old).room ≤ (shown self.new).room + 1 }
        ensures ready { ready self.new }
        ensures leads { leads self.old self.new };

    /// For how many more calls there is room.
    fn room(&self) -> u64
        ensures { result ≡ (shown self.now).room };

    ghost stays: { (p : Self) → leads p p };

    ghost goes_on: { (p q r : Self) → leads p q → leads q r → leads p r };
}
