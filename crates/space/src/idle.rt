//! Whether a lease or a wait has ended, so that a Tick is worth its event.
ghost use Rattle.std.specs.Prelude.{◌≡◌, ◌↔◌, ◌<◌, [], true, false, length, IsTrue};
ghost use Rattle.space.specs.Idle.{SomethingEnds, TickChangesNothing, untold_of, withdrawals_of};

use crate::turns::Space;

impl Space {
    /// Returns whether a Tick at this moment would end a lease or a wait for an acknowledgement. Where it returns false, such a Tick would change
    /// nothing. The function takes no memory. Where nothing may have ended it looks at no lease and no wait.
    pub fn has_ended(&self, moment: u64) -> bool
        ensures ends { IsTrue result
            ↔ SomethingEnds self.now.configuration self.now.events moment }
        ensures idle { result ≡ false
            → TickChangesNothing self.now.configuration self.now.events moment }
    {
        let tables = &self.tables;
        tables.leases.has_ended(moment) || tables.exports.has_ended_since(tables.moment, moment)
    }

    /// Returns whether objects were withdrawn that no turn has told as gone. An Abandon withdraws such objects. The next turn that is no Abandon tells them.
    pub fn has_untold(&self) -> bool
        ensures some { result ≡ true
            → 0 < length (untold_of self.now.configuration self.now.events) }
        ensures none { result ≡ false
            → untold_of self.now.configuration self.now.events ≡ [] }
    {
        self.tables.reported < self.tables.withdrawn.len()
    }

    /// Returns the number of withdrawals that the space keeps. Where it keeps its events, these are all of them. Otherwise they are those that no turn has
    /// told as gone.
    pub fn kept_withdrawals(&self) -> usize
        ensures stored { self.now.configuration.stored ≡ true → result
            ≡ length (withdrawals_of self.now.configuration self.now.events) }
        ensures erased { self.now.configuration.stored ≡ false → result
            ≡ length (untold_of self.now.configuration self.now.events) }
    {
        self.tables.withdrawn.kept_len()
    }
}
