//! The references of which a table knows that they want no call.
ghost use Rattle.std.specs.Prelude.{◌≡◌, List, [], true, filter};
ghost use Rattle.dgc_client.specs.declared.client_ref.ClientRef.{ClientRef};
ghost use Rattle.dgc_client.specs.Log.{Dirty};
ghost use Rattle.dgc_client.specs.Idle.{IsIdle};
ghost use Rattle.dgc_client.specs.StandsForLog.{lapsed_if, wants};

/// A table's knowledge of its references since the last `due` for which no call was due.
#[derive(Clone, Copy, Debug)]
pub enum Idle {
    /// Nothing is known.
    Unknown,
    /// No reference wants a call while the client's time lasts.
    Timely,
    /// No reference wants a call where the client's time is over, and none is sure.
    Over,
}

/// Returns whether no reference is known to want a call, where the client's time is over or not.
pub fn is_known(idle: Idle, over: bool) -> bool
    ensures { (sent : List Dirty) (refs : List ClientRef) → IsIdle idle sent refs → result ≡ true →
        (filter (wants over sent) refs ≡ []) × (lapsed_if over refs ≡ refs) }
{
    match idle {
        Idle::Unknown => false,
        Idle::Timely => !over,
        Idle::Over => over,
    }
}

/// Returns the knowledge once no reference wants a call, where the client's time is over or not.
pub fn known(over: bool) -> Idle
    ensures { (sent : List Dirty) (refs : List ClientRef) → filter (wants over sent) refs ≡ [] →
        IsIdle result sent (lapsed_if over refs) }
{
    if over { Idle::Over } else { Idle::Timely }
}
