//! Lease calls on their way.
ghost use Rattle.std.specs.Prelude.{◌≡◌, ◌≤◌, None, Some, IfSome};
ghost use Rattle.history.specs.declared.limits.TheConstants.{MAX_DURATION_MS};

use crate::sent_call::SentCall;
use std::marker::Model;

/// A sent call, and the duration in milliseconds that its last delivery was granted, if it was delivered. A clean call is granted 0.
#[derive(Debug, Drop)]
pub struct Letter {
    call: SentCall,
    granted: Option<u64>,
}

impl Model for Letter {
    ghost use Rattle.std.specs.Prelude.{◌≤◌, IfSome};
    ghost use Rattle.history.specs.declared.limits.TheConstants.{MAX_DURATION_MS};
    ghost use Rattle.lease_world.specs.Letters.{Letter as LetterState};

    ghost Value = { LetterState };

    ghost view = { λ a. record { call = a.call; granted = a.granted } };

    ghost invariant = { λ a. IfSome a.granted (λ duration. duration ≤ MAX_DURATION_MS) };
}

impl Letter {
    /// The letter of a call that was not delivered.
    pub fn new(call: SentCall) -> Letter
        ensures { result ≡ record { call = call; granted = None } }
    {
        Letter {
            call,
            granted: None,
        }
    }

    /// The call.
    pub fn call(&self) -> &SentCall
        ensures { result.now ≡ self.now.call }
    {
        &self.call
    }

    /// The duration that the last delivery was granted, at most 2^40 milliseconds; None exactly where the call never arrived.
    pub fn grant(&self) -> Option<u64>
        ensures value { result ≡ self.now.granted }
        ensures within { IfSome result (λ duration. duration ≤ MAX_DURATION_MS) }
    {
        self.granted
    }

    /// Notes a delivery that was granted this duration.
    pub fn note_delivery(&mut self, duration: u64)
        requires { duration ≤ MAX_DURATION_MS }
        ensures { self.new ≡ record self.old { granted = Some duration } }
    {
        self.granted = Some(duration);
    }
}
