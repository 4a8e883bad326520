//! Lease calls that clients sent.

use dgc_client::Plan;

/// A lease call that a client sent. It may never arrive, or arrive late, or more than once.
#[derive(Debug, Drop)]
pub struct SentCall {
    /// The client's number, from 0.
    pub client: u8,
    /// The duration in milliseconds that the client asked for when it sent the call. It goes with dirty calls alone.
    pub asked: i64,
    /// The call.
    pub plan: Plan,
}
