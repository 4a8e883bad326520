//! The state that the threads of a server share.
use crate::ended_links::EndedLinks;
use crate::plan::ServePlan;
use call_dispatch::Book;
use std::alloc::Global;
use turn_lock::TurnLock;

/// The values that a server's threads share while its links are served.
#[derive(Drop)]
pub struct Shared<'s, R> {
    pub rt: &'s R,
    pub alloc: Global,
    /// The lock round the one space.
    pub lock: &'s TurnLock,
    /// The kinds of objects that clients may call.
    pub book: &'s Book,
    pub plan: &'s ServePlan,
    /// Which links have ended, and whose threads weren't joined since.
    pub ended: &'s EndedLinks,
}
