//! Which links have ended while others are accepted.
use std::alloc::Global;
use std::sync::atomic::{AtomicU64, Ordering};
use std::sync::{Mutex, Wait};
use std::time::Duration;

/// For how many milliseconds the end of a link is awaited at most.
const PAUSE_MS: u64 = 50;

/// For how many milliseconds it is awaited at most while many events are made.
const SHORT_PAUSE_MS: u64 = 10;

/// The numbers of links that have ended, and whose threads weren't joined since; and how many links have ended in all. Each thread notes its
/// link's as the last that it does. Room for that number is made before the link begins.
#[derive(Drop)]
pub struct EndedLinks {
    numbers: Mutex<Vec<u32>>,
    count: AtomicU64,
}

impl EndedLinks {
    /// The list without a number.
    pub fn new(alloc: Global) -> EndedLinks {
        EndedLinks {
            numbers: Mutex::new(Vec::new(alloc)),
            count: AtomicU64::new(0),
        }
    }

    /// Makes room for the numbers of so many live links and of one more. False where there is no memory for that.
    pub fn reserve<R: Wait>(&self, rt: &R, live: usize) -> bool {
        let mut numbers = self.numbers.lock(rt);
        numbers.reserve(live.saturating_add(1)).is_ok()
    }

    /// Notes that a link has ended. Where there is no room for its number, its thread is joined when all are.
    pub fn note<R: Wait>(&self, rt: &R, by: u32) {
        self.put(rt, by);
        let _before = self.count.fetch_add(1, Ordering::SeqCst);
        self.count.wake_all();
    }

    fn put<R: Wait>(&self, rt: &R, by: u32) {
        let mut numbers = self.numbers.lock(rt);
        let _ = numbers.push(by);
    }

    /// Takes the number of the link that ended first of those noted, if there is one. The others move up: of 8,192 links they take 32 kB.
    pub fn next<R: Wait>(&self, rt: &R) -> Option<u32> {
        let mut numbers = self.numbers.lock(rt);
        if numbers.is_empty() {
            None
        } else {
            Some(numbers.remove(0))
        }
    }

    /// Returns the number of links that have ended.
    pub fn count(&self) -> u64 {
        self.count.load(Ordering::SeqCst)
    }

    /// Waits until another number of links have ended than this one, but for `PAUSE_MS` at most.
    pub fn pause<R: Wait>(&self, rt: &R, seen: u64) {
        self.pause_within(rt, seen, PAUSE_MS);
    }

    /// Waits as `pause` does, but for `SHORT_PAUSE_MS` at most.
    pub fn pause_briefly<R: Wait>(&self, rt: &R, seen: u64) {
        self.pause_within(rt, seen, SHORT_PAUSE_MS);
    }

    fn pause_within<R: Wait>(&self, rt: &R, seen: u64, most_ms: u64) {
        let low = (seen % 4_294_967_296) as u32;
        self.count
            .park_timeout(rt, low, Duration::from_millis(most_ms));
    }
}
