//! The passes of a space, as its journal tells them.
use sequence::ByteList;
use space::{Space, journal};
use std::alloc::Global;
use std::str;

/// The number that a text spells.
fn number_of(text: &str) -> Option<u64> {
    text.parse::<u64>().ok()
}

/// Counts the event of a line, and answers whether the k-th event of its number, from 0, has the moment k.
fn count(counts: &mut [u64], line: &str) -> bool {
    let (by, rest) = line.split_once(' ').unwrap_or((line, ""));
    let (moment, _rest) = rest.split_once(' ').unwrap_or((rest, ""));
    match counts.get_mut(number_of(by).unwrap_or(99) as usize) {
        Some(count) => {
            let next = Some(*count) == number_of(moment);
            *count = count.wrapping_add(1);
            next
        }
        None => false,
    }
}

/// Counts the events of a journal's lines after the first one.
fn count_all(counts: &mut [u64], text: &str) -> bool {
    for line in text.split('\n').skip(1) {
        if !line.is_empty() && !count(counts, line) {
            return false;
        }
    }
    true
}

/// Returns whether these are the counts that a text spells.
fn are_wanted(counts: &[u64], wanted: &str) -> bool {
    for (place, word) in wanted.split(' ').enumerate() {
        if counts.get(place).copied() != number_of(word) {
            return false;
        }
    }
    true
}

/// Returns whether a journal has so many events of each number from 0 to 9, in the order of their moments.
fn is_counted(text: &ByteList, wanted: &str) -> bool {
    let mut counts = [0u64; 10];
    match str::from_utf8(text.as_slice()) {
        Ok(text) => count_all(&mut counts, text) && are_wanted(&counts, wanted),
        Err(_) => false,
    }
}

/// Returns whether a space has so many events of each number from 0 to 9. The k-th one of a number, from 0, has the
/// moment k.
pub(crate) fn are_counted(alloc: Global, space: &Space, wanted: &str) -> bool {
    if !space.is_stored() {
        return false;
    }
    match journal(alloc, space) {
        Ok(text) => is_counted(&text, wanted),
        Err(_) => false,
    }
}
