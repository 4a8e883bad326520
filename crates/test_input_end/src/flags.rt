//! Ends of inputs that set a flag, and inputs that are absent.
use crate::must;
use input_end::{FlaggedEnd, InputEnd, MemInputEnd};
use std::alloc::Global;
use std::process::Abort;
use std::sync::Arc;
use std::sync::atomic::{AtomicBool, Ordering};

/// Looks at an input whose third look sees the end: the flag is set from then on.
fn check_flag(rt: &impl Abort, alloc: Global) -> Option<()> {
    let flag = Arc::new(alloc, AtomicBool::new(false)).ok()?;
    let mut end = FlaggedEnd::new(MemInputEnd::new(Some(2)), Arc::try_clone(&flag).ok()?);
    for is_seen in [false, false, true, true] {
        must(rt, end.look() == is_seen, "a look");
        must(rt, end.was_seen() == is_seen, "it was seen");
        must(rt, flag.load(Ordering::SeqCst) == is_seen, "the flag");
    }
    Some(())
}

#[test]
fn the_end_sets_the_flag(rt: HostRuntime) {
    must(&rt, check_flag(&rt, rt.alloc()).is_some(), "memory");
}

/// An input that is absent never ends. One that is present ends as it does alone.
#[test]
fn an_absent_input_never_ends(rt: HostRuntime) {
    let mut absent: Option<MemInputEnd> = None;
    must(&rt, !absent.look() && !absent.was_seen(), "no end");
    let mut present = Some(MemInputEnd::new(Some(1)));
    must(&rt, !present.look() && !present.was_seen(), "not yet");
    must(&rt, present.look() && present.was_seen(), "the end");
}
