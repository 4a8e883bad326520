//! Spaces at their limits, after many lines that are alike.
use crate::scripts::{MEMORY, must_be};
use crate::transcripts::transcript;
use std::alloc::{AllocError, Global};

/// Dirty calls of as many objects as the largest of messages can name, none of which is exported.
const DIRTIES: &str = "space 600000 300000 7 9
*63 1 5 dirty -@7/9/0 1 0 1*65536
";

/// The lines that follow the answers to those calls.
const FULL_HISTORY: &str = "?
events 63 units 4128831 now 5
lease -@7/9/0 until 600005
1 6 dirty -@7/9/0 1 0 1*65536
> history full
2 4 tick
> done
?
events 64 units 4128832 now 5
lease -@7/9/0 until 600005
";

/// A script of 63 such calls and of what follows.
fn full_history(alloc: Global) -> Result<String, AllocError> {
    let mut script = String::new(alloc);
    script.push_str(DIRTIES)?;
    for _ in 0..63 {
        script.push_str("> granted 600000\n")?;
    }
    script.push_str(FULL_HISTORY)?;
    Ok(script)
}

/// The lines that follow once 4,096 names are bound, of the units from 256 on.
const FULL_NAMES: &str = "0 0 bind \"b\" 16
> names full
0 0 rebind \"b\" 16
> names full
0 0 rebind \"\\u0100\" 16
> bound
0 0 unbind \"\\u0101\"
> unbound
0 0 rebind \"b\" 16
> bound
#
events 4100 units 4100 now 0
objects 1 clients 0 pairs 0 awaiting 0 names 4096 withdrawn 0
";

/// Appends the line that binds the name of a unit, and its answer.
fn put_bind(alloc: Global, script: &mut String, unit: u16) -> Result<(), AllocError> {
    let lines = format!(in alloc; "0 0 bind \"\\u{unit:04x}\" 16\n> bound\n")?;
    script.push_str(lines.as_str())
}

/// A script that binds 4,096 names, and of what follows.
fn full_names(alloc: Global) -> Result<String, AllocError> {
    let mut script = String::new(alloc);
    script.push_str("space 600000 300000 7 9\n0 0 open 1 pinned\n> opened 16\n")?;
    for unit in 256..4_352 {
        put_bind(alloc, &mut script, unit)?;
    }
    script.push_str(FULL_NAMES)?;
    Ok(script)
}

#[test]
fn a_full_history_still_takes_a_tick(rt: HostRuntime) {
    let script = full_history(rt.alloc()).expect(&rt, MEMORY);
    let text = transcript(&rt, rt.alloc(), script.as_str());
    must_be(&rt, &text, script.as_str());
}

#[test]
fn one_name_more_is_full_in_a_space(rt: HostRuntime) {
    let script = full_names(rt.alloc()).expect(&rt, MEMORY);
    let text = transcript(&rt, rt.alloc(), script.as_str());
    must_be(&rt, &text, script.as_str());
}
