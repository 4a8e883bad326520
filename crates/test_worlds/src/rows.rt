//! Worked rows: scripts with what is printed of them, each also one step shorter and one step longer.
use lease_world::run_world;
use std::alloc::{AllocError, Global};

/// Rows. After the line `+` a script goes on, and after the line `=` stands what is printed of it so far.
const ROWS: &str = "world 100 50 1
make
register 0 17
due 0
at 10
deliver 0
at 20
answer 0
at 60
due 0
at 70
deliver 1
answer 1
at 149
=
events 5 units 7 now 70
object 16 kind 2 pinned running 0 awaiting 0 held 0 names 0
object 17 kind 1 free running 0 awaiting 0 held 1 names 0
lease 00@0/0/0 until 170
client 0 until 160
ref 0 17 sure usable
+
tick
=
events 6 units 8 now 149
object 16 kind 2 pinned running 0 awaiting 0 held 0 names 0
object 17 kind 1 free running 0 awaiting 0 held 1 names 0
lease 00@0/0/0 until 170
client 0 until 160
ref 0 17 sure usable
+
at 160
=
events 6 units 8 now 149
object 16 kind 2 pinned running 0 awaiting 0 held 0 names 0
object 17 kind 1 free running 0 awaiting 0 held 1 names 0
lease 00@0/0/0 until 170
client 0 until 160
ref 0 17 sure lapsed

world 100 50 1
make
register 0 17
due 0
at 50
tick
deliver 0
=
events 5 units 7 now 50
object 16 kind 2 pinned running 0 awaiting 0 held 0 names 0
lease 00@0/0/0 until 150
withdrawn 17 place 3
client 0 until 0
ref 0 17 unsure lapsed
+
answer 0
=
events 5 units 7 now 50
object 16 kind 2 pinned running 0 awaiting 0 held 0 names 0
lease 00@0/0/0 until 150
withdrawn 17 place 3
client 0 until 100
ref 0 17 sure usable
+
at 100
=
events 5 units 7 now 50
object 16 kind 2 pinned running 0 awaiting 0 held 0 names 0
lease 00@0/0/0 until 150
withdrawn 17 place 3
client 0 until 100
ref 0 17 sure lapsed

world 100 50 1
make
ask 0 30
register 0 17
due 0
at 10
deliver 0
at 20
answer 0
at 39
=
events 4 units 6 now 10
object 16 kind 2 pinned running 0 awaiting 0 held 0 names 0
object 17 kind 1 free running 0 awaiting 1 held 1 names 0
lease 00@0/0/0 until 40
client 0 until 30
ref 0 17 sure lapsed
+
tick
=
events 5 units 7 now 39
object 16 kind 2 pinned running 0 awaiting 0 held 0 names 0
object 17 kind 1 free running 0 awaiting 1 held 1 names 0
lease 00@0/0/0 until 40
client 0 until 30
ref 0 17 sure lapsed
+
drop 0 17
=
events 5 units 7 now 39
object 16 kind 2 pinned running 0 awaiting 0 held 0 names 0
object 17 kind 1 free running 0 awaiting 1 held 1 names 0
lease 00@0/0/0 until 40
client 0 until 30";

/// Returns whether this is printed of a script.
fn is_end(alloc: Global, script: &str, end: &str) -> bool {
    match run_world(alloc, script.as_bytes()) {
        Ok(text) => text.as_slice().strip_suffix(b"\n") == Some(end.as_bytes()),
        Err(_) => false,
    }
}

/// Returns whether a row's script has its end after each of its parts.
fn is_row(alloc: Global, row: &str) -> Result<bool, AllocError> {
    let mut script = String::new(alloc);
    for part in row.split("\n+\n") {
        let (steps, end) = part.split_once("\n=\n").unwrap_or((part, ""));
        script.push_str(steps)?;
        script.push_str("\n")?;
        if !is_end(alloc, &script, end) {
            return Ok(false);
        }
    }
    Ok(true)
}

/// The first row whose script has another end, if there is one.
pub(crate) fn first_other_row(alloc: Global) -> Result<Option<&'static str>, AllocError> {
    for row in ROWS.split("\n\n") {
        if !is_row(alloc, row)? {
            return Ok(Some(row));
        }
    }
    Ok(None)
}
