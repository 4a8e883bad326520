//! Laws of shapes, for those who read contracts: these functions do nothing.
ghost use Rattle.java_shapes.specs.ShapeLaws.{NotesAreRead, NotesAreWritten, ViewsStay};

/// The note of a reference, of class `UnicastRef` or `UnicastRef2`, is read as that reference.
pub fn notes_are_read()
    ensures { NotesAreRead }
{}

/// The bytes that are written of a reference are its note.
pub fn notes_are_written()
    ensures { NotesAreWritten }
{}

/// Each view tells of the graph that is finished for what was put what it tells of that.
pub fn views_stay()
    ensures { ViewsStay }
{}
