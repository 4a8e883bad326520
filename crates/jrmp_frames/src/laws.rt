//! Laws of calls and returns, for those who read contracts: these functions do nothing.
ghost use Rattle.jrmp_frames.specs.MessageLaws.{CallHasHead, CallIsOne, ReturnIsOne, ReturnsAreRead, WrittenIsReturn};

/// No call is a proper front of another, and bytes are a call with one head and one list of arguments.
pub fn call_is_one()
    ensures { CallIsOne }
{}

/// A call begins with its head.
pub fn call_has_head()
    ensures { CallHasHead }
{}

/// No return is a proper front of another, and bytes are a return of one kind, with one identifier and one body, for one type of result.
pub fn return_is_one()
    ensures { ReturnIsOne }
{}

/// Reading gives a return exactly where one stands in front of the bytes to come.
pub fn returns_are_read()
    ensures { ReturnsAreRead }
{}

/// A return that is written is one for the type of what it carries.
pub fn written_is_return()
    ensures { WrittenIsReturn }
{}
