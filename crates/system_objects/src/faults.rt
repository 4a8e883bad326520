//! The texts of the exceptional Returns that the server writes of its own.
ghost use Rattle.std.specs.Prelude.{◌≡◌, ◌++◌, codes};
ghost use Rattle.system_objects.specs.SystemRequests.{rejection_message};
ghost use Rattle.system_objects.specs.ReturnBytes.{table_word};

use crate::request::Rejection;
use object_ids::FullKind;

/// The object is not exported.
pub const NO_SUCH_OBJECT: &[u8] = b"java.rmi.NoSuchObjectException: no such object";

/// The object's kind has no such method.
pub const NO_SUCH_METHOD: &[u8] = b"java.rmi.UnmarshalException: no such method";

/// The space's history is full.
pub const HISTORY_FULL: &[u8] = b"java.rmi.ServerException: full: history";

/// The outcome is none of its method, or the kind is none of the book.
pub const WRONG_OUTCOME: &[u8] = b"java.rmi.ServerException: wrong outcome";

/// The name that follows is bound already.
pub const ALREADY_BOUND: &[u8] = b"java.rmi.AlreadyBoundException: ";

/// The name that follows is not bound.
pub const NOT_BOUND: &[u8] = b"java.rmi.NotBoundException: ";

/// The message where a table is full.
pub fn full_message(kind: FullKind) -> &'static [u8]
    ensures { result.now ≡ codes "java.rmi.ServerException: full: " ++ table_word kind }
{
    match kind {
        FullKind::Exports => b"java.rmi.ServerException: full: exports",
        FullKind::Awaiting => b"java.rmi.ServerException: full: awaiting",
        FullKind::Clients => b"java.rmi.ServerException: full: clients",
        FullKind::Pairs => b"java.rmi.ServerException: full: pairs",
        FullKind::Names => b"java.rmi.ServerException: full: names",
    }
}

/// The message of the exceptional Return of a call that is rejected.
#[tactic(auto, unfolding(crate::specs::SystemRequests::rejection_message))]
pub fn rejection_message(rejection: Rejection) -> &'static [u8]
    ensures { result.now ≡ rejection_message rejection }
{
    match rejection {
        Rejection::WrongArgument => b"java.rmi.UnmarshalException: wrong argument",
        Rejection::BindingClosed => b"java.rmi.AccessException: binding is not allowed",
        Rejection::NameTooLong => b"java.rmi.ServerException: name too long",
        Rejection::ForeignReference => b"java.rmi.ServerException: foreign reference",
    }
}
