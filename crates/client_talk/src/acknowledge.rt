//! Acknowledging references.
ghost use Rattle.std.specs.Prelude.{◌≡◌, OnOk, false};
ghost use Rattle.object_ids.specs.Bytes.{bytes_of_uid};
ghost use Rattle.rmi_client.specs.Sessions.{link_of};
ghost use Rattle.client_talk.specs.Sessions.{seen_of, Acknowledges};

use object_ids::Uid;
use rmi_client::{ClientEnd, Session};
use wire_io::{Sink, Source};

/// Acknowledges the Return of this identifier where a reference in it has its flag set: the server keeps the object until then.
pub(crate) fn acknowledge<I: Source, O: Sink>(
    session: &mut Session<I, O>,
    uid: Uid,
    flagged: bool,
) -> Result<(), ClientEnd>
    requires { session.old.is_over ≡ false }
    ensures acks { Acknowledges
        (seen_of (link_of I.half O.half session.old)) (seen_of (link_of I.half O.half session.new))
        (bytes_of_uid uid) flagged result }
    ensures open { OnOk result (session.new.is_over ≡ false) }
{
    if flagged { session.ack(uid) } else { Ok(()) }
}
