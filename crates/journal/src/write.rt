//! Writing the lines of a journal. After a refusal, which comes only for want of memory, a front of the line stands appended.
ghost use Rattle.std.specs.Prelude.{◌≡◌, ◌∷◌, ◌++◌, ◌<◌, ◌^◌, [], codes, decimal, pos, FitsSigned, OnOk, OnErr};
ghost use Rattle.std.specs.Int.{w64};
ghost use Rattle.std.specs.List.{join_with_byte};
ghost use Rattle.std.specs.Fmt.{signed_decimal};
ghost use Rattle.history.specs.Texts.{uid_text, client_text, object_text, name_text};
ghost use Rattle.history.specs.declared.limits.TheConstants.{END_OF_TIME};
ghost use Rattle.journal.specs.Grammar.{IsUid, IsClient, IsName};
ghost use Rattle.journal.specs.Putting.{AppendsFront};
ghost use Rattle.journal.specs.Written.{list_text, objects_text, pinned_text, strong_text, ask_words, config_text, event_text, with_line_end, IsObject, AreKinds, AreObjects, AskFits, EventFits};

use crate::outline::{Word, put_line, put_words};
use crate::put::put_decimal;
use history::{Ask, Event, Name, SpaceConfig};
use object_ids::{ObjId, ObjIds, Uid, Vmid};
use sequence::{ByteList, Kinds};
use std::alloc::AllocError;

/// Appends a journal's first line, with its LF: the durations of a configuration, and its identifier without the count. Where
/// the durations are within their limits, the count is 0 and the space keeps its events, it spells this configuration and no other ([`config_texts_spell`](crate::text_laws::config_texts_spell)).
#[tactic(auto, unfolding(crate::specs::Written::config_text))]
pub fn put_first_line(out: &mut ByteList, config: &SpaceConfig) -> Result<(), AllocError>
    ensures text { OnOk result (out.new ≡ out.old ++ with_line_end (config_text config.now)) }
    ensures err { OnErr result
        (AppendsFront out.old (with_line_end (config_text config.now)) out.new) }

    // The numbers of an identifier without a count are within their ranges.
    ensures fits { config.now.uid.count ≡ pos 0 → IsUid config.now.uid }
{
    put_line(
        out,
        &[
            Word::Text(b"space"),
            Word::Number(config.lease_ms),
            Word::Number(config.ack_ms),
            Word::Signed(i64::from(config.uid.unique)),
            Word::Signed(config.uid.time),
        ],
    )
}

/// Appends the line of an event, with its LF, in the journal of the space of this identifier. Where the event's numbers are
/// within their ranges, it spells this event and no other ([`event_texts_spell`](crate::text_laws::event_texts_spell)).
pub fn put_event_line(out: &mut ByteList, space: Uid, event: &Event) -> Result<(), AllocError>
    ensures text { OnOk result (out.new ≡ out.old ++ with_line_end (event_text space event.now)) }
    ensures err { OnErr result
        (AppendsFront out.old (with_line_end (event_text space event.now)) out.new) }

    // The numbers of an event that was written are within their ranges, where its moment is below the end of time.
    ensures fits { OnOk result (event.now.moment < END_OF_TIME → EventFits event.now) }
{
    put_event(out, space, event)?;
    out.push(b'\n')
}

fn put_event(out: &mut ByteList, space: Uid, event: &Event) -> Result<(), AllocError>
    ensures ok { OnOk result (out.new ≡ out.old ++ event_text space event.now) }
    ensures err { OnErr result (AppendsFront out.old (event_text space event.now) out.new) }
    ensures fits { OnOk result (event.now.moment < END_OF_TIME → EventFits event.now) }
{
    put_leading(out, u64::from(event.by))?;
    put_leading(out, event.moment)?;
    put_ask(out, space, &event.ask)
}

/// Appends a number before further words.
fn put_leading(out: &mut ByteList, n: u64) -> Result<(), AllocError>
    ensures ok { OnOk result (out.new ≡ out.old ++ (decimal n ++ 32 ∷ [])) }
    ensures err { OnErr result (AppendsFront out.old (decimal n ++ 32 ∷ []) out.new) }
{
    put_decimal(out, n)?;
    out.push(b' ')
}

/// Appends the words of an ask.
fn put_ask(out: &mut ByteList, space: Uid, ask: &Ask) -> Result<(), AllocError>
    ensures ok { OnOk result (out.new ≡ out.old ++ join_with_byte 32 (ask_words space ask.now)) }
    ensures err { OnErr result
        (AppendsFront out.old (join_with_byte 32 (ask_words space ask.now)) out.new) }
    ensures fits { OnOk result (AskFits ask.now) }
{
    match ask {
        Ask::Open { kind, pinned } => put_open(out, *kind, *pinned),
        Ask::Begin { object } => put_of_object(out, b"begin", space, *object),
        Ask::Finish {
            object,
            made,
            listed,
            uid,
        } => put_finish(out, space, *object, made, listed, *uid),
        Ask::Abandon { object } => put_of_object(out, b"abandon", space, *object),
        Ask::Dirty {
            client,
            number,
            asked,
            objects,
        } => put_dirty(out, space, client, *number, *asked, objects),
        Ask::Clean {
            client,
            number,
            objects,
            strong,
        } => put_clean(out, space, client, *number, objects, *strong),
        Ask::Ack { uid } => put_words(out, &[Word::Text(b"ack"), Word::Uid(*uid)]),
        Ask::Bind { name, object } => put_binding(out, b"bind", space, name, *object),
        Ask::Rebind { name, object } => put_binding(out, b"rebind", space, name, *object),
        Ask::Unbind { name } => put_words(out, &[Word::Text(b"unbind"), Word::Name(name)]),
        Ask::Lookup { name, uid } => put_lookup(out, name, *uid),
        Ask::List => put_words(out, &[Word::Text(b"list")]),
        Ask::Tick => put_words(out, &[Word::Text(b"tick")]),
    }
}

fn put_open(out: &mut ByteList, kind: u32, pinned: bool) -> Result<(), AllocError>
    ensures ok { OnOk result
        (out.new
        ≡ out.old ++ join_with_byte 32 (codes "open" ∷ decimal kind ∷ pinned_text pinned ∷ [])) }
    ensures err { OnErr result
        (AppendsFront out.old
        (join_with_byte 32 (codes "open" ∷ decimal kind ∷ pinned_text pinned ∷ [])) out.new) }
    ensures fits { OnOk result (kind < 2 ^ 32) }
{
    let pinned: &[u8] = if pinned { b"pinned" } else { b"free" };
    put_words(
        out,
        &[
            Word::Text(b"open"),
            Word::Number(u64::from(kind)),
            Word::Text(pinned),
        ],
    )
}

/// Appends a keyword and an object.
fn put_of_object(
    out: &mut ByteList,
    keyword: &[u8],
    space: Uid,
    object: ObjId,
) -> Result<(), AllocError>
    ensures ok { OnOk result
        (out.new ≡ out.old ++ join_with_byte 32 (keyword.now ∷ object_text space object ∷ [])) }
    ensures err { OnErr result
        (AppendsFront out.old (join_with_byte 32 (keyword.now ∷ object_text space object ∷ []))
        out.new) }
    ensures fits { OnOk result (IsObject object) }
{
    put_words(out, &[Word::Text(keyword), Word::Object { space, object }])
}

fn put_finish<'a>(
    out: &mut ByteList,
    space: Uid,
    object: ObjId,
    made: &'a Kinds,
    listed: &'a ObjIds,
    uid: Uid,
) -> Result<(), AllocError>
    ensures ok { OnOk result
        (out.new
        ≡ out.old ++ join_with_byte 32
        (codes "finish" ∷ object_text space object ∷ list_text decimal made.now
        ∷ objects_text space listed.now ∷ uid_text uid ∷ [])) }
    ensures err { OnErr result
        (AppendsFront out.old
        (join_with_byte 32
        (codes "finish" ∷ object_text space object ∷ list_text decimal made.now
        ∷ objects_text space listed.now ∷ uid_text uid ∷ [])) out.new) }
    ensures fits { OnOk result
        (IsObject object × AreKinds made.now × AreObjects listed.now × IsUid uid) }
{
    put_words(
        out,
        &[
            Word::Text(b"finish"),
            Word::Object { space, object },
            Word::Kinds(made),
            Word::Objects {
                space,
                objects: listed,
            },
            Word::Uid(uid),
        ],
    )
}

fn put_dirty<'a>(
    out: &mut ByteList,
    space: Uid,
    client: &'a Vmid,
    number: i64,
    asked: i64,
    objects: &'a ObjIds,
) -> Result<(), AllocError>
    ensures ok { OnOk result
        (out.new
        ≡ out.old ++ join_with_byte 32
        (codes "dirty" ∷ client_text client.now ∷ signed_decimal number ∷ signed_decimal asked
        ∷ objects_text space objects.now ∷ [])) }
    ensures err { OnErr result
        (AppendsFront out.old
        (join_with_byte 32
        (codes "dirty" ∷ client_text client.now ∷ signed_decimal number ∷ signed_decimal asked
        ∷ objects_text space objects.now ∷ [])) out.new) }
    ensures fits { OnOk result
        (IsClient client.now × FitsSigned w64 number × FitsSigned w64 asked
        × AreObjects objects.now) }
{
    put_words(
        out,
        &[
            Word::Text(b"dirty"),
            Word::Client(client),
            Word::Signed(number),
            Word::Signed(asked),
            Word::Objects { space, objects },
        ],
    )
}

fn put_clean<'a>(
    out: &mut ByteList,
    space: Uid,
    client: &'a Vmid,
    number: i64,
    objects: &'a ObjIds,
    strong: bool,
) -> Result<(), AllocError>
    ensures ok { OnOk result
        (out.new
        ≡ out.old ++ join_with_byte 32
        (codes "clean" ∷ client_text client.now ∷ signed_decimal number ∷ strong_text strong
        ∷ objects_text space objects.now ∷ [])) }
    ensures err { OnErr result
        (AppendsFront out.old
        (join_with_byte 32
        (codes "clean" ∷ client_text client.now ∷ signed_decimal number ∷ strong_text strong
        ∷ objects_text space objects.now ∷ [])) out.new) }
    ensures fits { OnOk result
        (IsClient client.now × FitsSigned w64 number × AreObjects objects.now) }
{
    let strength: &[u8] = if strong { b"strong" } else { b"weak" };
    put_words(
        out,
        &[
            Word::Text(b"clean"),
            Word::Client(client),
            Word::Signed(number),
            Word::Text(strength),
            Word::Objects { space, objects },
        ],
    )
}

/// Appends a keyword, a name and an object.
fn put_binding<'a>(
    out: &mut ByteList,
    keyword: &'a [u8],
    space: Uid,
    name: &'a Name,
    object: ObjId,
) -> Result<(), AllocError>
    ensures ok { OnOk result
        (out.new
        ≡ out.old ++ join_with_byte 32
        (keyword.now ∷ name_text name.now ∷ object_text space object ∷ [])) }
    ensures err { OnErr result
        (AppendsFront out.old
        (join_with_byte 32 (keyword.now ∷ name_text name.now ∷ object_text space object ∷ []))
        out.new) }
    ensures fits { OnOk result (IsName name.now × IsObject object) }
{
    put_words(
        out,
        &[
            Word::Text(keyword),
            Word::Name(name),
            Word::Object { space, object },
        ],
    )
}

fn put_lookup(out: &mut ByteList, name: &Name, uid: Uid) -> Result<(), AllocError>
    ensures ok { OnOk result
        (out.new
        ≡ out.old ++ join_with_byte 32 (codes "lookup" ∷ name_text name.now ∷ uid_text uid ∷ [])) }
    ensures err { OnErr result
        (AppendsFront out.old
        (join_with_byte 32 (codes "lookup" ∷ name_text name.now ∷ uid_text uid ∷ [])) out.new) }
    ensures fits { OnOk result (IsName name.now × IsUid uid) }
{
    put_words(
        out,
        &[Word::Text(b"lookup"), Word::Name(name), Word::Uid(uid)],
    )
}
