//! Asks as words.
ghost use Rattle.std.specs.Prelude.{◌≡◌, ◌≢◌, ◌∷◌, MatchOption, codes};
ghost use Rattle.journal.specs.Reading.{Reads};
ghost use Rattle.journal.specs.Keywords.{keyword_text, IsNoneOf, call_keywords, collector_keywords, registry_keywords};
ghost use Rattle.journal.specs.Grammar.{SpellsAsk, SpellsPinned, SpellsStrong};
ghost use Rattle.journal.specs.declared.asks.Keyword.{Keyword as KeywordData};

use crate::fields::{Field, four, none, one, two};
use crate::parts::Parts;
use crate::unread::Unread;
use history::{Ask, Name};
use object_ids::{ObjId, ObjIds, Uid, Vmid};
use sequence::Kinds;
use std::alloc::Global;

/// The word that says what is asked.
#[derive(Clone, Copy, Debug, PartialEq, Eq)]
pub(crate) enum Keyword {
    Open,
    Begin,
    Finish,
    Abandon,
    Dirty,
    Clean,
    Ack,
    Bind,
    Rebind,
    Unbind,
    Lookup,
    List,
    Tick,
}

/// The word that says whether an opened object is pinned.
#[derive(Drop)]
pub(crate) struct Pinning(pub bool);

/// The word that says whether a clean is strong.
#[derive(Drop)]
pub(crate) struct Strength(pub bool);

impl Field for Pinning {
    ghost spells = { λ _ pinned word. SpellsPinned pinned.0 word };

    fn read(_alloc: Global, _space: Uid, word: &[u8]) -> Result<Pinning, Unread> {
        if word == b"pinned".as_slice() {
            Ok(Pinning(true))
        } else if word == b"free".as_slice() {
            Ok(Pinning(false))
        } else {
            Err(Unread::NotSpelled)
        }
    }
}

impl Field for Strength {
    ghost spells = { λ _ strong word. SpellsStrong strong.0 word };

    fn read(_alloc: Global, _space: Uid, word: &[u8]) -> Result<Strength, Unread> {
        if word == b"strong".as_slice() {
            Ok(Strength(true))
        } else if word == b"weak".as_slice() {
            Ok(Strength(false))
        } else {
            Err(Unread::NotSpelled)
        }
    }
}

/// The keyword that a word is.
fn keyword_of(word: &[u8]) -> Option<Keyword>
    ensures { MatchOption result ((k : KeywordData) → word.now ≢ keyword_text k)
        (λ k. word.now ≡ keyword_text k) }
{
    if let Some(keyword) = call_keyword(word) {
        return Some(keyword);
    }
    if let Some(keyword) = collector_keyword(word) {
        return Some(keyword);
    }
    registry_keyword(word)
}

/// The keyword of an exported object or of a call of one.
fn call_keyword(word: &[u8]) -> Option<Keyword>
    ensures { MatchOption result (IsNoneOf call_keywords word.now)
        (λ k. word.now ≡ keyword_text k) }
{
    match word {
        b"open" => Some(Keyword::Open),
        b"begin" => Some(Keyword::Begin),
        b"finish" => Some(Keyword::Finish),
        b"abandon" => Some(Keyword::Abandon),
        _ => None,
    }
}

/// The keyword of a call of the collector, of an acknowledgement or of the passing of time.
fn collector_keyword(word: &[u8]) -> Option<Keyword>
    ensures { MatchOption result (IsNoneOf collector_keywords word.now)
        (λ k. word.now ≡ keyword_text k) }
{
    match word {
        b"dirty" => Some(Keyword::Dirty),
        b"clean" => Some(Keyword::Clean),
        b"ack" => Some(Keyword::Ack),
        b"tick" => Some(Keyword::Tick),
        _ => None,
    }
}

/// The keyword of a call of the registry.
fn registry_keyword(word: &[u8]) -> Option<Keyword>
    ensures { MatchOption result (IsNoneOf registry_keywords word.now)
        (λ k. word.now ≡ keyword_text k) }
{
    match word {
        b"bind" => Some(Keyword::Bind),
        b"rebind" => Some(Keyword::Rebind),
        b"unbind" => Some(Keyword::Unbind),
        b"lookup" => Some(Keyword::Lookup),
        b"list" => Some(Keyword::List),
        _ => None,
    }
}

/// The ask that words spell.
pub(crate) fn read_ask(alloc: Global, space: Uid, words: Parts) -> Result<Ask, Unread>
    ensures { Reads (SpellsAsk space) result words.entry }
{
    let Some((word, words)) = words.split() else {
        return Err(Unread::NotSpelled);
    };
    let Some(keyword) = keyword_of(word) else {
        return Err(Unread::NotSpelled);
    };
    match keyword {
        Keyword::Open => read_open(alloc, space, words),
        Keyword::Begin => read_begin(alloc, space, words),
        Keyword::Finish => read_finish(alloc, space, words),
        Keyword::Abandon => read_abandon(alloc, space, words),
        Keyword::Dirty => read_dirty(alloc, space, words),
        Keyword::Clean => read_clean(alloc, space, words),
        Keyword::Ack => read_ack(alloc, space, words),
        Keyword::Bind => read_bind(alloc, space, words),
        Keyword::Rebind => read_rebind(alloc, space, words),
        Keyword::Unbind => read_unbind(alloc, space, words),
        Keyword::Lookup => read_lookup(alloc, space, words),
        Keyword::List => read_list_names(space, words),
        Keyword::Tick => read_tick(space, words),
    }
}

fn read_open(alloc: Global, space: Uid, words: Parts) -> Result<Ask, Unread>
    ensures { Reads (λ ask rest. SpellsAsk space ask (codes "open" ∷ rest)) result words.entry }
{
    let (kind, pinned) = two::<u32, Pinning>(alloc, space, words)?;
    Ok(Ask::Open {
        kind,
        pinned: pinned.0,
    })
}

fn read_begin(alloc: Global, space: Uid, words: Parts) -> Result<Ask, Unread>
    ensures { Reads (λ ask rest. SpellsAsk space ask (codes "begin" ∷ rest)) result words.entry }
{
    let object = one::<ObjId>(alloc, space, words)?;
    Ok(Ask::Begin { object })
}

fn read_finish(alloc: Global, space: Uid, words: Parts) -> Result<Ask, Unread>
    ensures { Reads (λ ask rest. SpellsAsk space ask (codes "finish" ∷ rest)) result words.entry }
{
    let (object, made, listed, uid) = four::<ObjId, Kinds, ObjIds, Uid>(alloc, space, words)?;
    Ok(Ask::Finish {
        object,
        made,
        listed,
        uid,
    })
}

fn read_abandon(alloc: Global, space: Uid, words: Parts) -> Result<Ask, Unread>
    ensures { Reads (λ ask rest. SpellsAsk space ask (codes "abandon" ∷ rest)) result words.entry }
{
    let object = one::<ObjId>(alloc, space, words)?;
    Ok(Ask::Abandon { object })
}

fn read_dirty(alloc: Global, space: Uid, words: Parts) -> Result<Ask, Unread>
    ensures { Reads (λ ask rest. SpellsAsk space ask (codes "dirty" ∷ rest)) result words.entry }
{
    let (client, number, asked, objects) = four::<Vmid, i64, i64, ObjIds>(alloc, space, words)?;
    Ok(Ask::Dirty {
        client,
        number,
        asked,
        objects,
    })
}

fn read_clean(alloc: Global, space: Uid, words: Parts) -> Result<Ask, Unread>
    ensures { Reads (λ ask rest. SpellsAsk space ask (codes "clean" ∷ rest)) result words.entry }
{
    let (client, number, strong, objects) = four::<Vmid, i64, Strength, ObjIds>(
        alloc, space, words,
    )?;
    Ok(Ask::Clean {
        client,
        number,
        objects,
        strong: strong.0,
    })
}

fn read_ack(alloc: Global, space: Uid, words: Parts) -> Result<Ask, Unread>
    ensures { Reads (λ ask rest. SpellsAsk space ask (codes "ack" ∷ rest)) result words.entry }
{
    let uid = one::<Uid>(alloc, space, words)?;
    Ok(Ask::Ack { uid })
}

fn read_bind(alloc: Global, space: Uid, words: Parts) -> Result<Ask, Unread>
    ensures { Reads (λ ask rest. SpellsAsk space ask (codes "bind" ∷ rest)) result words.entry }
{
    let (name, object) = two::<Name, ObjId>(alloc, space, words)?;
    Ok(Ask::Bind { name, object })
}

fn read_rebind(alloc: Global, space: Uid, words: Parts) -> Result<Ask, Unread>
    ensures { Reads (λ ask rest. SpellsAsk space ask (codes "rebind" ∷ rest)) result words.entry }
{
    let (name, object) = two::<Name, ObjId>(alloc, space, words)?;
    Ok(Ask::Rebind { name, object })
}

fn read_unbind(alloc: Global, space: Uid, words: Parts) -> Result<Ask, Unread>
    ensures { Reads (λ ask rest. SpellsAsk space ask (codes "unbind" ∷ rest)) result words.entry }
{
    let name = one::<Name>(alloc, space, words)?;
    Ok(Ask::Unbind { name })
}

fn read_lookup(alloc: Global, space: Uid, words: Parts) -> Result<Ask, Unread>
    ensures { Reads (λ ask rest. SpellsAsk space ask (codes "lookup" ∷ rest)) result words.entry }
{
    let (name, uid) = two::<Name, Uid>(alloc, space, words)?;
    Ok(Ask::Lookup { name, uid })
}

fn read_list_names(_space: Uid, words: Parts) -> Result<Ask, Unread>
    ensures { Reads (λ ask rest. SpellsAsk _space ask (codes "list" ∷ rest)) result words.entry }
{
    none(words)?;
    Ok(Ask::List)
}

fn read_tick(_space: Uid, words: Parts) -> Result<Ask, Unread>
    ensures { Reads (λ ask rest. SpellsAsk _space ask (codes "tick" ∷ rest)) result words.entry }
{
    none(words)?;
    Ok(Ask::Tick)
}
