//! Laws of the journal's text. Each function does nothing: its contract is the law.
ghost use Rattle.journal.specs.Laws.{LinesSpellOneEvent, LinesSpellOneConfig, JournalsTellOneHistory, FirstBadLinesAreAlone, ConfigTextsSpell, EventTextsSpell, JournalTextsAreJournals};

/// A line spells at most one event.
pub fn lines_spell_one_event()
    ensures { LinesSpellOneEvent }
{}

/// A line spells at most one configuration.
pub fn lines_spell_one_config()
    ensures { LinesSpellOneConfig }
{}

/// Bytes are the journal of at most one configuration and one list of events.
pub fn journals_tell_one_history()
    ensures { JournalsTellOneHistory }
{}

/// Before the first line that spells no event stand the lines of one list of events, and the bytes are no journal.
pub fn first_bad_lines_are_alone()
    ensures { FirstBadLinesAreAlone }
{}

/// The line that is written of a configuration spells it, where its numbers are within their ranges.
pub fn config_texts_spell()
    ensures { ConfigTextsSpell }
{}

/// The line that is written of an event spells it, where its numbers are within their ranges.
pub fn event_texts_spell()
    ensures { EventTextsSpell }
{}

/// The text that is written of a configuration and of events is their journal, where their numbers are within their ranges.
pub fn journal_texts_are_journals()
    ensures { JournalTextsAreJournals }
{}
