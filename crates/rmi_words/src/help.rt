//! The text that `help` prints.
ghost use Rattle.std.specs.Prelude.{◌≡◌, map, string_bytes, IfOk, OnOk};
ghost use Rattle.std.specs.List.{flat_map};
ghost use Rattle.rmi_words.specs.Entries.{entry_of, word_of};
ghost use Rattle.rmi_words.specs.HelpText.{
  Appends,
  body_of,
  head_of,
  help_text,
  line_of,
  text_of_entry,
  text_of_example,
  text_of_line,
  usage_of,
  word_usage,
};

use crate::command::HelpTopic;
use crate::table::{CommandEntry, WordEntry, commands_of};
use std::alloc::{AllocError, Global};

/// The first line, with the version of the program.
const VERSION_LINE: &str = "rmi 0.1.0\n";

/// Returns the text that `help` prints of a topic: the version, and each of its commands with its words, their defaults, what it does and an
/// example.
pub fn help_text(alloc: Global, topic: HelpTopic) -> Result<String, AllocError>
    ensures { IfOk result (λ text. string_bytes text ≡ help_text topic) }
{
    let mut text = String::new(alloc);
    text.push_str(VERSION_LINE)?;
    for entry in commands_of(topic) {
        push_entry(&mut text, entry)?;
    }
    Ok(text)
}

/// Appends the text of a command.
fn push_entry(text: &mut String, entry: &CommandEntry) -> Result<(), AllocError>
    ensures { OnOk result (Appends text.old text.new (text_of_entry (entry_of entry.now))) }
{
    push_head(text, entry)?;
    push_body(text, entry)?;
    push_example(text, entry.example)
}

/// Appends a command's name and its words.
fn push_head(text: &mut String, entry: &CommandEntry) -> Result<(), AllocError>
    ensures { OnOk result (Appends text.old text.new (head_of (entry_of entry.now))) }
{
    text.push_str("\n")?;
    text.push_str(entry.name)?;
    push_usage(text, entry.words)?;
    text.push_str("\n")
}

/// Appends the words, each in brackets that may be left out, with dots where any number of words may stand.
fn push_usage(text: &mut String, words: &[WordEntry]) -> Result<(), AllocError>
    ensures { OnOk result (Appends text.old text.new (flat_map usage_of (map word_of words.now))) }
{
    for word in words {
        push_word(text, word.required, word.several, word.name)?;
    }
    Ok(())
}

/// Appends a word of the first line.
fn push_word(text: &mut String, required: bool, several: bool, name: &str) -> Result<(), AllocError>
    ensures { OnOk result (Appends text.old text.new (word_usage required several name.now)) }
{
    if required {
        text.push_str(" ")?;
        return text.push_str(name);
    }
    text.push_str(" [")?;
    text.push_str(name)?;
    text.push_str(if several { " ..]" } else { "]" })
}

/// Appends what a command does, and a line for each of its words.
fn push_body(text: &mut String, entry: &CommandEntry) -> Result<(), AllocError>
    ensures { OnOk result (Appends text.old text.new (body_of (entry_of entry.now))) }
{
    text.push_str("    ")?;
    text.push_str(entry.does)?;
    text.push_str("\n")?;
    push_lines(text, entry.words)
}

/// Appends a line for each word.
fn push_lines(text: &mut String, words: &[WordEntry]) -> Result<(), AllocError>
    ensures { OnOk result (Appends text.old text.new (flat_map line_of (map word_of words.now))) }
{
    for word in words {
        push_line(text, word.name, word.says)?;
    }
    Ok(())
}

/// Appends the line of a word.
fn push_line(text: &mut String, name: &str, says: &str) -> Result<(), AllocError>
    ensures { OnOk result (Appends text.old text.new (text_of_line name.now says.now)) }
{
    text.push_str("    ")?;
    text.push_str(name)?;
    text.push_str(": ")?;
    text.push_str(says)?;
    text.push_str("\n")
}

/// Appends the line that calls a command.
fn push_example(text: &mut String, example: &str) -> Result<(), AllocError>
    ensures { OnOk result (Appends text.old text.new (text_of_example example.now)) }
{
    text.push_str("    example: ")?;
    text.push_str(example)?;
    text.push_str("\n")
}
