//! The table's commands as `clap` declares them.
ghost use Rattle.std.specs.Prelude.{◌≡◌, IfOk, false};
ghost use Rattle.clap.specs.Words.{app_of, rule_of};
ghost use Rattle.clap.specs.declared.builder.command.Command.TheViews.{out-Command as fields_of};
ghost use Rattle.rmi_words.specs.Entries.{entry_of, word_of};
ghost use Rattle.rmi_words.specs.Program.{action_of_word, program, app_of_entry, rule_of_word};

use crate::table::{CommandEntry, WordEntry, commands};
use clap::{Arg, ArgAction, Command};
use std::alloc::{AllocError, Global};

/// The program with all its commands. It has no help and no version of clap's own, and its first word is no name of a program.
pub(crate) fn declared_program<'a>(alloc: Global) -> Result<Command<'a>, AllocError>
    ensures { IfOk result (λ declared. app_of declared ≡ program) }
{
    let mut declared = Command::new(alloc, "rmi")
        .no_binary_name(true)
        .disable_help_flag(true)
        .disable_help_subcommand(true)
        .subcommand_required(true);
    for entry in commands() {
        declared = declared.subcommand(declared_command(alloc, entry)?)?;
    }
    Ok(declared)
}

/// A command with its words, each of which stands at its place.
fn declared_command<'a>(alloc: Global, entry: &CommandEntry) -> Result<Command<'a>, AllocError>
    ensures app { IfOk result (λ command. app_of command ≡ app_of_entry (entry_of entry.now)) }
    ensures local { IfOk result (λ command. (fields_of command).has_globals ≡ false) }
{
    let mut command = Command::new(alloc, entry.name);
    for word in entry.words {
        command = command.arg(declared_word(alloc, word))?;
    }
    Ok(command)
}

/// A word at its place.
fn declared_word<'a>(alloc: Global, word: &WordEntry) -> Arg<'a>
    ensures rule { rule_of result ≡ rule_of_word (word_of word.now) }
    ensures local { result.global ≡ false }
{
    Arg::new(alloc, word.name)
        .required(word.required)
        .action(declared_action(word.several))
}

/// Returns what `clap` does with the words at a place: it keeps one, or all of several.
fn declared_action(several: bool) -> ArgAction
    ensures { result ≡ action_of_word several }
{
    if several {
        ArgAction::Append
    } else {
        ArgAction::Set
    }
}
