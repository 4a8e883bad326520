//! The arguments of a call, each read by the type of its parameter.
ghost use Rattle.std.specs.Prelude.{◌≡◌, ◌≢◌, ◌↔◌, ◌++◌, ◌∷◌, [], IsTrue, IfErr, OnOk, map};
ghost use Rattle.class_desc.specs.declared.field.TypeCode.TheVariants as types;
ghost use Rattle.journal.specs.Reading.{Finds};
ghost use Rattle.rmi_words.specs.CallWords.{AreArguments, IsArgument, IsValue, truth_word};
ghost use Rattle.rmi_words.specs.Clients.{Reads};
ghost use Rattle.rmi_words.specs.declared.command.WordsFault.TheVariants.{Usage};

use crate::call_words::{Argument, ArgumentList};
use crate::command::WordsFault;
use crate::numbers::read_unit;
use crate::signed::{read_byte, read_int, read_long, read_short};
use class_desc::TypeCode;
use mod_utf::units_of_text;
use ser_values::Value;
use std::alloc::Global;

/// Returns the arguments that the words say, one for each parameter. The fault is Usage only where they say none.
pub(crate) fn read_arguments(
    alloc: Global,
    codes: &[TypeCode],
    words: &[&str],
) -> Result<ArgumentList, WordsFault>
    ensures { Reads (AreArguments codes.now) result (map (λ word. word.now) words.now) }
{
    if codes.len() != words.len() {
        return Err(WordsFault::Usage);
    }
    let mut arguments = ArgumentList::new(alloc);
    let mut at = 0;
    while at < codes.len() {
        let code = codes[at];
        let word = words[at];
        let argument = read_argument(alloc, code, word)?;
        push_argument(&mut arguments, argument)?;
        at += 1;
    }
    Ok(arguments)
}

/// Appends an argument.
fn push_argument(arguments: &mut ArgumentList, argument: Argument) -> Result<(), WordsFault>
    ensures pushed { OnOk result (arguments.new ≡ arguments.old ++ argument ∷ []) }
    ensures fault { IfErr result (λ fault. fault ≢ Usage) }
{
    match arguments.push(argument) {
        Ok(()) => Ok(()),
        Err(_) => Err(WordsFault::OutOfMemory),
    }
}

/// Returns the argument that the word says, for a parameter of this type. The fault is Usage only where it says none.
fn read_argument(alloc: Global, code: TypeCode, word: &str) -> Result<Argument, WordsFault>
    ensures { Reads (IsArgument code) result word.now }
{
    if is_object(code) {
        match units_of_text(alloc, word) {
            Ok(units) => Ok(Argument::Text(units)),
            Err(_) => Err(WordsFault::OutOfMemory),
        }
    } else {
        match read_value(code, word) {
            Some(value) => Ok(Argument::Prim(value)),
            None => Err(WordsFault::Usage),
        }
    }
}

/// Returns true for a class or an interface.
fn is_object(code: TypeCode) -> bool
    ensures { IsTrue result ↔ (code ≡ types.Object) }
{
    match code {
        TypeCode::Object => true,
        _ => false,
    }
}

/// Returns the value of this type that the word spells, or None where it spells none.
fn read_value(code: TypeCode, word: &str) -> Option<Value>
    ensures { Finds (IsValue code) result word.now }
{
    match code {
        TypeCode::Boolean => Some(Value::Boolean(read_truth(word)?)),
        TypeCode::Byte => Some(Value::Byte(read_byte(word)?)),
        TypeCode::Char => Some(Value::Char(read_unit(word)?)),
        TypeCode::Short => Some(Value::Short(read_short(word)?)),
        TypeCode::Int => Some(Value::Int(read_int(word)?)),
        TypeCode::Long => Some(Value::Long(read_long(word)?)),
        _ => None,
    }
}

/// Returns the truth value that the word spells, or None where it spells none.
fn read_truth(word: &str) -> Option<bool>
    ensures { Finds (λ b text. text ≡ truth_word b) result word.now }
{
    match word {
        "true" => Some(true),
        "false" => Some(false),
        _ => None,
    }
}
