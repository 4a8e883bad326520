//! The output of `suid`, `suidtext` and `describe`.
ghost use Rattle.std.specs.Prelude.{◌≡◌, ◌++◌, ◌∷◌, ◌≤◌, [], IfOk, IfErr};
ghost use Rattle.graph_text.specs.GraphText.{hex, suid_text as number_text};
ghost use Rattle.ser_write.specs.Canonical.{canonical};
ghost use Rattle.stream_grammar.specs.Spelled.{IsStream};
ghost use Rattle.suid_calc.specs.Description.{nodes_of, items_of, count_of, IsChecked};
ghost use Rattle.suid_calc.specs.Whole.{number_of, text_of};
ghost use Rattle.suid_calc.specs.declared.description.TheConstants.{MAX_FIELDS};
ghost use Rattle.rmi_cli.specs.Printing.{output_of, IsPrintable, IsReadable, Prints, IsUnprinted, LacksOutput};

use journal::put::put_hex;
use rmi_words::ClassOutput;
use sequence::ByteList;
use ser_write::write_stream;
use std::alloc::{AllocError, Global};
use suid_calc::{
    ClassOutline, DescribeFault, OutlineFault, describe, parse_outline, suid, suid_text,
};

/// Why nothing is printed of a text.
#[derive(Clone, Copy, Debug, PartialEq, Eq)]
pub enum ClassFault {
    /// The line of this number, from 1, is the first that is none of a class outline.
    BadLine { line: u64 },
    /// More than 32,767 fields are to be described.
    TooManyFields,
    /// There was no memory.
    OutOfMemory,
}

impl From<AllocError> for ClassFault {
    ghost use Rattle.rmi_cli.specs.declared.class_output.ClassFault.TheVariants.{OutOfMemory};

    ghost from_gives = { λ _ fault. fault ≡ OutOfMemory };

    fn from(_refused: AllocError) -> ClassFault {
        ClassFault::OutOfMemory
    }
}

/// Returns the number, the text or the description of the class that a text outlines. BadLine names the first bad line of a text that
/// outlines none; TooManyFields comes where more than 32,767 fields are to be described.
pub fn class_output(alloc: Global, text: &[u8], output: ClassOutput) -> Result<ByteList, ClassFault>
    ensures ok { IfOk result (λ bytes. Prints output text.now bytes) }
    ensures err { IfErr result (IsUnprinted output text.now) }
{
    let outline = match parse_outline(alloc, text) {
        Ok(outline) => outline,
        Err(OutlineFault::BadLine { line }) => {
            return Err(ClassFault::BadLine { line: line as u64 });
        }
        Err(OutlineFault::OutOfMemory) => return Err(ClassFault::OutOfMemory),
    };
    output_of(alloc, &outline, output)
}

/// Returns the number, the text or the description of an outline's class.
fn output_of(
    alloc: Global,
    outline: &ClassOutline,
    output: ClassOutput,
) -> Result<ByteList, ClassFault>
    ensures ok { IfOk result (λ bytes. bytes ≡ output_of output outline.now) }
    ensures printable { IfOk result (λ _. IsPrintable output outline.now) }
    ensures readable { IfOk result (λ bytes. IsReadable output outline.now bytes) }
    ensures err { IfErr result (LacksOutput output outline.now) }
{
    match output {
        ClassOutput::Number => Ok(number_line(alloc, outline)?),
        ClassOutput::Text => Ok(text_line(alloc, outline)?),
        ClassOutput::Description => description_of(alloc, outline),
    }
}

/// Returns the class's number as a line of 16 hexadecimal digits.
#[tactic(auto, unfolding(graph_text::specs::GraphText::suid_text))]
fn number_line(alloc: Global, outline: &ClassOutline) -> Result<ByteList, AllocError>
    ensures { IfOk result (λ line. line ≡ number_text (number_of outline.now) ++ 10 ∷ []) }
{
    let number = suid(alloc, outline)?;
    hex_line(alloc, &number.to_be_bytes())
}

/// Returns the text of which the class's number is the hash, as a line of hexadecimal digits.
fn text_line(alloc: Global, outline: &ClassOutline) -> Result<ByteList, AllocError>
    ensures { IfOk result (λ line. line ≡ hex (text_of outline.now) ++ 10 ∷ []) }
{
    let text = suid_text(alloc, outline)?;
    hex_line(alloc, text.as_slice())
}

/// Returns bytes as a line of two hexadecimal digits each.
fn hex_line(alloc: Global, bytes: &[u8]) -> Result<ByteList, AllocError>
    ensures { IfOk result (λ line. line ≡ hex bytes.now ++ 10 ∷ []) }
{
    let mut line = ByteList::new(alloc);
    put_hex(&mut line, bytes)?;
    line.push(b'\n')?;
    Ok(line)
}

/// Returns the class's description as a stream.
fn description_of(alloc: Global, outline: &ClassOutline) -> Result<ByteList, ClassFault>
    ensures ok { IfOk result (λ bytes. bytes ≡ canonical (nodes_of outline.now) items_of) }
    ensures few { IfOk result (λ _. count_of outline.now ≤ MAX_FIELDS) }
    ensures checked { IfOk result (λ _. IsChecked outline.now) }
    ensures stream { IfOk result (λ bytes. ∥ IsStream (nodes_of outline.now) items_of bytes ∥₁) }
    ensures err { IfErr result (LacksOutput ClassOutput.Description outline.now) }
{
    let graph = match describe(alloc, outline) {
        Ok(graph) => graph,
        Err(DescribeFault::TooManyFields) => return Err(ClassFault::TooManyFields),
        Err(DescribeFault::OutOfMemory) => return Err(ClassFault::OutOfMemory),
    };
    Ok(write_stream(alloc, &graph)?)
}
