// The command `format`: reads a module, and puts out its canonical text.
ghost use Rattle.std.specs.Prelude.{◌≡◌, ◌≤◌, IfOk, Ok, count_by, length, take};
ghost use Rattle.std.specs.Str.{chars};
ghost use Rattle.atl_base.specs.XmlText.{IsFirstOffence};
ghost use Rattle.atl_cli.specs.Format.{Ended, Formats, text_outcome, bad_words as bad_words_of, place_behind as place_behind_of, is_passed as is_passed_of, is_document as is_document_of, is_rule as is_rule_of, opens_element as opens_element_of, rule_count as rule_count_of};
ghost use Rattle.atl_cli.specs.Outcome.{outcome_of, file_limit};
ghost use Rattle.module_parse.specs.Reading.{module_of_text};

use crate::command::Misuse;
use crate::operands::only_operand;
use crate::status::{Ending, Form, Size, Status};
use crate::syntax::{SyntaxKind, place_behind, syntax_status, without_mark};
use crate::transform::{FILE_LIMIT, after_read_fault};
use atl_base::text::{Text, TextRefusal};
use atl_outside::files::Files;
use atl_tree::module::{Item, Module};
use module_parse::parse::parse_module;
use module_print::print::print_module;
use ocl_parse::refusal::ParseRefusal;
use std::alloc::{AllocError, Global};

/// How many rules a module has at most.
const RULE_LIMIT: usize = 1_000;

fn is_passed(byte: u8) -> bool
    ensures { result ≡ is_passed_of byte }
{
    matches!(byte, b' ' | b'\t' | b'\n' | b'\r')
}

// Whether the first byte behind blanks and line ends is `<`.
fn opens_element(bytes: &[u8]) -> bool
    ensures { result ≡ opens_element_of bytes.now }
{
    for byte in bytes {
        if !is_passed(*byte) {
            return *byte == b'<';
        }
    }
    false
}

// Whether the bytes are those of a document and not of a module.
fn is_document(bytes: &[u8]) -> bool
    ensures { result ≡ is_document_of bytes.now }
{
    opens_element(without_mark(bytes))
}

fn is_rule(item: &Item) -> bool
    ensures { result ≡ is_rule_of item.now }
{
    match item {
        Item::Help(_) => false,
        Item::Make(_) => true,
    }
}

fn rule_count(parsed: &Module) -> usize
    ensures { result ≡ rule_count_of parsed.now }
{
    let mut count: usize = 0;
    for item in parsed.items.as_slice() {
        if is_rule(item) {
            count += 1;
        }
    }
    count
}

// Prints a module that has not too many rules.
fn print(alloc: Global, parsed: &Module) -> Result<Ending, AllocError>
    ensures { IfOk result (λ e. outcome_of e ≡ text_outcome (Ok parsed.now)) }
{
    if rule_count(parsed) > RULE_LIMIT {
        return Ok(Ending::Ends(Status::TooLarge(Size::Rules)));
    }
    Ok(Ending::Prints(print_module(alloc, parsed)?))
}

// Prints the module of a text.
fn format_text(alloc: Global, text: &Text) -> Result<Ending, AllocError>
    requires { length text.now ≤ file_limit }
    ensures { IfOk result (λ e. outcome_of e ≡ text_outcome (module_of_text (chars text.now))) }
{
    match parse_module(alloc, text) {
        Ok(parsed) => print(alloc, &parsed),
        Err(ParseRefusal::Memory) => Err(AllocError),
        Err(refusal) => Ok(Ending::Ends(syntax_status(refusal))),
    }
}

// How a byte that is not of a text ends a call.
fn bad_byte(bytes: &[u8], at: usize) -> Status
    requires short { length bytes.now ≤ file_limit }
    requires first { IsFirstOffence bytes.now at }
    ensures { result ≡ Status.Syntax SyntaxKind.BadByte (place_behind_of (take at bytes.now)) }
{
    Status::Syntax(SyntaxKind::BadByte, place_behind(&bytes[..at]))
}

// Prints the module of these bytes.
fn format_bytes(alloc: Global, bytes: &[u8]) -> Result<Ending, AllocError>
    requires { length bytes.now ≤ file_limit }
    ensures { IfOk result (λ e. Formats bytes.now (outcome_of e)) }
{
    if is_document(bytes) {
        return Ok(Ending::Ends(Status::NotYet(Form::Module)));
    }
    match Text::from_bytes(alloc, bytes) {
        Ok(text) => format_text(alloc, &text),
        Err(TextRefusal::BadByte(at)) => Ok(Ending::Ends(bad_byte(bytes, at))),
        Err(TextRefusal::Memory) => Err(AllocError),
    }
}

// How words of another form end a call.
fn bad_words(alloc: Global) -> Result<Status, AllocError>
    ensures { IfOk result (λ s. s ≡ bad_words_of) }
{
    Ok(Status::Usage(Misuse::BadWords(Text::from_ascii(alloc, "format")?)))
}

/// Reads the file that the words behind the command name, and says what is to be put out. No file is changed.
pub fn format_file<F: Files>(
    alloc: Global,
    words: &[Text],
    files: &mut F,
) -> Result<Ending, AllocError>
    ensures ended { IfOk result (λ e. Ended words.now (F.held files.old) (F.faults files.old) (F.faults files.new) e) }
    ensures kept { F.held files.new ≡ F.held files.old }
{
    let Some(path) = only_operand(alloc, words)? else {
        return Ok(Ending::Ends(bad_words(alloc)?));
    };
    match files.read(alloc, &path, FILE_LIMIT) {
        Ok(bytes) => format_bytes(alloc, &bytes),
        Err(fault) => Ok(Ending::Ends(after_read_fault(alloc, fault, &path)?)),
    }
}

#[cfg(test)]
mod tests;
