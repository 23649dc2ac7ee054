// The operands of a command without options, as clap takes them.
ghost use Rattle.std.specs.Prelude.{◌≡◌, ◌≤◌, All, map, IfOk, MatchOption, codes, length};
ghost use Rattle.std.specs.List.{AllByRecursion, list_any};
ghost use Rattle.atl_base.specs.XmlText.{IsXmlText};
ghost use Rattle.clap.specs.Words.{app_of, all_of, rows_of, found_of};
ghost use Rattle.atl_cli.specs.Operands.{is_empty_word, operands as operands_of};
ghost use Rattle.atl_cli.specs.Format.{HasFile, HasNoFile};
ghost use Rattle.atl_cli.specs.OperandCommand.{operand_app, listed, IsWord};

use atl_base::text::{Text, TextRefusal};
use clap::error::ErrorKind;
use clap::{Arg, ArgAction, ArgMatches, Command};
use sqlite_items::Items;
use std::alloc::{AllocError, Global};

// A command whose only argument takes all operands.
fn operand_command<'a>(alloc: Global) -> Result<Command<'a>, AllocError>
    ensures { IfOk result (λ c. app_of c ≡ operand_app) }
{
    let operands = Arg::new(alloc, "operands")
        .action(ArgAction::Append)
        .num_args(1..);
    Command::new(alloc, "operands")
        .no_binary_name(true)
        .disable_help_flag(true)
        .arg(operands)
}

// The same words as strings.
fn strings<'a>(alloc: Global, words: &'a [Text]) -> Result<Vec<&'a str>, AllocError>
    ensures { IfOk result (λ v. (map (λ s. s.now) v.items ≡ words.now) × All IsXmlText words.now) }
{
    let mut strings = Vec::new(alloc);
    for word in words {
        strings.push(word.as_str())?;
    }
    Ok(strings)
}

// The same strings as texts.
fn texts(alloc: Global, strings: &[&str]) -> Result<Items<Text>, AllocError>
    requires { All IsXmlText (map (λ s. s.now) strings.now) }
    ensures { IfOk result (λ texts. texts ≡ map (λ s. s.now) strings.now) }
{
    let mut texts = Items::new(alloc);
    for string in strings {
        match Text::from_bytes(alloc, string.as_bytes()) {
            Ok(text) => texts.push(text)?,
            Err(TextRefusal::BadByte(_)) => unreachable!(),
            Err(TextRefusal::Memory) => return Err(AllocError),
        }
    }
    Ok(texts)
}

// Whether a word is empty.
fn has_empty(words: &[Text]) -> bool
    ensures { result ≡ list_any is_empty_word words.now }
{
    words.iter().any(|word| word.bytes().is_empty())
}

// What the argument has taken.
fn taken(alloc: Global, matches: &ArgMatches) -> Result<Items<Text>, AllocError>
    requires { AllByRecursion IsXmlText (listed (all_of (codes "operands") (rows_of (found_of matches.now)))) }
    ensures { IfOk result (λ texts. texts ≡ listed (all_of (codes "operands") (rows_of (found_of matches.now)))) }
{
    match matches.get_raw("operands") {
        Some(values) => texts(alloc, values),
        None => Ok(Items::new(alloc)),
    }
}

// The operands of these words, of which none is empty.
fn read(alloc: Global, words: &[&str]) -> Result<Option<Items<Text>>, AllocError>
    requires words { AllByRecursion IsWord (map (λ s. s.now) words.now) }
    requires short { length (map (λ s. s.now) words.now) ≤ 18446744073709551615 }
    ensures { IfOk result (λ read. read ≡ operands_of (map (λ s. s.now) words.now)) }
{
    let command = operand_command(alloc)?;
    match command.try_get_matches_from(words) {
        Ok(matches) => Ok(Some(taken(alloc, &matches)?)),
        Err(error) => match error.kind() {
            ErrorKind::OutOfMemory => Err(AllocError),
            _ => Ok(None),
        },
    }
}

/// The operands of these words, if none is empty or an option.
pub fn operands(alloc: Global, words: &[Text]) -> Result<Option<Items<Text>>, AllocError>
    ensures { IfOk result (λ read. read ≡ operands_of words.now) }
{
    if has_empty(words) {
        return Ok(None);
    }
    let words = strings(alloc, words)?;
    read(alloc, words.as_slice())
}

/// The only operand of these words, if they have one alone.
pub fn only_operand(alloc: Global, words: &[Text]) -> Result<Option<Text>, AllocError>
    ensures { IfOk result (λ read. MatchOption read (HasNoFile words.now) (λ path. HasFile words.now path)) }
{
    let Some(mut read) = operands(alloc, words)? else {
        return Ok(None);
    };
    let Some(last) = read.pop() else {
        return Ok(None);
    };
    if !read.is_empty() {
        return Ok(None);
    }
    Ok(Some(last))
}
