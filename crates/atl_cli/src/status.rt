// How a call of the program ends.
ghost use Rattle.std.specs.Prelude.{◌≡◌, ◌++◌, IfOk, OnOk, IsTrue, codes};
ghost use Rattle.std.specs.Fmt.{decimal};
ghost use Rattle.std.specs.List.{list_all};
ghost use Rattle.atl_base.specs.XmlText.{is_ascii_text};
ghost use Rattle.atl_cli.specs.Status.{number_of, line_of, kind_word, place_words, told, valued};

use crate::command::Misuse;
use crate::refused::{MetaKind, ModelKind};
use crate::syntax::SyntaxKind;
use atl_base::place::Place;
use atl_base::text::Text;
use itoa::Buffer;
use std::alloc::{AllocError, AllocFailed, Global};

/// What can be larger than its limit.
#[derive(Clone, Copy, Debug, PartialEq, Eq)]
pub enum Size {
    /// A file of more than 67,108,864 bytes.
    File,
    /// A source of more than 1,000,000 objects.
    Objects,
    /// A module of more than 1,000 rules.
    Rules,
}

/// What has a form that is not built yet.
#[derive(Clone, Copy, Debug, PartialEq, Eq)]
pub enum Form {
    Words,
    Module,
    Model,
}

/// What a run over files comes to, before anything is put out.
#[derive(Debug, Drop)]
pub enum Ending {
    /// A status, which its line tells.
    Ends(Status),
    /// The status `Ok`, with this text to be put out.
    Prints(Text),
}

/// How a call of the program ended. Each status but `Ok` and `Memory` has put its line.
#[derive(Debug, Drop)]
pub enum Status {
    /// What was asked for is written or put out.
    Ok,
    /// Memory was refused.
    Memory,
    /// The words ask for nothing.
    Usage(Misuse),
    /// The files failed in a read of this path.
    ReadFault(Text),
    /// The files failed in a write to this path; or, where the path is empty, the sink failed, and no line is whole.
    WriteFault(Text),
    /// The bytes of a module's file have no module.
    Syntax(SyntaxKind, Place),
    /// The file at a path has no metamodel: why, with a value and a place.
    Meta(Text, MetaKind, Text, Place),
    /// The file at a path has no model: why, with a value and a place.
    Model(Text, ModelKind, Text, Place),
    /// An input is larger than its limit.
    TooLarge(Size),
    /// An input has a form that is not built yet.
    NotYet(Form),
}

impl From<AllocError> for Status {
    ghost use Rattle.std.specs.Prelude.{◌≡◌};
    ghost use Rattle.atl_cli.specs.declared.status.Status.TheVariants.{Memory};

    ghost from_gives = { λ _ e. e ≡ Memory };

    fn from(_e: AllocError) -> Status {
        Status::Memory
    }
}

impl<T: Drop> From<AllocFailed<T>> for Status {
    ghost use Rattle.std.specs.Prelude.{◌≡◌};
    ghost use Rattle.atl_cli.specs.declared.status.Status.TheVariants.{Memory};

    ghost from_gives = { λ _ e. e ≡ Memory };

    fn from(_e: AllocFailed<T>) -> Status {
        Status::Memory
    }
}

impl Status {
    /// The number that the program exits with.
    pub fn number(&self) -> u8
        ensures { result ≡ number_of self.now }
    {
        match self {
            Status::Ok => 0,
            Status::Memory => 1,
            Status::Usage(_) => 2,
            Status::ReadFault(_) => 3,
            Status::WriteFault(_) => 4,
            Status::Syntax(_, _) => 5,
            Status::Meta(_, _, _, _) => 7,
            Status::Model(_, _, _, _) => 8,
            Status::TooLarge(_) => 14,
            Status::NotYet(_) => 15,
        }
    }

    /// The line that tells the status, with its line feed; empty where the status puts none.
    pub fn line(&self, alloc: Global) -> Result<Text, AllocError>
        ensures { IfOk result (λ line. line ≡ line_of self.now) }
    {
        match self {
            Status::Ok => Ok(Text::new(alloc)),
            Status::Memory => Ok(Text::new(alloc)),
            Status::Usage(misuse) => usage_line(alloc, misuse),
            Status::ReadFault(path) => fault_line(alloc, "3 ReadFault: ", path),
            Status::WriteFault(path) => write_fault_line(alloc, path),
            Status::Syntax(kind, at) => syntax_line(alloc, *kind, *at),
            Status::Meta(path, kind, value, at) => {
                told_line(alloc, "7 Meta: ", path, kind.name(), value, *at)
            }
            Status::Model(path, kind, value, at) => {
                told_line(alloc, "8 Model: ", path, kind.name(), value, *at)
            }
            Status::TooLarge(size) => size_line(alloc, *size),
            Status::NotYet(form) => form_line(alloc, *form),
        }
    }
}

fn unknown_line(alloc: Global, word: &Text) -> Result<Text, AllocError>
    ensures { IfOk result (λ line. line ≡ line_of (Status.Usage (Misuse.UnknownCommand word.now))) }
{
    if word.bytes().is_empty() {
        return Text::from_ascii(alloc, "2 Usage: UnknownCommand\n");
    }
    fault_line(alloc, "2 Usage: UnknownCommand ", word)
}

fn usage_line(alloc: Global, misuse: &Misuse) -> Result<Text, AllocError>
    ensures { IfOk result (λ line. line ≡ line_of (Status.Usage misuse.now)) }
{
    match misuse {
        Misuse::NoCommand => Text::from_ascii(alloc, "2 Usage: NoCommand\n"),
        Misuse::UnknownCommand(word) => unknown_line(alloc, word),
        Misuse::BadWords(command) => fault_line(alloc, "2 Usage: BadWords ", command),
    }
}

// Adds a number in decimal.
fn push_number(line: &mut Text, number: u32) -> Result<(), AllocError>
    ensures { OnOk result (line.new ≡ line.old ++ decimal number) }
{
    let mut buffer = Buffer::new();
    line.push_ascii(buffer.format(number))
}

fn push_place(line: &mut Text, at: Place) -> Result<(), AllocError>
    ensures { OnOk result (line.new ≡ line.old ++ place_words at) }
{
    push_number(line, at.line)?;
    line.push_ascii(":")?;
    push_number(line, at.column)
}

// What the line of a syntax's refusal says before the place.
fn syntax_front(alloc: Global, kind: SyntaxKind) -> Result<Text, AllocError>
    ensures { IfOk result (λ line. line ≡ codes "5 Syntax: " ++ (kind_word kind ++ codes " at ")) }
{
    match kind {
        SyntaxKind::BadByte => Text::from_ascii(alloc, "5 Syntax: BadByte at "),
        SyntaxKind::OpenText => Text::from_ascii(alloc, "5 Syntax: OpenText at "),
        SyntaxKind::WideNumber => Text::from_ascii(alloc, "5 Syntax: WideNumber at "),
        SyntaxKind::RealNumber => Text::from_ascii(alloc, "5 Syntax: RealNumber at "),
        SyntaxKind::OtherUnit => Text::from_ascii(alloc, "5 Syntax: OtherUnit at "),
        SyntaxKind::Expected => Text::from_ascii(alloc, "5 Syntax: Expected at "),
        SyntaxKind::TooDeep => Text::from_ascii(alloc, "5 Syntax: TooDeep at "),
    }
}

fn syntax_line(alloc: Global, kind: SyntaxKind, at: Place) -> Result<Text, AllocError>
    ensures { IfOk result (λ line. line ≡ line_of (Status.Syntax kind at)) }
{
    let mut line = syntax_front(alloc, kind)?;
    push_place(&mut line, at)?;
    line.push_ascii("\n")?;
    Ok(line)
}

// Adds a value behind a blank, if there is one.
fn push_value(line: &mut Text, value: &Text) -> Result<(), AllocError>
    ensures { OnOk result (line.new ≡ line.old ++ valued value.now) }
{
    if value.bytes().is_empty() {
        return Ok(());
    }
    line.push_ascii(" ")?;
    line.push_text(value)
}

// What is told of a file.
fn told_line(
    alloc: Global,
    words: &str,
    path: &Text,
    kind: &str,
    value: &Text,
    at: Place,
) -> Result<Text, AllocError>
    requires words { IsTrue (list_all is_ascii_text words.now) }
    requires kind { IsTrue (list_all is_ascii_text kind.now) }
    ensures { IfOk result (λ line. line ≡ words.now ++ told path.now kind.now value.now at) }
{
    let mut line = Text::from_ascii(alloc, words)?;
    line.push_text(path)?;
    line.push_ascii(" ")?;
    line.push_ascii(kind)?;
    push_value(&mut line, value)?;
    line.push_ascii(" at ")?;
    push_place(&mut line, at)?;
    line.push_ascii("\n")?;
    Ok(line)
}

fn fault_line(alloc: Global, words: &str, path: &Text) -> Result<Text, AllocError>
    requires { IsTrue (list_all is_ascii_text words.now) }
    ensures { IfOk result (λ line. line ≡ words.now ++ (path.now ++ codes "\n")) }
{
    let mut line = Text::from_ascii(alloc, words)?;
    line.push_text(path)?;
    line.push_ascii("\n")?;
    Ok(line)
}

fn write_fault_line(alloc: Global, path: &Text) -> Result<Text, AllocError>
    ensures { IfOk result (λ line. line ≡ line_of (Status.WriteFault path.now)) }
{
    if path.bytes().is_empty() {
        return Ok(Text::new(alloc));
    }
    fault_line(alloc, "4 WriteFault: ", path)
}

fn size_line(alloc: Global, size: Size) -> Result<Text, AllocError>
    ensures { IfOk result (λ line. line ≡ line_of (Status.TooLarge size)) }
{
    match size {
        Size::File => Text::from_ascii(alloc, "14 TooLarge: file 67108864\n"),
        Size::Objects => Text::from_ascii(alloc, "14 TooLarge: objects 1000000\n"),
        Size::Rules => Text::from_ascii(alloc, "14 TooLarge: rules 1000\n"),
    }
}

fn form_line(alloc: Global, form: Form) -> Result<Text, AllocError>
    ensures { IfOk result (λ line. line ≡ line_of (Status.NotYet form)) }
{
    match form {
        Form::Words => Text::from_ascii(alloc, "15 NotYet: words\n"),
        Form::Module => Text::from_ascii(alloc, "15 NotYet: module\n"),
        Form::Model => Text::from_ascii(alloc, "15 NotYet: model\n"),
    }
}
