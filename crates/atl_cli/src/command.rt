// The command that the words begin with, and how words are misused.
ghost use Rattle.std.specs.Prelude.{◌≡◌};
ghost use Rattle.std.specs.List.{list_any};
ghost use Rattle.std.specs.Str.{bytes_eq};
ghost use Rattle.atl_cli.specs.Commands.{command_of as command_of_word, words_to_come};

use atl_base::text::Text;

/// A command.
#[derive(Clone, Copy, Debug, PartialEq, Eq)]
pub enum Command {
    Transform,
    Model,
    Format,
    /// A command that is to come.
    Unbuilt,
}

/// Why the words ask for nothing.
#[derive(Debug, Drop)]
pub enum Misuse {
    /// There are no words.
    NoCommand,
    /// The first word is no command.
    UnknownCommand(Text),
    /// The words behind this command are not of its form.
    BadWords(Text),
}

fn is_to_come(word: &str) -> bool
    ensures { result ≡ list_any (λ other. bytes_eq word.now other) words_to_come }
{
    word == "compile" || word == "run" || word == "live" || word == "make"
}

/// The command of this word, if it is one.
pub fn command_of(word: &Text) -> Option<Command>
    ensures { result ≡ command_of_word word.now }
{
    let word = word.as_str();
    if word == "transform" {
        return Some(Command::Transform);
    }
    if word == "model" {
        return Some(Command::Model);
    }
    if word == "format" {
        return Some(Command::Format);
    }
    if is_to_come(word) {
        return Some(Command::Unbuilt);
    }
    None
}
