// The top call: a command over files, and what it puts out over a sink.
ghost use Rattle.std.specs.Prelude.{◌≡◌, ℕ, List, IfOk, OnErr};
ghost use Rattle.atl_outside.specs.Held.{Held};
ghost use Rattle.atl_cli.specs.Answers.{Ended, Judges, Told};
ghost use Rattle.atl_cli.specs.Outcome.{Outcome, said, status_of};
ghost use Rattle.atl_cli.specs.declared.status.Ending.{Ending as SomeEnding};

use crate::command::{Command, Misuse, command_of};
use crate::format::format_file;
use crate::model::rewrite_model;
use crate::status::{Ending, Form, Status};
use crate::transform::transform;
use atl_base::steps::Steps;
use atl_base::text::Text;
use atl_outside::files::Files;
use atl_outside::sink::{Sink, SinkFault};
use std::alloc::{AllocError, Global};
use std::sync::ledger::Ledger;

// What a run over files comes to, as its status and what it puts out.
fn told(alloc: Global, end: Ending) -> Result<(Status, Text), AllocError>
    ensures { IfOk result (λ told. (told.0 ≡ status_of end) × (told.1 ≡ said end)) }
{
    match end {
        Ending::Prints(text) => Ok((Status::Ok, text)),
        Ending::Ends(status) => {
            let line = status.line(alloc)?;
            Ok((status, line))
        }
    }
}

// Puts out what a run says.
fn report<K: Sink>(alloc: Global, end: Ending, out: &mut K) -> Status
    ensures { Told (K.taken out.old) (K.taken out.new) (K.faults out.old) (K.faults out.new) end result }
{
    let Ok((status, text)) = told(alloc, end) else {
        return Status::Memory;
    };
    if text.bytes().is_empty() {
        return status;
    }
    match out.put(alloc, text.bytes()) {
        Ok(()) => status,
        Err(SinkFault::Failed) => Status::WriteFault(Text::new(alloc)),
        Err(SinkFault::Memory) => Status::Memory,
    }
}

// Runs the command that the words name over the files.
fn run<F: Files>(alloc: Global, words: &[Text], files: &mut F) -> Result<Ending, AllocError>
    ensures ended { IfOk result (λ e. Ended words.now (F.held files.old) (F.held files.new) (F.faults files.old) (F.faults files.new) e) }
    ensures memory { OnErr result (F.held files.new ≡ F.held files.old) }
{
    let [word, rest @ ..] = words else {
        return Ok(Ending::Ends(Status::Usage(Misuse::NoCommand)));
    };
    match command_of(word) {
        Some(Command::Transform) => Ok(Ending::Ends(transform(alloc, words, files)?)),
        Some(Command::Model) => Ok(Ending::Ends(rewrite_model(alloc, rest, files))),
        Some(Command::Format) => format_file(alloc, rest, files),
        Some(Command::Unbuilt) => Ok(Ending::Ends(Status::NotYet(Form::Words))),
        None => Ok(Ending::Ends(Status::Usage(Misuse::UnknownCommand(word.copy(alloc)?)))),
    }
}

/// Runs the command that the words name over the files, and puts out what it says. It counts no steps yet.
pub fn atl<F: Files, K: Sink, L: Ledger>(
    alloc: Global,
    words: &[Text],
    files: &mut F,
    out: &mut K,
    steps: &mut Steps<L>,
) -> Status
    // The run over the files ends, and the sink tells how.
    ensures answer { (end : SomeEnding) × Ended words.now (F.held files.old) (F.held files.new) (F.faults files.old) (F.faults files.new) end
        × Told (K.taken out.old) (K.taken out.new) (K.faults out.old) (K.faults out.new) end result }
    ensures steps { steps.new ≡ steps.old }
{
    let _ = steps;
    let end = match run(alloc, words, files) {
        Ok(end) => end,
        Err(_) => Ending::Ends(Status::Memory),
    };
    report(alloc, end, out)
}

/// A call has one answer, whatever words it is given and whatever the files hold.
pub fn one_answer()
    ensures { (words : List (List ℕ)) (held : Held) (a b : Outcome) → Judges words held a → Judges words held b → a ≡ b }
{}
