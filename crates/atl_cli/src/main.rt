//! The program: its words, the files and the output of the system, and the top call.
#![tactic(auto)]

ghost use Rattle.std.specs.Prelude.{◌≡◌, ◌<◌};

mod call;
mod command;
mod flat;
mod format;
mod model;
mod one_rule;
mod operands;
mod plain;
mod refused;
mod source;
mod status;
mod syntax;
#[cfg(test)]
mod tests;
mod transform;
mod words;

use atl_base::steps::Steps;
use atl_base::text::{Text, TextRefusal};
use atl_outside::host::{HostFiles, HostSink};
use call::atl;
use status::Status;
use std::alloc::Global;
use std::env;
use std::marker::Brand;
use std::process::ExitCode;
use std::rt::{Env, Files};
use std::sync::ledger::{Blank, Ledger};

/// The status of words that can't be had as texts.
const NO_TEXTS: u8 = 2;

/// The status of memory that is refused before the call.
const NO_MEMORY: u8 = 1;

// A word of the command line as a text.
fn push_word(alloc: Global, words: &mut Vec<Text>, word: &str) -> Result<(), u8> {
    match Text::from_bytes(alloc, word.as_bytes()) {
        Ok(text) => words.push(text).map_err(|_| NO_MEMORY),
        Err(TextRefusal::BadByte(_)) => Err(NO_TEXTS),
        Err(TextRefusal::Memory) => Err(NO_MEMORY),
    }
}

// The words behind the program's name; or the status, where they can't be had.
fn read_command<R: Env + AllocGlobal>(rt: &R) -> Result<Vec<Text>, u8> {
    let mut words = Vec::new(rt.alloc());
    let Ok(all) = env::args(rt) else {
        return Err(NO_TEXTS);
    };
    for word in all.skip(1) {
        push_word(rt.alloc(), &mut words, word.as_str())?;
    }
    Ok(words)
}

// Runs the command over the system's files and output.
fn run<R: Files + Print, L: Ledger>(rt: &R, alloc: Global, words: &[Text], blank: Blank) -> Status
    requires name { blank.name ≡ L.name }
    requires parts { blank.parts ≡ L.parts }
    requires some { 0 < L.parts }
{
    let mut files = HostFiles::new(rt);
    let mut out = HostSink::new(rt);
    let mut steps = Steps::<L>::new(blank);
    atl(alloc, words, &mut files, &mut out, &mut steps)
}

fn main(rt: HostRuntime) -> ExitCode {
    match read_command(&rt) {
        Ok(words) => {
            let status = run::<HostRuntime, Brand>(&rt, rt.alloc(), &words, Blank::new(1));
            ExitCode::from(status.number())
        }
        Err(status) => ExitCode::from(status),
    }
}
