// What `format` answers over files in memory: each row's status, and what the sink has taken.
ghost use Rattle.std.specs.Prelude.{◌≡◌, ◌<◌};

use crate::call::atl;
use crate::status::Status;
use atl_base::steps::Steps;
use atl_base::text::Text;
use atl_outside::memory::{MemFiles, MemSink};
use std::alloc::Global;
use std::marker::Brand;
use std::sync::ledger::{Blank, Ledger};
use std::test::Fail;

/// What a call is given, and what it answers.
#[derive(Clone, Copy)]
struct Row {
    words: &'static [&'static str],
    /// The bytes at the path `M.atl`.
    file: &'static [u8],
    /// The numbers of the calls on the files that fail.
    fails: &'static [u64],
    /// The numbers of the puts that fail.
    put_fails: &'static [u64],
    number: u8,
    out: &'static str,
}

const MODULE: &[u8] =
    b"module N2I;\ncreate OUT : B from IN : A;\nrule R { from s : A!Node to t : B!Item (label <- s.name, link <- s.next, parts <- s.kids) }\n";

const CANONICAL: &str =
    "module N2I ;\ncreate OUT : B from IN : A ;\nrule R { from s : A ! Node to t : B ! Item ( label <- s . name , link <- s . next , parts <- s . kids ) }\n";

/// The example module.
const PRINTS: Row = Row {
    words: &["format", "M.atl"],
    file: MODULE,
    fails: &[],
    put_fails: &[],
    number: 0,
    out: CANONICAL,
};

// A row of these words.
fn words(words: &'static [&'static str], number: u8, out: &'static str) -> Row {
    Row {
        words,
        number,
        out,
        ..PRINTS
    }
}

// A row of these bytes.
fn file(file: &'static [u8], number: u8, out: &'static str) -> Row {
    Row {
        file,
        number,
        out,
        ..PRINTS
    }
}

// A row in which these calls fail.
fn failing(fails: &'static [u64], put_fails: &'static [u64], number: u8, out: &'static str) -> Row {
    Row {
        fails,
        put_fails,
        number,
        out,
        ..PRINTS
    }
}

fn text_of(alloc: Global, words: &str) -> Result<Text, Fail> {
    Ok(Text::from_bytes(alloc, words.as_bytes())?)
}

fn words_of(alloc: Global, words: &[&str]) -> Result<Vec<Text>, Fail> {
    let mut list = Vec::new(alloc);
    for word in words {
        list.push(text_of(alloc, word)?)?;
    }
    Ok(list)
}

fn files_of(alloc: Global, file: &[u8], fails: &[u64]) -> Result<MemFiles, Fail> {
    let mut held = Vec::new(alloc);
    held.push((text_of(alloc, "M.atl")?, Vec::from_slice(alloc, file)?))?;
    Ok(MemFiles::new(held, Vec::from_slice(alloc, fails)?))
}

fn call<L: Ledger>(
    alloc: Global,
    words: &[Text],
    files: &mut MemFiles,
    out: &mut MemSink,
    blank: Blank,
) -> Status
    requires name { blank.name ≡ L.name }
    requires parts { blank.parts ≡ L.parts }
    requires some { 0 < L.parts }
{
    let mut steps = Steps::<L>::new(blank);
    atl(alloc, words, files, out, &mut steps)
}

// Runs a row, and compares the status and what was put out; the file is as before.
fn holds<L: Ledger>(alloc: Global, row: &Row, blank: Blank) -> Result<bool, Fail>
    requires name { blank.name ≡ L.name }
    requires parts { blank.parts ≡ L.parts }
    requires some { 0 < L.parts }
{
    let words = words_of(alloc, row.words)?;
    let mut files = files_of(alloc, row.file, row.fails)?;
    let mut out = MemSink::new(alloc, Vec::from_slice(alloc, row.put_fails)?);
    let status = call::<L>(alloc, &words, &mut files, &mut out, blank);
    let told = status.number() == row.number && out.bytes() == row.out.as_bytes();
    let path = text_of(alloc, "M.atl")?;
    Ok(told && files.content(&path) == Some(row.file))
}

#[test]
fn words_are_judged(rt: HostRuntime) -> Result<(), Fail> {
    let alloc = rt.alloc();
    let bad = "2 Usage: BadWords format\n";
    let to_come = "15 NotYet: words\n";
    let rows = [
        words(&[], 2, "2 Usage: NoCommand\n"),
        words(&["grow"], 2, "2 Usage: UnknownCommand grow\n"),
        words(&["-"], 2, "2 Usage: UnknownCommand -\n"),
        words(&["", "M.atl"], 2, "2 Usage: UnknownCommand\n"),
        words(&["Format", "M.atl"], 2, "2 Usage: UnknownCommand Format\n"),
        words(&["--", "format"], 2, "2 Usage: UnknownCommand --\n"),
        words(&["compile"], 15, to_come),
        words(&["run"], 15, to_come),
        words(&["live"], 15, to_come),
        words(&["make", "0"], 15, to_come),
        words(&["transform", "M.atl"], 15, to_come),
        words(&["format"], 2, bad),
        words(&["format", "--"], 2, bad),
        words(&["format", "M.atl", "M.atl"], 2, bad),
        words(&["format", ""], 2, bad),
        words(&["format", "M.atl", ""], 2, bad),
        words(&["format", "--", ""], 2, bad),
        words(&["format", "-x"], 2, bad),
        words(&["format", "-é"], 2, bad),
        words(&["format", "--M.atl"], 2, bad),
        words(&["format", "--help"], 2, bad),
        words(&["format", "-h", "M.atl"], 2, bad),
        words(&["format", "M.atl", "-V"], 2, bad),
        words(&["format", "--", "--", "M.atl"], 2, bad),
        words(&["format", "-"], 3, "3 ReadFault: -\n"),
        words(&["format", "--", "-x"], 3, "3 ReadFault: -x\n"),
        words(&["format", "--", "--"], 3, "3 ReadFault: --\n"),
        words(&["format", "help"], 3, "3 ReadFault: help\n"),
    ];
    for row in &rows {
        assert!(rt;
            holds::<Brand>(alloc, row, Blank::new(1))?,
            "{:?}",
            row.words
        );
    }
    Ok(())
}

#[test]
fn files_are_judged(rt: HostRuntime) -> Result<(), Fail> {
    let alloc = rt.alloc();
    let document = "15 NotYet: module\n";
    let rows = [
        failing(&[1], &[], 3, "3 ReadFault: M.atl\n"),
        failing(&[1], &[1], 4, ""),
        file(b"<?xml version = '1.0'?>", 15, document),
        file(b" \t\r\n\n <", 15, document),
        file(b"\xEF\xBB\xBF <asm/>", 15, document),
        file(b"<\xFF", 15, document),
        file(b"\xFF", 5, "5 Syntax: BadByte at 1:1\n"),
        file(
            b"a\xC3\xA9\xF0\x9F\x98\x80\xC3",
            5,
            "5 Syntax: BadByte at 1:4\n",
        ),
        file(b"\xEF\xBB\xBFa\x01", 5, "5 Syntax: BadByte at 1:2\n"),
        file(b"\xEF\xBB\xBF\xFF<", 5, "5 Syntax: BadByte at 1:1\n"),
        file(
            b"-- \xC3\xA9\r\n\n\xC3\xA9 \xEF\xBF\xBF",
            5,
            "5 Syntax: BadByte at 3:3\n",
        ),
        file(
            b"\xEF\xBB\xBF\xEF\xBB\xBF\x00",
            5,
            "5 Syntax: BadByte at 1:2\n",
        ),
    ];
    for row in &rows {
        assert!(rt; holds::<Brand>(alloc, row, Blank::new(1))?, "{}", row.out);
    }
    Ok(())
}

#[test]
fn modules_are_printed(rt: HostRuntime) -> Result<(), Fail> {
    let alloc = rt.alloc();
    let rows = [
        PRINTS,
        words(&["format", "--", "M.atl"], 0, CANONICAL),
        words(&["format", "M.atl", "--"], 0, CANONICAL),
        file(CANONICAL.as_bytes(), 0, CANONICAL),
        file(
            b"\xEF\xBB\xBF -- c\nmodule M;create O:B from I:A;",
            0,
            "module M ;\ncreate O : B from I : A ;\n",
        ),
        failing(&[], &[1], 4, ""),
        failing(&[2], &[2], 0, CANONICAL),
    ];
    for row in &rows {
        assert!(rt; holds::<Brand>(alloc, row, Blank::new(1))?, "{}", row.out);
    }
    Ok(())
}

#[test]
fn texts_are_refused(rt: HostRuntime) -> Result<(), Fail> {
    let alloc = rt.alloc();
    let rows = [
        file(b"module X", 5, "5 Syntax: Expected at 1:9\n"),
        file(b"", 5, "5 Syntax: Expected at 1:1\n"),
        file(
            b"-- \xC3\xA9\nmodule \xC3\xA9",
            5,
            "5 Syntax: BadByte at 2:8\n",
        ),
        file(b"module 'a", 5, "5 Syntax: OpenText at 1:8\n"),
        file(
            b"module 9223372036854775808",
            5,
            "5 Syntax: WideNumber at 1:8\n",
        ),
        file(b"module 1.5", 5, "5 Syntax: RealNumber at 1:8\n"),
        file(b"query q = 1;", 5, "5 Syntax: OtherUnit at 1:1\n"),
        file(
            b"module M; create O : B refining I : A;",
            5,
            "5 Syntax: OtherUnit at 1:24\n",
        ),
        file(b"module M <", 5, "5 Syntax: Expected at 1:10\n"),
    ];
    for row in &rows {
        assert!(rt; holds::<Brand>(alloc, row, Blank::new(1))?, "{}", row.out);
    }
    Ok(())
}

// How a module of so many rules ends.
fn number_of<L: Ledger>(alloc: Global, rules: usize, blank: Blank) -> Result<u8, Fail>
    requires name { blank.name ≡ L.name }
    requires parts { blank.parts ≡ L.parts }
    requires some { 0 < L.parts }
{
    let mut module = String::from_str(alloc, "module M; create O : B from I : A;")?;
    for _ in 0..rules {
        module.push_str(" rule R { from s : A!C }")?;
    }
    module.push_str(" helper def : h : Integer = 1;")?;
    let words = words_of(alloc, &["format", "M.atl"])?;
    let mut files = files_of(alloc, module.as_bytes(), &[])?;
    let mut out = MemSink::new(alloc, Vec::new(alloc));
    Ok(call::<L>(alloc, &words, &mut files, &mut out, blank).number())
}

#[test]
fn rules_are_counted(rt: HostRuntime) -> Result<(), Fail> {
    let alloc = rt.alloc();
    for (rules, number) in [(1000, 0), (1001, 14)] {
        assert_eq!(rt;
            number_of::<Brand>(alloc, rules, Blank::new(1))?,
            number,
            "{rules} rules"
        );
    }
    Ok(())
}
