// The program's answers over files in memory, with ample memory: each row's status, line and target.
ghost use Rattle.std.specs.Prelude.{◌≡◌, ◌<◌};

use crate::call::atl;
use crate::status::Status;
use atl_base::steps::Steps;
use atl_base::text::Text;
use atl_outside::memory::{MemFiles, MemSink};
use std::alloc::Global;
use std::marker::Brand;
use std::sync::ledger::{Blank, Ledger};
use std::test::Fail;

const MODULE: &str =
    "module M;\ncreate OUT : B from IN : A;\nrule R { from s : A!Node to t : B!Item (label <- s.name) }\n";

const HEADER: &str =
    " xmi:version=\"2.0\" xmlns:xmi=\"http://www.omg.org/XMI\" xmlns:xsi=\"http://www.w3.org/2001/XMLSchema-instance\" xmlns:";

const WORDS: &str = "transform M.atl A=A.ecore B=B.ecore IN=in.xmi OUT=out.xmi";

/// What a call is given, and what it answers.
#[derive(Clone, Copy)]
struct Row {
    words: &'static str,
    module: &'static str,
    /// The source, with `[A]` for the header of its outermost element.
    source: &'static str,
    /// The numbers of the calls on the files that fail.
    fails: &'static [u64],
    /// The numbers of the calls on the sink that fail.
    put_fails: &'static [u64],
    number: u8,
    line: &'static str,
    /// The target behind its declaration, with `[B]` for the header, where it is written.
    target: Option<&'static str>,
}

// Adds a part of a document, with the header of a metamodel's name where its mark stands.
fn push_part(text: &mut String, part: &str, mark: &str, name: &str) -> Result<(), Fail> {
    match part.split_once(mark) {
        Some((front, back)) => {
            text.push_str(front)?;
            text.push_str(HEADER)?;
            text.push_str(name)?;
            text.push_str("=\"")?;
            text.push_str(name)?;
            text.push_str("\"")?;
            text.push_str(back)?;
        }
        None => text.push_str(part)?,
    }
    Ok(())
}

fn text_of(alloc: Global, words: &str) -> Result<Text, Fail> {
    Ok(Text::from_bytes(alloc, words.as_bytes())?)
}

fn files_of(alloc: Global, row: &Row) -> Result<MemFiles, Fail> {
    let mut source = String::new(alloc);
    push_part(&mut source, row.source, "[A]", "A")?;
    let mut held = Vec::new(alloc);
    held.push((
        text_of(alloc, "M.atl")?,
        Vec::from_slice(alloc, row.module.as_bytes())?,
    ))?;
    held.push((
        text_of(alloc, "in.xmi")?,
        Vec::from_slice(alloc, source.as_bytes())?,
    ))?;
    held.push((
        text_of(alloc, "out.xmi")?,
        Vec::from_slice(alloc, b"before")?,
    ))?;
    Ok(MemFiles::new(held, Vec::from_slice(alloc, row.fails)?))
}

fn words_of(alloc: Global, words: &str) -> Result<Vec<Text>, Fail> {
    let mut list = Vec::new(alloc);
    for word in words.split(' ') {
        list.push(text_of(alloc, word)?)?;
    }
    Ok(list)
}

fn call<L: Ledger>(
    alloc: Global,
    words: &[Text],
    files: &mut MemFiles,
    out: &mut MemSink,
    blank: Blank,
) -> Status
    requires name { blank.name ≡ L.name }
    requires parts { blank.parts ≡ L.parts }
    requires some { 0 < L.parts }
{
    let mut steps = Steps::<L>::new(blank);
    atl(alloc, words, files, out, &mut steps)
}

fn target_of(alloc: Global, row: &Row) -> Result<String, Fail> {
    let mut target = String::new(alloc);
    match row.target {
        Some(part) => {
            target.push_str("<?xml version=\"1.0\" encoding=\"UTF-8\"?>\n")?;
            push_part(&mut target, part, "[B]", "B")?;
        }
        None => target.push_str("before")?,
    }
    Ok(target)
}

const ALONE: &str = "<A:Node[A] name=\"x\"/>";

/// A row of the one rule over one element: the answer is its target.
const COPIES: Row = Row {
    words: WORDS,
    module: MODULE,
    source: ALONE,
    fails: &[],
    put_fails: &[],
    number: 0,
    line: "",
    target: Some("<B:Item[B] label=\"x\"/>\n"),
};

// Runs a row, and compares the status, the line and what the target's path holds.
fn holds<L: Ledger>(alloc: Global, row: &Row, blank: Blank) -> Result<bool, Fail>
    requires name { blank.name ≡ L.name }
    requires parts { blank.parts ≡ L.parts }
    requires some { 0 < L.parts }
{
    let words = words_of(alloc, row.words)?;
    let mut files = files_of(alloc, row)?;
    let mut out = MemSink::new(alloc, Vec::from_slice(alloc, row.put_fails)?);
    let status = call::<L>(alloc, &words, &mut files, &mut out, blank);
    let target = target_of(alloc, row)?;
    let path = text_of(alloc, "out.xmi")?;
    let told = status.number() == row.number && out.bytes() == row.line.as_bytes();
    Ok(told && files.content(&path) == Some(target.as_bytes()))
}

// A row whose source is this, and whose answer is a target.
fn copies(source: &'static str, target: &'static str) -> Row {
    Row {
        source,
        target: Some(target),
        ..COPIES
    }
}

// A row whose source is this, which is refused.
fn no_source(source: &'static str) -> Row {
    Row {
        source,
        number: 15,
        line: "15 NotYet: model\n",
        target: None,
        ..COPIES
    }
}

// A row that ends with this number and line.
fn ends(words: &'static str, module: &'static str, number: u8, line: &'static str) -> Row {
    Row {
        words,
        module,
        number,
        line,
        target: None,
        ..COPIES
    }
}

// A row in which these calls on the files and on the sink fail.
fn fails(fails: &'static [u64], put_fails: &'static [u64], line: &'static str, number: u8) -> Row {
    Row {
        fails,
        put_fails,
        number,
        line,
        target: None,
        ..COPIES
    }
}

#[test]
fn targets_are_written(rt: HostRuntime) -> Result<(), Fail> {
    let alloc = rt.alloc();
    let rows = [
        COPIES,
        copies("<xmi:XMI[A]/>\n", "<xmi:XMI[B]/>\n"),
        copies(
            "<xmi:XMI[A]>\n  <A:Other name=\"q\"/>\n</xmi:XMI>",
            "<xmi:XMI[B]/>\n",
        ),
        copies(
            "<xmi:XMI[A]>\n  <A:Node name=\"p\"/>\n  <A:Other name=\"q\"/>\n  <A:Node/>\n</xmi:XMI>",
            "<xmi:XMI[B]>\n  <B:Item label=\"p\"/>\n  <B:Item/>\n</xmi:XMI>\n",
        ),
        copies(
            "<xmi:XMI[A]>\n  <A:Node other=\"q\"/>\n  <A:Other name=\"q\"/>\n</xmi:XMI>",
            "<B:Item[B]/>\n",
        ),
        copies(
            "<A:Node[A] name=\"a>é\" other=\"y\"/>\n",
            "<B:Item[B] label=\"a>é\"/>\n",
        ),
    ];
    for row in &rows {
        assert!(rt;
            holds::<Brand>(alloc, row, Blank::new(1))?,
            "{}",
            row.source
        );
    }
    Ok(())
}

#[test]
fn sources_are_refused(rt: HostRuntime) -> Result<(), Fail> {
    let alloc = rt.alloc();
    let rows = [
        no_source(""),
        no_source("<A:Node[A] name=\"x\""),
        no_source("<A:Node[A] name=\"x\" name=\"y\"/>"),
        no_source("<A:Node[A] name=\"&amp;\"/>"),
        no_source("<A:Node[A] name=\"\u{1}\"/>"),
        no_source("<B:Node[A] name=\"x\"/>"),
    ];
    for row in &rows {
        assert!(rt;
            holds::<Brand>(alloc, row, Blank::new(1))?,
            "{}",
            row.source
        );
    }
    Ok(())
}

#[test]
fn words_and_modules_are_refused(rt: HostRuntime) -> Result<(), Fail> {
    let alloc = rt.alloc();
    let words = "15 NotYet: words\n";
    let rows = [
        ends(WORDS, "module M;", 15, "15 NotYet: module\n"),
        ends(WORDS, "", 15, "15 NotYet: module\n"),
        ends(
            "transform M.atl A=A.ecore B=B.ecore IN=in.xmi",
            MODULE,
            15,
            words,
        ),
        ends(
            "transform M.atl A=a B=b IN=in.xmi OUT=out.xmi C=c",
            MODULE,
            15,
            words,
        ),
        ends(
            "transform M.atl A=a B=b IN=in.xmi IN=out.xmi",
            MODULE,
            15,
            words,
        ),
        ends(
            "transform M.atl A=a B=b IN=in.xmi X=out.xmi",
            MODULE,
            15,
            words,
        ),
        ends(
            "transform -M.atl A=a B=b IN=in.xmi OUT=out.xmi",
            MODULE,
            15,
            words,
        ),
        ends(
            "grow M.atl A=a B=b IN=in.xmi OUT=out.xmi",
            MODULE,
            2,
            "2 Usage: UnknownCommand grow\n",
        ),
    ];
    for row in &rows {
        assert!(rt; holds::<Brand>(alloc, row, Blank::new(1))?, "{}", row.words);
    }
    Ok(())
}

#[test]
fn failures_are_told(rt: HostRuntime) -> Result<(), Fail> {
    let alloc = rt.alloc();
    let rows = [
        fails(&[1], &[], "3 ReadFault: M.atl\n", 3),
        fails(&[2], &[], "3 ReadFault: in.xmi\n", 3),
        fails(&[3], &[], "4 WriteFault: out.xmi\n", 4),
        fails(&[2], &[1], "", 4),
    ];
    for row in &rows {
        assert!(rt; holds::<Brand>(alloc, row, Blank::new(1))?, "{}", row.line);
    }
    Ok(())
}
