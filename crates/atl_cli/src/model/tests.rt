// What `model` answers over files in memory: each row's status, its line, and what the third path holds.
ghost use Rattle.std.specs.Prelude.{◌≡◌, ◌<◌};

use crate::call::atl;
use crate::status::Status;
use atl_base::steps::Steps;
use atl_base::text::Text;
use atl_outside::memory::{MemFiles, MemSink};
use std::alloc::Global;
use std::marker::Brand;
use std::sync::ledger::{Blank, Ledger};
use std::test::Fail;

/// What a call is given, and what it answers.
#[derive(Clone, Copy)]
struct Row {
    words: &'static str,
    /// The metamodel, at `A.ecore`.
    meta: &'static str,
    /// The model, at `in.xmi`.
    model: &'static str,
    /// The numbers of the calls on the files that fail.
    fails: &'static [u64],
    /// The numbers of the puts that fail.
    put_fails: &'static [u64],
    number: u8,
    line: &'static str,
    /// What `out.xmi` holds then.
    out: &'static str,
}

/// Nodes with a name, a next one and kids.
const META: &str =
    "<ecore:EPackage xmi:version=\"2.0\" xmlns:xmi=\"http://www.omg.org/XMI\" xmlns:xsi=\"http://www.w3.org/2001/XMLSchema-instance\" xmlns:ecore=\"http://www.eclipse.org/emf/2002/Ecore\" name=\"A\" nsURI=\"A\" nsPrefix=\"A\">
  <eClassifiers xsi:type=\"ecore:EClass\" name=\"Node\">
    <eStructuralFeatures xsi:type=\"ecore:EAttribute\" name=\"name\" eType=\"ecore:EDataType http://www.eclipse.org/emf/2002/Ecore#//EString\"/>
    <eStructuralFeatures xsi:type=\"ecore:EReference\" name=\"next\" eType=\"#//Node\"/>
    <eStructuralFeatures xsi:type=\"ecore:EReference\" name=\"kids\" upperBound=\"-1\" eType=\"#//Node\" containment=\"true\"/>
  </eClassifiers>
</ecore:EPackage>
";

/// Boxes with a weight of a type that is not looked into.
const BOXES: &str =
    "<ecore:EPackage xmi:version=\"2.0\" xmlns:xmi=\"http://www.omg.org/XMI\" xmlns:xsi=\"http://www.w3.org/2001/XMLSchema-instance\" xmlns:ecore=\"http://www.eclipse.org/emf/2002/Ecore\" name=\"C\" nsURI=\"C\" nsPrefix=\"C\">
  <eClassifiers xsi:type=\"ecore:EClass\" name=\"Box\">
    <eStructuralFeatures xsi:type=\"ecore:EAttribute\" name=\"weight\" eType=\"ecore:EDataType http://www.eclipse.org/emf/2002/Ecore#//EDouble\"/>
  </eClassifiers>
</ecore:EPackage>
";

const WORDS: &str = "model A.ecore in.xmi out.xmi";

const BEFORE: &str = "before";

/// A model that is written anew.
const WRITES: Row = Row {
    words: WORDS,
    meta: META,
    model: "<Node xmlns=\"A\" name=\"r\"><kids next=\"//@kids.1\" name=\"x\"/><kids><name>y</name></kids></Node>",
    fails: &[],
    put_fails: &[],
    number: 0,
    line: "",
    out: "<?xml version=\"1.0\" encoding=\"UTF-8\"?>
<A:Node xmi:version=\"2.0\" xmlns:xmi=\"http://www.omg.org/XMI\" xmlns:xsi=\"http://www.w3.org/2001/XMLSchema-instance\" xmlns:A=\"A\" name=\"r\">
  <kids name=\"x\" next=\"//@kids.1\"/>
  <kids name=\"y\"/>
</A:Node>
",
};

/// A model whose references are ids.
const NAMES: Row = Row {
    model: "<A:Node xmi:version=\"2.0\" xmlns:xmi=\"http://www.omg.org/XMI\" xmlns:xsi=\"http://www.w3.org/2001/XMLSchema-instance\" xmlns:A=\"A\" xmi:id=\"p\" name=\"r\" next=\"q\"><kids xmi:id=\"q\" name=\"k\" next=\"p\"/></A:Node>",
    out: "<?xml version=\"1.0\" encoding=\"UTF-8\"?>
<A:Node xmi:version=\"2.0\" xmlns:xmi=\"http://www.omg.org/XMI\" xmlns:xsi=\"http://www.w3.org/2001/XMLSchema-instance\" xmlns:A=\"A\" name=\"r\" next=\"//@kids.0\">
  <kids name=\"k\" next=\"/\"/>
</A:Node>
",
    ..WRITES
};

/// A value that is kept as it is written.
const WEIGHS: Row = Row {
    meta: BOXES,
    model: "<C:Box xmi:version=\"2.0\" xmlns:xmi=\"http://www.omg.org/XMI\" xmlns:xsi=\"http://www.w3.org/2001/XMLSchema-instance\" xmlns:C=\"C\" weight=\"1.50\"/>",
    out: "<?xml version=\"1.0\" encoding=\"UTF-8\"?>
<C:Box xmi:version=\"2.0\" xmlns:xmi=\"http://www.omg.org/XMI\" xmlns:xsi=\"http://www.w3.org/2001/XMLSchema-instance\" xmlns:C=\"C\" weight=\"1.50\"/>
",
    ..WRITES
};

// A row of these words, which change nothing.
fn words(words: &'static str, number: u8, line: &'static str) -> Row {
    Row {
        words,
        number,
        line,
        out: BEFORE,
        ..WRITES
    }
}

// A row of a metamodel that is refused.
fn meta(meta: &'static str, line: &'static str) -> Row {
    Row {
        meta,
        number: 7,
        line,
        out: BEFORE,
        ..WRITES
    }
}

// A row of a model that is refused.
fn model(model: &'static str, line: &'static str) -> Row {
    Row {
        model,
        number: 8,
        line,
        out: BEFORE,
        ..WRITES
    }
}

// A row in which these calls fail.
fn failing(
    fails: &'static [u64],
    put_fails: &'static [u64],
    number: u8,
    line: &'static str,
) -> Row {
    Row {
        fails,
        put_fails,
        number,
        line,
        out: BEFORE,
        ..WRITES
    }
}

fn text_of(alloc: Global, words: &str) -> Result<Text, Fail> {
    Ok(Text::from_bytes(alloc, words.as_bytes())?)
}

fn words_of(alloc: Global, words: &str) -> Result<Vec<Text>, Fail> {
    let mut list = Vec::new(alloc);
    for word in words.split(' ') {
        list.push(text_of(alloc, word)?)?;
    }
    Ok(list)
}

fn files_of(alloc: Global, row: &Row) -> Result<MemFiles, Fail> {
    let mut held = Vec::new(alloc);
    for (path, content) in [
        ("A.ecore", row.meta),
        ("in.xmi", row.model),
        ("out.xmi", BEFORE),
    ] {
        held.push((
            text_of(alloc, path)?,
            Vec::from_slice(alloc, content.as_bytes())?,
        ))?;
    }
    Ok(MemFiles::new(held, Vec::from_slice(alloc, row.fails)?))
}

fn call<L: Ledger>(
    alloc: Global,
    words: &[Text],
    files: &mut MemFiles,
    out: &mut MemSink,
    blank: Blank,
) -> Status
    requires name { blank.name ≡ L.name }
    requires parts { blank.parts ≡ L.parts }
    requires some { 0 < L.parts }
{
    let mut steps = Steps::<L>::new(blank);
    atl(alloc, words, files, out, &mut steps)
}

// Runs a row, and compares the status, the line and what the third path holds.
fn holds<L: Ledger>(alloc: Global, row: &Row, blank: Blank) -> Result<bool, Fail>
    requires name { blank.name ≡ L.name }
    requires parts { blank.parts ≡ L.parts }
    requires some { 0 < L.parts }
{
    let words = words_of(alloc, row.words)?;
    let mut files = files_of(alloc, row)?;
    let mut out = MemSink::new(alloc, Vec::from_slice(alloc, row.put_fails)?);
    let status = call::<L>(alloc, &words, &mut files, &mut out, blank);
    let told = status.number() == row.number && out.bytes() == row.line.as_bytes();
    let path = text_of(alloc, "out.xmi")?;
    Ok(told && files.content(&path) == Some(row.out.as_bytes()))
}

#[test]
fn models_are_written_anew(rt: HostRuntime) -> Result<(), Fail> {
    let alloc = rt.alloc();
    let again = Row {
        model: WRITES.out,
        ..WRITES
    };
    let rows = [
        WRITES,
        NAMES,
        WEIGHS,
        again,
        Row {
            words: "model -- A.ecore in.xmi out.xmi",
            ..WRITES
        },
    ];
    for row in &rows {
        assert!(rt; holds::<Brand>(alloc, row, Blank::new(1))?, "{}", row.words);
    }
    Ok(())
}

#[test]
fn words_are_judged(rt: HostRuntime) -> Result<(), Fail> {
    let alloc = rt.alloc();
    let bad = "2 Usage: BadWords model\n";
    let rows = [
        words("model", 2, bad),
        words("model A.ecore in.xmi", 2, bad),
        words("model A.ecore in.xmi out.xmi in.xmi", 2, bad),
        words("model A.ecore in.xmi ", 2, bad),
        words("model A.ecore -in.xmi out.xmi", 2, bad),
        words("model B.ecore in.xmi out.xmi", 3, "3 ReadFault: B.ecore\n"),
        words("model A.ecore B.xmi out.xmi", 3, "3 ReadFault: B.xmi\n"),
    ];
    for row in &rows {
        assert!(rt; holds::<Brand>(alloc, row, Blank::new(1))?, "{}", row.words);
    }
    Ok(())
}

#[test]
fn failures_are_told(rt: HostRuntime) -> Result<(), Fail> {
    let alloc = rt.alloc();
    let rows = [
        failing(&[1], &[], 3, "3 ReadFault: A.ecore\n"),
        failing(&[2], &[], 3, "3 ReadFault: in.xmi\n"),
        failing(&[3], &[], 4, "4 WriteFault: out.xmi\n"),
        failing(&[1], &[1], 4, ""),
    ];
    for row in &rows {
        assert!(rt; holds::<Brand>(alloc, row, Blank::new(1))?, "{}", row.line);
    }
    Ok(())
}

#[test]
fn metamodels_are_refused(rt: HostRuntime) -> Result<(), Fail> {
    let alloc = rt.alloc();
    let both = Row {
        model: "<",
        ..meta("<a/>", "7 Meta: A.ecore NotEcore a at 1:1\n")
    };
    let rows = [
        meta("", "7 Meta: A.ecore Expected at 1:1\n"),
        meta("<a>\n</b>", "7 Meta: A.ecore MismatchedEnd at 2:3\n"),
        meta("<a b:c=''/>", "7 Meta: A.ecore Prefix at 1:4\n"),
        both,
    ];
    for row in &rows {
        assert!(rt; holds::<Brand>(alloc, row, Blank::new(1))?, "{}", row.line);
    }
    Ok(())
}

#[test]
fn models_are_refused(rt: HostRuntime) -> Result<(), Fail> {
    let alloc = rt.alloc();
    let rows = [
        model("<a", "8 Model: in.xmi Expected at 1:3\n"),
        model("<A:Node/>", "8 Model: in.xmi Prefix at 1:2\n"),
        model("<Leaf xmlns='A'/>", "8 Model: in.xmi NoClass Leaf at 1:1\n"),
        model(
            "<Node xmlns='A' size='1'/>",
            "8 Model: in.xmi NoFeature size at 1:1\n",
        ),
        model(
            "<Node xmlns='A'>\n <kids>x</kids></Node>",
            "8 Model: in.xmi StrayText kids at 2:2\n",
        ),
        model(
            "<Node xmlns='A' name='x'><name>y</name></Node>",
            "8 Model: in.xmi BadValue y at 1:26\n",
        ),
        model(
            "<Node xmlns='A' next='b.xmi#/'/>",
            "8 Model: in.xmi Href b.xmi#/ at 1:1\n",
        ),
        model(
            "<A:Node xmlns:A=\"A\" next=\"//@kids.9\"/>",
            "8 Model: in.xmi BadPath //@kids.9 at 1:1\n",
        ),
        model(
            "<Node xmlns='A' next='q'/>",
            "8 Model: in.xmi NoId q at 1:1\n",
        ),
    ];
    for row in &rows {
        assert!(rt; holds::<Brand>(alloc, row, Blank::new(1))?, "{}", row.line);
    }
    Ok(())
}
