// Documents that are read, and texts that are none.
use crate::reading::read_doc;
use crate::refusal::DocRefusal;
use crate::tree::Child;
use crate::write::write_doc;
use atl_base::place::Place;
use std::alloc::Global;
use std::test::Fail;

// The refusal's kind and place.
fn parts(refusal: DocRefusal) -> (&'static str, Place) {
    match refusal {
        DocRefusal::BadEncoding(at) => ("BadEncoding", at),
        DocRefusal::BadByte(at) => ("BadByte", at),
        DocRefusal::Expected(at) => ("Expected", at),
        DocRefusal::MismatchedEnd(at) => ("MismatchedEnd", at),
        DocRefusal::TwiceAttribute(at) => ("TwiceAttribute", at),
        DocRefusal::Entity(at) => ("Entity", at),
        DocRefusal::Prefix(at) => ("Prefix", at),
        DocRefusal::TooDeep(at) => ("TooDeep", at),
        DocRefusal::Trailing(at) => ("Trailing", at),
        DocRefusal::Unsupported(at) => ("Unsupported", at),
        DocRefusal::Memory => ("Memory", Place { line: 0, column: 0 }),
    }
}

// The written text of what is read, or the refusal.
fn shown(alloc: Global, bytes: &[u8]) -> Result<String, Fail> {
    if bytes.len() > 4294967294 {
        return Ok(String::new(alloc));
    }
    match read_doc(alloc, bytes) {
        Ok(doc) => Ok(String::from_str(alloc, write_doc(alloc, &doc)?.as_str())?),
        Err(refusal) => {
            let (kind, at) = parts(refusal);
            Ok(format!(in alloc; "{kind} {}:{}", at.line, at.column)?)
        }
    }
}

// What follows the declaration in what is written.
fn body(written: &str) -> &str {
    written
        .strip_prefix("<?xml version=\"1.0\" encoding=\"UTF-8\"?>\n")
        .unwrap_or(written)
}

// Texts that are no documents, with their refusals, and between them some that are documents.
const HOSTILE: &[(&[u8], &str)] = &[
    (b"", "Expected 1:1"),
    (b"&a", "Expected 1:1"),
    (b"<", "Expected 1:2"),
    (b"<a", "Expected 1:3"),
    (b"<!DOCX", "Expected 1:3"),
    (b"<!DOCTYPE a>", "Unsupported 1:1"),
    (
        b"<?xml version=\"1.0\"?>\n<!DOCTYPE l [<!ENTITY a \"b\"><!ENTITY c \"&a;&a;\">]><l>&c;</l>",
        "Unsupported 2:1",
    ),
    (b"<a><![CDATA[x]]></a>", "Unsupported 1:4"),
    (b"<a><![CDATX", "Expected 1:6"),
    (b"<a>]]></a>", "Expected 1:6"),
    (b"<a>]]]></a>", "Expected 1:7"),
    (b"<a>]></a>", "<a>]&gt;</a>\n"),
    (b"<a>&xy<", "Expected 1:7"),
    (b"<a b=\"\" b=\"\" $", "Expected 1:14"),
    (b"<a b=\"\" b=\"\"/>", "TwiceAttribute 1:9"),
    (
        b"<a xmlns:p=\"u\" xmlns:q=\"u\" p:b=\"\" q:b=\"\"/>",
        "TwiceAttribute 1:35",
    ),
    (b"<a xmlns:p=\"\" xmlns:p=\"\"/>", "TwiceAttribute 1:15"),
    (b"<p:a/>", "Prefix 1:2"),
    (b"<a p:b=\"\"/>", "Prefix 1:4"),
    (b"<a><b xmlns:p=\"u\"/><p:c/></a>", "Prefix 1:21"),
    (b"<a p:b=\"\" ", "Expected 1:11"),
    (b"<abc></ab", "MismatchedEnd 1:8"),
    (b"<abc></abc", "Expected 1:11"),
    (b"<a></b>", "MismatchedEnd 1:6"),
    (b"<a></p:a>", "MismatchedEnd 1:6"),
    (b"<a></a ", "Expected 1:8"),
    (b"<a></ a>", "Expected 1:6"),
    (b"<a/><b/>", "Trailing 1:5"),
    (b"<a/>x", "Trailing 1:5"),
    (b"<a/>&amp;", "Trailing 1:5"),
    (b"<a/>\n<!DOCTYPE", "Trailing 2:1"),
    (b"<a/><!", "Trailing 1:5"),
    (b"<a/>\0", "BadByte 1:5"),
    (b"<a/> <!-- - --> <?p q?>\r\n", "<a/>\n"),
    (b"<a>&nbsp;</a>", "Entity 1:4"),
    (b"<a b='&x;'/>", "Entity 1:7"),
    (b"<a>&#0;</a>", "BadByte 1:4"),
    (b"<a>&#xD800;</a>", "BadByte 1:4"),
    (b"<a>&#x110000;</a>", "BadByte 1:4"),
    (b"<a>&#999999999999999999999999999999;</a>", "BadByte 1:4"),
    (b"<a>&#4294967361;</a>", "BadByte 1:4"),
    (b"<a>&#;</a>", "Expected 1:6"),
    (b"<a>&#x;", "Expected 1:7"),
    (b"<a>&;", "Expected 1:5"),
    (b"<a>&#X41;", "Expected 1:6"),
    (b"<a>\0</a>", "BadByte 1:4"),
    (b"<a>\xC0\xAF</a>", "BadByte 1:4"),
    (b"<a>\xE2\x82</a>", "BadByte 1:4"),
    (b"<a>\xED\xA0\x80</a>", "BadByte 1:4"),
    (b"\xFF\xFE<\0", "BadEncoding 1:1"),
    (b"\xFE\xFF\0<", "BadEncoding 1:1"),
    (
        b"<?xml version=\"1.0\" encoding=\"UTF-16\"?><a/>",
        "BadEncoding 1:31",
    ),
    (b"<?xml version=\"1.0\" encoding=\"\"?>", "BadEncoding 1:31"),
    (
        b"<?xml version=\"1.0\" encoding=\"US-ASCII\"?><a>\xC3\xA9</a>",
        "BadByte 1:45",
    ),
    (
        b"<?xml version=\"1.0\" encoding=\"utf-8\"?><a>\xE9</a>",
        "BadByte 1:42",
    ),
    (b"<a><!-- -- --></a>", "Expected 1:11"),
    (b"<a b=\"<\"/>", "Expected 1:7"),
    (b"<a b=c/>", "Expected 1:6"),
    (b"<a b/>", "Expected 1:5"),
    (b"<a b=\"1\"c=\"2\"/>", "Expected 1:9"),
    (b"<a:b:c/>", "Expected 1:5"),
    (b"<a:/>", "Expected 1:4"),
    (b"<?xml ?><a/>", "Expected 1:7"),
    (b" <?xml version=\"1.0\"?><a/>", "Expected 1:7"),
    (b"<?XML ?><a/>", "Expected 1:6"),
    (b"<?xml version=\"2.0\"?>", "Expected 1:16"),
    (
        b"<?xml version=\"1.0\" standalone=\"maybe\"?>",
        "Expected 1:33",
    ),
    (b"\xEF\xBB\xBF\xEF\xBB\xBF<a/>", "Expected 1:1"),
    (b"\xEF\xBB\xBF<a/>", "<a/>\n"),
    (b"<a>\xC3\xA9</b>", "MismatchedEnd 1:7"),
    (b"<a>\r\n</b>", "MismatchedEnd 2:3"),
    (b"<a>\r</b>", "MismatchedEnd 1:7"),
];

#[test]
fn hostile_texts_have_their_refusals(rt: HostRuntime) -> Result<(), Fail> {
    for (bytes, expected) in HOSTILE {
        let found = shown(rt.alloc(), bytes)?;
        assert_eq!(rt; body(found.as_str()), *expected);
    }
    Ok(())
}

// So many of a text, one behind the other.
fn repeated(alloc: Global, text: &str, count: usize) -> Result<String, Fail> {
    let mut all = String::new(alloc);
    for _i in 0..count {
        all.push_str(text)?;
    }
    Ok(all)
}

#[test]
fn two_hundred_elements_may_be_open(rt: HostRuntime) -> Result<(), Fail> {
    let alloc = rt.alloc();
    let mut text = repeated(alloc, "<a>", 200)?;
    assert_eq!(rt; shown(alloc, text.as_bytes())?.as_str(), "Expected 1:601");
    text.push_str("<")?;
    assert_eq!(rt; shown(alloc, text.as_bytes())?.as_str(), "Expected 1:602");
    text.push_str("b")?;
    assert_eq!(rt; shown(alloc, text.as_bytes())?.as_str(), "TooDeep 1:601");
    let mut whole = repeated(alloc, "<a>", 200)?;
    whole.push_str(repeated(alloc, "</a>", 200)?.as_str())?;
    assert!(rt; shown(alloc, whole.as_bytes())?.as_str().ends_with("</a>\n"));
    Ok(())
}

#[test]
fn ten_thousand_attributes_are_read(rt: HostRuntime) -> Result<(), Fail> {
    let alloc = rt.alloc();
    let mut text = String::from_str(alloc, "<a")?;
    for i in 0..10000 {
        text.push_str(format!(in alloc; " b{i}=''")?.as_str())?;
    }
    let length = text.len();
    text.push_str("/>")?;
    assert!(rt; body(shown(alloc, text.as_bytes())?.as_str()).starts_with("<a b0=\"\" b1=\"\""));
    let mut twice = String::from_str(alloc, &text.as_str()[..length])?;
    twice.push_str(" b7=''/>")?;
    assert!(rt;
        shown(alloc, twice.as_bytes())?
            .as_str()
            .starts_with("TwiceAttribute 1:")
    );
    Ok(())
}

#[test]
fn a_text_that_is_cut_is_refused_at_its_end(rt: HostRuntime) -> Result<(), Fail> {
    let alloc = rt.alloc();
    let whole =
        b"<?xml version='1.0' encoding='utf-8' standalone='no' ?><!--c--><a b='&lt;' xmlns:p=\"u\"><?t u?>v&#x41;<p:b/></a>";
    for i in 0..whole.len() {
        let place = format!(in alloc; "Expected 1:{}", i + 1)?;
        assert_eq!(rt; shown(alloc, &whole[..i])?.as_str(), place.as_str());
    }
    assert_eq!(rt;
        body(shown(alloc, whole)?.as_str()),
        "<a xmlns:p=\"u\" b=\"&lt;\">\n  vA\n  <p:b/>\n</a>\n"
    );
    Ok(())
}

#[test]
fn values_and_texts_mean_their_characters(rt: HostRuntime) -> Result<(), Fail> {
    let cases: [(&[u8], &str); 6] = [
        (
            b"<a b='x\ty\r\nz&#xA;\"'>t&amp;<b/> \n <!--c-->u&#65;v<c> </c></a>",
            "<a b=\"x y z&#xA;&quot;\">\n  t&amp;\n  <b/>\n   \n uAv\n  <c> </c>\n</a>\n",
        ),
        (b"<a> <b/>\t\n</a>", "<a>\n  <b/>\n</a>\n"),
        (b"<a>x\r\ny\rz</a>", "<a>x\ny\nz</a>\n"),
        (b"<a>&quot;&apos;&gt;</a>", "<a>\"'&gt;</a>\n"),
        (b"<a><b></b\n></a\t>", "<a>\n  <b/>\n</a>\n"),
        (
            b"<?xml version='1.0' encoding='Iso-8859-1'?><a>\xE9</a>",
            "<a>\u{E9}</a>\n",
        ),
    ];
    for (bytes, expected) in cases {
        assert_eq!(rt; body(shown(rt.alloc(), bytes)?.as_str()), expected);
    }
    Ok(())
}

#[test]
fn names_have_their_namespaces(rt: HostRuntime) -> Result<(), Fail> {
    let text =
        b"<p:a xmlns:p=\"u\" xmlns=\"v\" c=\"1\" p:d=\"2\" xml:e=\"3\">\n <f xmlns=\"\"/></p:a>";
    let doc = read_doc(rt.alloc(), text)?;
    assert_eq!(rt; doc.root.space.as_str(), "u");
    assert_eq!(rt; doc.root.name.as_str(), "a");
    assert_eq!(rt; doc.root.declared.len(), 2);
    let attributes = doc.root.attributes.as_slice();
    assert_eq!(rt; attributes.len(), 3);
    assert_eq!(rt; attributes[0].space.as_str(), "");
    assert_eq!(rt; attributes[1].space.as_str(), "u");
    assert_eq!(rt;
        attributes[2].space.as_str(),
        "http://www.w3.org/XML/1998/namespace"
    );
    let children = doc.root.children.as_slice();
    assert_eq!(rt; children.len(), 1);
    if let Child::Sub(inner) = &children[0] {
        assert_eq!(rt; inner.space.as_str(), "");
        assert!(rt; inner.place == Place { line: 2, column: 2 });
    }
    Ok(())
}
