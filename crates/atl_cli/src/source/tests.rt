// The plainest source: its three forms, what is kept of them, and what is none of them.
use super::*;
use std::test::Fail;

// What stands for '$' in the cases.
const HEADER: &[u8] =
    b" xmi:version=\"2.0\" xmlns:xmi=\"http://www.omg.org/XMI\" xmlns:xsi=\"http://www.w3.org/2001/XMLSchema-instance\" xmlns:A=\"A\"";

fn source(alloc: Global, pattern: &[u8]) -> Result<Vec<u8>, AllocError> {
    let mut bytes = Vec::new(alloc);
    for byte in pattern {
        if *byte == b'$' {
            bytes.extend_from_slice(HEADER)?;
        } else {
            bytes.push(*byte)?;
        }
    }
    Ok(bytes)
}

// Reads name of each Node of the model A.
fn read_nodes(alloc: Global, bytes: &[u8]) -> Result<Option<Kept>, AllocError> {
    let mut space = Text::new(alloc);
    space.push_ascii("A")?;
    let mut class = Text::new(alloc);
    class.push_ascii("Node")?;
    let mut read = Text::new(alloc);
    read.push_ascii("name")?;
    read_source(alloc, bytes, &space, &class, &read)
}

// The values as a text: one in brackets, a dash where there is none.
fn shown(alloc: Global, kept: &Kept) -> Result<String, AllocError> {
    let mut text = String::new(alloc);
    for value in kept.values.as_slice() {
        match value {
            Some(value) => {
                text.push_str("[")?;
                text.push_str(value.as_str())?;
                text.push_str("]")?;
            }
            None => text.push_str("-")?,
        }
    }
    Ok(text)
}

#[test]
fn keeps_the_values_of_each_form(rt: HostRuntime) -> Result<(), Fail> {
    let cases: [(&[u8], usize, &str); 18] = [
        (b"<A:Node$ name=\"p\"/>", 1, "[p]"),
        (b"<A:Node$ name=\"p\"/>\n", 1, "[p]"),
        (
            b"<?xml version=\"1.0\" encoding=\"UTF-8\"?>\n<A:Node$ name=\"p\"/>",
            1,
            "[p]",
        ),
        (
            b"<?xml version=\"1.0\" encoding=\"UTF-8\"?>\n<A:Node$ name=\"p\"/>\n",
            1,
            "[p]",
        ),
        (b"<A:Node$/>", 1, "-"),
        (b"<A:Other$ name=\"p\"/>", 1, ""),
        (b"<A:Node$ name=\"\"/>", 1, "[]"),
        (b"<A:Node$ _a1=\"x\" name=\"p\" other=\"q\"/>", 1, "[p]"),
        (b"<A:Node$ Name=\"p\" names=\"q\"/>", 1, "-"),
        (
            b"<A:Node$ name=\"a>b 'c' \xC3\xA9\"/>",
            1,
            "[a>b 'c' \u{E9}]",
        ),
        (b"<xmi:XMI$/>", 0, ""),
        (b"<xmi:XMI$/>\n", 0, ""),
        (
            b"<?xml version=\"1.0\" encoding=\"UTF-8\"?>\n<xmi:XMI$/>\n",
            0,
            "",
        ),
        (b"<xmi:XMI$>\n  <A:Node name=\"p\"/>\n</xmi:XMI>", 1, "[p]"),
        (
            b"<xmi:XMI$>\n  <A:Node name=\"p\"/>\n  <A:Other name=\"q\"/>\n  <A:Node/>\n</xmi:XMI>",
            3,
            "[p]-",
        ),
        (
            b"<xmi:XMI$>\n  <A:Node name=\"p\"/>\n  <A:Node name=\"q\"/>\n</xmi:XMI>\n",
            2,
            "[p][q]",
        ),
        (
            b"<?xml version=\"1.0\" encoding=\"UTF-8\"?>\n<xmi:XMI$>\n  <A:Node name=\"p\"/>\n</xmi:XMI>",
            1,
            "[p]",
        ),
        (
            b"<?xml version=\"1.0\" encoding=\"UTF-8\"?>\n<xmi:XMI$>\n  <A:Node name=\"p\"/>\n</xmi:XMI>\n",
            1,
            "[p]",
        ),
    ];
    for (pattern, count, values) in cases {
        let bytes = source(rt.alloc(), pattern)?;
        match read_nodes(rt.alloc(), &bytes)? {
            Some(kept) => {
                assert_eq!(rt; kept.count, count);
                let text = shown(rt.alloc(), &kept)?;
                assert_eq!(rt; text.as_str(), values);
            }
            None => assert!(rt; false, "{pattern:?}"),
        }
    }
    Ok(())
}

#[test]
fn refuses_what_is_no_source(rt: HostRuntime) -> Result<(), Fail> {
    let cases: [&[u8]; 41] = [
        b"",
        b"\n",
        b"<?xml version=\"1.0\" encoding=\"UTF-8\"?>\n",
        b"<?xml version=\"1.0\" encoding=\"UTF-8\"?><A:Node$/>",
        b"<?xml version=\"1.0\" encoding=\"utf-8\"?>\n<A:Node$/>",
        b"\n<A:Node$/>",
        b"<A:Node$/>\n\n",
        b"<A:Node$/>\r\n",
        b"<A:Node$/> ",
        b"<A:Node$ />",
        b"<A:Node$></A:Node>",
        b"<A:Node$><kids/></A:Node>",
        b"<A:Node$/>\n<A:Node$/>",
        b"<A:Node/>",
        b"<B:Node$/>",
        b"<Node$/>",
        b"<A:Node name=\"p\"$/>",
        b"<A:Node xmi:version=\"2.1\" xmlns:xmi=\"http://www.omg.org/XMI\" xmlns:xsi=\"http://www.w3.org/2001/XMLSchema-instance\" xmlns:A=\"A\"/>",
        b"<A:Node xmi:version=\"2.0\" xmlns:xmi=\"http://www.omg.org/XMI\" xmlns:xsi=\"http://www.w3.org/2001/XMLSchema-instance\" xmlns:A=\"B\"/>",
        b"<A:No.de$/>",
        b"<A:1Node$/>",
        b"<A:$/>",
        b"<A:Node$ na.me=\"p\"/>",
        b"<A:Node$ 1=\"p\"/>",
        b"<A:Node$ name/>",
        b"<A:Node$ name='p'/>",
        b"<A:Node$  name=\"p\"/>",
        b"<A:Node$ name=\"p\"other=\"q\"/>",
        b"<A:Node$ name=\"p\" name=\"q\"/>",
        b"<A:Node$ name=\"p\" other=\"q\" name=\"p\"/>",
        b"<A:Node$ name=\"a&amp;b\"/>",
        b"<A:Node$ name=\"a<b\"/>",
        b"<A:Node$ name=\"a\tb\"/>",
        b"<A:Node$ name=\"a\nb\"/>",
        b"<A:Node$ name=\"a\rb\"/>",
        b"<A:Node$ name=\"a\x01b\"/>",
        b"<A:Node$ name=\"a\xFFb\"/>",
        b"<A:Node$ name=\"\xEF\xBF\xBE\"/>",
        b"<xmi:XMI$>\n</xmi:XMI>",
        b"<xmi:XMI$>\n<A:Node/>\n</xmi:XMI>",
        b"<xmi:XMI$>\n  <A:Node/></xmi:XMI>",
    ];
    for pattern in cases {
        let bytes = source(rt.alloc(), pattern)?;
        let kept = read_nodes(rt.alloc(), &bytes)?;
        assert!(rt; kept.is_none(), "{pattern:?}");
    }
    Ok(())
}

#[test]
fn refuses_each_part_of_a_source(rt: HostRuntime) -> Result<(), Fail> {
    let whole = source(
        rt.alloc(),
        b"<?xml version=\"1.0\" encoding=\"UTF-8\"?>\n<xmi:XMI$>\n  <A:Node name=\"p\"/>\n  <A:Node/>\n</xmi:XMI>\n",
    )?;
    for end in 0..whole.len() {
        let kept = read_nodes(rt.alloc(), &whole[..end])?;
        assert_eq!(rt; kept.is_some(), end + 1 == whole.len(), "at {end}");
    }
    Ok(())
}

#[test]
fn reads_names_that_are_words_of_the_language(rt: HostRuntime) -> Result<(), Fail> {
    let mut space = Text::new(rt.alloc());
    space.push_ascii("A")?;
    let mut class = Text::new(rt.alloc());
    class.push_ascii("rule")?;
    let mut read = Text::new(rt.alloc());
    read.push_ascii("from")?;
    let bytes = source(
        rt.alloc(),
        b"<xmi:XMI$>\n  <A:rule from=\"if\"/>\n  <A:to from=\"x\"/>\n</xmi:XMI>\n",
    )?;
    match read_source(rt.alloc(), &bytes, &space, &class, &read)? {
        Some(kept) => {
            assert_eq!(rt; kept.count, 2);
            let text = shown(rt.alloc(), &kept)?;
            assert_eq!(rt; text.as_str(), "[if]");
        }
        None => assert!(rt; false, "refused"),
    }
    Ok(())
}
