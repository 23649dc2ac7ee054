// Texts: which bytes are one, and what the calls give with ample memory.
use super::*;
use std::test::Fail;

#[test]
fn finds_the_first_offence(rt: HostRuntime) -> Result<(), Fail> {
    let cases: [(&[u8], Option<usize>); 14] = [
        (b"", None),
        (b"ab\t\n\r~", None),
        ("é\u{D7FF}\u{E000}\u{FFFD}\u{10FFFF}".as_bytes(), None),
        (b"\xC3\xA9\xFF", Some(2)),
        (b"a\x00", Some(1)),
        (b"ab\x1F\xFF", Some(2)),
        ("é\u{FFFE}".as_bytes(), Some(2)),
        ("\u{FFFF}".as_bytes(), Some(0)),
        (b"\xED\xA0\x80", Some(0)),
        (b"abc\xE2\x82", Some(3)),
        (b"\xC0\x80", Some(0)),
        (b"\xF4\x90\x80\x80", Some(0)),
        (b"\x80", Some(0)),
        (b"\x7F\x0B", Some(1)),
    ];
    for (bytes, offence) in cases {
        match Text::from_bytes(rt.alloc(), bytes) {
            Ok(text) => {
                assert_eq!(rt; offence, None, "{bytes:?}");
                assert_eq!(rt; text.bytes(), bytes);
            }
            Err(TextRefusal::BadByte(at)) => assert_eq!(rt; offence, Some(at), "{bytes:?}"),
            Err(TextRefusal::Memory) => assert!(rt; false, "memory"),
        }
    }
    Ok(())
}

#[test]
fn is_built_copied_cut_and_compared(rt: HostRuntime) -> Result<(), Fail> {
    let mut text = Text::new(rt.alloc());
    text.push_ascii("<a>")?;
    text.push_char('é')?;
    let more = text.copy(rt.alloc())?;
    text.push_text(&more)?;
    assert_eq!(rt; text.as_str(), "<a>é<a>é");
    assert!(rt; more == more.copy(rt.alloc())?);
    assert!(rt; more != text);
    Ok(())
}

#[test]
fn is_cut_where_characters_begin(rt: HostRuntime) -> Result<(), Fail> {
    let mut text = Text::new(rt.alloc());
    text.push_ascii("ab=c")?;
    let part = text.slice(rt.alloc(), 0, 4)?;
    assert_eq!(rt; part.as_str(), "ab=c");
    Ok(())
}
