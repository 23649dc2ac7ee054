// The tokens of a text.
ghost use Rattle.std.specs.Prelude.{◌≡◌, ◌≤◌, length};
ghost use Rattle.std.specs.Str.{chars};
ghost use Rattle.atl_tree.specs.Tokens.{begin_byte, tokens_of, Gives};

use crate::judge::first_fault;
use crate::scan::scan;
use crate::state::Stop;
use crate::token::{LexRefusal, Tokens};
use atl_base::text::Text;
use std::alloc::Global;

/// How many bytes the byte order mark takes that the text may begin with.
pub(crate) fn mark_length(text: &str) -> usize
    ensures { result ≡ begin_byte (chars text.now) }
{
    match text.chars().next() {
        Some('\u{FEFF}') => 3,
        _ => 0,
    }
}

/// The tokens of a module's text, in their order. Keywords are plain names here. A text has at most 4,294,967,294 bytes.
pub fn tokens(alloc: Global, text: &Text) -> Result<Tokens, LexRefusal>
    requires { length text.now ≤ 4294967294 }
    ensures { Gives result (tokens_of (chars text.now)) }
{
    let scanned = scan(alloc, text, mark_length(text.as_str()))?;
    if let Some(refusal) = first_fault(scanned.list.as_slice()) {
        return Err(refusal);
    }
    match scanned.stop {
        Stop::Over => Ok(Tokens {
            list: scanned.list,
            end: scanned.place,
        }),
        Stop::Bad => Err(LexRefusal::BadByte(scanned.place)),
        Stop::Open => Err(LexRefusal::OpenText(scanned.place)),
    }
}

#[cfg(test)]
mod tests {
    use super::*;
    use crate::token::Token;
    use std::test::Fail;

    // A token as `Plain(a)1:1@0..1`.
    fn shown_token(alloc: Global, token: &Token) -> Result<String, Fail> {
        let Token {
            sort,
            text,
            begin,
            end,
            place,
        } = token;
        let (line, column) = (place.line, place.column);
        let text = text.as_str();
        Ok(format!(in alloc; "{sort:?}({text}){line}:{column}@{begin}..{end} ")?)
    }

    // The tokens of a text and the place of its end, or the refusal.
    fn shown(alloc: Global, text: &str) -> Result<String, Fail> {
        let text = Text::from_bytes(alloc, text.as_bytes())?;
        if text.bytes().len() > 4294967294 {
            return Ok(String::new(alloc));
        }
        match tokens(alloc, &text) {
            Ok(Tokens { list, end }) => {
                let mut shown = String::new(alloc);
                for token in list.as_slice() {
                    shown.push_str(shown_token(alloc, token)?.as_str())?;
                }
                let (line, column) = (end.line, end.column);
                shown.push_str(format!(in alloc; "end {line}:{column}")?.as_str())?;
                Ok(shown)
            }
            Err(LexRefusal::BadByte(p)) => Ok(format!(in alloc;
                "BadByte {}:{}",
                p.line, p.column
            )?),
            Err(LexRefusal::OpenText(p)) => Ok(format!(in alloc;
                "OpenText {}:{}",
                p.line, p.column
            )?),
            Err(LexRefusal::WideNumber(p)) => Ok(format!(in alloc;
                "WideNumber {}:{}",
                p.line, p.column
            )?),
            Err(LexRefusal::RealNumber(p)) => Ok(format!(in alloc;
                "RealNumber {}:{}",
                p.line, p.column
            )?),
            Err(LexRefusal::Memory) => Ok(format!(in alloc; "Memory")?),
        }
    }

    #[test]
    fn texts_have_their_tokens(rt: HostRuntime) -> Result<(), Fail> {
        let cases = [
            ("", "end 1:1"),
            ("a_1 if", "Plain(a_1)1:1@0..3 Plain(if)1:5@4..6 end 1:7"),
            ("\u{FEFF}x", "Plain(x)1:1@3..4 end 1:2"),
            ("a\u{FEFF}", "BadByte 1:2"),
            ("x\t\r\n y", "Plain(x)1:1@0..1 Plain(y)2:2@5..6 end 2:3"),
            (
                "\"\" \"r\u{E9}\r!\"b",
                "Quoted(\"\")1:1@0..2 Quoted(\"r\u{E9}\r!\")1:4@3..10 Plain(b)1:10@10..11 end 1:11",
            ),
            (
                "'\u{1F600}a--b' -- c '\n''",
                "Words('\u{1F600}a--b')1:1@0..10 Words('')2:1@18..20 end 2:3",
            ),
            (
                "'\\n\\t\\r\\\\\\'' z",
                "Words('\\n\\t\\r\\\\\\'')1:1@0..12 Plain(z)1:14@13..14 end 1:15",
            ),
            (
                "0 007 9223372036854775807",
                "Number(0)1:1@0..1 Number(007)1:3@2..5 Number(9223372036854775807)1:7@6..25 end 1:26",
            ),
            (
                "1.abs()",
                "Number(1)1:1@0..1 Mark(.)1:2@1..2 Plain(abs)1:3@2..5 Mark(()1:6@5..6 Mark())1:7@6..7 end 1:8",
            ),
            ("1.", "Number(1)1:1@0..1 Mark(.)1:2@1..2 end 1:3"),
            (
                "1..5",
                "Number(1)1:1@0..1 Mark(.)1:2@1..2 Mark(.)1:3@2..3 Number(5)1:4@3..4 end 1:5",
            ),
            ("1a", "Number(1)1:1@0..1 Plain(a)1:2@1..2 end 1:3"),
            ("a--", "Plain(a)1:1@0..1 end 1:4"),
        ];
        for (text, expected) in cases {
            assert_eq!(rt; shown(rt.alloc(), text)?.as_str(), expected);
        }
        Ok(())
    }

    #[test]
    fn marks_are_the_longest(rt: HostRuntime) -> Result<(), Fail> {
        let cases = [
            (
                ";:,(){}!=+*.|#",
                "Mark(;)1:1@0..1 Mark(:)1:2@1..2 Mark(,)1:3@2..3 Mark(()1:4@3..4 Mark())1:5@4..5 Mark({)1:6@5..6 Mark(})1:7@6..7 Mark(!)1:8@7..8 Mark(=)1:9@8..9 Mark(+)1:10@9..10 Mark(*)1:11@10..11 Mark(.)1:12@11..12 Mark(|)1:13@12..13 Mark(#)1:14@13..14 end 1:15",
            ),
            ("<>=", "Mark(<>)1:1@0..2 Mark(=)1:3@2..3 end 1:4"),
            ("<-->", "Mark(<-)1:1@0..2 Mark(->)1:3@2..4 end 1:5"),
            ("<->", "Mark(<-)1:1@0..2 Mark(>)1:3@2..3 end 1:4"),
            ("-->\n-", "Mark(-)2:1@4..5 end 2:2"),
            (
                "<=>=<>",
                "Mark(<=)1:1@0..2 Mark(>=)1:3@2..4 Mark(<>)1:5@4..6 end 1:7",
            ),
            ("- -", "Mark(-)1:1@0..1 Mark(-)1:3@2..3 end 1:4"),
            ("<<>", "Mark(<)1:1@0..1 Mark(<>)1:2@1..3 end 1:4"),
        ];
        for (text, expected) in cases {
            assert_eq!(rt; shown(rt.alloc(), text)?.as_str(), expected);
        }
        Ok(())
    }

    #[test]
    fn the_first_refusal_is_answered(rt: HostRuntime) -> Result<(), Fail> {
        let cases = [
            ("a $ 'b", "BadByte 1:3"),
            ("\u{E9}", "BadByte 1:1"),
            ("a &", "BadByte 1:3"),
            ("x 'a\n'", "OpenText 1:3"),
            ("\n  \"a", "OpenText 2:3"),
            ("'a\\x'", "OpenText 1:1"),
            ("'\\", "OpenText 1:1"),
            ("9223372036854775808", "WideNumber 1:1"),
            ("99999999999999999999.5", "WideNumber 1:1"),
            ("1 + 1.5", "RealNumber 1:5"),
            ("6 / 2", "RealNumber 1:3"),
            ("x : Real", "RealNumber 1:5"),
            ("Real $", "RealNumber 1:1"),
            ("Real -- c\n = '", "RealNumber 1:1"),
            (
                "a.Real",
                "Plain(a)1:1@0..1 Mark(.)1:2@1..2 Plain(Real)1:3@2..6 end 1:7",
            ),
            (
                "a->Real",
                "Plain(a)1:1@0..1 Mark(->)1:2@1..3 Plain(Real)1:4@3..7 end 1:8",
            ),
            (
                "M!\tReal",
                "Plain(M)1:1@0..1 Mark(!)1:2@1..2 Plain(Real)1:4@3..7 end 1:8",
            ),
            (
                "Real -- c\n<-",
                "Plain(Real)1:1@0..4 Mark(<-)2:1@10..12 end 2:3",
            ),
            (
                "\"Real\" Reals",
                "Quoted(\"Real\")1:1@0..6 Plain(Reals)1:8@7..12 end 1:13",
            ),
            ("Real <- $", "BadByte 1:9"),
        ];
        for (text, expected) in cases {
            assert_eq!(rt; shown(rt.alloc(), text)?.as_str(), expected);
        }
        Ok(())
    }
}
