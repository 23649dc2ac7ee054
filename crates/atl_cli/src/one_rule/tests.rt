// Modules of one rule: which texts are of the form, and what they name.
use super::*;
use std::test::Fail;

// The names in the order of the fields, or none.
fn shown(alloc: Global, text: &str) -> Result<String, Fail> {
    let bytes = text.as_bytes();
    if bytes.len() > 4294967294 {
        return Ok(String::new(alloc));
    }
    let Some(m) = read_module(alloc, bytes)? else {
        return Ok(String::from_str(alloc, "none")?);
    };
    let mut shown = String::new(alloc);
    for name in [
        &m.module,
        &m.target,
        &m.target_metamodel,
        &m.source,
        &m.source_metamodel,
        &m.rule,
        &m.matched,
        &m.class,
        &m.made,
        &m.made_class,
        &m.feature,
        &m.read,
    ] {
        shown.push_str(name.as_str())?;
        shown.push(' ')?;
    }
    Ok(shown)
}

#[test]
fn modules_are_read(rt: HostRuntime) -> Result<(), Fail> {
    let cases = [
        (
            "module M; create OUT : B from IN : A; rule R { from s : A!Node to t : B!Item (label <- s.name) }",
            "M OUT B IN A R s Node t Item label name ",
        ),
        (
            "\u{FEFF}-- one rule\nmodule M;\r\ncreate OUT:B from IN:A;--\n\n\trule R{from s:A!Node to t:B!Item(label<-s.name)}-- end",
            "M OUT B IN A R s Node t Item label name ",
        ),
        (
            "module _1; create b : B_ from c : Xmi; rule b { from B_ : Xmi!Xmi to Xmi : B_!module_ (x <- B_.x) }",
            "_1 b B_ c Xmi b B_ Xmi Xmi module_ x x ",
        ),
    ];
    for (text, expected) in cases {
        assert_eq!(rt; shown(rt.alloc(), text)?.as_str(), expected, "{text}");
    }
    Ok(())
}

#[test]
fn other_texts_are_none(rt: HostRuntime) -> Result<(), Fail> {
    let cases = [
        "",
        "module M;",
        "module M; create OUT : B from IN : A; rule R { from s : A!Node to t : B!Item (label <- s.name) } module",
        "module M; create OUT : A from IN : A; rule R { from s : A!Node to t : A!Item (label <- s.name) }",
        "module M; create OUT : B from OUT : A; rule R { from s : A!Node to t : B!Item (label <- s.name) }",
        "module M; create A : B from IN : A; rule R { from s : A!Node to t : B!Item (label <- s.name) }",
        "module M; create OUT : xmi from IN : A; rule R { from s : A!Node to t : xmi!Item (label <- s.name) }",
        "module M; create OUT : B from IN : xmlns; rule R { from s : xmlns!Node to t : B!Item (label <- s.name) }",
        "module rule; create OUT : B from IN : A; rule R { from s : A!Node to t : B!Item (label <- s.name) }",
        "module M; create OUT : B from IN : A; rule R { from self : A!Node to t : B!Item (label <- self.name) }",
        "module M; create OUT : B from IN : A; rule R { from s : A!Node to t : B!Item (Map <- s.name) }",
        "module M; create OUT : B from IN : A; rule R { from s : A!Node to t : B!Item (label <- s.to) }",
        "module M; create OUT : B from IN : A; rule R { from s : A!Node to t : B!Item (label <- t.name) }",
        "module M; create OUT : B from IN : A; rule R { from s : A!Node to s : B!Item (label <- s.name) }",
        "module M; create OUT : B from IN : A; rule R { from s : B!Node to t : B!Item (label <- s.name) }",
        "module M; create OUT : B from IN : A; rule R { from s : A!Node to t : A!Item (label <- s.name) }",
        "module \"M\"; create OUT : B from IN : A; rule R { from s : A!Node to t : B!Item (label <- s.name) }",
        "module M; create OUT : B from IN : A; rule R { from s : A!Node to t : B!Item (label <- 's'.name) }",
        "module M; create OUT : B from IN : A; rule R { from s : A!1 to t : B!Item (label <- s.name) }",
        "module M; create OUT : B from IN : A; rule R { from s : A!Node to t : B!Item (label <- s.name) } '",
        "module M\u{1}; create OUT : B from IN : A; rule R { from s : A!Node to t : B!Item (label <- s.name) }",
    ];
    for text in cases {
        assert_eq!(rt; shown(rt.alloc(), text)?.as_str(), "none", "{text}");
    }
    Ok(())
}

// The tokens of a module of the form.
const TOKENS: [&str; 35] = [
    "module", "M", ";", "create", "OUT", ":", "B", "from", "IN", ":", "A", ";", "rule", "R", "{",
    "from", "s", ":", "A", "!", "Node", "to", "t", ":", "B", "!", "Item", "(", "label", "<-", "s",
    ".", "name", ")", "}",
];

// The tokens, of which one stands so many times, between blanks.
fn repeated(alloc: Global, which: usize, times: usize) -> Result<String, Fail> {
    let mut text = String::new(alloc);
    for (at, token) in TOKENS.iter().enumerate() {
        let count = if at == which { times } else { 1 };
        for _ in 0..count {
            text.push_str(token)?;
            text.push(' ')?;
        }
    }
    Ok(text)
}

#[test]
fn each_token_stands_once(rt: HostRuntime) -> Result<(), Fail> {
    for at in 0..TOKENS.len() {
        for times in 0..3 {
            let text = repeated(rt.alloc(), at, times)?;
            let expected = if times == 1 {
                "M OUT B IN A R s Node t Item label name "
            } else {
                "none"
            };
            assert_eq!(rt;
                shown(rt.alloc(), text.as_str())?.as_str(),
                expected,
                "{text}"
            );
        }
    }
    Ok(())
}
