// Texts that are no modules, and the refusal of each.
use super::{refused, refused_items};
use std::test::Fail;

#[test]
fn headers_are_refused(rt: HostRuntime) -> Result<(), Fail> {
    let cases = [
        ("module X", "Expected 1:9"),
        ("", "Expected 1:1"),
        ("modul", "Expected 1:1"),
        ("module module;", "Expected 1:8"),
        ("module X; from", "Expected 1:11"),
        ("module X; create O B", "Expected 1:20"),
        ("module X; create O : B;", "Expected 1:23"),
        ("module X; create O : B from I : A", "Expected 1:34"),
        ("module X; create O : B from I : A from", "Expected 1:35"),
        ("module X; create O : B, from I : A;", "Expected 1:25"),
        ("module X; create O : B from I : A;", "Read"),
        (
            "\u{FEFF}module X; create O : B, P : C from I : A, J : A;",
            "Read",
        ),
        ("query q = 1;", "OtherUnit 1:1"),
        ("  library l;", "OtherUnit 1:3"),
        ("module query;", "Expected 1:8"),
        ("module X; library", "Expected 1:11"),
        ("uses x;", "OtherUnit 1:1"),
        ("refining", "OtherUnit 1:1"),
        ("module X; uses l; create", "OtherUnit 1:11"),
        ("module X; create O : B refining I : A;", "OtherUnit 1:24"),
    ];
    for (text, expected) in cases {
        assert_eq!(rt; refused(rt.alloc(), text)?.as_str(), expected);
    }
    Ok(())
}

#[test]
fn helpers_are_refused(rt: HostRuntime) -> Result<(), Fail> {
    let cases = [
        ("uses x;", "OtherUnit 2:1"),
        ("helper def: f : Integer = uses;", "OtherUnit 2:27"),
        ("helper def: f : Integer = query;", "Expected 2:27"),
        ("helper def: f : Integer = 1 refining;", "OtherUnit 2:29"),
        ("helper def: uses : Integer = 1;", "OtherUnit 2:13"),
        ("helper f", "Expected 2:8"),
        (
            "helper context Set(A!N) def: f : Integer = 1;",
            "Expected 2:16",
        ),
        ("helper context A def: f : Integer = 1;", "Expected 2:18"),
        ("helper context A!N f", "Expected 2:20"),
        ("helper def f", "Expected 2:12"),
        ("helper def: f = 1;", "Expected 2:15"),
        ("helper def: f(x) : Integer = 1;", "Expected 2:16"),
        (
            "helper def: f(x : Integer,) : Integer = 1;",
            "Expected 2:27",
        ),
        ("helper def: f(1) : Integer = 1;", "Expected 2:15"),
        ("helper def: f() = 1;", "Expected 2:17"),
        ("helper def: f : Set(Integer = 1;", "Expected 2:29"),
        ("helper def: f : Integer 1;", "Expected 2:25"),
        ("helper def: f : Integer = ;", "Expected 2:27"),
        ("helper def: f : Integer = 1 rule", "Expected 2:29"),
        ("helper def: f : Integer = (1;", "Expected 2:29"),
        ("helper def: f : Integer = a.b <- 1;", "Expected 2:31"),
        ("helper def: f : Integer = 1", "Expected 2:28"),
        ("helper def: f : Integer = 1 }", "Expected 2:29"),
    ];
    for (text, expected) in cases {
        assert_eq!(rt; refused_items(rt.alloc(), text)?.as_str(), expected);
    }
    Ok(())
}

#[test]
fn a_keyword_is_no_variable(rt: HostRuntime) -> Result<(), Fail> {
    let cases = [
        (
            "helper def: f : Integer = a->select(self | x);",
            "Expected 2:37",
        ),
        (
            "helper def: f : Integer = a->select(rule | x);",
            "Expected 2:37",
        ),
        (
            "helper def: f : Integer = a->\"any\"(if | x);",
            "Expected 2:36",
        ),
        (
            "helper def: f : Integer = a->iterate(true; x",
            "Expected 2:38",
        ),
        (
            "rule R { from s : A!N (s.e->exists(Set | true)) }",
            "Expected 2:36",
        ),
        // no iterator, no arrow, another mark, no keyword
        (
            "helper def: f : Integer = a->foo(self | x);",
            "Expected 2:39",
        ),
        (
            "helper def: f : Integer = a.select(self | x);",
            "Expected 2:41",
        ),
        (
            "helper def: f : Integer = a->select(self ; x);",
            "Expected 2:42",
        ),
        (
            "helper def: f : Integer = a->iterate(self | x);",
            "Expected 2:43",
        ),
        (
            "helper def: f : Integer = a->select(1 | x);",
            "Expected 2:39",
        ),
        (
            "helper def: f : Integer = a->select(\"self\" | x",
            "Expected 2:47",
        ),
    ];
    for (text, expected) in cases {
        assert_eq!(rt; refused_items(rt.alloc(), text)?.as_str(), expected);
    }
    Ok(())
}

#[test]
fn the_words_before_rules_are_refused(rt: HostRuntime) -> Result<(), Fail> {
    let cases = [
        ("unique rule R { from s : A!N }", "Expected 2:8"),
        ("lazy lazy rule R { from s : A!N }", "Expected 2:6"),
        (
            "abstract unique abstract rule R { from s : A!N }",
            "Expected 2:17",
        ),
        ("unique abstract rule R { from s : A!N }", "Expected 2:17"),
        ("lazy R { from s : A!N }", "Expected 2:6"),
        ("lazy rule R { from s : A!N (true) }", "Expected 2:28"),
        (
            "unique lazy rule R { from s : A!N (true) }",
            "Expected 2:35",
        ),
        ("lazy rule R() { }", "Expected 2:12"),
        ("abstract rule R() { }", "Expected 2:16"),
        ("rule R extends Q() { }", "Expected 2:17"),
        ("rule R extends { from s : A!N }", "Expected 2:16"),
        ("rule R(x : Integer) { from s : A!N }", "Expected 2:23"),
        ("entrypoint rule R(x : Integer) { }", "Expected 2:19"),
        ("entrypoint rule R { }", "Expected 2:19"),
        ("endpoint lazy rule R() { }", "Expected 2:10"),
        ("lazy entrypoint rule R() { }", "Expected 2:6"),
    ];
    for (text, expected) in cases {
        assert_eq!(rt; refused_items(rt.alloc(), text)?.as_str(), expected);
    }
    Ok(())
}

#[test]
fn rules_are_refused(rt: HostRuntime) -> Result<(), Fail> {
    let cases = [
        ("rule R { }", "Expected 2:10"),
        ("rule R { from s : A }", "Expected 2:21"),
        ("rule R { from s : A!N (true }", "Expected 2:29"),
        ("rule R { from s : A!N (true) (true) }", "Expected 2:30"),
        ("rule R { from s : A!N, t }", "Expected 2:26"),
        ("rule R { from s : A!N do { } to t : B!M }", "Expected 2:30"),
        (
            "rule R { from s : A!N to t : B!M using { } }",
            "Expected 2:34",
        ),
        ("rule R { from s : A!N using { v = 1; } }", "Expected 2:33"),
        (
            "rule R { from s : A!N using { v : Integer = 1 } }",
            "Expected 2:47",
        ),
        ("rule R { from s : A!N to }", "Expected 2:26"),
        (
            "rule R { from s : A!N to t : B!M (a <- 1,) }",
            "Expected 2:42",
        ),
        (
            "rule R { from s : A!N to t : B!M (a = 1) }",
            "Expected 2:37",
        ),
        (
            "rule R { from s : A!N to t : B!M (a <- 1; }",
            "Expected 2:41",
        ),
    ];
    for (text, expected) in cases {
        assert_eq!(rt; refused_items(rt.alloc(), text)?.as_str(), expected);
    }
    Ok(())
}

#[test]
fn statements_are_refused(rt: HostRuntime) -> Result<(), Fail> {
    let cases = [
        ("rule R() { do { 1 } }", "Expected 2:19"),
        ("rule R() { do { a <- 1; } }", "Expected 2:19"),
        ("rule R() { do { a.b() <- 1; } }", "Expected 2:23"),
        ("rule R() { do { (a.b) <- 1; } }", "Expected 2:23"),
        ("rule R() { do { a.b <- 1 <- 2; } }", "Expected 2:26"),
        ("rule R() { do { (a.b <- 1); } }", "Expected 2:22"),
        (
            "rule R() { do { if (a) then b else c endif; } }",
            "Expected 2:24",
        ),
        ("rule R() { do { if (a) { } else 1; } }", "Expected 2:33"),
        ("rule R() { do { if (a { } } }", "Expected 2:23"),
        ("rule R() { do { if (a) { }; } }", "Expected 2:27"),
        ("rule R() { do { else { } } }", "Expected 2:17"),
        ("rule R() { do { for x in c { } } }", "Expected 2:21"),
        ("rule R() { do { for (x c) { } } }", "Expected 2:24"),
        ("rule R() { do { for (x in c) 1; } }", "Expected 2:30"),
        ("rule R() { do { } 1 }", "Expected 2:19"),
        ("rule R() { do { }", "Expected 2:18"),
    ];
    for (text, expected) in cases {
        assert_eq!(rt; refused_items(rt.alloc(), text)?.as_str(), expected);
    }
    Ok(())
}

#[test]
fn tokens_are_refused(rt: HostRuntime) -> Result<(), Fail> {
    let cases = [
        ("module M $", "BadByte 1:10"),
        ("module M; 'a", "OpenText 1:11"),
        ("query 'a", "OtherUnit 1:1"),
        ("module M N $", "Expected 1:10"),
        ("module 99999999999999999999", "WideNumber 1:8"),
        ("99999999999999999999", "WideNumber 1:1"),
    ];
    for (text, expected) in cases {
        assert_eq!(rt; refused(rt.alloc(), text)?.as_str(), expected);
    }
    Ok(())
}

#[test]
fn the_first_refusal_is_answered(rt: HostRuntime) -> Result<(), Fail> {
    let cases = [
        ("helper def: f : Real = 1 }; / 1.5", "RealNumber 2:17"),
        ("helper def: f : Integer = 1 }; / 1.5", "Expected 2:29"),
        ("helper def: f : Integer = 1 / 2;", "RealNumber 2:29"),
        ("helper def: f : Real = 1;", "RealNumber 2:17"),
        ("$ rule", "BadByte 2:1"),
        ("rule rule '", "Expected 2:6"),
    ];
    for (text, expected) in cases {
        assert_eq!(rt; refused_items(rt.alloc(), text)?.as_str(), expected);
    }
    Ok(())
}
