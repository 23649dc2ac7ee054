use super::*;
use atl_base::text::Text;
use atl_tree::expr::ExprKind;
use atl_tree::kind::{KindNode, KindSort};
use atl_tree::lex::tokens;
use atl_tree::name::{ClassRef, Name};
use std::test::Fail;

fn show_place(out: &mut String, place: Place) -> Result<(), AllocError> {
    let Place { line, column } = place;
    write!(out, "@{line}:{column}")
}

// A name as `x@1:2`.
fn show_name(out: &mut String, name: &Name) -> Result<(), AllocError> {
    out.push_str(name.text.as_str())?;
    show_place(out, name.place)
}

fn show_class(out: &mut String, class: &ClassRef) -> Result<(), AllocError> {
    out.push_str(class.meta.as_str())?;
    out.push_str("!")?;
    out.push_str(class.class.as_str())
}

// A type as `Set(Whole@1:5)@1:1`.
fn show_kind(out: &mut String, kind: &KindNode) -> Result<(), AllocError> {
    match &kind.what {
        KindSort::Basic(word) => write!(out, "{word:?}")?,
        KindSort::Class(class) => show_class(out, class)?,
        KindSort::Coll(word, inner) => {
            write!(out, "{word:?}(")?;
            show_kind(out, inner.get())?;
            out.push_str(")")?;
        }
    }
    show_place(out, kind.place)
}

// What stands alone.
fn show_leaf(out: &mut String, what: &ExprKind) -> Result<(), AllocError> {
    match what {
        ExprKind::Number(n) => write!(out, "{n}"),
        ExprKind::Words(text) => write!(out, "'{}'", text.as_str()),
        ExprKind::Truth(truth) => write!(out, "{truth}"),
        ExprKind::Undefined => out.push_str("undefined"),
        ExprKind::Literal(text) => write!(out, "#{}", text.as_str()),
        ExprKind::Var(text) => out.push_str(text.as_str()),
        ExprKind::Own => out.push_str("own"),
        ExprKind::Module => out.push_str("module"),
        ExprKind::Class(class) => show_class(out, class),
        ExprKind::Basic(word) => write!(out, "{word:?}"),
        _ => Ok(()),
    }
}

#[cycle(show)]
fn show_all(out: &mut String, list: &[Expr]) -> Result<(), AllocError> {
    for e in list {
        out.push_str(" ")?;
        show(out, e)?;
    }
    Ok(())
}

#[cycle(show)]
fn show_next(out: &mut String, e: &Expr) -> Result<(), AllocError> {
    out.push_str(" ")?;
    show(out, e)
}

// A source and its feature, call or iterator.
#[cycle(show)]
fn show_link(out: &mut String, what: &ExprKind) -> Result<(), AllocError> {
    match what {
        ExprKind::Read(source, name) => {
            out.push_str("(read")?;
            show_next(out, source.get())?;
            write!(out, " {})", name.as_str())
        }
        ExprKind::Call(source, arrow, name, list) => {
            out.push_str("(call")?;
            show_next(out, source.get())?;
            write!(out, " {arrow} {}", name.as_str())?;
            show_all(out, list.as_slice())?;
            out.push_str(")")
        }
        ExprKind::Loop(source, name, variable, body) => {
            out.push_str("(loop")?;
            show_next(out, source.get())?;
            write!(out, " {} ", name.as_str())?;
            show_name(out, variable)?;
            show_next(out, body.get())?;
            out.push_str(")")
        }
        ExprKind::Iterate(source, variable, outcome, kind, start, body) => {
            out.push_str("(iterate")?;
            show_next(out, source.get())?;
            out.push_str(" ")?;
            show_name(out, variable)?;
            out.push_str(" ")?;
            show_name(out, outcome)?;
            out.push_str(" ")?;
            show_kind(out, kind)?;
            show_next(out, start.get())?;
            show_next(out, body.get())?;
            out.push_str(")")
        }
        other => show_leaf(out, other),
    }
}

// An expression as a list in parentheses, with its place.
#[cycle(show)]
fn show(out: &mut String, e: &Expr) -> Result<(), AllocError> {
    match &e.what {
        ExprKind::Coll(word, list) => {
            write!(out, "{word:?}[")?;
            show_all(out, list.as_slice())?;
            out.push_str("]")?;
        }
        ExprKind::If(condition, left, right) => {
            out.push_str("(if")?;
            show_next(out, condition.get())?;
            show_next(out, left.get())?;
            show_next(out, right.get())?;
            out.push_str(")")?;
        }
        ExprKind::Let(name, kind, value, body) => {
            out.push_str("(let ")?;
            show_name(out, name)?;
            out.push_str(" ")?;
            show_kind(out, kind)?;
            show_next(out, value.get())?;
            show_next(out, body.get())?;
            out.push_str(")")?;
        }
        ExprKind::Unary(op, operand) => {
            write!(out, "({op:?}")?;
            show_next(out, operand.get())?;
            out.push_str(")")?;
        }
        ExprKind::Binary(op, left, right) => {
            write!(out, "({op:?}")?;
            show_next(out, left.get())?;
            show_next(out, right.get())?;
            out.push_str(")")?;
        }
        other => show_link(out, other)?,
    }
    show_place(out, e.place)
}

fn show_outcome(
    out: &mut String,
    read: &Result<(Expr, usize), ParseRefusal>,
) -> Result<(), AllocError> {
    match read {
        Ok((e, after)) => {
            show(out, e)?;
            write!(out, " {after}")
        }
        Err(ParseRefusal::Expected(place)) => {
            write!(out, "Expected {}:{}", place.line, place.column)
        }
        Err(ParseRefusal::TooDeep(place)) => {
            write!(out, "TooDeep {}:{}", place.line, place.column)
        }
        Err(other) => write!(out, "{other:?}"),
    }
}

// The tokens of a text.
fn tokens_of(alloc: Global, text: &str) -> Result<Option<Tokens>, Fail> {
    let text = Text::from_bytes(alloc, text.as_bytes())?;
    if text.bytes().len() > 4294967294 {
        return Ok(None);
    }
    match tokens(alloc, &text) {
        Ok(list) => Ok(Some(list)),
        Err(_) => Ok(None),
    }
}

// The expression from the token on and the number of the token after it, or the refusal.
fn told(alloc: Global, text: &str, from: usize) -> Result<String, Fail> {
    let mut out = String::new(alloc);
    let Some(list) = tokens_of(alloc, text)? else {
        return Ok(out);
    };
    if from > list.list.len() {
        return Ok(out);
    }
    let read = parse_expr(alloc, &list, from);
    show_outcome(&mut out, &read)?;
    Ok(out)
}

#[test]
fn operands_have_their_trees(rt: HostRuntime) -> Result<(), Fail> {
    let cases = [
        ("7", "7@1:1 1"),
        ("9223372036854775807", "9223372036854775807@1:1 1"),
        ("007", "7@1:1 1"),
        ("'a\\n\\\\b\\'\"'", "'a\n\\b'\"'@1:1 1"),
        ("'\\t\\r--'", "'\t\r--'@1:1 1"),
        ("''", "''@1:1 1"),
        ("true", "true@1:1 1"),
        ("false", "false@1:1 1"),
        ("OclUndefined", "undefined@1:1 1"),
        ("#red", "#red@1:1 2"),
        ("# \"if\"", "#if@1:1 2"),
        ("x", "x@1:1 1"),
        ("\"self\"", "self@1:1 1"),
        ("\"r\u{E9} d\"", "r\u{E9} d@1:1 1"),
        ("\"\"", "@1:1 1"),
        ("self", "own@1:1 1"),
        ("thisModule", "module@1:1 1"),
        ("MM!C", "MM!C@1:1 3"),
        ("MM ! module", "MM!module@1:1 3"),
        ("\"M M\"!\"C\"", "M M!C@1:1 3"),
        ("String", "Words@1:1 1"),
        ("Integer", "Whole@1:1 1"),
        ("Boolean", "Truth@1:1 1"),
        ("OclAny", "Any@1:1 1"),
        ("Sequence{}", "Sequence[]@1:1 3"),
        ("Set{1}", "Set[ 1@1:5]@1:1 4"),
        ("Bag{1, 2}", "Bag[ 1@1:5 2@1:8]@1:1 6"),
        (
            "OrderedSet {Set{},x+1}",
            "OrderedSet[ Set[]@1:13 (Plus x@1:19 1@1:21)@1:20]@1:1 10",
        ),
        ("if a then b else c endif", "(if a@1:4 b@1:11 c@1:18)@1:1 7"),
        ("(x)", "x@1:2 3"),
        ("((\n1))", "1@2:1 5"),
        (
            "let x : Integer = 1 in x",
            "(let x@1:5 Whole@1:9 1@1:19 x@1:24)@1:1 8",
        ),
        (
            "let x : Set(Bag(M!C)) = y in x + 1",
            "(let x@1:5 Set(Bag(M!C@1:17)@1:13)@1:9 y@1:25 (Plus x@1:30 1@1:34)@1:32)@1:1 18",
        ),
        (
            "(let \"in\" : OclAny = 1 in 2) * 3",
            "(Times (let in@1:6 Any@1:13 1@1:22 2@1:27)@1:2 3@1:32)@1:30 12",
        ),
    ];
    for (text, expected) in cases {
        assert_eq!(rt; told(rt.alloc(), text, 0)?.as_str(), expected);
    }
    Ok(())
}

#[test]
fn operators_bind_by_level(rt: HostRuntime) -> Result<(), Fail> {
    let cases = [
        ("1 - 2 - 3", "(Minus (Minus 1@1:1 2@1:5)@1:3 3@1:9)@1:7 5"),
        ("1 + 2 * 3", "(Plus 1@1:1 (Times 2@1:5 3@1:9)@1:7)@1:3 5"),
        ("1 * 2 + 3", "(Plus (Times 1@1:1 2@1:5)@1:3 3@1:9)@1:7 5"),
        ("a and b or c", "(Or (And a@1:1 b@1:7)@1:3 c@1:12)@1:9 5"),
        ("a or b and c", "(And (Or a@1:1 b@1:6)@1:3 c@1:12)@1:8 5"),
        (
            "a xor b implies c",
            "(Implies (Xor a@1:1 b@1:7)@1:3 c@1:17)@1:9 5",
        ),
        (
            "a = b and c <> d",
            "(And (Eq a@1:1 b@1:5)@1:3 (Ne c@1:11 d@1:16)@1:13)@1:7 7",
        ),
        ("a < b > c", "(Gt (Lt a@1:1 b@1:5)@1:3 c@1:9)@1:7 5"),
        ("a <= b >= c", "(Ge (Le a@1:1 b@1:6)@1:3 c@1:11)@1:8 5"),
        ("a div b mod c", "(Mod (Div a@1:1 b@1:7)@1:3 c@1:13)@1:9 5"),
        ("a = b + c", "(Eq a@1:1 (Plus b@1:5 c@1:9)@1:7)@1:3 5"),
        ("not a = b", "(Eq (Not a@1:5)@1:1 b@1:9)@1:7 4"),
        (
            "- a.b * c",
            "(Times (Neg (read a@1:3 b)@1:5)@1:1 c@1:9)@1:7 6",
        ),
        (
            "a * - b * c",
            "(Times (Times a@1:1 (Neg b@1:7)@1:5)@1:3 c@1:11)@1:9 6",
        ),
        ("not - not a", "(Not (Neg (Not a@1:11)@1:7)@1:5)@1:1 4"),
        ("a - -1", "(Minus a@1:1 (Neg 1@1:6)@1:5)@1:3 4"),
    ];
    for (text, expected) in cases {
        assert_eq!(rt; told(rt.alloc(), text, 0)?.as_str(), expected);
    }
    Ok(())
}

#[test]
fn calls_have_their_trees(rt: HostRuntime) -> Result<(), Fail> {
    let cases = [
        ("a.b.c", "(read (read a@1:1 b)@1:3 c)@1:5 5"),
        ("e.from", "(read e@1:1 from)@1:3 3"),
        ("e.\"+\"(2)", "(call e@1:1 false + 2@1:7)@1:3 6"),
        ("1.abs()", "(call 1@1:1 false abs)@1:3 5"),
        ("a.f(1, x)", "(call a@1:1 false f 1@1:5 x@1:8)@1:3 8"),
        ("a.f(x)", "(call a@1:1 false f x@1:5)@1:3 6"),
        ("a.select(x)", "(call a@1:1 false select x@1:10)@1:3 6"),
        ("a->size()", "(call a@1:1 true size)@1:4 5"),
        (
            "a->union(b, c)",
            "(call a@1:1 true union b@1:10 c@1:13)@1:4 8",
        ),
        (
            "a->includes(x.y)",
            "(call a@1:1 true includes (read x@1:13 y)@1:15)@1:4 8",
        ),
        (
            "a->includes(M!C)",
            "(call a@1:1 true includes M!C@1:13)@1:4 8",
        ),
        ("a->select(x)", "(call a@1:1 true select x@1:11)@1:4 6"),
        (
            "a->select(x | x.b)",
            "(loop a@1:1 select x@1:11 (read x@1:15 b)@1:17)@1:4 10",
        ),
        (
            "a->\"any\"(x | true)",
            "(loop a@1:1 any x@1:10 true@1:14)@1:4 8",
        ),
        (
            "a->exists(x|b)->one(y|c)",
            "(loop (loop a@1:1 exists x@1:11 b@1:13)@1:4 one y@1:21 c@1:23)@1:17 15",
        ),
        (
            "a->iterate(x; r : Integer = 0 | r + x)",
            "(iterate a@1:1 x@1:12 r@1:15 Whole@1:19 0@1:29 (Plus r@1:33 x@1:37)@1:35)@1:4 16",
        ),
        (
            "a->iterate(x ; r : Sequence(M!C) = b | r).f",
            "(read (iterate a@1:1 x@1:12 r@1:16 Sequence(M!C@1:29)@1:20 b@1:36 r@1:40)@1:4 f)@1:43 21",
        ),
        ("a->iterate(x)", "(call a@1:1 true iterate x@1:12)@1:4 6"),
        ("(a + b).c", "(read (Plus a@1:2 b@1:6)@1:4 c)@1:9 7"),
        ("a->let()", "(call a@1:1 true let)@1:4 5"),
    ];
    for (text, expected) in cases {
        assert_eq!(rt; told(rt.alloc(), text, 0)?.as_str(), expected);
    }
    Ok(())
}

#[test]
fn the_longest_expression_is_read(rt: HostRuntime) -> Result<(), Fail> {
    let cases = [
        ("a b", 0, "a@1:1 1"),
        ("a b", 1, "b@1:3 2"),
        ("a ; b", 0, "a@1:1 1"),
        ("a.b <- c", 0, "(read a@1:1 b)@1:3 3"),
        ("a + 1)", 0, "(Plus a@1:1 1@1:5)@1:3 3"),
        ("a, b", 0, "a@1:1 1"),
        ("a in b", 0, "a@1:1 1"),
        (
            "let x : Integer = 1 in x then",
            0,
            "(let x@1:5 Whole@1:9 1@1:19 x@1:24)@1:1 8",
        ),
        (
            "let x : Integer = 1 in not x }",
            0,
            "(let x@1:5 Whole@1:9 1@1:19 (Not x@1:28)@1:24)@1:1 9",
        ),
        ("a (", 0, "a@1:1 1"),
        ("self <- a", 0, "self@1:1 1"),
        ("x.self", 2, "self@1:3 3"),
        ("(a)(b)", 0, "a@1:2 3"),
        ("a.f()()", 0, "(call a@1:1 false f)@1:3 5"),
        ("a let", 0, "a@1:1 1"),
        ("x", 1, "Expected 1:2"),
    ];
    for (text, from, expected) in cases {
        assert_eq!(rt; told(rt.alloc(), text, from)?.as_str(), expected);
    }
    Ok(())
}

#[test]
fn the_first_wrong_token_is_named(rt: HostRuntime) -> Result<(), Fail> {
    let cases = [
        ("", "Expected 1:1"),
        (")", "Expected 1:1"),
        ("module", "Expected 1:1"),
        ("1 +", "Expected 1:4"),
        ("1 + )", "Expected 1:5"),
        ("1 + let x : Integer = 1 in x", "Expected 1:5"),
        ("- let x : Integer = 1 in x", "Expected 1:3"),
        ("a.", "Expected 1:3"),
        ("a.1", "Expected 1:3"),
        ("a->", "Expected 1:4"),
        ("a->b", "Expected 1:5"),
        ("a->b.c", "Expected 1:5"),
        ("(a", "Expected 1:3"),
        ("(a b)", "Expected 1:4"),
        ("()", "Expected 1:2"),
        ("(a}", "Expected 1:3"),
        ("a.f(", "Expected 1:5"),
        ("a.f(,", "Expected 1:5"),
        ("a.f(1,)", "Expected 1:7"),
        ("a.f(x | y)", "Expected 1:7"),
        ("a->f(x | y)", "Expected 1:8"),
        ("a->select(x; y : Integer = 1 | x)", "Expected 1:12"),
        ("a->iterate(x | y)", "Expected 1:14"),
        ("a->iterate(x; y = 1 | y)", "Expected 1:17"),
        ("a->iterate(x; y : Integer | y)", "Expected 1:27"),
        ("a->iterate(x; y : Integer = 1)", "Expected 1:30"),
        ("a->iterate(x; in : Integer = 1 | x)", "Expected 1:15"),
        ("a->select(x | )", "Expected 1:15"),
        ("a->select(x, y | x)", "Expected 1:16"),
        ("a->select(x", "Expected 1:12"),
        ("Set", "Expected 1:4"),
        ("Set(", "Expected 1:4"),
        ("Set{", "Expected 1:5"),
        ("Set{1", "Expected 1:6"),
        ("Set{1)", "Expected 1:6"),
        ("Set{1,}", "Expected 1:7"),
        ("M!", "Expected 1:3"),
        ("M!1", "Expected 1:3"),
        ("#", "Expected 1:2"),
        ("#if", "Expected 1:2"),
        ("if a", "Expected 1:5"),
        ("if a else", "Expected 1:6"),
        ("if a then b endif", "Expected 1:13"),
        ("if a then b else c", "Expected 1:19"),
        ("if a then b else c then", "Expected 1:20"),
        ("let", "Expected 1:4"),
        ("let in : Integer = 1 in x", "Expected 1:5"),
        ("let x = 1 in x", "Expected 1:7"),
        ("let x : = 1 in x", "Expected 1:9"),
        ("let x : Integer 1 in x", "Expected 1:17"),
        ("let x : Set = 1 in x", "Expected 1:13"),
        ("let x : Set(Integer = 1 in x", "Expected 1:21"),
        ("let x : Set(Integer)) = 1 in x", "Expected 1:21"),
        ("let x : M = 1 in x", "Expected 1:11"),
        ("let x : Map = 1 in x", "Expected 1:9"),
        ("let x : Integer = 1", "Expected 1:20"),
        ("let x : Integer = 1 then", "Expected 1:21"),
        ("let x : Integer = 1 in", "Expected 1:23"),
        ("Tuple{a = 1}", "Expected 1:1"),
        ("not", "Expected 1:4"),
        ("and", "Expected 1:1"),
    ];
    for (text, expected) in cases {
        assert_eq!(rt; told(rt.alloc(), text, 0)?.as_str(), expected);
    }
    Ok(())
}

#[test]
fn a_keyword_is_no_variable(rt: HostRuntime) -> Result<(), Fail> {
    let cases = [
        ("a->select(self | x)", "Expected 1:11"),
        ("a->select(true | x)", "Expected 1:11"),
        ("a->select(String | x)", "Expected 1:11"),
        ("a->select(Sequence | x)", "Expected 1:11"),
        ("a->select(let | x)", "Expected 1:11"),
        ("a->select(not | x)", "Expected 1:11"),
        ("a->select(then | x)", "Expected 1:11"),
        ("a->select(module | x)", "Expected 1:11"),
        ("a->exists(if | x)", "Expected 1:11"),
        ("a.b->\"sortedBy\"\n( self\n| x)", "Expected 2:3"),
        ("1 + a->collect(b->any(self | x) | x)", "Expected 1:23"),
        ("a->iterate(self ; x", "Expected 1:12"),
        ("a->\"iterate\"(Set; x : Integer = 0 | x)", "Expected 1:14"),
        // no iterator, no arrow, another mark, no keyword
        ("a->foo(self | x)", "Expected 1:13"),
        ("a.select(self | x)", "Expected 1:15"),
        ("a->select(self ; x)", "Expected 1:16"),
        ("a->iterate(self | x)", "Expected 1:17"),
        ("a->select(1 | x)", "Expected 1:13"),
        ("a->select('self' | x)", "Expected 1:18"),
        ("a->select(- | x)", "Expected 1:13"),
        ("a->select((self | x))", "Expected 1:17"),
        ("a->select(self, self | x)", "Expected 1:22"),
        ("a->select(self", "Expected 1:15"),
        ("a->select(self)", "(call a@1:1 true select own@1:11)@1:4 6"),
        (
            "a->select(\"self\" | true)",
            "(loop a@1:1 select self@1:11 true@1:20)@1:4 8",
        ),
        (
            "a->iterate(x; y : Boolean = true | y)",
            "(iterate a@1:1 x@1:12 y@1:15 Truth@1:19 true@1:29 y@1:36)@1:4 14",
        ),
    ];
    for (text, expected) in cases {
        assert_eq!(rt; told(rt.alloc(), text, 0)?.as_str(), expected);
    }
    // behind the token that reading begins at there is no arrow
    assert_eq!(rt;
        told(rt.alloc(), "a->select(self | x)", 3)?.as_str(),
        "Expected 1:16"
    );
    Ok(())
}

// The opening text so many times, and then the closing one.
fn nested(alloc: Global, open: &str, times: u32, end: &str) -> Result<String, Fail> {
    let mut text = String::new(alloc);
    for _ in 0..times {
        text.push_str(open)?;
    }
    text.push_str(end)?;
    Ok(text)
}

#[test]
fn expressions_nest_at_most_200(rt: HostRuntime) -> Result<(), Fail> {
    let cases = [
        ("(", 200, "", "Expected 1:201"),
        ("(", 200, "x", "Expected 1:202"),
        ("(", 201, "", "Expected 1:202"),
        ("(", 201, "x", "TooDeep 1:202"),
        ("(", 202, "x", "TooDeep 1:202"),
        ("(", 201, ")", "Expected 1:202"),
        ("(", 201, "+", "Expected 1:202"),
        ("- ", 201, "x", "TooDeep 1:403"),
        ("- ", 201, "let", "Expected 1:403"),
        ("(", 201, "let", "TooDeep 1:202"),
        ("f.f(", 200, "x", "Expected 1:802"),
        ("f.f(", 201, "x", "TooDeep 1:805"),
        ("f.f(", 201, ")", "Expected 1:806"),
        ("f->f(", 201, "x", "TooDeep 1:1006"),
        ("f->f(", 201, "x | x", "TooDeep 1:1006"),
        ("(", 200, "f->select(x | x", "TooDeep 1:215"),
        ("(", 200, "f->select(x", "TooDeep 1:211"),
        ("(", 200, "f->select(x)", "TooDeep 1:211"),
        ("(", 200, "f->select()", "Expected 1:212"),
        (
            "(",
            200,
            "f->iterate(x; y : Integer = 1 | 2",
            "TooDeep 1:229",
        ),
        ("(", 199, "f->select(x | x", "Expected 1:215"),
        ("Set{", 201, "1", "TooDeep 1:805"),
        ("(", 200, "a + b + c * d.e.f", "Expected 1:218"),
    ];
    for (open, times, end, expected) in cases {
        let text = nested(rt.alloc(), open, times, end)?;
        assert_eq!(rt; told(rt.alloc(), text.as_str(), 0)?.as_str(), expected);
    }
    Ok(())
}

// How many tokens the expression has that the text begins with, or 0.
fn read_length(alloc: Global, text: &str) -> Result<usize, Fail> {
    let Some(list) = tokens_of(alloc, text)? else {
        return Ok(0);
    };
    match parse_expr(alloc, &list, 0) {
        Ok((_, after)) => Ok(after),
        Err(_) => Ok(0),
    }
}

// How many tokens of the first text and so many of the second are read as one expression.
fn chain_length(alloc: Global, first: &str, link: &str, links: u32) -> Result<usize, Fail> {
    let chain = nested(alloc, link, links, "")?;
    let text = format!(in alloc; "{first}{}", chain.as_str())?;
    read_length(alloc, text.as_str())
}

#[test]
fn a_long_sum_is_read(rt: HostRuntime) -> Result<(), Fail> {
    assert_eq!(rt; chain_length(rt.alloc(), "1", "+1", 100_000)?, 200_001);
    Ok(())
}

#[test]
fn long_chains_are_read(rt: HostRuntime) -> Result<(), Fail> {
    assert_eq!(rt; chain_length(rt.alloc(), "a", ".b", 50_000)?, 100_001);
    assert_eq!(rt; chain_length(rt.alloc(), "a", ".b()", 25_000)?, 100_001);
    assert_eq!(rt;
        chain_length(rt.alloc(), "a", "->any(x|y)", 10_000)?,
        70_001
    );
    Ok(())
}
