use super::*;
use atl_base::place::Place;
use atl_tree::expr::{Expr, ExprKind};
use atl_tree::kind::{KindNode, KindSort};
use atl_tree::module::{
    Bind, Helper, Item, LocalVar, ModelDecl, Param, Pattern, Rule, Stat, Target,
};
use atl_tree::name::{ClassRef, Name};
use std::alloc::AllocError;
use std::test::Fail;

const HEADER: &str = "module M; create O : B from I : A;";

fn show_place(out: &mut String, place: Place) -> Result<(), AllocError> {
    let Place { line, column } = place;
    write!(out, "@{line}:{column}")
}

// A name as `x@1:2`.
fn show_name(out: &mut String, name: &Name) -> Result<(), AllocError> {
    out.push_str(name.text.as_str())?;
    show_place(out, name.place)
}

fn show_class(out: &mut String, class: &ClassRef) -> Result<(), AllocError> {
    out.push_str(class.meta.as_str())?;
    out.push_str("!")?;
    out.push_str(class.class.as_str())?;
    show_place(out, class.place)
}

fn show_kind(out: &mut String, kind: &KindNode) -> Result<(), AllocError> {
    match &kind.what {
        KindSort::Basic(word) => write!(out, "{word:?}")?,
        KindSort::Class(class) => return show_class(out, class),
        KindSort::Coll(word, inner) => {
            write!(out, "{word:?}(")?;
            show_kind(out, inner.get())?;
            out.push_str(")")?;
        }
    }
    show_place(out, kind.place)
}

// What the modules of these tests have for expressions.
fn show_expr(out: &mut String, e: &Expr) -> Result<(), AllocError> {
    match &e.what {
        ExprKind::Number(n) => write!(out, "{n}")?,
        ExprKind::Var(text) => out.push_str(text.as_str())?,
        ExprKind::Truth(truth) => write!(out, "{truth}")?,
        ExprKind::Read(source, name) => {
            show_expr(out, source.get())?;
            write!(out, ".{}", name.as_str())?;
        }
        ExprKind::Binary(op, left, right) => {
            out.push_str("(")?;
            show_expr(out, left.get())?;
            write!(out, " {op:?} ")?;
            show_expr(out, right.get())?;
            out.push_str(")")?;
        }
        ExprKind::If(condition, left, right) => {
            out.push_str("(if ")?;
            show_expr(out, condition.get())?;
            out.push_str(" ")?;
            show_expr(out, left.get())?;
            out.push_str(" ")?;
            show_expr(out, right.get())?;
            out.push_str(")")?;
        }
        _ => out.push_str("?")?,
    }
    show_place(out, e.place)
}

fn show_models(out: &mut String, models: &[ModelDecl]) -> Result<(), AllocError> {
    out.push_str(" [")?;
    for decl in models {
        show_name(out, &decl.model)?;
        out.push_str(":")?;
        show_name(out, &decl.meta)?;
        out.push_str(" ")?;
    }
    out.push_str("]")
}

fn show_params(out: &mut String, params: &[Param]) -> Result<(), AllocError> {
    out.push_str("(")?;
    for param in params {
        show_name(out, &param.name)?;
        out.push_str(":")?;
        show_kind(out, &param.kind)?;
        out.push_str(" ")?;
    }
    out.push_str(")")
}

// A helper as `help context name(params):type=body`, with `-` where there is no context.
fn show_helper(out: &mut String, helper: &Helper) -> Result<(), AllocError> {
    out.push_str("help ")?;
    match &helper.context {
        Some(kind) => show_kind(out, kind)?,
        None => out.push_str("-")?,
    }
    out.push_str(" ")?;
    show_name(out, &helper.name)?;
    if let Some(params) = &helper.params {
        show_params(out, params.as_slice())?;
    }
    out.push_str(":")?;
    show_kind(out, &helper.result)?;
    out.push_str("=")?;
    show_expr(out, &helper.body)
}

fn show_sources(out: &mut String, sources: &[Pattern]) -> Result<(), AllocError> {
    out.push_str(" [")?;
    for source in sources {
        show_name(out, &source.name)?;
        out.push_str(":")?;
        show_class(out, &source.class)?;
        out.push_str(" ")?;
    }
    out.push_str("]")
}

fn show_locals(out: &mut String, locals: &[LocalVar]) -> Result<(), AllocError> {
    out.push_str(" {")?;
    for local in locals {
        show_name(out, &local.name)?;
        out.push_str(":")?;
        show_kind(out, &local.kind)?;
        out.push_str("=")?;
        show_expr(out, &local.value)?;
        out.push_str(" ")?;
    }
    out.push_str("}")
}

fn show_binds(out: &mut String, binds: &[Bind]) -> Result<(), AllocError> {
    out.push_str("(")?;
    for bind in binds {
        show_name(out, &bind.feature)?;
        out.push_str("<-")?;
        show_expr(out, &bind.value)?;
        out.push_str(" ")?;
    }
    out.push_str(")")
}

fn show_targets(out: &mut String, targets: &[Target]) -> Result<(), AllocError> {
    out.push_str(" [")?;
    for target in targets {
        show_name(out, &target.name)?;
        out.push_str(":")?;
        show_class(out, &target.class)?;
        show_binds(out, target.binds.as_slice())?;
        out.push_str(" ")?;
    }
    out.push_str("]")
}

#[cycle(stats)]
fn show_stats(out: &mut String, stats: &[Stat]) -> Result<(), AllocError> {
    out.push_str("{")?;
    for stat in stats {
        show_stat(out, stat)?;
    }
    out.push_str("}")
}

#[cycle(stats)]
fn show_stat(out: &mut String, stat: &Stat) -> Result<(), AllocError> {
    match stat {
        Stat::Eval(e) => show_expr(out, e)?,
        Stat::Assign(object, feature, value) => {
            show_expr(out, object)?;
            out.push_str(".")?;
            show_name(out, feature)?;
            out.push_str("<-")?;
            show_expr(out, value)?;
        }
        Stat::If(condition, branch, other) => {
            out.push_str("if ")?;
            show_expr(out, condition)?;
            show_stats(out, branch.as_slice())?;
            if let Some(stats) = other {
                out.push_str("else")?;
                show_stats(out, stats.as_slice())?;
            }
        }
        Stat::For(name, values, body) => {
            out.push_str("for ")?;
            show_name(out, name)?;
            out.push_str(" in ")?;
            show_expr(out, values)?;
            show_stats(out, body.as_slice())?;
        }
    }
    out.push_str(";")
}

// A rule as `make sort abstract name <parent(params) [sources] ?guard {locals} [targets] do{statements}`.
fn show_rule(out: &mut String, rule: &Rule) -> Result<(), AllocError> {
    write!(out, "make {:?} {} ", rule.sort, rule.is_abstract)?;
    show_name(out, &rule.name)?;
    if let Some(parent) = &rule.parent {
        out.push_str(" <")?;
        show_name(out, parent)?;
    }
    show_params(out, rule.params.as_slice())?;
    show_sources(out, rule.sources.as_slice())?;
    if let Some(guard) = &rule.guard {
        out.push_str(" ?")?;
        show_expr(out, guard)?;
    }
    show_locals(out, rule.locals.as_slice())?;
    show_targets(out, rule.targets.as_slice())?;
    if let Some(stats) = &rule.block {
        out.push_str(" do")?;
        show_stats(out, stats.as_slice())?;
    }
    Ok(())
}

fn show_module(out: &mut String, module: &Module) -> Result<(), AllocError> {
    show_name(out, &module.name)?;
    show_models(out, module.targets.as_slice())?;
    show_models(out, module.sources.as_slice())?;
    for item in module.items.as_slice() {
        out.push_str(" ")?;
        match item {
            Item::Help(helper) => show_helper(out, helper)?,
            Item::Make(rule) => show_rule(out, rule)?,
        }
    }
    Ok(())
}

// The module of a text.
fn read(alloc: Global, text: &str) -> Result<Result<Module, ParseRefusal>, Fail> {
    let text = Text::from_bytes(alloc, text.as_bytes())?;
    if text.bytes().len() > 4294967294 {
        return Ok(Err(ParseRefusal::Memory));
    }
    Ok(parse_module(alloc, &text))
}

// A refusal as `Expected 1:9`.
fn show_refusal(out: &mut String, refusal: ParseRefusal) -> Result<(), AllocError> {
    match refusal {
        ParseRefusal::Lex(LexRefusal::BadByte(p)) => write!(out, "BadByte {}:{}", p.line, p.column),
        ParseRefusal::Lex(LexRefusal::OpenText(p)) => write!(
            out,
            "OpenText {}:{}",
            p.line, p.column
        ),
        ParseRefusal::Lex(LexRefusal::WideNumber(p)) => write!(
            out,
            "WideNumber {}:{}",
            p.line, p.column
        ),
        ParseRefusal::Lex(LexRefusal::RealNumber(p)) => write!(
            out,
            "RealNumber {}:{}",
            p.line, p.column
        ),
        ParseRefusal::OtherUnit(p) => write!(out, "OtherUnit {}:{}", p.line, p.column),
        ParseRefusal::Expected(p) => write!(out, "Expected {}:{}", p.line, p.column),
        ParseRefusal::TooDeep(p) => write!(out, "TooDeep {}:{}", p.line, p.column),
        ParseRefusal::Lex(LexRefusal::Memory) | ParseRefusal::Memory => out.push_str("Memory"),
    }
}

// The refusal of a text, or `Read`.
fn refused(alloc: Global, text: &str) -> Result<String, Fail> {
    let mut out = String::new(alloc);
    match read(alloc, text)? {
        Ok(_) => out.push_str("Read")?,
        Err(refusal) => show_refusal(&mut out, refusal)?,
    }
    Ok(out)
}

// A text of these items behind a header of one line.
fn with_header(alloc: Global, items: &str) -> Result<String, AllocError> {
    let mut text = String::from_str(alloc, HEADER)?;
    text.push_str("\n")?;
    text.push_str(items)?;
    Ok(text)
}

// The refusal of such a text.
fn refused_items(alloc: Global, items: &str) -> Result<String, Fail> {
    refused(alloc, with_header(alloc, items)?.as_str())
}

// The tree of such a text.
fn shown(alloc: Global, items: &str) -> Result<String, Fail> {
    let text = with_header(alloc, items)?;
    let mut out = String::new(alloc);
    if let Ok(module) = read(alloc, text.as_str())? {
        show_module(&mut out, &module)?;
    }
    Ok(out)
}

#[test]
fn modules_have_their_trees(rt: HostRuntime) -> Result<(), Fail> {
    let cases = [
        ("", "M@1:8 [O@1:18:B@1:22 ] [I@1:29:A@1:33 ]"),
        (
            "helper context A!N def: f(x : Integer, y : Set(A!N)) : Boolean = x;",
            "M@1:8 [O@1:18:B@1:22 ] [I@1:29:A@1:33 ] help A!N@2:16 f@2:25(x@2:27:Whole@2:31 y@2:40:Set(A!N@2:48)@2:44 ):Truth@2:56=x@2:66",
        ),
        (
            "helper def: g : String = 1;",
            "M@1:8 [O@1:18:B@1:22 ] [I@1:29:A@1:33 ] help - g@2:13:Words@2:17=1@2:26",
        ),
        (
            "helper context OclAny def : \"a b\"() : OclAny = true;",
            "M@1:8 [O@1:18:B@1:22 ] [I@1:29:A@1:33 ] help Any@2:16 a b@2:29():Any@2:39=true@2:48",
        ),
        (
            "rule R { from s : A!N }",
            "M@1:8 [O@1:18:B@1:22 ] [I@1:29:A@1:33 ] make Matched false R@2:6() [s@2:15:A!N@2:19 ] {} []",
        ),
        (
            "abstract rule R extends Q {\n from s : A!N, t : A!O (s = t)\n using { v : Integer = 1; w : Sequence(B!M) = 2; }\n to u : B!M (a <- 1, from <- s), x : B!K, y : B!L ()\n do { 1; } }",
            "M@1:8 [O@1:18:B@1:22 ] [I@1:29:A@1:33 ] make Matched true R@2:15 <Q@2:25() [s@3:7:A!N@3:11 t@3:16:A!O@3:20 ] ?(s@3:25 Eq t@3:29)@3:27 {v@4:10:Whole@4:14=1@4:24 w@4:27:Sequence(B!M@4:40)@4:31=2@4:47 } [u@5:5:B!M@5:9(a@5:14<-1@5:19 from@5:22<-s@5:30 ) x@5:34:B!K@5:38() y@5:43:B!L@5:47() ] do{1@6:7;}",
        ),
        (
            "lazy rule L { from s : A!N to t : B!M }",
            "M@1:8 [O@1:18:B@1:22 ] [I@1:29:A@1:33 ] make Lazy false L@2:11() [s@2:20:A!N@2:24 ] {} [t@2:31:B!M@2:35() ]",
        ),
        (
            "lazy abstract unique rule L { from s : A!N using {} do {} }",
            "M@1:8 [O@1:18:B@1:22 ] [I@1:29:A@1:33 ] make Unique true L@2:27() [s@2:36:A!N@2:40 ] {} [] do{}",
        ),
        (
            "abstract lazy rule L extends K { from s : A!N }",
            "M@1:8 [O@1:18:B@1:22 ] [I@1:29:A@1:33 ] make Lazy true L@2:20 <K@2:30() [s@2:39:A!N@2:43 ] {} []",
        ),
        (
            "rule C(x : Integer, y : A!N) { to t : B!M do { x; } }",
            "M@1:8 [O@1:18:B@1:22 ] [I@1:29:A@1:33 ] make Called false C@2:6(x@2:8:Whole@2:12 y@2:21:A!N@2:25 ) [] {} [t@2:35:B!M@2:39() ] do{x@2:48;}",
        ),
        (
            "rule C() { }",
            "M@1:8 [O@1:18:B@1:22 ] [I@1:29:A@1:33 ] make Called false C@2:6() [] {} []",
        ),
        (
            "entrypoint rule E() { using { v : Integer = 1; } do {} }",
            "M@1:8 [O@1:18:B@1:22 ] [I@1:29:A@1:33 ] make Entry false E@2:17() [] {v@2:31:Whole@2:35=1@2:45 } [] do{}",
        ),
        (
            "endpoint rule F() { do { } }",
            "M@1:8 [O@1:18:B@1:22 ] [I@1:29:A@1:33 ] make End false F@2:15() [] {} [] do{}",
        ),
        (
            "rule C() { do { a.b <- 1; 1 + a.b <- 2; a.b.c; a <> b; } }",
            "M@1:8 [O@1:18:B@1:22 ] [I@1:29:A@1:33 ] make Called false C@2:6() [] {} [] do{a@2:17.b@2:19<-1@2:24;(1@2:27 Plus a@2:31)@2:29.b@2:33<-2@2:38;a@2:41.b@2:43.c@2:45;(a@2:48 Ne b@2:53)@2:50;}",
        ),
        (
            "rule C() { do { if (a) { 1; } if (b) { 2; 3; } else { 4; } for (x in c) { x.y <- 5; 6; } 7; } }",
            "M@1:8 [O@1:18:B@1:22 ] [I@1:29:A@1:33 ] make Called false C@2:6() [] {} [] do{if a@2:21{1@2:26;};if b@2:35{2@2:40;3@2:43;}else{4@2:55;};for x@2:65 in c@2:70{x@2:75.y@2:77<-5@2:82;6@2:85;};7@2:90;}",
        ),
        (
            "rule C() { do { if (a) { if (b) { } else { for (x in c) { if (d) { 1; } 2; } } 3; } else { } } }",
            "M@1:8 [O@1:18:B@1:22 ] [I@1:29:A@1:33 ] make Called false C@2:6() [] {} [] do{if a@2:21{if b@2:30{}else{for x@2:49 in c@2:54{if d@2:63{1@2:68;};2@2:73;};};3@2:80;}else{};}",
        ),
        (
            "rule C() { do { if a then b else c endif.d <- 1; (if (a) then b else c endif).d <- 2; } }",
            "M@1:8 [O@1:18:B@1:22 ] [I@1:29:A@1:33 ] make Called false C@2:6() [] {} [] do{(if a@2:20 b@2:27 c@2:34)@2:17.d@2:42<-1@2:47;(if a@2:55 b@2:63 c@2:70)@2:51.d@2:79<-2@2:84;}",
        ),
        (
            "helper def: a : Integer = 1; rule R { from s : A!N } helper def: b : Integer = 2;",
            "M@1:8 [O@1:18:B@1:22 ] [I@1:29:A@1:33 ] help - a@2:13:Whole@2:17=1@2:27 make Matched false R@2:35() [s@2:44:A!N@2:48 ] {} [] help - b@2:66:Whole@2:70=2@2:80",
        ),
    ];
    for (items, expected) in cases {
        assert_eq!(rt; shown(rt.alloc(), items)?.as_str(), expected);
    }
    Ok(())
}

const NODES: &str =
    "module N2I;\ncreate OUT : B from IN : A;\nrule R { from s : A!Node to t : B!Item (label <- s.name, link <- s.next, parts <- s.kids) }\n";

const FAMILIES: &str =
    "module F2P;\ncreate OUT : Persons from IN : Families;\nhelper context Families!Member def: familyName : String =\n  if not self.familyFather.oclIsUndefined() then self.familyFather.lastName\n  else if not self.familyMother.oclIsUndefined() then self.familyMother.lastName\n  else if not self.familySon.oclIsUndefined() then self.familySon.lastName\n  else self.familyDaughter.lastName endif endif endif;\nhelper context Families!Member def: isFemale() : Boolean =\n  if not self.familyMother.oclIsUndefined() then true\n  else not self.familyDaughter.oclIsUndefined() endif;\nrule Member2Male {\n  from s : Families!Member (not s.isFemale())\n  to t : Persons!Male (fullName <- s.firstName + ' ' + s.familyName)\n}\nrule Member2Female {\n  from s : Families!Member (s.isFemale())\n  to t : Persons!Female (fullName <- s.firstName + ' ' + s.familyName)\n}\n";

#[test]
fn the_examples_are_read(rt: HostRuntime) -> Result<(), Fail> {
    let mut out = String::new(rt.alloc());
    if let Ok(module) = read(rt.alloc(), NODES)? {
        show_module(&mut out, &module)?;
    }
    assert_eq!(rt;
        out.as_str(),
        "N2I@1:8 [OUT@2:8:B@2:14 ] [IN@2:21:A@2:26 ] make Matched false R@3:6() [s@3:15:A!Node@3:19 ] {} [t@3:29:B!Item@3:33(label@3:41<-s@3:50.name@3:52 link@3:58<-s@3:66.next@3:68 parts@3:74<-s@3:83.kids@3:85 ) ]"
    );
    let Ok(families) = read(rt.alloc(), FAMILIES)? else {
        return Err(Fail::from("the module of families is refused"));
    };
    assert_eq!(rt; families.items.len(), 4);
    Ok(())
}

// The text so many times, between what stands before and behind it.
fn repeated(
    alloc: Global,
    before: &str,
    text: &str,
    times: u32,
    behind: &str,
) -> Result<String, Fail> {
    let mut all = String::from_str(alloc, before)?;
    for _ in 0..times {
        all.push_str(text)?;
    }
    all.push_str(behind)?;
    Ok(all)
}

#[test]
fn an_expression_stands_200_deep(rt: HostRuntime) -> Result<(), Fail> {
    let cases = [(200, "Read"), (201, "TooDeep 2:429")];
    for (times, expected) in cases {
        let mut text = String::from_str(rt.alloc(), HEADER)?;
        text.push_str("\nhelper def: f : Integer = ")?;
        let value = repeated(rt.alloc(), "", "- ", times, "1;")?;
        text.push_str(value.as_str())?;
        assert_eq!(rt; refused(rt.alloc(), text.as_str())?.as_str(), expected);
    }
    Ok(())
}

#[test]
fn many_helpers_are_read(rt: HostRuntime) -> Result<(), Fail> {
    let helpers = repeated(
        rt.alloc(),
        HEADER,
        " helper def: f : Integer = 1;",
        100_000,
        "",
    )?;
    let Ok(module) = read(rt.alloc(), helpers.as_str())? else {
        return Err(Fail::from("helpers are refused"));
    };
    assert_eq!(rt; module.items.len(), 100_000);
    Ok(())
}

#[test]
fn a_long_sum_is_read(rt: HostRuntime) -> Result<(), Fail> {
    let mut text = String::from_str(rt.alloc(), HEADER)?;
    text.push_str(" helper def: f : Integer = 1")?;
    let sum = repeated(rt.alloc(), text.as_str(), " + 1", 100_000, ";")?;
    assert_eq!(rt; refused(rt.alloc(), sum.as_str())?.as_str(), "Read");
    Ok(())
}

// A rule of twenty thousand statements in one another, and what stands behind the last.
fn deep_statements(alloc: Global, end: &str) -> Result<String, Fail> {
    let mut text = String::from_str(alloc, HEADER)?;
    text.push_str(" rule R() { do { ")?;
    let opened = repeated(
        alloc,
        text.as_str(),
        "1; if (a) { for (x in c) { ",
        10_000,
        "",
    )?;
    let closed = repeated(alloc, opened.as_str(), "} } ", 10_000, end)?;
    Ok(closed)
}

#[test]
fn deep_statements_are_let_go(rt: HostRuntime) -> Result<(), Fail> {
    let cases = [
        ("} }", "Read"),
        ("} )", "Expected 1:310054"),
        ("else", "Expected 1:310056"),
        ("", "Expected 1:310052"),
    ];
    for (end, expected) in cases {
        let text = deep_statements(rt.alloc(), end)?;
        assert_eq!(rt; refused(rt.alloc(), text.as_str())?.as_str(), expected);
    }
    Ok(())
}

#[test]
fn statements_nest(rt: HostRuntime) -> Result<(), Fail> {
    let mut text = String::from_str(rt.alloc(), HEADER)?;
    text.push_str(" rule R() { do { ")?;
    let opened = repeated(rt.alloc(), text.as_str(), "if (a) { 1; ", 200, "b.c <- 2;")?;
    let closed = repeated(
        rt.alloc(),
        opened.as_str(),
        " } else { for (x in c) { } }",
        200,
        " } }",
    )?;
    assert_eq!(rt; refused(rt.alloc(), closed.as_str())?.as_str(), "Read");
    Ok(())
}

mod refusals;
