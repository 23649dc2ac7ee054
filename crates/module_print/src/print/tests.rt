use super::print_module;
use atl_base::place::Place;
use atl_base::text::Text;
use atl_tree::expr::{BinaryOp, Expr, ExprKind};
use atl_tree::kind::{BasicWord, KindNode, KindSort};
use atl_tree::lex::tokens;
use atl_tree::module::{
    Bind, Helper, Item, ModelDecl, Module, Pattern, Rule, RuleSort, Stat, Target,
};
use atl_tree::name::{ClassRef, Name};
use atl_tree::statements::Statements;
use ocl_parse::parse::parse_expr;
use sqlite_items::{Boxed, Items};
use std::alloc::{AllocError, Global};
use std::test::Fail;

const PLACE: Place = Place { line: 1, column: 1 };

fn text(alloc: Global, words: &str) -> Result<Text, Fail> {
    match Text::from_bytes(alloc, words.as_bytes()) {
        Ok(text) => Ok(text),
        Err(_) => Err(Fail::new("refused")),
    }
}

fn name(alloc: Global, words: &str) -> Result<Name, Fail> {
    Ok(Name {
        text: text(alloc, words)?,
        place: PLACE,
    })
}

fn class(alloc: Global, meta: &str, class: &str) -> Result<ClassRef, Fail> {
    Ok(ClassRef {
        meta: text(alloc, meta)?,
        class: text(alloc, class)?,
        place: PLACE,
    })
}

fn models(alloc: Global, model: &str, meta: &str) -> Result<Items<ModelDecl>, Fail> {
    let mut decls = Items::new(alloc);
    decls.push(ModelDecl {
        model: name(alloc, model)?,
        meta: name(alloc, meta)?,
    })?;
    Ok(decls)
}

fn module_of(alloc: Global, item: Item) -> Result<Module, Fail> {
    let mut items = Items::new(alloc);
    items.push(item)?;
    Ok(Module {
        name: name(alloc, "M")?,
        targets: models(alloc, "OUT", "B")?,
        sources: models(alloc, "IN", "A")?,
        items,
    })
}

fn expression(alloc: Global, words: &str) -> Result<Expr, Fail> {
    let text = text(alloc, words)?;
    if text.bytes().len() > 1_000_000 {
        return Err(Fail::new("too long"));
    }
    let tokens = match tokens(alloc, &text) {
        Ok(tokens) => tokens,
        Err(_) => return Err(Fail::new("refused")),
    };
    match parse_expr(alloc, &tokens, 0) {
        Ok((expr, _)) => Ok(expr),
        Err(_) => Err(Fail::new("refused")),
    }
}

fn helper(alloc: Global, body: Expr) -> Result<Item, Fail> {
    Ok(Item::Help(Helper {
        context: None,
        name: name(alloc, "h")?,
        params: None,
        result: KindNode {
            what: KindSort::Basic(BasicWord::Any),
            place: PLACE,
        },
        body,
    }))
}

// The line of a helper with this body.
fn line_of(alloc: Global, words: &str) -> Result<String, Fail> {
    let module = module_of(alloc, helper(alloc, expression(alloc, words)?)?)?;
    let printed = print_module(alloc, &module)?;
    match printed.as_str().split_once("helper def : h : OclAny = ") {
        Some((_, line)) => Ok(String::from_str(alloc, line)?),
        None => Err(Fail::new("no line of the helper")),
    }
}

#[test]
fn parentheses_stand_where_they_are_needed(rt: HostRuntime) -> Result<(), Fail> {
    for (words, printed) in [
        ("1+2*3", "1 + 2 * 3 ;\n"),
        ("(1+2)*3", "( 1 + 2 ) * 3 ;\n"),
        ("1-(2-3)", "1 - ( 2 - 3 ) ;\n"),
        ("(1-2)-3", "1 - 2 - 3 ;\n"),
        ("-(-1)", "- - 1 ;\n"),
        ("(-1).abs()", "( - 1 ) . abs ( ) ;\n"),
        ("not (a and b)", "not ( a and b ) ;\n"),
        ("(not a) and b", "not a and b ;\n"),
        (
            "(let x : Integer = 1 in x) + 1",
            "( let x : Integer = 1 in x ) + 1 ;\n",
        ),
        (
            "let x : Set(A!B) = Set{} in x + 1",
            "let x : Set ( A ! B ) = Set { } in x + 1 ;\n",
        ),
        ("((a.b))->size()", "a . b -> size ( ) ;\n"),
        ("(if a then 1 else 2 endif)", "if a then 1 else 2 endif ;\n"),
    ] {
        assert_eq!(rt; line_of(rt.alloc(), words)?.as_str(), printed, "{words}");
    }
    Ok(())
}

#[test]
fn all_kinds_of_tokens_are_printed(rt: HostRuntime) -> Result<(), Fail> {
    for (words, printed) in [
        ("'a\\n\\t\\r\\\\\\'\"b'", "'a\\n\\t\\r\\\\\\'\"b' ;\n"),
        ("\"a b\"", "\"a b\" ;\n"),
        ("\"plain_1\"", "plain_1 ;\n"),
        ("\"rule\"", "\"rule\" ;\n"),
        ("\"Real\"", "\"Real\" ;\n"),
        ("e.from", "e . \"from\" ;\n"),
        ("\"\"", "\"\" ;\n"),
        ("007", "7 ;\n"),
        ("9223372036854775807", "9223372036854775807 ;\n"),
        ("true", "true ;\n"),
        ("OclUndefined", "OclUndefined ;\n"),
        ("#a", "# a ;\n"),
        ("self.x", "self . x ;\n"),
        ("thisModule.f()", "thisModule . f ( ) ;\n"),
        ("A!B.allInstances()", "A ! B . allInstances ( ) ;\n"),
        (
            "Bag{1,OclAny,Sequence{}}",
            "Bag { 1 , OclAny , Sequence { } } ;\n",
        ),
        (
            "a->select(x|x<>1)->f(1,2)",
            "a -> select ( x | x <> 1 ) -> f ( 1 , 2 ) ;\n",
        ),
        (
            "a->iterate(x;y:OrderedSet(Bag(String))=b|c)",
            "a -> iterate ( x ; y : OrderedSet ( Bag ( String ) ) = b | c ) ;\n",
        ),
        (
            "a implies b xor c or d and e",
            "a implies b xor c or d and e ;\n",
        ),
        ("1 div 2 mod 3 <= 4", "1 div 2 mod 3 <= 4 ;\n"),
    ] {
        assert_eq!(rt; line_of(rt.alloc(), words)?.as_str(), printed, "{words}");
    }
    Ok(())
}

// N2I: rule R { from s : A!Node to t : B!Item (label <- s.name, link <- s.next, parts <- s.kids) }
fn bind(alloc: Global, feature: &str, value: &str) -> Result<Bind, Fail> {
    Ok(Bind {
        feature: name(alloc, feature)?,
        value: expression(alloc, value)?,
    })
}

fn node_to_item(alloc: Global) -> Result<Rule, Fail> {
    let mut binds = Items::new(alloc);
    binds.push(bind(alloc, "label", "s.name")?)?;
    binds.push(bind(alloc, "link", "s.next")?)?;
    binds.push(bind(alloc, "parts", "s.kids")?)?;
    let mut sources = Items::new(alloc);
    sources.push(Pattern {
        name: name(alloc, "s")?,
        class: class(alloc, "A", "Node")?,
    })?;
    let mut targets = Items::new(alloc);
    targets.push(Target {
        name: name(alloc, "t")?,
        class: class(alloc, "B", "Item")?,
        binds,
    })?;
    Ok(Rule {
        sort: RuleSort::Matched,
        is_abstract: false,
        name: name(alloc, "R")?,
        parent: None,
        params: Items::new(alloc),
        sources,
        guard: None,
        locals: Items::new(alloc),
        targets,
        block: None,
    })
}

#[test]
fn a_module_is_printed_line_by_line(rt: HostRuntime) -> Result<(), Fail> {
    let alloc = rt.alloc();
    let mut module = module_of(alloc, Item::Make(node_to_item(alloc)?))?;
    module.name = name(alloc, "N2I")?;
    let printed = print_module(alloc, &module)?;
    assert_eq!(rt;
        printed.as_str(),
        "module N2I ;\ncreate OUT : B from IN : A ;\nrule R { from s : A ! Node to t : B ! Item ( label <- s . name , link <- s . next , parts <- s . kids ) }\n"
    );
    Ok(())
}

fn block_line(alloc: Global, stats: Statements) -> Result<String, Fail> {
    let mut rule = node_to_item(alloc)?;
    rule.sort = RuleSort::Unique;
    rule.is_abstract = true;
    rule.parent = Some(name(alloc, "Q")?);
    rule.targets = Items::new(alloc);
    rule.block = Some(stats);
    let module = module_of(alloc, Item::Make(rule))?;
    let printed = print_module(alloc, &module)?;
    match printed.as_str().split_once("from IN : A ;\n") {
        Some((_, line)) => Ok(String::from_str(alloc, line)?),
        None => Err(Fail::new("no second line")),
    }
}

#[test]
fn statements_are_printed(rt: HostRuntime) -> Result<(), Fail> {
    let alloc = rt.alloc();
    let mut inner = Items::new(alloc);
    inner.push(Stat::Assign(
        expression(alloc, "1+a")?,
        name(alloc, "b")?,
        expression(alloc, "2")?,
    ))?;
    inner.push(Stat::Eval(expression(alloc, "if (a) then b else c endif.f()")?))?;
    inner.push(Stat::Eval(expression(alloc, "if (a).x then b else c endif")?))?;
    inner.push(Stat::Eval(expression(alloc, "if (a+1)*2 then b else c endif+1")?))?;
    let mut others = Items::new(alloc);
    others.push(Stat::For(
        name(alloc, "i")?,
        expression(alloc, "s")?,
        Items::new(alloc),
    ))?;
    let mut stats = Statements::new(alloc);
    stats.push(Stat::If(expression(alloc, "a")?, inner, Some(others)))?;
    stats.push(Stat::If(expression(alloc, "a")?, Items::new(alloc), None))?;
    assert_eq!(rt;
        block_line(alloc, stats)?.as_str(),
        "abstract unique lazy rule R extends Q { from s : A ! Node do { if ( a ) { 1 + a . b <- 2 ; if a then b else c endif . f ( ) ; if a . x then b else c endif ; ( if ( a + 1 ) * 2 then b else c endif ) + 1 ; } else { for ( i in s ) { } } if ( a ) { } } }\n"
    );
    Ok(())
}

fn number() -> Expr {
    Expr {
        what: ExprKind::Number(1),
        place: PLACE,
    }
}

// `1 + 1 + 1 ..`
fn long_sum(alloc: Global, links: u32) -> Result<Expr, AllocError> {
    let mut chain = number();
    for _ in 0..links {
        chain = Expr {
            what: ExprKind::Binary(
                BinaryOp::Plus,
                Boxed::new(alloc, chain)?,
                Boxed::new(alloc, number())?,
            ),
            place: PLACE,
        };
    }
    Ok(chain)
}

// `1.f().f().f() ..`
fn long_calls(alloc: Global, links: u32) -> Result<Expr, Fail> {
    let mut chain = number();
    for _ in 0..links {
        chain = Expr {
            what: ExprKind::Call(
                Boxed::new(alloc, chain)?,
                false,
                text(alloc, "f")?,
                Items::new(alloc),
            ),
            place: PLACE,
        };
    }
    Ok(chain)
}

fn length_of(alloc: Global, body: Expr) -> Result<usize, Fail> {
    let module = module_of(alloc, helper(alloc, body)?)?;
    let printed = print_module(alloc, &module)?;
    Ok(printed.as_str().len())
}

#[test]
fn long_chains_are_printed(rt: HostRuntime) -> Result<(), Fail> {
    let alloc = rt.alloc();
    let rest = length_of(alloc, number())?;
    // ` + 1`, and ` . f ( )`
    let sum = length_of(alloc, long_sum(alloc, 100_000)?)?;
    assert_eq!(rt; sum.checked_sub(400_000), Some(rest));
    let calls = length_of(alloc, long_calls(alloc, 100_000)?)?;
    assert_eq!(rt; calls.checked_sub(800_000), Some(rest));
    Ok(())
}

// `if (1) { 1; for (i in 1) { 1; for (i in 1) { .. } } }`
fn deep_block(alloc: Global, levels: u32) -> Result<Statements, Fail> {
    let mut stats = Items::new(alloc);
    for _ in 0..levels {
        let mut round = Items::new(alloc);
        round.push(Stat::Eval(number()))?;
        round.push(Stat::For(name(alloc, "i")?, number(), stats))?;
        stats = round;
    }
    let mut block = Statements::new(alloc);
    block.push(Stat::If(number(), stats, None))?;
    Ok(block)
}

#[test]
fn deep_statements_are_printed(rt: HostRuntime) -> Result<(), Fail> {
    let alloc = rt.alloc();
    let rest = block_line(alloc, deep_block(alloc, 0)?)?.as_str().len();
    let deep = block_line(alloc, deep_block(alloc, 20_000)?)?;
    // `1 ; for ( i in 1 ) { } `
    assert_eq!(rt; deep.as_str().len().checked_sub(460_000), Some(rest));
    Ok(())
}
