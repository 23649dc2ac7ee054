// Modules: their header, helpers, rules and statements.
use crate::expr::Expr;
use crate::kind::KindNode;
use crate::name::{ClassRef, Name};
use crate::statements::Statements;
use sqlite_items::Items;

/// A module: `module name; create targets from sources;`, and then its items in the order of the text.
#[derive(Debug, Drop)]
pub struct Module {
    pub name: Name,
    pub targets: Items<ModelDecl>,
    pub sources: Items<ModelDecl>,
    pub items: Items<Item>,
}

/// A model of the header, `model : meta`.
#[derive(Debug, Drop)]
pub struct ModelDecl {
    pub model: Name,
    pub meta: Name,
}

/// A helper or a rule.
#[derive(Debug, Drop)]
pub enum Item {
    Help(Helper),
    Make(Rule),
}

/// A helper: an attribute where there are no `params`, and an operation where there is a list of them.
#[derive(Debug, Drop)]
pub struct Helper {
    pub context: Option<KindNode>,
    pub name: Name,
    pub params: Option<Items<Param>>,
    pub result: KindNode,
    pub body: Expr,
}

/// A parameter, `name : type`.
#[derive(Debug, Drop)]
pub struct Param {
    pub name: Name,
    pub kind: KindNode,
}

/// How a rule comes to be applied.
#[derive(Clone, Copy, Debug, PartialEq, Eq)]
pub enum RuleSort {
    Matched,
    Lazy,
    /// `unique lazy`
    Unique,
    Called,
    /// `entrypoint`
    Entry,
    /// `endpoint`
    End,
}

/// A rule. A called rule has parameters and no sources; the others have sources and no parameters.
#[derive(Debug, Drop)]
pub struct Rule {
    pub sort: RuleSort,
    pub is_abstract: bool,
    pub name: Name,
    /// The rule that it extends.
    pub parent: Option<Name>,
    pub params: Items<Param>,
    pub sources: Items<Pattern>,
    pub guard: Option<Expr>,
    pub locals: Items<LocalVar>,
    pub targets: Items<Target>,
    /// The statements of `do`.
    pub block: Option<Statements>,
}

/// A source, `name : class`.
#[derive(Debug, Drop)]
pub struct Pattern {
    pub name: Name,
    pub class: ClassRef,
}

/// A variable of `using`, `name : type = value`.
#[derive(Debug, Drop)]
pub struct LocalVar {
    pub name: Name,
    pub kind: KindNode,
    pub value: Expr,
}

/// A target, `name : class (binds)`.
#[derive(Debug, Drop)]
pub struct Target {
    pub name: Name,
    pub class: ClassRef,
    pub binds: Items<Bind>,
}

/// A binding, `feature <- value`.
#[derive(Debug, Drop)]
pub struct Bind {
    pub feature: Name,
    pub value: Expr,
}

/// A statement.
#[derive(Debug, Drop)]
pub enum Stat {
    Eval(Expr),
    /// `object.feature <- value`
    Assign(Expr, Name, Expr),
    If(Expr, Items<Stat>, Option<Items<Stat>>),
    For(Name, Expr, Items<Stat>),
}
