// Where reading stands, and what a token leads to.
use atl_base::place::Place;
use atl_tree::expr::Expr;
use atl_tree::kind::KindNode;
use atl_tree::module::{ModelDecl, Module, Param, Rule, RuleSort, Target};
use atl_tree::name::Name;
use atl_tree::statements::Statements;
use ocl_parse::frame::Next as NextInside;
use ocl_parse::stack::Stack;
use sqlite_items::{Boxed, Items};

/// Whose models are read: the targets, with those before; or the sources, behind all targets.
#[derive(Drop)]
pub enum Models {
    ForTargets(Name, Items<ModelDecl>),
    ForSources(Name, Items<ModelDecl>, Items<ModelDecl>),
}

/// In the header.
#[derive(Drop)]
pub enum Header {
    /// `module`
    Start,
    ModuleName,
    /// `;` behind a module's name.
    ModuleEnd(Name),
    /// `create`
    Create(Name),
    Model(Models),
    /// `:` behind a model.
    ModelColon(Models, Name),
    Meta(Models, Name),
    /// `,`, or what ends the models.
    ModelEnd(Models),
}

/// A helper up to its type.
#[derive(Drop)]
pub struct Signature {
    pub before: Module,
    pub context: Option<KindNode>,
    pub name: Name,
    pub params: Option<Items<Param>>,
}

/// In a helper.
#[derive(Drop)]
pub enum Helping {
    /// `context` or `def`
    Begun(Module),
    Context(Module),
    /// `:` behind `def`.
    DefColon(Module, Option<KindNode>),
    HelperName(Module, Option<KindNode>),
    /// `(` or `:` behind a helper's name.
    Named(Module, Option<KindNode>, Name),
    /// `:` behind parameters.
    ResultColon(Signature),
}

/// A rule, as far as it has been read, behind what stands before it.
#[derive(Drop)]
pub struct Draft {
    pub before: Module,
    pub rule: Rule,
}

/// Whose parameters are read: a helper's, with its context and name, or a rule's.
#[derive(Drop)]
pub enum Owner {
    OfHelper(Module, Option<KindNode>, Name),
    OfRule(Boxed<Draft>),
}

/// In parameters.
#[derive(Drop)]
pub enum Params {
    /// A parameter, or `)`.
    First(Owner),
    Further(Owner, Items<Param>),
    /// `:` behind a parameter.
    Colon(Owner, Items<Param>, Name),
}

/// A word before `rule`.
#[derive(Clone, Copy)]
pub enum Modifier {
    Abstract,
    Unique,
    Lazy,
}

/// The words before `rule`, whatever their order.
#[derive(Clone, Copy)]
pub struct Modifiers {
    pub is_abstract: bool,
    pub is_unique: bool,
    pub is_lazy: bool,
}

/// What stands before a rule's name: `rule` alone, or with words before it, or with `entrypoint` or `endpoint`.
#[derive(Clone, Copy)]
pub enum Form {
    Plain,
    Modified,
    Started,
}

/// Before a rule's `{`.
#[derive(Drop)]
pub enum Head {
    /// A word, or `rule`.
    Word(Module, Modifiers),
    /// `rule` behind `entrypoint` or `endpoint`.
    RuleWord(Module, RuleSort),
    RuleName(Module, Form, RuleSort, bool),
    /// `(`, `extends` or `{` behind a rule's name.
    RuleOpen(Form, Boxed<Draft>),
}

/// What is wanted in a rule.
#[derive(Clone, Copy)]
pub enum Point {
    Parent,
    /// `{` behind a parent's name.
    Brace,
    /// `)` behind the `(` of an entrypoint or endpoint rule.
    NoParams,
    /// `{` behind parameters.
    CalledBrace,
    From,
    Source,
    /// `,` or `(`, or whatever may follow the sources.
    SourceEnd,
    /// `using`, or whatever may follow.
    Rest,
    /// `{` behind `using`.
    Using,
    /// A variable, or `}`.
    Local,
    /// `to`, or whatever may follow.
    To,
    Target,
    /// `,`, or whatever may follow the targets.
    TargetEnd,
    /// `{` behind `do`.
    Do,
    /// `}` of a rule.
    RuleEnd,
}

/// Whose name a `:` is wanted behind.
#[derive(Clone, Copy)]
pub enum Colon {
    Source,
    Local,
    Target,
}

/// What a class is read for.
#[derive(Clone, Copy)]
pub enum Purpose {
    Source,
    Target,
}

/// A source or a target of that name, before its class.
#[derive(Drop)]
pub struct Classing {
    pub purpose: Purpose,
    pub draft: Boxed<Draft>,
    pub name: Name,
}

/// In a class.
#[derive(Drop)]
pub enum Class {
    Meta(Classing),
    Bang(Classing, Name),
    ClassName(Classing, Name),
}

/// What is wanted behind a target's class.
#[derive(Clone, Copy)]
pub enum TargetPoint {
    /// `(`, or whatever may follow a target.
    Binds,
    /// A binding, or `)`.
    FirstBind,
    Bind,
}

/// A block that is open, with the statements before its statement and what has been read of that.
#[derive(Drop)]
pub enum Outer {
    /// `if (condition) {`
    Branch(Statements, Expr),
    /// `if (condition) { statements } else {`
    Otherwise(Statements, Expr, Statements),
    /// `for (name in values) {`
    Each(Statements, Name, Expr),
}

/// In `do`, or in a block within: the blocks that are open, the innermost last, and the statements of the innermost.
#[derive(Drop)]
pub struct Block {
    pub draft: Boxed<Draft>,
    pub outer: Items<Outer>,
    pub stats: Statements,
}

/// How a statement begins, or that there is none.
#[derive(Clone, Copy)]
pub enum Opening {
    /// `}`
    Closes,
    /// `for`
    ForWord,
    /// `if`
    IfWord,
    Expression,
}

/// Among statements.
#[derive(Drop)]
pub enum Stating {
    /// A statement, or `}`.
    Statement(Block),
    /// Whatever may follow the `if` that begins a statement.
    If(Block, Place),
    /// `{` behind a condition.
    IfBrace(Block, Expr),
    /// `else`, or whatever may follow a statement.
    Else(Block, Expr, Statements),
    /// `{` behind `else`.
    ElseBrace(Block, Expr, Statements),
    /// `(` behind `for`.
    For(Block),
    ForName(Block),
    /// `in`
    ForIn(Block, Name),
    /// `{` behind the values of `for`.
    ForBrace(Block, Name, Expr),
}

/// What a type is read for.
#[derive(Drop)]
pub enum ForKind {
    Context(Module),
    Param(Owner, Items<Param>, Name),
    Outcome(Signature),
    Local(Boxed<Draft>, Name),
}

/// What an expression is read for.
#[derive(Drop)]
pub enum ForExpr {
    Body(Signature, KindNode),
    Guard(Boxed<Draft>),
    Local(Boxed<Draft>, Name, KindNode),
    Bind(Boxed<Draft>, Target, Name),
    Eval(Block),
    Assigned(Block, Expr, Name),
    Condition(Block),
    Values(Block, Name),
}

/// A type or an expression, as far as it has been read.
#[derive(Drop)]
pub struct Part {
    pub stack: Stack,
    pub next: NextInside,
}

/// Where reading stands.
pub enum Next {
    InHeader(Header),
    /// An item, or the end.
    Item(Module),
    InHelper(Helping),
    InParams(Params),
    /// A type, or more of it.
    InKind(Boxed<ForKind>, Part),
    /// An expression, or more of it.
    InExpr(Boxed<ForExpr>, Part),
    InHead(Head),
    InRule(Point, Boxed<Draft>),
    BeforeColon(Colon, Boxed<Draft>, Name),
    InClass(Class),
    InTarget(TargetPoint, Boxed<Draft>, Target),
    /// `<-` behind a feature.
    Gives(Boxed<Draft>, Target, Name),
    InBlock(Stating),
}

/// What a token leads to.
pub enum Move {
    Goes(Next),
    /// No module has the token there.
    Refuses,
    /// An expression begins at the place more than 200 deep.
    TooDeep(Place),
}
