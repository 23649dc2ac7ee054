// What is open while an expression is read, and what may come next.
use atl_base::place::Place;
use atl_tree::expr::{BinaryOp, Expr, UnaryOp};
use atl_tree::kind::{CollWord, KindNode};
use atl_tree::name::Name;
use sqlite_items::{Boxed, Items};

/// A call up to its `(`: `source.name(`, or `source->name(` where `arrow` is true.
#[derive(Drop)]
pub struct Callee {
    pub source: Boxed<Expr>,
    pub arrow: bool,
    pub name: Name,
}

/// A construct that is open, with what has been read of it.
#[derive(Drop)]
pub enum Frame {
    /// `(`
    Round,
    /// A call, and the arguments before the last comma.
    Arguments(Callee, Items<Expr>),
    /// `source->iterator(variable |`
    Body(Callee, Name),
    /// `source->iterate(variable; result : type =`
    Start(Callee, Name, Name, KindNode),
    /// `source->iterate(variable; result : type = start |`
    Fold(Callee, Name, Name, KindNode, Boxed<Expr>),
    /// A collection, and the elements before the last comma.
    Elements(CollWord, Place, Items<Expr>),
    /// `if`
    Condition(Place),
    /// `if condition then`
    Then(Place, Boxed<Expr>),
    /// `if condition then expression else`
    Else(Place, Boxed<Expr>, Boxed<Expr>),
    /// `let name : type =`
    Value(Place, Name, KindNode),
    /// `let name : type = value in`
    Within(Place, Name, KindNode, Boxed<Expr>),
    /// An operator before its operand.
    Unary(UnaryOp, Place),
    /// An operator behind its left operand.
    Left(Boxed<Expr>, Place, BinaryOp),
    /// `let name :`
    LetKind(Place, Name),
    /// `source->iterate(variable; result :`
    OutcomeKind(Callee, Name, Name),
    /// A type, `Sequence(` or the like.
    CollKind(CollWord, Place),
}

/// What may come next.
#[derive(Drop)]
pub enum Next {
    /// An operand.
    Operand,
    /// An argument, or `)`.
    Argument(Callee),
    /// Whatever may follow the first name in the parentheses of an arrow's call: it is a variable, or begins an argument.
    First(Callee, Name),
    /// Whatever may follow a name: it is a variable, or a metamodel's.
    Word(Name),
    /// The name of a class, behind `!`.
    ClassName(Name),
    /// A name, behind `#`.
    Literal(Place),
    /// The `{` of a collection.
    Brace(CollWord, Place),
    /// An element, or `}`.
    Element(CollWord, Place),
    /// The variable of a `let`.
    LetName(Place),
    LetColon(Place, Name),
    /// The second variable of `iterate`.
    OutcomeName(Callee, Name),
    OutcomeColon(Callee, Name, Name),
    /// A type.
    Kind,
    /// The `(` of a type.
    KindOpen(CollWord, Place),
    /// The `!` of a type.
    KindBang(Name),
    /// The class of a type, behind its `!`.
    KindClass(Name),
    /// Whatever may follow a type.
    HaveKind(KindNode),
    /// A name, behind a dot.
    Feature(Boxed<Expr>),
    /// Whatever may follow a dot and a name.
    Named(Boxed<Expr>, Name),
    /// A name, behind an arrow.
    ArrowName(Boxed<Expr>),
    /// The `(` behind an arrow and a name.
    ArrowOpen(Boxed<Expr>, Name),
    /// Whatever may follow an operand.
    Have(Expr),
}

/// What a symbol leads to.
#[derive(Drop)]
pub enum Move {
    Goes(Next),
    /// The symbol follows the operand, and goes on with none of what is open.
    Stops(Expr),
    /// No expression has the symbol there, and none ends before it.
    Refuses,
    /// An expression begins at the place more than 200 deep.
    TooDeep(Place),
}
