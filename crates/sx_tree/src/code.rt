// Expressions and statements.

use crate::operators::{Assignment, BinaryOperator};
use crate::written_types::{Name, Signature, WrittenType};
use sqlite_items::{Boxed, Items};
use sx_span::Span;

/// An expression and its bytes.
#[derive(Drop)]
#[cycle(code)]
pub struct Expr {
    pub span: Span,
    pub form: ExprForm,
}

/// What an expression is.
#[derive(Drop)]
#[cycle(code)]
pub enum ExprForm {
    /// An integer of at most 2^63 - 1.
    Int(u64),
    /// The integer -2^63, written with its minus.
    LeastInt,
    Bool(bool),
    /// A name, with a trailing closure where it is called with one alone.
    Named(u32, Option<Closure>),
    /// `self`
    SelfWord,
    /// An expression in round brackets.
    Bracketed(Boxed<Expr>),
    /// `print` of the text at this index of the texts.
    PrintText(u32),
    /// A minus before an operand.
    Negate(Boxed<Expr>),
    /// `!` before an operand.
    Not(Boxed<Expr>),
    /// A first operand and at least one further operand, behind operators of one level.
    Chain(Boxed<Expr>, Items<Link>),
    /// An operand with at least one part behind it.
    Postfix(Boxed<Expr>, Items<Part>),
    Closure(Closure),
    /// An array with these elements. No text gives this form yet.
    Array(Items<Expr>),
}

/// A further operand of a chain.
#[derive(Drop)]
#[cycle(code)]
pub struct Link {
    pub operator: BinaryOperator,
    pub operand: Expr,
}

/// A part behind an operand, with the place where it ends.
#[derive(Drop)]
#[cycle(code)]
pub enum Part {
    /// A member, with a trailing closure where it is called with one alone.
    Member(u32, Name, Option<Closure>),
    /// The arguments of a subscript, at least one.
    Index(u32, Items<Expr>),
    /// The arguments of a call, with a trailing closure as the last.
    Call(u32, Items<Argument>, Option<Closure>),
}

/// An argument of a call, which starts at its label where it has one.
#[derive(Drop)]
#[cycle(code)]
pub struct Argument {
    pub span: Span,
    pub label: Option<Name>,
    /// The place of the `&` of an in-out argument.
    pub ampersand: Option<u32>,
    pub value: Expr,
}

/// A closure literal, from its `{` to its `}`.
#[derive(Drop)]
#[cycle(code)]
pub struct Closure {
    pub span: Span,
    pub signature: Signature,
    pub body: Items<Statement>,
}

/// A statement, or the declaration of a local, and its bytes.
#[derive(Drop)]
#[cycle(code)]
pub struct Statement {
    pub span: Span,
    pub form: StatementForm,
}

/// What a statement is.
#[derive(Drop)]
#[cycle(code)]
pub enum StatementForm {
    Expr(Expr),
    Assign(Assignment, Expr, Expr),
    If(Expr, Block, Else),
    While(Expr, Block),
    Return(Option<Expr>),
    Break,
    Continue,
    Local(Local),
}

/// What follows the block of an `if`.
#[derive(Drop)]
#[cycle(code)]
pub enum Else {
    Absent,
    Block(Block),
    /// The `if` of an `else if`, a statement of the form `If`.
    ElseIf(Boxed<Statement>),
}

/// A block, from its `{` to its `}`.
#[derive(Drop)]
#[cycle(code)]
pub struct Block {
    pub span: Span,
    pub statements: Items<Statement>,
}

/// The declaration of a local with `let`, a constant, or `var`.
#[derive(Drop)]
#[cycle(code)]
pub struct Local {
    pub constant: bool,
    pub name: Name,
    pub ty: Option<WrittenType>,
    pub value: Expr,
}
