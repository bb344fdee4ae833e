// Expressions, paths and statements.

use sqlite_items::{Boxed, Items};
use sx_span::Node;
use sx_types::Ty;

/// An operation on two values of type `Int`. It traps where the result doesn't fit, and `Divide`
/// and `Remainder` trap at a zero divisor.
#[derive(Clone, Copy, Debug, PartialEq, Eq)]
pub enum Arithmetic {
    Add,
    Subtract,
    Multiply,
    Divide,
    Remainder,
}

/// An operation on two values.
#[derive(Clone, Copy, Debug, PartialEq, Eq)]
pub enum Operator {
    Arithmetic(Arithmetic),
    Less,
    Greater,
    LessEqual,
    GreaterEqual,
    /// `==` of two values of type `Int`, or of type `Bool`.
    Equal,
    /// `!=` of two values of type `Int`, or of type `Bool`.
    NotEqual,
    /// `===` of two references.
    Same,
    /// `!==` of two references.
    NotSame,
}

/// The nodes of the accessors of a computed property, a computed global or a subscript.
#[derive(Clone, Copy, Debug, PartialEq, Eq)]
pub struct Accessors {
    pub getter: Node,
    pub setter: Option<Node>,
}

/// The nodes of the observers of a property or global. The function of a `didSet` has a parameter
/// exactly where it names one or mentions `oldValue`, so that it is given the old value.
#[derive(Clone, Copy, Debug, PartialEq, Eq)]
pub struct Observers {
    pub will_set: Option<Node>,
    pub did_set: Option<Node>,
}

/// An expression.
///
/// It is told by the number of its node. Where it isn't written, as the `self` of a member that is
/// named without a base, the count of all nodes is added to the number of the node that implies it.
#[derive(Drop)]
#[cycle(code)]
pub struct Expr {
    pub node: Node,
    /// The place where it starts.
    pub site: u32,
    pub ty: Ty,
    pub form: Form,
}

/// What an expression is.
#[derive(Drop)]
#[cycle(code)]
pub enum Form {
    /// An integer of at most 2^63 - 1.
    Int(u64),
    /// The integer -2^63, written with its minus.
    LeastInt,
    Bool(bool),
    /// An array with these elements. No text gives this form yet.
    Elements(Items<Expr>),
    /// A `let` of a block, a parameter that is passed by value, or the `self` of a body that
    /// doesn't mutate it, told by the node of its declaration: for `self` that of the type, for
    /// the parameter of an accessor or observer that of the accessor or observer.
    Constant(Node),
    /// A stored global declared with `let`.
    GlobalConstant(GlobalMention),
    /// A function that is taken as a value, told by the node of its declaration.
    Function(Node),
    /// A closure literal, told by its node.
    Closure(Node),
    /// An expression in round brackets.
    Bracketed(Boxed<Expr>),
    /// The value at a path.
    Read(Lvalue),
    /// A minus before an operand.
    Negate(Boxed<Expr>),
    /// `!` before an operand.
    Not(Boxed<Expr>),
    Operation(Operator, Boxed<Expr>, Boxed<Expr>),
    /// `&&`, which evaluates its right side only where the left one is true.
    And(Boxed<Expr>, Boxed<Expr>),
    /// `||`, which evaluates its right side only where the left one is false.
    Or(Boxed<Expr>, Boxed<Expr>),
    /// A call of a function, told by the node of its declaration.
    Call(Node, Items<Argument>),
    /// A call of a method, told by the node of its declaration, that doesn't mutate its base: a
    /// value of a structure, or a reference.
    CallMethod(Node, Boxed<Expr>, Items<Argument>),
    /// A call of a method, told by the node of its declaration, that mutates the structure at a
    /// path.
    CallMutating(Node, Lvalue, Items<Argument>),
    /// A call of a function value.
    CallValue(Boxed<Expr>, Items<Argument>),
    /// A call of the synthesised initialiser of the type, with the properties that are given, in
    /// their order.
    Initialise(Ty, Items<Given>),
    /// `print` of a value.
    Print(Boxed<Expr>),
    /// `print` of the text at this index of the texts.
    PrintText(u32),
}

/// A mention of a stored global.
#[derive(Drop)]
#[cycle(code)]
pub struct GlobalMention {
    pub global: u32,
    /// A `Bool` expression that is evaluated first, for what it does: where the global is a `let`
    /// right before its value, and otherwise before all that is prepared for the access. No text
    /// gives one yet.
    pub before: Option<Boxed<Expr>>,
}

/// An argument of a call.
#[derive(Drop)]
#[cycle(code)]
pub enum Argument {
    Value(Expr),
    /// The place of its `&`, and the path.
    InOut(u32, Lvalue),
    /// The place where it starts, and the path that is read for the whole call. No text gives this
    /// form yet.
    Borrowed(u32, Lvalue),
    /// A closure literal that is itself the argument for a parameter that doesn't escape, told by
    /// its node.
    Literal(Node),
}

/// The value of a stored property that an initialiser is given.
#[derive(Drop)]
#[cycle(code)]
pub struct Given {
    pub property: u32,
    pub value: Expr,
}

/// A path: a head and components that each lead further into it.
///
/// Its node is that of its last component, or of its head where it has none.
#[derive(Drop)]
#[cycle(code)]
pub struct Lvalue {
    pub node: Node,
    /// The place where it starts.
    pub site: u32,
    pub head: Head,
    pub components: Items<Component>,
}

/// Where a path begins. It is told as an expression is: a value that is no variable by the number
/// of the expression that gives it.
#[derive(Drop)]
#[cycle(code)]
pub struct Head {
    pub node: Node,
    pub ty: Ty,
    pub form: HeadForm,
}

/// What the head of a path is.
#[derive(Drop)]
#[cycle(code)]
pub enum HeadForm {
    /// A `var` of a block, an in-out parameter, or the `self` of a body that mutates a structure,
    /// told by the node of its declaration: for `self` that of the type.
    Variable(Node),
    /// A stored global declared with `var`, without observers or in them.
    Global(GlobalMention),
    GlobalObserved(GlobalMention, Observers),
    GlobalComputed(Accessors),
    /// A stored property of an object, without observers or in them.
    Property(Boxed<Expr>, u32),
    PropertyObserved(Boxed<Expr>, u32, Observers),
    PropertyComputed(Boxed<Expr>, Accessors),
    /// A subscript of an object, with its arguments.
    PropertySubscript(Boxed<Expr>, Items<Expr>, Accessors),
    /// A value that is no variable. It is only read.
    Evaluated(Boxed<Expr>),
}

/// What follows the head of a path.
#[derive(Drop)]
#[cycle(code)]
pub struct Component {
    pub node: Node,
    pub ty: Ty,
    pub form: ComponentForm,
}

/// What a component of a path is.
#[derive(Drop)]
#[cycle(code)]
pub enum ComponentForm {
    /// A stored property of a structure, without observers or in them.
    Field(u32),
    Observed(u32, Observers),
    Computed(Accessors),
    /// A subscript of a structure, with its arguments.
    Subscript(Items<Expr>, Accessors),
    /// An element of an array, with its index. No text gives this form yet.
    Element(Boxed<Expr>),
}

/// A `var` of a block.
#[derive(Clone, Copy, Debug, PartialEq, Eq)]
pub struct Local {
    pub node: Node,
    /// Its index in the names of the program.
    pub name: u32,
}

/// Statements that run one after another.
pub type Block = Items<Statement>;

/// A statement.
#[derive(Drop)]
#[cycle(blocks)]
pub struct Statement {
    /// The place where it starts.
    pub site: u32,
    pub form: StatementForm,
}

/// What a statement is.
#[derive(Drop)]
#[cycle(blocks)]
pub enum StatementForm {
    Expr(Expr),
    /// The declaration of a `let` of a block, with its node and its value.
    Constant(Node, Expr),
    /// The declaration of a `var` of a block, with its initial value.
    Local(Local, Expr),
    /// Storing the initial value of a stored global. A text gives this form at the outermost level
    /// only, but it may stand in any body.
    Global(u32, Expr),
    Assign(Lvalue, Expr),
    /// An assignment with an operator, as `+=`.
    Compound(Arithmetic, Lvalue, Expr),
    /// Without `else` the second block is empty. An `else if` is a block of one `if`.
    If(Expr, Block, Block),
    While(Expr, Block),
    /// `return`, or the one expression of a body that gives its value.
    Return(Option<Expr>),
    Break,
    Continue,
}
