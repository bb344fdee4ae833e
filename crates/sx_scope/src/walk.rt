// What a walk over a tree knows where it stands.

ghost use Rattle.std.specs.Prelude.{◌≡◌, ◌+◌, ◌<◌, ◌^◌, IfErr, IfOk, OnOk};
ghost use Rattle.sx_scope.specs.Verdict.{Answers, fault};
ghost use Rattle.sx_scope.specs.Walks.{advanced, node};
ghost use Rattle.sx_scope.specs.declared.stop.TypeStop.TheVariants.{NoMemory};

use crate::declarations::Known;
use crate::stack::Stack;
use crate::stop::{TypeKind, TypeStop};
use sx_span::Node;
use sx_typed::{Expr, Function, Mention};
use sx_types::Ty;

/// How a local may be used.
#[derive(Clone, Copy)]
pub enum LocalKind {
    /// A `let`, or a parameter that is passed by value.
    Constant,
    /// A `var`.
    Variable,
    /// An in-out parameter.
    InOut,
}

/// A declaration of a body that is in scope: a local or a parameter.
#[derive(Clone, Copy)]
pub struct Local {
    pub name: u32,
    /// The node that declares it: for a parameter of an accessor or observer, which is no node,
    /// that of the accessor or observer.
    pub node: Node,
    pub kind: LocalKind,
    pub known: Known,
    /// Whether it is a function that is passed for one call and may not be kept.
    pub lent: bool,
}

/// How far a walk over a tree is. It goes in the order of the nodes.
#[derive(Drop)]
pub struct Walk {
    /// The number of the next node.
    pub next: u32,
    /// The locals in scope, from outside in.
    pub locals: Stack<Local>,
    /// What has been mentioned of locals and `self`, in order.
    pub mentions: Stack<Mention>,
    /// The closure literals so far, in the order of their nodes.
    pub literals: Stack<Function>,
}

impl Walk {
    /// Takes the next node.
    pub fn take_node(&mut self) -> Result<Node, TypeStop>
        ensures walk { OnOk result (self.new ≡ advanced 1 self.old) }
        ensures node { IfOk result (λ n. n ≡ node self.old.next) }
        ensures stop { IfErr result (λ e. e ≡ NoMemory) }
    {
        let node = Node(self.next);
        self.next = match self.next.checked_add(1) {
            Some(next) => next,
            None => return Err(TypeStop::NoMemory),
        };
        Ok(node)
    }

    /// Takes so many nodes, and tells the first.
    pub fn take_nodes(&mut self, count: usize) -> Result<u32, TypeStop>
        ensures walk { OnOk result (self.new ≡ advanced count self.old) }
        ensures node { IfOk result (λ n. n ≡ self.old.next) }
        ensures room { IfOk result (λ n. n + count < 2 ^ 32) }
        ensures stop { IfErr result (λ e. e ≡ NoMemory) }
    {
        let first = self.next;
        let Ok(count) = u32::try_from(count) else {
            return Err(TypeStop::NoMemory);
        };
        self.next = match first.checked_add(count) {
            Some(next) => next,
            None => return Err(TypeStop::NoMemory),
        };
        Ok(first)
    }

    /// What is found where a node breaks this condition, and none before it.
    pub fn fails<T>(&self, kind: TypeKind, node: Node) -> Result<Found<T>, TypeStop>
        ensures { Answers result self.now (fault kind node self.now) }
    {
        Err(TypeStop::Typing(kind, node))
    }
}

/// The `self` of a body.
#[derive(Clone, Copy)]
pub struct SelfValue {
    pub ty: Ty,
    /// Whether it is a structure that the body may modify.
    pub mutable: bool,
}

/// What a body gives.
#[derive(Clone, Copy)]
pub enum Gives {
    /// The code of the outermost level is no body.
    Nothing,
    /// A type that isn't known.
    Unknown,
    Type(Ty),
}

/// Where a part of a tree stands.
#[derive(Clone, Copy)]
pub struct Place {
    /// The type whose members are found by their names alone.
    pub members_of: Option<Ty>,
    pub this: Option<SelfValue>,
    /// The property or global whose observers it stands in.
    pub observed: Option<Node>,
    pub gives: Gives,
    pub in_loop: bool,
    /// The outermost declaration that it gives a type to.
    pub giving: Option<Node>,
    /// How many of the locals stand outside the innermost block.
    pub outside_block: usize,
    /// How many of the locals stand outside the innermost closure literal that may be kept.
    pub outside_kept: usize,
    /// Whether it stands in such a literal.
    pub in_kept: bool,
}

/// What is asked of an expression.
#[derive(Clone, Copy)]
pub enum Asked {
    Nothing,
    /// Something that isn't known.
    Unknown,
    /// `Int` or `Bool`.
    Printable,
    Type(Ty),
}

/// What happens to the value of an expression.
#[derive(Clone, Copy)]
pub enum Use {
    /// It may be kept.
    Kept,
    /// It is called.
    Called,
    /// It is passed for a parameter that doesn't escape.
    Lent,
    /// It is an argument, and nothing tells for which parameter.
    Unpaired,
    /// It is a path that is modified.
    Modified,
}

/// What is found at a part of a tree in which no node fails.
#[derive(Drop)]
pub enum Found<T> {
    Typed(T),
    /// It hangs on the type of a literal's parameter that nothing tells.
    Untold,
    /// It depends on a declaration that has failed.
    Depends,
}

/// What is called.
#[derive(Drop)]
pub enum Callee {
    /// A function, by its number.
    Function(u32),
    /// A method, by its number, of a value.
    Method(u32, Expr),
    /// A function value, and the number of its type.
    Value(Expr, u32),
    /// The initialiser of a structure or class.
    Initialiser(Ty),
    Print,
}

/// What is judged of an expression: what it is, or the first node in it that fails.
pub type Judged = Result<Found<Expr>, TypeStop>;

/// What is judged of what is called.
pub type JudgedCallee = Result<Found<Callee>, TypeStop>;
