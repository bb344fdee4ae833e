// A program: its types, globals, functions and initialisers.

ghost use Rattle.std.specs.Option.{option_copied};
ghost use Rattle.std.specs.Prelude.{◌≡◌, ◌↔◌, IsTrue, MatchResult, None, slice_get};
ghost use Rattle.sx_typed.specs.Functions.{RiseByNode, function_at};
ghost use Rattle.sx_typed.specs.Observed.{IsInPlace, TakesNothing};

use crate::code::{Block, Expr, Observers};
use sqlite_items::Items;
use sx_span::Node;
use sx_types::{Ty, Types};

/// How an argument is passed to a parameter.
#[derive(Clone, Copy, Debug, PartialEq, Eq)]
pub enum Marker {
    /// By value. A function that is passed so doesn't escape.
    Plain,
    /// By the path of a variable, which is modified for the whole call.
    InOut,
    /// By value, and a function that may be kept.
    Escaping,
    /// By the path of a variable, which is read for the whole call. No text gives this marker yet.
    Borrowing,
}

/// A parameter of a function.
#[derive(Clone, Copy, Debug, PartialEq, Eq)]
pub struct Parameter {
    /// The node that declares it: for a parameter of an accessor or observer, which is no node,
    /// that of the accessor or observer, and for one of a synthesised initialiser that of the
    /// property.
    pub node: Node,
    /// Its index in the names of the program, or `None` where it isn't written.
    pub name: Option<u32>,
    pub marker: Marker,
    pub ty: Ty,
}

/// What a function is.
#[derive(Clone, Copy, Debug, PartialEq, Eq)]
pub enum FunctionKind {
    Function,
    Method,
    /// A method that mutates its structure.
    MutatingMethod,
    Getter,
    Setter,
    WillSet,
    DidSet,
    /// A synthesised initialiser. Its parameters are the stored properties, and its body is empty:
    /// it stores what it is given, and the defaults of the other properties, in their order.
    Initialiser,
    /// No text gives this kind yet.
    WrittenInitialiser,
    Closure {
        /// Whether it is not itself the argument for a parameter that doesn't escape.
        escaping: bool,
    },
}

/// What a closure literal mentions and doesn't declare.
#[derive(Clone, Copy, Debug, PartialEq, Eq, Hash)]
pub enum Mention {
    /// A `let` of a block, a parameter that is passed by value, or the `self` of a body that
    /// doesn't mutate it, with its type.
    Constant(Node, Ty),
    /// A `var` of a block.
    Variable(Node),
    /// An in-out parameter, or the `self` of a body that mutates a structure.
    InOut(Node),
}

/// A function, an accessor or observer, an initialiser or a closure literal.
#[derive(Drop)]
pub struct Function {
    pub kind: FunctionKind,
    /// The node of its declaration or literal: for a synthesised initialiser that of its type.
    pub node: Node,
    /// The structure or class of which it is a member or an initialiser.
    pub owner: Option<Ty>,
    pub parameters: Items<Parameter>,
    pub result: Ty,
    pub body: Block,
    /// What a closure literal mentions and doesn't declare, itself or by the literals in it, in the
    /// order of the first mentions. Other functions mention nothing so.
    pub mentions: Items<Mention>,
}

/// A written initialiser. No text gives one yet.
#[derive(Clone, Copy, Debug, PartialEq, Eq)]
pub struct WrittenInitialiser {
    /// The node of its function.
    pub function: Node,
    /// How many statements of its body come before each stored property without a default has been
    /// stored, with the statement that stores the last of them.
    pub storing: u32,
}

/// A stored global.
#[derive(Clone, Copy, Debug, PartialEq, Eq)]
pub struct Global {
    pub node: Node,
    /// Its index in the names of the program.
    pub name: u32,
    pub ty: Ty,
    /// Whether it is declared with `let`.
    pub constant: bool,
}

/// A stored property.
#[derive(Drop)]
pub struct Property {
    pub node: Node,
    pub ty: Ty,
    pub default: Option<Expr>,
}

/// A structure or class with its stored properties in the order of the text.
#[derive(Drop)]
pub struct TypeDeclaration {
    pub node: Node,
    pub stored: Items<Property>,
}

/// A program whose names and types are settled. Globals and types are told by their numbers in
/// these lists, and functions and locals by their nodes.
#[derive(Drop)]
pub struct Typed {
    pub types: Types,
    /// The structures, in the order of those in `types`.
    pub structures: Items<TypeDeclaration>,
    /// The classes, in the order of those in `types`.
    pub classes: Items<TypeDeclaration>,
    /// The stored globals in the order of the text.
    pub globals: Items<Global>,
    /// The functions in the order of their nodes.
    pub functions: Items<Function>,
    /// The code at the outermost level.
    pub top: Block,
    pub initialisers: Items<WrittenInitialiser>,
    /// The `var`s of blocks, in the order of their nodes.
    pub locals: Items<Node>,
    /// What the text literals stand for: bytes in UTF-8.
    pub texts: Vec<Vec<u8>>,
    /// The names, each once.
    pub names: Vec<Vec<u8>>,
    /// The places at which the lines of the text start.
    pub lines: Vec<u32>,
    /// For each node, the place where its faults stand.
    pub places: Vec<u32>,

    pub ghost in_order: { RiseByNode functions },
}

impl Typed {
    /// The function with this node, or `None` where there is none.
    pub fn function(&self, node: Node) -> Option<&Function>
        ensures { option_copied result ≡ function_at self.now.functions node }
    {
        match self.place_of(node) {
            Ok(at) => self.functions.get(at),
            Err(_) => None,
        }
    }

    /// Where the function with this node stands, or an error where there is none.
    fn place_of(&self, node: Node) -> Result<usize, usize>
        ensures { MatchResult result (λ at. slice_get self.now.functions at ≡ function_at self.now.functions node) (λ _. None ≡ function_at self.now.functions node) }
    {
        self.functions
            .as_slice()
            .binary_search_by_key(&node.0, |function| function.node.0)
    }

    /// Whether a property or global with these observers is modified in its place, with a call of
    /// `didSet` behind. It is otherwise modified in a temporary, from which it is then set.
    pub fn is_in_place(&self, observers: Observers) -> bool
        ensures { IsTrue result ↔ IsInPlace self.now.functions observers }
    {
        observers.will_set.is_none()
            && match observers.did_set {
                Some(node) => self.takes_nothing(node),
                None => true,
            }
    }

    fn takes_nothing(&self, node: Node) -> bool
        ensures { IsTrue result ↔ TakesNothing self.now.functions node }
    {
        match self.function(node) {
            Some(function) => function.parameters.is_empty(),
            None => false,
        }
    }
}

/// How the locals of a program are stored.
#[derive(Drop)]
pub struct Kinds {
    /// For each of the locals of the program, in their order, whether it stands in a box, since a
    /// closure that may be kept mentions it.
    pub boxed: Vec<bool>,
}
