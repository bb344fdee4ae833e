// What makes nodes in a tree.

ghost use Rattle.std.specs.Prelude.{◌≡◌};
ghost use Rattle.sx_nodes.specs.Pieces.{member, item};
ghost use Rattle.sx_nodes.specs.Pieces.{Piece as pieces};
ghost use Rattle.sx_nodes.specs.Stacks.{piece};

use sx_tree::{
    Accessor, Argument, Block, Closure, ClosureParameter, Expr, Function, Initialiser, Item, Link,
    Member, Name, Parameter, Statement, Subscript, TypeDeclaration, TypeParameter, Variable,
    WrittenType,
};

/// A part of a tree that makes nodes.
#[derive(Clone, Copy)]
pub enum Piece<'a> {
    Function(&'a Function),
    Declaration(&'a TypeDeclaration),
    Variable(&'a Variable),
    Subscript(&'a Subscript),
    Initialiser(&'a Initialiser),
    Accessor(&'a Accessor),
    Parameter(&'a Parameter),
    Written(&'a WrittenType),
    Name(Name),
    ClosureParameter(&'a ClosureParameter),
    Statement(&'a Statement),
    Block(&'a Block),
    Expression(&'a Expr),
    Argument(&'a Argument),
    /// A closure literal behind a call, as an argument.
    Trailing(&'a Closure),
    Closure(&'a Closure),
}

/// What stands in lists of a tree, and makes nodes there.
pub trait MakesNodes {
    ghost use Rattle.sx_nodes.specs.Pieces.{Piece};

    ghost stands_for: { Self → Piece };

    fn piece(&self) -> Piece<'_>
        ensures { piece result ≡ stands_for self.now };
}

impl MakesNodes for Accessor {
    ghost stands_for = { pieces.accessor };

    fn piece(&self) -> Piece<'_> {
        Piece::Accessor(self)
    }
}

impl MakesNodes for Argument {
    ghost stands_for = { pieces.argument };

    fn piece(&self) -> Piece<'_> {
        Piece::Argument(self)
    }
}

impl MakesNodes for ClosureParameter {
    ghost stands_for = { pieces.closure_parameter };

    fn piece(&self) -> Piece<'_> {
        Piece::ClosureParameter(self)
    }
}

impl MakesNodes for Expr {
    ghost stands_for = { pieces.expression };

    fn piece(&self) -> Piece<'_> {
        Piece::Expression(self)
    }
}

impl MakesNodes for Item {
    ghost stands_for = { item };

    fn piece(&self) -> Piece<'_> {
        match self {
            Item::Function(function) => Piece::Function(function),
            Item::Type(declaration) => Piece::Declaration(declaration),
            Item::Global(variable) => Piece::Variable(variable),
            Item::Statement(statement) => Piece::Statement(statement),
        }
    }
}

impl MakesNodes for Link {
    ghost use Rattle.sx_tree.specs.declared.code.Link.{out-Link};

    ghost stands_for = { λ l. pieces.expression (out-Link l).operand };

    fn piece(&self) -> Piece<'_> {
        Piece::Expression(&self.operand)
    }
}

impl MakesNodes for Member {
    ghost stands_for = { member };

    fn piece(&self) -> Piece<'_> {
        match self {
            Member::Property(variable) => Piece::Variable(variable),
            Member::Method(function) => Piece::Function(function),
            Member::Subscript(subscript) => Piece::Subscript(subscript),
            Member::Initialiser(initialiser) => Piece::Initialiser(initialiser),
        }
    }
}

impl MakesNodes for Name {
    ghost stands_for = { pieces.name };

    fn piece(&self) -> Piece<'_> {
        Piece::Name(*self)
    }
}

impl MakesNodes for Parameter {
    ghost stands_for = { pieces.parameter };

    fn piece(&self) -> Piece<'_> {
        Piece::Parameter(self)
    }
}

impl MakesNodes for Statement {
    ghost stands_for = { pieces.statement };

    fn piece(&self) -> Piece<'_> {
        Piece::Statement(self)
    }
}

impl MakesNodes for TypeParameter {
    ghost use Rattle.sx_tree.specs.declared.written_types.TypeParameter.{out-TypeParameter};

    ghost stands_for = { λ p. pieces.written (out-TypeParameter p).ty };

    fn piece(&self) -> Piece<'_> {
        Piece::Written(&self.ty)
    }
}
