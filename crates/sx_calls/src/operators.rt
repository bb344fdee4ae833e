// Operators.

ghost use Rattle.std.specs.Prelude.{◌≡◌};
ghost use Rattle.sx_calls.specs.Operators as operators;
ghost use Rattle.sx_scope.specs.Verdict.{Answers, typed_part};

use crate::conditions::where_holds;
use sqlite_items::Boxed;
use std::alloc::Global;
use sx_scope::{Asked, Found, Judged, TypeKind, Walk, is_agreed};
use sx_span::Node;
use sx_tree::BinaryOperator;
use sx_typed::{Arithmetic, Expr, Form, Operator};
use sx_types::Ty;

/// What an operator asks of its left operand.
pub fn left_asked(operator: BinaryOperator) -> Asked
    ensures { result ≡ operators.left_asked operator }
{
    match operator {
        BinaryOperator::Or | BinaryOperator::And => Asked::Type(Ty::Bool),
        BinaryOperator::Equal
        | BinaryOperator::NotEqual
        | BinaryOperator::Same
        | BinaryOperator::NotSame => Asked::Nothing,
        _ => Asked::Type(Ty::Int),
    }
}

/// What an operator asks of its right operand, by what is found on its left.
pub fn right_asked(operator: BinaryOperator, left: &Found<Expr>) -> Asked
    ensures { result ≡ operators.right_asked operator (typed_part left.now) }
{
    match operator {
        BinaryOperator::Equal
        | BinaryOperator::NotEqual
        | BinaryOperator::Same
        | BinaryOperator::NotSame => asked_by(left),
        _ => left_asked(operator),
    }
}

/// What one side asks of the other, where both must have one type.
pub fn asked_by(left: &Found<Expr>) -> Asked
    ensures { result ≡ operators.asked_by (typed_part left.now) }
{
    match left {
        Found::Typed(left) => Asked::Type(left.ty),
        Found::Untold | Found::Depends => Asked::Unknown,
    }
}

/// A left operand, which fails where it doesn't fit the operator.
pub fn left_fitting(walk: &Walk, operator: BinaryOperator, left: Expr) -> Judged
    ensures { Answers result walk.now (operators.left_fitting operator left walk.now) }
{
    let fits = fits_left(operator, left.ty);
    where_holds(walk, fits, TypeKind::Mismatch, left.node, left)
}

/// Whether a left operand of this type, of which nothing was asked, may stand before the operator.
fn fits_left(operator: BinaryOperator, ty: Ty) -> bool
    ensures { result ≡ operators.fits_left operator ty }
{
    match operator {
        BinaryOperator::Equal | BinaryOperator::NotEqual => matches!(ty, Ty::Int | Ty::Bool),
        BinaryOperator::Same | BinaryOperator::NotSame => matches!(ty, Ty::Class(_)),
        _ => true,
    }
}

/// The operation on two operands.
pub fn operated(
    alloc: Global,
    walk: &Walk,
    operator: BinaryOperator,
    node: Node,
    site: u32,
    left: Expr,
    right: Expr,
) -> Judged
    ensures { Answers result walk.now (operators.operated operator node site (left, right) walk.now) }
{
    let left = Boxed::new(alloc, left)?;
    let right = Boxed::new(alloc, right)?;
    Ok(Found::Typed(Expr {
        node,
        site,
        ty: result_of(operator),
        form: operation(operator, left, right),
    }))
}

fn result_of(operator: BinaryOperator) -> Ty
    ensures { result ≡ operators.result_of operator }
{
    match operator {
        BinaryOperator::Add
        | BinaryOperator::Subtract
        | BinaryOperator::Multiply
        | BinaryOperator::Divide
        | BinaryOperator::Remainder => Ty::Int,
        _ => Ty::Bool,
    }
}

fn operation(operator: BinaryOperator, left: Boxed<Expr>, right: Boxed<Expr>) -> Form
    ensures { result ≡ operators.operation operator left right }
{
    let operator = match operator {
        BinaryOperator::Or => return Form::Or(left, right),
        BinaryOperator::And => return Form::And(left, right),
        BinaryOperator::Less => Operator::Less,
        BinaryOperator::Greater => Operator::Greater,
        BinaryOperator::LessEqual => Operator::LessEqual,
        BinaryOperator::GreaterEqual => Operator::GreaterEqual,
        BinaryOperator::Equal => Operator::Equal,
        BinaryOperator::NotEqual => Operator::NotEqual,
        BinaryOperator::Same => Operator::Same,
        BinaryOperator::NotSame => Operator::NotSame,
        BinaryOperator::Add => Operator::Arithmetic(Arithmetic::Add),
        BinaryOperator::Subtract => Operator::Arithmetic(Arithmetic::Subtract),
        BinaryOperator::Multiply => Operator::Arithmetic(Arithmetic::Multiply),
        BinaryOperator::Divide => Operator::Arithmetic(Arithmetic::Divide),
        BinaryOperator::Remainder => Operator::Arithmetic(Arithmetic::Remainder),
    };
    Form::Operation(operator, left, right)
}

/// What is given, where it agrees with what is asked.
pub fn give(walk: &Walk, node: Node, asked: Asked, value: Expr) -> Judged
    ensures { Answers result walk.now (operators.given node asked value walk.now) }
{
    let agrees = is_agreed(asked, value.ty);
    where_holds(walk, agrees, TypeKind::Mismatch, node, value)
}
