// The nodes that a piece makes itself.

ghost use Rattle.std.specs.Prelude.{◌≡◌, ◌<◌, ◌∷◌, [], IfOk, length, map, Some, None, slice_get, suc, take};
ghost use Rattle.sx_nodes.specs.Own.{Stands};
ghost use Rattle.sx_nodes.specs.Pieces.{a_front, fronts, own, part_fronts, uncalled, front_forms};
ghost use Rattle.sx_nodes.specs.Pieces.{Piece as pieces};
ghost use Rattle.sx_nodes.specs.Stacks.{piece};
ghost use Rattle.sx_tree.specs.declared.code.ExprForm.{out-ExprForm};

use crate::code::Code;
use crate::copies::{
    copy_block, copy_boxed, copy_closure, copy_form, copy_links, copy_parts, copy_statement,
};
use crate::pieces::Piece;
use sqlite_items::Boxed;
use std::alloc::{AllocError, Global};
use sx_span::Span;
use sx_tree::{Closure, Expr, ExprForm, Link, Part};

/// What a number stands for among the nodes that a piece makes itself.
#[derive(Drop)]
pub enum Own {
    /// The code of such a node, if it is code.
    Is(Option<Code>),
    /// A node behind them, with its number from there on.
    Past(usize),
}

/// What a number stands for among the nodes that a piece makes itself.
pub fn own_code(alloc: Global, outer: Piece<'_>, at: usize) -> Result<Own, AllocError>
    ensures { IfOk result (Stands (own (piece outer.entry)) at) }
{
    match outer {
        Piece::Statement(statement) => match at.checked_sub(1) {
            Some(behind) => Ok(Own::Past(behind)),
            None => Ok(Own::Is(Some(Code::Statement(copy_statement(alloc, statement)?)))),
        },
        Piece::Block(block) => match at.checked_sub(1) {
            Some(behind) => Ok(Own::Past(behind)),
            None => Ok(Own::Is(Some(Code::Block(copy_block(alloc, block)?)))),
        },
        Piece::Expression(expr) => own_of_form(alloc, expr.span, &expr.form, at),
        Piece::Closure(closure) => own_of_closure(alloc, closure, at),
        Piece::Function(_)
        | Piece::Declaration(_)
        | Piece::Variable(_)
        | Piece::Subscript(_)
        | Piece::Initialiser(_)
        | Piece::Accessor(_)
        | Piece::Parameter(_)
        | Piece::Written(_)
        | Piece::Name(_)
        | Piece::ClosureParameter(_)
        | Piece::Argument(_)
        | Piece::Trailing(_) => Ok(no_code(at)),
    }
}

/// One node that is no code.
fn no_code(at: usize) -> Own
    ensures { Stands (None ∷ []) at result }
{
    match at.checked_sub(1) {
        Some(behind) => Own::Past(behind),
        None => Own::Is(None),
    }
}

fn own_of_closure(alloc: Global, closure: &Closure, at: usize) -> Result<Own, AllocError>
    ensures { IfOk result (Stands (own (pieces.closure closure.now)) at) }
{
    match at.checked_sub(1) {
        Some(behind) => Ok(Own::Past(behind)),
        None => {
            let form = ExprForm::Closure(copy_closure(alloc, closure)?);
            Ok(Own::Is(an_expression(closure.span, form)))
        }
    }
}

/// An expression of these bytes.
fn an_expression(span: Span, form: ExprForm) -> Option<Code>
    ensures { result ≡ a_front span form }
{
    Some(Code::Expression(Expr { span, form }))
}

/// The nodes of an expression that starts where its operands do.
fn own_of_form(alloc: Global, span: Span, form: &ExprForm, at: usize) -> Result<Own, AllocError>
    ensures { IfOk result (Stands (map (a_front span) (front_forms form.now (out-ExprForm form.now))) at) }
{
    match form {
        ExprForm::Named(name, closure) => match closure {
            Some(_) => own_of_call(alloc, span, form, *name, at),
            None => own_alone(alloc, span, form, at),
        },
        ExprForm::Chain(first, links) => own_of_chain(alloc, span, first, links.as_slice(), at),
        ExprForm::Postfix(first, parts) => own_of_parts(alloc, span, first, parts.as_slice(), at),
        ExprForm::Int(_)
        | ExprForm::LeastInt
        | ExprForm::Bool(_)
        | ExprForm::SelfWord
        | ExprForm::Bracketed(_)
        | ExprForm::PrintText(_)
        | ExprForm::Negate(_)
        | ExprForm::Not(_)
        | ExprForm::Closure(_)
        | ExprForm::Array(_) => own_alone(alloc, span, form, at),
    }
}

/// An expression that makes one node.
fn own_alone(alloc: Global, span: Span, form: &ExprForm, at: usize) -> Result<Own, AllocError>
    ensures { IfOk result (Stands (a_front span form.now ∷ []) at) }
{
    match at.checked_sub(1) {
        Some(behind) => Ok(Own::Past(behind)),
        None => Ok(Own::Is(an_expression(span, copy_form(alloc, form)?))),
    }
}

/// A name that is called with a closure literal alone.
fn own_of_call(
    alloc: Global,
    span: Span,
    form: &ExprForm,
    name: u32,
    at: usize,
) -> Result<Own, AllocError>
    ensures { IfOk result (Stands (a_front span form.now ∷ a_front span (ExprForm.Named name None) ∷ []) at) }
{
    match at.checked_sub(1) {
        None => Ok(Own::Is(an_expression(span, copy_form(alloc, form)?))),
        Some(behind) => match behind.checked_sub(1) {
            None => Ok(Own::Is(an_expression(span, ExprForm::Named(name, None)))),
            Some(behind) => Ok(Own::Past(behind)),
        },
    }
}

/// The fronts of a chain.
fn own_of_chain(
    alloc: Global,
    span: Span,
    first: &Boxed<Expr>,
    links: &[Link],
    at: usize,
) -> Result<Own, AllocError>
    ensures { IfOk result (Stands (map (a_front span) (map (λ front. ExprForm.Chain first.now front) (fronts (length links.now) links.now))) at) }
{
    match at.checked_sub(links.len()) {
        Some(behind) => Ok(Own::Past(behind)),
        None => {
            let first = copy_boxed(alloc, first)?;
            let links = copy_links(alloc, &links[..links.len() - at])?;
            Ok(Own::Is(an_expression(span, ExprForm::Chain(first, links))))
        }
    }
}

/// The fronts of parts behind an operand.
fn own_of_parts(
    alloc: Global,
    span: Span,
    first: &Boxed<Expr>,
    parts: &[Part],
    at: usize,
) -> Result<Own, AllocError>
    ensures { IfOk result (Stands (map (a_front span) (map (λ front. ExprForm.Postfix first.now front) (part_fronts (length parts.now) parts.now))) at) }
{
    let mut left = at;
    let mut count = parts.len();
    'fronts: while count > 0 {
        count -= 1;
        match own_of_front(alloc, span, first, parts, count, left)? {
            Own::Is(code) => return Ok(Own::Is(code)),
            Own::Past(behind) => left = behind,
        }
    }
    Ok(Own::Past(left))
}

/// The front up to a part: where that is a member that is called with a closure literal alone, the call and the member.
fn own_of_front(
    alloc: Global,
    span: Span,
    first: &Boxed<Expr>,
    parts: &[Part],
    last: usize,
    at: usize,
) -> Result<Own, AllocError>
    requires { last < length parts.now }
    ensures { IfOk result (Stands (map (a_front span) (map (λ front. ExprForm.Postfix first.now front) (take (suc last) parts.now ∷ uncalled (take last parts.now) (slice_get parts.now last)))) at) }
{
    match at.checked_sub(1) {
        Some(behind) => own_of_member(alloc, span, first, &parts[..last], &parts[last], behind),
        None => {
            let first = copy_boxed(alloc, first)?;
            let parts = copy_parts(alloc, &parts[..last + 1])?;
            Ok(Own::Is(an_expression(span, ExprForm::Postfix(first, parts))))
        }
    }
}

/// The member, where a part is one that is called with a closure literal alone.
fn own_of_member(
    alloc: Global,
    span: Span,
    first: &Boxed<Expr>,
    before: &[Part],
    part: &Part,
    at: usize,
) -> Result<Own, AllocError>
    ensures { IfOk result (Stands (map (a_front span) (map (λ front. ExprForm.Postfix first.now front) (uncalled before.now (Some part.now)))) at) }
{
    let Part::Member(end, name, Some(_)) = part else {
        return Ok(Own::Past(at));
    };
    match at.checked_sub(1) {
        Some(behind) => Ok(Own::Past(behind)),
        None => {
            let first = copy_boxed(alloc, first)?;
            let mut parts = copy_parts(alloc, before)?;
            parts.push(Part::Member(*end, *name, None))?;
            Ok(Own::Is(an_expression(span, ExprForm::Postfix(first, parts))))
        }
    }
}
