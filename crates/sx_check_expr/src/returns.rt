// `return` statements.

ghost use Rattle.std.specs.Prelude.{◌≡◌, Some, None, option_map};
ghost use Rattle.sx_bodies.specs.Statements as bodies;
ghost use Rattle.sx_check_expr.specs.Deeper.{JudgesExprs};
ghost use Rattle.sx_check_expr.specs.Judge.{judged_expr};
ghost use Rattle.sx_scope.specs.Verdict.{Answers, ◌▷◌, fault, found};
ghost use Rattle.sx_scope.specs.declared.walk.Asked.TheVariants as asks;
ghost use Rattle.sx_scope.specs.declared.walk.Use.TheVariants as uses;

use crate::deeper::{JudgedStatement, judge_expr};
use sx_scope::{Asked, Declarations, Found, Gives, Judged, Place, TypeKind, Use, Walk, is_void};
use sx_span::Node;
use sx_tree::Expr;
use sx_typed::{Statement, StatementForm};

/// A `return`, with its value if it has one.
pub(crate) fn return_statement<E: Fn(&mut Walk, Place, Asked, Use, &Expr) -> Judged>(
    declarations: &Declarations,
    exprs: &E,
    walk: &mut Walk,
    place: Place,
    site: u32,
    value: &Option<Expr>,
) -> JudgedStatement
    requires { JudgesExprs declarations.now (E.pre exprs.now) (E.post exprs.now) }
    ensures { Answers result walk.new (bodies.return_statement (option_map (judged_expr declarations.now) value.now) site place walk.old) }
{
    let node = walk.take_node()?;
    match value {
        Some(value) => return_with(declarations, exprs, walk, place, site, node, value),
        None => return_alone(walk, place.gives, site, node),
    }
}

/// A `return` with a value.
fn return_with<E: Fn(&mut Walk, Place, Asked, Use, &Expr) -> Judged>(
    declarations: &Declarations,
    exprs: &E,
    walk: &mut Walk,
    place: Place,
    site: u32,
    node: Node,
    value: &Expr,
) -> JudgedStatement
    requires { JudgesExprs declarations.now (E.pre exprs.now) (E.post exprs.now) }
    ensures { Answers result walk.new (bodies.return_with place.gives (judged_expr declarations.now value.now) site node place walk.old) }
{
    match place.gives {
        Gives::Nothing => {
            let kind = TypeKind::BreakOutside;
            refused(declarations, exprs, walk, place, kind, node, value)
        }
        Gives::Unknown => {
            returned(
                declarations,
                exprs,
                walk,
                place,
                Asked::Unknown,
                site,
                value,
            )
        }
        Gives::Type(ty) => {
            if is_void(ty) {
                refused(
                    declarations,
                    exprs,
                    walk,
                    place,
                    TypeKind::Mismatch,
                    node,
                    value,
                )
            } else {
                returned(
                    declarations,
                    exprs,
                    walk,
                    place,
                    Asked::Type(ty),
                    site,
                    value,
                )
            }
        }
    }
}

/// A value that may not be given, which fails where no node in it does.
fn refused<E: Fn(&mut Walk, Place, Asked, Use, &Expr) -> Judged>(
    declarations: &Declarations,
    exprs: &E,
    walk: &mut Walk,
    place: Place,
    kind: TypeKind,
    node: Node,
    value: &Expr,
) -> JudgedStatement
    requires { JudgesExprs declarations.now (E.pre exprs.now) (E.post exprs.now) }
    ensures { Answers result walk.new ((judged_expr declarations.now value.now).value place asks.Nothing uses.Kept walk.old ▷ (λ e. fault kind node)) }
{
    match judge_expr(
        declarations,
        exprs,
        walk,
        place,
        Asked::Nothing,
        Use::Kept,
        value,
    )? {
        Found::Typed(_) => walk.fails(kind, node),
        Found::Untold => Ok(Found::Untold),
        Found::Depends => Ok(Found::Depends),
    }
}

/// A value of which this is asked, given by a `return`.
fn returned<E: Fn(&mut Walk, Place, Asked, Use, &Expr) -> Judged>(
    declarations: &Declarations,
    exprs: &E,
    walk: &mut Walk,
    place: Place,
    asked: Asked,
    site: u32,
    value: &Expr,
) -> JudgedStatement
    requires { JudgesExprs declarations.now (E.pre exprs.now) (E.post exprs.now) }
    ensures { Answers result walk.new ((judged_expr declarations.now value.now).value place asked uses.Kept walk.old ▷ (λ e. bodies.returned site (Some e))) }
{
    match judge_expr(declarations, exprs, walk, place, asked, Use::Kept, value)? {
        Found::Typed(value) => Ok(Found::Typed(Statement {
            site,
            form: StatementForm::Return(Some(value)),
        })),
        Found::Untold => Ok(Found::Untold),
        Found::Depends => Ok(Found::Depends),
    }
}

/// A `return` without a value.
fn return_alone(walk: &Walk, gives: Gives, site: u32, node: Node) -> JudgedStatement
    ensures { Answers result walk.now (bodies.return_alone gives site node walk.now) }
{
    match gives {
        Gives::Nothing => walk.fails(TypeKind::BreakOutside, node),
        Gives::Unknown => Ok(empty_return(site)),
        Gives::Type(ty) => {
            if is_void(ty) {
                Ok(empty_return(site))
            } else {
                walk.fails(TypeKind::Mismatch, node)
            }
        }
    }
}

fn empty_return(site: u32) -> Found<Statement>
    ensures { (w : _) → found result w ≡ bodies.returned site None w }
{
    Found::Typed(Statement {
        site,
        form: StatementForm::Return(None),
    })
}
