// Parts that stand deeper in a tree, judged by those who are handed in for them.

ghost use Rattle.sx_check_expr.specs.Deeper.{JudgesExprs, JudgesStatements};
ghost use Rattle.sx_check_expr.specs.Judge.{judged_expr, judged_statement};
ghost use Rattle.sx_scope.specs.Verdict.{Answers};

use sx_scope::{Asked, Declarations, Found, Judged, Place, TypeStop, Use, Walk};
use sx_tree::{Expr, Statement};
use sx_typed::Block;

/// What is judged of a statement: what it is, or the first node in it that fails.
pub type JudgedStatement = Result<Found<sx_typed::Statement>, TypeStop>;

/// What is judged of statements: what they are, or the first node in them that fails.
pub type JudgedStatements = Result<Found<Block>, TypeStop>;

/// An expression deeper in the tree.
pub(crate) fn judge_expr<E: Fn(&mut Walk, Place, Asked, Use, &Expr) -> Judged>(
    declarations: &Declarations,
    exprs: &E,
    walk: &mut Walk,
    place: Place,
    asked: Asked,
    used: Use,
    expr: &Expr,
) -> Judged
    requires { JudgesExprs declarations.now (E.pre exprs.now) (E.post exprs.now) }
    ensures { Answers result walk.new ((judged_expr declarations.now expr.now).value place asked used walk.old) }
{
    exprs(walk, place, asked, used, expr)
}

/// A statement deeper in the tree.
pub(crate) fn judge_statement<S: Fn(&mut Walk, Place, &Statement) -> JudgedStatement>(
    declarations: &Declarations,
    rows: &S,
    walk: &mut Walk,
    place: Place,
    statement: &Statement,
) -> JudgedStatement
    requires { JudgesStatements declarations.now (S.pre rows.now) (S.post rows.now) }
    ensures { Answers result walk.new ((judged_statement declarations.now statement.now).value place walk.old) }
{
    rows(walk, place, statement)
}
