// Closure literals.

ghost use Rattle.std.specs.Prelude.{length};
ghost use Rattle.sx_bodies.specs.Literals as closures;
ghost use Rattle.sx_bodies.specs.Statements as bodies;
ghost use Rattle.sx_check_expr.specs.Deeper.{JudgesExprs, JudgesStatements};
ghost use Rattle.sx_check_expr.specs.Judge.{judged_closure, judged_statements};
ghost use Rattle.sx_scope.specs.Verdict.{Answers, both_by, found, moved};
ghost use Rattle.sx_scope.specs.declared.walk.Gives.TheVariants as gives;

use crate::blocks::body;
use crate::deeper::JudgedStatement;
use crate::ends::lacks_return;
use crate::room::unless_full;
use sqlite_items::Items;
use std::alloc::Global;
use sx_bodies::{
    close, gives_by, inside_literal, literal_made, parameters, result_type, untold_literal,
};
use sx_scope::{Asked, Declarations, Found, Gives, Judged, Place, TypeStop, Use, Walk, joined};
use sx_span::Node;
use sx_tree::{Closure, Expr, Signature, Statement};
use sx_typed::{Block, Parameter};
use sx_types::Ty;

/// The parts of a literal: its parameters, its result and its statements.
type LiteralParts = (Items<Parameter>, (Ty, Block));

/// What is found at the parts of a literal.
type FoundParts = Found<LiteralParts>;

/// A closure literal, where `exprs` judges the expressions in it, and `rows` the statements.
pub(crate) fn literal<
    E: Fn(&mut Walk, Place, Asked, Use, &Expr) -> Judged,
    S: Fn(&mut Walk, Place, &Statement) -> JudgedStatement,
>(
    alloc: Global,
    declarations: &Declarations,
    exprs: &E,
    rows: &S,
    walk: &mut Walk,
    place: Place,
    asked: Asked,
    used: Use,
    closure: &Closure,
) -> Judged
    requires exprs { JudgesExprs declarations.now (E.pre exprs.now) (E.post exprs.now) }
    requires rows { JudgesStatements declarations.now (S.pre rows.now) (S.post rows.now) }
    ensures { Answers result walk.new ((judged_closure declarations.now closure.now).value place asked used walk.old) }
{
    let node = walk.take_node()?;
    let mentions = walk.mentions.len();
    let literals = walk.literals.len();
    let signature = &closure.signature;
    let statements = closure.body.as_slice();
    let parts = closed_parts(
        alloc,
        declarations,
        exprs,
        rows,
        walk,
        place,
        asked,
        used,
        node,
        signature,
        statements,
    )?;
    literal_by(
        alloc,
        declarations,
        walk,
        asked,
        used,
        node,
        mentions,
        literals,
        closure.span.start,
        signature,
        statements,
        parts,
    )
}

/// The parts of a literal. Behind them its locals are out of scope.
fn closed_parts<
    E: Fn(&mut Walk, Place, Asked, Use, &Expr) -> Judged,
    S: Fn(&mut Walk, Place, &Statement) -> JudgedStatement,
>(
    alloc: Global,
    declarations: &Declarations,
    exprs: &E,
    rows: &S,
    walk: &mut Walk,
    place: Place,
    asked: Asked,
    used: Use,
    node: Node,
    signature: &Signature,
    statements: &[Statement],
) -> Result<FoundParts, TypeStop>
    requires exprs { JudgesExprs declarations.now (E.pre exprs.now) (E.post exprs.now) }
    requires rows { JudgesStatements declarations.now (S.pre rows.now) (S.post rows.now) }
    ensures { Answers result walk.new (moved (closures.closed node (length walk.old.locals) (length walk.old.mentions)) (closures.literal_parts declarations.now place asked used (closures.judged_signature declarations.now signature.now) (judged_statements declarations.now statements.now) (length walk.old.locals) walk.old)) }
{
    let locals = walk.locals.len();
    let mentions = walk.mentions.len();
    let parts = literal_parts(
        alloc,
        declarations,
        exprs,
        rows,
        walk,
        place,
        asked,
        used,
        signature,
        statements,
    )?;
    unless_full(parts, close(alloc, walk, node, locals, mentions))
}

/// The parts of a literal.
fn literal_parts<
    E: Fn(&mut Walk, Place, Asked, Use, &Expr) -> Judged,
    S: Fn(&mut Walk, Place, &Statement) -> JudgedStatement,
>(
    alloc: Global,
    declarations: &Declarations,
    exprs: &E,
    rows: &S,
    walk: &mut Walk,
    place: Place,
    asked: Asked,
    used: Use,
    signature: &Signature,
    statements: &[Statement],
) -> Result<FoundParts, TypeStop>
    requires exprs { JudgesExprs declarations.now (E.pre exprs.now) (E.post exprs.now) }
    requires rows { JudgesStatements declarations.now (S.pre rows.now) (S.post rows.now) }
    ensures { Answers result walk.new (closures.literal_parts declarations.now place asked used (closures.judged_signature declarations.now signature.now) (judged_statements declarations.now statements.now) (length walk.old.locals) walk.old) }
{
    let outside = walk.locals.len();
    let parameters = parameters(alloc, declarations, walk, asked, signature)?;
    let inner = result_and_body(
        alloc,
        declarations,
        exprs,
        rows,
        walk,
        place,
        asked,
        used,
        outside,
        signature,
        statements,
    );
    joined(parameters, inner)
}

/// The result and the statements of a literal, with so many locals outside it.
fn result_and_body<
    E: Fn(&mut Walk, Place, Asked, Use, &Expr) -> Judged,
    S: Fn(&mut Walk, Place, &Statement) -> JudgedStatement,
>(
    alloc: Global,
    declarations: &Declarations,
    exprs: &E,
    rows: &S,
    walk: &mut Walk,
    place: Place,
    asked: Asked,
    used: Use,
    outside: usize,
    signature: &Signature,
    statements: &[Statement],
) -> Result<Found<(Ty, Block)>, TypeStop>
    requires exprs { JudgesExprs declarations.now (E.pre exprs.now) (E.post exprs.now) }
    requires rows { JudgesStatements declarations.now (S.pre rows.now) (S.post rows.now) }
    ensures { Answers result walk.new (both_by (closures.result declarations.now asked (closures.judged_signature declarations.now signature.now) walk.old) (λ t. bodies.body (closures.inside_literal place used outside (closures.gives_by t)) (judged_statements declarations.now statements.now))) }
{
    let result_type = result_type(alloc, declarations, walk, asked, signature)?;
    let inside = inside_literal(place, used, outside, gives_by(&result_type));
    let body = body(alloc, declarations, exprs, rows, walk, inside, statements);
    joined(result_type, body)
}

/// A literal whose parts are found. `mentions` and `literals` tell how many there were before it.
fn literal_by(
    alloc: Global,
    declarations: &Declarations,
    walk: &mut Walk,
    asked: Asked,
    used: Use,
    node: Node,
    mentions: usize,
    literals: usize,
    site: u32,
    signature: &Signature,
    statements: &[Statement],
    parts: FoundParts,
) -> Judged
    ensures { Answers result walk.new (closures.literal_by declarations.now asked used node site mentions literals (closures.judged_signature declarations.now signature.now) (judged_statements declarations.now statements.now) (found parts walk.old)) }
{
    match parts {
        Found::Typed(parts) => literal_of(
            alloc,
            declarations,
            walk,
            asked,
            used,
            node,
            mentions,
            literals,
            site,
            statements,
            parts,
        ),
        Found::Untold => untold_literal(declarations, walk, asked, node, signature),
        Found::Depends => Ok(Found::Depends),
    }
}

/// A literal with these parts.
fn literal_of(
    alloc: Global,
    declarations: &Declarations,
    walk: &mut Walk,
    asked: Asked,
    used: Use,
    node: Node,
    mentions: usize,
    literals: usize,
    site: u32,
    statements: &[Statement],
    parts: LiteralParts,
) -> Judged
    ensures { Answers result walk.new (closures.literal_made declarations.now asked used node site mentions literals (bodies.lacks_return (gives.Type parts.1.0) (judged_statements declarations.now statements.now)) parts walk.old) }
{
    let (parameters, (result_type, body)) = parts;
    let lacking = lacks_return(Gives::Type(result_type), statements);
    literal_made(
        alloc,
        declarations,
        walk,
        asked,
        used,
        node,
        site,
        mentions,
        literals,
        lacking,
        parameters,
        result_type,
        body,
    )
}
