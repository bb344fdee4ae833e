// What judging an initial value tells.

ghost use Rattle.std.specs.Prelude.{◌≡◌, ◌≢◌, Err, IfOk, suc};
ghost use Rattle.sx_heads.specs.Heads.{at};
ghost use Rattle.sx_scope.specs.declared.stop.TypeStop.TheVariants.{NoMemory};
ghost use Rattle.sx_members.specs.Variables.{given_value};
ghost use Rattle.sx_settle.specs.Settled.{stays};
ghost use Rattle.sx_settle.specs.Steps.{given, is_taken, taken, told, told_answer, told_found, told_of};

use crate::givings::Giving;
use crate::taking::Taking;
use std::alloc::{AllocError, Global};
use sx_members::given_value;
use sx_scope::{Declarations, Found, Known, Stack, TypeStop, Walk};
use sx_span::Node;
use sx_tree::Expr;
use sx_typed::Expr as TypedExpr;
use sx_types::Ty;

/// A type, and the initial value that gives it.
type TypedParts = (Ty, Option<TypedExpr>);

/// What is known from then on, and by what the declaration has failed first.
pub type Told = (Known, Option<TypeStop>);

/// What is taken of what judging again tells of a declaration of which this is known, and which has
/// failed first by this stop, if by any. One that has failed stays so.
pub fn told_of(
    alloc: Global,
    declarations: &Declarations,
    taking: Taking,
    known: Known,
    stop: Option<TypeStop>,
    giving: &Giving<'_>,
) -> Result<Option<Told>, AllocError>
    ensures { IfOk result (λ o. o ≡ told_of taking declarations.now known stop (given giving.now)) }
{
    if stays(taking, known, stop) {
        return Ok(None);
    }
    match giving.value {
        None => Ok(None),
        Some(value) => {
            let told = told_by(alloc, declarations, giving.node, value)?;
            Ok(taken(taking, told))
        }
    }
}

/// Whether a declaration isn't judged again. Where each counts as failed of which nothing is known,
/// only one that has failed by something stays so.
fn stays(taking: Taking, known: Known, stop: Option<TypeStop>) -> bool
    ensures { result ≡ stays taking known stop }
{
    match taking {
        Taking::Certain => stop.is_some(),
        Taking::Depending | Taking::Everything => matches!(known, Known::Failed),
    }
}

/// What is taken of what is told.
fn taken(taking: Taking, told: Option<Told>) -> Option<Told>
    ensures { result ≡ taken taking told }
{
    match told {
        Some((known, stop)) if is_taken(taking, known, stop) => Some((known, stop)),
        _ => None,
    }
}

fn is_taken(taking: Taking, known: Known, stop: Option<TypeStop>) -> bool
    ensures { result ≡ is_taken taking known stop }
{
    match (taking, known, stop) {
        (Taking::Certain, Known::Failed, None) => false,
        (Taking::Depending, Known::Failed, Some(_)) => false,
        _ => true,
    }
}

/// What the initial value tells of the declaration at this node.
fn told_by(
    alloc: Global,
    declarations: &Declarations,
    node: Node,
    value: &Expr,
) -> Result<Option<Told>, AllocError>
    ensures { IfOk result (λ o. o ≡ told (given_value declarations.now node value.now (at (suc node.0)))) }
{
    let mut walk = walk_behind(alloc, node)?;
    let judged = given_value(alloc, declarations, &mut walk, node, value);
    told_answer(&judged)
}

/// What this answer tells, unless memory ran out.
fn told_answer(judged: &Result<Found<TypedParts>, TypeStop>) -> Result<Option<Told>, AllocError>
    ensures told { IfOk result (λ o. o ≡ told_answer judged.now) }
    ensures other { IfOk result (λ _. judged.now ≢ Err NoMemory) }
{
    match judged {
        Ok(found) => Ok(told_found(found)),
        Err(TypeStop::NoMemory) => Err(AllocError),
        Err(stop) => Ok(Some((Known::Failed, Some(*stop)))),
    }
}

/// What is told where no node fails.
fn told_found(found: &Found<TypedParts>) -> Option<Told>
    ensures { result ≡ told_found found.now }
{
    match found {
        Found::Typed((ty, _)) => Some((Known::Type(*ty), None)),
        Found::Untold => None,
        Found::Depends => Some((Known::Failed, None)),
    }
}

/// A walk that stands behind this node, with nothing in scope.
fn walk_behind(alloc: Global, node: Node) -> Result<Walk, AllocError>
    ensures { IfOk result (λ walk. walk ≡ at (suc node.0)) }
{
    match node.0.checked_add(1) {
        Some(next) => Ok(Walk {
            next,
            locals: Stack::new(alloc),
            mentions: Stack::new(alloc),
            literals: Stack::new(alloc),
        }),
        None => Err(AllocError),
    }
}
