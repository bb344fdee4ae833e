// Declarations that are judged apart from the walk over the tree.

ghost use Rattle.std.specs.Prelude.{◌≡◌, IfOk, option_copied, suc};
ghost use Rattle.sx_heads.specs.Heads as heads;
ghost use Rattle.sx_scope.specs.Verdict.{Answers};
ghost use Rattle.sx_scope.specs.WrittenTypes.{judged_type};

use crate::heads::{checked_head, typed_head};
use crate::parameters::{HeadParameter, ParameterList};
use sqlite_items::Items;
use std::alloc::{AllocError, Global};
use sx_scope::{Declarations, Found, Stack, TypeStop, Walk, type_written};
use sx_span::Node;
use sx_tree::{Parameter, WrittenType};
use sx_types::Ty;

/// A head's parameters and its result.
type Head = (Items<HeadParameter>, Ty);

/// The head of the declaration at this node, by its types alone, where no node in it fails so.
pub fn typed_apart(
    alloc: Global,
    declarations: &Declarations,
    node: Node,
    parameters: &[Parameter],
    result_type: Option<&WrittenType>,
) -> Result<Option<Head>, AllocError>
    ensures { IfOk result (λ h. h ≡ heads.typed_value (heads.typed_head declarations.now parameters.now (option_copied result_type.entry) (heads.at (suc node.0)))) }
{
    let mut walk = walk_behind(alloc, node)?;
    let head = typed_head(alloc, declarations, &mut walk, parameters, result_type);
    typed_value(head)
}

/// The head of the declaration at this node, where no node in it fails.
pub fn checked_apart(
    alloc: Global,
    declarations: &Declarations,
    node: Node,
    list: ParameterList,
    parameters: &[Parameter],
    result_type: Option<&WrittenType>,
) -> Result<Option<Head>, AllocError>
    ensures { IfOk result (λ h. h ≡ heads.typed_value (heads.checked_head declarations.now list parameters.now (option_copied result_type.entry) (heads.at (suc node.0)))) }
{
    let mut walk = walk_behind(alloc, node)?;
    let head = checked_head(
        alloc,
        declarations,
        &mut walk,
        list,
        parameters,
        result_type,
    );
    typed_value(head)
}

/// The type that is written in the declaration at this node, where none of its nodes fails.
pub fn type_apart(
    alloc: Global,
    declarations: &Declarations,
    node: Node,
    written: &WrittenType,
) -> Result<Option<Ty>, AllocError>
    ensures { IfOk result (λ t. t ≡ heads.typed_value (judged_type declarations.now written.now (heads.at (suc node.0)))) }
{
    let mut walk = walk_behind(alloc, node)?;
    let ty = type_written(alloc, declarations, &mut walk, written);
    typed_value(ty)
}

/// A walk that stands behind this node, with nothing in scope.
fn walk_behind(alloc: Global, node: Node) -> Result<Walk, AllocError>
    ensures { IfOk result (λ w. w ≡ heads.at (suc node.0)) }
{
    match node.0.checked_add(1) {
        Some(next) => Ok(Walk {
            next,
            locals: Stack::new(alloc),
            mentions: Stack::new(alloc),
            literals: Stack::new(alloc),
        }),
        None => Err(AllocError),
    }
}

/// What is typed, if anything.
fn typed_value<T: Drop>(judged: Result<Found<T>, TypeStop>) -> Result<Option<T>, AllocError>
    ensures { (now : _) (v : _) → Answers judged now v → IfOk result (λ o. o ≡ heads.typed_value v) }
{
    match judged {
        Ok(Found::Typed(value)) => Ok(Some(value)),
        Ok(Found::Untold) => Ok(None),
        Ok(Found::Depends) => Ok(None),
        Err(TypeStop::NoMemory) => Err(AllocError),
        Err(_) => Ok(None),
    }
}
