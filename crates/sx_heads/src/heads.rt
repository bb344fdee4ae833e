// Heads of functions and subscripts.

ghost use Rattle.sx_heads.specs.Heads as heads;
ghost use Rattle.sx_scope.specs.Verdict.{Answers, ◌▷◌, both, found, typed};
ghost use Rattle.sx_scope.specs.WrittenTypes.{judged_type};
ghost use Rattle.sx_bodies.specs.Statements.{fresh};
ghost use Rattle.std.specs.Prelude.{◌≡◌, [], IfOk, length, map, option_copied};

use crate::parameters::{
    HeadParameter, ParameterList, broken_parameter, head_parameter, known_parameter,
    parameter_local,
};
use sqlite_items::Items;
use std::alloc::{AllocError, Global};
use sx_bodies::{declare, is_fresh};
use sx_scope::{Declarations, Found, TypeKind, TypeStop, Walk, type_written};
use sx_span::Node;
use sx_tree::{Parameter, WrittenType};
use sx_types::Ty;

/// What is judged of a head: its parameters and its result.
pub type JudgedHead = Result<Found<(Items<HeadParameter>, Ty)>, TypeStop>;

/// What is judged of parameters.
type JudgedParameters = Result<Found<Items<HeadParameter>>, TypeStop>;

/// What is judged of a parameter.
type JudgedParameter = Result<Found<HeadParameter>, TypeStop>;

/// A head by its types alone, or the first node in it that fails so.
pub fn typed_head(
    alloc: Global,
    declarations: &Declarations,
    walk: &mut Walk,
    parameters: &[Parameter],
    result_type: Option<&WrittenType>,
) -> JudgedHead
    ensures { Answers result walk.new (heads.typed_head declarations.now parameters.now (option_copied result_type.entry) walk.old) }
{
    let parameters = typed_parameters(alloc, declarations, walk, parameters)?;
    let gives = type_given(alloc, declarations, walk, result_type)?;
    Ok(sx_scope::both(parameters, gives))
}

/// A head with the conditions on its parameters, or the first node in it that fails. The parameters
/// come into scope.
pub fn checked_head(
    alloc: Global,
    declarations: &Declarations,
    walk: &mut Walk,
    list: ParameterList,
    parameters: &[Parameter],
    result_type: Option<&WrittenType>,
) -> JudgedHead
    ensures { Answers result walk.new (heads.checked_head declarations.now list parameters.now (option_copied result_type.entry) walk.old) }
{
    let parameters = checked_parameters(alloc, declarations, walk, list, parameters)?;
    let gives = type_given(alloc, declarations, walk, result_type)?;
    Ok(sx_scope::both(parameters, gives))
}

/// The type of the result, `Void` where none is written.
fn type_given(
    alloc: Global,
    declarations: &Declarations,
    walk: &mut Walk,
    written: Option<&WrittenType>,
) -> Result<Found<Ty>, TypeStop>
    ensures { Answers result walk.new (heads.result_type declarations.now (option_copied written.entry) walk.old) }
{
    match written {
        Some(written) => type_written(alloc, declarations, walk, written),
        None => Ok(Found::Typed(Ty::Void)),
    }
}

fn typed_parameters(
    alloc: Global,
    declarations: &Declarations,
    walk: &mut Walk,
    mut written: &[Parameter],
) -> JudgedParameters
    ensures { Answers result walk.new (heads.run_parameters (typed [] walk.old) (map (heads.typed_parameter declarations.now) written.entry.now)) }
{
    let mut parameters = Found::Typed(Items::new(alloc));
    'written: while let Some((first, rest)) = written.split_first() {
        let parameter = typed_parameter(alloc, declarations, walk, first)?;
        parameters = added(parameters, parameter)?;
        written = rest;
    }
    Ok(parameters)
}

fn typed_parameter(
    alloc: Global,
    declarations: &Declarations,
    walk: &mut Walk,
    written: &Parameter,
) -> JudgedParameter
    ensures { Answers result walk.new (heads.typed_parameter declarations.now written.now walk.old) }
{
    let node = walk.take_node()?;
    match type_written(alloc, declarations, walk, &written.ty)? {
        Found::Typed(ty) => Ok(Found::Typed(head_parameter(node, written, ty))),
        Found::Untold => Ok(Found::Untold),
        Found::Depends => Ok(Found::Depends),
    }
}

fn checked_parameters(
    alloc: Global,
    declarations: &Declarations,
    walk: &mut Walk,
    list: ParameterList,
    mut written: &[Parameter],
) -> JudgedParameters
    ensures { Answers result walk.new (heads.run_parameters (typed [] walk.old) (map (heads.checked_parameter declarations.now list (length walk.old.locals)) written.entry.now)) }
{
    let from = walk.locals.len();
    let mut parameters = Found::Typed(Items::new(alloc));
    'written: while let Some((first, rest)) = written.split_first() {
        let parameter = checked_parameter(alloc, declarations, walk, list, from, first)?;
        parameters = added(parameters, parameter)?;
        written = rest;
    }
    Ok(parameters)
}

/// A parameter with the conditions on it. It comes into scope, unless one of the locals from this
/// index on has its name.
fn checked_parameter(
    alloc: Global,
    declarations: &Declarations,
    walk: &mut Walk,
    list: ParameterList,
    from: usize,
    written: &Parameter,
) -> JudgedParameter
    ensures { Answers result walk.new (heads.checked_parameter declarations.now list from written.now walk.old) }
{
    let node = walk.take_node()?;
    let parameter = judged_parameter(alloc, declarations, walk, list, from, node, written)?;
    let known = known_parameter(&parameter);
    declare(walk, from, parameter_local(node, written, known))?;
    Ok(parameter)
}

/// A parameter with the conditions on it, which doesn't come into scope.
fn judged_parameter(
    alloc: Global,
    declarations: &Declarations,
    walk: &mut Walk,
    list: ParameterList,
    from: usize,
    node: Node,
    written: &Parameter,
) -> JudgedParameter
    ensures { Answers result walk.new (both (fresh declarations.now from written.now.name.number node walk.old) (judged_type declarations.now written.now.ty) ▷ heads.fitting list node written.now) }
{
    if !is_fresh(declarations, walk, from, written.name.number) {
        return walk.fails(TypeKind::Duplicate, node);
    }
    match type_written(alloc, declarations, walk, &written.ty)? {
        Found::Typed(ty) => fitting(walk, list, node, written, ty),
        Found::Untold => Ok(Found::Untold),
        Found::Depends => Ok(Found::Depends),
    }
}

/// A parameter of this type, which fails at its node where it breaks a condition.
fn fitting(
    walk: &Walk,
    list: ParameterList,
    node: Node,
    written: &Parameter,
    ty: Ty,
) -> JudgedParameter
    ensures { Answers result walk.now (heads.fitting list node written.now (tt, ty) walk.now) }
{
    match broken_parameter(list, written.marker, ty) {
        Some(kind) => walk.fails(kind, node),
        None => Ok(Found::Typed(head_parameter(node, written, ty))),
    }
}

/// Parameters, and one more behind them.
fn added(
    parameters: Found<Items<HeadParameter>>,
    parameter: Found<HeadParameter>,
) -> Result<Found<Items<HeadParameter>>, AllocError>
    ensures { IfOk result (λ f. (v : _) (w : _) → found f w ≡ both (found parameters v) (λ _. found parameter w) ▷ heads.parameter_added) }
{
    match sx_scope::both(parameters, parameter) {
        Found::Typed((mut parameters, parameter)) => {
            parameters.push(parameter)?;
            Ok(Found::Typed(parameters))
        }
        Found::Untold => Ok(Found::Untold),
        Found::Depends => Ok(Found::Depends),
    }
}
