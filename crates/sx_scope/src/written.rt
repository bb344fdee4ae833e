// What a written type means.

ghost use Rattle.std.specs.Prelude.{◌≡◌, [], IfOk, map};
ghost use Rattle.sx_scope.specs.Verdict.{Answers, both, found, typed, ◌▷◌};
ghost use Rattle.sx_scope.specs.WrittenTypes as written;

use crate::declarations::{Declarations, TypeName};
use crate::found::both;
use crate::members::type_failed;
use crate::stop::{TypeKind, TypeStop};
use crate::walk::{Found, Walk};
use sqlite_items::Items;
use std::alloc::{AllocError, Global};
use sx_span::Node;
use sx_tree::{TypeForm, TypeParameter, WrittenType};
use sx_types::{FunctionParameter, FunctionType, Listed, Ty};

/// The types of parameters that are found.
type FoundParameters = Found<Items<FunctionParameter>>;

/// Whether it is the type `Void`.
pub fn is_void(ty: Ty) -> bool
    ensures { result ≡ written.is_void ty }
{
    matches!(ty, Ty::Void)
}

/// The number of a function type that the program has.
pub fn function_number(declarations: &Declarations, function: &FunctionType) -> Option<u32>
    ensures { result ≡ written.number_of declarations.now.types.functions function.now }
{
    declarations.types.functions.find(function)
}

/// The type that is written, or the first of its nodes that fails.
#[cycle(types)]
pub fn type_written(
    alloc: Global,
    declarations: &Declarations,
    walk: &mut Walk,
    ty: &WrittenType,
) -> Result<Found<Ty>, TypeStop>
    ensures { Answers result walk.new (written.judged_type declarations.now ty.now walk.old) }
{
    let node = walk.take_node()?;
    match &ty.form {
        TypeForm::Named(name) => named_type(declarations, walk, node, *name),
        TypeForm::Unit => Ok(Found::Typed(Ty::Void)),
        TypeForm::Bracketed(inner) => type_written(alloc, declarations, walk, inner.get()),
        TypeForm::Function(parameters, result) => function_written(
            alloc,
            declarations,
            walk,
            node,
            parameters.as_slice(),
            result.get(),
        ),
        TypeForm::Array(_) => Ok(Found::Typed(Ty::Array)),
    }
}

/// The type that may be written.
pub fn type_option(
    alloc: Global,
    declarations: &Declarations,
    walk: &mut Walk,
    ty: &Option<WrittenType>,
) -> Result<Found<Option<Ty>>, TypeStop>
    ensures { Answers result walk.new (written.judged_option declarations.now ty.now walk.old) }
{
    match ty {
        None => Ok(Found::Typed(None)),
        Some(ty) => match type_written(alloc, declarations, walk, ty)? {
            Found::Typed(ty) => Ok(Found::Typed(Some(ty))),
            Found::Untold => Ok(Found::Untold),
            Found::Depends => Ok(Found::Depends),
        },
    }
}

fn named_type(
    declarations: &Declarations,
    walk: &Walk,
    node: Node,
    name: u32,
) -> Result<Found<Ty>, TypeStop>
    ensures { Answers result walk.now (written.type_named declarations.now node name walk.now) }
{
    match declarations.type_names.get(name) {
        None => walk.fails(TypeKind::UnknownName, node),
        Some(TypeName::Failed) => Ok(Found::Depends),
        Some(TypeName::Type(ty)) => {
            if type_failed(declarations, ty) {
                Ok(Found::Depends)
            } else {
                Ok(Found::Typed(ty))
            }
        }
    }
}

#[cycle(types)]
fn function_written(
    alloc: Global,
    declarations: &Declarations,
    walk: &mut Walk,
    node: Node,
    parameters: &[TypeParameter],
    gives: &WrittenType,
) -> Result<Found<Ty>, TypeStop>
    ensures { Answers result walk.new (written.function_step declarations.now node (map (written.judged_parameter declarations.now) parameters.now) (written.judged_type declarations.now gives.now) walk.old) }
{
    let parameters = parameters_written(alloc, declarations, walk, parameters)?;
    let gives = type_written(alloc, declarations, walk, gives)?;
    function_made(declarations, walk, node, parameters, gives)
}

#[cycle(types)]
fn parameters_written(
    alloc: Global,
    declarations: &Declarations,
    walk: &mut Walk,
    parameters: &[TypeParameter],
) -> Result<FoundParameters, TypeStop>
    ensures { Answers result walk.new (written.run_parameters (typed [] walk.old) (map (written.judged_parameter declarations.now) parameters.now)) }
{
    let mut all = Found::Typed(Items::new(alloc));
    'turns: for parameter in parameters {
        let one = parameter_written(alloc, declarations, walk, parameter)?;
        all = with_parameter(walk, all, one)?;
    }
    Ok(all)
}

#[cycle(types)]
fn parameter_written(
    alloc: Global,
    declarations: &Declarations,
    walk: &mut Walk,
    parameter: &TypeParameter,
) -> Result<Found<FunctionParameter>, TypeStop>
    ensures { Answers result walk.new (written.judged_parameter declarations.now parameter.now walk.old) }
{
    let inout = parameter.inout;
    match type_written(alloc, declarations, walk, &parameter.ty)? {
        Found::Typed(ty) => Ok(Found::Typed(FunctionParameter { inout, ty })),
        Found::Untold => Ok(Found::Untold),
        Found::Depends => Ok(Found::Depends),
    }
}

fn with_parameter(
    walk: &Walk,
    all: FoundParameters,
    one: Found<FunctionParameter>,
) -> Result<FoundParameters, AllocError>
    ensures { IfOk result (λ r. found r walk.now ≡ both (found all walk.now) (λ _. found one walk.now) ▷ written.parameter_added) }
{
    match both(all, one) {
        Found::Typed((mut all, one)) => {
            all.push(one)?;
            Ok(Found::Typed(all))
        }
        Found::Untold => Ok(Found::Untold),
        Found::Depends => Ok(Found::Depends),
    }
}

fn function_made(
    declarations: &Declarations,
    walk: &Walk,
    node: Node,
    parameters: FoundParameters,
    gives: Found<Ty>,
) -> Result<Found<Ty>, TypeStop>
    ensures { Answers result walk.now (both (found parameters walk.now) (λ _. found gives walk.now) ▷ written.function_made declarations.now node) }
{
    match both(parameters, gives) {
        Found::Typed(parts) => function_of(declarations, walk, node, parts),
        Found::Untold => Ok(Found::Untold),
        Found::Depends => Ok(Found::Depends),
    }
}

fn function_of(
    declarations: &Declarations,
    walk: &Walk,
    node: Node,
    parts: (Items<FunctionParameter>, Ty),
) -> Result<Found<Ty>, TypeStop>
    ensures { Answers result walk.now (written.function_made declarations.now node parts walk.now) }
{
    let (parameters, result) = parts;
    if may_be_parameters(parameters.as_slice()) {
        let function = FunctionType {
            parameters: Listed::new(parameters),
            result,
        };
        Ok(numbered(declarations, &function))
    } else {
        walk.fails(TypeKind::Mismatch, node)
    }
}

fn numbered(declarations: &Declarations, function: &FunctionType) -> Found<Ty>
    ensures { (w : _) → found result w ≡ written.func_by (written.number_of declarations.now.types.functions function.now) w }
{
    match function_number(declarations, function) {
        Some(number) => Found::Typed(Ty::Func(number)),
        None => Found::Depends,
    }
}

/// Whether no parameter has the type `Void` or is a function.
fn may_be_parameters(parameters: &[FunctionParameter]) -> bool
    ensures { result ≡ written.may_be_parameters parameters.now }
{
    'turns: for parameter in parameters {
        if !may_be_parameter(parameter.ty) {
            return false;
        }
    }
    true
}

fn may_be_parameter(ty: Ty) -> bool
    ensures { result ≡ written.may_be_parameter ty }
{
    !matches!(ty, Ty::Void | Ty::Func(_))
}
