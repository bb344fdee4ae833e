// The signatures of closure literals.

ghost use Rattle.std.specs.Prelude.{◌≡◌, IfOk, OnOk, [], length, map, option_copied};
ghost use Rattle.sx_bodies.specs.Literals as literals;
ghost use Rattle.sx_bodies.specs.Statements as statements;
ghost use Rattle.sx_scope.specs.Verdict.{Answers, ◌▷◌, both, found, typed};

use crate::statements::{declare, is_fresh};
use sqlite_items::Items;
use std::alloc::{AllocError, Global};
use sx_scope::{
    Asked, Declarations, Found, Known, Local, LocalKind, TypeKind, TypeStop, Walk, is_void,
    type_written,
};
use sx_span::Node;
use sx_tree::{ClosureParameter, Name, Signature};
use sx_typed::{Marker, Parameter};
use sx_types::{FunctionParameter, FunctionType, Ty};

type JudgedParameters = Result<Found<Items<Parameter>>, TypeStop>;

/// The parameters of a literal, by its signature and what is asked of it. They come into scope.
pub fn parameters(
    alloc: Global,
    declarations: &Declarations,
    walk: &mut Walk,
    asked: Asked,
    signature: &Signature,
) -> JudgedParameters
    ensures { Answers result walk.new (literals.parameters declarations.now asked (literals.judged_signature declarations.now signature.now) walk.old) }
{
    match signature {
        Signature::Absent => Ok(Found::Typed(Items::new(alloc))),
        Signature::Names(names) => {
            let wanted = parameters_by(function_asked(declarations, asked));
            named_parameters(alloc, declarations, walk, wanted, names.as_slice())
        }
        Signature::Typed(parameters, _) => {
            typed_parameters(alloc, declarations, walk, parameters.as_slice())
        }
    }
}

fn named_parameters(
    alloc: Global,
    declarations: &Declarations,
    walk: &mut Walk,
    mut wanted: &[FunctionParameter],
    mut names: &[Name],
) -> JudgedParameters
    ensures { Answers result walk.new (literals.run_parameters (typed [] walk.old) (literals.named_parameters declarations.now (length walk.old.locals) wanted.entry.now (map literals.name_number names.entry.now))) }
{
    let from = walk.locals.len();
    let mut parameters = Found::Typed(Items::new(alloc));
    'names: while let Some((name, rest)) = names.split_first() {
        let (first, others) = split(wanted);
        let parameter = named_parameter(declarations, walk, from, name.number, first)?;
        parameters = added(parameters, parameter)?;
        wanted = others;
        names = rest;
    }
    Ok(parameters)
}

/// The first of them, and the others.
fn split(wanted: &[FunctionParameter]) -> (Option<FunctionParameter>, &[FunctionParameter])
    ensures first { result.0 ≡ literals.first_parameter wanted.now }
    ensures others { result.1.now ≡ literals.other_parameters wanted.now }
{
    match wanted {
        [] => (None, wanted),
        [first, others @ ..] => (Some(*first), others),
    }
}

/// A name without a type, which has that of the parameter that is asked for.
fn named_parameter(
    declarations: &Declarations,
    walk: &mut Walk,
    from: usize,
    name: u32,
    wanted: Option<FunctionParameter>,
) -> Result<Found<Parameter>, TypeStop>
    ensures { Answers result walk.new (literals.named_parameter declarations.now from name wanted walk.old) }
{
    let node = walk.take_node()?;
    if !is_fresh(declarations, walk, from, name) {
        return Err(TypeStop::Typing(TypeKind::Duplicate, node));
    }
    let Some(wanted) = wanted else {
        declare_parameter(walk, from, node, name, false, Known::Untold)?;
        return Ok(Found::Untold);
    };
    declare_parameter(walk, from, node, name, wanted.inout, Known::Type(wanted.ty))?;
    Ok(Found::Typed(parameter(node, name, wanted.inout, wanted.ty)))
}

fn typed_parameters(
    alloc: Global,
    declarations: &Declarations,
    walk: &mut Walk,
    mut written: &[ClosureParameter],
) -> JudgedParameters
    ensures { Answers result walk.new (literals.run_parameters (typed [] walk.old) (map (literals.typed_parameter declarations.now (length walk.old.locals)) (map (literals.typed_name declarations.now) written.entry.now))) }
{
    let from = walk.locals.len();
    let mut parameters = Found::Typed(Items::new(alloc));
    'written: while let Some((first, rest)) = written.split_first() {
        let parameter = typed_parameter(alloc, declarations, walk, from, first)?;
        parameters = added(parameters, parameter)?;
        written = rest;
    }
    Ok(parameters)
}

/// A parameter with its written type.
fn typed_parameter(
    alloc: Global,
    declarations: &Declarations,
    walk: &mut Walk,
    from: usize,
    written: &ClosureParameter,
) -> Result<Found<Parameter>, TypeStop>
    ensures { Answers result walk.new (literals.typed_parameter declarations.now from (literals.typed_name declarations.now written.now) walk.old) }
{
    let node = walk.take_node()?;
    let name = written.name.number;
    if !is_fresh(declarations, walk, from, name) {
        return Err(TypeStop::Typing(TypeKind::Duplicate, node));
    }
    match type_written(alloc, declarations, walk, &written.ty)? {
        Found::Typed(ty) => {
            if is_void(ty) {
                return Err(TypeStop::Typing(TypeKind::Mismatch, node));
            }
            declare_parameter(walk, from, node, name, written.inout, Known::Type(ty))?;
            Ok(Found::Typed(parameter(node, name, written.inout, ty)))
        }
        Found::Untold => {
            declare_parameter(walk, from, node, name, written.inout, Known::Untold)?;
            Ok(Found::Untold)
        }
        Found::Depends => {
            declare_parameter(walk, from, node, name, written.inout, Known::Failed)?;
            Ok(Found::Depends)
        }
    }
}

fn parameter(node: Node, name: u32, inout: bool, ty: Ty) -> Parameter
    ensures { result ≡ literals.parameter node name inout ty }
{
    let marker = if inout { Marker::InOut } else { Marker::Plain };
    Parameter {
        node,
        name: Some(name),
        marker,
        ty,
    }
}

/// A parameter of which this is known comes into scope.
fn declare_parameter(
    walk: &mut Walk,
    from: usize,
    node: Node,
    name: u32,
    inout: bool,
    known: Known,
) -> Result<(), AllocError>
    ensures { OnOk result (walk.new ≡ statements.unless_taken from (statements.local_named name node (literals.parameter_kind inout) (literals.is_lent inout known) known) walk.old) }
{
    let kind = if inout {
        LocalKind::InOut
    } else {
        LocalKind::Constant
    };
    let local = Local {
        name,
        node,
        kind,
        known,
        lent: is_lent(inout, known),
    };
    declare(walk, from, local)
}

fn is_lent(inout: bool, known: Known) -> bool
    ensures { result ≡ literals.is_lent inout known }
{
    match known {
        Known::Type(Ty::Func(_)) => !inout,
        _ => false,
    }
}

/// Parameters, and one more behind them.
fn added(
    parameters: Found<Items<Parameter>>,
    parameter: Found<Parameter>,
) -> Result<Found<Items<Parameter>>, AllocError>
    ensures { IfOk result (λ f. (v : _) (w : _) → found f w ≡ both (found parameters v) (λ _. found parameter w) ▷ literals.parameter_added) }
{
    match sx_scope::both(parameters, parameter) {
        Found::Typed((mut parameters, parameter)) => {
            parameters.push(parameter)?;
            Ok(Found::Typed(parameters))
        }
        Found::Untold => Ok(Found::Untold),
        Found::Depends => Ok(Found::Depends),
    }
}

/// The result of a literal, by its signature and what is asked of it.
pub fn result_type(
    alloc: Global,
    declarations: &Declarations,
    walk: &mut Walk,
    asked: Asked,
    signature: &Signature,
) -> Result<Found<Ty>, TypeStop>
    ensures { Answers result walk.new (literals.result declarations.now asked (literals.judged_signature declarations.now signature.now) walk.old) }
{
    match signature {
        Signature::Absent | Signature::Names(_) => Ok(result_asked(declarations, asked)),
        Signature::Typed(_, None) => Ok(result_unwritten(declarations, asked)),
        Signature::Typed(_, Some(written)) => type_written(alloc, declarations, walk, written),
    }
}

fn result_unwritten(declarations: &Declarations, asked: Asked) -> Found<Ty>
    ensures { (w : _) → found result w ≡ literals.result_unwritten declarations.now asked w }
{
    match asked {
        Asked::Nothing | Asked::Printable => Found::Typed(Ty::Void),
        Asked::Unknown | Asked::Type(_) => result_asked(declarations, asked),
    }
}

fn result_asked(declarations: &Declarations, asked: Asked) -> Found<Ty>
    ensures { (w : _) → found result w ≡ literals.result_by (literals.function_asked declarations.now asked) w }
{
    match function_asked(declarations, asked) {
        Some(function) => Found::Typed(function.result),
        None => Found::Untold,
    }
}

/// The function type that is asked for.
pub fn function_asked(declarations: &Declarations, asked: Asked) -> Option<&FunctionType>
    ensures { option_copied result ≡ literals.function_asked declarations.now asked }
{
    match asked {
        Asked::Type(Ty::Func(number)) => {
            declarations.types.functions.as_slice().get(number as usize)
        }
        _ => None,
    }
}

/// The parameters of a function type that is asked for.
fn parameters_by(function: Option<&FunctionType>) -> &[FunctionParameter]
    ensures { result.now ≡ literals.parameters_by (option_copied function.entry) }
{
    match function {
        Some(function) => function.parameters.as_slice(),
        None => &[],
    }
}
