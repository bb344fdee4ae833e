// Functions and subscripts, as calls see them.

ghost use Rattle.std.specs.Prelude.{◌≡◌, IfOk, map, suc};
ghost use Rattle.std.specs.List.{list_any};
ghost use Rattle.sx_heads.specs.Heads as heads;
ghost use Rattle.sx_heads.specs.Signatures as signatures;
ghost use Rattle.sx_heads.specs.declared.parameters.ParameterList.TheVariants as lists;

use crate::apart::{checked_apart, typed_apart};
use crate::parameters::{HeadParameter, ParameterList, is_function};
use crate::widths::is_narrow_head;
use sqlite_items::Items;
use std::alloc::{AllocError, Global};
use sx_scope::{Declarations, Signature, SignatureParameter, Subscript, function_number, is_void};
use sx_span::Node;
use sx_tree::Function;
use sx_typed::{Accessors, Marker};
use sx_types::{FunctionParameter, FunctionType, Listed, Ty};

/// The function at this node, a member of the owner if there is one, as calls see it.
pub fn signature(
    alloc: Global,
    declarations: &Declarations,
    owner: Option<Ty>,
    node: Node,
    function: &Function,
) -> Result<Signature, AllocError>
    ensures { IfOk result (λ s. s ≡ signatures.signature declarations.now owner node function.now) }
{
    let mutating = function.mutating;
    if is_too_wide(alloc, declarations, owner, node, function)? {
        return Ok(failed_signature(alloc, node, mutating));
    }
    let parameters = function.parameters.as_slice();
    let gives = function.result.as_ref();
    match typed_apart(alloc, declarations, node, parameters, gives)? {
        Some((parameters, gives)) => {
            let parameters = parameters.as_slice();
            sound_signature(alloc, declarations, node, mutating, parameters, gives)
        }
        None => Ok(failed_signature(alloc, node, mutating)),
    }
}

/// Whether no node of its head fails, and its parameters take too many words.
fn is_too_wide(
    alloc: Global,
    declarations: &Declarations,
    owner: Option<Ty>,
    node: Node,
    function: &Function,
) -> Result<bool, AllocError>
    ensures { IfOk result (λ b. b ≡ signatures.is_too_wide declarations.now function.now.mutating owner (heads.checked_head declarations.now lists.OfFunction function.now.parameters function.now.result (heads.at (suc node.0)))) }
{
    let list = ParameterList::OfFunction;
    let parameters = function.parameters.as_slice();
    let gives = function.result.as_ref();
    match checked_apart(alloc, declarations, node, list, parameters, gives)? {
        Some((parameters, _)) => {
            let parameters = parameters.as_slice();
            let types = &declarations.types;
            Ok(!is_narrow_head(types, function.mutating, owner, parameters))
        }
        None => Ok(false),
    }
}

fn failed_signature(alloc: Global, node: Node, mutating: bool) -> Signature
    ensures { result ≡ signatures.failed_signature node mutating }
{
    Signature {
        node,
        mutating,
        failed: true,
        parameters: Items::new(alloc),
        result: Ty::Void,
        value: None,
    }
}

/// A function with this head.
fn sound_signature(
    alloc: Global,
    declarations: &Declarations,
    node: Node,
    mutating: bool,
    parameters: &[HeadParameter],
    gives: Ty,
) -> Result<Signature, AllocError>
    ensures { IfOk result (λ s. s ≡ signatures.sound_signature declarations.now node mutating (parameters.now, gives)) }
{
    let value = value_number(alloc, declarations, parameters, gives)?;
    Ok(Signature {
        node,
        mutating,
        failed: false,
        parameters: as_signature(alloc, parameters)?,
        result: gives,
        value,
    })
}

fn as_signature(
    alloc: Global,
    mut parameters: &[HeadParameter],
) -> Result<Items<SignatureParameter>, AllocError>
    ensures { IfOk result (λ ps. ps ≡ map signatures.as_signature parameters.entry.now) }
{
    let mut seen = Items::new(alloc);
    'parameters: while let [first, rest @ ..] = parameters {
        seen.push(SignatureParameter {
            label: first.label,
            marker: first.parameter.marker,
            ty: first.parameter.ty,
        })?;
        parameters = rest;
    }
    Ok(seen)
}

/// The number of the type of a function with this head, where it may be taken as a value.
fn value_number(
    alloc: Global,
    declarations: &Declarations,
    parameters: &[HeadParameter],
    gives: Ty,
) -> Result<Option<u32>, AllocError>
    ensures { IfOk result (λ k. k ≡ signatures.value_number declarations.now parameters.now gives) }
{
    if is_no_value(parameters) {
        return Ok(None);
    }
    let function = FunctionType {
        parameters: Listed::new(as_values(alloc, parameters)?),
        result: gives,
    };
    Ok(function_number(declarations, &function))
}

/// Whether a function with these parameters may not be taken as a value.
fn is_no_value(parameters: &[HeadParameter]) -> bool
    ensures { result ≡ list_any signatures.stays_a_function parameters.now }
{
    parameters.iter().any(stays_a_function)
}

/// Whether a function with this parameter isn't a value.
fn stays_a_function(parameter: &HeadParameter) -> bool
    ensures { result ≡ signatures.stays_a_function parameter.now }
{
    match parameter.parameter.marker {
        Marker::Escaping | Marker::Borrowing => true,
        Marker::Plain | Marker::InOut => is_function(parameter.parameter.ty),
    }
}

fn as_values(
    alloc: Global,
    mut parameters: &[HeadParameter],
) -> Result<Items<FunctionParameter>, AllocError>
    ensures { IfOk result (λ ps. ps ≡ map signatures.as_value parameters.entry.now) }
{
    let mut values = Items::new(alloc);
    'parameters: while let [first, rest @ ..] = parameters {
        values.push(FunctionParameter {
            inout: first.parameter.marker == Marker::InOut,
            ty: first.parameter.ty,
        })?;
        parameters = rest;
    }
    Ok(values)
}

/// The subscript at this node, as calls see it.
pub fn subscript(
    alloc: Global,
    declarations: &Declarations,
    node: Node,
    accessors: Accessors,
    written: &sx_tree::Subscript,
) -> Result<Subscript, AllocError>
    ensures { IfOk result (λ s. s ≡ signatures.subscript declarations.now node accessors written.now) }
{
    let parameters = written.parameters.as_slice();
    let gives = Some(&written.result);
    match typed_apart(alloc, declarations, node, parameters, gives)? {
        Some((parameters, ty)) => {
            if is_void(ty) {
                return Ok(failed_subscript(alloc, node, accessors));
            }
            Ok(Subscript {
                node,
                failed: false,
                parameters: types_of(alloc, parameters.as_slice())?,
                ty,
                accessors,
            })
        }
        None => Ok(failed_subscript(alloc, node, accessors)),
    }
}

fn failed_subscript(alloc: Global, node: Node, accessors: Accessors) -> Subscript
    ensures { result ≡ signatures.failed_subscript node accessors }
{
    Subscript {
        node,
        failed: true,
        parameters: Items::new(alloc),
        ty: Ty::Void,
        accessors,
    }
}

fn types_of(alloc: Global, mut parameters: &[HeadParameter]) -> Result<Items<Ty>, AllocError>
    ensures { IfOk result (λ ts. ts ≡ map signatures.type_of parameters.entry.now) }
{
    let mut types = Items::new(alloc);
    'parameters: while let [first, rest @ ..] = parameters {
        types.push(first.parameter.ty)?;
        parameters = rest;
    }
    Ok(types)
}
