// What the arguments of a call are for.

ghost use Rattle.std.specs.List.{list_any};
ghost use Rattle.std.specs.Prelude.{◌≡◌, ◌+◌, ◌<◌, IfOk, IfSome, length, map, option_copied, position};
ghost use Rattle.sx_calls.specs.Calls as calls;
ghost use Rattle.sx_scope.specs.Names as names;
ghost use Rattle.sx_scope.specs.Verdict.{typed_part};

use crate::passed::{Pairing, Shape, Slot, Wanted};
use sqlite_items::Items;
use std::alloc::{AllocError, Global};
use sx_scope::{
    Callee, Declarations, DeclaredType, Found, Known, Signature, SignatureParameter,
    StoredProperty, TypeKind, declared_type, known_of,
};
use sx_typed::Marker;
use sx_types::{FunctionParameter, FunctionType, Ty};

/// What the arguments of a call are for, by what is called.
pub fn pair(
    alloc: Global,
    declarations: &Declarations,
    callee: &Found<Callee>,
    shapes: &[Shape],
) -> Result<Pairing, AllocError>
    ensures { IfOk result (λ p. p ≡ calls.pairing declarations.now (typed_part callee.now) shapes.now) }
{
    match callee {
        Found::Typed(callee) => pair_with(alloc, declarations, callee, shapes),
        Found::Untold | Found::Depends => unpaired(alloc, shapes),
    }
}

fn pair_with(
    alloc: Global,
    declarations: &Declarations,
    callee: &Callee,
    shapes: &[Shape],
) -> Result<Pairing, AllocError>
    ensures { IfOk result (λ p. p ≡ calls.pairing declarations.now (Some callee.now) shapes.now) }
{
    match callee {
        Callee::Function(number) | Callee::Method(number, _) => {
            for_signature(alloc, declarations.functions.get(*number as usize), shapes)
        }
        Callee::Value(_, number) => {
            for_function(
                alloc,
                declarations
                    .types
                    .functions
                    .as_slice()
                    .get(*number as usize),
                shapes,
            )
        }
        Callee::Initialiser(ty) => given_to_type(
            alloc,
            declarations,
            *ty,
            shapes,
            declared_type(declarations, *ty),
        ),
        Callee::Print => for_print(alloc, shapes),
    }
}

/// Each argument by itself.
fn unpaired(alloc: Global, shapes: &[Shape]) -> Result<Pairing, AllocError>
    ensures { IfOk result (λ p. p ≡ calls.unpaired shapes.now) }
{
    Ok(Pairing {
        slots: Items::from_vec(all_loose(alloc, shapes)?),
        counted: false,
    })
}

fn all_loose(alloc: Global, shapes: &[Shape]) -> Result<Vec<Slot>, AllocError>
    ensures { IfOk result (λ v. v.items ≡ calls.all_loose shapes.now) }
{
    shapes.iter().map(|_| Slot::Loose).collect(alloc)
}

/// One argument for each parameter of a function or method.
fn for_signature(
    alloc: Global,
    signature: Option<&Signature>,
    shapes: &[Shape],
) -> Result<Pairing, AllocError>
    ensures { IfOk result (λ p. p ≡ calls.for_signature (option_copied signature.entry) shapes.now) }
{
    let parameters = parameters_of(signature);
    if parameters.len() == shapes.len() {
        Ok(paired(slots_for(alloc, parameters)?))
    } else {
        unpaired(alloc, shapes)
    }
}

fn parameters_of(signature: Option<&Signature>) -> &[SignatureParameter]
    ensures { result.now ≡ calls.parameters_of (option_copied signature.entry) }
{
    match signature {
        Some(signature) => signature.parameters.as_slice(),
        None => &[],
    }
}

/// One argument for each parameter of a function value.
fn for_function(
    alloc: Global,
    function: Option<&FunctionType>,
    shapes: &[Shape],
) -> Result<Pairing, AllocError>
    ensures { IfOk result (λ p. p ≡ calls.for_function (option_copied function.entry) shapes.now) }
{
    let parameters = function_parameters_of(function);
    if parameters.len() == shapes.len() {
        Ok(paired(function_slots_for(alloc, parameters)?))
    } else {
        unpaired(alloc, shapes)
    }
}

fn function_parameters_of(function: Option<&FunctionType>) -> &[FunctionParameter]
    ensures { result.now ≡ calls.function_parameters_of (option_copied function.entry) }
{
    match function {
        Some(function) => function.parameters.as_slice(),
        None => &[],
    }
}

fn slots_for(alloc: Global, parameters: &[SignatureParameter]) -> Result<Vec<Slot>, AllocError>
    ensures { IfOk result (λ v. v.items ≡ map calls.for_parameter parameters.now) }
{
    parameters.iter().map(for_parameter).collect(alloc)
}

fn function_slots_for(
    alloc: Global,
    parameters: &[FunctionParameter],
) -> Result<Vec<Slot>, AllocError>
    ensures { IfOk result (λ v. v.items ≡ map calls.for_function_parameter parameters.now) }
{
    parameters.iter().map(for_function_parameter).collect(alloc)
}

fn paired(slots: Vec<Slot>) -> Pairing
    ensures { result ≡ calls.paired slots.items }
{
    Pairing {
        slots: Items::from_vec(slots),
        counted: true,
    }
}

fn for_parameter(parameter: &SignatureParameter) -> Slot
    ensures { result ≡ calls.for_parameter parameter.now }
{
    Slot::For(Wanted {
        label: parameter.label,
        inout: matches!(parameter.marker, Marker::InOut),
        ty: parameter.ty,
        lent: matches!(parameter.marker, Marker::Plain) && is_function(parameter.ty),
    })
}

fn for_function_parameter(parameter: &FunctionParameter) -> Slot
    ensures { result ≡ calls.for_function_parameter parameter.now }
{
    Slot::For(Wanted {
        label: None,
        inout: parameter.inout,
        ty: parameter.ty,
        lent: !parameter.inout && is_function(parameter.ty),
    })
}

fn is_function(ty: Ty) -> bool
    ensures { result ≡ names.is_function ty }
{
    matches!(ty, Ty::Func(_))
}

/// The one argument of `print`.
fn for_print(alloc: Global, shapes: &[Shape]) -> Result<Pairing, AllocError>
    ensures { IfOk result (λ p. p ≡ calls.print_pairing shapes.now) }
{
    let [_] = shapes else {
        return unpaired(alloc, shapes);
    };
    let mut slots = Vec::new(alloc);
    slots.push(Slot::Printed)?;
    Ok(paired(slots))
}

/// The arguments of the initialiser of a structure or class.
fn given_to_type(
    alloc: Global,
    declarations: &Declarations,
    ty: Ty,
    shapes: &[Shape],
    declared: Option<&DeclaredType>,
) -> Result<Pairing, AllocError>
    ensures { IfOk result (λ p. p ≡ calls.given_to_type declarations.now ty shapes.now (option_copied declared.entry)) }
{
    let Some(declared) = declared else {
        return unpaired(alloc, shapes);
    };
    if has_failed(declarations, declared) {
        return unpaired(alloc, shapes);
    }
    given_to(alloc, declarations, stored_in(ty, declared), shapes)
}

fn stored_in(ty: Ty, declared: &DeclaredType) -> &[StoredProperty]
    ensures { result.now ≡ calls.stored_in ty declared.now }
{
    match ty {
        Ty::Struct(_) => declared.stored.as_slice(),
        _ => &[],
    }
}

/// Whether a structure or class has failed itself, or one of its stored properties has.
pub(crate) fn has_failed(declarations: &Declarations, declared: &DeclaredType) -> bool
    ensures { result ≡ calls.has_failed declarations.now declared.now }
{
    declared.failed
        || declared.lacks_property
        || lacks_known(declarations, declared.stored.as_slice())
}

/// Whether one of these properties has failed.
fn lacks_known(declarations: &Declarations, stored: &[StoredProperty]) -> bool
    ensures { result ≡ list_any (calls.property_failed declarations.now) stored.now }
{
    stored
        .iter()
        .any(|property| property_failed(declarations, property))
}

fn property_failed(declarations: &Declarations, property: &StoredProperty) -> bool
    ensures { result ≡ calls.property_failed declarations.now property.now }
{
    matches!(known_of(declarations, property.ty), Known::Failed)
}

/// The arguments of an initialiser with these properties.
fn given_to(
    alloc: Global,
    declarations: &Declarations,
    stored: &[StoredProperty],
    shapes: &[Shape],
) -> Result<Pairing, AllocError>
    ensures { IfOk result (λ p. p ≡ calls.given_to declarations.now stored.now shapes.now) }
{
    if takes(stored, shapes.len()) {
        given_in_order(alloc, declarations, stored, shapes)
    } else {
        unpaired(alloc, shapes)
    }
}

/// Whether an initialiser with these properties takes so many arguments.
fn takes(stored: &[StoredProperty], count: usize) -> bool
    ensures { result ≡ calls.as_many stored.now count }
{
    stored.iter().filter(|property| is_needed(property)).count() <= count && count <= stored.len()
}

fn is_needed(property: &StoredProperty) -> bool
    ensures { result ≡ calls.is_needed property.now }
{
    !property.has_default
}

fn lacks_one(stored: &[StoredProperty]) -> bool
    ensures { result ≡ calls.lacks_one stored.now }
{
    stored.iter().any(is_needed)
}

/// Each argument for the next property with its label.
fn given_in_order(
    alloc: Global,
    declarations: &Declarations,
    stored: &[StoredProperty],
    shapes: &[Shape],
) -> Result<Pairing, AllocError>
    ensures { IfOk result (λ p. p ≡ calls.given_from declarations.now 0 stored.now shapes.now) }
{
    let mut slots = Vec::new(alloc);
    let mut counted = true;
    let mut number = 0;
    let mut coming = stored;
    'turns: for shape in shapes {
        let count = left_out(*shape, coming);
        let slot = slot_for(declarations, number, coming, count)?;
        slots.push(slot)?;
        let fitting = fits(coming, count);
        counted = counted && fitting;
        number = number_behind(number, count)?;
        coming = coming_behind(coming, count);
    }
    Ok(Pairing {
        slots: Items::from_vec(slots),
        counted: counted && !lacks_one(coming),
    })
}

/// How many of the properties that may still come are left out before the one that an argument is
/// for.
fn left_out(shape: Shape, coming: &[StoredProperty]) -> Option<usize>
    ensures count { result ≡ calls.left_out shape coming.now }
    ensures within { IfSome result (λ k. k < length coming.now) }
{
    if shape.trailing {
        before_last(coming)
    } else {
        match shape.label {
            Some(label) => labelled(label, coming),
            None => None,
        }
    }
}

fn before_last(coming: &[StoredProperty]) -> Option<usize>
    ensures count { result ≡ calls.before_last coming.now }
    ensures within { IfSome result (λ k. k < length coming.now) }
{
    match coming {
        [_, others @ ..] => Some(others.len()),
        [] => None,
    }
}

fn labelled(label: u32, coming: &[StoredProperty]) -> Option<usize>
    ensures count { result ≡ calls.labelled label coming.now }
    ensures within { IfSome result (λ k. k < length coming.now) }
{
    match first_end(label, coming) {
        Some(count) => {
            if has_label(label, coming.get(count)) {
                Some(count)
            } else {
                None
            }
        }
        None => None,
    }
}

fn has_label(label: u32, property: Option<&StoredProperty>) -> bool
    ensures { result ≡ calls.has_label label (option_copied property.entry) }
{
    match property {
        Some(property) => property.name == label,
        None => false,
    }
}

fn first_end(label: u32, coming: &[StoredProperty]) -> Option<usize>
    ensures count { result ≡ position (calls.ends label) coming.now }
    ensures within { IfSome result (λ k. k < length coming.now) }
{
    coming.iter().position(|property| ends(label, property))
}

/// Whether a property has this label, or may not be left out.
fn ends(label: u32, property: &StoredProperty) -> bool
    ensures { result ≡ calls.ends label property.now }
{
    property.name == label || !property.has_default
}

/// What an argument is for, where the properties from this number on may still come, and so many
/// of them are left out. Numbers that run out count as memory that does.
fn slot_for(
    declarations: &Declarations,
    number: u32,
    coming: &[StoredProperty],
    left_out: Option<usize>,
) -> Result<Slot, AllocError>
    ensures { IfOk result (λ s. s ≡ calls.slot_for declarations.now number coming.now left_out) }
{
    let Some(count) = left_out else {
        return Ok(Slot::Failing(TypeKind::ArgumentLabel));
    };
    let number = sum(number, count)?;
    match coming.get(count) {
        Some(property) => Ok(property_slot(declarations, number, property)),
        None => Ok(Slot::Failing(TypeKind::ArgumentLabel)),
    }
}

fn property_slot(declarations: &Declarations, number: u32, property: &StoredProperty) -> Slot
    ensures { result ≡ calls.property_slot number property.now (names.known_in declarations.now property.now.ty) }
{
    match known_of(declarations, property.ty) {
        Known::Type(ty) => Slot::Property(
            number,
            Wanted {
                label: Some(property.name),
                inout: false,
                ty,
                lent: false,
            },
        ),
        Known::Circular => Slot::Failing(TypeKind::NeedsType),
        Known::Untold | Known::Failed => Slot::Unknown,
    }
}

/// Whether no property without a default is left out.
fn fits(coming: &[StoredProperty], left_out: Option<usize>) -> bool
    requires { IfSome left_out (λ k. k < length coming.now) }
    ensures { result ≡ calls.fits coming.now left_out }
{
    match left_out {
        Some(count) => !lacks_one(&coming[..count]),
        None => true,
    }
}

/// The number of the property behind the one that an argument is for.
fn number_behind(number: u32, left_out: Option<usize>) -> Result<u32, AllocError>
    ensures { IfOk result (λ n. n ≡ calls.number_behind number left_out) }
{
    match left_out {
        Some(count) => sum(sum(number, count)?, 1),
        None => Ok(number),
    }
}

/// The properties behind the one that an argument is for.
fn coming_behind(coming: &[StoredProperty], left_out: Option<usize>) -> &[StoredProperty]
    requires { IfSome left_out (λ k. k < length coming.now) }
    ensures { result.now ≡ calls.coming coming.now left_out }
{
    match left_out {
        Some(count) => &coming[count + 1..],
        None => coming,
    }
}

fn sum(number: u32, count: usize) -> Result<u32, AllocError>
    ensures { IfOk result (λ n. n ≡ count + number) }
{
    let Ok(count) = u32::try_from(count) else {
        return Err(AllocError);
    };
    match number.checked_add(count) {
        Some(number) => Ok(number),
        None => Err(AllocError),
    }
}
