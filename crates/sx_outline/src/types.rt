// Written types, and the parameters and signatures that are made of them.

ghost use Rattle.std.specs.Prelude.{◌≡◌, [], IfOk, OnOk, Some, map, nat_eq};
ghost use Rattle.indexmap.specs.IndexMap.{get};
ghost use Rattle.sx_outline.specs.Visit.{closure_parameter_visit, function_found, one_more, passed, run_parameters, signature_visit, type_or, type_parameter_visit, type_passed, type_visit};

use crate::visit::Visit;
use indexmap::IndexMap;
use sqlite_items::Items;
use std::alloc::{AllocError, Global};
use sx_tree::{ClosureParameter, Signature, TypeForm, TypeParameter, WrittenType};
use sx_types::{FunctionParameter, FunctionType, Listed, Ty};

/// Parameters, if the types of all are known.
pub type FoundParameters = Option<Items<FunctionParameter>>;

/// Visits a written type, and tells it if each name in it means a type.
#[cycle(types)]
pub fn visit_type(
    alloc: Global,
    names: &IndexMap<u32, Ty>,
    visit: &mut Visit,
    ty: &WrittenType,
) -> Result<Option<Ty>, AllocError>
    ensures { IfOk result (λ o. (o, visit.new) ≡ type_visit (get nat_eq names.now) ty.now visit.old) }
{
    visit.count(1)?;
    match &ty.form {
        TypeForm::Named(name) => Ok(names.get(name).copied()),
        TypeForm::Unit => Ok(Some(Ty::Void)),
        TypeForm::Bracketed(inner) => visit_type(alloc, names, visit, inner.get()),
        TypeForm::Function(parameters, gives) => {
            let parameters = visit_type_parameters(alloc, names, visit, parameters.as_slice())?;
            let gives = visit_type(alloc, names, visit, gives.get())?;
            find_function(visit, parameters, gives)
        }
        TypeForm::Array(_) => Ok(Some(Ty::Array)),
    }
}

#[cycle(types)]
fn visit_type_parameters(
    alloc: Global,
    names: &IndexMap<u32, Ty>,
    visit: &mut Visit,
    parameters: &[TypeParameter],
) -> Result<FoundParameters, AllocError>
    ensures { IfOk result (λ o. (o, visit.new) ≡ run_parameters (map (type_parameter_visit (get nat_eq names.now)) parameters.now) (Some []) visit.old) }
{
    let mut all = Some(Items::new(alloc));
    'turns: for parameter in parameters {
        let ty = visit_type(alloc, names, visit, &parameter.ty)?;
        all = with_one_more(all, pass(parameter.inout, ty))?;
    }
    Ok(all)
}

/// A parameter of a type, if that is known.
pub fn pass(inout: bool, ty: Option<Ty>) -> Option<FunctionParameter>
    ensures { (v : _) → (result, v) ≡ passed inout (ty, v) }
{
    match ty {
        Some(ty) => Some(FunctionParameter { inout, ty }),
        None => None,
    }
}

/// Parameters and one behind them, if all are known.
pub fn with_one_more(
    all: FoundParameters,
    one: Option<FunctionParameter>,
) -> Result<FoundParameters, AllocError>
    ensures { IfOk result (λ o. o ≡ one_more all one) }
{
    match (all, one) {
        (Some(mut all), Some(one)) => {
            all.push(one)?;
            Ok(Some(all))
        }
        _ => Ok(None),
    }
}

/// Gathers the function type of these parameters and this result, if they are known.
pub fn find_function(
    visit: &mut Visit,
    parameters: FoundParameters,
    gives: Option<Ty>,
) -> Result<Option<Ty>, AllocError>
    ensures { IfOk result (λ o. (o, visit.new) ≡ function_found parameters gives visit.old) }
{
    match (parameters, gives) {
        (Some(parameters), Some(gives)) => {
            let function = FunctionType {
                parameters: Listed::new(parameters),
                result: gives,
            };
            Ok(Some(visit.gather(function)?))
        }
        _ => Ok(None),
    }
}

/// Visits a type that may be written. Where it isn't, it is the one that is given.
pub fn visit_type_or(
    alloc: Global,
    names: &IndexMap<u32, Ty>,
    visit: &mut Visit,
    absent: Ty,
    ty: &Option<WrittenType>,
) -> Result<Option<Ty>, AllocError>
    ensures { IfOk result (λ o. (o, visit.new) ≡ type_or (get nat_eq names.now) absent ty.now visit.old) }
{
    match ty {
        Some(ty) => visit_type(alloc, names, visit, ty),
        None => Ok(Some(absent)),
    }
}

/// Passes a type that may be written.
pub fn pass_type(
    alloc: Global,
    names: &IndexMap<u32, Ty>,
    visit: &mut Visit,
    ty: &Option<WrittenType>,
) -> Result<(), AllocError>
    ensures { OnOk result (visit.new ≡ type_passed (get nat_eq names.now) ty.now visit.old) }
{
    visit_type_or(alloc, names, visit, Ty::Void, ty)?;
    Ok(())
}

/// Visits the signature of a closure literal.
pub fn visit_signature(
    alloc: Global,
    names: &IndexMap<u32, Ty>,
    visit: &mut Visit,
    signature: &Signature,
) -> Result<(), AllocError>
    ensures { OnOk result (visit.new ≡ signature_visit (get nat_eq names.now) signature.now visit.old) }
{
    match signature {
        Signature::Absent => Ok(()),
        Signature::Names(written) => visit.count(written.len()),
        Signature::Typed(parameters, gives) => {
            let parameters = visit_closure_parameters(alloc, names, visit, parameters.as_slice())?;
            let gives = visit_type_or(alloc, names, visit, Ty::Void, gives)?;
            find_function(visit, parameters, gives)?;
            Ok(())
        }
    }
}

fn visit_closure_parameters(
    alloc: Global,
    names: &IndexMap<u32, Ty>,
    visit: &mut Visit,
    parameters: &[ClosureParameter],
) -> Result<FoundParameters, AllocError>
    ensures { IfOk result (λ o. (o, visit.new) ≡ run_parameters (map (closure_parameter_visit (get nat_eq names.now)) parameters.now) (Some []) visit.old) }
{
    let mut all = Some(Items::new(alloc));
    'turns: for parameter in parameters {
        visit.count(1)?;
        let ty = visit_type(alloc, names, visit, &parameter.ty)?;
        all = with_one_more(all, pass(parameter.inout, ty))?;
    }
    Ok(all)
}
