// What a call is.

ghost use Rattle.std.specs.Prelude.{◌≡◌, IfOk, option_copied};
ghost use Rattle.sx_calls.specs.Calls as calls;
ghost use Rattle.sx_scope.specs.Verdict.{Answers, typed, unless_broken};
ghost use Rattle.sx_typed.specs.declared.code.Form.TheVariants as forms;

use crate::conditions::{fails, unless_broken};
use crate::pairing::has_failed;
use crate::passed::Passed;
use sqlite_items::{Boxed, Items};
use std::alloc::{AllocError, Global};
use sx_scope::{
    Asked, Callee, Declarations, DeclaredType, Found, Judged, Signature, TypeKind, Walk,
    declared_type, into_path, is_agreed, is_modifiable,
};
use sx_span::Node;
use sx_typed::{Argument, Expr, Form, Given};
use sx_types::{FunctionType, Ty};

/// A call, by what is called and its arguments.
pub fn called(
    alloc: Global,
    declarations: &Declarations,
    walk: &Walk,
    asked: Asked,
    node: Node,
    site: u32,
    counted: bool,
    callee: Callee,
    passed: Passed,
) -> Judged
    ensures { Answers result walk.now (calls.called declarations.now asked node site counted (callee, passed) walk.now) }
{
    match callee {
        Callee::Function(number) => {
            let signature = declarations.functions.get(number as usize);
            function_called(walk, asked, node, site, counted, passed, signature)
        }
        Callee::Method(number, base) => {
            let signature = declarations.functions.get(number as usize);
            method_called(
                alloc, walk, asked, node, site, counted, base, passed, signature,
            )
        }
        Callee::Value(value, number) => {
            let function = declarations.types.functions.as_slice().get(number as usize);
            value_called(
                alloc, walk, asked, node, site, counted, value, passed, function,
            )
        }
        Callee::Initialiser(ty) => {
            let declared = declared_type(declarations, ty);
            initialised(
                declarations,
                walk,
                asked,
                node,
                site,
                counted,
                ty,
                passed,
                declared,
            )
        }
        Callee::Print => print_called(alloc, walk, asked, node, site, counted, passed),
    }
}

fn function_called(
    walk: &Walk,
    asked: Asked,
    node: Node,
    site: u32,
    counted: bool,
    passed: Passed,
    signature: Option<&Signature>,
) -> Judged
    ensures { Answers result walk.now (calls.function_called asked node site counted passed.arguments (option_copied signature.entry) walk.now) }
{
    let Some(signature) = signature else {
        return Ok(Found::Depends);
    };
    let form = Form::Call(signature.node, passed.arguments);
    call_expr(walk, asked, node, site, counted, signature.result, form)
}

fn method_called(
    alloc: Global,
    walk: &Walk,
    asked: Asked,
    node: Node,
    site: u32,
    counted: bool,
    base: Expr,
    passed: Passed,
    signature: Option<&Signature>,
) -> Judged
    ensures { Answers result walk.now (calls.method_called asked node site counted base passed.arguments (option_copied signature.entry) walk.now) }
{
    match signature {
        Some(signature) => {
            let broken = broken_method(asked, counted, &base, signature);
            method_judged(
                alloc,
                walk,
                broken,
                node,
                site,
                base,
                passed.arguments,
                signature,
            )
        }
        None => Ok(Found::Depends),
    }
}

fn method_judged(
    alloc: Global,
    walk: &Walk,
    broken: Option<TypeKind>,
    node: Node,
    site: u32,
    base: Expr,
    arguments: Items<Argument>,
    signature: &Signature,
) -> Judged
    ensures { Answers result walk.now (unless_broken broken node (typed (calls.method_expr node site base arguments signature.now)) walk.now) }
{
    let call = method_expr(alloc, node, site, base, arguments, signature)?;
    unless_broken(walk, broken, node, call)
}

/// The first condition that a call of a method breaks.
fn broken_method(
    asked: Asked,
    counted: bool,
    base: &Expr,
    signature: &Signature,
) -> Option<TypeKind>
    ensures { result ≡ calls.broken_method asked counted base.now signature.now }
{
    match broken_call(asked, counted, signature.result) {
        Some(kind) => Some(kind),
        None => {
            if !signature.mutating || is_modifiable(base) {
                None
            } else {
                Some(TypeKind::MutatingOnValue)
            }
        }
    }
}

fn method_expr(
    alloc: Global,
    node: Node,
    site: u32,
    base: Expr,
    arguments: Items<Argument>,
    signature: &Signature,
) -> Result<Expr, AllocError>
    ensures { IfOk result (λ e. e ≡ calls.method_expr node site base arguments signature.now) }
{
    let form = method_form(alloc, signature.mutating, signature.node, base, arguments)?;
    Ok(Expr {
        node,
        site,
        ty: signature.result,
        form,
    })
}

fn method_form(
    alloc: Global,
    mutating: bool,
    node: Node,
    base: Expr,
    arguments: Items<Argument>,
) -> Result<Form, AllocError>
    ensures { IfOk result (λ f. f ≡ calls.method_form mutating node base arguments) }
{
    if mutating {
        Ok(Form::CallMutating(node, into_path(alloc, base)?, arguments))
    } else {
        Ok(Form::CallMethod(node, Boxed::new(alloc, base)?, arguments))
    }
}

fn value_called(
    alloc: Global,
    walk: &Walk,
    asked: Asked,
    node: Node,
    site: u32,
    counted: bool,
    value: Expr,
    passed: Passed,
    function: Option<&FunctionType>,
) -> Judged
    ensures { Answers result walk.now (calls.value_called asked node site counted value passed.arguments (option_copied function.entry) walk.now) }
{
    match function {
        Some(function) => {
            let ty = function.result;
            function_value_called(
                alloc,
                walk,
                asked,
                node,
                site,
                counted,
                value,
                passed.arguments,
                ty,
            )
        }
        None => Ok(Found::Depends),
    }
}

fn function_value_called(
    alloc: Global,
    walk: &Walk,
    asked: Asked,
    node: Node,
    site: u32,
    counted: bool,
    value: Expr,
    arguments: Items<Argument>,
    ty: Ty,
) -> Judged
    ensures { Answers result walk.now (calls.call_expr asked node site counted ty (forms.CallValue value arguments) walk.now) }
{
    let form = value_form(alloc, value, arguments)?;
    call_expr(walk, asked, node, site, counted, ty, form)
}

fn value_form(alloc: Global, value: Expr, arguments: Items<Argument>) -> Result<Form, AllocError>
    ensures { IfOk result (λ f. f ≡ forms.CallValue value arguments) }
{
    Ok(Form::CallValue(Boxed::new(alloc, value)?, arguments))
}

fn initialised(
    declarations: &Declarations,
    walk: &Walk,
    asked: Asked,
    node: Node,
    site: u32,
    counted: bool,
    ty: Ty,
    passed: Passed,
    declared: Option<&DeclaredType>,
) -> Judged
    ensures { Answers result walk.now (calls.initialised declarations.now asked node site counted ty passed.given (option_copied declared.entry) walk.now) }
{
    let Some(declared) = declared else {
        return Ok(Found::Depends);
    };
    if has_failed(declarations, declared) {
        return Ok(Found::Depends);
    }
    call_expr(
        walk,
        asked,
        node,
        site,
        counted,
        ty,
        Form::Initialise(ty, passed.given),
    )
}

fn print_called(
    alloc: Global,
    walk: &Walk,
    asked: Asked,
    node: Node,
    site: u32,
    counted: bool,
    passed: Passed,
) -> Judged
    ensures { Answers result walk.now (calls.print_called asked node site counted passed.printed walk.now) }
{
    let printed = passed.printed;
    match printed {
        Some(value) => {
            let form = Form::Print(Boxed::new(alloc, value)?);
            call_expr(walk, asked, node, site, counted, Ty::Void, form)
        }
        None => {
            if is_agreed(asked, Ty::Void) {
                fails(walk, TypeKind::ArgumentCount, node)
            } else {
                fails(walk, TypeKind::Mismatch, node)
            }
        }
    }
}

/// A call of this type, which fails where it breaks a condition.
fn call_expr(
    walk: &Walk,
    asked: Asked,
    node: Node,
    site: u32,
    counted: bool,
    ty: Ty,
    form: Form,
) -> Judged
    ensures { Answers result walk.now (calls.call_expr asked node site counted ty form walk.now) }
{
    let call = Expr {
        node,
        site,
        ty,
        form,
    };
    unless_broken(walk, broken_call(asked, counted, ty), node, call)
}

/// The first condition that a call of this type breaks. `counted` tells whether no parameter and
/// no argument is left over.
pub(crate) fn broken_call(asked: Asked, counted: bool, ty: Ty) -> Option<TypeKind>
    ensures { result ≡ calls.broken_call asked counted ty }
{
    if !is_agreed(asked, ty) {
        Some(TypeKind::Mismatch)
    } else if !counted {
        Some(TypeKind::ArgumentCount)
    } else {
        None
    }
}
