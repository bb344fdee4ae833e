// What expressions and paths mention.

ghost use Rattle.std.specs.Prelude.{◌≡◌, ◌++◌, ◌∷◌, [], OnOk, map};
ghost use Rattle.sx_late.specs.Mentions.{all, argument_mentions, call_mentions, component_mentions, expr_mentions, given_mentions, global_mentions, head_mentions, if_there, parts_mention, path_mentions, purpose_before};

use crate::mentions::{
    Mentioned, Purpose, purpose_before, put_accessors, put_function, put_initialiser, put_observers,
};
use sqlite_items::{Boxed, Items};
use std::alloc::AllocError;
use sx_span::Node;
use sx_typed::{
    Argument, Component, ComponentForm, Expr, Form, Given, GlobalMention, Head, HeadForm, Lvalue,
    Typed,
};

/// Adds what an expression mentions.
#[cycle(mentions)]
pub fn put_expr(
    mentions: &mut Items<Mentioned>,
    typed: &Typed,
    expr: &Expr,
) -> Result<(), AllocError>
    ensures { OnOk result (mentions.new ≡ mentions.old ++ expr_mentions typed.now expr.now) }
{
    match &expr.form {
        Form::Int(_) | Form::LeastInt | Form::Bool(_) | Form::Constant(_) | Form::PrintText(_) =>
            Ok(()),
        Form::Elements(elements) => put_exprs(mentions, typed, elements.as_slice()),
        Form::GlobalConstant(global) => put_global(mentions, typed, global),
        Form::Function(node) | Form::Closure(node) => put_function(mentions, *node),
        Form::Bracketed(inner) | Form::Negate(inner) | Form::Not(inner) | Form::Print(inner) => {
            put_expr(mentions, typed, inner.get())
        }
        Form::Read(path) => put_path(mentions, typed, path, Purpose::Read),
        Form::Operation(_, left, right) | Form::And(left, right) | Form::Or(left, right) => {
            put_expr(mentions, typed, left.get())?;
            put_expr(mentions, typed, right.get())
        }
        Form::Call(node, arguments) => put_call(mentions, typed, *node, arguments.as_slice()),
        Form::CallMethod(node, base, arguments) => {
            put_expr(mentions, typed, base.get())?;
            put_call(mentions, typed, *node, arguments.as_slice())
        }
        Form::CallMutating(node, path, arguments) => {
            put_path(mentions, typed, path, Purpose::Modify)?;
            put_call(mentions, typed, *node, arguments.as_slice())
        }
        Form::CallValue(function, arguments) => {
            put_expr(mentions, typed, function.get())?;
            put_arguments(mentions, typed, arguments.as_slice())
        }
        Form::Initialise(ty, given) => {
            put_initialiser(mentions, typed, *ty)?;
            put_given(mentions, typed, given.as_slice())
        }
    }
}

#[cycle(mentions)]
fn put_exprs(
    mentions: &mut Items<Mentioned>,
    typed: &Typed,
    exprs: &[Expr],
) -> Result<(), AllocError>
    ensures { OnOk result (mentions.new ≡ mentions.old ++ all (map (expr_mentions typed.now) exprs.now)) }
{
    for expr in exprs {
        put_expr(mentions, typed, expr)?;
    }
    Ok(())
}

/// Adds the function that is called, and what the arguments mention.
#[cycle(mentions)]
fn put_call(
    mentions: &mut Items<Mentioned>,
    typed: &Typed,
    node: Node,
    arguments: &[Argument],
) -> Result<(), AllocError>
    ensures { OnOk result (mentions.new ≡ mentions.old ++ call_mentions node (map (argument_mentions typed.now) arguments.now)) }
{
    put_function(mentions, node)?;
    put_arguments(mentions, typed, arguments)
}

#[cycle(mentions)]
fn put_given(
    mentions: &mut Items<Mentioned>,
    typed: &Typed,
    given: &[Given],
) -> Result<(), AllocError>
    ensures { OnOk result (mentions.new ≡ mentions.old ++ all (map (given_mentions typed.now) given.now)) }
{
    for property in given {
        put_expr(mentions, typed, &property.value)?;
    }
    Ok(())
}

#[cycle(mentions)]
fn put_arguments(
    mentions: &mut Items<Mentioned>,
    typed: &Typed,
    arguments: &[Argument],
) -> Result<(), AllocError>
    ensures { OnOk result (mentions.new ≡ mentions.old ++ all (map (argument_mentions typed.now) arguments.now)) }
{
    for argument in arguments {
        put_argument(mentions, typed, argument)?;
    }
    Ok(())
}

#[cycle(mentions)]
fn put_argument(
    mentions: &mut Items<Mentioned>,
    typed: &Typed,
    argument: &Argument,
) -> Result<(), AllocError>
    ensures { OnOk result (mentions.new ≡ mentions.old ++ argument_mentions typed.now argument.now) }
{
    match argument {
        Argument::Value(value) => put_expr(mentions, typed, value),
        Argument::InOut(_, path) => put_path(mentions, typed, path, Purpose::Modify),
        Argument::Borrowed(_, path) => put_path(mentions, typed, path, Purpose::Read),
        Argument::Literal(node) => put_function(mentions, *node),
    }
}

#[cycle(mentions)]
fn put_global(
    mentions: &mut Items<Mentioned>,
    typed: &Typed,
    global: &GlobalMention,
) -> Result<(), AllocError>
    ensures { OnOk result (mentions.new ≡ mentions.old ++ global_mentions typed.now global.now) }
{
    if let Some(before) = &global.before {
        put_expr(mentions, typed, before.get())?;
    }
    mentions.push(Mentioned::Global(global.global))
}

/// Adds what a path mentions that is evaluated for this.
#[cycle(mentions)]
pub fn put_path(
    mentions: &mut Items<Mentioned>,
    typed: &Typed,
    path: &Lvalue,
    purpose: Purpose,
) -> Result<(), AllocError>
    ensures { OnOk result (mentions.new ≡ mentions.old ++ path_mentions typed.now path.now purpose) }
{
    let components = path.components.as_slice();
    let head_purpose = purpose_before(components, purpose);
    put_head(mentions, typed, &path.head, head_purpose)?;
    put_components(mentions, typed, components, purpose)
}

#[cycle(mentions)]
fn put_head(
    mentions: &mut Items<Mentioned>,
    typed: &Typed,
    head: &Head,
    purpose: Purpose,
) -> Result<(), AllocError>
    ensures { OnOk result (mentions.new ≡ mentions.old ++ head_mentions typed.now head.now purpose) }
{
    match &head.form {
        HeadForm::Variable(_) => Ok(()),
        HeadForm::Global(global) => put_global(mentions, typed, global),
        HeadForm::GlobalObserved(global, observers) => {
            put_global(mentions, typed, global)?;
            put_observers(mentions, *observers, purpose)
        }
        HeadForm::GlobalComputed(accessors) => put_accessors(mentions, *accessors, purpose),
        HeadForm::Property(base, _) => put_expr(mentions, typed, base.get()),
        HeadForm::PropertyObserved(base, _, observers) => {
            put_expr(mentions, typed, base.get())?;
            put_observers(mentions, *observers, purpose)
        }
        HeadForm::PropertyComputed(base, accessors) => {
            put_expr(mentions, typed, base.get())?;
            put_accessors(mentions, *accessors, purpose)
        }
        HeadForm::PropertySubscript(base, arguments, accessors) => {
            put_expr(mentions, typed, base.get())?;
            put_exprs(mentions, typed, arguments.as_slice())?;
            put_accessors(mentions, *accessors, purpose)
        }
        HeadForm::Evaluated(value) => put_expr(mentions, typed, value.get()),
    }
}

#[cycle(mentions)]
fn put_components(
    mentions: &mut Items<Mentioned>,
    typed: &Typed,
    components: &[Component],
    purpose: Purpose,
) -> Result<(), AllocError>
    ensures { OnOk result (mentions.new ≡ mentions.old ++ parts_mention (map (component_mentions typed.now) components.now) purpose) }
{
    for (index, component) in components.iter().enumerate() {
        let part_purpose = purpose_before(&components[index + 1..], purpose);
        put_component(mentions, typed, component, part_purpose)?;
    }
    Ok(())
}

#[cycle(mentions)]
fn put_component(
    mentions: &mut Items<Mentioned>,
    typed: &Typed,
    component: &Component,
    purpose: Purpose,
) -> Result<(), AllocError>
    ensures { OnOk result (mentions.new ≡ mentions.old ++ component_mentions typed.now component.now purpose) }
{
    match &component.form {
        ComponentForm::Field(_) => Ok(()),
        ComponentForm::Observed(_, observers) => put_observers(mentions, *observers, purpose),
        ComponentForm::Computed(accessors) => put_accessors(mentions, *accessors, purpose),
        ComponentForm::Subscript(arguments, accessors) => {
            put_exprs(mentions, typed, arguments.as_slice())?;
            put_accessors(mentions, *accessors, purpose)
        }
        ComponentForm::Element(index) => put_expr(mentions, typed, index.get()),
    }
}
