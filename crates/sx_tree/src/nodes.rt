// The list of the nodes of a tree: for each node, in order, the place where its faults stand.

ghost use Rattle.std.specs.Prelude.{◌≡◌, ◌++◌, ◌∷◌, [], OnOk, map, option_map};
ghost use Rattle.sx_tree.specs.Nodes.{accessor_place, accessor_places, all, argument_places, block_places, called, closure_parameter_places, closure_places, else_places, expr_places, form_places, function_places, initialiser_places, inner_of_parts, item_places, link_places, local_places, member_places, name_places, option_places, own_of_links, own_of_parts, parameter_places, part_nodes, places_of_items, signature_places, statement_form_places, statement_places, subscript_places, trailing, type_declaration_places, type_form_places, type_parameter_places, type_places, variable_places};

use crate::code::{
    Argument, Block, Closure, Else, Expr, ExprForm, Link, Local, Part, Statement, StatementForm,
};
use crate::declarations::{
    Accessor, Function, Initialiser, Item, Member, Parameter, Subscript, TypeDeclaration, Variable,
};
use crate::written_types::{
    ClosureParameter, Name, Signature, TypeForm, TypeParameter, WrittenType,
};
use std::alloc::{AllocError, AllocFailed};

/// Memory ran out.
#[derive(Clone, Copy, Debug, PartialEq, Eq)]
pub struct NoMemory;

impl From<AllocError> for NoMemory {
    ghost use Rattle.std.specs.Prelude.{◌≡◌};

    fn from(_: AllocError) -> NoMemory {
        NoMemory
    }
}

impl<T: Drop> From<AllocFailed<T>> for NoMemory {
    ghost use Rattle.std.specs.Prelude.{◌≡◌};

    fn from(_: AllocFailed<T>) -> NoMemory {
        NoMemory
    }
}

/// Of what a fault tells that stands at an accessor.
#[derive(Clone, Copy, Debug, PartialEq, Eq)]
pub enum FaultOf {
    /// Of the accessor as a whole: it stands at the name of the property or global, or at the word
    /// `subscript`.
    Accessor,
    /// Of its parameter: it stands at the parameter's name, if that is written.
    Parameter,
}

fn put(places: &mut Vec<u32>, place: u32) -> Result<(), NoMemory>
    ensures { OnOk result (places.new.items ≡ places.old.items ++ place ∷ []) }
{
    places.push(place)?;
    Ok(())
}

#[cycle(types)]
pub fn put_type(places: &mut Vec<u32>, ty: &WrittenType) -> Result<(), NoMemory>
    ensures { OnOk result (places.new.items ≡ places.old.items ++ type_places ty.now) }
{
    put(places, ty.span.start)?;
    match &ty.form {
        TypeForm::Named(_) | TypeForm::Unit | TypeForm::Array(_) => Ok(()),
        TypeForm::Bracketed(inner) => put_type(places, inner.get()),
        TypeForm::Function(parameters, result) => {
            put_type_parameters(places, parameters.as_slice())?;
            put_type(places, result.get())
        }
    }
}

#[cycle(types)]
fn put_type_parameters(places: &mut Vec<u32>, parameters: &[TypeParameter]) -> Result<(), NoMemory>
    ensures { OnOk result (places.new.items ≡ places.old.items ++ all (map type_parameter_places parameters.now)) }
{
    for parameter in parameters {
        put_type(places, &parameter.ty)?;
    }
    Ok(())
}

fn put_written(places: &mut Vec<u32>, ty: &Option<WrittenType>) -> Result<(), NoMemory>
    ensures { OnOk result (places.new.items ≡ places.old.items ++ option_places type_places ty.now) }
{
    match ty {
        Some(ty) => put_type(places, ty),
        None => Ok(()),
    }
}

fn put_closure_parameters(
    places: &mut Vec<u32>,
    parameters: &[ClosureParameter],
) -> Result<(), NoMemory>
    ensures { OnOk result (places.new.items ≡ places.old.items ++ all (map closure_parameter_places parameters.now)) }
{
    for parameter in parameters {
        put_closure_parameter(places, parameter)?;
    }
    Ok(())
}

fn put_closure_parameter(
    places: &mut Vec<u32>,
    parameter: &ClosureParameter,
) -> Result<(), NoMemory>
    ensures { OnOk result (places.new.items ≡ places.old.items ++ closure_parameter_places parameter.now) }
{
    put(places, parameter.name.span.start)?;
    put_type(places, &parameter.ty)
}

fn put_names(places: &mut Vec<u32>, names: &[Name]) -> Result<(), NoMemory>
    ensures { OnOk result (places.new.items ≡ places.old.items ++ all (map name_places names.now)) }
{
    for name in names {
        put(places, name.span.start)?;
    }
    Ok(())
}

fn put_signature(places: &mut Vec<u32>, signature: &Signature) -> Result<(), NoMemory>
    ensures { OnOk result (places.new.items ≡ places.old.items ++ signature_places signature.now) }
{
    match signature {
        Signature::Absent => Ok(()),
        Signature::Names(names) => put_names(places, names.as_slice()),
        Signature::Typed(parameters, result) => {
            put_closure_parameters(places, parameters.as_slice())?;
            put_written(places, result)
        }
    }
}

#[cycle(code)]
fn put_trailing(places: &mut Vec<u32>, closure: &Option<Closure>) -> Result<(), NoMemory>
    ensures { OnOk result (places.new.items ≡ places.old.items ++ trailing (option_map closure_places closure.now)) }
{
    match closure {
        Some(closure) => {
            put(places, closure.span.start)?;
            put_closure(places, closure)
        }
        None => Ok(()),
    }
}

#[cycle(code)]
fn put_closure(places: &mut Vec<u32>, closure: &Closure) -> Result<(), NoMemory>
    ensures { OnOk result (places.new.items ≡ places.old.items ++ closure_places closure.now) }
{
    put(places, closure.span.start)?;
    put_signature(places, &closure.signature)?;
    put_statements(places, closure.body.as_slice())
}

#[cycle(code)]
fn put_statements(places: &mut Vec<u32>, statements: &[Statement]) -> Result<(), NoMemory>
    ensures { OnOk result (places.new.items ≡ places.old.items ++ all (map statement_places statements.now)) }
{
    for statement in statements {
        put_statement(places, statement)?;
    }
    Ok(())
}

fn put_call(places: &mut Vec<u32>, closure: &Option<Closure>, start: u32) -> Result<(), NoMemory>
    ensures { OnOk result (places.new.items ≡ places.old.items ++ called closure.now start) }
{
    match closure {
        Some(_) => put(places, start),
        None => Ok(()),
    }
}

fn put_own_of_links(places: &mut Vec<u32>, links: &[Link], start: u32) -> Result<(), NoMemory>
    ensures { OnOk result (places.new.items ≡ places.old.items ++ own_of_links (map link_places links.now) start) }
{
    for _link in links {
        put(places, start)?;
    }
    Ok(())
}

fn put_own(places: &mut Vec<u32>, part: &Part, start: u32) -> Result<(), NoMemory>
    ensures { OnOk result (places.new.items ≡ places.old.items ++ (part_nodes part.now).own start) }
{
    match part {
        Part::Member(_, _, closure) => {
            put_call(places, closure, start)?;
            put(places, start)
        }
        Part::Index(_, _) | Part::Call(_, _, _) => put(places, start),
    }
}

fn put_own_of_parts(places: &mut Vec<u32>, parts: &[Part], start: u32) -> Result<(), NoMemory>
    ensures { OnOk result (places.new.items ≡ places.old.items ++ own_of_parts (map part_nodes parts.now) start) }
{
    for part in parts {
        put_own(places, part, start)?;
    }
    Ok(())
}

#[cycle(code)]
fn put_links(places: &mut Vec<u32>, links: &[Link]) -> Result<(), NoMemory>
    ensures { OnOk result (places.new.items ≡ places.old.items ++ all (map link_places links.now)) }
{
    for link in links {
        put_expr(places, &link.operand)?;
    }
    Ok(())
}

#[cycle(code)]
fn put_exprs(places: &mut Vec<u32>, exprs: &[Expr]) -> Result<(), NoMemory>
    ensures { OnOk result (places.new.items ≡ places.old.items ++ all (map expr_places exprs.now)) }
{
    for expr in exprs {
        put_expr(places, expr)?;
    }
    Ok(())
}

#[cycle(code)]
fn put_argument(places: &mut Vec<u32>, argument: &Argument) -> Result<(), NoMemory>
    ensures { OnOk result (places.new.items ≡ places.old.items ++ argument_places argument.now) }
{
    put(places, argument.span.start)?;
    put_expr(places, &argument.value)
}

#[cycle(code)]
fn put_arguments(places: &mut Vec<u32>, arguments: &[Argument]) -> Result<(), NoMemory>
    ensures { OnOk result (places.new.items ≡ places.old.items ++ all (map argument_places arguments.now)) }
{
    for argument in arguments {
        put_argument(places, argument)?;
    }
    Ok(())
}

#[cycle(code)]
fn put_part(places: &mut Vec<u32>, part: &Part) -> Result<(), NoMemory>
    ensures { OnOk result (places.new.items ≡ places.old.items ++ (part_nodes part.now).inner) }
{
    match part {
        Part::Member(_, _, closure) => put_trailing(places, closure),
        Part::Index(_, indices) => put_exprs(places, indices.as_slice()),
        Part::Call(_, arguments, closure) => {
            put_arguments(places, arguments.as_slice())?;
            put_trailing(places, closure)
        }
    }
}

#[cycle(code)]
fn put_parts(places: &mut Vec<u32>, parts: &[Part]) -> Result<(), NoMemory>
    ensures { OnOk result (places.new.items ≡ places.old.items ++ inner_of_parts (map part_nodes parts.now)) }
{
    for part in parts {
        put_part(places, part)?;
    }
    Ok(())
}

#[cycle(code)]
fn put_expr(places: &mut Vec<u32>, expr: &Expr) -> Result<(), NoMemory>
    ensures { OnOk result (places.new.items ≡ places.old.items ++ expr_places expr.now) }
{
    let start = expr.span.start;
    match &expr.form {
        ExprForm::Int(_)
        | ExprForm::LeastInt
        | ExprForm::Bool(_)
        | ExprForm::SelfWord
        | ExprForm::PrintText(_) => put(places, start),
        ExprForm::Named(_, closure) => {
            put_call(places, closure, start)?;
            put(places, start)?;
            put_trailing(places, closure)
        }
        ExprForm::Bracketed(inner) | ExprForm::Negate(inner) | ExprForm::Not(inner) => {
            put(places, start)?;
            put_expr(places, inner.get())
        }
        ExprForm::Chain(first, links) => {
            put_own_of_links(places, links.as_slice(), start)?;
            put_expr(places, first.get())?;
            put_links(places, links.as_slice())
        }
        ExprForm::Postfix(first, parts) => {
            put_own_of_parts(places, parts.as_slice(), start)?;
            put_expr(places, first.get())?;
            put_parts(places, parts.as_slice())
        }
        ExprForm::Closure(closure) => put_closure(places, closure),
        ExprForm::Array(elements) => {
            put(places, start)?;
            put_exprs(places, elements.as_slice())
        }
    }
}

#[cycle(code)]
fn put_value(places: &mut Vec<u32>, value: &Option<Expr>) -> Result<(), NoMemory>
    ensures { OnOk result (places.new.items ≡ places.old.items ++ option_places expr_places value.now) }
{
    match value {
        Some(value) => put_expr(places, value),
        None => Ok(()),
    }
}

#[cycle(code)]
fn put_block(places: &mut Vec<u32>, block: &Block) -> Result<(), NoMemory>
    ensures { OnOk result (places.new.items ≡ places.old.items ++ block_places block.now) }
{
    put(places, block.span.start)?;
    put_statements(places, block.statements.as_slice())
}

#[cycle(code)]
fn put_else(places: &mut Vec<u32>, otherwise: &Else) -> Result<(), NoMemory>
    ensures { OnOk result (places.new.items ≡ places.old.items ++ else_places otherwise.now) }
{
    match otherwise {
        Else::Absent => Ok(()),
        Else::Block(block) => put_block(places, block),
        Else::ElseIf(statement) => put_statement(places, statement.get()),
    }
}

#[cycle(code)]
fn put_local(places: &mut Vec<u32>, local: &Local) -> Result<(), NoMemory>
    ensures { OnOk result (places.new.items ≡ places.old.items ++ local_places local.now) }
{
    put(places, local.name.span.start)?;
    put_written(places, &local.ty)?;
    put_expr(places, &local.value)
}

#[cycle(code)]
fn put_statement(places: &mut Vec<u32>, statement: &Statement) -> Result<(), NoMemory>
    ensures { OnOk result (places.new.items ≡ places.old.items ++ statement_places statement.now) }
{
    if let StatementForm::Local(local) = &statement.form {
        return put_local(places, local);
    }
    put(places, statement.span.start)?;
    match &statement.form {
        StatementForm::Expr(expr) => put_expr(places, expr),
        StatementForm::Assign(_, left, right) => {
            put_expr(places, left)?;
            put_expr(places, right)
        }
        StatementForm::If(condition, block, otherwise) => {
            put_expr(places, condition)?;
            put_block(places, block)?;
            put_else(places, otherwise)
        }
        StatementForm::While(condition, block) => {
            put_expr(places, condition)?;
            put_block(places, block)
        }
        StatementForm::Return(value) => put_value(places, value),
        StatementForm::Break | StatementForm::Continue | StatementForm::Local(_) => Ok(()),
    }
}

/// Where such a fault of an accessor stands, the declaration of which has this place.
fn accessor_place(of: FaultOf, accessor: &Accessor, place: u32) -> u32
    ensures { result ≡ accessor_place of place accessor.now }
{
    match (of, &accessor.parameter) {
        (FaultOf::Parameter, Some(name)) => name.span.start,
        _ => place,
    }
}

fn put_accessor(
    places: &mut Vec<u32>,
    of: FaultOf,
    accessor: &Accessor,
    place: u32,
) -> Result<(), NoMemory>
    ensures { OnOk result (places.new.items ≡ places.old.items ++ accessor_places of place accessor.now) }
{
    put(places, accessor_place(of, accessor, place))?;
    put_block(places, &accessor.body)
}

fn put_accessors(
    places: &mut Vec<u32>,
    of: FaultOf,
    accessors: &[Accessor],
    place: u32,
) -> Result<(), NoMemory>
    ensures { OnOk result (places.new.items ≡ places.old.items ++ all (map (accessor_places of place) accessors.now)) }
{
    for accessor in accessors {
        put_accessor(places, of, accessor, place)?;
    }
    Ok(())
}

fn put_parameter(places: &mut Vec<u32>, parameter: &Parameter) -> Result<(), NoMemory>
    ensures { OnOk result (places.new.items ≡ places.old.items ++ parameter_places parameter.now) }
{
    put(places, parameter.name.span.start)?;
    put_type(places, &parameter.ty)
}

fn put_parameters(places: &mut Vec<u32>, parameters: &[Parameter]) -> Result<(), NoMemory>
    ensures { OnOk result (places.new.items ≡ places.old.items ++ all (map parameter_places parameters.now)) }
{
    for parameter in parameters {
        put_parameter(places, parameter)?;
    }
    Ok(())
}

fn put_function(places: &mut Vec<u32>, function: &Function) -> Result<(), NoMemory>
    ensures { OnOk result (places.new.items ≡ places.old.items ++ function_places function.now) }
{
    put(places, function.name.span.start)?;
    put_parameters(places, function.parameters.as_slice())?;
    put_written(places, &function.result)?;
    put_block(places, &function.body)
}

fn put_variable(places: &mut Vec<u32>, of: FaultOf, variable: &Variable) -> Result<(), NoMemory>
    ensures { OnOk result (places.new.items ≡ places.old.items ++ variable_places of variable.now) }
{
    let place = variable.name.span.start;
    put(places, place)?;
    put_written(places, &variable.ty)?;
    put_value(places, &variable.value)?;
    put_accessors(places, of, variable.accessors.as_slice(), place)
}

fn put_subscript(places: &mut Vec<u32>, of: FaultOf, subscript: &Subscript) -> Result<(), NoMemory>
    ensures { OnOk result (places.new.items ≡ places.old.items ++ subscript_places of subscript.now) }
{
    let place = subscript.span.start;
    put(places, place)?;
    put_parameters(places, subscript.parameters.as_slice())?;
    put_type(places, &subscript.result)?;
    put_accessors(places, of, subscript.accessors.as_slice(), place)
}

fn put_initialiser(places: &mut Vec<u32>, initialiser: &Initialiser) -> Result<(), NoMemory>
    ensures { OnOk result (places.new.items ≡ places.old.items ++ initialiser_places initialiser.now) }
{
    put(places, initialiser.span.start)?;
    put_parameters(places, initialiser.parameters.as_slice())?;
    put_block(places, &initialiser.body)
}

fn put_member(places: &mut Vec<u32>, of: FaultOf, member: &Member) -> Result<(), NoMemory>
    ensures { OnOk result (places.new.items ≡ places.old.items ++ member_places of member.now) }
{
    match member {
        Member::Property(variable) => put_variable(places, of, variable),
        Member::Method(function) => put_function(places, function),
        Member::Subscript(subscript) => put_subscript(places, of, subscript),
        Member::Initialiser(initialiser) => put_initialiser(places, initialiser),
    }
}

fn put_members(places: &mut Vec<u32>, of: FaultOf, members: &[Member]) -> Result<(), NoMemory>
    ensures { OnOk result (places.new.items ≡ places.old.items ++ all (map (member_places of) members.now)) }
{
    for member in members {
        put_member(places, of, member)?;
    }
    Ok(())
}

fn put_item(places: &mut Vec<u32>, of: FaultOf, item: &Item) -> Result<(), NoMemory>
    ensures { OnOk result (places.new.items ≡ places.old.items ++ item_places of item.now) }
{
    match item {
        Item::Function(function) => put_function(places, function),
        Item::Type(declaration) => {
            put(places, declaration.name.span.start)?;
            put_members(places, of, declaration.members.as_slice())
        }
        Item::Global(variable) => put_variable(places, of, variable),
        Item::Statement(statement) => put_statement(places, statement),
    }
}

/// Adds where such faults of each node of the items stand.
pub fn put_items(places: &mut Vec<u32>, of: FaultOf, items: &[Item]) -> Result<(), NoMemory>
    ensures { OnOk result (places.new.items ≡ places.old.items ++ places_of_items of items.now) }
{
    for item in items {
        put_item(places, of, item)?;
    }
    Ok(())
}
