// Closure literals.

ghost use Rattle.std.specs.Prelude.{◌≡◌, ◌++◌, ◌∷◌, [], IfOk, OnOk, drop, option_copied, take};
ghost use Rattle.sx_bodies.specs.Literals as literals;
ghost use Rattle.sx_scope.specs.Names.{is_function};
ghost use Rattle.sx_scope.specs.Verdict.{Answers, typed_part};

use crate::captures::behind;
use crate::signatures::function_asked;
use crate::widths::{are_mentions_narrow, are_parameters_narrow};
use sqlite_items::Items;
use std::alloc::{AllocError, Global};
use sx_scope::{
    Asked, Declarations, Found, Gives, Judged, Place, Stack, TypeKind, TypeStop, Use, Walk,
    function_number, is_agreed,
};
use sx_span::Node;
use sx_tree::Signature;
use sx_typed::{Block, Expr, Form, Function, FunctionKind, Marker, Mention, Parameter};
use sx_types::{FunctionParameter, FunctionType, Listed, Ty};

/// What a body gives whose result is found.
pub fn gives_by(result_type: &Found<Ty>) -> Gives
    ensures { result ≡ literals.gives_by (typed_part result_type.now) }
{
    match result_type {
        Found::Typed(ty) => Gives::Type(*ty),
        Found::Untold | Found::Depends => Gives::Unknown,
    }
}

/// Where the statements of a literal stand that is used so, with so many locals outside it.
pub fn inside_literal(place: Place, used: Use, outside: usize, gives: Gives) -> Place
    ensures { result ≡ literals.inside_literal place used outside gives }
{
    let kept = !matches!(used, Use::Lent | Use::Unpaired);
    Place {
        gives,
        in_loop: false,
        outside_kept: if kept { outside } else { place.outside_kept },
        in_kept: kept || place.in_kept,
        ..place
    }
}

/// A literal whose parts are typed. `mentions_before` and `literals_before` tell how many there
/// were before it, and `lacking` that its body should give a value and reaches its end.
pub fn literal_made(
    alloc: Global,
    declarations: &Declarations,
    walk: &mut Walk,
    asked: Asked,
    used: Use,
    node: Node,
    site: u32,
    mentions_before: usize,
    literals_before: usize,
    lacking: bool,
    parameters: Items<Parameter>,
    result_type: Ty,
    body: Block,
) -> Judged
    ensures { Answers result walk.new (literals.literal_made declarations.now asked used node site mentions_before literals_before lacking (parameters, (result_type, body)) walk.old) }
{
    if let Asked::Unknown = asked {
        return unknown_literal(walk, node, lacking);
    }
    let number = number_of_literal(
        alloc,
        declarations,
        walk,
        asked,
        node,
        mentions_before,
        lacking,
        parameters.as_slice(),
        result_type,
    )?;
    let escaping = used != Use::Lent;
    add_literal(
        alloc,
        walk,
        escaping,
        node,
        mentions_before,
        literals_before,
        parameters,
        result_type,
        body,
    )?;
    Ok(Found::Typed(Expr {
        node,
        site,
        ty: Ty::Func(number),
        form: Form::Closure(node),
    }))
}

/// A literal where something is asked that isn't known.
fn unknown_literal(walk: &Walk, node: Node, lacking: bool) -> Judged
    ensures { Answers result walk.now (literals.unknown_literal node lacking walk.now) }
{
    if lacking {
        Err(TypeStop::Typing(TypeKind::MissingReturn, node))
    } else {
        Ok(Found::Untold)
    }
}

/// The number of the function type of a literal, where it has one that may stand here and isn't
/// too wide.
fn number_of_literal(
    alloc: Global,
    declarations: &Declarations,
    walk: &Walk,
    asked: Asked,
    node: Node,
    mentions_before: usize,
    lacking: bool,
    parameters: &[Parameter],
    result_type: Ty,
) -> Result<u32, TypeStop>
    ensures { literals.Tells result walk.now (literals.literal_number declarations.now asked node lacking (drop mentions_before walk.now.mentions) (literals.literal_type (parameters.now, (result_type, []))) walk.now) }
{
    let function = literal_type(alloc, parameters, result_type)?;
    let number = function_number(declarations, &function);
    let mentions = behind(walk.mentions.as_slice(), mentions_before);
    match number_fitting(asked, lacking, &function, number) {
        Ok(number) => narrow_number(walk, declarations, node, mentions, &function, number),
        Err(kind) => Err(TypeStop::Typing(kind, node)),
    }
}

/// The number of its type, if it is a literal that may stand here.
fn number_fitting(
    asked: Asked,
    lacking: bool,
    function: &FunctionType,
    number: Option<u32>,
) -> Result<u32, TypeKind>
    ensures { result ≡ literals.number_fitting asked lacking function.now number }
{
    let Some(number) = number else {
        return Err(TypeKind::Mismatch);
    };
    if has_function(function) || !is_agreed(asked, Ty::Func(number)) {
        Err(TypeKind::Mismatch)
    } else if lacking {
        Err(TypeKind::MissingReturn)
    } else {
        Ok(number)
    }
}

/// The number of the type of a literal, which fails where it has too many words.
fn narrow_number(
    walk: &Walk,
    declarations: &Declarations,
    node: Node,
    mentions: &[Mention],
    function: &FunctionType,
    number: u32,
) -> Result<u32, TypeStop>
    ensures { literals.Tells result walk.now (literals.narrow_number declarations.now node mentions.now function.now number walk.now) }
{
    let types = &declarations.types;
    if are_parameters_narrow(types, function.parameters.as_slice())
        && are_mentions_narrow(types, mentions)
    {
        Ok(number)
    } else {
        Err(TypeStop::TooWide(node))
    }
}

fn literal_type(
    alloc: Global,
    mut parameters: &[Parameter],
    result_type: Ty,
) -> Result<FunctionType, AllocError>
    ensures { IfOk result (λ f. f ≡ literals.literal_type (parameters.entry.now, (result_type, []))) }
{
    let mut types = Items::new(alloc);
    'parameters: while let [parameter, rest @ ..] = parameters {
        types.push(FunctionParameter {
            inout: parameter.marker == Marker::InOut,
            ty: parameter.ty,
        })?;
        parameters = rest;
    }
    Ok(FunctionType {
        parameters: Listed::new(types),
        result: result_type,
    })
}

fn has_function(function: &FunctionType) -> bool
    ensures { result ≡ literals.has_function function.now }
{
    function
        .parameters
        .as_slice()
        .iter()
        .any(|parameter| is_function(parameter.ty))
}

fn is_function(ty: Ty) -> bool
    ensures { result ≡ is_function ty }
{
    matches!(ty, Ty::Func(_))
}

/// Adds a literal before those from this index on.
fn add_literal(
    alloc: Global,
    walk: &mut Walk,
    escaping: bool,
    node: Node,
    mentions_before: usize,
    literals_before: usize,
    parameters: Items<Parameter>,
    result_type: Ty,
    body: Block,
) -> Result<(), AllocError>
    ensures { OnOk result (walk.new ≡ literals.with_literal literals_before (literals.literal_function escaping node (drop mentions_before walk.old.mentions) (parameters, (result_type, body))) walk.old) }
{
    let mentions = behind(walk.mentions.as_slice(), mentions_before);
    let mentions = Items::from_slice(alloc, mentions)?;
    let function = Function {
        kind: FunctionKind::Closure { escaping },
        node,
        owner: None,
        parameters,
        result: result_type,
        body,
        mentions,
    };
    insert(&mut walk.literals, literals_before, function)
}

fn insert(
    literals: &mut Stack<Function>,
    before: usize,
    function: Function,
) -> Result<(), AllocError>
    ensures { OnOk result (literals.new ≡ take before literals.old ++ function ∷ drop before literals.old) }
{
    let at = before.min(literals.len());
    literals.insert(at, function)
}

/// A literal in which something isn't told, which fails by what is asked of it alone.
pub fn untold_literal(
    declarations: &Declarations,
    walk: &Walk,
    asked: Asked,
    node: Node,
    signature: &Signature,
) -> Judged
    ensures { Answers result walk.now (literals.untold_literal declarations.now asked node (literals.judged_signature declarations.now signature.now) walk.now) }
{
    match untold_breaks(declarations, asked, signature) {
        Some(kind) => Err(TypeStop::Typing(kind, node)),
        None => Ok(Found::Untold),
    }
}

fn untold_breaks(
    declarations: &Declarations,
    asked: Asked,
    signature: &Signature,
) -> Option<TypeKind>
    ensures { result ≡ literals.untold_breaks declarations.now asked (literals.judged_signature declarations.now signature.now) }
{
    let function = function_asked(declarations, asked);
    if asks_other(asked) || has_too_many_names(signature, function) {
        Some(TypeKind::Mismatch)
    } else if asks_nothing(asked) && !matches!(signature, Signature::Typed(_, _)) {
        Some(TypeKind::NoContext)
    } else {
        None
    }
}

fn asks_other(asked: Asked) -> bool
    ensures { result ≡ literals.asks_other asked }
{
    match asked {
        Asked::Type(ty) => !is_function(ty),
        _ => false,
    }
}

fn asks_nothing(asked: Asked) -> bool
    ensures { result ≡ literals.asks_nothing asked }
{
    matches!(asked, Asked::Nothing | Asked::Printable)
}

fn has_too_many_names(signature: &Signature, function: Option<&FunctionType>) -> bool
    ensures { (d : _) → result ≡ literals.too_many_names (literals.judged_signature d signature.now) (option_copied function.entry) }
{
    match (signature, function) {
        (Signature::Names(names), Some(function)) => {
            function.parameters.as_slice().len() < names.len()
        }
        _ => false,
    }
}
