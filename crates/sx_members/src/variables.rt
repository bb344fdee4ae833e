// Globals and properties, with their initial values.

ghost use Rattle.std.specs.Prelude.{◌≡◌, Err, List, [], Some, length};
ghost use Rattle.sx_functions.specs.Accessors.{run_accessors};
ghost use Rattle.sx_functions.specs.Places.{new_name};
ghost use Rattle.sx_members.specs.Variables as variables;
ghost use Rattle.sx_scope.specs.Verdict.{Answers, Verdict, ◌▷◌, both, fails, found, typed, typed_part};
ghost use Rattle.sx_scope.specs.WrittenTypes.{judged_type};
ghost use Rattle.sx_scope.specs.declared.declarations.Known.TheVariants as knows;
ghost use Rattle.sx_scope.specs.declared.walk.Walk.{Walk};

use indexmap::IndexSet;
use sqlite_items::Items;
use std::alloc::Global;
use sx_bodies::words_in;
use sx_functions::{Accessed, OwnNames, accessors, new_name};
use sx_heads::lacks_value;
use sx_scope::{
    Asked, Declarations, Found, Gives, Known, Place, TypeKind, TypeStop, Use, VariableType, Walk,
    is_void, joined, known_of, type_written,
};
use sx_span::Node;
use sx_tree::WrittenType;
use sx_typed::Expr;
use sx_types::{Ty, Types};

/// A global or property.
#[derive(Drop)]
pub struct TypedVariable {
    pub node: Node,
    pub ty: Ty,
    /// Its initial value.
    pub value: Option<Expr>,
}

/// A type, and the initial value if there is one.
type VariableParts = (Ty, Option<Expr>);

type JudgedParts = Result<Found<VariableParts>, TypeStop>;

/// The parts of a variable whose name is new.
type NamedParts = ((), VariableParts);

/// Where initial values and the statements of the outermost level stand.
pub fn outer_place() -> Place
    ensures { result ≡ variables.outer_place }
{
    Place {
        members_of: None,
        this: None,
        observed: None,
        gives: Gives::Nothing,
        in_loop: false,
        giving: None,
        outside_block: 0,
        outside_kept: 0,
        in_kept: false,
    }
}

/// A global, or a property of the owner, beside declarations with these names. `given` is its
/// number among the declarations whose initial values give their types, and `stops` tells by what
/// those have failed first. It fails where its type takes more words than there is `room` for. Its
/// functions go among those of the walk.
pub fn variable(
    alloc: Global,
    declarations: &Declarations,
    walk: &mut Walk,
    names: OwnNames,
    stops: &[Option<TypeStop>],
    owner: Option<Ty>,
    seen: &IndexSet<u32>,
    room: Option<u32>,
    given: u32,
    written: &sx_tree::Variable,
) -> Result<Found<TypedVariable>, TypeStop>
    ensures { Answers result walk.new (variables.variable declarations.now names stops.now owner seen.now.keys room given written.now walk.old) }
{
    let node = walk.take_node()?;
    match accessed_parts(
        alloc,
        declarations,
        walk,
        names,
        stops,
        owner,
        seen,
        room,
        node,
        given,
        written,
    )? {
        Found::Typed((parts, _)) => Ok(Found::Typed(variable_made(node, parts))),
        Found::Untold => Ok(Found::Untold),
        Found::Depends => Ok(Found::Depends),
    }
}

fn variable_made(node: Node, parts: NamedParts) -> TypedVariable
    ensures { result ≡ variables.typed_variable node parts }
{
    let (_, (ty, value)) = parts;
    TypedVariable { node, ty, value }
}

/// The type and the initial value of a variable whose name is new, and its accessors and observers.
fn accessed_parts(
    alloc: Global,
    declarations: &Declarations,
    walk: &mut Walk,
    names: OwnNames,
    stops: &[Option<TypeStop>],
    owner: Option<Ty>,
    seen: &IndexSet<u32>,
    room: Option<u32>,
    node: Node,
    given: u32,
    written: &sx_tree::Variable,
) -> Result<Found<(NamedParts, ())>, TypeStop>
    ensures { Answers result walk.new (variables.accessed_parts declarations.now names stops.now owner seen.now.keys room node given written.now walk.old) }
{
    let parts = checked_parts(
        alloc,
        declarations,
        walk,
        stops,
        owner,
        seen,
        room,
        node,
        given,
        written,
    )?;
    let accessed = accessed_by(alloc, walk, owner, node, &parts);
    let list = written.accessors.as_slice();
    let accessors = accessors(alloc, declarations, walk, names, &accessed, list);
    joined(parts, accessors)
}

/// What the accessors and observers of a variable stand with.
fn accessed_by(
    alloc: Global,
    walk: &Walk,
    owner: Option<Ty>,
    node: Node,
    parts: &Found<NamedParts>,
) -> Accessed
    ensures { result ≡ variables.accessed owner node (variables.known_of_parts (typed_part parts.now)) [] (length walk.now.locals) }
{
    Accessed {
        owner,
        node,
        ty: known_of_parts(parts),
        parameters: Items::new(alloc),
        from: walk.locals.len(),
    }
}

/// What is known of the type of a variable.
fn known_of_parts(parts: &Found<NamedParts>) -> Known
    ensures { result ≡ variables.known_of_parts (typed_part parts.now) }
{
    match parts {
        Found::Typed((_, (ty, _))) => Known::Type(*ty),
        Found::Untold | Found::Depends => Known::Failed,
    }
}

/// The type and the initial value of a variable, whose name must be new, and for which there must
/// be room.
fn checked_parts(
    alloc: Global,
    declarations: &Declarations,
    walk: &mut Walk,
    stops: &[Option<TypeStop>],
    owner: Option<Ty>,
    seen: &IndexSet<u32>,
    room: Option<u32>,
    node: Node,
    given: u32,
    written: &sx_tree::Variable,
) -> Result<Found<NamedParts>, TypeStop>
    ensures { Answers result walk.new (variables.checked_parts declarations.now stops.now owner seen.now.keys room node given written.now walk.old) }
{
    match named_parts(
        alloc,
        declarations,
        walk,
        stops,
        owner,
        seen,
        node,
        given,
        written,
    )? {
        Found::Typed(parts) => narrow_parts(declarations, walk, room, node, parts),
        Found::Untold => Ok(Found::Untold),
        Found::Depends => Ok(Found::Depends),
    }
}

/// The name of a variable, which must be new, and its type and initial value.
fn named_parts(
    alloc: Global,
    declarations: &Declarations,
    walk: &mut Walk,
    stops: &[Option<TypeStop>],
    owner: Option<Ty>,
    seen: &IndexSet<u32>,
    node: Node,
    given: u32,
    written: &sx_tree::Variable,
) -> Result<Found<NamedParts>, TypeStop>
    ensures { Answers result walk.new (both (new_name declarations.now seen.now.keys written.now.name.number node walk.old) (variables.parts_by declarations.now stops.now owner node given written.now written.now.ty)) }
{
    let name = new_name(declarations, walk, seen, written.name.number, node)?;
    let parts = parts_by(
        alloc,
        declarations,
        walk,
        stops,
        owner,
        node,
        given,
        written,
    );
    joined(name, parts)
}

/// A variable for whose value there must be room.
fn narrow_parts(
    declarations: &Declarations,
    walk: &Walk,
    room: Option<u32>,
    node: Node,
    parts: NamedParts,
) -> Result<Found<NamedParts>, TypeStop>
    ensures { Answers result walk.now (variables.narrow_parts declarations.now room node parts walk.now) }
{
    let ty = parts.1.0;
    if has_room(&declarations.types, room, ty) {
        Ok(Found::Typed(parts))
    } else {
        Err(TypeStop::TooWide(node))
    }
}

/// Whether a value of the type takes at most so many words, where that is told.
fn has_room(types: &Types, room: Option<u32>, ty: Ty) -> bool
    ensures { result ≡ variables.has_room types.now room ty }
{
    match room {
        None => true,
        Some(room) => words_in(types, ty) <= room,
    }
}

/// The type and the initial value of a variable.
fn parts_by(
    alloc: Global,
    declarations: &Declarations,
    walk: &mut Walk,
    stops: &[Option<TypeStop>],
    owner: Option<Ty>,
    node: Node,
    given: u32,
    written: &sx_tree::Variable,
) -> JudgedParts
    ensures { Answers result walk.new (variables.parts_by declarations.now stops.now owner node given written.now written.now.ty walk.old) }
{
    match &written.ty {
        None => given_parts(
            alloc,
            declarations,
            walk,
            stops,
            node,
            given,
            &written.value,
        ),
        Some(ty) => written_parts(alloc, declarations, walk, owner, node, written, ty),
    }
}

/// The type that is written of a variable, and its initial value.
fn written_parts(
    alloc: Global,
    declarations: &Declarations,
    walk: &mut Walk,
    owner: Option<Ty>,
    node: Node,
    written: &sx_tree::Variable,
    ty: &WrittenType,
) -> JudgedParts
    ensures { Answers result walk.new (variables.written_parts declarations.now owner node written.now ty.now walk.old) }
{
    let ty = fitting_type(alloc, declarations, walk, owner, node, written, ty)?;
    let asked = asked_of(&ty);
    let value = initial_value(alloc, declarations, walk, asked, &written.value);
    joined(ty, value)
}

/// What is asked of an initial value by the written type.
fn asked_of(ty: &Found<Ty>) -> Asked
    ensures { result ≡ variables.asked_of (typed_part ty.now) }
{
    match ty {
        Found::Typed(ty) => Asked::Type(*ty),
        Found::Untold | Found::Depends => Asked::Unknown,
    }
}

/// The type that is written of a variable, which must be one that it may have.
fn fitting_type(
    alloc: Global,
    declarations: &Declarations,
    walk: &mut Walk,
    owner: Option<Ty>,
    node: Node,
    written: &sx_tree::Variable,
    ty: &WrittenType,
) -> Result<Found<Ty>, TypeStop>
    ensures { Answers result walk.new (judged_type declarations.now ty.now walk.old ▷ variables.type_fits owner node written.now) }
{
    match type_written(alloc, declarations, walk, ty)? {
        Found::Typed(ty) => type_fits(walk, owner, node, written, ty),
        Found::Untold => Ok(Found::Untold),
        Found::Depends => Ok(Found::Depends),
    }
}

fn type_fits(
    walk: &Walk,
    owner: Option<Ty>,
    node: Node,
    written: &sx_tree::Variable,
    ty: Ty,
) -> Result<Found<Ty>, TypeStop>
    ensures { Answers result walk.now (variables.type_fits owner node written.now ty walk.now) }
{
    match broken_type(owner, written, ty) {
        None => Ok(Found::Typed(ty)),
        Some(kind) => walk.fails(kind, node),
    }
}

/// By what a variable of this type fails: none has the type `Void`, and a stored property of a
/// class has an initial value.
fn broken_type(owner: Option<Ty>, written: &sx_tree::Variable, ty: Ty) -> Option<TypeKind>
    ensures { result ≡ variables.broken_type owner written.now ty }
{
    if is_void(ty) {
        Some(TypeKind::Mismatch)
    } else if lacks_value(owner, written) {
        Some(TypeKind::MissingDefault)
    } else {
        None
    }
}

/// The initial value of a variable with a written type, if it has one.
fn initial_value(
    alloc: Global,
    declarations: &Declarations,
    walk: &mut Walk,
    asked: Asked,
    value: &Option<sx_tree::Expr>,
) -> Result<Found<Option<Expr>>, TypeStop>
    ensures { Answers result walk.new (variables.initial_value declarations.now asked value.now walk.old) }
{
    match value {
        None => Ok(Found::Typed(None)),
        Some(value) => kept_value(alloc, declarations, walk, asked, value),
    }
}

fn kept_value(
    alloc: Global,
    declarations: &Declarations,
    walk: &mut Walk,
    asked: Asked,
    value: &sx_tree::Expr,
) -> Result<Found<Option<Expr>>, TypeStop>
    ensures { Answers result walk.new (variables.kept_value declarations.now asked value.now walk.old) }
{
    let place = outer_place();
    match sx_check_expr::expr(alloc, declarations, walk, place, asked, Use::Kept, value)? {
        Found::Typed(value) => Ok(Found::Typed(Some(value))),
        Found::Untold => Ok(Found::Untold),
        Found::Depends => Ok(Found::Depends),
    }
}

/// The type that the initial value of a variable gives it, and that value. Where the variable has
/// failed, what it failed by first is among its faults.
fn given_parts(
    alloc: Global,
    declarations: &Declarations,
    walk: &mut Walk,
    stops: &[Option<TypeStop>],
    node: Node,
    given: u32,
    value: &Option<sx_tree::Expr>,
) -> JudgedParts
    ensures { Answers result walk.new (variables.given_parts declarations.now stops.now node given value.now walk.old) }
{
    match value {
        None => Ok(Found::Depends),
        Some(value) => {
            let known = known_of(declarations, VariableType::Given(given));
            let stop = stop_of(stops, given);
            known_parts(alloc, declarations, walk, known, stop, node, value)
        }
    }
}

/// By what the declaration with this number has failed first, if it has.
fn stop_of(stops: &[Option<TypeStop>], given: u32) -> Option<TypeStop>
    ensures { result ≡ variables.stop_of stops.now given }
{
    match stops.get(given as usize) {
        Some(stop) => *stop,
        None => None,
    }
}

/// The type that this initial value gives, by what is known of the declaration.
fn known_parts(
    alloc: Global,
    declarations: &Declarations,
    walk: &mut Walk,
    known: Known,
    stop: Option<TypeStop>,
    node: Node,
    value: &sx_tree::Expr,
) -> JudgedParts
    ensures { Answers result walk.new (variables.kept known stop (variables.given_value declarations.now node value.now walk.old)) }
{
    match known {
        Known::Failed => failed_parts(alloc, declarations, walk, stop, node, value),
        Known::Type(_) | Known::Untold | Known::Circular => {
            given_value(alloc, declarations, walk, node, value)
        }
    }
}

/// The parts of a declaration that has failed by this.
fn failed_parts(
    alloc: Global,
    declarations: &Declarations,
    walk: &mut Walk,
    stop: Option<TypeStop>,
    node: Node,
    value: &sx_tree::Expr,
) -> JudgedParts
    ensures { Answers result walk.new (variables.kept knows.Failed stop (variables.given_value declarations.now node value.now walk.old)) }
{
    match stop {
        None => depending_parts(alloc, declarations, walk, node, value),
        Some(stop) => match given_value(alloc, declarations, walk, node, value).err() {
            None => told_again(stop),
            Some(now) => told_earlier(stop, now),
        },
    }
}

/// What is told of a declaration that failed by `first` and fails by `now`: the earlier of both.
fn told_earlier(first: TypeStop, now: TypeStop) -> JudgedParts
    ensures { (v : Verdict variables.VariableParts) (w : Walk) → Answers (Err now) w v → Answers result w (variables.kept knows.Failed (Some first) v) }
{
    if number_of(now) <= number_of(first) {
        Err(now)
    } else {
        told_again(first)
    }
}

/// What is told again of a declaration that has failed by this before.
fn told_again(stop: TypeStop) -> JudgedParts
    ensures { (v : Verdict variables.VariableParts) (fs : List TypeStop) (w now : Walk) → v ≡ fails stop fs w → Answers result now v }
{
    match stop {
        TypeStop::Typing(kind, node) => Err(TypeStop::Typing(kind, node)),
        TypeStop::TooWide(node) => Err(TypeStop::TooWide(node)),
        TypeStop::Late { .. } => Err(TypeStop::NoMemory),
        TypeStop::NoMemory => Err(TypeStop::NoMemory),
    }
}

/// The number of the node at which something fails.
fn number_of(stop: TypeStop) -> u32
    ensures { result ≡ variables.number_of stop }
{
    match stop {
        TypeStop::Typing(_, node) | TypeStop::TooWide(node) => node.0,
        TypeStop::Late { at, .. } => at.0,
        TypeStop::NoMemory => 0,
    }
}

/// The parts of a declaration that depends on what has failed.
fn depending_parts(
    alloc: Global,
    declarations: &Declarations,
    walk: &mut Walk,
    node: Node,
    value: &sx_tree::Expr,
) -> JudgedParts
    ensures { Answers result walk.new (variables.given_value declarations.now node value.now walk.old ▷ variables.depending) }
{
    match given_value(alloc, declarations, walk, node, value)? {
        Found::Typed(_) => Ok(Found::Depends),
        Found::Untold => Ok(Found::Untold),
        Found::Depends => Ok(Found::Depends),
    }
}

/// The initial value that gives a type to the declaration at this node, with the type.
pub fn given_value(
    alloc: Global,
    declarations: &Declarations,
    walk: &mut Walk,
    node: Node,
    value: &sx_tree::Expr,
) -> Result<Found<(Ty, Option<Expr>)>, TypeStop>
    ensures { Answers result walk.new (variables.given_value declarations.now node value.now walk.old) }
{
    let place = Place {
        giving: Some(node),
        ..outer_place()
    };
    let asked = Asked::Nothing;
    match sx_check_expr::expr(alloc, declarations, walk, place, asked, Use::Kept, value)? {
        Found::Typed(value) => given_fits(walk, node, value),
        Found::Untold => Ok(Found::Untold),
        Found::Depends => Ok(Found::Depends),
    }
}

/// An initial value, which may not give the type `Void`.
fn given_fits(walk: &Walk, node: Node, value: Expr) -> JudgedParts
    ensures { Answers result walk.now (variables.given_fits node value walk.now) }
{
    let ty = value.ty;
    let void = is_void(ty);
    if void {
        walk.fails(TypeKind::Mismatch, node)
    } else {
        Ok(Found::Typed((ty, Some(value))))
    }
}
