// Globals and properties.

ghost use Rattle.std.specs.Prelude.{◌≡◌, IfOk, suc};
ghost use Rattle.sx_heads.specs.Heads.{at};
ghost use Rattle.sx_heads.specs.Variables as variables;
ghost use Rattle.sx_scope.specs.WrittenTypes.{judged_type};

use crate::apart::type_apart;
use std::alloc::{AllocError, Global};
use sx_scope::{Declarations, Known, Storage, Variable, VariableType, is_void};
use sx_span::Node;
use sx_tree::{Accessor, AccessorKind, WrittenType};
use sx_typed::{Accessors, Observers};
use sx_types::Ty;

/// The node of the first accessor or observer of this kind. The nodes stand in the order of the
/// accessors and observers.
pub fn accessor_node(
    kind: AccessorKind,
    mut accessors: &[Accessor],
    mut nodes: &[Node],
) -> Option<Node>
    ensures { result ≡ variables.accessor_node kind accessors.entry.now nodes.entry.now }
{
    'accessors: while let [accessor, other_accessors @ ..] = accessors {
        let [node, other_nodes @ ..] = nodes else {
            return None;
        };
        if accessor.kind == kind {
            return Some(*node);
        }
        accessors = other_accessors;
        nodes = other_nodes;
    }
    None
}

/// The accessors of a computed property or global, or of a subscript.
pub fn accessors_of(accessors: &[Accessor], nodes: &[Node]) -> Accessors
    ensures { result ≡ variables.accessors_of accessors.now nodes.now }
{
    Accessors {
        getter: accessor_node(AccessorKind::Get, accessors, nodes).unwrap_or(Node(0)),
        setter: accessor_node(AccessorKind::Set, accessors, nodes),
    }
}

/// Whether it has a getter, and no place of its own.
pub fn is_computed(accessors: &[Accessor]) -> bool
    ensures { result ≡ variables.is_computed accessors.now }
{
    accessors
        .iter()
        .any(|accessor| accessor.kind == AccessorKind::Get)
}

/// Whether it has observers.
pub fn is_observed(accessors: &[Accessor]) -> bool
    ensures { result ≡ variables.is_observed accessors.now }
{
    accessors.iter().any(|accessor| matches!(
        accessor.kind,
        AccessorKind::WillSet | AccessorKind::DidSet
    ))
}

/// Whether it is a stored property of a class without an initial value. The owner is the structure
/// or class that it is a property of.
pub fn lacks_value(owner: Option<Ty>, written: &sx_tree::Variable) -> bool
    ensures { result ≡ variables.lacks_value owner written.now }
{
    matches!(owner, Some(Ty::Class(_)))
        && !is_computed(written.accessors.as_slice())
        && written.value.is_none()
}

/// The variable at this node, a property of the owner if there is one. `accessor_nodes` are those
/// of its accessors and observers in the order of the text. `stored` and `given` are the numbers
/// that it has among what is stored beside it and among the declarations whose initial values give
/// their types.
pub fn variable(
    alloc: Global,
    declarations: &Declarations,
    owner: Option<Ty>,
    node: Node,
    accessor_nodes: &[Node],
    stored: u32,
    given: u32,
    written: &sx_tree::Variable,
) -> Result<Variable, AllocError>
    ensures { IfOk result (λ v. v ≡ variables.variable declarations.now owner node accessor_nodes.now stored given written.now) }
{
    let ty = match &written.ty {
        Some(ty) => {
            let failed = lacks_value(owner, written);
            VariableType::Written(known_written(alloc, declarations, failed, node, ty)?)
        }
        None => VariableType::Given(given),
    };
    let storage = storage_of(stored, written, accessor_nodes);
    Ok(Variable { node, ty, storage })
}

/// What is known of a variable by its written type. It may have failed for another reason.
fn known_written(
    alloc: Global,
    declarations: &Declarations,
    failed: bool,
    node: Node,
    written: &WrittenType,
) -> Result<Known, AllocError>
    ensures { IfOk result (λ k. k ≡ variables.known_by failed (judged_type declarations.now written.now (at (suc node.0)))) }
{
    match type_apart(alloc, declarations, node, written)? {
        Some(ty) => Ok(known_unless(failed, ty)),
        None => Ok(Known::Failed),
    }
}

fn known_unless(failed: bool, ty: Ty) -> Known
    ensures { result ≡ variables.known_unless failed ty }
{
    if failed || is_void(ty) {
        Known::Failed
    } else {
        Known::Type(ty)
    }
}

/// How a variable is stored, with this number among what is stored beside it.
fn storage_of(number: u32, written: &sx_tree::Variable, nodes: &[Node]) -> Storage
    ensures { result ≡ variables.storage_of number written.now nodes.now }
{
    let accessors = written.accessors.as_slice();
    if is_computed(accessors) {
        return Storage::Computed(accessors_of(accessors, nodes));
    }
    if is_observed(accessors) {
        return Storage::Observed(number, observers_of(accessors, nodes));
    }
    if written.constant {
        Storage::Constant(number)
    } else {
        Storage::Stored(number)
    }
}

fn observers_of(accessors: &[Accessor], nodes: &[Node]) -> Observers
    ensures { result ≡ variables.observers_of accessors.now nodes.now }
{
    Observers {
        will_set: accessor_node(AccessorKind::WillSet, accessors, nodes),
        did_set: accessor_node(AccessorKind::DidSet, accessors, nodes),
    }
}
