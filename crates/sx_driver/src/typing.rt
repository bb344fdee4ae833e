// Trees that aren't typed: what is told of them, and where.

ghost use Rattle.std.specs.Prelude.{◌≡◌, ◌≤◌, Err, IfOk, length, true};
ghost use Rattle.sx_check_decl.specs.Program.{Checked};
ghost use Rattle.sx_driver.specs.Faults.{HasTree, IsPlacedType, Refuses, Stops, late_fault, most_bytes, place_by_kind, told};

use crate::fault::{CompileStop, Fault};
use std::alloc::Global;
use sx_scope::{TypeKind, TypeStop};
use sx_span::Node;
use sx_tree::{NoMemory, Tree, fault_place, parameter_fault_place};

/// Why a text is refused whose tree isn't typed. A fault that had no place in the text would be
/// answered as want of memory.
pub fn refused(alloc: Global, text: &[u8], tree: &Tree, stop: TypeStop) -> CompileStop
    ensures { HasTree text.now tree.now → Checked tree.now (Err stop) → Stops text.now result }
{
    match fault_of(alloc, tree, stop) {
        Ok(fault) => refusal(text, fault),
        Err(NoMemory) => CompileStop::NoMemory,
    }
}

/// A fault as a refusal, where its places lie in the text.
fn refusal(text: &[u8], fault: Option<Fault>) -> CompileStop
    ensures { length text.now ≤ most_bytes → Refuses text.now fault result }
{
    match fault {
        Some(fault) if is_placed(text, fault) => CompileStop::Refused(fault),
        _ => CompileStop::NoMemory,
    }
}

/// Whether the places of a fault of types lie in the text.
fn is_placed(text: &[u8], fault: Fault) -> bool
    ensures { result ≡ true → length text.now ≤ most_bytes → IsPlacedType text.now fault }
{
    match fault {
        Fault::Typing(_, at) | Fault::TooWide(at) => lies_in(text, at),
        Fault::Late { at, global } => lies_in(text, at) && lies_in(text, global),
        _ => false,
    }
}

fn lies_in(text: &[u8], at: u32) -> bool
    ensures { result ≡ true → at ≤ length text.now }
{
    at as usize <= text.len()
}

/// What is told of a tree that isn't typed, if its nodes have places.
fn fault_of(alloc: Global, tree: &Tree, stop: TypeStop) -> Result<Option<Fault>, NoMemory>
    ensures { IfOk result (λ fault. fault ≡ told tree.now stop) }
{
    match stop {
        TypeStop::Typing(kind, node) => match place_by_kind(alloc, tree, kind, node)? {
            Some(at) => Ok(Some(Fault::Typing(kind, at))),
            None => Ok(None),
        },
        TypeStop::TooWide(node) => match fault_place(tree, node) {
            Some(at) => Ok(Some(Fault::TooWide(at))),
            None => Ok(None),
        },
        TypeStop::Late { at, global } => {
            Ok(late_fault(fault_place(tree, at), fault_place(tree, global)))
        }
        TypeStop::NoMemory => Ok(None),
    }
}

fn late_fault(at: Option<u32>, global: Option<u32>) -> Option<Fault>
    ensures { result ≡ late_fault at global }
{
    match (at, global) {
        (Some(at), Some(global)) => Some(Fault::Late { at, global }),
        _ => None,
    }
}

/// Where a node stands that breaks this condition.
fn place_by_kind(
    alloc: Global,
    tree: &Tree,
    kind: TypeKind,
    node: Node,
) -> Result<Option<u32>, NoMemory>
    ensures { IfOk result (λ place. place ≡ place_by_kind tree.now kind node) }
{
    match kind {
        TypeKind::Duplicate => parameter_fault_place(alloc, tree, node),
        _ => Ok(fault_place(tree, node)),
    }
}
