// Programs, looked at up to three times.

ghost use Rattle.std.specs.Prelude.{◌≡◌, IfOk, map};
ghost use Rattle.sx_bodies.specs.Literals.{Tells};
ghost use Rattle.sx_check_decl.specs.Looks.{judged, judged_again, without_circle};
ghost use Rattle.sx_check_decl.specs.Program.{AreDeclared};
ghost use Rattle.sx_heads.specs.Heads.{at};

use crate::items::{Blame, Program, Settled, judge_items};
use crate::settling::settled;
use crate::special::special_names;
use sqlite_items::Items;
use std::alloc::{AllocError, Global};
use std::mem;
use sx_functions::OwnNames;
use sx_scope::{Declarations, Found, Known, Stack, TypeStop, Walk};
use sx_tree::{Item, Tree};

/// The items of a program, or the first node in them that fails where each declaration that has
/// failed counts so. Where none does and yet the items aren't typed, they are judged again.
///
/// The walk stands at the start. The types stay what they were.
pub(crate) fn judge_program(
    alloc: Global,
    settled: &mut Settled,
    own: OwnNames,
    walk: &mut Walk,
    items: &[Item],
) -> Result<Program, TypeStop>
    requires { walk.old ≡ at 0 }
    ensures judged { Tells result walk.new (judged settled.old own items.now) }
    ensures types { settled.new.declarations.types ≡ settled.old.declarations.types }
{
    let known = without_circles(alloc, settled.declarations.given.as_slice())?;
    let given = mem::replace(&mut settled.declarations.given, known);
    let stops = mem::replace(&mut settled.stops, Items::new(alloc));
    if let Found::Typed(program) = judge_items(alloc, settled, own, Blame::Others, walk, items)? {
        return Ok(program);
    }
    settled.declarations.given = given;
    settled.stops = stops;
    *walk = at_start(alloc);
    judge_again(alloc, settled, own, walk, items)
}

/// The items of a program in which declarations depend on themselves, or the first node by which
/// one of them has failed. Where even so nothing is told, the first item fails that isn't typed.
///
/// The walk stands at the start.
fn judge_again(
    alloc: Global,
    settled: &Settled,
    own: OwnNames,
    walk: &mut Walk,
    items: &[Item],
) -> Result<Program, TypeStop>
    requires { walk.old ≡ at 0 }
    ensures { Tells result walk.new (judged_again settled.now own items.now) }
{
    if let Found::Typed(program) = judge_items(alloc, settled, own, Blame::Others, walk, items)? {
        return Ok(program);
    }
    *walk = at_start(alloc);
    match judge_items(alloc, settled, own, Blame::Itself, walk, items)? {
        Found::Typed(program) => Ok(program),
        _ => unreachable!(),
    }
}

/// What a tree declares: types, functions and globals, with what is known of the types that initial
/// values give.
pub fn declarations_of(alloc: Global, tree: &Tree) -> Result<Declarations, AllocError>
    ensures { IfOk result (λ d. AreDeclared tree.now d) }
{
    let special = special_names(tree.names.as_slice())?;
    let mut settled = settled(alloc, special, tree.items.as_slice())?;
    settled.declarations.given = without_circles(alloc, settled.declarations.given.as_slice())?;
    Ok(settled.declarations)
}

/// A walk that stands at the start.
pub(crate) fn at_start(alloc: Global) -> Walk
    ensures { result ≡ at 0 }
{
    Walk {
        next: 0,
        locals: Stack::new(alloc),
        mentions: Stack::new(alloc),
        literals: Stack::new(alloc),
    }
}

/// What is known where what stands in a circle counts as failed.
fn without_circles(alloc: Global, given: &[Known]) -> Result<Items<Known>, AllocError>
    ensures { IfOk result (λ known. known ≡ map without_circle given.now) }
{
    let mut all = Items::new(alloc);
    'turns: for known in given {
        all.push(without_circle(*known))?;
    }
    Ok(all)
}

fn without_circle(known: Known) -> Known
    ensures { result ≡ without_circle known }
{
    match known {
        Known::Circular => Known::Failed,
        Known::Type(_) | Known::Untold | Known::Failed => known,
    }
}
