// Rounds in which what isn't settled is judged again.

ghost use Rattle.std.specs.Prelude.{◌≡◌, IfOk, OnOk, Some, None, IsTrue, IsFalse, map, slice_get, slice_set};
ghost use Rattle.sx_scope.specs.Names.{given_known};
ghost use Rattle.sx_scope.specs.declared.declarations.Known.TheVariants as knowns;
ghost use Rattle.sx_members.specs.Variables.{stop_of};
ghost use Rattle.sx_settle.specs.Settled.{round_from, rounds, settled_as, settled_one, settling};
ghost use Rattle.sx_settle.specs.Steps.{given};

use crate::givings::Giving;
use crate::judging::told_of;
use crate::taking::Taking;
use sqlite_items::Items;
use std::alloc::{AllocError, Global};
use sx_scope::{Declarations, Known, TypeStop};
use sx_types::Ty;

/// Goes through so many rounds, or until one changes nothing.
pub fn settle_in_rounds(
    alloc: Global,
    declarations: &mut Declarations,
    stops: &mut Items<Option<TypeStop>>,
    givings: &[Giving<'_>],
    taking: Taking,
    count: usize,
) -> Result<(), AllocError>
    ensures { OnOk result (settling declarations.new stops.new ≡ rounds taking count (map given givings.now) (settling declarations.old stops.old)) }
{
    let mut left = count;
    'rounds: while left > 0 {
        left -= 1;
        if !settle_once(alloc, declarations, stops, givings, taking)? {
            return Ok(());
        }
    }
    Ok(())
}

/// Judges each again that doesn't stay as it is, and tells whether anything has changed.
fn settle_once(
    alloc: Global,
    declarations: &mut Declarations,
    stops: &mut Items<Option<TypeStop>>,
    givings: &[Giving<'_>],
    taking: Taking,
) -> Result<bool, AllocError>
    ensures settled { OnOk result (settling declarations.new stops.new ≡ round_from taking 0 (map given givings.now) (settling declarations.old stops.old)) }
    ensures still { IfOk result (λ changed. IsFalse changed → settling declarations.new stops.new ≡ settling declarations.old stops.old) }
{
    let mut changed = false;
    'givings: for (number, giving) in givings.iter().enumerate() {
        if settle_one(alloc, declarations, stops, taking, number, giving)? {
            changed = true;
        }
    }
    Ok(changed)
}

/// Judges the declaration with this number again if it doesn't stay as it is, and tells whether
/// anything has changed.
fn settle_one(
    alloc: Global,
    declarations: &mut Declarations,
    stops: &mut Items<Option<TypeStop>>,
    taking: Taking,
    number: usize,
    giving: &Giving<'_>,
) -> Result<bool, AllocError>
    ensures settled { OnOk result (settling declarations.new stops.new ≡ settled_one taking number (given giving.now) (settling declarations.old stops.old)) }
    ensures still { IfOk result (λ changed. IsFalse changed → settling declarations.new stops.new ≡ settling declarations.old stops.old) }
{
    let known = known_at(declarations.given.as_slice(), number);
    let stop = stop_at(stops.as_slice(), number);
    match told_of(alloc, declarations, taking, known, stop, giving)? {
        Some((known, stop)) => Ok(settle_as(declarations, stops, number, known, stop)),
        None => Ok(false),
    }
}

/// Sets what is known of the declaration with this number and by what it has failed first, and
/// tells whether that changes anything.
fn settle_as(
    declarations: &mut Declarations,
    stops: &mut Items<Option<TypeStop>>,
    number: usize,
    known: Known,
    stop: Option<TypeStop>,
) -> bool
    ensures settled { settling declarations.new stops.new ≡ settled_as number known stop (settling declarations.old stops.old) }
    ensures still { IsFalse result → settling declarations.new stops.new ≡ settling declarations.old stops.old }
{
    if is_settled(
        declarations.given.as_slice(),
        stops.as_slice(),
        number,
        known,
        stop,
    ) {
        return false;
    }
    put(&mut declarations.given, number, known);
    put(stops, number, stop);
    true
}

/// Whether this is known already, without a stop. Only a type can be: what has failed isn't judged
/// again.
fn is_settled(
    given: &[Known],
    stops: &[Option<TypeStop>],
    number: usize,
    known: Known,
    stop: Option<TypeStop>,
) -> bool
    ensures known { IsTrue result → slice_get given.now number ≡ Some known }
    ensures stop { IsTrue result → slice_get stops.now number ≡ Some stop }
{
    match (known, stop) {
        (Known::Type(ty), None) => is_known(given, number, ty) && has_no_stop(stops, number),
        _ => false,
    }
}

fn is_known(given: &[Known], number: usize, ty: Ty) -> bool
    ensures { IsTrue result → slice_get given.now number ≡ Some (knowns.Type ty) }
{
    match given.get(number) {
        Some(Known::Type(before)) => *before == ty,
        _ => false,
    }
}

fn has_no_stop(stops: &[Option<TypeStop>], number: usize) -> bool
    ensures { IsTrue result → slice_get stops.now number ≡ Some None }
{
    matches!(stops.get(number), Some(None))
}

fn known_at(given: &[Known], number: usize) -> Known
    ensures { result ≡ given_known (slice_get given.now number) }
{
    match sqlite_items::at(given, number) {
        Some(known) => *known,
        None => Known::Untold,
    }
}

/// By what the declaration with this number has failed first, if by anything.
pub fn stop_at(stops: &[Option<TypeStop>], number: usize) -> Option<TypeStop>
    ensures { result ≡ stop_of stops.now number }
{
    match stops.get(number) {
        Some(stop) => *stop,
        None => None,
    }
}

/// Puts an item at this index, if there is one.
fn put<T: Drop>(items: &mut Items<T>, at: usize, item: T)
    ensures { items.new ≡ slice_set items.old at item }
{
    if at < items.len() {
        items.set(at, item);
    }
}
