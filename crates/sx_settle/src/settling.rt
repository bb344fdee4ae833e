// The types that initial values give.

ghost use Rattle.std.specs.Prelude.{◌≡◌, None, IfOk, map};
ghost use Rattle.sx_settle.specs.Settled.{failed, giving_items, in_circle, open_again, opened, settled, settling, unsettled};

use crate::givings::givings_of;
use crate::rounds::{settle_in_rounds, stop_at};
use crate::taking::Taking;
use sqlite_items::Items;
use std::alloc::{AllocError, Global};
use sx_outline::ItemNodes;
use sx_scope::{Declarations, Known, TypeStop};
use sx_tree::Item;

/// Settles the types that initial values give, and tells by what those declarations have failed
/// first that have failed, by their numbers.
pub fn settle(
    alloc: Global,
    declarations: &mut Declarations,
    items: &[Item],
    nodes: &[ItemNodes],
) -> Result<Items<Option<TypeStop>>, AllocError>
    ensures { IfOk result (λ stops. settling declarations.new stops ≡ settled (giving_items items.now nodes.now) (unsettled declarations.old)) }
{
    let givings = givings_of(alloc, items, nodes)?;
    let mut stops = no_stops(alloc, declarations.given.as_slice())?;
    let count = 2 * givings.len() + 1;
    declarations.given = all_failed(alloc, declarations.given.as_slice())?;
    let list = givings.as_slice();
    settle_in_rounds(
        alloc,
        declarations,
        &mut stops,
        list,
        Taking::Certain,
        count,
    )?;
    declarations.given = opened(alloc, declarations.given.as_slice(), stops.as_slice())?;
    settle_in_rounds(
        alloc,
        declarations,
        &mut stops,
        list,
        Taking::Depending,
        count,
    )?;
    settle_in_rounds(
        alloc,
        declarations,
        &mut stops,
        list,
        Taking::Everything,
        count,
    )?;
    declarations.given = with_circles(alloc, declarations.given.as_slice())?;
    Ok(stops)
}

/// None, for each declaration.
fn no_stops(alloc: Global, given: &[Known]) -> Result<Items<Option<TypeStop>>, AllocError>
    ensures { IfOk result (λ stops. stops ≡ map (λ _. None) given.now) }
{
    let mut stops = Items::new(alloc);
    'turns: for _ in given {
        stops.push(None)?;
    }
    Ok(stops)
}

/// Each as one that has failed.
fn all_failed(alloc: Global, given: &[Known]) -> Result<Items<Known>, AllocError>
    ensures { IfOk result (λ known. known ≡ map failed given.now) }
{
    let mut all = Items::new(alloc);
    'turns: for _ in given {
        all.push(Known::Failed)?;
    }
    Ok(all)
}

/// What is known where those aren't known that have failed by nothing.
fn opened(
    alloc: Global,
    given: &[Known],
    stops: &[Option<TypeStop>],
) -> Result<Items<Known>, AllocError>
    ensures { IfOk result (λ known. known ≡ opened 0 given.now stops.now) }
{
    let mut all = Items::new(alloc);
    'turns: for (number, known) in given.iter().enumerate() {
        all.push(open_again(*known, stop_at(stops, number)))?;
    }
    Ok(all)
}

fn open_again(known: Known, stop: Option<TypeStop>) -> Known
    ensures { result ≡ open_again known stop }
{
    match (known, stop) {
        (Known::Failed, None) => Known::Untold,
        _ => known,
    }
}

/// What is known where no more will be told: what nothing tells stands in a circle.
fn with_circles(alloc: Global, given: &[Known]) -> Result<Items<Known>, AllocError>
    ensures { IfOk result (λ known. known ≡ map in_circle given.now) }
{
    let mut all = Items::new(alloc);
    'turns: for known in given {
        all.push(in_circle(*known))?;
    }
    Ok(all)
}

fn in_circle(known: Known) -> Known
    ensures { result ≡ in_circle known }
{
    match known {
        Known::Untold => Known::Circular,
        Known::Type(_) | Known::Failed | Known::Circular => known,
    }
}
