//! From items to code, in four passes: where labels stand with every item in its far form, which
//! items their near form suffices for, where labels stand then, and the code.
ghost use Rattle.std.specs.Prelude.{◌≡◌, ◌↔◌, ◌++◌, ◌+◌, ◌<◌, ◌^◌, [], length, IsTrue, IfOk, OnOk};
ghost use Rattle.sx_rv_asm.specs.Labels.{place_in, Holds};
ghost use Rattle.sx_rv_asm.specs.Layout.{code_of, size_of, nears_from, nears_of, code_from, all_far};

use crate::forms::{is_near, put_item, size};
use crate::items::Item;
use crate::labels::Labels;
use crate::no_memory::NoMemory;
use std::alloc::{AllocError, Global};

/// Where labels stand, if each item has the form that `nears` tells.
fn place_labels(alloc: Global, items: &[Item], nears: &[bool]) -> Result<Labels, AllocError>
    requires same_length { length nears.now ≡ length items.now }
    requires short { size_of items.now nears.now < 2 ^ 32 }
    ensures { IfOk result (λ labels. Holds labels items.now nears.now) }
{
    let mut labels = Labels::new(alloc);
    let mut address = 0;
    for k in 0..items.len() {
        let item = &items[k];
        labels.note(item, address)?;
        address += size(nears[k], item) as u32;
    }
    Ok(labels)
}

/// Which items have their near form, where labels stand so if every item has its far form.
fn near_forms(alloc: Global, items: &[Item], far: &Labels) -> Result<Vec<bool>, AllocError>
    requires { size_of items.now (all_far items.now) < 2 ^ 32 }
    ensures { IfOk result (λ nears. nears.items ≡ nears_from (place_in far.now) 0 items.now) }
{
    let mut nears = Vec::new(alloc);
    let mut address = 0;
    for item in items {
        nears.push(is_near(far, address, item))?;
        address += size(false, item) as u32;
    }
    Ok(nears)
}

/// Which items of a program have their near form.
fn choose_forms(alloc: Global, items: &[Item]) -> Result<Vec<bool>, AllocError>
    requires { size_of items.now (all_far items.now) < 2 ^ 32 }
    ensures { IfOk result (λ nears. nears.items ≡ nears_of items.now) }
{
    let all_far = vec![in alloc; false; items.len()]?;
    let far = place_labels(alloc, items, &all_far)?;
    near_forms(alloc, items, &far)
}

/// The bytes of items, one behind another.
fn put_items(
    alloc: Global,
    items: &[Item],
    nears: &[bool],
    labels: &Labels,
) -> Result<Vec<u8>, AllocError>
    requires same_length { length nears.now ≡ length items.now }
    requires short { size_of items.now nears.now < 2 ^ 30 }
    ensures { IfOk result (λ code. code.items ≡ code_from (place_in labels.now) 0 items.now nears.now) }
{
    let mut code = Vec::new(alloc);
    let mut address = 0;
    for k in 0..items.len() {
        let item = &items[k];
        let near = nears[k];
        put_item(&mut code, labels, address, near, item)?;
        address += size(near, item) as u32;
    }
    Ok(code)
}

/// Whether the code would have fewer than 2^30 bytes with every item in its far form. Then it has
/// so few in any case, and [`assemble`] takes it.
pub fn is_short(items: &[Item]) -> bool
    ensures exact { IsTrue result ↔ (size_of items.now (all_far items.now) < 2 ^ 30) }
    ensures short { IsTrue result → length (code_of items.now) < 2 ^ 30 }
{
    let mut room: usize = 1 << 30;
    for item in items {
        let taken = size(false, item);
        if room <= taken {
            return false;
        }
        room -= taken;
    }
    true
}

/// The code of a program, whose first byte has the address 0.
///
/// Each jump, branch and address meets its label. A branch or jump has its near form exactly where
/// that would reach the label with every item in its far form. Of a label that stands twice the
/// last place counts, and a label that stands nowhere has the address 0.
pub fn assemble(alloc: Global, items: &Vec<Item>) -> Result<Vec<u8>, NoMemory>
    requires { length (code_of items.now.items) < 2 ^ 30 }
    ensures { IfOk result (λ code. code.items ≡ code_of items.now.items) }
{
    let nears = choose_forms(alloc, items)?;
    let labels = place_labels(alloc, items, &nears)?;
    Ok(put_items(alloc, items, &nears, &labels)?)
}
