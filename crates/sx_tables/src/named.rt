// The types that names mean where types are written.

ghost use Rattle.std.specs.Prelude.{◌≡◌, [], IfOk, OnOk};
ghost use Rattle.sx_scope.specs.Tables.{with_entry};
ghost use Rattle.sx_tables.specs.Named as named;
ghost use Rattle.sx_tables.specs.Names as names;

use crate::names::{Before, SpecialNames, reserved_symbols, type_numbered};
use indexmap::IndexMap;
use std::alloc::{AllocError, Global};
use sx_scope::{Symbol, Table};
use sx_tree::Item;
use sx_types::Ty;

/// The types that names mean where types are written. A name has none of which each declaration has
/// failed.
pub fn named_types(
    alloc: Global,
    special: SpecialNames,
    items: &[Item],
) -> Result<IndexMap<u32, Ty>, AllocError>
    ensures { IfOk result (λ m. m.entries ≡ named.named_types special items.now) }
{
    let reserved = reserved_symbols(alloc, special)?;
    let basic = basic_types(alloc, special)?;
    named_behind(alloc, &reserved, basic, items)
}

/// The types that names mean, behind the basic types.
fn named_behind(
    alloc: Global,
    reserved: &Table<Symbol>,
    basic: IndexMap<u32, Ty>,
    mut items: &[Item],
) -> Result<IndexMap<u32, Ty>, AllocError>
    ensures { IfOk result (λ m. m.entries ≡ named.named_from reserved.now basic.entries [] names.no_numbers items.entry.now) }
{
    let mut types = basic;
    let mut before = Before::new(alloc);
    'items: while let [item, other_items @ ..] = items {
        add_type(&mut types, reserved, &before, item)?;
        before.pass(item)?;
        items = other_items;
    }
    Ok(types)
}

/// The types of the names that have a meaning of their own.
fn basic_types(alloc: Global, special: SpecialNames) -> Result<IndexMap<u32, Ty>, AllocError>
    ensures { IfOk result (λ m. m.entries ≡ named.basic_named special) }
{
    let mut types = IndexMap::new(alloc);
    add_named(&mut types, special.int, Ty::Int)?;
    add_named(&mut types, special.bool, Ty::Bool)?;
    add_named(&mut types, special.void, Ty::Void)?;
    Ok(types)
}

fn add_named(types: &mut IndexMap<u32, Ty>, name: Option<u32>, ty: Ty) -> Result<(), AllocError>
    ensures { OnOk result (types.new.entries ≡ names.with_option name ty types.old.entries) }
{
    match name {
        Some(name) => add(types, name, ty),
        None => Ok(()),
    }
}

/// Adds the structure or class that an item declares, if its name is new.
fn add_type(
    types: &mut IndexMap<u32, Ty>,
    reserved: &Table<Symbol>,
    before: &Before,
    item: &Item,
) -> Result<(), AllocError>
    ensures { OnOk result (types.new.entries ≡ named.with_named reserved.now before.now.names.keys before.now.numbers item.now types.old.entries) }
{
    match item {
        Item::Type(declaration) => {
            let name = declaration.name.number;
            if before.is_new(reserved, name) {
                add(types, name, type_numbered(declaration.kind, before.numbers))
            } else {
                Ok(())
            }
        }
        Item::Function(_) | Item::Global(_) | Item::Statement(_) => Ok(()),
    }
}

/// Adds an entry at the end, unless there is one at the name.
fn add(types: &mut IndexMap<u32, Ty>, name: u32, ty: Ty) -> Result<(), AllocError>
    ensures { OnOk result (types.new.entries ≡ with_entry name ty types.old.entries) }
{
    match types.get(&name) {
        Some(_) => Ok(()),
        None => match types.insert(name, ty) {
            Ok(_) => Ok(()),
            Err(_) => Err(AllocError),
        },
    }
}
