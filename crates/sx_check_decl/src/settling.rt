// What is declared, settled twice.

ghost use Rattle.std.specs.Prelude.{◌≡◌, IfOk, is_some, map};
ghost use Rattle.sx_settle.specs.Settled.{settling};
ghost use Rattle.sx_check_decl.specs.Checked as checked;

use crate::fields::{
    bare_classes, bare_structures, class_faults, classes_of, names_of, structure_faults,
    structures_of,
};
use crate::items::Settled;
use sqlite_items::Items;
use std::alloc::{AllocError, Global};
use sx_layout::measure;
use sx_members::TypeFault;
use sx_outline::{ItemNodes, outline_of};
use sx_scope::{Declarations, TypeStop};
use sx_settle::settle;
use sx_tables::{SpecialNames, bare_declarations, declare, named_types};
use sx_tree::{Item, TypeKind};
use sx_types::{Class, FunctionTypes, Structure, Types};

/// What the items declare: first settled to see which structures hold themselves and how wide they
/// are, and then with those failing.
pub fn settled(alloc: Global, special: SpecialNames, items: &[Item]) -> Result<Settled, AllocError>
    ensures { IfOk result (λ x. checked.IsSettled special items.now x) }
{
    let names = named_types(alloc, special, items)?;
    let outline = outline_of(alloc, &names, items)?;
    let nodes = outline.nodes;
    let item_nodes = outline.items;
    let types = first_types(alloc, items, outline.functions)?;
    let (first, _) = declared(
        alloc,
        special,
        &[],
        &[],
        types,
        nodes,
        items,
        item_nodes.as_slice(),
    )?;
    let types = second_types(alloc, items, first)?;
    settled_with(alloc, special, types, nodes, items, item_nodes.as_slice())
}

/// The types of a program before anything is known of stored properties.
fn first_types(alloc: Global, items: &[Item], functions: FunctionTypes) -> Result<Types, AllocError>
    ensures { IfOk result (λ t. checked.AreFirst items.now functions t) }
{
    let structure_names = names_of(alloc, TypeKind::Structure, items)?;
    let class_names = names_of(alloc, TypeKind::Class, items)?;
    let structures = bare_structures(alloc, structure_names.as_slice())?;
    let classes = bare_classes(alloc, class_names.as_slice())?;
    types_of(alloc, structures, classes, functions)
}

/// The types of a program with their stored properties, as far as these declarations tell them.
fn second_types(
    alloc: Global,
    items: &[Item],
    declarations: Declarations,
) -> Result<Types, AllocError>
    ensures { IfOk result (λ t. checked.AreSecond items.now declarations declarations.types.functions t) }
{
    let structure_names = names_of(alloc, TypeKind::Structure, items)?;
    let class_names = names_of(alloc, TypeKind::Class, items)?;
    let structures = structures_of(
        alloc,
        &declarations,
        structure_names.as_slice(),
        declarations.structures.as_slice(),
    )?;
    let classes = classes_of(
        alloc,
        &declarations,
        class_names.as_slice(),
        declarations.classes.as_slice(),
    )?;
    types_of(alloc, structures, classes, declarations.types.functions)
}

/// The types of a program, with the words of the structures.
fn types_of(
    alloc: Global,
    mut structures: Items<Structure>,
    classes: Items<Class>,
    functions: FunctionTypes,
) -> Result<Types, AllocError>
    ensures { IfOk result (λ t. checked.AreTypes structures classes functions t) }
{
    measure(alloc, &mut structures)?;
    Ok(Types {
        structures,
        classes,
        functions,
    })
}

/// What is declared with these types, so that those fail that hold themselves or are too wide.
fn settled_with(
    alloc: Global,
    special: SpecialNames,
    types: Types,
    nodes: u32,
    items: &[Item],
    item_nodes: &[ItemNodes],
) -> Result<Settled, AllocError>
    ensures { IfOk result (λ x. checked.IsSettledWith special types nodes items.now item_nodes.now x) }
{
    let structures = structure_faults(alloc, &types)?;
    let classes = class_faults(alloc, &types)?;
    let failing_structures = are_told(alloc, structures.as_slice())?;
    let failing_classes = are_told(alloc, classes.as_slice())?;
    let (declarations, stops) = declared(
        alloc,
        special,
        failing_structures.as_slice(),
        failing_classes.as_slice(),
        types,
        nodes,
        items,
        item_nodes,
    )?;
    Ok(Settled {
        declarations,
        structures,
        classes,
        stops,
    })
}

/// What is declared, with the types that initial values give.
fn declared(
    alloc: Global,
    special: SpecialNames,
    structures: &[bool],
    classes: &[bool],
    types: Types,
    nodes: u32,
    items: &[Item],
    item_nodes: &[ItemNodes],
) -> Result<(Declarations, Items<Option<TypeStop>>), AllocError>
    ensures { IfOk result (λ d. settling d.0 d.1 ≡ checked.settled_with special structures.now classes.now types nodes items.now item_nodes.now) }
{
    let mut declarations = bare_declarations(
        alloc, special, structures, classes, types, nodes, items, item_nodes,
    )?;
    declare(alloc, &mut declarations, items, item_nodes)?;
    let stops = settle(alloc, &mut declarations, items, item_nodes)?;
    Ok((declarations, stops))
}

/// For each fault whether there is one.
fn are_told(alloc: Global, mut faults: &[Option<TypeFault>]) -> Result<Vec<bool>, AllocError>
    ensures { IfOk result (λ told. told.items ≡ map is_some faults.entry.now) }
{
    let mut told = Vec::new(alloc);
    'faults: while let [fault, rest @ ..] = faults {
        told.push(fault.is_some())?;
        faults = rest;
    }
    Ok(told)
}
