// Structures and classes by their stored properties, and what they fail by.

ghost use Rattle.std.specs.Prelude.{◌≡◌, ◌++◌, List, Bool, IfOk, OnOk, map};
ghost use Rattle.sx_check_decl.specs.Fields as fields;
ghost use Rattle.sx_layout.specs.Holding.{TellHolders};
ghost use Rattle.sx_tables.specs.Names as tables;

use sqlite_items::Items;
use std::alloc::{AllocError, Global};
use sx_layout::{holding_themselves, width};
use sx_members::TypeFault;
use sx_scope::{Declarations, DeclaredType, Known, StoredProperty, known_of};
use sx_tree::{Item, TypeKind};
use sx_types::{Class, Field, Structure, Ty, Types};

/// The numbers of the names of the structures, or of the classes, in the order of the text.
pub fn names_of(alloc: Global, kind: TypeKind, mut items: &[Item]) -> Result<Vec<u32>, AllocError>
    ensures { IfOk result (λ names. names.items ≡ fields.names_of kind items.entry.now) }
{
    let mut names = Vec::new(alloc);
    'items: while let [item, rest @ ..] = items {
        push_if(&mut names, name_of(kind, item))?;
        items = rest;
    }
    Ok(names)
}

fn push_if(names: &mut Vec<u32>, name: Option<u32>) -> Result<(), AllocError>
    ensures { OnOk result (names.new.items ≡ names.old.items ++ tables.listed name) }
{
    if let Some(name) = name {
        names.push(name)?;
    }
    Ok(())
}

/// The number of the name of the structure or class that an item declares, if it is of this kind.
fn name_of(kind: TypeKind, item: &Item) -> Option<u32>
    ensures { result ≡ fields.name_of kind item.now }
{
    match item {
        Item::Type(declaration) => {
            if is_kind(kind, declaration.kind) {
                Some(declaration.name.number)
            } else {
                None
            }
        }
        Item::Function(_) | Item::Global(_) | Item::Statement(_) => None,
    }
}

fn is_kind(wanted: TypeKind, kind: TypeKind) -> bool
    ensures { result ≡ tables.is_kind wanted kind }
{
    match (wanted, kind) {
        (TypeKind::Structure, TypeKind::Structure) | (TypeKind::Class, TypeKind::Class) => true,
        (TypeKind::Structure, TypeKind::Class) | (TypeKind::Class, TypeKind::Structure) => false,
    }
}

/// Structures with these names, before anything is known of their stored properties.
pub fn bare_structures(alloc: Global, mut names: &[u32]) -> Result<Items<Structure>, AllocError>
    ensures { IfOk result (λ structures. structures ≡ map fields.bare_structure names.entry.now) }
{
    let mut structures = Items::new(alloc);
    'names: while let [name, rest @ ..] = names {
        structures.push(Structure {
            name: *name,
            stored: Items::new(alloc),
            words: None,
        })?;
        names = rest;
    }
    Ok(structures)
}

/// Classes with these names, before anything is known of their stored properties.
pub fn bare_classes(alloc: Global, mut names: &[u32]) -> Result<Items<Class>, AllocError>
    ensures { IfOk result (λ classes. classes ≡ map fields.bare_class names.entry.now) }
{
    let mut classes = Items::new(alloc);
    'names: while let [name, rest @ ..] = names {
        classes.push(Class {
            name: *name,
            stored: Items::new(alloc),
        })?;
        names = rest;
    }
    Ok(classes)
}

fn field_of(declarations: &Declarations, property: &StoredProperty) -> Field
    ensures { result ≡ fields.field_of declarations.now property.now }
{
    Field {
        name: property.name,
        ty: type_known(known_of(declarations, property.ty)),
    }
}

fn type_known(known: Known) -> Option<Ty>
    ensures { result ≡ fields.type_known known }
{
    match known {
        Known::Type(ty) => Some(ty),
        Known::Failed | Known::Untold | Known::Circular => None,
    }
}

fn fields_of(
    alloc: Global,
    declarations: &Declarations,
    declared: &DeclaredType,
) -> Result<Items<Field>, AllocError>
    ensures { IfOk result (λ f. f ≡ fields.fields_of declarations.now declared.now) }
{
    let mut fields = Items::new(alloc);
    let mut properties = declared.stored.as_slice();
    'properties: while let [property, rest @ ..] = properties {
        fields.push(field_of(declarations, property))?;
        properties = rest;
    }
    Ok(fields)
}

/// The structures with these names, by what is known of their stored properties.
pub fn structures_of(
    alloc: Global,
    declarations: &Declarations,
    mut names: &[u32],
    mut declared: &[DeclaredType],
) -> Result<Items<Structure>, AllocError>
    ensures { IfOk result (λ s. s ≡ fields.structures_of declarations.now names.entry.now declared.entry.now) }
{
    let mut structures = Items::new(alloc);
    'names: while let [name, other_names @ ..] = names {
        let [one, others @ ..] = declared else {
            return Ok(structures);
        };
        let stored = fields_of(alloc, declarations, one)?;
        structures.push(Structure {
            name: *name,
            stored,
            words: None,
        })?;
        names = other_names;
        declared = others;
    }
    Ok(structures)
}

/// The classes with these names, by what is known of their stored properties.
pub fn classes_of(
    alloc: Global,
    declarations: &Declarations,
    mut names: &[u32],
    mut declared: &[DeclaredType],
) -> Result<Items<Class>, AllocError>
    ensures { IfOk result (λ c. c ≡ fields.classes_of declarations.now names.entry.now declared.entry.now) }
{
    let mut classes = Items::new(alloc);
    'names: while let [name, other_names @ ..] = names {
        let [one, others @ ..] = declared else {
            return Ok(classes);
        };
        let stored = fields_of(alloc, declarations, one)?;
        classes.push(Class {
            name: *name,
            stored,
        })?;
        names = other_names;
        declared = others;
    }
    Ok(classes)
}

/// What stored properties fail by together.
fn width_fault(types: &Types, stored: &[Field]) -> Result<Option<TypeFault>, AllocError>
    ensures { IfOk result (λ f. f ≡ fields.width_fault types.now.structures stored.now) }
{
    if stored.len() >= MOST_FIELDS {
        return Err(AllocError);
    }
    if is_wide(width(types.structures.as_slice(), stored)) {
        Ok(Some(TypeFault::Wide))
    } else {
        Ok(None)
    }
}

fn is_wide(words: Option<u32>) -> bool
    ensures { result ≡ fields.is_wide words }
{
    match words {
        Some(words) => words > MOST_WORDS,
        None => false,
    }
}

/// More stored properties than any text has.
const MOST_FIELDS: usize = 4_194_304;

/// The most words that a structure, or the stored properties of a class, may have.
const MOST_WORDS: u32 = 1024;

/// What the structures fail by.
pub fn structure_faults(
    alloc: Global,
    types: &Types,
) -> Result<Items<Option<TypeFault>>, AllocError>
    ensures { IfOk result (λ f. (holders : List Bool) × TellHolders types.now.structures holders × (f ≡ fields.structure_faults types.now.structures holders types.now.structures)) }
{
    let holders = holding_themselves(alloc, types.structures.as_slice())?;
    faults_by(alloc, types, holders.as_slice())
}

/// What the structures fail by, where it is told which of them hold themselves.
fn faults_by(
    alloc: Global,
    types: &Types,
    mut holders: &[bool],
) -> Result<Items<Option<TypeFault>>, AllocError>
    ensures { IfOk result (λ f. f ≡ fields.structure_faults types.now.structures holders.entry.now types.now.structures) }
{
    let mut faults = Items::new(alloc);
    let mut structures = types.structures.as_slice();
    'structures: while let [structure, others @ ..] = structures {
        let [holds, other_holders @ ..] = holders else {
            return Ok(faults);
        };
        faults.push(structure_fault(types, *holds, structure)?)?;
        holders = other_holders;
        structures = others;
    }
    Ok(faults)
}

fn structure_fault(
    types: &Types,
    holds: bool,
    structure: &Structure,
) -> Result<Option<TypeFault>, AllocError>
    ensures { IfOk result (λ f. f ≡ fields.structure_fault types.now.structures holds structure.now) }
{
    if holds {
        Ok(Some(TypeFault::Recursive))
    } else {
        width_fault(types, structure.stored.as_slice())
    }
}

/// What the classes fail by.
pub fn class_faults(alloc: Global, types: &Types) -> Result<Items<Option<TypeFault>>, AllocError>
    ensures { IfOk result (λ f. f ≡ map (fields.class_fault types.now.structures) types.now.classes) }
{
    let mut faults = Items::new(alloc);
    let mut classes = types.classes.as_slice();
    'classes: while let [class, rest @ ..] = classes {
        faults.push(width_fault(types, class.stored.as_slice())?)?;
        classes = rest;
    }
    Ok(faults)
}
