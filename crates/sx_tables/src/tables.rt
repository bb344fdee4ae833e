// What is declared outside of bodies, by what written types mean.

ghost use Rattle.std.specs.Prelude.{◌≡◌, ◌++◌, IfOk, OnOk, replicate};
ghost use Rattle.sx_scope.specs.declared.declarations.Known.TheVariants as known;
ghost use Rattle.sx_tables.specs.Names as names;
ghost use Rattle.sx_tables.specs.Tables as tables;

use crate::members::with_members;
use crate::names::{
    Numbers, bare_type, behind_item, behind_items, is_kind, no_numbers, type_numbered,
};
use sqlite_items::Items;
use std::alloc::{AllocError, Global};
use sx_heads::{signature, variable};
use sx_outline::{ItemNodes, MemberNodes};
use sx_scope::{Declarations, DeclaredType, Known, Signature, Symbol, Table, declared_type};
use sx_tree::{Item, Member, TypeDeclaration, TypeKind};
use sx_types::Ty;

/// Completes the declarations by functions, members and what names mean. Of the types that initial
/// values give nothing is known yet.
pub fn declare(
    alloc: Global,
    declarations: &mut Declarations,
    items: &[Item],
    item_nodes: &[ItemNodes],
) -> Result<(), AllocError>
    ensures { OnOk result (declarations.new ≡ tables.declarations_of declarations.old items.now item_nodes.now) }
{
    let symbols = symbols_in(alloc, declarations, items, item_nodes)?;
    let structures = types_in(alloc, declarations, TypeKind::Structure, items, item_nodes)?;
    let classes = types_in(alloc, declarations, TypeKind::Class, items, item_nodes)?;
    let functions = functions_in(alloc, declarations, items, item_nodes)?;
    let given = untold(alloc, behind_items(items)?.given)?;
    add_symbols(&mut declarations.symbols, symbols.as_slice())?;
    declarations.structures = structures;
    declarations.classes = classes;
    declarations.functions = functions;
    declarations.given = given;
    Ok(())
}

/// So many types of which nothing is known.
fn untold(alloc: Global, count: u32) -> Result<Items<Known>, AllocError>
    ensures { IfOk result (λ k. k ≡ replicate count known.Untold) }
{
    let types = vec![in alloc; Known::Untold; count as usize]?;
    Ok(Items::from_vec(types))
}

/// Adds what names mean. Of two with one name the first counts.
fn add_symbols(table: &mut Table<Symbol>, mut symbols: &[(u32, Symbol)]) -> Result<(), AllocError>
    ensures { OnOk result (table.new ≡ tables.with_entries symbols.entry.now table.old) }
{
    'symbols: while let [(name, symbol), other_symbols @ ..] = symbols {
        table.add(*name, *symbol)?;
        symbols = other_symbols;
    }
    Ok(())
}

/// What items declare by their names at the outermost level, in the order of the text.
fn symbols_in(
    alloc: Global,
    declarations: &Declarations,
    mut items: &[Item],
    mut nodes: &[ItemNodes],
) -> Result<Items<(u32, Symbol)>, AllocError>
    ensures { IfOk result (λ s. s ≡ tables.symbols declarations.now names.no_numbers items.entry.now nodes.entry.now) }
{
    let mut symbols = Items::new(alloc);
    let mut numbers = no_numbers();
    'items: while let [item, other_items @ ..] = items {
        let [node, other_nodes @ ..] = nodes else {
            return Ok(symbols);
        };
        add_symbol(alloc, declarations, &mut symbols, numbers, item, node)?;
        numbers = behind_item(item, numbers)?;
        items = other_items;
        nodes = other_nodes;
    }
    Ok(symbols)
}

fn add_symbol(
    alloc: Global,
    declarations: &Declarations,
    symbols: &mut Items<(u32, Symbol)>,
    numbers: Numbers,
    item: &Item,
    node: &ItemNodes,
) -> Result<(), AllocError>
    ensures { OnOk result (symbols.new ≡ symbols.old ++ tables.item_symbols declarations.now numbers item.now node.now) }
{
    match item {
        Item::Function(function) => {
            symbols.push((function.name.number, Symbol::Function(numbers.functions)))
        }
        Item::Type(declaration) => {
            let ty = type_numbered(declaration.kind, numbers);
            symbols.push((declaration.name.number, Symbol::Type(ty)))
        }
        Item::Global(written) => {
            let variable = variable(
                alloc,
                declarations,
                None,
                node.node,
                node.accessors.as_slice(),
                numbers.globals,
                numbers.given,
                written,
            )?;
            symbols.push((written.name.number, Symbol::Variable(variable)))
        }
        Item::Statement(_) => Ok(()),
    }
}

/// The functions and methods in the order of the text.
fn functions_in(
    alloc: Global,
    declarations: &Declarations,
    mut items: &[Item],
    mut nodes: &[ItemNodes],
) -> Result<Items<Signature>, AllocError>
    ensures { IfOk result (λ f. f ≡ tables.functions declarations.now names.no_numbers items.entry.now nodes.entry.now) }
{
    let mut functions = Items::new(alloc);
    let mut numbers = no_numbers();
    'items: while let [item, other_items @ ..] = items {
        let [node, other_nodes @ ..] = nodes else {
            return Ok(functions);
        };
        add_functions(alloc, declarations, &mut functions, numbers, item, node)?;
        numbers = behind_item(item, numbers)?;
        items = other_items;
        nodes = other_nodes;
    }
    Ok(functions)
}

fn add_functions(
    alloc: Global,
    declarations: &Declarations,
    functions: &mut Items<Signature>,
    numbers: Numbers,
    item: &Item,
    node: &ItemNodes,
) -> Result<(), AllocError>
    ensures { OnOk result (functions.new ≡ functions.old ++ tables.item_functions declarations.now numbers item.now node.now) }
{
    match item {
        Item::Function(function) => {
            let signature = signature(alloc, declarations, None, node.node, function)?;
            functions.push(signature)
        }
        Item::Type(declaration) => add_methods(
            alloc,
            declarations,
            functions,
            type_numbered(declaration.kind, numbers),
            declaration.members.as_slice(),
            node.members.as_slice(),
        ),
        Item::Global(_) | Item::Statement(_) => Ok(()),
    }
}

fn add_methods(
    alloc: Global,
    declarations: &Declarations,
    functions: &mut Items<Signature>,
    owner: Ty,
    mut members: &[Member],
    mut nodes: &[MemberNodes],
) -> Result<(), AllocError>
    ensures { OnOk result (functions.new ≡ functions.old ++ tables.methods declarations.now owner members.entry.now nodes.entry.now) }
{
    'members: while let [member, other_members @ ..] = members {
        let [node, other_nodes @ ..] = nodes else {
            return Ok(());
        };
        add_member_function(alloc, declarations, functions, owner, member, node)?;
        members = other_members;
        nodes = other_nodes;
    }
    Ok(())
}

fn add_member_function(
    alloc: Global,
    declarations: &Declarations,
    functions: &mut Items<Signature>,
    owner: Ty,
    member: &Member,
    node: &MemberNodes,
) -> Result<(), AllocError>
    ensures { OnOk result (functions.new ≡ functions.old ++ tables.member_functions declarations.now owner member.now node.now) }
{
    match member {
        Member::Method(function) => {
            let signature = signature(alloc, declarations, Some(owner), node.node, function)?;
            functions.push(signature)
        }
        Member::Property(_) | Member::Subscript(_) | Member::Initialiser(_) => Ok(()),
    }
}

/// The structures or the classes with their members, in the order of the text.
fn types_in(
    alloc: Global,
    declarations: &Declarations,
    kind: TypeKind,
    mut items: &[Item],
    mut nodes: &[ItemNodes],
) -> Result<Items<DeclaredType>, AllocError>
    ensures { IfOk result (λ t. t ≡ tables.full_types declarations.now kind names.no_numbers items.entry.now nodes.entry.now) }
{
    let mut types = Items::new(alloc);
    let mut numbers = no_numbers();
    'items: while let [item, other_items @ ..] = items {
        let [node, other_nodes @ ..] = nodes else {
            return Ok(types);
        };
        add_type(alloc, declarations, &mut types, kind, numbers, item, node)?;
        numbers = behind_item(item, numbers)?;
        items = other_items;
        nodes = other_nodes;
    }
    Ok(types)
}

fn add_type(
    alloc: Global,
    declarations: &Declarations,
    types: &mut Items<DeclaredType>,
    kind: TypeKind,
    numbers: Numbers,
    item: &Item,
    node: &ItemNodes,
) -> Result<(), AllocError>
    ensures { OnOk result (types.new ≡ types.old ++ tables.full_type declarations.now kind numbers item.now node.now) }
{
    match item {
        Item::Type(declaration) => {
            if is_kind(kind, declaration.kind) {
                add_completed(alloc, declarations, types, numbers, declaration, node)
            } else {
                Ok(())
            }
        }
        Item::Function(_) | Item::Global(_) | Item::Statement(_) => Ok(()),
    }
}

/// Adds a structure or class with its members, where it stands without.
fn add_completed(
    alloc: Global,
    declarations: &Declarations,
    types: &mut Items<DeclaredType>,
    numbers: Numbers,
    declaration: &TypeDeclaration,
    node: &ItemNodes,
) -> Result<(), AllocError>
    ensures { OnOk result (types.new ≡ types.old ++ tables.completed declarations.now numbers declaration.now node.now) }
{
    let ty = type_numbered(declaration.kind, numbers);
    match declared_type(declarations, ty) {
        Some(bare) => {
            let full = with_members(
                alloc,
                declarations,
                ty,
                numbers,
                declaration.members.as_slice(),
                node.members.as_slice(),
                bare_type(alloc, bare.node, bare.failed),
            )?;
            types.push(full)
        }
        None => Ok(()),
    }
}
