// The names of the outermost level, and the structures and classes by their numbers.

ghost use Rattle.std.specs.Prelude.{◌≡◌, ◌++◌, [], suc, IfOk, OnOk};
ghost use Rattle.sx_tables.specs.Names as names;

use indexmap::IndexSet;
use sqlite_items::Items;
use std::alloc::{AllocError, Global};
use sx_heads::is_computed;
use sx_outline::ItemNodes;
use sx_scope::{Declarations, DeclaredType, Symbol, Table, TypeName};
use sx_span::Node;
use sx_tree::{Item, Member, TypeDeclaration, TypeKind, Variable};
use sx_types::{Ty, Types};

/// The numbers of the names that have a meaning of their own, if the text has them.
#[derive(Clone, Copy)]
pub struct SpecialNames {
    pub int: Option<u32>,
    pub bool: Option<u32>,
    pub void: Option<u32>,
    pub print: Option<u32>,
}

/// How many there are of each sort before an item: structures, classes, functions and methods,
/// stored globals, and declarations whose initial values give their types.
#[derive(Clone, Copy)]
pub struct Numbers {
    pub structures: u32,
    pub classes: u32,
    pub functions: u32,
    pub globals: u32,
    pub given: u32,
}

/// The numbers before the first item.
pub(crate) fn no_numbers() -> Numbers
    ensures { result ≡ names.no_numbers }
{
    Numbers {
        structures: 0,
        classes: 0,
        functions: 0,
        globals: 0,
        given: 0,
    }
}

/// The numbers behind an item. Numbers that run out count as memory that does.
pub fn behind_item(item: &Item, numbers: Numbers) -> Result<Numbers, AllocError>
    ensures { IfOk result (λ n. n ≡ names.behind_item item.now numbers) }
{
    match item {
        Item::Function(_) => Ok(Numbers {
            functions: next(numbers.functions)?,
            ..numbers
        }),
        Item::Type(declaration) => {
            let numbers = behind_members(declaration.members.as_slice(), numbers)?;
            behind_type(declaration.kind, numbers)
        }
        Item::Global(variable) => behind_global(variable, numbers),
        Item::Statement(_) => Ok(numbers),
    }
}

/// The numbers behind these items.
pub(crate) fn behind_items(mut items: &[Item]) -> Result<Numbers, AllocError>
    ensures { IfOk result (λ n. n ≡ names.behind_items items.entry.now names.no_numbers) }
{
    let mut numbers = no_numbers();
    'items: while let [item, other_items @ ..] = items {
        numbers = behind_item(item, numbers)?;
        items = other_items;
    }
    Ok(numbers)
}

fn behind_type(kind: TypeKind, numbers: Numbers) -> Result<Numbers, AllocError>
    ensures { IfOk result (λ n. n ≡ names.behind_type kind numbers) }
{
    match kind {
        TypeKind::Structure => Ok(Numbers {
            structures: next(numbers.structures)?,
            ..numbers
        }),
        TypeKind::Class => Ok(Numbers {
            classes: next(numbers.classes)?,
            ..numbers
        }),
    }
}

fn behind_global(variable: &Variable, numbers: Numbers) -> Result<Numbers, AllocError>
    ensures { IfOk result (λ n. n ≡ names.behind_global variable.now numbers) }
{
    let stored = !is_computed(variable.accessors.as_slice());
    let globals = counted_if(stored, numbers.globals)?;
    let given = counted_if(variable.ty.is_none(), numbers.given)?;
    Ok(Numbers {
        globals,
        given,
        ..numbers
    })
}

fn behind_members(mut members: &[Member], mut numbers: Numbers) -> Result<Numbers, AllocError>
    ensures { IfOk result (λ n. n ≡ names.behind_members members.entry.now numbers) }
{
    'members: while let [member, other_members @ ..] = members {
        numbers = behind_member(member, numbers)?;
        members = other_members;
    }
    Ok(numbers)
}

/// The numbers behind a member of a structure or class.
pub(crate) fn behind_member(member: &Member, numbers: Numbers) -> Result<Numbers, AllocError>
    ensures { IfOk result (λ n. n ≡ names.behind_member member.now numbers) }
{
    match member {
        Member::Property(variable) => Ok(Numbers {
            given: counted_if(variable.ty.is_none(), numbers.given)?,
            ..numbers
        }),
        Member::Method(_) => Ok(Numbers {
            functions: next(numbers.functions)?,
            ..numbers
        }),
        Member::Subscript(_) | Member::Initialiser(_) => Ok(numbers),
    }
}

fn counted_if(holds: bool, number: u32) -> Result<u32, AllocError>
    ensures { IfOk result (λ n. n ≡ names.counted_if holds number) }
{
    if holds { next(number) } else { Ok(number) }
}

fn next(number: u32) -> Result<u32, AllocError>
    ensures { IfOk result (λ n. n ≡ suc number) }
{
    match number.checked_add(1) {
        Some(number) => Ok(number),
        None => Err(AllocError),
    }
}

/// The structure or class that comes next.
pub fn type_numbered(kind: TypeKind, numbers: Numbers) -> Ty
    ensures { result ≡ names.type_numbered kind numbers }
{
    match kind {
        TypeKind::Structure => Ty::Struct(numbers.structures),
        TypeKind::Class => Ty::Class(numbers.classes),
    }
}

/// What stands before an item: the names of items, and how many there are of each sort.
#[derive(Drop)]
pub(crate) struct Before {
    pub(crate) names: IndexSet<u32>,
    pub(crate) numbers: Numbers,
}

impl Before {
    pub(crate) fn new(alloc: Global) -> Before
        ensures names { result.names.keys ≡ [] }
        ensures numbers { result.numbers ≡ names.no_numbers }
    {
        Before {
            names: IndexSet::new(alloc),
            numbers: no_numbers(),
        }
    }

    /// Goes on behind an item.
    pub(crate) fn pass(&mut self, item: &Item) -> Result<(), AllocError>
        ensures names { OnOk result (self.new.names.keys ≡ names.with_name (names.item_name item.now) self.old.names.keys) }
        ensures numbers { OnOk result (self.new.numbers ≡ names.behind_item item.now self.old.numbers) }
    {
        add_name(&mut self.names, item_name(item))?;
        self.numbers = behind_item(item, self.numbers)?;
        Ok(())
    }

    /// Whether a name is neither one of these reserved ones nor that of an item before.
    pub(crate) fn is_new(&self, reserved: &Table<Symbol>, name: u32) -> bool
        ensures { result ≡ names.is_new reserved.now self.now.names.keys name }
    {
        reserved.get(name).is_none() && !self.names.contains(&name)
    }
}

fn add_name(seen: &mut IndexSet<u32>, name: Option<u32>) -> Result<(), AllocError>
    ensures { OnOk result (seen.new.keys ≡ names.with_name name seen.old.keys) }
{
    match name {
        Some(name) => match seen.insert(name) {
            Ok(_) => Ok(()),
            Err(_) => Err(AllocError),
        },
        None => Ok(()),
    }
}

fn item_name(item: &Item) -> Option<u32>
    ensures { result ≡ names.item_name item.now }
{
    match item {
        Item::Function(function) => Some(function.name.number),
        Item::Type(declaration) => Some(declaration.name.number),
        Item::Global(variable) => Some(variable.name.number),
        Item::Statement(_) => None,
    }
}

/// What is declared, as far as written types tell it: these types, and which structures and classes
/// have a fault besides their names, by their numbers.
pub fn bare_declarations(
    alloc: Global,
    special: SpecialNames,
    structures: &[bool],
    classes: &[bool],
    types: Types,
    nodes: u32,
    items: &[Item],
    item_nodes: &[ItemNodes],
) -> Result<Declarations, AllocError>
    ensures { IfOk result (λ d. d ≡ names.bare_declarations special structures.now classes.now types nodes items.now item_nodes.now) }
{
    let symbols = reserved_symbols(alloc, special)?;
    let basic = basic_types(alloc, special)?;
    let type_names = type_names(alloc, &symbols, basic, items)?;
    let structures = bare_types(
        alloc,
        &symbols,
        TypeKind::Structure,
        structures,
        items,
        item_nodes,
    )?;
    let classes = bare_types(alloc, &symbols, TypeKind::Class, classes, items, item_nodes)?;
    Ok(Declarations {
        nodes,
        types,
        type_names,
        symbols,
        structures,
        classes,
        functions: Items::new(alloc),
        given: Items::new(alloc),
    })
}

/// What the names mean that have a meaning of their own, at the outermost level.
pub(crate) fn reserved_symbols(
    alloc: Global,
    special: SpecialNames,
) -> Result<Table<Symbol>, AllocError>
    ensures { IfOk result (λ t. t ≡ names.reserved_symbols special) }
{
    let mut symbols = Table::new(alloc);
    add_named(&mut symbols, special.int, Symbol::BasicType)?;
    add_named(&mut symbols, special.bool, Symbol::BasicType)?;
    add_named(&mut symbols, special.void, Symbol::BasicType)?;
    add_named(&mut symbols, special.print, Symbol::Print)?;
    Ok(symbols)
}

/// What the names mean that have a meaning of their own, where types are written.
fn basic_types(alloc: Global, special: SpecialNames) -> Result<Table<TypeName>, AllocError>
    ensures { IfOk result (λ t. t ≡ names.basic_types special) }
{
    let mut types = Table::new(alloc);
    add_named(&mut types, special.int, TypeName::Type(Ty::Int))?;
    add_named(&mut types, special.bool, TypeName::Type(Ty::Bool))?;
    add_named(&mut types, special.void, TypeName::Type(Ty::Void))?;
    Ok(types)
}

fn add_named<T: Copy>(table: &mut Table<T>, name: Option<u32>, value: T) -> Result<(), AllocError>
    ensures { OnOk result (table.new ≡ names.with_option name value table.old) }
{
    match name {
        Some(name) => table.add(name, value),
        None => Ok(()),
    }
}

/// What names mean where types are written, behind the basic types.
fn type_names(
    alloc: Global,
    reserved: &Table<Symbol>,
    basic: Table<TypeName>,
    mut items: &[Item],
) -> Result<Table<TypeName>, AllocError>
    ensures { IfOk result (λ t. t ≡ names.type_names reserved.now basic [] names.no_numbers items.entry.now) }
{
    let mut type_names = basic;
    let mut before = Before::new(alloc);
    'items: while let [item, other_items @ ..] = items {
        add_type_name(&mut type_names, reserved, &before, item)?;
        before.pass(item)?;
        items = other_items;
    }
    Ok(type_names)
}

fn add_type_name(
    type_names: &mut Table<TypeName>,
    reserved: &Table<Symbol>,
    before: &Before,
    item: &Item,
) -> Result<(), AllocError>
    ensures { OnOk result (type_names.new ≡ names.with_type_name reserved.now before.now.names.keys before.now.numbers item.now type_names.old) }
{
    match item {
        Item::Type(declaration) => {
            let name = declaration.name.number;
            let ty = type_numbered(declaration.kind, before.numbers);
            type_names.add(name, named_type(before.is_new(reserved, name), ty))
        }
        Item::Function(_) | Item::Global(_) | Item::Statement(_) => Ok(()),
    }
}

fn named_type(new: bool, ty: Ty) -> TypeName
    ensures { result ≡ names.named_type new ty }
{
    if new {
        TypeName::Type(ty)
    } else {
        TypeName::Failed
    }
}

/// The structures or the classes, in the order of the text.
fn bare_types(
    alloc: Global,
    reserved: &Table<Symbol>,
    kind: TypeKind,
    faults: &[bool],
    mut items: &[Item],
    mut nodes: &[ItemNodes],
) -> Result<Items<DeclaredType>, AllocError>
    ensures { IfOk result (λ t. t ≡ names.bare_types reserved.now kind faults.now [] names.no_numbers items.entry.now nodes.entry.now) }
{
    let mut types = Items::new(alloc);
    let mut before = Before::new(alloc);
    'items: while let [item, other_items @ ..] = items {
        let [node, other_nodes @ ..] = nodes else {
            return Ok(types);
        };
        let found = item_type(alloc, reserved, kind, faults, &before, item, node);
        push_if(&mut types, found)?;
        before.pass(item)?;
        items = other_items;
        nodes = other_nodes;
    }
    Ok(types)
}

/// The structure or class that an item declares, if it is of this kind.
fn item_type(
    alloc: Global,
    reserved: &Table<Symbol>,
    kind: TypeKind,
    faults: &[bool],
    before: &Before,
    item: &Item,
    node: &ItemNodes,
) -> Option<DeclaredType>
    ensures { result ≡ names.item_type reserved.now kind faults.now before.now.names.keys before.now.numbers item.now node.now }
{
    match item {
        Item::Type(declaration) => {
            if is_kind(kind, declaration.kind) {
                let failed = type_failed(reserved, faults, before, declaration);
                Some(bare_type(alloc, node.node, failed))
            } else {
                None
            }
        }
        Item::Function(_) | Item::Global(_) | Item::Statement(_) => None,
    }
}

fn push_if(types: &mut Items<DeclaredType>, found: Option<DeclaredType>) -> Result<(), AllocError>
    ensures { OnOk result (types.new ≡ types.old ++ names.listed found) }
{
    match found {
        Some(found) => types.push(found),
        None => Ok(()),
    }
}

/// A structure or class without its members.
pub(crate) fn bare_type(alloc: Global, node: Node, failed: bool) -> DeclaredType
    ensures { result ≡ names.bare_type node failed }
{
    DeclaredType {
        node,
        failed,
        lacks_property: false,
        members: Table::new(alloc),
        subscript: None,
        stored: Items::new(alloc),
    }
}

pub(crate) fn is_kind(wanted: TypeKind, kind: TypeKind) -> bool
    ensures { result ≡ names.is_kind wanted kind }
{
    match (wanted, kind) {
        (TypeKind::Structure, TypeKind::Structure) | (TypeKind::Class, TypeKind::Class) => true,
        (TypeKind::Structure, TypeKind::Class) | (TypeKind::Class, TypeKind::Structure) => false,
    }
}

/// Whether a structure or class has failed by its name, or by a fault that is told by its number.
fn type_failed(
    reserved: &Table<Symbol>,
    faults: &[bool],
    before: &Before,
    declaration: &TypeDeclaration,
) -> bool
    ensures { result ≡ names.type_failed reserved.now faults.now before.now.names.keys before.now.numbers declaration.now }
{
    !before.is_new(reserved, declaration.name.number)
        || is_told(faults, number_in(declaration.kind, before.numbers))
}

fn is_told(faults: &[bool], number: u32) -> bool
    ensures { result ≡ names.is_told faults.now number }
{
    match faults.get(number as usize) {
        Some(fault) => *fault,
        None => false,
    }
}

fn number_in(kind: TypeKind, numbers: Numbers) -> u32
    ensures { result ≡ names.number_in kind numbers }
{
    match kind {
        TypeKind::Structure => numbers.structures,
        TypeKind::Class => numbers.classes,
    }
}
