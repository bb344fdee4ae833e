// Items one after another.

ghost use Rattle.std.specs.Prelude.{◌≡◌, IfOk, OnOk, None, Some, [], cond};
ghost use Rattle.sx_check_decl.specs.Items as judged;
ghost use Rattle.sx_scope.specs.Verdict.{Answers, ◌▷◌, both, found, typed};
ghost use Rattle.sx_scope.specs.Verdict as verdicts;
ghost use Rattle.sx_functions.specs.Functions.{function};
ghost use Rattle.sx_members.specs.Members as members;
ghost use Rattle.sx_members.specs.Variables as variables;
ghost use Rattle.sx_tables.specs.Names as names;

use indexmap::IndexSet;
use sqlite_items::Items;
use std::alloc::{AllocError, Global};
use sx_bodies::words_in;
use sx_check_expr::statement;
use sx_functions::{OwnNames, function};
use sx_heads::is_computed;
use sx_members::{TypeFault, TypedVariable, outer_place, type_declaration, variable};
use sx_scope::{Declarations, Found, TypeKind as FaultKind, TypeStop, Walk};
use sx_span::Node;
use sx_tables::{Numbers, behind_item, type_numbered};
use sx_tree::{Item, TypeKind};
use sx_typed::{Block, Expr, Global as StoredGlobal, Statement, StatementForm, TypeDeclaration};
use sx_types::{Ty, Types};

/// What is declared, what structures and classes fail by, and by what those declarations have
/// failed first whose initial values give their types.
#[derive(Drop)]
pub struct Settled {
    pub declarations: Declarations,
    /// For each structure.
    pub structures: Items<Option<TypeFault>>,
    /// For each class.
    pub classes: Items<Option<TypeFault>>,
    pub stops: Items<Option<TypeStop>>,
}

/// An item that is typed.
#[derive(Drop)]
pub enum TypedItem {
    /// What stands among the functions, or has none.
    Nothing,
    Structure(TypeDeclaration),
    Class(TypeDeclaration),
    /// A stored global: the number of its name, and whether it is declared with `let`.
    Global(u32, bool, TypedVariable),
    /// A statement and its node.
    Statement(Node, Statement),
}

/// A program as far as its items are typed, but for its functions.
#[derive(Drop)]
pub struct Program {
    /// The code of the outermost level.
    pub top: Block,
    /// For each statement of it the node at which it starts: for the storing of an initial value
    /// that of the value.
    pub starts: Items<Node>,
    /// The stored globals.
    pub globals: Items<StoredGlobal>,
    pub structures: Items<TypeDeclaration>,
    pub classes: Items<TypeDeclaration>,
}

/// What is to blame where no node in an item fails and yet it isn't typed.
#[derive(Clone, Copy)]
pub enum Blame {
    /// What it hangs on or depends on.
    Others,
    /// The item, which has no type to be given.
    Itself,
}

/// The most words that all stored globals may have together.
const MOST_GLOBAL_WORDS: u32 = 4_194_304;

/// What is found of a program.
pub type JudgedProgram = Result<Found<Program>, TypeStop>;

/// What is known before an item.
#[derive(Drop)]
struct Before {
    /// The names of the items before it.
    seen: IndexSet<u32>,
    numbers: Numbers,
    /// The words of the stored globals before it, where each of them is typed.
    words: Option<u32>,
}

/// The items of a program, or the first node in them that fails.
pub fn judge_items(
    alloc: Global,
    settled: &Settled,
    own: OwnNames,
    blame: Blame,
    walk: &mut Walk,
    mut items: &[Item],
) -> JudgedProgram
    ensures { Answers result walk.new (judged.run_items settled.now own blame (typed judged.no_program walk.old) [] names.no_numbers (Some 0) items.entry.now) }
{
    let mut before = Before {
        seen: IndexSet::new(alloc),
        numbers: no_numbers(),
        words: Some(0),
    };
    let mut program = Found::Typed(no_program(alloc));
    'items: while let Some((item, rest)) = items.split_first() {
        let found = turn(alloc, settled, own, blame, walk, &mut before, item)?;
        program = item_added(program, found)?;
        items = rest;
    }
    Ok(program)
}

fn no_program(alloc: Global) -> Program
    ensures { result ≡ judged.no_program }
{
    Program {
        top: Items::new(alloc),
        starts: Items::new(alloc),
        globals: Items::new(alloc),
        structures: Items::new(alloc),
        classes: Items::new(alloc),
    }
}

fn no_numbers() -> Numbers
    ensures { result ≡ names.no_numbers }
{
    Numbers {
        structures: 0,
        classes: 0,
        functions: 0,
        globals: 0,
        given: 0,
    }
}

/// The next item. What is known before an item goes on behind it.
fn turn(
    alloc: Global,
    settled: &Settled,
    own: OwnNames,
    blame: Blame,
    walk: &mut Walk,
    before: &mut Before,
    item: &Item,
) -> Result<Found<TypedItem>, TypeStop>
    ensures found { Answers result walk.new (judged.blamed_item settled.now own blame before.old.seen.keys before.old.numbers before.old.words item.now walk.old) }
    ensures seen { OnOk result (before.new.seen.keys ≡ names.with_name (names.item_name item.now) before.old.seen.keys) }
    ensures numbers { OnOk result (before.new.numbers ≡ names.behind_item item.now before.old.numbers) }
    ensures words { OnOk result (before.new.words ≡ judged.words_behind settled.now.declarations.types item.now (judged.blamed_item settled.now own blame before.old.seen.keys before.old.numbers before.old.words item.now walk.old) before.old.words) }
{
    let start = Node(walk.next);
    let value = item_value(alloc, settled, own, walk, before, item)?;
    let found = blamed(blame, start, value)?;
    pass(&settled.declarations.types, before, item, &found)?;
    Ok(found)
}

/// What is found of an item that starts at this node, unless it isn't typed and is itself to blame.
fn blamed(blame: Blame, start: Node, found: Found<TypedItem>) -> Result<Found<TypedItem>, TypeStop>
    ensures { (w : _) → Answers result w (judged.blamed blame start.0 (verdicts.found found w)) }
{
    match found {
        Found::Typed(item) => Ok(Found::Typed(item)),
        Found::Untold => match blame {
            Blame::Others => Ok(Found::Untold),
            Blame::Itself => Err(TypeStop::Typing(FaultKind::NeedsType, start)),
        },
        Found::Depends => match blame {
            Blame::Others => Ok(Found::Depends),
            Blame::Itself => Err(TypeStop::Typing(FaultKind::NeedsType, start)),
        },
    }
}

/// Goes on behind an item of which this is found.
fn pass(
    types: &Types,
    before: &mut Before,
    item: &Item,
    value: &Found<TypedItem>,
) -> Result<(), AllocError>
    ensures seen { OnOk result (before.new.seen.keys ≡ names.with_name (names.item_name item.now) before.old.seen.keys) }
    ensures numbers { OnOk result (before.new.numbers ≡ names.behind_item item.now before.old.numbers) }
    ensures words { OnOk result ((w : _) → before.new.words ≡ judged.words_behind types.now item.now (found value.now w) before.old.words) }
{
    before.words = words_behind(types, item, value, before.words)?;
    before.numbers = behind_item(item, before.numbers)?;
    see(&mut before.seen, item)
}

fn see(seen: &mut IndexSet<u32>, item: &Item) -> Result<(), AllocError>
    ensures { OnOk result (seen.new.keys ≡ names.with_name (names.item_name item.now) seen.old.keys) }
{
    match item {
        Item::Function(function) => add_name(seen, function.name.number),
        Item::Type(declaration) => add_name(seen, declaration.name.number),
        Item::Global(variable) => add_name(seen, variable.name.number),
        Item::Statement(_) => Ok(()),
    }
}

fn add_name(seen: &mut IndexSet<u32>, name: u32) -> Result<(), AllocError>
    ensures { OnOk result (seen.new.keys ≡ names.with_name (Some name) seen.old.keys) }
{
    match seen.insert(name) {
        Ok(_) => Ok(()),
        Err(_) => Err(AllocError),
    }
}

/// An item behind what is known before it.
fn item_value(
    alloc: Global,
    settled: &Settled,
    own: OwnNames,
    walk: &mut Walk,
    before: &Before,
    item: &Item,
) -> Result<Found<TypedItem>, TypeStop>
    ensures { Answers result walk.new (judged.item settled.now own before.now.seen.keys before.now.numbers before.now.words item.now walk.old) }
{
    match item {
        Item::Function(written) => {
            function_value(alloc, &settled.declarations, walk, &before.seen, written)
        }
        Item::Type(written) => type_value(alloc, settled, own, walk, before, written),
        Item::Global(written) => global_value(alloc, settled, own, walk, before, written),
        Item::Statement(written) => statement_value(alloc, &settled.declarations, walk, written),
    }
}

fn function_value(
    alloc: Global,
    declarations: &Declarations,
    walk: &mut Walk,
    seen: &IndexSet<u32>,
    written: &sx_tree::Function,
) -> Result<Found<TypedItem>, TypeStop>
    ensures { Answers result walk.new (function declarations.now None seen.now.keys written.now walk.old ▷ judged.no_item) }
{
    match function(alloc, declarations, walk, None, seen, written)? {
        Found::Typed(()) => Ok(Found::Typed(TypedItem::Nothing)),
        Found::Untold => Ok(Found::Untold),
        Found::Depends => Ok(Found::Depends),
    }
}

fn type_value(
    alloc: Global,
    settled: &Settled,
    own: OwnNames,
    walk: &mut Walk,
    before: &Before,
    written: &sx_tree::TypeDeclaration,
) -> Result<Found<TypedItem>, TypeStop>
    ensures { Answers result walk.new (members.type_declaration settled.now.declarations own settled.now.stops before.now.seen.keys (judged.fault_of settled.now written.now.kind before.now.numbers) before.now.numbers.given (names.type_numbered written.now.kind before.now.numbers) written.now walk.old ▷ judged.type_item written.now.kind) }
{
    let declarations = &settled.declarations;
    let stops = settled.stops.as_slice();
    let kind = written.kind;
    let fault = fault_of(settled, kind, before.numbers);
    let given = before.numbers.given;
    let ty = type_numbered(kind, before.numbers);
    match type_declaration(
        alloc,
        declarations,
        walk,
        own,
        stops,
        &before.seen,
        fault,
        given,
        ty,
        written,
    )? {
        Found::Typed(declaration) => Ok(Found::Typed(type_item(kind, declaration))),
        Found::Untold => Ok(Found::Untold),
        Found::Depends => Ok(Found::Depends),
    }
}

fn global_value(
    alloc: Global,
    settled: &Settled,
    own: OwnNames,
    walk: &mut Walk,
    before: &Before,
    written: &sx_tree::Variable,
) -> Result<Found<TypedItem>, TypeStop>
    ensures { Answers result walk.new (variables.variable settled.now.declarations own settled.now.stops None before.now.seen.keys (judged.room_for written.now before.now.words) before.now.numbers.given written.now walk.old ▷ judged.global_item written.now) }
{
    let declarations = &settled.declarations;
    let stops = settled.stops.as_slice();
    let room = room_for(written, before.words);
    let given = before.numbers.given;
    match variable(
        alloc,
        declarations,
        walk,
        own,
        stops,
        None,
        &before.seen,
        room,
        given,
        written,
    )? {
        Found::Typed(variable) => Ok(Found::Typed(global_item(written, variable))),
        Found::Untold => Ok(Found::Untold),
        Found::Depends => Ok(Found::Depends),
    }
}

/// A statement of the outermost level. Behind it, what it has declared is out of scope.
fn statement_value(
    alloc: Global,
    declarations: &Declarations,
    walk: &mut Walk,
    written: &sx_tree::Statement,
) -> Result<Found<TypedItem>, TypeStop>
    ensures { Answers result walk.new (judged.statement_value declarations.now written.now walk.old) }
{
    let node = Node(walk.next);
    let locals = walk.locals.len();
    let mentions = walk.mentions.len();
    let found = statement(alloc, declarations, walk, outer_place(), written)?;
    walk.locals.truncate(locals);
    walk.mentions.truncate(mentions);
    match found {
        Found::Typed(statement) => Ok(Found::Typed(TypedItem::Statement(node, statement))),
        Found::Untold => Ok(Found::Untold),
        Found::Depends => Ok(Found::Depends),
    }
}

fn type_item(kind: TypeKind, declaration: TypeDeclaration) -> TypedItem
    ensures { result ≡ judged.type_declared kind declaration }
{
    match kind {
        TypeKind::Structure => TypedItem::Structure(declaration),
        TypeKind::Class => TypedItem::Class(declaration),
    }
}

fn global_item(written: &sx_tree::Variable, variable: TypedVariable) -> TypedItem
    ensures { result ≡ judged.global_declared written.now variable }
{
    if is_computed(written.accessors.as_slice()) {
        TypedItem::Nothing
    } else {
        TypedItem::Global(written.name.number, written.constant, variable)
    }
}

fn fault_of(settled: &Settled, kind: TypeKind, numbers: Numbers) -> Option<TypeFault>
    ensures { result ≡ judged.fault_of settled.now kind numbers }
{
    match kind {
        TypeKind::Structure => fault_in(settled.structures.as_slice(), numbers.structures),
        TypeKind::Class => fault_in(settled.classes.as_slice(), numbers.classes),
    }
}

fn fault_in(faults: &[Option<TypeFault>], number: u32) -> Option<TypeFault>
    ensures { result ≡ judged.fault_in faults.now number }
{
    match faults.get(number as usize) {
        Some(fault) => *fault,
        None => None,
    }
}

/// For how many words there is room behind these words of stored globals.
fn room_for(written: &sx_tree::Variable, words: Option<u32>) -> Option<u32>
    ensures { result ≡ judged.room_for written.now words }
{
    if is_computed(written.accessors.as_slice()) {
        return None;
    }
    match words {
        Some(words) => Some(MOST_GLOBAL_WORDS.saturating_sub(words)),
        None => None,
    }
}

/// The words of the stored globals up to this item, where each of them is typed.
fn words_behind(
    types: &Types,
    item: &Item,
    value: &Found<TypedItem>,
    words: Option<u32>,
) -> Result<Option<u32>, AllocError>
    ensures { IfOk result (λ r. (w : _) → r ≡ judged.words_behind types.now item.now (found value.now w) words) }
{
    match value {
        Found::Typed(item) => {
            let sum = words_behind_typed(types, item, words)?;
            Ok(sum)
        }
        Found::Untold => Ok(words_unless_stored(item, words)),
        Found::Depends => Ok(words_unless_stored(item, words)),
    }
}

fn words_behind_typed(
    types: &Types,
    item: &TypedItem,
    words: Option<u32>,
) -> Result<Option<u32>, AllocError>
    ensures { IfOk result (λ r. r ≡ judged.words_behind_typed types.now item.now words) }
{
    match item {
        TypedItem::Nothing => Ok(words),
        TypedItem::Structure(_) => Ok(words),
        TypedItem::Class(_) => Ok(words),
        TypedItem::Global(_, _, variable) => with_words(types, variable.ty, words),
        TypedItem::Statement(_, _) => Ok(words),
    }
}

/// So many words and those of a value of the type. A sum that is no number of words counts as
/// memory that runs out.
fn with_words(types: &Types, ty: Ty, words: Option<u32>) -> Result<Option<u32>, AllocError>
    ensures { IfOk result (λ r. r ≡ judged.with_words types.now ty words) }
{
    match words {
        Some(words) => match words.checked_add(words_in(types, ty)) {
            Some(sum) => Ok(Some(sum)),
            None => Err(AllocError),
        },
        None => Ok(None),
    }
}

fn words_unless_stored(item: &Item, words: Option<u32>) -> Option<u32>
    ensures { result ≡ cond (judged.is_stored_global item.now) None words }
{
    if is_stored_global(item) { None } else { words }
}

fn is_stored_global(item: &Item) -> bool
    ensures { result ≡ judged.is_stored_global item.now }
{
    match item {
        Item::Function(_) => false,
        Item::Type(_) => false,
        Item::Global(variable) => !is_computed(variable.accessors.as_slice()),
        Item::Statement(_) => false,
    }
}

/// A program and one more item.
fn item_added(program: Found<Program>, item: Found<TypedItem>) -> Result<Found<Program>, AllocError>
    ensures { IfOk result (λ f. (v : _) (w : _) → found f w ≡ both (found program v) (λ _. found item w) ▷ judged.item_added) }
{
    match sx_scope::both(program, item) {
        Found::Typed((mut program, item)) => {
            add_item(&mut program, item)?;
            Ok(Found::Typed(program))
        }
        Found::Untold => Ok(Found::Untold),
        Found::Depends => Ok(Found::Depends),
    }
}

fn add_item(program: &mut Program, item: TypedItem) -> Result<(), AllocError>
    ensures { OnOk result (program.new ≡ judged.with_item item program.old) }
{
    match item {
        TypedItem::Nothing => Ok(()),
        TypedItem::Structure(declaration) => {
            program.structures.push(declaration)?;
            Ok(())
        }
        TypedItem::Class(declaration) => {
            program.classes.push(declaration)?;
            Ok(())
        }
        TypedItem::Global(name, constant, variable) => {
            add_global(program, name, constant, variable)
        }
        TypedItem::Statement(node, statement) => {
            program.top.push(statement)?;
            program.starts.push(node)?;
            Ok(())
        }
    }
}

fn add_global(
    program: &mut Program,
    name: u32,
    constant: bool,
    variable: TypedVariable,
) -> Result<(), AllocError>
    ensures { OnOk result (program.new ≡ judged.with_global name constant variable (judged.stored_global variable.value program.old)) }
{
    let TypedVariable { node, ty, value } = variable;
    store_global(program, value)?;
    program.globals.push(StoredGlobal {
        node,
        name,
        ty,
        constant,
    })?;
    Ok(())
}

/// The storing of the initial value of the global that comes next, if there is one.
fn store_global(program: &mut Program, value: Option<Expr>) -> Result<(), AllocError>
    ensures { OnOk result (program.new ≡ judged.stored_global value program.old) }
{
    match value {
        None => Ok(()),
        Some(value) => match u32::try_from(program.globals.len()) {
            Ok(number) => store_value(program, number, value),
            Err(_) => Err(AllocError),
        },
    }
}

/// The storing of this value in the global with the number.
fn store_value(program: &mut Program, number: u32, value: Expr) -> Result<(), AllocError>
    ensures { OnOk result (program.new ≡ judged.value_stored number value program.old) }
{
    let node = value.node;
    program.top.push(Statement {
        site: value.site,
        form: StatementForm::Global(number, value),
    })?;
    program.starts.push(node)?;
    Ok(())
}
