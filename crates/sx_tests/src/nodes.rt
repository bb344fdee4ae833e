// Trees and their nodes.

use sqlite_items::Items;
use std::alloc::Global;
use sx_driver::tree_of;
use sx_nodes::{Code, code_at};
use sx_span::Node;
use sx_tree::{Tree, fault_place};

// Each form of expression, with chains and parts whose fronts are nodes, and closure literals behind calls.
const FORMS: &[u8] = b"func f(a: Int, _ b: (Int) -> Bool) -> Int { let c: Int = (a) + -1 * 2 - a\n\
    if !true && b(c) { return s.g { a }(2, x: &d)[3].h } else if e { f { x in x } }\n\
    while true { break }\nreturn k.m { (x: Int) -> Int in 1 + x } }\n\
    struct S { var p: Int { didSet(o) { print(o) } }\nvar q = 1\n\
    subscript(i: Int) -> Int { get { self.p } set { } } }\nf(1) { }.z = 3";

fn empty(alloc: Global) -> Option<Tree> {
    let texts = Vec::new(alloc);
    let names = Vec::new(alloc);
    let lines = Vec::new(alloc);
    Tree::new(alloc, Items::new(alloc), texts, names, lines).ok()
}

#[test]
fn an_empty_tree_has_no_nodes(rt: HostRuntime) {
    match empty(rt.alloc()) {
        Some(tree) => assert_eq!(rt; tree.places.len(), 0),
        None => assert!(rt; false),
    }
}

// Where the code of the node starts, if the node is code.
fn start(alloc: Global, tree: &Tree, node: Node) -> Option<u32> {
    match code_at(alloc, tree, node) {
        Ok(Some(Code::Expression(expr))) => Some(expr.span.start),
        Ok(Some(Code::Block(block))) => Some(block.span.start),
        _ => None,
    }
}

// How many nodes are expressions or blocks, if each of them starts where its faults stand.
fn found(alloc: Global, tree: &Tree) -> Option<u32> {
    let count = u32::try_from(tree.places.len()).ok()?;
    let mut found = 0_u32;
    for number in 0..count {
        let node = Node(number);
        if let Some(start) = start(alloc, tree, node) {
            if fault_place(tree, node) != Some(start) {
                return None;
            }
            found = found.wrapping_add(1);
        }
    }
    Some(found)
}

#[test]
fn code_is_found_by_its_number(rt: HostRuntime) {
    let alloc = rt.alloc();
    let Ok(tree) = tree_of(alloc, FORMS) else {
        panic!(rt; "the text has a tree");
    };
    assert_eq!(rt; found(alloc, &tree), Some(58));
    assert!(rt; matches!(code_at(alloc, &tree, Node(u32::MAX)), Ok(None)));
}
