// Code that is checked by itself.

use sqlite_items::Items;
use std::alloc::Global;
use sx_check_code::{Scope, check_block, check_expression, check_statement};
use sx_check_decl::declarations_of;
use sx_driver::tree_of;
use sx_nodes::{Code, code_at};
use sx_scope::{TypeKind, TypeStop};
use sx_span::Node;
use sx_tree::Tree;
use sx_types::Ty;

const TEXT: &[u8] = b"func f() -> Int { return a + 1 }\nlet a = 1\nlet b = q\nprint(b)";

// In a body that gives such values, or in none.
fn scope(alloc: Global, given: Option<Ty>) -> Scope {
    Scope {
        names: Items::new(alloc),
        owner: None,
        mutating: false,
        observed: None,
        giving: None,
        result: given,
        in_loop: false,
    }
}

// What the body of this node has: its count of statements, if it depends on nothing that has failed.
fn body(alloc: Global, tree: &Tree, node: Node) -> Result<Option<usize>, TypeStop> {
    let declarations = declarations_of(alloc, tree)?;
    let scope = scope(alloc, Some(Ty::Int));
    let found = code_at(alloc, tree, node)?;
    if let Some(code) = &found {
        if let Code::Block(_) = code {
            return match check_block(alloc, tree, &declarations, &scope, node)? {
                Some(statements) => Ok(Some(statements.len())),
                None => Ok(None),
            };
        }
    }
    Err(TypeStop::NoMemory)
}

// Whether the expression of this node has the type, if it depends on nothing that has failed.
fn value(alloc: Global, tree: &Tree, node: Node, ty: Ty) -> Result<Option<bool>, TypeStop> {
    let declarations = declarations_of(alloc, tree)?;
    let scope = scope(alloc, None);
    let found = code_at(alloc, tree, node)?;
    if let Some(code) = &found {
        if let Code::Expression(_) = code {
            return match check_expression(alloc, tree, &declarations, &scope, node, Some(ty))? {
                Some(value) => Ok(Some(value.ty == ty)),
                None => Ok(None),
            };
        }
    }
    Err(TypeStop::NoMemory)
}

// Whether the statement of this node is typed, and depends on nothing that has failed.
fn statement(alloc: Global, tree: &Tree, node: Node) -> Result<bool, TypeStop> {
    let declarations = declarations_of(alloc, tree)?;
    let scope = scope(alloc, None);
    let found = code_at(alloc, tree, node)?;
    if let Some(code) = &found {
        if let Code::Statement(_) = code {
            let checked = check_statement(alloc, tree, &declarations, &scope, node)?;
            return Ok(checked.is_some());
        }
    }
    Err(TypeStop::NoMemory)
}

#[test]
fn code_is_checked_by_itself(rt: HostRuntime) {
    let alloc = rt.alloc();
    let Ok(tree) = tree_of(alloc, TEXT) else {
        panic!(rt; "the text has a tree");
    };
    assert!(rt; matches!(body(alloc, &tree, Node(2)), Ok(Some(1))));
    assert!(rt; matches!(value(alloc, &tree, Node(4), Ty::Int), Ok(Some(true))));
    assert!(rt; matches!(value(alloc, &tree, Node(8), Ty::Int), Ok(Some(true))));
    assert!(rt;
        matches!(
            value(alloc, &tree, Node(8), Ty::Bool),
            Err(TypeStop::Typing(TypeKind::Mismatch, Node(8)))
        )
    );
    assert!(rt;
        matches!(
            value(alloc, &tree, Node(10), Ty::Int),
            Err(TypeStop::Typing(TypeKind::UnknownName, Node(10)))
        )
    );
    assert!(rt; matches!(statement(alloc, &tree, Node(11)), Ok(false)));
}
