// A global whose type is a function type, with a getter.

use indexmap::IndexMap;
use sqlite_items::{Boxed, Items};
use std::alloc::{AllocError, Global};
use sx_outline::{Outline, outline_of};
use sx_span::Span;
use sx_tree::{
    Accessor, AccessorKind, Block, Item, Name, TypeForm, TypeParameter, Variable, WrittenType,
};
use sx_types::Ty;

fn span() -> Span {
    Span { start: 0, end: 0 }
}

fn written(form: TypeForm) -> WrittenType {
    WrittenType { span: span(), form }
}

fn empty_block(alloc: Global) -> Block {
    Block {
        span: span(),
        statements: Items::new(alloc),
    }
}

/// `(inout name) -> ()`, which is three nodes.
fn action(alloc: Global) -> Result<WrittenType, AllocError> {
    let mut parameters = Items::new(alloc);
    parameters.push(TypeParameter {
        inout: true,
        ty: written(TypeForm::Named(0)),
    })?;
    let unit = Boxed::new(alloc, written(TypeForm::Unit))?;
    Ok(written(TypeForm::Function(parameters, unit)))
}

fn handler(alloc: Global) -> Result<Variable, AllocError> {
    let mut accessors = Items::new(alloc);
    accessors.push(Accessor {
        span: span(),
        kind: AccessorKind::Get,
        parameter: None,
        body: empty_block(alloc),
    })?;
    Ok(Variable {
        span: span(),
        constant: false,
        name: Name {
            number: 1,
            span: span(),
        },
        ty: Some(action(alloc)?),
        value: None,
        accessors,
    })
}

fn outline(alloc: Global) -> Result<Outline, AllocError> {
    let mut names = IndexMap::new(alloc);
    names.insert(0, Ty::Int)?;
    let mut items = Items::new(alloc);
    items.push(Item::Global(handler(alloc)?))?;
    outline_of(alloc, &names, items.as_slice())
}

#[test]
fn a_global_has_its_nodes_and_its_function_type(rt: HostRuntime) {
    match outline(rt.alloc()) {
        Ok(outline) => {
            assert_eq!(rt; outline.nodes, 6);
            assert_eq!(rt; outline.functions.as_slice().len(), 1);
            match outline.items.get(0) {
                Some(item) => {
                    assert_eq!(rt; item.node.0, 0);
                    assert_eq!(rt; item.members.len(), 0);
                    match item.accessors.get(0) {
                        Some(node) => assert_eq!(rt; node.0, 4),
                        None => assert!(rt; false),
                    }
                }
                None => assert!(rt; false),
            }
        }
        Err(_) => assert!(rt; false),
    }
}
