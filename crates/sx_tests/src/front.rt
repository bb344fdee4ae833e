// Calls of the front over small texts.

use std::alloc::Global;
use std::process::Abort;
use std::test::Fail;
use sx_driver::{CompileStop, Fault, fault_line, tree_of, typed_of};
use sx_lexer::lex;
use sx_parse_decl::parse_declaration;
use sx_scope::TypeKind;
use sx_span::Node;
use sx_tree::{Head, fault_place};

#[test]
fn faults_of_nodes_have_places(rt: HostRuntime) {
    let text = b"let a = 1\nfunc f() { return }";
    let Ok(tree) = tree_of(rt.alloc(), text) else {
        panic!(rt; "the text has a tree");
    };
    // The global, its value, the function, its block and the statement.
    for (number, place) in [(0, 4), (1, 8), (2, 15), (3, 19), (4, 21)] {
        let node = Node(number);
        assert_eq!(rt; fault_place(&tree, node), Some(place));
    }
}

#[test]
fn the_head_of_a_function(rt: HostRuntime) {
    let alloc = rt.alloc();
    let Ok(tokens) = lex(alloc, b"func f(_ a: inout Int) -> Bool { }") else {
        panic!(rt; "the text has tokens");
    };
    let Ok((head, behind)) = parse_declaration(alloc, &tokens, 0, 0) else {
        panic!(rt; "the tokens begin with a head");
    };
    assert_eq!(rt; behind, 11);
    match head {
        Head::Function(function) => {
            assert_eq!(rt; function.name.span.start, 5);
            assert_eq!(rt; function.parameters.len(), 1);
            assert!(rt; function.result.is_some());
        }
        _ => panic!(rt; "it is the head of a function"),
    }
}

#[test]
fn a_fault_has_a_line(rt: HostRuntime) -> Result<(), Fail> {
    let text = b"print(1)\r\n  print(2) print(3)";
    match tree_of(rt.alloc(), text) {
        Err(stop) => assert_eq!(rt; stop, CompileStop::Refused(Fault::Syntax(21))),
        Ok(_) => panic!(rt; "two statements stand on one line"),
    }
    let line = fault_line(rt.alloc(), text, Fault::Syntax(21))?;
    assert_eq!(rt; line.as_str(), "error 2:12 syntax\n");
    Ok(())
}

// The text is refused by this condition at this byte.
fn is_refused(rt: &impl Abort, alloc: Global, text: &[u8], kind: TypeKind, at: u32) {
    match typed_of(alloc, text) {
        Err(stop) => assert_eq!(rt; stop, CompileStop::Refused(Fault::Typing(kind, at))),
        Ok(_) => panic!(rt; "a node fails"),
    }
}

#[test]
fn circles_of_initial_values_come_last(rt: HostRuntime) {
    let alloc = rt.alloc();
    let text = b"struct S { var x = S(x: 1).x }";
    is_refused(&rt, alloc, text, TypeKind::NeedsType, 21);
    // The property depends on itself, and the first global on it.
    let text = b"var b = C().x\nlet a = q\nclass C { var x = C().x }";
    is_refused(&rt, alloc, text, TypeKind::UnknownName, 22);
    let text = b"struct S { var x = S().x }\nlet a = b\nlet b = a";
    is_refused(&rt, alloc, text, TypeKind::NeedsType, 35);
}

#[test]
fn a_written_type_stands_whatever_the_value_depends_on(rt: HostRuntime) {
    let alloc = rt.alloc();
    let text = b"struct S { func m() { var a: Int = S(); a = true }\nvar z = {} }";
    is_refused(&rt, alloc, text, TypeKind::Mismatch, 44);
    // A type that the value gives falls with it.
    let text = b"struct S { func m() { var a = S(); a = true }\nvar z = {} }";
    is_refused(&rt, alloc, text, TypeKind::NoContext, 54);
}
