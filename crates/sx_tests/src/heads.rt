use sx_grammar::{Lexeme, Sort};
use sx_parse_decl::{lexemes, type_head};
use sx_span::Span;
use sx_token::{Kind, Token};
use sx_tree::TypeKind;

fn token(kind: Kind, start: u32, end: u32) -> Token {
    Token {
        kind,
        span: Span { start, end },
        line_before: false,
        space_before: true,
        space_after: true,
    }
}

// `struct A`
#[test]
fn the_head_of_a_structure(rt: HostRuntime) {
    let word = Lexeme {
        sort: Sort::Struct,
        token: token(Kind::Underscore, 0, 6),
    };
    let name = Lexeme {
        sort: Sort::Name,
        token: token(Kind::Name(3), 7, 8),
    };
    match type_head(&[word, name], &[Sort::Struct], 200) {
        Ok((head, rest)) => {
            assert_eq!(rt; head.span.end, 8);
            assert_eq!(rt; head.name.number, 3);
            assert!(rt; head.kind == TypeKind::Structure);
            assert_eq!(rt; rest.len(), 0);
        }
        Err(_) => assert!(rt; false),
    }
}

#[test]
fn a_name_with_a_meaning_of_its_own(rt: HostRuntime) {
    let alloc = rt.alloc();
    let mut names = Vec::new(alloc);
    let Ok(word) = Vec::from_slice(alloc, b"print") else {
        assert!(rt; false);
        return;
    };
    assert!(rt; names.push(word).is_ok());
    match lexemes(alloc, &names, &[token(Kind::Name(0), 0, 5)]) {
        Ok(list) => match list.get(0) {
            Some(lexeme) => assert!(rt; lexeme.sort == Sort::Print),
            None => assert!(rt; false),
        },
        Err(_) => assert!(rt; false),
    }
}
