// Small texts, and texts at the limits.

ghost use Rattle.std.specs.Prelude.{◌≡◌, ◌≤◌, length, IfOk};

use std::alloc::{AllocError, Global};
use sx_lexer::{LexKind, LexStop, lex};
use sx_token::{Kind, Operator, Tokens, Word};

fn is_stop(alloc: Global, text: &[u8], expected: LexStop) -> bool
    requires { length text.now ≤ 262144 }
{
    match lex(alloc, text) {
        Err(stop) => stop == expected,
        Ok(_) => false,
    }
}

fn is_fault(alloc: Global, text: &[u8], kind: LexKind, at: u32) -> bool
    requires { length text.now ≤ 262144 }
{
    is_stop(alloc, text, LexStop::Lexical(kind, at))
}

#[test]
fn finds_first_faults(rt: HostRuntime) {
    let alloc = rt.alloc();
    assert!(rt; is_fault(alloc, b"print(1) #", LexKind::StrayCharacter, 9));
    assert!(rt; is_fault(alloc, b"a 12ab", LexKind::BadNumber, 2));
    assert!(rt; is_fault(alloc, b"0x_1", LexKind::BadNumber, 0));
    assert!(rt; is_fault(alloc, b"0b12", LexKind::BadNumber, 0));
    assert!(rt; is_fault(alloc, b"print(9223372036854775809)", LexKind::BigLiteral, 6));
    assert!(rt; is_fault(alloc, b"99999999999999999999x", LexKind::BadNumber, 0));
    assert!(rt; is_fault(alloc, b" \"ab", LexKind::OpenString, 1));
    assert!(rt; is_fault(alloc, b"\"a\\q", LexKind::OpenString, 0));
    assert!(rt; is_fault(alloc, b"\"a\\q\"", LexKind::BadEscape, 2));
    assert!(rt; is_fault(alloc, b"\"\\u{110000}\"", LexKind::BadEscape, 1));
    assert!(rt; is_fault(alloc, b"\"\"\"", LexKind::MultilineString, 0));
    assert!(rt; is_fault(alloc, b"a =-1", LexKind::UnknownOperator, 2));
    assert!(rt; is_fault(alloc, b"/* /* */ ", LexKind::OpenComment, 0));
}

#[test]
fn finds_bad_bytes_first(rt: HostRuntime) {
    let alloc = rt.alloc();
    assert!(rt; is_stop(alloc, &[0xFF], LexStop::Encoding(0)));
    assert!(rt; is_stop(alloc, &[b'#', 0xC3, 0xA9, 0xFF], LexStop::Encoding(3)));
}

fn repeated(alloc: Global, byte: u8, count: usize) -> Result<Vec<u8>, AllocError>
    ensures { IfOk result (λ text. length text.items ≡ count) }
{
    vec![in alloc; byte; count]
}

#[test]
fn keeps_its_limits(rt: HostRuntime) {
    let alloc = rt.alloc();
    match repeated(alloc, b';', 65_537) {
        Ok(marks) => assert!(rt; is_stop(alloc, marks.as_slice(), LexStop::TooManyTokens(65_536))),
        Err(_) => assert!(rt; false),
    }
    match repeated(alloc, b' ', 262_144) {
        Ok(spaces) => assert!(rt; is_token_count(alloc, spaces.as_slice(), 0)),
        Err(_) => assert!(rt; false),
    }
}

fn is_token_count(alloc: Global, text: &[u8], count: usize) -> bool
    requires { length text.now ≤ 262144 }
{
    match lex(alloc, text) {
        Ok(tokens) => tokens.list.len() == count,
        Err(_) => false,
    }
}

fn are_kinds(tokens: &Tokens, kinds: &[Kind]) -> bool {
    tokens.list.len() == kinds.len()
        && tokens
            .list
            .iter()
            .zip(kinds.iter())
            .all(|(token, kind)| token.kind == *kind)
}

#[test]
fn reads_the_least_integer(rt: HostRuntime) {
    match lex(rt.alloc(), b"9223372036854775807 9223372036854775808") {
        Ok(tokens) => {
            assert!(rt;
                are_kinds(
                    &tokens,
                    &[Kind::Int(9_223_372_036_854_775_807), Kind::IntMin]
                )
            );
        }
        Err(_) => assert!(rt; false),
    }
}

#[test]
fn reads_tokens(rt: HostRuntime) {
    let text = "\u{FEFF}let \u{E9}_1=0x7F_ff /*\n*/ +// x\r\n- init \"a\\u{41}\\n\" \u{E9}_1 _";
    match lex(rt.alloc(), text.as_bytes()) {
        Err(_) => assert!(rt; false),
        Ok(tokens) => {
            assert!(rt; tokens.list.len() == 10);
            assert!(rt; tokens.names.len() == 1);
            assert!(rt; tokens.texts.len() == 1);
            assert!(rt; tokens.texts[0].as_slice() == b"aA\n".as_slice());
            assert!(rt; tokens.lines.as_slice() == [0, 23, 33].as_slice());
            assert!(rt; tokens.end as usize == text.len());
            let kinds = [
                Kind::Keyword(Word::Let),
                Kind::Name(0),
                Kind::Op(Operator::Assign),
                Kind::Int(0x7FFF),
                Kind::Op(Operator::Plus),
                Kind::Op(Operator::Minus),
                Kind::Reserved,
                Kind::Text(0),
                Kind::Name(0),
                Kind::Underscore,
            ];
            assert!(rt; are_kinds(&tokens, &kinds));
            let plus = tokens.list[4];
            assert!(rt; plus.line_before && plus.space_before && plus.space_after);
            let assign = tokens.list[2];
            assert!(rt; !assign.line_before && !assign.space_before && !assign.space_after);
        }
    }
}
