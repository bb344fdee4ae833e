//! Texts that are checked, over a store and sinks in memory.
use crate::outcome::Outcome;
use crate::tests::ends;
use std::alloc::{AllocError, Global};
use std::process::Abort;
use std::test::Fail;
use sx_driver::Fault;
use sx_lexer::LexKind;
use sx_scope::TypeKind;

/// So many times these bytes, one behind the other.
fn repeated(alloc: Global, piece: &[u8], times: u32) -> Result<Vec<u8>, AllocError> {
    let mut text = Vec::new(alloc);
    for _ in 0..times {
        text.extend_from_slice(piece)?;
    }
    Ok(text)
}

fn is_sound(rt: &impl Abort, alloc: Global, text: &[u8]) -> Result<(), Fail> {
    let file = "a.swift";
    ends(
        rt,
        alloc,
        "check a.swift",
        file,
        text,
        Outcome::Done,
        b"",
        b"",
    )
}

/// The text is refused for the fault with the line, whether it is checked or run.
fn is_refused(
    rt: &impl Abort,
    alloc: Global,
    text: &[u8],
    fault: Fault,
    line: &[u8],
) -> Result<(), Fail> {
    let outcome = Outcome::Refused(fault);
    for words in ["check a.swift", "run a.swift"] {
        ends(rt, alloc, words, "a.swift", text, outcome, b"", line)?;
    }
    Ok(())
}

#[test]
fn the_first_fault_is_told(rt: HostRuntime) -> Result<(), Fail> {
    let alloc = rt.alloc();
    let encoding = Fault::Encoding(0);
    is_refused(&rt, alloc, b"\xFF", encoding, b"error 1:1 encoding\n")?;
    is_refused(
        &rt,
        alloc,
        b"print(1) #",
        Fault::Lexical(LexKind::StrayCharacter, 9),
        b"error 1:10 lexical stray-character\n",
    )?;
    is_refused(
        &rt,
        alloc,
        b"print(9223372036854775809)",
        Fault::Lexical(LexKind::BigLiteral, 6),
        b"error 1:7 lexical big-literal\n",
    )?;
    let syntax = Fault::Syntax(6);
    let text = b"print(9223372036854775808)";
    is_refused(&rt, alloc, text, syntax, b"error 1:7 syntax\n")?;
    let text = b"print(1) print(2)";
    let syntax = Fault::Syntax(9);
    is_refused(&rt, alloc, text, syntax, b"error 1:10 syntax\n")?;
    let text = b"let x = f {\r\n didSet";
    let syntax = Fault::Syntax(14);
    is_refused(&rt, alloc, text, syntax, b"error 2:2 syntax\n")?;
    let text = b"func f(\n";
    is_refused(&rt, alloc, text, Fault::Syntax(8), b"error 2:1 syntax\n")
}

#[test]
fn texts_at_the_limits(rt: HostRuntime) -> Result<(), Fail> {
    let alloc = rt.alloc();
    let spaces = repeated(alloc, b" ", 262_144)?;
    is_sound(&rt, alloc, &spaces)?;
    let spaces = repeated(alloc, b" ", 262_145)?;
    is_refused(&rt, alloc, &spaces, Fault::TooLong, b"error too-long\n")?;
    let marks = repeated(alloc, b";", 65_537)?;
    let fault = Fault::TooManyTokens(65_536);
    is_refused(
        &rt,
        alloc,
        &marks,
        fault,
        b"error 1:65537 too-many-tokens\n",
    )?;
    let mut lines = repeated(alloc, b"print(1)\n", 16_384)?;
    is_sound(&rt, alloc, &lines)?;
    lines.push(b';')?;
    let fault = Fault::TooManyTokens(147_456);
    is_refused(
        &rt,
        alloc,
        &lines,
        fault,
        b"error 16385:1 too-many-tokens\n",
    )
}

#[test]
fn texts_that_nest(rt: HostRuntime) -> Result<(), Fail> {
    let alloc = rt.alloc();
    let mut text = repeated(alloc, b"print", 1)?;
    text.extend_from_slice(&repeated(alloc, b"(", 200)?)?;
    text.push(b'1')?;
    text.extend_from_slice(&repeated(alloc, b")", 200)?)?;
    is_sound(&rt, alloc, &text)?;
    let mut text = repeated(alloc, b"print", 1)?;
    text.extend_from_slice(&repeated(alloc, b"(", 201)?)?;
    is_refused(
        &rt,
        alloc,
        &text,
        Fault::TooDeep(205),
        b"error 1:206 too-deep\n",
    )
}

#[test]
fn each_form_is_read_and_typed(rt: HostRuntime) -> Result<(), Fail> {
    let alloc = rt.alloc();
    is_sound(
        &rt,
        alloc,
        b"class C { var p: Int { get { return 1 } set(v) { print(v) } }; var q = 1 { didSet { } }\n\
          subscript(i: Int, j: Int) -> S { S(b: i * j) } }\n\
          struct S { var x = 0; var b: Int; mutating func g() { self.x += 1 } }\n\
          func f(_ a: inout Int, b c: @escaping () -> Void, _ d: (Int) -> Int) -> Int {\n\
          if a == 1 { return 2 } else if a != 3 { a -= 1 } else { while !(a < 5) { break; continue } }\n\
          let y: Int = -a * 3 % 2 - 1; c(); return d(y) }\n\
          let k = { (a: Int, b: inout Bool) -> Int in a }; var n: (Int) -> Int = { m in m + 1 }\n\
          var z: Int { 5 }\n\
          let a = C(); var s = a[1, 2]; s.g()\n\
          f(&s.b, b: { print(\"x\") }) { x in z + x }\n\
          a.p = n(3) + (1 + 2) * -9223372036854775808\n\
          print(s.x < 4 && true || a === a)\n",
    )
}

#[test]
fn the_first_failing_node_is_told(rt: HostRuntime) -> Result<(), Fail> {
    let alloc = rt.alloc();
    is_refused(
        &rt,
        alloc,
        b"print(q)",
        Fault::Typing(TypeKind::UnknownName, 6),
        b"error 1:7 type unknown-name\n",
    )?;
    is_refused(
        &rt,
        alloc,
        b"let a = 1\nfunc f() -> Int { }\nlet a = b",
        Fault::Typing(TypeKind::MissingReturn, 15),
        b"error 2:6 type missing-return\n",
    )?;
    // The later fault of a value is the earlier one of the text.
    is_refused(
        &rt,
        alloc,
        b"let a = S(x: true, y: 1 + true)\nstruct S { var x = 1; var y = 2 }",
        Fault::Typing(TypeKind::Mismatch, 13),
        b"error 1:14 type mismatch\n",
    )?;
    // A parameter that is declared twice stands at its name, though it is no node.
    is_refused(
        &rt,
        alloc,
        b"struct S { subscript(i: Int) -> Int { get { i } set(i) { } } }",
        Fault::Typing(TypeKind::Duplicate, 52),
        b"error 1:53 type duplicate\n",
    )
}

#[test]
fn a_global_reached_too_late_is_told(rt: HostRuntime) -> Result<(), Fail> {
    let late = Fault::Late { at: 22, global: 30 };
    is_refused(
        &rt,
        rt.alloc(),
        b"func f() { print(g) }\nf()\nvar g = 1",
        late,
        b"error 2:1 late-global with 3:5\n",
    )
}
