// A text with each kind of line end.

use sx_span::{LineCol, Node, Site, Span, ends_line, line_col, line_of};

const TEXT: [u8; 10] = *b"ab\r\nc\rd\n\r\r";

fn place(line: u32, column: u32) -> LineCol {
    LineCol { line, column }
}

#[test]
fn finds_lines_in_a_text(rt: HostRuntime) {
    assert!(rt; line_col(&TEXT, 0) == place(1, 1));
    assert!(rt; line_col(&TEXT, 3) == place(1, 4));
    assert!(rt; line_col(&TEXT, 4) == place(2, 1));
    assert!(rt; line_col(&TEXT, 6) == place(3, 1));
    assert!(rt; line_col(&TEXT, 8) == place(4, 1));
    assert!(rt; line_col(&TEXT, 10) == place(6, 1));
    assert!(rt; ends_line(b'\r', b"d") && !ends_line(b'\r', b"\n"));
}

#[test]
fn finds_lines_among_their_starts(rt: HostRuntime) {
    let lines = vec![in rt.alloc(); 0, 4, 6, 8, 9, 10];
    match lines {
        Ok(lines) => {
            assert!(rt; line_of(&lines, 3) == place(1, 4));
            assert!(rt; line_of(&lines, 4) == place(2, 1));
            assert!(rt; line_of(&lines, 12) == place(6, 3));
        }
        Err(_) => assert!(rt; false),
    }
}

#[test]
fn compares_places(rt: HostRuntime) {
    let site = Site {
        at: 4,
        place: place(2, 1),
    };
    assert!(rt; site == site);
    assert!(rt; Span { start: 1, end: 2 } != Span { start: 1, end: 3 });
    assert!(rt; Node(2) < Node(10));
}
