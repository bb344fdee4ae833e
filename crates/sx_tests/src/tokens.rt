// Tokens are compared and shown.

use sx_span::Span;
use sx_token::{Kind, Mark, Operator, Token, Word};

fn token(kind: Kind) -> Token {
    Token {
        kind,
        span: Span { start: 0, end: 1 },
        line_before: true,
        space_before: true,
        space_after: false,
    }
}

#[test]
fn compares_tokens(rt: HostRuntime) {
    assert!(rt; token(Kind::Op(Operator::Less)) == token(Kind::Op(Operator::Less)));
    assert!(rt; token(Kind::Op(Operator::Less)) != token(Kind::Op(Operator::Greater)));
    assert!(rt; token(Kind::Mark(Mark::Dot)) != token(Kind::Mark(Mark::At)));
    assert!(rt; token(Kind::Keyword(Word::In)) != token(Kind::Keyword(Word::Inout)));
    assert!(rt; token(Kind::Int(1)) != token(Kind::IntMin));
}
