// Operators.

ghost use Rattle.std.specs.Prelude.{◌≡◌};
ghost use Rattle.sx_lexer.specs.Words.{lookup, spelled_operators};

use crate::tables::find;
use sx_token::Operator;

/// The operators.
const OPERATORS: [(&[u8], Operator); 24] = [
    (b"=", Operator::Assign),
    (b"+=", Operator::PlusAssign),
    (b"-=", Operator::MinusAssign),
    (b"*=", Operator::StarAssign),
    (b"/=", Operator::SlashAssign),
    (b"%=", Operator::PercentAssign),
    (b"+", Operator::Plus),
    (b"-", Operator::Minus),
    (b"*", Operator::Star),
    (b"/", Operator::Slash),
    (b"%", Operator::Percent),
    (b"<", Operator::Less),
    (b">", Operator::Greater),
    (b"<=", Operator::LessEqual),
    (b">=", Operator::GreaterEqual),
    (b"==", Operator::Equal),
    (b"!=", Operator::NotEqual),
    (b"===", Operator::Same),
    (b"!==", Operator::NotSame),
    (b"&&", Operator::AndAnd),
    (b"||", Operator::OrOr),
    (b"!", Operator::Not),
    (b"&", Operator::And),
    (b"->", Operator::Arrow),
];

/// The operator that is spelled so.
pub fn operator(bytes: &[u8]) -> Option<Operator>
    ensures { result ≡ lookup spelled_operators bytes.now }
{
    find(&OPERATORS, bytes)
}
