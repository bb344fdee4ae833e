// Words: keywords, reserved words and names.

ghost use Rattle.std.specs.Prelude.{◌≡◌};
ghost use Rattle.sx_lexer.specs.Words.{among, keywords, lookup, reserved, word_piece};

use crate::bytes::same;
use crate::pieces::Piece;
use crate::tables::{find, is_among};
use sx_token::Word;

/// The words of the language.
const KEYWORDS: [(&[u8], Word); 18] = [
    (b"break", Word::Break),
    (b"class", Word::Class),
    (b"continue", Word::Continue),
    (b"else", Word::Else),
    (b"false", Word::False),
    (b"func", Word::Func),
    (b"if", Word::If),
    (b"in", Word::In),
    (b"inout", Word::Inout),
    (b"let", Word::Let),
    (b"mutating", Word::Mutating),
    (b"return", Word::Return),
    (b"self", Word::SelfWord),
    (b"struct", Word::Struct),
    (b"subscript", Word::Subscript),
    (b"true", Word::True),
    (b"var", Word::Var),
    (b"while", Word::While),
];

/// The words of Swift that stand nowhere in the language.
const RESERVED: [&[u8]; 35] = [
    b"associatedtype",
    b"as",
    b"catch",
    b"default",
    b"defer",
    b"deinit",
    b"do",
    b"enum",
    b"extension",
    b"fallthrough",
    b"fileprivate",
    b"for",
    b"guard",
    b"import",
    b"init",
    b"internal",
    b"is",
    b"nil",
    b"operator",
    b"precedencegroup",
    b"private",
    b"protocol",
    b"public",
    b"repeat",
    b"rethrows",
    b"static",
    b"super",
    b"switch",
    b"throw",
    b"throws",
    b"try",
    b"typealias",
    b"where",
    b"Any",
    b"Self",
];

/// The word of the language that is spelled so.
fn keyword(bytes: &[u8]) -> Option<Word>
    ensures { result ≡ lookup keywords bytes.now }
{
    find(&KEYWORDS, bytes)
}

/// Whether the word stands nowhere in the language.
fn is_reserved(bytes: &[u8]) -> bool
    ensures { result ≡ among reserved bytes.now }
{
    is_among(&RESERVED, bytes)
}

/// The piece that a word of name characters is.
pub fn word_piece(bytes: &[u8]) -> Piece
    ensures { result ≡ word_piece bytes.now }
{
    if same(b"_", bytes) {
        return Piece::Underscore;
    }
    match keyword(bytes) {
        Some(word) => Piece::Keyword(word),
        None if is_reserved(bytes) => Piece::Reserved,
        None => Piece::Name,
    }
}
