// The tokens of a text with the lists that they refer to.

ghost use Rattle.std.specs.Prelude.{◌≤◌, length, All};
ghost use Rattle.sx_span.specs.Lines.{AreLines, AreLines-prop};
ghost use Rattle.sx_token.specs.Sound.{AreDistinct, IsKind, Kinds-prop, RiseTo, RiseTo-prop, contents};

use crate::Token;

/// The tokens of a text, with the lists that they refer to.
#[derive(Debug, Drop)]
pub struct Tokens {
    /// The tokens in the order of the text.
    pub list: Vec<Token>,
    /// What the text literals stand for, in the order of the text: bytes in UTF-8.
    pub texts: Vec<Vec<u8>>,
    /// The names, each once, in the order in which they are first seen.
    pub names: Vec<Vec<u8>>,
    /// The places at which the lines of the text start.
    pub lines: Vec<u32>,
    /// The length of the text in bytes.
    pub end: u32,

    pub ghost few: { length list.items ≤ 65536 },
    pub ghost short: { end ≤ 262144 },
    pub ghost spans_rise: { RiseTo end 0 list.items } by { RiseTo-prop end 0 list.items },
    pub ghost kinds: { All (λ t. IsKind (length texts.items) (length names.items) t.kind) list.items } by { Kinds-prop (length texts.items) (length names.items) list.items },
    pub ghost names_differ: { AreDistinct (contents names.items) },
    pub ghost lines_rise: { AreLines lines.items } by { AreLines-prop lines.items },
}
