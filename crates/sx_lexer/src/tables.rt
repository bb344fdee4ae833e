// Tables of spellings.

ghost use Rattle.std.specs.Prelude.{◌≡◌, map};
ghost use Rattle.sx_lexer.specs.Words.{among, lookup};

use crate::bytes::same;

/// What stands beside the bytes in the table.
pub fn find<T: Copy>(mut table: &[(&[u8], T)], bytes: &[u8]) -> Option<T>
    ensures { result ≡ lookup (map (λ p. (p.0.now, p.1)) table.entry.now) bytes.now }
{
    while let [entry, rest @ ..] = table {
        if same(entry.0, bytes) {
            return Some(entry.1);
        }
        table = rest;
    }
    None
}

/// Whether the bytes are in the table.
pub fn is_among(mut table: &[&[u8]], bytes: &[u8]) -> bool
    ensures { result ≡ among (map (λ p. p.now) table.entry.now) bytes.now }
{
    while let [entry, rest @ ..] = table {
        if same(entry, bytes) {
            return true;
        }
        table = rest;
    }
    false
}
