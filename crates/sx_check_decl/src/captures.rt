// The words of what all closure literals capture together.

ghost use Rattle.std.specs.Prelude.{◌≡◌, ◌+◌, ◌<◌, ◌≤◌, MatchOption};
ghost use Rattle.sx_check_decl.specs.Captures as captures;
ghost use Rattle.sx_bodies.specs.Literals as literals;

use sx_bodies::mention_words;
use sx_span::Node;
use sx_typed::{Function, Mention};
use sx_types::Types;

/// The most words that all of them may capture.
const MOST_CAPTURED_WORDS: u64 = 65_536;

/// The first function whose captures bring the words of all captures past 65,536.
pub fn crowded(types: &Types, mut functions: &[Function]) -> Option<Node>
    ensures { result ≡ captures.crowded types.now functions.entry.now }
{
    let mut words: u64 = 0;
    'functions: while let [function, rest @ ..] = functions {
        match words_with(types, words, function.mentions.as_slice()) {
            None => return Some(function.node),
            Some(more) => words = more,
        }
        functions = rest;
    }
    None
}

/// So many words and those of the mentions, where there are not too many.
fn words_with(types: &Types, words: u64, mut mentions: &[Mention]) -> Option<u64>
    requires { words ≤ captures.most_captured_words }
    ensures { MatchOption result
        (captures.most_captured_words < words + literals.total (literals.mention_words types.now) mentions.entry.now)
        (λ n. (n ≡ words + literals.total (literals.mention_words types.now) mentions.entry.now) × (n ≤ captures.most_captured_words)) }
{
    let mut sum = words;
    'mentions: while let [mention, rest @ ..] = mentions {
        sum += u64::from(mention_words(types, *mention));
        if sum > MOST_CAPTURED_WORDS {
            return None;
        }
        mentions = rest;
    }
    Some(sum)
}
