// The head of the declaration that begins at a token.

ghost use Rattle.std.specs.Prelude.{◌≡◌, ◌≤◌, ◌+◌, ◌-◌, drop, length};
ghost use Rattle.sx_grammar.specs.Answer.{deepest};
ghost use Rattle.sx_grammar.specs.Lexemes.{lexemes};
ghost use Rattle.sx_parse_decl.specs.Answer.{Answers, place};
ghost use Rattle.sx_token.specs.Sound.{contents};

use crate::heads::head;
use crate::lexing::lexemes;
use crate::stop::Stop;
use std::alloc::Global;
use sx_grammar::Lexeme;
use sx_token::Tokens;
use sx_tree::Head;

/// Why there is no tree. The places count bytes from 0.
#[derive(Debug, Drop)]
pub enum ParseStop {
    /// The first token with which the tokens up to it are no front, or the end of the text.
    Syntax(u32),
    /// The token that opens a level too much.
    TooDeep(u32),
    /// Memory ran out.
    NoMemory,
}

/// How many levels may be open at one place.
const DEEPEST: u32 = 200;

/// The place of the lexeme that so many lexemes before the end begin with.
fn place_of(lexemes: &[Lexeme], left: usize, end: u32) -> u32
    requires { left ≤ length lexemes.now }
    ensures { result ≡ place end (drop (length lexemes.now - left) lexemes.now) }
{
    match lexemes.get(lexemes.len() - left) {
        Some(lexeme) => lexeme.token.span.start,
        None => end,
    }
}

/// The head that the lexemes begin with, where they are the last of so many and stand behind `at`
/// others.
fn head_of(
    alloc: Global,
    lexemes: &[Lexeme],
    levels: u32,
    at: usize,
    total: usize,
    end: u32,
) -> Result<(Head, usize), ParseStop>
    requires { total ≡ at + length lexemes.now }
    ensures { Answers levels at end lexemes.now result }
{
    match head(alloc, lexemes, levels) {
        Ok((head, rest)) => Ok((head, total - rest.len())),
        Err(Stop::Memory) => Err(ParseStop::NoMemory),
        Err(Stop::Fault { left, deep }) => {
            let place = place_of(lexemes, left, end);
            if deep {
                Err(ParseStop::TooDeep(place))
            } else {
                Err(ParseStop::Syntax(place))
            }
        }
    }
}

/// The head of the declaration that begins at token `at`, where `depth` levels are open, and the
/// number of the token behind it.
///
/// The longest run of tokens from `at` that is a front of a head decides: it is answered where it is
/// a head. Where one of its tokens, or the token behind it, opens a level too much, that is
/// `TooDeep`; otherwise the token behind it is `Syntax`.
pub fn parse_declaration(
    alloc: Global,
    tokens: &Tokens,
    at: usize,
    depth: u32,
) -> Result<(Head, usize), ParseStop>
    requires within { at ≤ length tokens.now.list.items }
    requires depth { depth ≤ deepest }
    ensures { Answers (deepest - depth) at tokens.now.end (lexemes (contents tokens.now.names.items) (drop at tokens.now.list.items)) result }
{
    let Ok(list) = lexemes(alloc, &tokens.names, &tokens.list[at..]) else {
        return Err(ParseStop::NoMemory);
    };
    let levels = DEEPEST - depth;
    let total = tokens.list.len();
    head_of(alloc, list.as_slice(), levels, at, total, tokens.end)
}
