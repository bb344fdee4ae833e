// The longest front of a text.

ghost use Rattle.std.specs.Prelude.{◌↔◌, ◌≡◌, ◌≤◌, IfOk, IsTrue, length, take};
ghost use Rattle.sx_parser.specs.Answer.{IsLongest};
ghost use Rattle.sx_parser.specs.Fronts.{AreFront, IsFront, other_sort};
ghost use Rattle.sx_token.specs.Sound.{contents};

use crate::texts::text;
use std::alloc::Global;
use sx_grammar::{Lexeme, Sort};
use sx_parse_decl::{Stop, lexemes};
use sx_token::{Token, Tokens};
use sx_tree::NoMemory;

/// Whether all the lexemes are a front of a text.
///
/// Each level is opened by a lexeme, so with as many levels as lexemes none is missing.
fn are_front(alloc: Global, lexemes: &[Lexeme]) -> Result<bool, NoMemory>
    requires few { length lexemes.now ≤ 65536 }
    ensures { IfOk result (λ front. IsTrue front ↔ AreFront lexemes.now) }
{
    match text(alloc, lexemes, lexemes.len() as u32) {
        Ok(_items) => Ok(true),
        Err(Stop::Memory) => Err(NoMemory),
        Err(Stop::Fault { left, .. }) => Ok(left == 0),
    }
}

/// The other sort that an opening bracket may have, by the token behind it.
fn other_sort(sort: Sort) -> Option<Sort>
    ensures { result ≡ other_sort sort }
{
    match sort {
        Sort::OpenBrace => Some(Sort::OpenObservers),
        Sort::OpenRound => Some(Sort::OpenText),
        _ => None,
    }
}

/// Whether the tokens are a front of a text with a token of some sort behind them.
fn is_front(alloc: Global, names: &Vec<Vec<u8>>, tokens: &[Token]) -> Result<bool, NoMemory>
    requires few { length tokens.now ≤ 65536 }
    ensures { IfOk result (λ front. IsTrue front ↔ IsFront (contents names.now.items) tokens.now) }
{
    let mut lexemes = lexemes(alloc, names, tokens)?;
    if are_front(alloc, lexemes.as_slice())? {
        return Ok(true);
    }
    let Some(Lexeme { sort, token }) = lexemes.pop() else {
        return Ok(false);
    };
    let Some(sort) = other_sort(sort) else {
        return Ok(false);
    };
    lexemes.push(Lexeme { sort, token })?;
    are_front(alloc, lexemes.as_slice())
}

/// The number of tokens of the longest front, where the first ones, so many, are a front.
pub fn longest_front(alloc: Global, tokens: &Tokens, from: usize) -> Result<usize, NoMemory>
    requires within { from ≤ length tokens.now.list.items }
    requires front { IsFront (contents tokens.now.names.items) (take from tokens.now.list.items) }
    ensures { IfOk result (λ count. IsLongest (contents tokens.now.names.items) tokens.now.list.items count) }
{
    let mut count = from;
    'turns: while count < tokens.list.len() {
        if !is_front(alloc, &tokens.names, &tokens.list[..count + 1])? {
            return Ok(count);
        }
        count += 1;
    }
    Ok(count)
}
