// The tree of a text, or the first fault.

ghost use Rattle.std.specs.Prelude.{◌≡◌, Err, IfOk, Some, drop};
ghost use Rattle.sx_grammar.specs.Answer.{deepest};
ghost use Rattle.sx_grammar.specs.Grammar.{run};
ghost use Rattle.sx_grammar.specs.Rules.{body};
ghost use Rattle.sx_parse_decl.specs.Reading.{blame};
ghost use Rattle.sx_parser.specs.Answer.{Answers, HasLists, lexemes_of, start_of};
ghost use Rattle.sx_parser.specs.Text.{text};
ghost use Rattle.sx_token.specs.Sound.{contents};

use crate::fronts::longest_front;
use crate::texts::read_text;
use sqlite_items::Items;
use std::alloc::Global;
use sx_parse_decl::{ParseStop, Stop};
use sx_token::Tokens;
use sx_tree::{Item, NoMemory, Tree};

/// The place of the token with so many before it, or the end of the text.
fn place_of(tokens: &Tokens, at: usize) -> u32
    ensures { result ≡ start_of tokens.now.end (drop at tokens.now.list.items) }
{
    match tokens.list.get(at) {
        Some(token) => token.span.start,
        None => tokens.end,
    }
}

/// The same lists of bytes.
fn copied(lists: &Vec<Vec<u8>>) -> Result<Vec<Vec<u8>>, NoMemory>
    ensures { IfOk result (λ copy. contents copy.items ≡ contents lists.now.items) }
{
    let copy = lists.clone()?;
    Ok(copy)
}

/// The tree with these items and the lists that the tokens refer to.
fn tree_of(alloc: Global, items: Items<Item>, tokens: &Tokens) -> Result<Tree, NoMemory>
    ensures { IfOk result (λ tree. (tree.items ≡ items) × HasLists tokens.now tree) }
{
    let texts = copied(&tokens.texts)?;
    let names = copied(&tokens.names)?;
    let lines = tokens.lines.clone()?;
    Tree::new(alloc, items, texts, names, lines)
}

/// Why the text has no tree, where the run over it stops with so many tokens left.
fn fault_at(alloc: Global, tokens: &Tokens, left: usize, deep: bool) -> ParseStop
    requires stops { blame (run body deepest text (lexemes_of tokens.now)) ≡ Some (left, deep) }
    ensures { Answers tokens.now (Err result) }
{
    let read = tokens.list.len() - left;
    if deep {
        return ParseStop::TooDeep(place_of(tokens, read));
    }
    match longest_front(alloc, tokens, read) {
        Ok(count) => ParseStop::Syntax(place_of(tokens, count)),
        Err(NoMemory) => ParseStop::NoMemory,
    }
}

/// The tree of the text with these tokens.
///
/// A text is a program, read with at most 200 levels open at one place. Where a token opens a level
/// too much, that is `TooDeep`. Where the text has no tree otherwise, `Syntax` has the place of the
/// first token with which the tokens up to it are no front of a text, whatever follows them, or the
/// end of the text.
pub fn parse(alloc: Global, tokens: &Tokens) -> Result<Tree, ParseStop>
    ensures { Answers tokens.now result }
{
    match read_text(alloc, tokens) {
        Ok(items) => match tree_of(alloc, items, tokens) {
            Ok(tree) => Ok(tree),
            Err(NoMemory) => Err(ParseStop::NoMemory),
        },
        Err(Stop::Memory) => Err(ParseStop::NoMemory),
        Err(Stop::Fault { left, deep }) => Err(fault_at(alloc, tokens, left, deep)),
    }
}
