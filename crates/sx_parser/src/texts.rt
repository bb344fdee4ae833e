// A whole text.

ghost use Rattle.std.specs.Prelude.{◌≡◌, []};
ghost use Rattle.sx_grammar.specs.Answer.{deepest};
ghost use Rattle.sx_grammar.specs.Grammar.{run};
ghost use Rattle.sx_grammar.specs.Rules.{body};
ghost use Rattle.sx_grammar.specs.Value.{items};
ghost use Rattle.sx_parse_decl.specs.Reading.{Gives};
ghost use Rattle.sx_parser.specs.Answer.{lexemes_of};
ghost use Rattle.sx_parser.specs.Text.{text};

use sqlite_items::Items;
use std::alloc::Global;
use sx_grammar::Lexeme;
use sx_parse_decl::{Stop, lexemes, misfit};
use sx_parse_items::program;
use sx_token::Tokens;
use sx_tree::Item;

/// How many levels may be open at one place.
const DEEPEST: u32 = 200;

/// The items of a program behind which the text ends.
#[tactic(auto, unfolding(sx_grammar::specs::Grammar::run, sx_grammar::specs::Grammar::run_with, crate::specs::Text::text))]
pub fn text(alloc: Global, lexemes: &[Lexeme], levels: u32) -> Result<Items<Item>, Stop>
    ensures { Gives (λ x. items x) (λ x. []) result (run body levels text lexemes.now) }
{
    let (items, rest) = program(alloc, lexemes, levels)?;
    if rest.is_empty() {
        Ok(items)
    } else {
        Err(misfit(rest, levels))
    }
}

/// The items of the text with these tokens.
pub fn read_text(alloc: Global, tokens: &Tokens) -> Result<Items<Item>, Stop>
    ensures { Gives (λ x. items x) (λ x. []) result (run body deepest text (lexemes_of tokens.now)) }
{
    let lexemes = lexemes(alloc, &tokens.names, &tokens.list)?;
    text(alloc, lexemes.as_slice(), DEEPEST)
}
