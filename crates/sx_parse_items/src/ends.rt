// What may stand where an item ends.

ghost use Rattle.std.specs.Prelude.{◌≡◌};
ghost use Rattle.sx_grammar.specs.Classes.{any};
ghost use Rattle.sx_grammar.specs.Grammar.{run, stands, starts};
ghost use Rattle.sx_grammar.specs.Rules.{body, plain_ends, plain_separator};
ghost use Rattle.sx_parse_code.specs.Views.{leaf_or_nothing};
ghost use Rattle.sx_parse_decl.specs.Reading.{Gives};

use sx_grammar::{Lexeme, Sort};
use sx_parse_decl::{Stop, misfit, one_of, starts_below, starts_here, starts_with};

/// Whether the text ends here, or a lexeme of one of these sorts stands first.
pub fn stands(lexemes: &[Lexeme], sorts: &[Sort]) -> bool
    ensures { result ≡ stands (any sorts.now) lexemes.now }
{
    match lexemes {
        [] => true,
        _ => starts_with(lexemes, sorts),
    }
}

/// The end of a value behind which no accessors may follow: a semicolon, or a line's end, or the
/// end of the row.
#[tactic(auto, unfolding(sx_grammar::specs::Grammar::run, sx_grammar::specs::Grammar::run_with, sx_grammar::specs::Rules::plain_separator))]
pub fn plain_separator(lexemes: &[Lexeme], levels: u32) -> Result<(Option<Lexeme>, &[Lexeme]), Stop>
    ensures { Gives (λ x. leaf_or_nothing x.0) (λ x. x.1.now) result (run body levels plain_separator lexemes.now) }
{
    if starts_with(lexemes, &[Sort::Semicolon]) {
        let (semicolon, rest) = one_of(lexemes, &[Sort::Semicolon], levels)?;
        return Ok((Some(semicolon), rest));
    }
    if ends_plainly(lexemes) {
        Ok((None, lexemes))
    } else {
        Err(misfit(lexemes, levels))
    }
}

/// Whether a lexeme stands first before which a value may end with no semicolon.
fn starts_plain_end(lexemes: &[Lexeme]) -> bool
    ensures { result ≡ starts plain_ends lexemes.now }
{
    if starts_here(lexemes, &[Sort::CloseBrace]) {
        return true;
    }
    starts_below(
        lexemes,
        &[
            Sort::CloseBrace,
            Sort::Func,
            Sort::Struct,
            Sort::Class,
            Sort::Let,
            Sort::Var,
            Sort::If,
            Sort::While,
            Sort::Return,
            Sort::Break,
            Sort::Continue,
            Sort::Mutating,
            Sort::Subscript,
            Sort::Int,
            Sort::True,
            Sort::False,
            Sort::SelfWord,
            Sort::Negate,
            Sort::Not,
            Sort::OpenRound,
            Sort::OpenBrace,
            Sort::Name,
            Sort::Print,
            Sort::Get,
            Sort::Set,
            Sort::WillSet,
            Sort::DidSet,
            Sort::Escaping,
        ],
    )
}

/// Whether a value may end here with no semicolon.
fn ends_plainly(lexemes: &[Lexeme]) -> bool
    ensures { result ≡ stands plain_ends lexemes.now }
{
    match lexemes {
        [] => true,
        _ => starts_plain_end(lexemes),
    }
}
