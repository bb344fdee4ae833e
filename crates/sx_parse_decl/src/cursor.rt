// Taking lexemes from the front.

ghost use Rattle.std.specs.Prelude.{◌≡◌, ◌<◌, ◌≤◌, ℕ, [], ◌∷◌, ◌+◌, ◌*◌, IfOk, MatchOption, MatchResult, ◌&&◌, length};
ghost use Rattle.sx_grammar.specs.Classes.{any, below, class_of, here, number};
ghost use Rattle.sx_grammar.specs.Grammar.{bracket_classes, deeper, has, is_none, run, starts, token};
ghost use Rattle.sx_grammar.specs.Rules.{body, name_of, names};
ghost use Rattle.sx_grammar.specs.Value.{leaf};
ghost use Rattle.sx_parse_decl.specs.declared.stop.Stop.TheVariants.{Fault};
ghost use Rattle.sx_parse_decl.specs.Reading.{Gives, Stops, opened_by};

use crate::stop::Stop;
use sx_grammar::{Lexeme, Sort};
use sx_token::Kind;
use sx_tree::Name;

/// The number of a sort.
fn number(sort: Sort) -> u8
    ensures same { result ≡ number sort }
    ensures small { result < 55 }
{
    match sort {
        Sort::Int => 0,
        Sort::LeastInt => 1,
        Sort::Text => 2,
        Sort::Name => 3,
        Sort::Print => 4,
        Sort::Get => 5,
        Sort::Set => 6,
        Sort::WillSet => 7,
        Sort::DidSet => 8,
        Sort::Escaping => 9,
        Sort::Underscore => 10,
        Sort::Break => 11,
        Sort::Class => 12,
        Sort::Continue => 13,
        Sort::Else => 14,
        Sort::False => 15,
        Sort::Func => 16,
        Sort::If => 17,
        Sort::In => 18,
        Sort::Inout => 19,
        Sort::Let => 20,
        Sort::Mutating => 21,
        Sort::Return => 22,
        Sort::SelfWord => 23,
        Sort::Struct => 24,
        Sort::Subscript => 25,
        Sort::True => 26,
        Sort::Var => 27,
        Sort::While => 28,
        Sort::Assign => 29,
        Sort::Compound => 30,
        Sort::Plus => 31,
        Sort::Minus => 32,
        Sort::Negate => 33,
        Sort::Times => 34,
        Sort::Relation => 35,
        Sort::And => 36,
        Sort::Or => 37,
        Sort::Not => 38,
        Sort::Ampersand => 39,
        Sort::Arrow => 40,
        Sort::Misfit => 41,
        Sort::OpenRound => 42,
        Sort::OpenText => 43,
        Sort::CloseRound => 44,
        Sort::OpenBrace => 45,
        Sort::OpenObservers => 46,
        Sort::CloseBrace => 47,
        Sort::OpenSquare => 48,
        Sort::CloseSquare => 49,
        Sort::Comma => 50,
        Sort::Colon => 51,
        Sort::Semicolon => 52,
        Sort::Dot => 53,
        Sort::At => 54,
    }
}

/// The class of a lexeme: twice the number of its sort, and one more on a new line.
fn class(lexeme: &Lexeme) -> u8
    ensures { result ≡ class_of lexeme.now }
{
    let number = 2 * number(lexeme.sort);
    if lexeme.token.line_before {
        number + 1
    } else {
        number
    }
}

fn front(lexemes: &[Lexeme]) -> Option<(Lexeme, &[Lexeme])>
    ensures { MatchOption result (lexemes.now ≡ []) (λ x. lexemes.now ≡ x.0 ∷ x.1.now) }
{
    match lexemes {
        [] => None,
        [lexeme, rest @ ..] => Some((*lexeme, rest)),
    }
}

fn is_among(class: u8, sorts: &[Sort]) -> bool
    ensures { result ≡ has (any sorts.now) class }
{
    match sorts {
        [] => false,
        [first, others @ ..] => {
            let number = 2 * number(*first);
            class == number || class == number + 1 || is_among(class, others)
        }
    }
}

/// Whether the first lexeme is of one of these sorts.
pub fn starts_with(lexemes: &[Lexeme], sorts: &[Sort]) -> bool
    ensures { result ≡ starts (any sorts.now) lexemes.now }
{
    match front(lexemes) {
        None => false,
        Some((lexeme, _)) => is_among(class(&lexeme), sorts),
    }
}

fn opens_bracket(lexemes: &[Lexeme]) -> bool
    ensures { result ≡ starts bracket_classes lexemes.now }
{
    starts_with(
        lexemes,
        &[
            Sort::OpenRound,
            Sort::OpenText,
            Sort::OpenBrace,
            Sort::OpenObservers,
            Sort::OpenSquare,
        ],
    )
}

/// The stop at a lexeme that doesn't fit: too deep at a bracket that opens where no level is left.
pub fn misfit(lexemes: &[Lexeme], levels: u32) -> Stop
    ensures { result ≡ Fault (length lexemes.now) (is_none levels && starts bracket_classes lexemes.now) }
{
    let left = lexemes.len();
    if levels == 0 {
        let deep = opens_bracket(lexemes);
        return Stop::Fault { left, deep };
    }
    Stop::Fault { left, deep: false }
}

/// A lexeme of one of these sorts.
pub fn one_of<'a>(
    lexemes: &'a [Lexeme],
    sorts: &[Sort],
    levels: u32,
) -> Result<(Lexeme, &'a [Lexeme]), Stop>
    ensures { Gives (λ x. leaf x.0) (λ x. x.1.now) result (run body levels (token (any sorts.now)) lexemes.now) }
{
    match front(lexemes) {
        None => Err(Stop::Fault {
            left: 0,
            deep: false,
        }),
        Some((lexeme, rest)) => {
            if is_among(class(&lexeme), sorts) {
                Ok((lexeme, rest))
            } else {
                Err(misfit(lexemes, levels))
            }
        }
    }
}

/// A lexeme of one of these sorts that opens a level, what follows it, and the levels that are left.
pub fn opened<'a>(
    lexemes: &'a [Lexeme],
    sorts: &[Sort],
    levels: u32,
) -> Result<(Lexeme, &'a [Lexeme], u32), Stop>
    ensures run { MatchResult result
        (λ x. (n : ℕ) → run body levels (deeper (any sorts.now) n) lexemes.now ≡ opened_by x.0 (run body x.2 (body n) x.1.now))
        (λ e. (n : ℕ) → Stops e (run body levels (deeper (any sorts.now) n) lexemes.now)) }
    ensures fewer { IfOk result (λ x. x.2 < levels) }
{
    match front(lexemes) {
        None => Err(Stop::Fault {
            left: 0,
            deep: false,
        }),
        Some((lexeme, rest)) => {
            if !is_among(class(&lexeme), sorts) {
                Err(misfit(lexemes, levels))
            } else if levels == 0 {
                Err(Stop::Fault {
                    left: lexemes.len(),
                    deep: true,
                })
            } else {
                Ok((lexeme, rest, levels - 1))
            }
        }
    }
}

fn is_here(class: u8, sorts: &[Sort]) -> bool
    ensures { result ≡ has (here sorts.now) class }
{
    match sorts {
        [] => false,
        [first, others @ ..] => class == 2 * number(*first) || is_here(class, others),
    }
}

fn is_below(class: u8, sorts: &[Sort]) -> bool
    ensures { result ≡ has (below sorts.now) class }
{
    match sorts {
        [] => false,
        [first, others @ ..] => class == 2 * number(*first) + 1 || is_below(class, others),
    }
}

/// Whether the first lexeme is of one of these sorts, on the line of the lexeme before.
pub fn starts_here(lexemes: &[Lexeme], sorts: &[Sort]) -> bool
    ensures { result ≡ starts (here sorts.now) lexemes.now }
{
    match front(lexemes) {
        None => false,
        Some((lexeme, _)) => is_here(class(&lexeme), sorts),
    }
}

/// Whether the first lexeme is of one of these sorts, on a new line.
pub fn starts_below(lexemes: &[Lexeme], sorts: &[Sort]) -> bool
    ensures { result ≡ starts (below sorts.now) lexemes.now }
{
    match front(lexemes) {
        None => false,
        Some((lexeme, _)) => is_below(class(&lexeme), sorts),
    }
}

/// The same as [`opened`], for a lexeme on the line of the one before.
pub fn opened_here<'a>(
    lexemes: &'a [Lexeme],
    sorts: &[Sort],
    levels: u32,
) -> Result<(Lexeme, &'a [Lexeme], u32), Stop>
    ensures run { MatchResult result
        (λ x. (n : ℕ) → run body levels (deeper (here sorts.now) n) lexemes.now ≡ opened_by x.0 (run body x.2 (body n) x.1.now))
        (λ e. (n : ℕ) → Stops e (run body levels (deeper (here sorts.now) n) lexemes.now)) }
    ensures fewer { IfOk result (λ x. x.2 < levels) }
{
    match front(lexemes) {
        None => Err(Stop::Fault {
            left: 0,
            deep: false,
        }),
        Some((lexeme, rest)) => {
            if !is_here(class(&lexeme), sorts) {
                Err(misfit(lexemes, levels))
            } else if levels == 0 {
                Err(Stop::Fault {
                    left: lexemes.len(),
                    deep: true,
                })
            } else {
                let fewer = levels - 1;
                Ok((lexeme, rest, fewer))
            }
        }
    }
}

/// Whether a name stands first.
pub fn starts_with_name(lexemes: &[Lexeme]) -> bool
    ensures { result ≡ starts (any names) lexemes.now }
{
    starts_with(
        lexemes,
        &[
            Sort::Name,
            Sort::Print,
            Sort::Get,
            Sort::Set,
            Sort::WillSet,
            Sort::DidSet,
            Sort::Escaping,
        ],
    )
}

/// The lexeme of a name.
pub fn name(lexemes: &[Lexeme], levels: u32) -> Result<(Lexeme, &[Lexeme]), Stop>
    ensures { Gives (λ x. leaf x.0) (λ x. x.1.now) result (run body levels (token (any names)) lexemes.now) }
{
    one_of(
        lexemes,
        &[
            Sort::Name,
            Sort::Print,
            Sort::Get,
            Sort::Set,
            Sort::WillSet,
            Sort::DidSet,
            Sort::Escaping,
        ],
        levels,
    )
}

/// The name that a lexeme stands for.
pub fn name_of(lexeme: &Lexeme) -> Name
    ensures { result ≡ name_of lexeme.now }
{
    let number = match lexeme.token.kind {
        Kind::Name(number) => number,
        _ => 0,
    };
    Name {
        number,
        span: lexeme.token.span,
    }
}
