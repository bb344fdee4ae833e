// The lexemes of a text: each token with its sort.

ghost use Rattle.std.specs.Prelude.{◌≡◌, ◌++◌, [], ◌∷◌, IfOk, MatchOption, codes, slice_get};
ghost use Rattle.std.specs.Str.{bytes_eq};
ghost use Rattle.sx_grammar.specs.Lexemes.{before_observer, before_text, infix_sort, keyword_sort, lexemes, mark_sort, minus_sort, name_sort, operator_sort, prefix_sort, sort_alone, sort_before, sort_of_first, word_sort};
ghost use Rattle.sx_token.specs.Sound.{contents};

use std::alloc::{AllocError, Global};
use sx_grammar::{Lexeme, Sort};
use sx_token::{Kind, Mark, Operator, Token, Word};

fn same(left: &[u8], right: &[u8]) -> bool
    ensures { result ≡ bytes_eq left.now right.now }
{
    left == right
}

/// The sort of a name; some have a meaning of their own in places.
#[tactic(auto, unfolding(sx_grammar::specs::Lexemes::word_sort))]
fn word_sort(word: &[u8]) -> Sort
    ensures { result ≡ word_sort word.now }
{
    if same(word, b"print") {
        Sort::Print
    } else if same(word, b"get") {
        Sort::Get
    } else if same(word, b"set") {
        Sort::Set
    } else if same(word, b"willSet") {
        Sort::WillSet
    } else if same(word, b"didSet") {
        Sort::DidSet
    } else if same(word, b"escaping") {
        Sort::Escaping
    } else {
        Sort::Name
    }
}

fn name_sort(names: &Vec<Vec<u8>>, number: u32) -> Sort
    ensures { result ≡ name_sort (slice_get (contents names.now.items) number) }
{
    match names.get(number as usize) {
        Some(word) => word_sort(word.as_slice()),
        None => Sort::Name,
    }
}

/// The sort of an operator that stands between two operands.
fn infix(token: &Token, sort: Sort) -> Sort
    ensures { result ≡ infix_sort token.now sort }
{
    if token.space_before == token.space_after {
        sort
    } else {
        Sort::Misfit
    }
}

/// The sort of an operator that stands before its operand.
fn prefix(token: &Token, sort: Sort) -> Sort
    ensures { result ≡ prefix_sort token.now sort }
{
    if token.space_before && !token.space_after {
        sort
    } else {
        Sort::Misfit
    }
}

fn minus_sort(token: &Token) -> Sort
    ensures { result ≡ minus_sort token.now }
{
    if token.space_before && !token.space_after {
        Sort::Negate
    } else {
        infix(token, Sort::Minus)
    }
}

fn operator_sort(operator: Operator, token: &Token) -> Sort
    ensures { result ≡ operator_sort operator token.now }
{
    match operator {
        Operator::Assign => infix(token, Sort::Assign),
        Operator::PlusAssign
        | Operator::MinusAssign
        | Operator::StarAssign
        | Operator::SlashAssign
        | Operator::PercentAssign => infix(token, Sort::Compound),
        Operator::Plus => infix(token, Sort::Plus),
        Operator::Minus => minus_sort(token),
        Operator::Star | Operator::Slash | Operator::Percent => infix(token, Sort::Times),
        Operator::Less
        | Operator::Greater
        | Operator::LessEqual
        | Operator::GreaterEqual
        | Operator::Equal
        | Operator::NotEqual
        | Operator::Same
        | Operator::NotSame => infix(token, Sort::Relation),
        Operator::AndAnd => infix(token, Sort::And),
        Operator::OrOr => infix(token, Sort::Or),
        Operator::Not => prefix(token, Sort::Not),
        Operator::And => prefix(token, Sort::Ampersand),
        Operator::Arrow => Sort::Arrow,
    }
}

fn keyword_sort(word: Word) -> Sort
    ensures { result ≡ keyword_sort word }
{
    match word {
        Word::Break => Sort::Break,
        Word::Class => Sort::Class,
        Word::Continue => Sort::Continue,
        Word::Else => Sort::Else,
        Word::False => Sort::False,
        Word::Func => Sort::Func,
        Word::If => Sort::If,
        Word::In => Sort::In,
        Word::Init => Sort::Misfit,
        Word::Inout => Sort::Inout,
        Word::Let => Sort::Let,
        Word::Mutating => Sort::Mutating,
        Word::Return => Sort::Return,
        Word::SelfWord => Sort::SelfWord,
        Word::Struct => Sort::Struct,
        Word::Subscript => Sort::Subscript,
        Word::True => Sort::True,
        Word::Var => Sort::Var,
        Word::While => Sort::While,
    }
}

fn mark_sort(mark: Mark) -> Sort
    ensures { result ≡ mark_sort mark }
{
    match mark {
        Mark::OpenRound => Sort::OpenRound,
        Mark::CloseRound => Sort::CloseRound,
        Mark::OpenBrace => Sort::OpenBrace,
        Mark::CloseBrace => Sort::CloseBrace,
        Mark::OpenSquare => Sort::OpenSquare,
        Mark::CloseSquare => Sort::CloseSquare,
        Mark::Comma => Sort::Comma,
        Mark::Colon => Sort::Colon,
        Mark::Semicolon => Sort::Semicolon,
        Mark::Dot => Sort::Dot,
        Mark::At => Sort::At,
    }
}

/// The sort of a token by itself.
#[tactic(auto, unfolding(sx_grammar::specs::Lexemes::sort_alone))]
fn sort_alone(names: &Vec<Vec<u8>>, token: &Token) -> Sort
    ensures { result ≡ sort_alone (contents names.now.items) token.now.kind token.now }
{
    match token.kind {
        Kind::Name(number) => name_sort(names, number),
        Kind::Underscore => Sort::Underscore,
        Kind::Keyword(word) => keyword_sort(word),
        Kind::Reserved => Sort::Misfit,
        Kind::Int(_) => Sort::Int,
        Kind::IntMin => Sort::LeastInt,
        Kind::Text(_) => Sort::Text,
        Kind::Op(operator) => operator_sort(operator, token),
        Kind::Mark(mark) => mark_sort(mark),
    }
}

fn before_observer(behind: Sort) -> Sort
    ensures { result ≡ before_observer behind }
{
    match behind {
        Sort::WillSet | Sort::DidSet => Sort::OpenObservers,
        _ => Sort::OpenBrace,
    }
}

fn before_text(behind: Sort) -> Sort
    ensures { result ≡ before_text behind }
{
    match behind {
        Sort::Text => Sort::OpenText,
        _ => Sort::OpenRound,
    }
}

/// The sort of a token before one of the second sort.
fn sort_before(sort: Sort, behind: Sort) -> Sort
    ensures { result ≡ sort_before sort behind }
{
    match sort {
        Sort::OpenBrace => before_observer(behind),
        Sort::OpenRound => before_text(behind),
        _ => sort,
    }
}

fn split_first(tokens: &[Token]) -> Option<(Token, &[Token])>
    ensures { MatchOption result (tokens.now ≡ []) (λ x. tokens.now ≡ x.0 ∷ x.1.now) }
{
    match tokens {
        [] => None,
        [token, rest @ ..] => Some((*token, rest)),
    }
}

fn sort_of_first(names: &Vec<Vec<u8>>, tokens: &[Token]) -> Sort
    ensures { result ≡ sort_of_first (contents names.now.items) tokens.now }
{
    match split_first(tokens) {
        None => Sort::Misfit,
        Some((token, _)) => sort_alone(names, &token),
    }
}

/// The lexemes of these tokens.
#[tactic(auto, unfolding(sx_grammar::specs::Lexemes::lexemes))]
pub fn lexemes(
    alloc: Global,
    names: &Vec<Vec<u8>>,
    tokens: &[Token],
) -> Result<Vec<Lexeme>, AllocError>
    ensures { IfOk result (λ v. v.items ≡ lexemes (contents names.now.items) tokens.now) }
{
    let mut lexemes = Vec::new(alloc);
    let mut rest = tokens;
    'tokens: while let Some((token, behind)) = split_first(rest) {
        let sort = sort_before(sort_alone(names, &token), sort_of_first(names, behind));
        lexemes.push(Lexeme { sort, token })?;
        rest = behind;
    }
    Ok(lexemes)
}
