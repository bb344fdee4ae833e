// From the start of a text to all its tokens.

ghost use Rattle.std.specs.Prelude.{◌≡◌, ◌≤◌, ◌<◌, ◌+◌, length, IfOk, IfErr, OnOk};
ghost use Rattle.sx_lexer.specs.Lexis.{lexed};
ghost use Rattle.sx_lexer.specs.Gathered.{Adds, IsGatherStop, IsGathered};
ghost use Rattle.sx_lexer.specs.Shown.{kind_of_piece, lexeme_of, place_in, quoted_of, token_of, with_lexeme};

use crate::faults::LexStop;
use crate::names::Names;
use crate::next::{Found, next};
use crate::pieces::Piece;
use crate::place::{Place, between};
use crate::spacing::{is_space_after, is_space_behind};
use std::alloc::{AllocError, Global};
use sx_span::Span;
use sx_token::{Kind, Token};

/// The kind of the token that the piece `word` is, with the index of its name.
fn kind_of<'a>(names: &mut Names<'a>, piece: Piece, word: &'a [u8]) -> Result<Kind, AllocError>
    requires { length names.old < 4294967295 }
    ensures names { OnOk result (names.new ≡ with_lexeme names.old (lexeme_of piece) word.now) }
    ensures kind { IfOk result (λ k. k ≡ kind_of_piece names.new piece word.now) }
    ensures few { OnOk result (length names.new ≤ length names.old + 1) }
{
    Ok(match piece {
        Piece::Name => Kind::Name(names.index_of(word)? as u32),
        Piece::Underscore => Kind::Underscore,
        Piece::Keyword(word) => Kind::Keyword(word),
        Piece::Reserved => Kind::Reserved,
        Piece::Int(value) => Kind::Int(value),
        Piece::IntMin => Kind::IntMin,
        Piece::Op(operator) => Kind::Op(operator),
        Piece::Mark(mark) => Kind::Mark(mark),
    })
}

/// The tokens so far.
#[derive(Drop)]
pub struct Gathered<'a> {
    pub list: Vec<Token>,
    pub texts: Vec<Vec<u8>>,
    pub names: Names<'a>,
}

/// What stands before a token.
#[derive(Clone, Copy)]
pub struct Before {
    /// Whether a line end or the start of the text does, behind the token before.
    pub line: bool,
    /// Whether something that counts as space stands right before.
    pub space: bool,
}

/// The byte of the text, which has `end` bytes, at which the place stands.
fn place_in(end: u32, place: Place<'_>) -> u32
    requires within { length place.bytes.now ≤ end }
    ensures { result ≡ place_in end place.entry.rest.now }
{
    end - place.bytes.len() as u32
}

/// The token between the places.
fn token(kind: Kind, from: Place<'_>, to: Place<'_>, end: u32, before: Before) -> Token
    requires from_within { length from.bytes.now ≤ end }
    requires to_within { length to.bytes.now ≤ end }
    ensures { result ≡ token_of kind end from.entry.rest.now to.entry.rest.now before.line before.space }
{
    Token {
        kind,
        span: Span {
            start: place_in(end, from),
            end: place_in(end, to),
        },
        line_before: before.line,
        space_before: before.space,
        space_after: is_space_after(to.rest),
    }
}

impl<'a> Gathered<'a> {
    /// Adds the token that the piece between the places is.
    fn add_piece(
        &mut self,
        piece: Piece,
        from: Place<'a>,
        to: Place<'_>,
        end: u32,
        before: Before,
    ) -> Result<(), LexStop>
        requires order { length to.bytes.now ≤ length from.bytes.now }
        requires within { length from.bytes.now ≤ end }
        requires few { length self.old.names < 4294967295 }
        ensures stop { IfErr result (λ e. e ≡ LexStop.NoMemory) }
        ensures adds { OnOk result (Adds end self.old self.new (lexed (lexeme_of piece) from.entry.rest.now to.entry.rest.now before.line before.space)) }
    {
        let kind = kind_of(&mut self.names, piece, between(from, to))?;
        self.list.push(token(kind, from, to, end, before))?;
        Ok(())
    }

    /// Adds the text literal between the places, which stands for the value.
    fn add_text(
        &mut self,
        value: Vec<u8>,
        from: Place<'_>,
        to: Place<'_>,
        end: u32,
        before: Before,
    ) -> Result<(), LexStop>
        requires order { length to.bytes.now ≤ length from.bytes.now }
        requires within { length from.bytes.now ≤ end }
        requires few { length self.old.texts.items < 4294967295 }
        ensures adds { OnOk result (Adds end self.old self.new (lexed (quoted_of value.items) from.entry.rest.now to.entry.rest.now before.line before.space)) }
        ensures stop { IfErr result (λ e. e ≡ LexStop.NoMemory) }
    {
        let texts = self.texts.as_slice();
        let kind = Kind::Text(texts.len() as u32);
        self.texts.push(value)?;
        self.list.push(token(kind, from, to, end, before))?;
        Ok(())
    }
}

/// The tokens from the place on, at the start of a text of `end` bytes.
pub fn gather(alloc: Global, start: Place<'_>, end: u32) -> Result<Gathered<'_>, LexStop>
    requires within { length start.bytes.now ≤ end }
    requires small { end ≤ 262144 }
    ensures ok { IfOk result (IsGathered end start.entry.rest.now) }
    ensures stop { IfErr result (IsGatherStop end start.entry.rest.now) }
{
    let mut gathered = Gathered {
        list: Vec::new(alloc),
        texts: Vec::new(alloc),
        names: Names::new(alloc),
    };
    let mut place = start;
    let mut before = Before {
        line: true,
        space: true,
    };
    loop {
        match next(alloc, place)? {
            Found::Nothing => return Ok(gathered),
            Found::Space(behind, line) => {
                before = Before {
                    line: before.line | line,
                    space: true,
                };
                place = behind;
            }
            Found::Token(piece, behind) => {
                gathered.add_piece(piece, place, behind, end, before)?;
                before = Before {
                    line: false,
                    space: is_space_behind(piece),
                };
                place = behind;
            }
            Found::Text(value, behind) => {
                gathered.add_text(value, place, behind, end, before)?;
                before = Before {
                    line: false,
                    space: false,
                };
                place = behind;
            }
            Found::Fault(kind, at) => return Err(LexStop::Lexical(kind, place_in(end, at))),
        }
    }
}
