// What the grammar sees of a token.

use sx_token::Token;

/// What a token is to the grammar. Operators are told apart by their fixity, and an opening bracket
/// by the token behind it where that decides what it opens.
#[derive(Clone, Copy, Debug, PartialEq, Eq)]
pub enum Sort {
    Int,
    LeastInt,
    Text,
    Name,
    Print,
    Get,
    Set,
    WillSet,
    DidSet,
    Escaping,
    Underscore,
    Break,
    Class,
    Continue,
    Else,
    False,
    Func,
    If,
    In,
    Inout,
    Let,
    Mutating,
    Return,
    SelfWord,
    Struct,
    Subscript,
    True,
    Var,
    While,
    /// An infix `=`.
    Assign,
    /// An infix `+=`, `-=`, `*=`, `/=` or `%=`.
    Compound,
    /// An infix `+`.
    Plus,
    /// An infix `-`.
    Minus,
    /// A prefix `-`.
    Negate,
    /// An infix `*`, `/` or `%`.
    Times,
    /// An infix `<`, `>`, `<=`, `>=`, `==`, `!=`, `===` or `!==`.
    Relation,
    /// An infix `&&`.
    And,
    /// An infix `||`.
    Or,
    /// A prefix `!`.
    Not,
    /// A prefix `&`.
    Ampersand,
    Arrow,
    /// An operator whose fixity no rule takes, or a reserved word.
    Misfit,
    /// A `(` before another token than a text.
    OpenRound,
    /// A `(` before a text.
    OpenText,
    CloseRound,
    /// A `{` before another token than `willSet` and `didSet`.
    OpenBrace,
    /// A `{` before `willSet` or `didSet`.
    OpenObservers,
    CloseBrace,
    OpenSquare,
    CloseSquare,
    Comma,
    Colon,
    Semicolon,
    Dot,
    At,
}

/// A token with its sort.
#[derive(Clone, Copy, Debug, PartialEq, Eq)]
pub struct Lexeme {
    pub sort: Sort,
    pub token: Token,
}

/// What an opening brace is in an expression, outside brackets.
#[derive(Clone, Copy, Debug, PartialEq, Eq)]
pub enum Mode {
    /// It begins a closure.
    Free,
    /// It begins the block behind a condition.
    Condition,
    /// It begins a closure, but behind an operand observers where it stands before `willSet` or
    /// `didSet`: the initial value of a property or global may end there.
    Initial,
}
