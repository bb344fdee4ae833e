// The words, operators and marks that the language spells out.

/// A word of the language. The lexer makes each of them but [`Word::Init`], which stands here for
/// written initialisers; in a text `init` is a reserved word.
#[derive(Clone, Copy, Debug, PartialEq, Eq)]
pub enum Word {
    /// `break`
    Break,
    /// `class`
    Class,
    /// `continue`
    Continue,
    /// `else`
    Else,
    /// `false`
    False,
    /// `func`
    Func,
    /// `if`
    If,
    /// `in`
    In,
    /// `init`
    Init,
    /// `inout`
    Inout,
    /// `let`
    Let,
    /// `mutating`
    Mutating,
    /// `return`
    Return,
    /// `self`
    SelfWord,
    /// `struct`
    Struct,
    /// `subscript`
    Subscript,
    /// `true`
    True,
    /// `var`
    Var,
    /// `while`
    While,
}

/// An operator, or another sign that is spelled with operator characters.
#[derive(Clone, Copy, Debug, PartialEq, Eq)]
pub enum Operator {
    /// `=`
    Assign,
    /// `+=`
    PlusAssign,
    /// `-=`
    MinusAssign,
    /// `*=`
    StarAssign,
    /// `/=`
    SlashAssign,
    /// `%=`
    PercentAssign,
    /// `+`
    Plus,
    /// `-`
    Minus,
    /// `*`
    Star,
    /// `/`
    Slash,
    /// `%`
    Percent,
    /// `<`
    Less,
    /// `>`
    Greater,
    /// `<=`
    LessEqual,
    /// `>=`
    GreaterEqual,
    /// `==`
    Equal,
    /// `!=`
    NotEqual,
    /// `===`
    Same,
    /// `!==`
    NotSame,
    /// `&&`
    AndAnd,
    /// `||`
    OrOr,
    /// `!`
    Not,
    /// `&`
    And,
    /// `->`
    Arrow,
}

/// A mark of punctuation.
#[derive(Clone, Copy, Debug, PartialEq, Eq)]
pub enum Mark {
    /// `(`
    OpenRound,
    /// `)`
    CloseRound,
    /// `{`
    OpenBrace,
    /// `}`
    CloseBrace,
    /// `[`
    OpenSquare,
    /// `]`
    CloseSquare,
    /// `,`
    Comma,
    /// `:`
    Colon,
    /// `;`
    Semicolon,
    /// `.`
    Dot,
    /// `@`
    At,
}
