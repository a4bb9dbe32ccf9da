//! The tokens of a network's text.

ghost use Rattle.std.specs.Prelude.{IsTrue};
ghost use Rattle.net_text.specs.Spellings.{is_kept};

/// A word that can't be a name.
#[derive(Clone, Copy, Debug, PartialEq, Eq)]
pub enum Keyword {
    Kahn,
    Input,
    Chan,
    Output,
    Process,
    On,
    Var,
    Loop,
    Get,
    Put,
    To,
    If,
    Else,
    Stop,
    Repeat,
    Div,
    Mod,
}

/// A token that is no word and no number.
#[derive(Clone, Copy, Debug, PartialEq, Eq)]
pub enum Symbol {
    Semicolon,
    LeftBrace,
    RightBrace,
    LeftParenthesis,
    RightParenthesis,
    Assign,
    Equal,
    NotEqual,
    Less,
    LessOrEqual,
    Greater,
    GreaterOrEqual,
    Plus,
    Minus,
    Star,
}

/// What a token is.
#[derive(Clone, Copy, Debug, PartialEq, Eq)]
pub enum TokenKind {
    Name,
    /// A number, by its value.
    Number(u64),
    Word(Keyword),
    Symbol(Symbol),
}

/// A token, with the slice of the source that it is.
#[derive(Clone, Copy, Debug)]
pub struct Token<'a> {
    pub kind: TokenKind,
    pub text: &'a str,
    /// The index of its first byte in the source.
    pub start: usize,
    /// 1 plus the line feeds before it.
    pub line: usize,
    pub ghost number_in_range: { IsTrue (is_kept kind) },
}
