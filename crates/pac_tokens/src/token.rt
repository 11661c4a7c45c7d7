// Tokens with their offsets.
ghost use Rattle.std.specs.Prelude.{◌≡◌};
ghost use Rattle.pac_tokens.specs.Spelling.{keyword_spelling, symbol_spelling};

use pac_base::Listed;
use pac_value::{Name, Text};

/// A keyword, which is no name.
#[derive(Clone, Copy, Debug, PartialEq, Eq)]
pub enum Keyword {
    Table,
    Proc,
    Key,
    Int,
    Text,
    Let,
    Read,
    Has,
    Put,
    Set,
    Delete,
    Abort,
    If,
    Else,
    Default,
    True,
    False,
    For,
    In,
}

/// Every keyword, among which `specs/` says what a word is.
pub const KEYWORDS: [Keyword; 19] = [
    Keyword::Table,
    Keyword::Proc,
    Keyword::Key,
    Keyword::Int,
    Keyword::Text,
    Keyword::Let,
    Keyword::Read,
    Keyword::Has,
    Keyword::Put,
    Keyword::Set,
    Keyword::Delete,
    Keyword::Abort,
    Keyword::If,
    Keyword::Else,
    Keyword::Default,
    Keyword::True,
    Keyword::False,
    Keyword::For,
    Keyword::In,
];

impl Keyword {
    /// The bytes that spell it.
    pub fn spelling(self) -> &'static [u8]
        ensures { result.now ≡ keyword_spelling self }
    {
        match self {
            Keyword::Table => b"table",
            Keyword::Proc => b"proc",
            Keyword::Key => b"key",
            Keyword::Int => b"int",
            Keyword::Text => b"text",
            Keyword::Let => b"let",
            Keyword::Read => b"read",
            Keyword::Has => b"has",
            Keyword::Put => b"put",
            Keyword::Set => b"set",
            Keyword::Delete => b"delete",
            Keyword::Abort => b"abort",
            Keyword::If => b"if",
            Keyword::Else => b"else",
            Keyword::Default => b"default",
            Keyword::True => b"true",
            Keyword::False => b"false",
            Keyword::For => b"for",
            Keyword::In => b"in",
        }
    }
}

/// A symbol.
#[derive(Clone, Copy, Debug, PartialEq, Eq)]
pub enum Symbol {
    OpenParen,
    CloseParen,
    OpenBrace,
    CloseBrace,
    OpenBracket,
    CloseBracket,
    Comma,
    Semicolon,
    Dot,
    Assign,
    Plus,
    Minus,
    Star,
    Slash,
    Percent,
    Not,
    Less,
    Greater,
    Equal,
    NotEqual,
    LessEqual,
    GreaterEqual,
    And,
    Or,
    /// `..`
    Range,
}

/// Every symbol, among which `specs/` says what bytes spell one.
pub const SYMBOLS: [Symbol; 25] = [
    Symbol::OpenParen,
    Symbol::CloseParen,
    Symbol::OpenBrace,
    Symbol::CloseBrace,
    Symbol::OpenBracket,
    Symbol::CloseBracket,
    Symbol::Comma,
    Symbol::Semicolon,
    Symbol::Dot,
    Symbol::Assign,
    Symbol::Plus,
    Symbol::Minus,
    Symbol::Star,
    Symbol::Slash,
    Symbol::Percent,
    Symbol::Not,
    Symbol::Less,
    Symbol::Greater,
    Symbol::Equal,
    Symbol::NotEqual,
    Symbol::LessEqual,
    Symbol::GreaterEqual,
    Symbol::And,
    Symbol::Or,
    Symbol::Range,
];

impl Symbol {
    /// The bytes that spell it.
    pub fn spelling(self) -> &'static [u8]
        ensures { result.now ≡ symbol_spelling self }
    {
        match self {
            Symbol::OpenParen => b"(",
            Symbol::CloseParen => b")",
            Symbol::OpenBrace => b"{",
            Symbol::CloseBrace => b"}",
            Symbol::OpenBracket => b"[",
            Symbol::CloseBracket => b"]",
            Symbol::Comma => b",",
            Symbol::Semicolon => b";",
            Symbol::Dot => b".",
            Symbol::Assign => b"=",
            Symbol::Plus => b"+",
            Symbol::Minus => b"-",
            Symbol::Star => b"*",
            Symbol::Slash => b"/",
            Symbol::Percent => b"%",
            Symbol::Not => b"!",
            Symbol::Less => b"<",
            Symbol::Greater => b">",
            Symbol::Equal => b"==",
            Symbol::NotEqual => b"!=",
            Symbol::LessEqual => b"<=",
            Symbol::GreaterEqual => b">=",
            Symbol::And => b"&&",
            Symbol::Or => b"||",
            Symbol::Range => b"..",
        }
    }
}

/// One token.
#[derive(Clone, Copy, Debug)]
pub enum Token {
    Keyword(Keyword),
    Symbol(Symbol),
    Name(Name),
    /// Digits, as an int.
    Int(i64),
    /// The digits after the `-` of a literal, as the literal's int.
    Negative(i64),
    /// A text between quotes, without its escapes.
    Text(Text),
}

/// A token and the offset of its first byte.
#[derive(Clone, Copy, Debug)]
pub struct Spanned {
    pub token: Token,
    pub at: usize,
}

/// The tokens of a text, in order.
pub type Tokens = Listed<Spanned>;
