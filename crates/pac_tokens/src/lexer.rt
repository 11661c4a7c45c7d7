// Reads the tokens of a text.
ghost use Rattle.std.specs.Prelude.{◌≡◌, ◌≤◌, ◌+◌, [], ◌∷◌, length, IfOk};
ghost use Rattle.std.specs.List.{take_while};
ghost use Rattle.pac_tokens.specs.Tokens.{is_blank, is_letter, is_digit, is_name, gap, keyword_of, after, IsLexed};
ghost use Rattle.pac_tokens.specs.Lexing.{symbol_of, first_symbol, candidate, word_at, symbol_at, IsPushed, IsStep, StaysWithin};

use crate::fault::{Fault, FaultKind};
use crate::int::{int, minus};
use crate::text::text;
use crate::token::{Keyword, Spanned, Symbol, Token};
use pac_base::NoMemory;
use pac_value::Name;
use std::alloc::Global;

/// The tokens of a text, up to its end or to the first fault of a token.
#[derive(Drop)]
pub struct Lexed {
    pub items: Vec<Spanned>,
    pub fault: Option<Fault>,
}

/// What stands before a token, for a `-`: after a value it is an operator, and elsewhere it begins a literal.
#[derive(Clone, Copy, Debug, PartialEq, Eq)]
pub enum Before {
    Value,
    Other,
    LiteralMinus,
}

// The most tokens that room is made for before any is read.
const ROOM: usize = 32_768;

fn is_blank_byte(byte: u8) -> bool
    ensures { result ≡ is_blank byte }
{
    matches!(byte, b' ' | b'\t' | b'\r' | b'\n')
}

pub(crate) fn is_letter_byte(byte: u8) -> bool
    ensures { result ≡ is_letter byte }
{
    (byte >= b'a' && byte <= b'z') || (byte >= b'A' && byte <= b'Z') || byte == b'_'
}

pub(crate) fn is_digit_byte(byte: u8) -> bool
    ensures { result ≡ is_digit byte }
{
    byte >= b'0' && byte <= b'9'
}

fn is_name_byte(byte: u8) -> bool
    ensures { result ≡ is_name byte }
{
    is_letter_byte(byte) || is_digit_byte(byte)
}

/// How many bytes of white space and comments come first.
pub fn gap_len(bytes: &[u8]) -> usize
    ensures gap { result ≡ gap bytes.now }
    ensures within { result ≤ length bytes.now }
{
    let mut in_comment = false;
    for (i, byte) in bytes.iter().enumerate() {
        if in_comment {
            in_comment = *byte != b'\n';
        } else if *byte > b'#' {
            // Neither white space nor the beginning of a comment is so great.
            return i;
        } else if *byte == b'#' {
            in_comment = true;
        } else if !is_blank_byte(*byte) {
            return i;
        }
    }
    bytes.len()
}

// How many bytes of a name come first.
pub(crate) fn word_len(bytes: &[u8]) -> usize
    ensures { result ≡ length (take_while is_name bytes.now) }
{
    bytes.iter().take_while(|byte| is_name_byte(**byte)).count()
}

// How many digits come first.
pub(crate) fn digits_len(bytes: &[u8]) -> usize
    ensures { result ≡ length (take_while is_digit bytes.now) }
{
    bytes
        .iter()
        .take_while(|byte| is_digit_byte(**byte))
        .count()
}

// The only keyword that may be spelled by `len` bytes that begin with these two.
fn keyword_like(first: u8, second: u8, len: usize) -> Option<Keyword>
    ensures { result ≡ candidate first second len }
{
    match first {
        b'a' => Some(Keyword::Abort),
        b'd' if len == 6 => Some(Keyword::Delete),
        b'd' => Some(Keyword::Default),
        b'e' => Some(Keyword::Else),
        b'f' if len == 3 => Some(Keyword::For),
        b'f' => Some(Keyword::False),
        b'h' => Some(Keyword::Has),
        b'i' if second == b'f' => Some(Keyword::If),
        b'i' if len == 2 => Some(Keyword::In),
        b'i' => Some(Keyword::Int),
        b'k' => Some(Keyword::Key),
        b'l' => Some(Keyword::Let),
        b'p' if len == 3 => Some(Keyword::Put),
        b'p' => Some(Keyword::Proc),
        b'r' => Some(Keyword::Read),
        b's' => Some(Keyword::Set),
        b't' if second == b'a' => Some(Keyword::Table),
        b't' if second == b'e' => Some(Keyword::Text),
        b't' => Some(Keyword::True),
        _ => None,
    }
}

// The keyword that these bytes spell.
pub(crate) fn find_keyword(word: &[u8]) -> Option<Keyword>
    ensures { result ≡ keyword_of word.now }
{
    let [first, second, ..] = word else {
        return None;
    };
    let Some(keyword) = keyword_like(*first, *second, word.len()) else {
        return None;
    };
    if keyword.spelling() == word {
        Some(keyword)
    } else {
        None
    }
}

// The symbol of one byte.
#[tactic(auto, unfolding(crate::specs::Lexing::symbol_of))]
fn short_symbol(byte: u8) -> Option<Symbol>
    ensures { result ≡ symbol_of (byte ∷ []) }
{
    match byte {
        b'(' => Some(Symbol::OpenParen),
        b')' => Some(Symbol::CloseParen),
        b'{' => Some(Symbol::OpenBrace),
        b'}' => Some(Symbol::CloseBrace),
        b'[' => Some(Symbol::OpenBracket),
        b']' => Some(Symbol::CloseBracket),
        b',' => Some(Symbol::Comma),
        b';' => Some(Symbol::Semicolon),
        b'.' => Some(Symbol::Dot),
        b'=' => Some(Symbol::Assign),
        b'+' => Some(Symbol::Plus),
        b'-' => Some(Symbol::Minus),
        b'*' => Some(Symbol::Star),
        b'/' => Some(Symbol::Slash),
        b'%' => Some(Symbol::Percent),
        b'!' => Some(Symbol::Not),
        b'<' => Some(Symbol::Less),
        b'>' => Some(Symbol::Greater),
        _ => None,
    }
}

// The symbol of two bytes.
#[tactic(auto, unfolding(crate::specs::Lexing::symbol_of))]
fn long_symbol(first: u8, second: u8) -> Option<Symbol>
    ensures { result ≡ symbol_of (first ∷ second ∷ []) }
{
    match first {
        b'=' if second == b'=' => Some(Symbol::Equal),
        b'!' if second == b'=' => Some(Symbol::NotEqual),
        b'<' if second == b'=' => Some(Symbol::LessEqual),
        b'>' if second == b'=' => Some(Symbol::GreaterEqual),
        b'&' if second == b'&' => Some(Symbol::And),
        b'|' if second == b'|' => Some(Symbol::Or),
        b'.' if second == b'.' => Some(Symbol::Range),
        _ => None,
    }
}

// The longest symbol that comes first.
fn leading_symbol(first: u8, following: &[u8]) -> Option<Symbol>
    ensures { result ≡ first_symbol (first ∷ following.now) }
{
    if let [second, ..] = following
        && let Some(symbol) = long_symbol(first, *second)
    {
        return Some(symbol);
    }
    short_symbol(first)
}

// What became of the bytes at the start: a token was appended, and that much of them is read; or there is a fault.
#[derive(Clone, Copy)]
pub(crate) enum Step {
    Pushed(usize, Before),
    Refused(FaultKind),
}

// Appends what was found.
#[inline(always)]
fn push_found(
    items: &mut Vec<Spanned>,
    before: Before,
    at: usize,
    found: Result<(Token, usize), FaultKind>,
) -> Result<Step, NoMemory>
    ensures { IfOk result (λ step. IsPushed before at found items.old.items items.new.items step) }
{
    match found {
        Err(kind) => Ok(Step::Refused(kind)),
        Ok((token, len)) => {
            let next = before.after(&token);
            items.push(Spanned { token, at })?;
            Ok(Step::Pushed(len, next))
        }
    }
}

// Appends the keyword or the name that comes first.
fn push_word(
    items: &mut Vec<Spanned>,
    before: Before,
    at: usize,
    bytes: &[u8],
) -> Result<Step, NoMemory>
    ensures { IfOk result (λ step. IsPushed before at (word_at (take_while is_name bytes.now)) items.old.items items.new.items step) }
{
    let word = &bytes[..word_len(bytes)];
    if let Some(keyword) = find_keyword(word) {
        let found = Ok((Token::Keyword(keyword), word.len()));
        return push_found(items, before, at, found);
    }
    match Name::from_bytes(word) {
        Some(name) => push_found(items, before, at, Ok((Token::Name(name), word.len()))),
        None => push_found(items, before, at, Err(FaultKind::TooLong)),
    }
}

// Appends the symbol that begins with this byte.
fn push_symbol(
    items: &mut Vec<Spanned>,
    before: Before,
    at: usize,
    first: u8,
    following: &[u8],
) -> Result<Step, NoMemory>
    ensures { IfOk result (λ step. IsPushed before at (symbol_at before (first_symbol (first ∷ following.now)) following.now) items.old.items items.new.items step) }
{
    let Some(symbol) = leading_symbol(first, following) else {
        return push_found(items, before, at, Err(FaultKind::Token));
    };
    match symbol {
        Symbol::Minus => push_found(items, before, at, minus(before, following)),
        _ => {
            let found = Ok((Token::Symbol(symbol), symbol.spelling().len()));
            push_found(items, before, at, found)
        }
    }
}

// Appends the token at the start, the longest one, unless it is too long. Each kind of token is appended by itself, so that
// it is written to its offset at once.
fn push_next(
    items: &mut Vec<Spanned>,
    before: Before,
    at: usize,
    bytes: &[u8],
) -> Result<Step, NoMemory>
    requires { 1 ≤ length bytes.now }
    ensures step { IfOk result (λ step. IsStep before at bytes.now items.old.items items.new.items step) }
    ensures within { IfOk result (λ step. StaysWithin (length bytes.now) step) }
{
    let [first, following @ ..] = bytes else {
        return push_found(items, before, at, Err(FaultKind::Token));
    };
    if is_letter_byte(*first) {
        return push_word(items, before, at, bytes);
    }
    if is_digit_byte(*first) {
        return push_found(items, before, at, int(before, bytes));
    }
    if *first == b'"' {
        return push_found(items, before, at, text(following));
    }
    push_symbol(items, before, at, *first, following)
}

impl Before {
    // What stands before the token after this one.
    fn after(self, token: &Token) -> Before
        ensures { result ≡ after self token.now }
    {
        match token {
            Token::Name(_) | Token::Int(_) | Token::Negative(_) | Token::Text(_) => Before::Value,
            Token::Keyword(Keyword::True | Keyword::False) => Before::Value,
            Token::Symbol(Symbol::CloseParen) => Before::Value,
            Token::Symbol(Symbol::Minus) => match self {
                Before::Value => Before::Other,
                _ => Before::LiteralMinus,
            },
            _ => Before::Other,
        }
    }
}

/// Reads the tokens of a text. Linear in the text.
///
/// # Errors
///
/// `NoMemory` alone. A fault of a token is no error here: it ends the tokens.
pub fn lex(alloc: Global, text: &[u8]) -> Result<Lexed, NoMemory>
    ensures lexed { IfOk result (λ lexed. IsLexed text.now lexed.items.items lexed.fault) }
    ensures few { IfOk result (λ lexed. length lexed.items.items ≤ length text.now) }
{
    let mut items = Vec::with_capacity(alloc, (text.len() / 2).min(ROOM))?;
    let mut rest = text;
    let mut at: usize = 0;
    let mut before = Before::Other;
    loop {
        let gap = gap_len(rest);
        rest = &rest[gap..];
        at += gap;
        if rest.is_empty() {
            return Ok(Lexed { items, fault: None });
        }
        match push_next(&mut items, before, at, rest)? {
            Step::Refused(kind) => {
                return Ok(Lexed {
                    items,
                    fault: Some(Fault { at, kind }),
                });
            }
            Step::Pushed(len, next) => {
                before = next;
                rest = &rest[len..];
                at += len;
            }
        }
    }
}
