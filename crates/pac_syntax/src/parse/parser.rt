// Reads the tree of tokens by recursive descent, and stops at the first token that can't follow.
ghost use Rattle.std.specs.Prelude.{◌≡◌, ◌∷◌, [], ◌<◌, MatchOption, OnOk, true};
ghost use Rattle.pac_base.specs.Refusals.{Gives};
ghost use Rattle.pac_syntax.specs.Faults.{offset};
ghost use Rattle.pac_syntax.specs.Grammar.{Plain};
ghost use Rattle.pac_value.specs.declared.values.Ty.{Ty as ATy};
ghost use Rattle.pac_syntax.specs.Machine.{Steps, Want, WantName, WantType, WantLiteral, type_of_token, run};
ghost use Rattle.pac_syntax.specs.Views.{Begins, IsNot, IsNoName, IsType, IsNoType, name_token, Goes, NoLonger, IsShorter};
ghost use Rattle.pac_tokens.specs.declared.token.Token.TheVariants as token;
ghost use Rattle.pac_syntax.specs.declared.tree.NameNode.{NameNode as ANameNode};
ghost use Rattle.pac_base.specs.declared.refusal.Refusal.TheVariants as error;

use crate::single::{bool_of, is_same_keyword_or_symbol, name_of, split_first};
use crate::tree::{ExprNode, LiteralNode, NameNode};
use pac_tokens::{Fault, FaultKind, Keyword, Spanned, Symbol, SyntaxError, Token, int_or_text};
use pac_value::{Ty, Value};
use std::alloc::Global;

/// An expression, and where it begins, parentheses round it included.
#[derive(Drop)]
pub(crate) struct Operand {
    pub from: usize,
    pub expr: ExprNode,
}

/// What has a list of columns: a table, or a procedure, whose parameters they are.
#[derive(Clone, Copy, Debug, PartialEq, Eq)]
pub(crate) enum Owner {
    Table,
    Procedure,
}

/// What is left to read.
#[derive(Drop)]
pub(crate) struct Parser<'a> {
    pub alloc: Global,
    pub rest: &'a [Spanned],
    /// Where the text ends, or where its first fault of a token stands.
    pub end: usize,
    /// How many operators of the expression were read.
    pub operators: u8,
}

// The type that a token is.
fn type_of(token: &Token) -> Option<Ty>
    ensures { result ≡ type_of_token token.now }
{
    let Token::Keyword(word) = token else {
        return None;
    };
    match word {
        Keyword::Int => Some(Ty::Int),
        Keyword::Text => Some(Ty::Text),
        _ => None,
    }
}

impl<'a> Parser<'a> {
    // The fault of this kind at the next token, or at the end.
    pub fn refuse(&self, kind: FaultKind) -> SyntaxError
        ensures { result ≡ error.Fault (record { at = offset self.now.end self.now.rest.now; kind = kind }) }
    {
        let at = match split_first(self.rest) {
            None => self.end,
            Some((first, _)) => first.at,
        };
        SyntaxError::Fault(Fault { at, kind })
    }

    // Takes this word or symbol and returns its offset, where it comes next.
    fn takes(&mut self, wanted: Token) -> Option<usize>
        ensures end { self.new.end ≡ self.old.end }
        ensures operators { self.new.operators ≡ self.old.operators }
        ensures token { MatchOption result ((self.new.rest ≡ self.old.rest) × IsNot wanted self.old.rest.now) (λ at. Begins wanted at self.old.rest.now self.new.rest.now) }
    {
        let Some((first, rest)) = split_first(self.rest) else {
            return None;
        };
        if !is_same_keyword_or_symbol(&wanted, &first.token) {
            return None;
        }
        self.rest = rest;
        Some(first.at)
    }

    pub fn takes_keyword(&mut self, word: Keyword) -> Option<usize>
        ensures end { self.new.end ≡ self.old.end }
        ensures token { MatchOption result ((self.new.rest ≡ self.old.rest) × IsNot (token.Keyword word) self.old.rest.now) (λ at. Begins (token.Keyword word) at self.old.rest.now self.new.rest.now) }
    {
        self.takes(Token::Keyword(word))
    }

    pub fn takes_symbol(&mut self, sign: Symbol) -> Option<usize>
        ensures end { self.new.end ≡ self.old.end }
        ensures operators { self.new.operators ≡ self.old.operators }
        ensures token { MatchOption result ((self.new.rest ≡ self.old.rest) × IsNot (token.Symbol sign) self.old.rest.now) (λ at. Begins (token.Symbol sign) at self.old.rest.now self.new.rest.now) }
    {
        self.takes(Token::Symbol(sign))
    }

    // Takes this word or symbol.
    fn want(&mut self, wanted: Token) -> Result<(), SyntaxError>
        ensures left { NoLonger self.old self.new }
        ensures operators { self.new.operators ≡ self.old.operators }
        ensures run { (k : Steps) → Gives (λ _. run self.new.end k self.new.rest.now) result (run self.old.end (Want wanted k) self.old.rest.now) }
    {
        match self.takes(wanted) {
            None => Err(self.refuse(FaultKind::Expected)),
            Some(_) => Ok(()),
        }
    }

    pub fn keyword(&mut self, word: Keyword) -> Result<(), SyntaxError>
        ensures left { NoLonger self.old self.new }
        ensures run { (k : Steps) → Gives (λ _. run self.new.end k self.new.rest.now) result (run self.old.end (Want (token.Keyword word) k) self.old.rest.now) }
    {
        self.want(Token::Keyword(word))
    }

    pub fn symbol(&mut self, sign: Symbol) -> Result<(), SyntaxError>
        ensures left { NoLonger self.old self.new }
        ensures operators { self.new.operators ≡ self.old.operators }
        ensures run { (k : Steps) → Gives (λ _. run self.new.end k self.new.rest.now) result (run self.old.end (Want (token.Symbol sign) k) self.old.rest.now) }
    {
        self.want(Token::Symbol(sign))
    }

    // Takes the name that comes next.
    pub fn takes_name(&mut self) -> Option<NameNode>
        ensures end { self.new.end ≡ self.old.end }
        ensures operators { self.new.operators ≡ self.old.operators }
        ensures name { MatchOption result ((self.new.rest ≡ self.old.rest) × IsNoName self.old.rest.now) (λ n. self.old.rest.now ≡ name_token n ∷ self.new.rest.now) }
    {
        let Some((first, rest)) = split_first(self.rest) else {
            return None;
        };
        let at = first.at;
        let Some(name) = name_of(first.token) else {
            return None;
        };
        self.rest = rest;
        Some(NameNode { at, name })
    }

    pub fn name(&mut self) -> Result<NameNode, SyntaxError>
        ensures left { NoLonger self.old self.new }
        ensures run { Goes (WantName Plain) self.old self.new result }
    {
        match self.takes_name() {
            None => Err(self.refuse(FaultKind::Expected)),
            Some(name) => Ok(name),
        }
    }

    // Takes the type that comes next.
    fn takes_type(&mut self) -> Option<Ty>
        ensures end { self.new.end ≡ self.old.end }
        ensures ty { MatchOption result ((self.new.rest ≡ self.old.rest) × IsNoType self.old.rest.now) (λ y. IsType y self.old.rest.now self.new.rest.now) }
    {
        let Some((first, rest)) = split_first(self.rest) else {
            return None;
        };
        let Some(ty) = type_of(&first.token) else {
            return None;
        };
        self.rest = rest;
        Some(ty)
    }

    pub fn ty(&mut self) -> Result<Ty, SyntaxError>
        ensures left { NoLonger self.old self.new }
        ensures run { Goes WantType self.old self.new result }
    {
        match self.takes_type() {
            None => Err(self.refuse(FaultKind::Expected)),
            Some(ty) => Ok(ty),
        }
    }

    /// The literal that comes next.
    pub fn literal(&mut self) -> Result<LiteralNode, SyntaxError>
        ensures left { NoLonger self.old self.new }
        ensures shorter { OnOk result (IsShorter self.old self.new) }
        ensures operators { self.new.operators ≡ self.old.operators }
        ensures run { Goes WantLiteral self.old self.new result }
    {
        let Some((first, after)) = split_first(self.rest) else {
            return Err(self.refuse(FaultKind::Expected));
        };
        let at = first.at;
        if let Some((value, rest)) = int_or_text(self.rest) {
            self.rest = rest;
            return Ok(LiteralNode { at, value });
        }
        if let Some(truth) = bool_of(&first.token) {
            self.rest = after;
            let value = Value::Bool(truth);
            return Ok(LiteralNode { at, value });
        }
        // After a `-` the fault is that of the next token.
        let _minus = self.takes_symbol(Symbol::Minus);
        Err(self.refuse(FaultKind::Expected))
    }
}
