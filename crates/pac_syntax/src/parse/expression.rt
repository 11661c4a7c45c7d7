// Reads expressions.
ghost use Rattle.std.specs.Prelude.{◌≡◌, ◌<◌, ◌≤◌, ◌+◌, ℕ, false, Some, None, MatchOption, OnOk, IfOk, IfErr, IfSome};
ghost use Rattle.pac_base.specs.Refusals.{Gives, OkUnlessMemory};
ghost use Rattle.pac_syntax.specs.Machine.{Steps, Begun, Level, begun_binary, operator_in, want_expr, negation_steps, paren_steps, run, either};
ghost use Rattle.pac_syntax.specs.Grammar.{precedence as precedence_of};
ghost use Rattle.pac_syntax.specs.Views.{begun_at, between, rests, next_precedence, operand_in, IsNot, IsNoName, Goes, NoLonger, IsShorter};
ghost use Rattle.pac_tokens.specs.declared.token.Token.TheVariants as token;
ghost use Rattle.pac_tokens.specs.declared.token.Symbol.TheVariants as symbol;
ghost use Rattle.pac_tokens.specs.declared.fault.FaultKind.TheVariants.{TooMany};
ghost use Rattle.pac_base.specs.declared.refusal.Refusal.TheVariants as error;
ghost use Rattle.pac_syntax.specs.declared.tree.ExprNode.{ExprNode as AnExprNode};

use super::parser::{Operand, Parser};
use crate::limits::{MAX_OPERATORS, MAX_PARENS};
use crate::operator::{next_precedence, operator_by, precedence_of};
use crate::single::split_first;
use crate::tree::{ExprNode, LiteralNode, NameNode};
use pac_base::Boxed;
use pac_tokens::{Fault, FaultKind, Symbol, SyntaxError, Token};
use pac_value::{BinOp, Value};

// The level of any expression.
const EXPRESSION: u8 = 5;

// The operator that a token is, where its precedence is from this one on and below a level.
fn operator_between(precedence: u8, level: u8, token: &Token) -> Option<BinOp>
    ensures { result ≡ between precedence level (operator_in token.now) }
{
    let Token::Symbol(sign) = token else {
        return None;
    };
    let op = operator_by(*sign)?;
    let own = precedence_of(op);
    if precedence <= own && own < level {
        Some(op)
    } else {
        None
    }
}

// The operand that a name or an int is.
fn operand_of(token: Token, at: usize) -> Option<Operand>
    ensures { MatchOption result (operand_in token at ≡ None) (λ x. operand_in token at ≡ Some (begun_at x)) }
{
    let expr = match token {
        Token::Name(name) => ExprNode::Name(NameNode { at, name }),
        Token::Int(value) => ExprNode::Literal(LiteralNode {
            at,
            value: Value::Int(value),
        }),
        _ => return None,
    };
    Some(Operand { from: at, expr })
}

impl<'a> Parser<'a> {
    // One more operator, at this offset.
    fn count(&mut self, at: usize) -> Result<(), SyntaxError>
        ensures end { self.new.end ≡ self.old.end }
        ensures rest { self.new.rest ≡ self.old.rest }
        ensures ok { OnOk result ((self.old.operators < MAX_OPERATORS) × (self.new.operators ≡ self.old.operators + 1)) }
        ensures err { IfErr result (λ e. (MAX_OPERATORS ≤ self.old.operators) × (e ≡ error.Fault (record { at = at; kind = TooMany }))) }
    {
        if self.operators >= MAX_OPERATORS {
            let kind = FaultKind::TooMany;
            return Err(SyntaxError::Fault(Fault { at, kind }));
        }
        self.operators += 1;
        Ok(())
    }

    // Whether an operator below a level comes next.
    fn sees_operator(&self, level: u8) -> bool
        ensures { (d : ℕ) (x : Begun) (k : Begun → ℕ → Steps) (o : ℕ) → result ≡ false → run self.now.end (rests d 0 level k x o) self.now.rest.now ≡ run self.now.end (k x o) self.now.rest.now }
    {
        let Some((first, _)) = split_first(self.rest) else {
            return false;
        };
        operator_between(0, level, &first.token).is_some()
    }

    // The operator that comes next, where its precedence is from this one on and below a level, which is taken.
    fn operator(&mut self, precedence: u8, level: u8) -> Result<Option<BinOp>, SyntaxError>
        ensures left { NoLonger self.old self.new }
        ensures shorter { IfOk result (λ o. IfSome o (λ _. IsShorter self.old self.new)) }
        ensures run { (d : ℕ) (x : Begun) (k : Begun → ℕ → Steps) → Gives (λ o. either o (run self.new.end (k x self.new.operators) self.new.rest.now) (λ op. run self.new.end (Level d (precedence_of op) self.new.operators (λ y o. rests d (next_precedence (precedence_of op)) level k (begun_binary op x y) o)) self.new.rest.now)) result (run self.old.end (rests d precedence level k x self.old.operators) self.old.rest.now) }
    {
        let Some((first, rest)) = split_first(self.rest) else {
            return Ok(None);
        };
        let Some(op) = operator_between(precedence, level, &first.token) else {
            return Ok(None);
        };
        self.count(first.at)?;
        self.rest = rest;
        Ok(Some(op))
    }

    // Takes the name or the int that comes next.
    fn takes_operand(&mut self) -> Option<Operand>
        ensures end { self.new.end ≡ self.old.end }
        ensures operators { self.new.operators ≡ self.old.operators }
        ensures shorter { IfSome result (λ _. IsShorter self.old self.new) }
        ensures run { MatchOption result ((self.new.rest ≡ self.old.rest) × IsNoName self.old.rest.now) (λ x. (d : ℕ) (k : Begun → ℕ → Steps) → run self.old.end (Level d 0 self.old.operators k) self.old.rest.now ≡ run self.new.end (k (begun_at x) self.new.operators) self.new.rest.now) }
    {
        let Some((first, rest)) = split_first(self.rest) else {
            return None;
        };
        let Some(operand) = operand_of(first.token, first.at) else {
            return None;
        };
        self.rest = rest;
        Some(operand)
    }

    // A literal as an operand.
    fn operand(&mut self, parens: u8) -> Result<Operand, SyntaxError>
        requires no_negation { IsNot (token.Symbol symbol.Not) self.old.rest.now }
        requires no_paren { IsNot (token.Symbol symbol.OpenParen) self.old.rest.now }
        requires no_name { IsNoName self.old.rest.now }
        ensures shorter { OnOk result (IsShorter self.old self.new) }
        ensures run { (k : Begun → ℕ → Steps) → Gives (λ x. run self.new.end (k (begun_at x) self.new.operators) self.new.rest.now) result (run self.old.end (Level parens 0 self.old.operators k) self.old.rest.now) }
    {
        let literal = self.literal()?;
        let from = literal.at;
        let expr = ExprNode::Literal(literal);
        Ok(Operand { from, expr })
    }

    // An operand, with its negations and parentheses. Mostly it is a name or an int, for which one look is enough.
    #[cycle(expression)]
    fn unary(&mut self, parens: u8) -> Result<Operand, SyntaxError>
        ensures shorter { OnOk result (IsShorter self.old self.new) }
        ensures run { (k : Begun → ℕ → Steps) → Gives (λ x. run self.new.end (k (begun_at x) self.new.operators) self.new.rest.now) result (run self.old.end (Level parens 0 self.old.operators k) self.old.rest.now) }
    {
        if let Some(operand) = self.takes_operand() {
            return Ok(operand);
        }
        self.other_operand(parens)
    }

    // An operand that is no name.
    #[cycle(expression)]
    fn other_operand(&mut self, parens: u8) -> Result<Operand, SyntaxError>
        requires { IsNoName self.old.rest.now }
        ensures shorter { OnOk result (IsShorter self.old self.new) }
        ensures run { (k : Begun → ℕ → Steps) → Gives (λ x. run self.new.end (k (begun_at x) self.new.operators) self.new.rest.now) result (run self.old.end (Level parens 0 self.old.operators k) self.old.rest.now) }
    {
        if let Some(at) = self.takes_symbol(Symbol::Not) {
            self.count(at)?;
            return self.negation(parens, at);
        }
        if let Some(at) = self.takes_symbol(Symbol::OpenParen) {
            if parens >= MAX_PARENS {
                let kind = FaultKind::TooDeep;
                return Err(SyntaxError::Fault(Fault { at, kind }));
            }
            return self.enclosed(parens + 1, at);
        }
        self.operand(parens)
    }

    // What stands after the `!` at this offset.
    #[cycle(expression)]
    fn negation(&mut self, parens: u8, at: usize) -> Result<Operand, SyntaxError>
        ensures left { OnOk result (NoLonger self.old self.new) }
        ensures run { (k : Begun → ℕ → Steps) → Gives (λ x. run self.new.end (k (begun_at x) self.new.operators) self.new.rest.now) result (run self.old.end (negation_steps at parens self.old.operators k) self.old.rest.now) }
    {
        let operand = self.unary(parens)?;
        let operand = Boxed::new(self.alloc, operand.expr)?;
        let expr = ExprNode::Not { at, operand };
        Ok(Operand { from: at, expr })
    }

    // What stands after the `(` at this offset.
    #[cycle(expression)]
    fn enclosed(&mut self, parens: u8, at: usize) -> Result<Operand, SyntaxError>
        ensures left { OnOk result (NoLonger self.old self.new) }
        ensures run { (k : Begun → ℕ → Steps) → Gives (λ x. run self.new.end (k (begun_at x) self.new.operators) self.new.rest.now) result (run self.old.end (paren_steps at parens self.old.operators k) self.old.rest.now) }
    {
        let inner = self.whole(parens)?;
        self.symbol(Symbol::CloseParen)?;
        Ok(Operand {
            from: at,
            expr: inner.expr,
        })
    }

    // Any expression. Mostly it is an operand alone, which is handed on as it is.
    #[cycle(expression)]
    fn whole(&mut self, parens: u8) -> Result<Operand, SyntaxError>
        ensures shorter { OnOk result (IsShorter self.old self.new) }
        ensures run { (k : Begun → ℕ → Steps) → Gives (λ x. run self.new.end (k (begun_at x) self.new.operators) self.new.rest.now) result (run self.old.end (Level parens 5 self.old.operators k) self.old.rest.now) }
    {
        let left = self.unary(parens)?;
        if !self.sees_operator(EXPRESSION) {
            return Ok(left);
        }
        self.chain(parens, EXPRESSION, left)
    }

    // An operand, and as many more as operators below a level join to it. The left operand stays where it is, and a right
    // one is read further only where an operator that binds tighter stands after it.
    #[cycle(expression)]
    fn chain(&mut self, parens: u8, level: u8, first: Operand) -> Result<Operand, SyntaxError>
        ensures left { OnOk result (NoLonger self.old self.new) }
        ensures run { (k : Begun → ℕ → Steps) → Gives (λ x. run self.new.end (k (begun_at x) self.new.operators) self.new.rest.now) result (run self.old.end (rests parens 0 level k (begun_at first) self.old.operators) self.old.rest.now) }
    {
        let mut left = first;
        let mut precedence = 0;
        while let Some(op) = self.operator(precedence, level)? {
            let own = precedence_of(op);
            let mut right = self.unary(parens)?;
            if self.sees_operator(own) {
                right = self.chain(parens, own, right)?;
            }
            left = self.joined(op, left, right)?;
            precedence = next_precedence(own);
        }
        Ok(left)
    }

    fn joined(&self, op: BinOp, left: Operand, right: Operand) -> Result<Operand, SyntaxError>
        ensures { OkUnlessMemory result (λ x. begun_at x ≡ begun_binary op (begun_at left) (begun_at right)) }
    {
        let from = left.from;
        let left = Boxed::new(self.alloc, left.expr)?;
        let right = Boxed::new(self.alloc, right.expr)?;
        let expr = ExprNode::Binary {
            at: from,
            op,
            left,
            right,
        };
        Ok(Operand { from, expr })
    }

    /// A whole expression.
    pub fn expression(&mut self) -> Result<ExprNode, SyntaxError>
        ensures left { OnOk result (NoLonger self.old self.new) }
        ensures run { Goes want_expr self.old self.new result }
    {
        self.operators = 0;
        let whole = self.whole(0)?;
        Ok(whole.expr)
    }
}
