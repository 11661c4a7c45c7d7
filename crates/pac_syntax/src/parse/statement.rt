// Reads statements.
ghost use Rattle.std.specs.Prelude.{◌≡◌, ◌∷◌, ◌++◌, [], ◌<◌, false, ℤ, List, Option, OnOk, IfOk, IfSome};
ghost use Rattle.pac_base.specs.Refusals.{Gives};
ghost use Rattle.pac_syntax.specs.Grammar.{Role};
ghost use Rattle.pac_syntax.specs.Machine.{Steps, MaybeElse, WantBound, MoreStmts, MoreValues, abort_steps, block_steps, bounds_steps, delete_steps, for_steps, has_steps, if_steps, let_steps, cell_steps, field_steps, put_steps, read_steps, set_steps, stmt_steps, stmt_word, run, either, values_steps};
ghost use Rattle.pac_syntax.specs.Views.{is_too_deep, fault_or, IsLimit, Goes, GoesAll, NoLonger, IsShorter};
ghost use Rattle.pac_syntax.specs.declared.limits.Around.{Around as AnAround};
ghost use Rattle.pac_tokens.specs.declared.fault.Fault.{Fault as AFault};
ghost use Rattle.pac_syntax.specs.declared.tree.ExprNode.{ExprNode as AnExprNode};
ghost use Rattle.pac_syntax.specs.declared.tree.NameNode.{NameNode as ANameNode};
ghost use Rattle.pac_syntax.specs.declared.tree.StmtNode.{StmtNode as AStmtNode};

use super::parser::Parser;
use crate::limits::{Around, MAX_NESTED};
use crate::single::split_first;
use crate::tree::{ExprNode, NameNode, StmtNode};
use pac_base::listed;
use pac_tokens::{Fault, FaultKind, Keyword, Symbol, SyntaxError, Token, int_or_text};
use pac_value::Value;

/// The word that begins a statement.
#[derive(Clone, Copy, Debug, PartialEq, Eq)]
pub(crate) enum StatementWord {
    Let,
    Read,
    Has,
    Put,
    Set,
    Delete,
    Abort,
    If,
    For,
}

fn statement_word(token: &Token) -> Option<StatementWord>
    ensures { result ≡ stmt_word token.now }
{
    let Token::Keyword(word) = token else {
        return None;
    };
    match word {
        Keyword::Let => Some(StatementWord::Let),
        Keyword::Read => Some(StatementWord::Read),
        Keyword::Has => Some(StatementWord::Has),
        Keyword::Put => Some(StatementWord::Put),
        Keyword::Set => Some(StatementWord::Set),
        Keyword::Delete => Some(StatementWord::Delete),
        Keyword::Abort => Some(StatementWord::Abort),
        Keyword::If => Some(StatementWord::If),
        Keyword::For => Some(StatementWord::For),
        _ => None,
    }
}

// Whether a statement that begins with this word is a conditional or loop in too many others.
fn stands_too_deep(around: Around, word: StatementWord) -> bool
    ensures { result ≡ is_too_deep around word }
{
    match word {
        StatementWord::If | StatementWord::For => around.nested >= MAX_NESTED,
        _ => false,
    }
}

impl<'a> Parser<'a> {
    // TABLE "[" KEY "]"
    fn cell(&mut self) -> Result<(NameNode, ExprNode), SyntaxError>
        ensures left { OnOk result (NoLonger self.old self.new) }
        ensures run { (k : ANameNode → AnExprNode → Steps) → Gives (λ p. run self.new.end (k p.0 p.1) self.new.rest.now) result (run self.old.end (cell_steps k) self.old.rest.now) }
    {
        let table = self.name()?;
        self.symbol(Symbol::OpenBracket)?;
        let key = self.expression()?;
        self.symbol(Symbol::CloseBracket)?;
        Ok((table, key))
    }

    // TABLE "[" KEY "]" "." COLUMN
    fn field(&mut self) -> Result<(NameNode, ExprNode, NameNode), SyntaxError>
        ensures left { OnOk result (NoLonger self.old self.new) }
        ensures run { (k : ANameNode → AnExprNode → ANameNode → Steps) → Gives (λ p. run self.new.end (k p.0 p.1 p.2) self.new.rest.now) result (run self.old.end (field_steps k) self.old.rest.now) }
    {
        let (table, key) = self.cell()?;
        self.symbol(Symbol::Dot)?;
        let column = self.name()?;
        Ok((table, key, column))
    }

    // "(" VALUE { "," VALUE } ")"
    fn values(&mut self) -> Result<Vec<ExprNode>, SyntaxError>
        ensures left { OnOk result (NoLonger self.old self.new) }
        ensures run { GoesAll values_steps self.old self.new result }
    {
        self.symbol(Symbol::OpenParen)?;
        let first = self.expression()?;
        let values = self.more_values(first)?;
        self.symbol(Symbol::CloseParen)?;
        Ok(values)
    }

    // { "," VALUE } after a first one
    fn more_values(&mut self, first: ExprNode) -> Result<Vec<ExprNode>, SyntaxError>
        ensures left { OnOk result (NoLonger self.old self.new) }
        ensures run { GoesAll (MoreValues (first ∷ [])) self.old self.new result }
    {
        let mut values = Vec::new(self.alloc);
        values.push(first)?;
        while let Some(_) = self.takes_symbol(Symbol::Comma) {
            let value = self.expression()?;
            values.push(value)?;
        }
        Ok(values)
    }

    // A `let`, after its word.
    fn let_rest(&mut self) -> Result<StmtNode, SyntaxError>
        ensures left { OnOk result (NoLonger self.old self.new) }
        ensures run { Goes let_steps self.old self.new result }
    {
        let name = self.name()?;
        self.symbol(Symbol::Assign)?;
        let value = self.expression()?;
        self.symbol(Symbol::Semicolon)?;
        Ok(StmtNode::Let { name, value })
    }

    // A `read`, after its word.
    fn read_rest(&mut self) -> Result<StmtNode, SyntaxError>
        ensures left { OnOk result (NoLonger self.old self.new) }
        ensures run { Goes read_steps self.old self.new result }
    {
        let name = self.name()?;
        self.symbol(Symbol::Assign)?;
        let (table, key, column) = self.field()?;
        self.keyword(Keyword::Default)?;
        let default = self.literal()?;
        self.symbol(Symbol::Semicolon)?;
        Ok(StmtNode::Read {
            name,
            table,
            key,
            column,
            default,
        })
    }

    // A `has`, after its word.
    fn has_rest(&mut self) -> Result<StmtNode, SyntaxError>
        ensures left { OnOk result (NoLonger self.old self.new) }
        ensures run { Goes has_steps self.old self.new result }
    {
        let name = self.name()?;
        self.symbol(Symbol::Assign)?;
        let (table, key) = self.cell()?;
        self.symbol(Symbol::Semicolon)?;
        Ok(StmtNode::Has { name, table, key })
    }

    // A `put`, after its word.
    fn put_rest(&mut self) -> Result<StmtNode, SyntaxError>
        ensures left { OnOk result (NoLonger self.old self.new) }
        ensures run { Goes put_steps self.old self.new result }
    {
        let (table, key) = self.cell()?;
        self.symbol(Symbol::Assign)?;
        let values = listed(self.values()?);
        self.symbol(Symbol::Semicolon)?;
        Ok(StmtNode::Put { table, key, values })
    }

    // A `set`, after its word.
    fn set_rest(&mut self) -> Result<StmtNode, SyntaxError>
        ensures left { OnOk result (NoLonger self.old self.new) }
        ensures run { Goes set_steps self.old self.new result }
    {
        let (table, key, column) = self.field()?;
        self.symbol(Symbol::Assign)?;
        let value = self.expression()?;
        self.symbol(Symbol::Semicolon)?;
        Ok(StmtNode::Set {
            table,
            key,
            column,
            value,
        })
    }

    // A `delete`, after its word.
    fn delete_rest(&mut self) -> Result<StmtNode, SyntaxError>
        ensures left { OnOk result (NoLonger self.old self.new) }
        ensures run { Goes delete_steps self.old self.new result }
    {
        let (table, key) = self.cell()?;
        self.symbol(Symbol::Semicolon)?;
        Ok(StmtNode::Delete { table, key })
    }

    // An `abort if`, after its first word.
    fn abort_rest(&mut self) -> Result<StmtNode, SyntaxError>
        ensures left { OnOk result (NoLonger self.old self.new) }
        ensures run { Goes abort_steps self.old self.new result }
    {
        self.keyword(Keyword::If)?;
        let test = self.expression()?;
        self.symbol(Symbol::Semicolon)?;
        Ok(StmtNode::AbortIf { test })
    }

    // [ "-" ] INT
    fn bound(&mut self) -> Result<i64, SyntaxError>
        ensures left { OnOk result (NoLonger self.old self.new) }
        ensures run { (role : ℤ → Role) (limit : ℤ → Option AFault) (k : ℤ → Steps) → IsLimit role limit → Gives (λ z. fault_or (limit z) (run self.new.end (k z) self.new.rest.now)) result (run self.old.end (WantBound role k) self.old.rest.now) }
    {
        let Some((value, rest)) = int_or_text(self.rest) else {
            // After a `-` the fault is that of the next token.
            let _minus = self.takes_symbol(Symbol::Minus);
            return Err(self.refuse(FaultKind::Expected));
        };
        let Value::Int(number) = value else {
            return Err(self.refuse(FaultKind::Expected));
        };
        self.rest = rest;
        Ok(number)
    }

    // The bounds of a loop whose `for` stands at that offset, and what stands round its block.
    fn bounds(&mut self, at: usize, around: Around) -> Result<(i64, i64, Around), SyntaxError>
        requires { around.nested < MAX_NESTED }
        ensures left { OnOk result (NoLonger self.old self.new) }
        ensures run { (k : ℤ → ℤ → AnAround → Steps) → Gives (λ p. run self.new.end (k p.0 p.1 p.2) self.new.rest.now) result (run self.old.end (bounds_steps around at k) self.old.rest.now) }
    {
        let from = self.bound()?;
        self.symbol(Symbol::Range)?;
        let to = self.bound()?;
        match around.in_loop(from, to) {
            None => {
                let kind = FaultKind::TooMany;
                Err(SyntaxError::Fault(Fault { at, kind }))
            }
            Some(inner) => Ok((from, to, inner)),
        }
    }

    // A loop, after its word, which stands at that offset.
    #[cycle(statement)]
    fn for_rest(&mut self, at: usize, around: Around) -> Result<StmtNode, SyntaxError>
        requires { around.nested < MAX_NESTED }
        ensures left { OnOk result (NoLonger self.old self.new) }
        ensures run { Goes (for_steps around at) self.old self.new result }
    {
        let name = self.name()?;
        self.keyword(Keyword::In)?;
        let (from, to, inner) = self.bounds(at, around)?;
        let body = listed(self.block(inner)?);
        Ok(StmtNode::For {
            name,
            from,
            to,
            body,
        })
    }

    // A conditional, after its word.
    #[cycle(statement)]
    fn if_rest(&mut self, around: Around) -> Result<StmtNode, SyntaxError>
        requires { around.nested < MAX_NESTED }
        ensures left { OnOk result (NoLonger self.old self.new) }
        ensures run { Goes (if_steps around) self.old self.new result }
    {
        let test = self.expression()?;
        let inner = around.inside();
        let first = listed(self.block(inner)?);
        let second = listed(self.otherwise(inner)?);
        Ok(StmtNode::If {
            test,
            first,
            second,
        })
    }

    // [ "else" block ]
    #[cycle(statement)]
    fn otherwise(&mut self, around: Around) -> Result<Vec<StmtNode>, SyntaxError>
        ensures left { OnOk result (NoLonger self.old self.new) }
        ensures run { GoesAll (MaybeElse around) self.old self.new result }
    {
        match self.takes_keyword(Keyword::Else) {
            None => Ok(Vec::new(self.alloc)),
            Some(_) => self.block(around),
        }
    }

    /// Statements in braces, with so much round them.
    #[cycle(statement)]
    pub fn block(&mut self, around: Around) -> Result<Vec<StmtNode>, SyntaxError>
        ensures left { OnOk result (NoLonger self.old self.new) }
        ensures run { GoesAll (block_steps around) self.old self.new result }
    {
        self.symbol(Symbol::OpenBrace)?;
        let body = self.statements(around)?;
        self.symbol(Symbol::CloseBrace)?;
        Ok(body)
    }

    // The word that begins the next statement and its offset, unless the statement is a conditional or loop in too many others.
    fn next_statement(
        &mut self,
        around: Around,
    ) -> Result<Option<(StatementWord, usize)>, SyntaxError>
        ensures left { NoLonger self.old self.new }
        ensures shorter { IfOk result (λ o. IfSome o (λ _. IsShorter self.old self.new)) }
        ensures within { IfOk result (λ o. IfSome o (λ w. is_too_deep around w.0 ≡ false)) }
        ensures run { (ss : List AStmtNode) (k : List AStmtNode → Steps) → Gives (λ o. either o (run self.new.end (k ss) self.new.rest.now) (λ w. run self.new.end (stmt_steps around w.1 w.0 (λ s. MoreStmts around (ss ++ (s ∷ [])) k)) self.new.rest.now)) result (run self.old.end (MoreStmts around ss k) self.old.rest.now) }
    {
        let Some((first, rest)) = split_first(self.rest) else {
            return Ok(None);
        };
        let Some(word) = statement_word(&first.token) else {
            return Ok(None);
        };
        if stands_too_deep(around, word) {
            return Err(self.refuse(FaultKind::TooDeep));
        }
        self.rest = rest;
        Ok(Some((word, first.at)))
    }

    // The statement after its first word, which stands at that offset.
    #[cycle(statement)]
    fn statement_rest(
        &mut self,
        word: StatementWord,
        at: usize,
        around: Around,
    ) -> Result<StmtNode, SyntaxError>
        requires { is_too_deep around word ≡ false }
        ensures left { OnOk result (NoLonger self.old self.new) }
        ensures run { Goes (stmt_steps around at word) self.old self.new result }
    {
        match word {
            StatementWord::Let => self.let_rest(),
            StatementWord::Read => self.read_rest(),
            StatementWord::Has => self.has_rest(),
            StatementWord::Put => self.put_rest(),
            StatementWord::Set => self.set_rest(),
            StatementWord::Delete => self.delete_rest(),
            StatementWord::Abort => self.abort_rest(),
            StatementWord::If => self.if_rest(around),
            StatementWord::For => self.for_rest(at, around),
        }
    }

    // Statements with so much round them, as many as there are.
    #[cycle(statement)]
    fn statements(&mut self, around: Around) -> Result<Vec<StmtNode>, SyntaxError>
        ensures left { OnOk result (NoLonger self.old self.new) }
        ensures run { GoesAll (MoreStmts around []) self.old self.new result }
    {
        let mut statements = Vec::new(self.alloc);
        while let Some((word, at)) = self.next_statement(around)? {
            let statement = self.statement_rest(word, at, around)?;
            statements.push(statement)?;
        }
        Ok(statements)
    }
}
