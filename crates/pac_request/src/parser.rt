// Reads the tokens of a request line from left to right, and stops at the first that can't follow.
ghost use Rattle.std.specs.Prelude.{◌≡◌, ◌∷◌, [], MatchOption, OnOk, IfOk, Ok};
ghost use Rattle.pac_base.specs.Refusals.{Gives, Reports};
ghost use Rattle.pac_base.specs.declared.refusal.Refusal.TheVariants as error;
ghost use Rattle.pac_tokens.specs.declared.token.Token.TheVariants as token;
ghost use Rattle.pac_syntax.specs.Views.{Begins, IsNot, IsNoName, name_token};
ghost use Rattle.pac_request.specs.declared.node.LineNode.TheVariants as said;
ghost use Rattle.pac_request.specs.declared.node.Verb.TheVariants as verb;
ghost use Rattle.pac_syntax.specs.declared.tree.NameNode.{NameNode as ANameNode};
ghost use Rattle.pac_request.specs.declared.node.PlacedLiteral.{PlacedLiteral as APlacedLiteral};
ghost use Rattle.pac_request.specs.RequestMeaning.{HoldsRecords};
ghost use Rattle.pac_request.specs.LineSteps.{LineSteps, LineEnds, ThisSymbol, SomeName, SomeLiteral, MoreLiterals, AllArguments, SomeRecord, AnyLine, verb_in, verb_steps, record_word, named_cell_steps, row_steps, put_record_steps, delete_record_steps, fault_here, line_run, tokens_read, LeavesNoMore, ReadsOn, ReadsAllOn};

use crate::fault::{LineFault, LineFaultKind, line_fault};
use crate::node::{LineNode, PlacedLiteral, RecordNode, Verb};
use pac_base::{Refusal, listed};
use pac_ops::MAX_RECORDS;
use pac_syntax::{NameNode, bool_of, is_same_keyword_or_symbol, name_of, split_first};
use pac_tokens::{Keyword, Lexed, Spanned, Symbol, Token, int_or_text};
use pac_value::Value;
use std::alloc::Global;

/// What is left to read.
#[derive(Drop)]
pub(crate) struct LineParser<'a> {
    pub alloc: Global,
    pub rest: &'a [Spanned],
    /// What is reported where the tokens end too early: that at the line's end, or the fault of a token that ends them.
    pub end: LineFault,
}

// The word that a line begins with.
fn verb_of(token: &Token) -> Option<Verb>
    ensures { result ≡ verb_in token.now }
{
    let Token::Name(name) = token else {
        return None;
    };
    let word = name.bytes();
    if word == Verb::Call.word() {
        Some(Verb::Call)
    } else if word == Verb::AdHoc.word() {
        Some(Verb::AdHoc)
    } else if word == Verb::Show.word() {
        Some(Verb::Show)
    } else if word == Verb::Flush.word() {
        Some(Verb::Flush)
    } else if word == Verb::Save.word() {
        Some(Verb::Save)
    } else if word == Verb::Stop.word() {
        Some(Verb::Stop)
    } else {
        None
    }
}

// The word that a record begins with.
#[derive(Clone, Copy, Debug, PartialEq, Eq)]
pub(crate) enum RecordWord {
    Put,
    Delete,
}

fn record_word(token: &Token) -> Option<RecordWord>
    ensures { result ≡ record_word token.now }
{
    let Token::Keyword(word) = token else {
        return None;
    };
    match word {
        Keyword::Put => Some(RecordWord::Put),
        Keyword::Delete => Some(RecordWord::Delete),
        _ => None,
    }
}

impl<'a> LineParser<'a> {
    // The next token, or the end, can't follow.
    fn refuse(&self) -> Refusal<LineFault>
        ensures { result ≡ error.Fault (fault_here self.now.end self.now.rest.now) }
    {
        match split_first(self.rest) {
            None => Refusal::Fault(self.end),
            Some((first, _)) => Refusal::Fault(LineFault {
                at: first.at,
                kind: LineFaultKind::Expected,
            }),
        }
    }

    // Takes this symbol and answers its offset, where it comes next.
    fn takes(&mut self, sign: Symbol) -> Option<usize>
        ensures end { self.new.end ≡ self.old.end }
        ensures token { MatchOption result ((self.new.rest ≡ self.old.rest) × IsNot (token.Symbol sign) self.old.rest.now) (λ at. Begins (token.Symbol sign) at self.old.rest.now self.new.rest.now) }
    {
        let Some((first, rest)) = split_first(self.rest) else {
            return None;
        };
        if !is_same_keyword_or_symbol(&Token::Symbol(sign), &first.token) {
            return None;
        }
        self.rest = rest;
        Some(first.at)
    }

    fn sign(&mut self, sign: Symbol) -> Result<(), Refusal<LineFault>>
        ensures left { LeavesNoMore self.old self.new }
        ensures run { (k : LineSteps) → Gives (λ _. line_run self.new.end k self.new.rest.now) result (line_run self.old.end (ThisSymbol sign k) self.old.rest.now) }
    {
        match self.takes(sign) {
            None => Err(self.refuse()),
            Some(_) => Ok(()),
        }
    }

    // Takes the name that comes next.
    fn takes_name(&mut self) -> Option<NameNode>
        ensures end { self.new.end ≡ self.old.end }
        ensures name { MatchOption result ((self.new.rest ≡ self.old.rest) × IsNoName self.old.rest.now) (λ n. self.old.rest.now ≡ name_token n ∷ self.new.rest.now) }
    {
        let Some((first, rest)) = split_first(self.rest) else {
            return None;
        };
        let at = first.at;
        let Some(name) = name_of(first.token) else {
            return None;
        };
        self.rest = rest;
        Some(NameNode { at, name })
    }

    fn name(&mut self) -> Result<NameNode, Refusal<LineFault>>
        ensures left { LeavesNoMore self.old self.new }
        ensures run { ReadsOn SomeName self.old self.new result }
    {
        match self.takes_name() {
            None => Err(self.refuse()),
            Some(name) => Ok(name),
        }
    }

    fn literal(&mut self) -> Result<PlacedLiteral, Refusal<LineFault>>
        ensures left { LeavesNoMore self.old self.new }
        ensures run { ReadsOn SomeLiteral self.old self.new result }
    {
        let Some((first, after)) = split_first(self.rest) else {
            return Err(self.refuse());
        };
        let at = first.at;
        if let Some((value, rest)) = int_or_text(self.rest) {
            self.rest = rest;
            return Ok(PlacedLiteral { at, value });
        }
        if let Some(truth) = bool_of(&first.token) {
            self.rest = after;
            let value = Value::Bool(truth);
            return Ok(PlacedLiteral { at, value });
        }
        // After a `-` the fault is that of the next token.
        let _minus = self.takes(Symbol::Minus);
        Err(self.refuse())
    }

    // { "," lit } ")" after a first one.
    fn more_literals(
        &mut self,
        at: usize,
        value: Value,
    ) -> Result<Vec<PlacedLiteral>, Refusal<LineFault>>
        ensures left { LeavesNoMore self.old self.new }
        ensures run { ReadsAllOn (MoreLiterals (record { at = at; value = value } ∷ [])) self.old self.new result }
    {
        let mut literals = Vec::new(self.alloc);
        literals.push(PlacedLiteral { at, value })?;
        while let Some(_) = self.takes(Symbol::Comma) {
            let PlacedLiteral { at, value } = self.literal()?;
            literals.push(PlacedLiteral { at, value })?;
        }
        self.sign(Symbol::CloseParen)?;
        Ok(literals)
    }

    // [ lit { "," lit } ] ")"
    fn arguments(&mut self) -> Result<Vec<PlacedLiteral>, Refusal<LineFault>>
        ensures run { ReadsAllOn AllArguments self.old self.new result }
    {
        if let Some(_) = self.takes(Symbol::CloseParen) {
            return Ok(Vec::new(self.alloc));
        }
        let PlacedLiteral { at, value } = self.literal()?;
        self.more_literals(at, value)
    }

    // NAME "[" lit "]"
    fn cell(&mut self) -> Result<(NameNode, PlacedLiteral), Refusal<LineFault>>
        ensures left { OnOk result (LeavesNoMore self.old self.new) }
        ensures run { (k : ANameNode → APlacedLiteral → LineSteps) → Gives (λ read. line_run self.new.end (k read.0 read.1) self.new.rest.now) result (line_run self.old.end (named_cell_steps k) self.old.rest.now) }
    {
        let name = self.name()?;
        self.sign(Symbol::OpenBracket)?;
        let key = self.literal()?;
        self.sign(Symbol::CloseBracket)?;
        Ok((name, key))
    }

    // "=" "(" lit { "," lit } ")"
    fn row(&mut self) -> Result<Vec<PlacedLiteral>, Refusal<LineFault>>
        ensures left { OnOk result (LeavesNoMore self.old self.new) }
        ensures run { ReadsAllOn row_steps self.old self.new result }
    {
        self.sign(Symbol::Assign)?;
        self.sign(Symbol::OpenParen)?;
        let PlacedLiteral { at, value } = self.literal()?;
        self.more_literals(at, value)
    }

    fn put(&mut self) -> Result<RecordNode, Refusal<LineFault>>
        ensures left { OnOk result (LeavesNoMore self.old self.new) }
        ensures run { ReadsOn put_record_steps self.old self.new result }
    {
        let (table, key) = self.cell()?;
        let values = listed(self.row()?);
        Ok(RecordNode::Put { table, key, values })
    }

    fn delete(&mut self) -> Result<RecordNode, Refusal<LineFault>>
        ensures left { OnOk result (LeavesNoMore self.old self.new) }
        ensures run { ReadsOn delete_record_steps self.old self.new result }
    {
        let (table, key) = self.cell()?;
        Ok(RecordNode::Delete { table, key })
    }

    fn record(&mut self) -> Result<RecordNode, Refusal<LineFault>>
        ensures left { OnOk result (LeavesNoMore self.old self.new) }
        ensures run { ReadsOn SomeRecord self.old self.new result }
    {
        let Some((first, after)) = split_first(self.rest) else {
            return Err(self.refuse());
        };
        let Some(word) = record_word(&first.token) else {
            return Err(self.refuse());
        };
        self.rest = after;
        match word {
            RecordWord::Put => self.put(),
            RecordWord::Delete => self.delete(),
        }
    }

    // record { ";" record }, up to 64.
    fn records(&mut self) -> Result<Vec<RecordNode>, Refusal<LineFault>>
        ensures run { Gives (λ records. line_run self.new.end (LineEnds (said.AdHoc records.items)) self.new.rest.now) result (line_run self.old.end (verb_steps verb.AdHoc) self.old.rest.now) }
    {
        let mut records = Vec::new(self.alloc);
        let first = self.record()?;
        records.push(first)?;
        loop {
            if records.len() >= MAX_RECORDS {
                return Ok(records);
            }
            let Some(_) = self.takes(Symbol::Semicolon) else {
                return Ok(records);
            };
            let record = self.record()?;
            records.push(record)?;
        }
    }

    fn call(&mut self) -> Result<LineNode, Refusal<LineFault>>
        ensures run { Gives (λ node. line_run self.new.end (LineEnds node) self.new.rest.now) result (line_run self.old.end (verb_steps verb.Call) self.old.rest.now) }
    {
        let proc = self.name()?;
        self.sign(Symbol::OpenParen)?;
        let args = listed(self.arguments()?);
        Ok(LineNode::Call { proc, args })
    }

    // A line after its word.
    fn after(&mut self, verb: Verb) -> Result<LineNode, Refusal<LineFault>>
        ensures run { Gives (λ node. line_run self.new.end (LineEnds node) self.new.rest.now) result (line_run self.old.end (verb_steps verb) self.old.rest.now) }
    {
        match verb {
            Verb::Call => self.call(),
            Verb::AdHoc => {
                let records = listed(self.records()?);
                Ok(LineNode::AdHoc { records })
            }
            Verb::Show => {
                let (table, key) = self.cell()?;
                Ok(LineNode::Show { table, key })
            }
            Verb::Flush => Ok(LineNode::Flush),
            Verb::Save => Ok(LineNode::Save),
            Verb::Stop => Ok(LineNode::Stop),
        }
    }

    /// What the line says.
    pub fn line(&mut self) -> Result<LineNode, Refusal<LineFault>>
        ensures { Gives (λ node. Ok node) result (line_run self.old.end AnyLine self.old.rest.now) }
    {
        let Some((first, after)) = split_first(self.rest) else {
            return Ok(LineNode::Empty);
        };
        let Some(verb) = verb_of(&first.token) else {
            return Err(self.refuse());
        };
        self.rest = after;
        let said = self.after(verb)?;
        match split_first(self.rest) {
            None => Ok(said),
            Some(_) => Err(self.refuse()),
        }
    }
}

// What the tokens of a line with that many bytes say.
fn said_by(alloc: Global, lexed: &Lexed, end: usize) -> Result<LineNode, Refusal<LineFault>>
    ensures { Reports (λ node. node) result (tokens_read end lexed.now.items.items lexed.now.fault) }
{
    match lexed.fault {
        None => {
            let kind = LineFaultKind::Expected;
            let end = LineFault { at: end, kind };
            run_parser(alloc, &lexed.items, end)
        }
        Some(fault) => {
            let end = line_fault(fault);
            let _node = run_parser(alloc, &lexed.items, end)?;
            Err(Refusal::Fault(end))
        }
    }
}

fn run_parser(
    alloc: Global,
    tokens: &[Spanned],
    end: LineFault,
) -> Result<LineNode, Refusal<LineFault>>
    ensures { Reports (λ node. node) result (line_run end AnyLine tokens.now) }
{
    let mut parser = LineParser {
        alloc,
        rest: tokens,
        end,
    };
    parser.line()
}

/// What the tokens of a line with that many bytes say.
///
/// # Errors
///
/// The first of them that can't follow, or the fault of a token that ends them; or `NoMemory`.
pub(crate) fn parse_line(
    alloc: Global,
    lexed: &Lexed,
    end: usize,
) -> Result<LineNode, Refusal<LineFault>>
    ensures read { Reports (λ node. node) result (tokens_read end lexed.now.items.items lexed.now.fault) }
    ensures records { IfOk result HoldsRecords }
{
    said_by(alloc, lexed, end)
}
