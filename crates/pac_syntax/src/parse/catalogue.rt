// Reads tables and procedures.
ghost use Rattle.std.specs.Prelude.{◌≡◌, ◌∷◌, [], ◌+◌, OnOk, IfOk, IsErrOf, Ok};
ghost use Rattle.pac_base.specs.Refusals.{Gives, Only};
ghost use Rattle.pac_base.specs.declared.refusal.Refusal.TheVariants as error;
ghost use Rattle.pac_syntax.specs.Machine.{Steps, MoreColumns, MoreProcs, MoreTables, SomeParams, column_steps, columns_steps, proc_steps, table_steps, typed_steps, start, run};
ghost use Rattle.pac_syntax.specs.Faults.{IsFirstFault, ReadsTokens};
ghost use Rattle.pac_syntax.specs.Views.{role_of, limit_of, Goes, GoesAll, NoLonger};
ghost use Rattle.pac_tokens.specs.declared.fault.Fault.{Fault as AFault};
ghost use Rattle.pac_syntax.specs.declared.tree.Tree.{Tree as ATree};
ghost use Rattle.pac_syntax.specs.declared.tree.ColumnNode.{ColumnNode as AColumnNode};
ghost use Rattle.pac_syntax.specs.declared.tree.ProcNode.{ProcNode as AProcNode};
ghost use Rattle.pac_syntax.specs.declared.tree.TableNode.{TableNode as ATableNode};

use super::parser::{Owner, Parser};
use crate::limits::Around;
use crate::single::split_first;
use crate::tree::{ColumnNode, NameNode, ProcNode, TableNode, Tree};
use pac_base::listed;
use pac_tokens::{Fault, FaultKind, Keyword, Spanned, Symbol, SyntaxError};
use pac_value::{MAX_COLUMNS, MAX_PARAMS, MAX_PROCS, MAX_TABLES};
use std::alloc::Global;

impl Owner {
    // How many columns or parameters there may be.
    fn limit(self) -> usize
        ensures { result ≡ limit_of self }
    {
        match self {
            Owner::Table => MAX_COLUMNS,
            Owner::Procedure => MAX_PARAMS,
        }
    }
}

impl<'a> Parser<'a> {
    // The type after a column's name.
    fn typed(&mut self, name: NameNode) -> Result<ColumnNode, SyntaxError>
        ensures left { OnOk result (NoLonger self.old self.new) }
        ensures run { Goes (typed_steps name) self.old self.new result }
    {
        let ty = self.ty()?;
        Ok(ColumnNode { name, ty })
    }

    // A column after that many others.
    fn column(&mut self, owner: Owner, before: usize) -> Result<ColumnNode, SyntaxError>
        ensures left { OnOk result (NoLonger self.old self.new) }
        ensures run { Goes (column_steps (role_of owner (before + 1))) self.old self.new result }
    {
        let Some(name) = self.takes_name() else {
            return Err(self.refuse(FaultKind::Expected));
        };
        if before >= owner.limit() {
            let at = name.at;
            let kind = FaultKind::TooMany;
            return Err(SyntaxError::Fault(Fault { at, kind }));
        }
        self.typed(name)
    }

    // { "," column } after a first one.
    fn more_columns(
        &mut self,
        owner: Owner,
        first: ColumnNode,
    ) -> Result<Vec<ColumnNode>, SyntaxError>
        ensures left { OnOk result (NoLonger self.old self.new) }
        ensures run { GoesAll (MoreColumns (role_of owner) 1 (first ∷ [])) self.old self.new result }
    {
        let mut columns = Vec::new(self.alloc);
        columns.push(first)?;
        while let Some(_) = self.takes_symbol(Symbol::Comma) {
            let column = self.column(owner, columns.len())?;
            columns.push(column)?;
        }
        Ok(columns)
    }

    // column { "," column }
    fn columns(&mut self) -> Result<Vec<ColumnNode>, SyntaxError>
        ensures left { OnOk result (NoLonger self.old self.new) }
        ensures run { GoesAll columns_steps self.old self.new result }
    {
        let first = self.column(Owner::Table, 0)?;
        self.more_columns(Owner::Table, first)
    }

    // [ column { "," column } ]
    fn params(&mut self) -> Result<Vec<ColumnNode>, SyntaxError>
        ensures left { OnOk result (NoLonger self.old self.new) }
        ensures run { GoesAll SomeParams self.old self.new result }
    {
        let Some(name) = self.takes_name() else {
            return Ok(Vec::new(self.alloc));
        };
        let first = self.typed(name)?;
        self.more_columns(Owner::Procedure, first)
    }

    // A table, after its word.
    fn table(&mut self) -> Result<TableNode, SyntaxError>
        ensures left { OnOk result (NoLonger self.old self.new) }
        ensures run { Goes table_steps self.old self.new result }
    {
        let name = self.name()?;
        self.symbol(Symbol::OpenParen)?;
        self.keyword(Keyword::Key)?;
        let key = self.ty()?;
        self.symbol(Symbol::Comma)?;
        let columns = listed(self.columns()?);
        self.symbol(Symbol::CloseParen)?;
        self.symbol(Symbol::Semicolon)?;
        Ok(TableNode { name, key, columns })
    }

    /// Tables, as many as there are.
    pub fn tables(&mut self) -> Result<Vec<TableNode>, SyntaxError>
        ensures left { OnOk result (NoLonger self.old self.new) }
        ensures run { GoesAll (MoreTables 0 []) self.old self.new result }
    {
        let mut tables = Vec::new(self.alloc);
        while let Some(at) = self.takes_keyword(Keyword::Table) {
            if tables.len() >= MAX_TABLES {
                let kind = FaultKind::TooMany;
                return Err(SyntaxError::Fault(Fault { at, kind }));
            }
            let table = self.table()?;
            tables.push(table)?;
        }
        Ok(tables)
    }

    // A procedure, after its word.
    fn procedure(&mut self) -> Result<ProcNode, SyntaxError>
        ensures left { OnOk result (NoLonger self.old self.new) }
        ensures run { Goes proc_steps self.old self.new result }
    {
        let name = self.name()?;
        self.symbol(Symbol::OpenParen)?;
        let params = listed(self.params()?);
        self.symbol(Symbol::CloseParen)?;
        let body = listed(self.block(Around::NOTHING)?);
        Ok(ProcNode { name, params, body })
    }

    /// Procedures, as many as there are.
    pub fn procedures(&mut self) -> Result<Vec<ProcNode>, SyntaxError>
        ensures left { OnOk result (NoLonger self.old self.new) }
        ensures run { GoesAll (MoreProcs 0 []) self.old self.new result }
    {
        let mut procs = Vec::new(self.alloc);
        while let Some(at) = self.takes_keyword(Keyword::Proc) {
            if procs.len() >= MAX_PROCS {
                let kind = FaultKind::TooMany;
                return Err(SyntaxError::Fault(Fault { at, kind }));
            }
            let proc = self.procedure()?;
            procs.push(proc)?;
        }
        Ok(procs)
    }
}

/// Reads the tokens of a catalogue, in a text that ends there.
pub(crate) fn parse_tokens(
    alloc: Global,
    tokens: &[Spanned],
    end: usize,
) -> Result<Tree, SyntaxError>
    // What is read is a catalogue within the limits, and each such catalogue is read.
    ensures reads { IfOk result (λ tree. ReadsTokens tokens.now tree) }
    ensures only { (tree : ATree) → ReadsTokens tokens.now tree → Only result tree }
    // Which fault it is: the one of least offset.
    ensures fault { (fault : AFault) → IsErrOf result (error.Fault fault) → IsFirstFault end tokens.now fault }
{
    whole(alloc, tokens, end)
}

fn whole(alloc: Global, tokens: &[Spanned], end: usize) -> Result<Tree, SyntaxError>
    ensures { Gives (λ tree. Ok tree) result (run end start tokens.now) }
{
    let mut parser = Parser {
        alloc,
        rest: tokens,
        end,
        operators: 0,
    };
    let tables = listed(parser.tables()?);
    let procs = listed(parser.procedures()?);
    match split_first(parser.rest) {
        None => Ok(Tree { tables, procs }),
        Some(_) => Err(parser.refuse(FaultKind::Expected)),
    }
}
