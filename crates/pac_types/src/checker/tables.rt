// The tables of a catalogue by their names.
ghost use Rattle.std.specs.Prelude.{◌≡◌, ◌≤◌, ◌<◌, ◌^◌, All, IfOk, IfSome, length, map, slice_get};
ghost use Rattle.pac_base.specs.Refusals.{Reports};
ghost use Rattle.pac_types.specs.WellFormed.{column_type, column_types, key_type, types};
ghost use Rattle.pac_types.specs.Numbering.{column_number, column_of, table_names, table_number, table_of};
ghost use Rattle.pac_types.specs.Checking.{all_once, checked_tables, known_at, names_of};
ghost use Rattle.pac_syntax.specs.Limits.{IsTableWithinLimits};

use crate::names::Names;
use crate::type_error::{TypeFault, TypeFaultKind};
use crate::{Column, Table, TypeError};
use pac_base::listed;
use pac_syntax::{ColumnNode, NameNode, TableNode};
use pac_value::{Name, Ty};
use std::alloc::{AllocError, Global};
use std::marker::Model;

/// Tables, with maps of their names and of their columns' names.
#[derive(Drop)]
pub(crate) struct Tables {
    tables: Vec<Table>,
    names: Names,
    columns: Vec<Names>,
}

impl Model for Tables {
    ghost use Rattle.std.specs.Prelude.{List};
    ghost use Rattle.pac_types.specs.declared.table.Table.{Table as ATable};

    ghost Value = { List ATable };

    ghost use Rattle.pac_types.specs.TablesIndex.{IsTablesIndex};

    ghost view = { λ tables. tables.tables.items };

    ghost invariant = { λ tables. IsTablesIndex tables.tables.items tables.names tables.columns.items };
}

/// The columns or parameters of these nodes.
pub(crate) fn columns_of(alloc: Global, nodes: &[ColumnNode]) -> Result<Vec<Column>, AllocError>
    ensures { IfOk result (λ columns. columns.items ≡ map column_of nodes.now) }
{
    nodes
        .iter()
        .map(|node| Column {
            name: node.name.name,
            ty: node.ty,
        })
        .collect(alloc)
}

/// The names of these nodes.
pub(crate) fn names_of(alloc: Global, nodes: &[ColumnNode]) -> Result<Vec<Name>, AllocError>
    ensures { IfOk result (λ names. names.items ≡ map (λ node. node.name.name) nodes.now) }
{
    nodes.iter().map(|node| node.name.name).collect(alloc)
}

// The table of a node.
fn table_of(alloc: Global, node: &TableNode) -> Result<Table, AllocError>
    ensures { IfOk result (λ table. table ≡ table_of node.now) }
{
    let columns = columns_of(alloc, node.columns.as_slice())?;
    Ok(Table {
        name: node.name.name,
        key: node.key,
        columns: listed(columns),
    })
}

// The names of tables.
fn names_of_tables(alloc: Global, nodes: &[TableNode]) -> Result<Vec<Name>, AllocError>
    ensures { IfOk result (λ names. names.items ≡ map (λ node. node.name.name) nodes.now) }
{
    nodes.iter().map(|node| node.name.name).collect(alloc)
}

// That no two of these have one name; with their names by number.
fn columns_once(alloc: Global, nodes: &[ColumnNode]) -> Result<Names, TypeError>
    requires { length nodes.now ≤ 2 ^ 16 }
    ensures once { Reports (λ names. tt) result (all_once (names_of nodes.now) 0 nodes.now) }
    ensures names { IfOk result (λ names. names ≡ names_of nodes.now) }
{
    let names = Names::of(alloc, names_of(alloc, nodes)?)?;
    for i in 0..nodes.len() {
        names.once(i, &nodes[i].name)?;
    }
    Ok(names)
}

// That what a name stands for is there.
fn known(node: &NameNode, number: Option<u16>) -> Result<u16, TypeFault>
    ensures { result ≡ known_at node.now.at number }
{
    match number {
        Some(number) => Ok(number),
        None => Err(TypeFault {
            at: node.at,
            kind: TypeFaultKind::UnknownName,
        }),
    }
}

impl Tables {
    /// The tables of these nodes.
    ///
    /// # Errors
    ///
    /// The first fault: Twice, where two tables, or two columns of one table, have one name.
    pub fn of(alloc: Global, nodes: &[TableNode]) -> Result<Tables, TypeError>
        requires few { length nodes.now ≤ 64 }
        requires limits { All IsTableWithinLimits nodes.now }
        ensures names { Reports (λ tables. tt) result (checked_tables (map (λ node. node.name.name) nodes.now) 0 nodes.now) }
        ensures value { IfOk result (λ tables. tables ≡ map table_of nodes.now) }
    {
        let names = Names::of(alloc, names_of_tables(alloc, nodes)?)?;
        let mut tables = Vec::with_capacity(alloc, nodes.len())?;
        let mut columns = Vec::with_capacity(alloc, nodes.len())?;
        for i in 0..nodes.len() {
            let node = &nodes[i];
            names.once(i, &node.name)?;
            columns.push(columns_once(alloc, node.columns.as_slice())?)?;
            tables.push(table_of(alloc, node)?)?;
        }
        Ok(Tables {
            tables,
            names,
            columns,
        })
    }

    /// The number of the table with a name.
    pub fn find(&self, name: &NameNode) -> Result<u16, TypeFault>
        ensures { result ≡ known_at name.now.at (table_number self.now name.now.name) }
    {
        known(name, self.names.number(&name.name))
    }

    /// The number of the column with a name.
    pub fn find_column(&self, table: u16, name: &NameNode) -> Result<u16, TypeFault>
        ensures { result ≡ known_at name.now.at (column_number self.now table name.now.name) }
    {
        let number = match self.columns.get(usize::from(table)) {
            Some(columns) => columns.number(&name.name),
            None => None,
        };
        known(name, number)
    }

    /// The type of a table's key.
    pub fn key_type(&self, table: u16) -> Option<Ty>
        ensures { result ≡ key_type self.now table }
    {
        Some(self.tables.get(usize::from(table))?.key)
    }

    /// The columns of a table.
    pub fn columns(&self, table: u16) -> &[Column]
        ensures { types result.now ≡ column_types self.now table }
    {
        match self.tables.get(usize::from(table)) {
            Some(table) => table.columns.as_slice(),
            None => &[],
        }
    }

    /// The type of a table's column.
    pub fn column_type(&self, table: u16, column: u16) -> Option<Ty>
        ensures { result ≡ column_type self.now table column }
    {
        Some(self.columns(table).get(usize::from(column))?.ty)
    }

    /// The tables, and their names.
    pub fn into_parts(self) -> (Vec<Table>, Names)
        ensures tables { result.0.items ≡ self }
        ensures names { result.1 ≡ table_names self }
    {
        let Tables {
            tables,
            names,
            columns: _,
        } = self;
        (tables, names)
    }
}
