// What a line asks of a catalogue.
ghost use Rattle.std.specs.Prelude.{◌≡◌, ◌≤◌, ◌<◌, ◌∷◌, [], length, IfOk, IfSome, IsTrue, MatchOption, MatchResult, Ok, Err};
ghost use Rattle.std.specs.List.{list_all};
ghost use Rattle.pac_base.specs.Refusals.{Reports};
ghost use Rattle.pac_value.specs.Values.{is_stored};
ghost use Rattle.pac_value.specs.declared.limits.TheConstants.{MAX_PARAMS};
ghost use Rattle.pac_types.specs.WellFormed.{types};
ghost use Rattle.pac_types.specs.Typing.{IsWellFormedTable};
ghost use Rattle.pac_syntax.specs.declared.tree.NameNode.{NameNode as ANameNode};
ghost use Rattle.pac_request.specs.declared.fault.LineFaultKind.TheVariants.{UnknownName};
ghost use Rattle.pac_request.specs.LineKinds.{line_fault};
ghost use Rattle.pac_request.specs.RequestMeaning.{asked_value, asked_key, asked_values, counted_literals, proc_at, table_at, asked_call, asked_put, asked_cell, asked_change, asked_changes, asked, HoldsRecords};

use crate::fault::{LineFault, LineFaultKind};
use crate::node::{LineNode, PlacedLiteral, RecordNode};
use crate::request::Request;
use pac_base::Refusal;
use pac_ops::{Args, Call, Change, Records};
use pac_syntax::NameNode;
use pac_types::{Catalogue, Column, Proc, Table};
use pac_value::{Key, Row, Ty, Value};
use std::alloc::Global;

fn refused(at: usize, kind: LineFaultKind) -> LineFault
    ensures { result ≡ line_fault kind at }
{
    LineFault { at, kind }
}

// The literal's value, where it has the type that is wanted.
fn value_of(wanted: Ty, literal: &PlacedLiteral) -> Result<Value, LineFault>
    ensures { result ≡ asked_value wanted literal.now }
{
    match (wanted, literal.value) {
        (Ty::Int, Value::Int(_)) | (Ty::Text, Value::Text(_)) => Ok(literal.value),
        _ => Err(refused(literal.at, LineFaultKind::WrongType)),
    }
}

fn key_of(wanted: Ty, literal: &PlacedLiteral) -> Result<Key, LineFault>
    ensures { result ≡ asked_key wanted literal.now }
{
    match (wanted, literal.value) {
        (Ty::Int, Value::Int(number)) => Ok(Key::Int(number)),
        (Ty::Text, Value::Text(text)) => Ok(Key::Text(text)),
        _ => Err(refused(literal.at, LineFaultKind::WrongType)),
    }
}

// The first column's type and the first literal, and those after them.
fn split_pair<'a>(
    columns: &'a [Column],
    literals: &'a [PlacedLiteral],
) -> Option<(Ty, PlacedLiteral, &'a [Column], &'a [PlacedLiteral])>
    ensures pair { MatchOption result (asked_values (types columns.now) literals.now ≡ Ok []) (λ p. (types columns.now ≡ p.0 ∷ types p.2.now) × (literals.now ≡ p.1 ∷ p.3.now)) }
    ensures within { IfSome result (λ p. length p.2.now < length columns.now) }
{
    let [column, columns @ ..] = columns else {
        return None;
    };
    let [literal, literals @ ..] = literals else {
        return None;
    };
    Some((column.ty, *literal, columns, literals))
}

// A value for each column.
fn values_of(
    alloc: Global,
    columns: &[Column],
    literals: &[PlacedLiteral],
) -> Result<Vec<Value>, Refusal<LineFault>>
    ensures { Reports (λ values. values.items) result (asked_values (types columns.now) literals.now) }
{
    let mut values = Vec::with_capacity(alloc, columns.len())?;
    let mut columns = columns;
    let mut literals = literals;
    while let Some((ty, literal, more_columns, more_literals)) = split_pair(columns, literals) {
        match value_of(ty, &literal) {
            Ok(value) => values.push(value)?,
            Err(fault) => return Err(Refusal::Fault(fault)),
        }
        columns = more_columns;
        literals = more_literals;
    }
    Ok(values)
}

// The same of as many literals: the values are as many, and none is a bool.
fn stored_values(
    alloc: Global,
    columns: &[Column],
    literals: &[PlacedLiteral],
) -> Result<Vec<Value>, Refusal<LineFault>>
    requires { length (types columns.now) ≡ length literals.now }
    ensures exact { Reports (λ values. values.items) result (asked_values (types columns.now) literals.now) }
    ensures count { IfOk result (λ values. length values.items ≡ length columns.now) }
    ensures stored { IfOk result (λ values. IsTrue (list_all is_stored values.items)) }
{
    values_of(alloc, columns, literals)
}

// That there are as many literals as columns.
fn count(name: &NameNode, columns: &[Column], literals: &[PlacedLiteral]) -> Result<(), LineFault>
    ensures { MatchResult result (λ _. (length (types columns.now) ≡ length literals.now) × (counted_literals name.now (types columns.now) literals.now ≡ Ok literals.now)) (λ fault. counted_literals name.now (types columns.now) literals.now ≡ Err fault) }
{
    if columns.len() == literals.len() {
        Ok(())
    } else {
        Err(refused(name.at, LineFaultKind::WrongCount))
    }
}

/// The procedure with a name, and its number.
pub(crate) fn proc_named<'a>(catalogue: &'a Catalogue, name: &[u8]) -> Option<(u16, &'a Proc)>
    ensures found { (node : ANameNode) → node.name ≡ name.now → MatchOption result (proc_at catalogue.now.procs node ≡ Err (line_fault UnknownName node.at)) (λ p. proc_at catalogue.now.procs node ≡ Ok (p.0, p.1.now)) }
    ensures few { IfSome result (λ p. length p.1.now.params ≤ MAX_PARAMS) }
{
    let number = catalogue.proc_named(name)?;
    let proc = catalogue.procs().get(usize::from(number))?;
    Some((number, proc))
}

// The procedure with a name, and its number.
fn proc_of<'a>(catalogue: &'a Catalogue, name: &NameNode) -> Result<(u16, &'a Proc), LineFault>
    ensures found { MatchResult result (λ p. proc_at catalogue.now.procs name.now ≡ Ok (p.0, p.1.now)) (λ fault. proc_at catalogue.now.procs name.now ≡ Err fault) }
    ensures few { IfOk result (λ p. length p.1.now.params ≤ MAX_PARAMS) }
{
    match proc_named(catalogue, name.name.bytes()) {
        Some(found) => Ok(found),
        None => Err(refused(name.at, LineFaultKind::UnknownName)),
    }
}

// The table with a name, and its number.
fn table_of<'a>(catalogue: &'a Catalogue, name: &NameNode) -> Result<(u16, &'a Table), LineFault>
    ensures found { MatchResult result (λ p. table_at catalogue.now.tables name.now ≡ Ok (p.0, p.1.now)) (λ fault. table_at catalogue.now.tables name.now ≡ Err fault) }
    ensures well_formed { IfOk result (λ p. IsWellFormedTable p.1.now) }
{
    let Some(number) = catalogue.table_named(name.name.bytes()) else {
        return Err(refused(name.at, LineFaultKind::UnknownName));
    };
    match catalogue.tables().get(usize::from(number)) {
        Some(table) => Ok((number, table)),
        None => Err(refused(name.at, LineFaultKind::UnknownName)),
    }
}

#[tactic(auto, unfolding(crate::specs::RequestMeaning::asked_call))]
fn call_of(
    alloc: Global,
    catalogue: &Catalogue,
    name: &NameNode,
    literals: &[PlacedLiteral],
) -> Result<Request, Refusal<LineFault>>
    ensures { Reports (λ request. request) result (asked_call catalogue.now.procs name.now literals.now) }
{
    let (number, proc) = proc_of(catalogue, name)?;
    let params = proc.params.as_slice();
    count(name, params, literals)?;
    let args = stored_values(alloc, params, literals)?;
    let args = Args::of(args);
    Ok(Request::Call(Call { proc: number, args }))
}

#[tactic(auto, unfolding(crate::specs::RequestMeaning::asked_put))]
fn put_of(
    alloc: Global,
    catalogue: &Catalogue,
    name: &NameNode,
    key: &PlacedLiteral,
    literals: &[PlacedLiteral],
) -> Result<Change, Refusal<LineFault>>
    ensures { Reports (λ change. change) result (asked_put catalogue.now.tables name.now key.now literals.now) }
{
    let (number, table) = table_of(catalogue, name)?;
    let columns = table.columns.as_slice();
    count(name, columns, literals)?;
    let key = key_of(table.key, key)?;
    let row = stored_values(alloc, columns, literals)?;
    let row = Row::of(row);
    Ok(Change::Put {
        table: number,
        key,
        row,
    })
}

#[tactic(auto, unfolding(crate::specs::RequestMeaning::asked_cell))]
fn cell_of(
    catalogue: &Catalogue,
    name: &NameNode,
    key: &PlacedLiteral,
) -> Result<(u16, Key), LineFault>
    ensures { result ≡ asked_cell catalogue.now.tables name.now key.now }
{
    let (number, table) = table_of(catalogue, name)?;
    let key = key_of(table.key, key)?;
    Ok((number, key))
}

fn change_of(
    alloc: Global,
    catalogue: &Catalogue,
    node: &RecordNode,
) -> Result<Change, Refusal<LineFault>>
    ensures { Reports (λ change. change) result (asked_change catalogue.now.tables node.now) }
{
    match node {
        RecordNode::Put { table, key, values } => {
            put_of(alloc, catalogue, table, key, values.as_slice())
        }
        RecordNode::Delete { table, key } => {
            let (table, key) = cell_of(catalogue, table, key)?;
            Ok(Change::Delete { table, key })
        }
    }
}

fn split_record(records: &[RecordNode]) -> Option<(&RecordNode, &[RecordNode])>
    ensures { MatchOption result (records.now ≡ []) (λ p. records.now ≡ p.0.now ∷ p.1.now) }
{
    match records {
        [] => None,
        [first, rest @ ..] => Some((first, rest)),
    }
}

// The changes of records, from left to right.
fn changes_of(
    alloc: Global,
    catalogue: &Catalogue,
    records: &[RecordNode],
) -> Result<Vec<Change>, Refusal<LineFault>>
    ensures exact { Reports (λ changes. changes.items) result (asked_changes catalogue.now.tables records.now) }
    ensures count { IfOk result (λ changes. length changes.items ≡ length records.now) }
{
    let mut changes = Vec::with_capacity(alloc, records.len())?;
    let mut left = records;
    while let Some((first, rest)) = split_record(left) {
        let change = change_of(alloc, catalogue, first)?;
        changes.push(change)?;
        left = rest;
    }
    Ok(changes)
}

/// What a line asks.
///
/// # Errors
///
/// The first fault from the left, of names, of numbers of literals, and of types; or `NoMemory`.
pub(crate) fn request_of(
    alloc: Global,
    catalogue: &Catalogue,
    node: &LineNode,
) -> Result<Option<Request>, Refusal<LineFault>>
    requires { HoldsRecords node.now }
    ensures { Reports (λ said. said) result (asked catalogue.now node.now) }
{
    match node {
        LineNode::Empty => Ok(None),
        LineNode::Call { proc, args } => {
            let call = call_of(alloc, catalogue, proc, args.as_slice())?;
            Ok(Some(call))
        }
        LineNode::AdHoc { records } => {
            let changes = changes_of(alloc, catalogue, records.as_slice())?;
            let records = Records::of(changes);
            Ok(Some(Request::AdHoc { records }))
        }
        LineNode::Show { table, key } => {
            let (table, key) = cell_of(catalogue, table, key)?;
            Ok(Some(Request::Show { table, key }))
        }
        LineNode::Flush => Ok(Some(Request::Flush)),
        LineNode::Save => Ok(Some(Request::Save)),
        LineNode::Stop => Ok(Some(Request::Stop)),
    }
}
