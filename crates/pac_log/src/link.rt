// Reads what stands after an open gate.
ghost use Rattle.std.specs.Prelude.{◌≡◌, ◌≤◌, ◌+◌, length, All, IfOk};
ghost use Rattle.pac_base.specs.Refusals.{Reports};
ghost use Rattle.pac_ops.specs.declared.limits.TheConstants.{MAX_TXNS};
ghost use Rattle.pac_bytes.specs.Reading.{from, next_byte, reported_as, times};
ghost use Rattle.pac_bytes.specs.Readers.{Answers, AnswersUnlessMemory, Finds, FindsSpelledUnlessMemory};
ghost use Rattle.pac_entry.specs.EntryReading.{next_entry};
ghost use Rattle.pac_types.specs.Fits.{TxnFits};
ghost use Rattle.pac_entry.specs.declared.limits.TheConstants.{MAX_BODY_LEN};
ghost use Rattle.pac_log.specs.declared.limits.TheConstants.{MAX_ENTRIES_LEN};
ghost use Rattle.pac_log.specs.Bodies.{body_bytes, link_bytes, IsLogLink};
ghost use Rattle.pac_log.specs.BodyReading.{link_number, entries_and_gate, next_entries, counted_link, next_link};
ghost use Rattle.pac_log.specs.Damages.{as_link_fault, out_of_range, short_from};

use crate::damage::{range_at, short_at};
use crate::{LinkError, LinkFault, MAX_ENTRIES_LEN};
use pac_base::Refusal;
use pac_bytes::{u8_at, u32_at};
use pac_entry::{EntryError, read_entry};
use pac_ops::{MAX_TXNS, Txn, Txns};
use pac_types::Catalogue;
use std::alloc::Global;

/// What stands after an open gate of a log: the transactions of a batch, and the next gate.
#[derive(Drop)]
pub struct Link {
    pub txns: Txns,
    pub gate: u8,
}

/// The transactions whose body stands at an offset, with the gate after them, and the offset after that. They fit the
/// catalogue. Bytes after the gate are not looked at. It takes no memory but for the transactions.
///
/// # Errors
///
/// The first fault from the left, or `NoMemory`:
///
/// - `Short` at one of the two numbers at the start that is cut short, and `Range` at one that is out of its range: 1 to
///   1,024 transactions, and at most 4,194,296 bytes of entries.
/// - `Short` at the first entry, where the bytes end before the entries and the gate.
/// - The fault of an entry, as [`read_entry`] reports it where nothing stands after the entries.
/// - `Range` at the first byte that is left after the last entry, within the length of the entries.
pub fn read_link(
    alloc: Global,
    cat: &Catalogue,
    bytes: &[u8],
    at: usize,
) -> Result<(Link, usize), LinkError>
    // It is what reading gives, or the first fault.
    ensures exact { AnswersUnlessMemory bytes.now result (next_link cat.now (from bytes.now at)) }
    // What is found is written so, and fits the catalogue.
    ensures found { Finds (IsLogLink cat.now) link_bytes bytes.now at result }
    // What fits the catalogue and is written so is found, whatever follows.
    ensures again { FindsSpelledUnlessMemory (IsLogLink cat.now) link_bytes bytes.now at result }
    // So its transactions fit the catalogue, and are not too long.
    ensures fits { IfOk result (λ found. All (TxnFits cat.now) found.0.txns) }
    ensures short { IfOk result (λ found. length (body_bytes found.0.txns) ≤ MAX_BODY_LEN) }
{
    let _tables = cat.tables(); // so few that their numbers fit the fields
    let _procs = cat.procs();
    link_at(alloc, cat, bytes, at)
}

// What stands after an open gate, as reading gives it.
#[tactic(auto, unfolding(crate::specs::BodyReading::next_link))]
fn link_at(
    alloc: Global,
    cat: &Catalogue,
    bytes: &[u8],
    at: usize,
) -> Result<(Link, usize), LinkError>
    ensures { AnswersUnlessMemory bytes.now result (next_link cat.now (from bytes.now at)) }
{
    let (count, after) = number_at(bytes, at)?;
    let count = count as usize;
    if count == 0 || count > MAX_TXNS {
        return Err(refused(range_at(at)));
    }
    counted_at(alloc, cat, count, bytes, after)
}

fn refused(fault: LinkFault) -> LinkError
    ensures { result ≡ Refusal.Fault fault }
{
    Refusal::Fault(fault)
}

fn number_at(bytes: &[u8], at: usize) -> Result<(u32, usize), LinkFault>
    ensures { Answers bytes.now result (link_number (from bytes.now at)) }
{
    Ok(u32_at(bytes, at)?)
}

// That many entries after their length, and the next gate.
#[tactic(auto, unfolding(crate::specs::BodyReading::counted_link))]
fn counted_at(
    alloc: Global,
    cat: &Catalogue,
    count: usize,
    bytes: &[u8],
    at: usize,
) -> Result<(Link, usize), LinkError>
    requires some { 1 ≤ count }
    requires few { count ≤ MAX_TXNS }
    ensures { AnswersUnlessMemory bytes.now result (counted_link cat.now count (from bytes.now at)) }
{
    let (len, first) = number_at(bytes, at)?;
    let len = len as usize;
    if len > MAX_ENTRIES_LEN {
        return Err(refused(range_at(at)));
    }
    if bytes.len() - first <= len {
        return Err(refused(short_at(first)));
    }
    entries_and_gate_at(alloc, cat, count, len, &bytes[..first + len + 1], first)
}

// That many entries, which fill that many bytes, and the next gate.
fn entries_and_gate_at(
    alloc: Global,
    cat: &Catalogue,
    count: usize,
    len: usize,
    bytes: &[u8],
    at: usize,
) -> Result<(Link, usize), LinkError>
    requires some { 1 ≤ count }
    requires few { count ≤ MAX_TXNS }
    requires there { at + len ≤ length bytes.now }
    ensures exact { AnswersUnlessMemory bytes.now result (entries_and_gate cat.now count len (from bytes.now at)) }
    ensures end { IfOk result (λ found. found.1 ≡ at + len + 1) }
{
    let txns = entries_within(alloc, cat, count, len, bytes, at)?;
    let (gate, end) = gate_at(bytes, at + len)?;
    let txns = Txns::of(txns);
    Ok((Link { txns, gate }, end))
}

fn gate_at(bytes: &[u8], at: usize) -> Result<(u8, usize), LinkFault>
    ensures exact { Answers bytes.now result (reported_as as_link_fault (next_byte (from bytes.now at))) }
    ensures end { IfOk result (λ found. found.1 ≡ at + 1) }
{
    Ok(u8_at(bytes, at)?)
}

// That many entries, which fill that many bytes.
fn entries_within(
    alloc: Global,
    cat: &Catalogue,
    count: usize,
    len: usize,
    bytes: &[u8],
    at: usize,
) -> Result<Vec<Txn>, LinkError>
    requires there { at + len ≤ length bytes.now }
    ensures exact { Reports (λ txns. (txns.items, from bytes.now (at + len))) result (next_entries cat.now count len (from bytes.now at)) }
    ensures count { IfOk result (λ txns. length txns.items ≡ count) }
{
    let end = at + len;
    match entries_at(alloc, cat, count, &bytes[..end], at) {
        Ok((_, place)) if place < end => Err(refused(range_at(place))),
        Ok((txns, _)) => Ok(txns),
        Err(Refusal::Fault(fault)) => Err(refused(LinkFault::from(fault))),
        Err(Refusal::NoMemory) => Err(Refusal::NoMemory),
    }
}

// That many entries.
fn entries_at(
    alloc: Global,
    cat: &Catalogue,
    count: usize,
    bytes: &[u8],
    at: usize,
) -> Result<(Vec<Txn>, usize), EntryError>
    ensures exact { Reports (λ found. (found.0.items, from bytes.now found.1)) result (times (next_entry cat.now) count (from bytes.now at)) }
    ensures count { IfOk result (λ found. length found.0.items ≡ count) }
{
    let mut txns = Vec::with_capacity(alloc, count)?;
    let mut place = at;
    for _ in 0..count {
        let (txn, end) = read_entry(alloc, cat, bytes, place)?;
        txns.push(txn)?;
        place = end;
    }
    Ok((txns, place))
}
