// The gate of a log that comes next.
ghost use Rattle.std.specs.Prelude.{◌≡◌, ◌<◌, ◌≤◌, ◌+◌, ◌*◌, ◌^◌, length};
ghost use Rattle.pac_types.specs.Accepted.{IsAccepted};
ghost use Rattle.pac_types.specs.OperationLimits.{HasFewOperations};
ghost use Rattle.pac_log.specs.Gates.{first_gate, gate_after};
ghost use Rattle.pac_log.specs.Logs.{base_of, header_bytes};
ghost use Rattle.pac_log.specs.declared.limits.TheConstants.{MAX_BASE};

use crate::Header;
use pac_types::Catalogue;
use std::marker::Model;

/// A gate of a log, with the log's catalogue and header.
#[derive(Drop)]
pub struct NextGate {
    pub catalogue: Catalogue,
    pub header: Header,
    /// The gate's offset, an offset from 0.
    pub place: u64,
    /// The number of the last transaction before it: how many came before the log, and how many stand before the gate.
    pub txns: u64,
}

/// The gate that comes next. Its catalogue is that of the header's text and within the limits on operations, by its type.
#[derive(Drop)]
pub struct Position {
    gate: NextGate,
}

impl Model for Position {
    ghost use Rattle.pac_log.specs.declared.position.NextGate.{NextGate};
    ghost use Rattle.pac_log.specs.contracts.position.NextGate as coding;
    ghost use Rattle.pac_log.specs.Gates.{IsWellFormedGate};

    ghost Value = { NextGate };

    ghost coded = { coding.the_row.coded };

    ghost view = { λ position. position.gate };

    ghost invariant = { λ position. IsWellFormedGate position.gate };
}

impl Position {
    /// The first gate of a log.
    pub(crate) fn first(catalogue: Catalogue, header: Header) -> Position
        requires accepted { IsAccepted header.text catalogue }
        requires base { base_of header ≤ MAX_BASE }
        ensures { result ≡ record { catalogue = catalogue; header = header; place = length (header_bytes header); txns = base_of header } }
    {
        let place = header.len();
        let txns = header.form.base();
        let gate = NextGate {
            catalogue,
            header,
            place,
            txns,
        };
        Position { gate }
    }

    /// The log's catalogue.
    pub fn catalogue(&self) -> &Catalogue
        ensures value { result.now ≡ self.now.catalogue }
        ensures few { HasFewOperations self.now.catalogue.procs }
    {
        &self.gate.catalogue
    }

    /// The log's header.
    pub fn header(&self) -> &Header
        ensures value { result.now ≡ self.now.header }
        ensures accepted { IsAccepted self.now.header.text self.now.catalogue }
    {
        &self.gate.header
    }

    /// How many transactions came before the log's.
    pub fn base(&self) -> u64
        ensures value { result ≡ base_of self.now.header }
        ensures few { result ≤ MAX_BASE }
    {
        self.gate.header.form.base()
    }

    /// The gate's offset, an offset from 0.
    pub fn place(&self) -> u64
        ensures { result ≡ self.now.place }
    {
        self.gate.place
    }

    /// The number of the last transaction before the gate, at most 2^63 above the log's base.
    pub fn txns(&self) -> u64
        ensures value { result ≡ self.now.txns }
        ensures few { result ≤ base_of self.now.header + 2 ^ 63 }
        ensures room { result ≤ MAX_BASE + 2 ^ 63 }
    {
        self.gate.txns
    }

    /// The first gate of the log.
    pub(crate) fn rewind(&mut self)
        ensures { self.new ≡ first_gate self.old }
    {
        self.gate.txns = self.gate.header.form.base();
        self.gate.place = self.gate.header.len();
    }

    /// The gate after that many transactions, that many bytes on.
    pub(crate) fn advance(&mut self, txns: u64, len: u64)
        requires few { 2 * txns ≤ len }
        requires inside { self.old.place + len < 2 ^ 64 }
        ensures { self.new ≡ gate_after txns len self.old }
    {
        self.gate.place += len;
        self.gate.txns += txns;
    }
}
