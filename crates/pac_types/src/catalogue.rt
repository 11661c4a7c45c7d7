// The catalogue of a tree.
ghost use Rattle.std.specs.Prelude.{◌≡◌, ◌≤◌, All, length, map};
ghost use Rattle.pac_types.specs.Numbering.{number_of};
ghost use Rattle.pac_types.specs.Typing.{IsProc, IsWellFormedTable};
ghost use Rattle.pac_types.specs.CatalogueNames.{IsNamed};

use crate::names::Names;
use crate::{Proc, Table};
use pac_base::{Exact, Listed, NoMemory};
use pac_value::{MAX_PROCS, MAX_TABLES};
use std::alloc::Global;
use std::marker::Model;

/// The tables and procedures of a tree that is typed. It keeps by its type that there is such a tree.
#[derive(Debug, Drop)]
pub struct Catalogue {
    tables: Listed<Table>,
    procs: Listed<Proc>,
    table_names: Names,
    proc_names: Names,
}

impl Model for Catalogue {
    ghost use Rattle.pac_types.specs.Typing.{CatalogueState};
    ghost use Rattle.pac_types.specs.CatalogueNames.{IsNamed};
    ghost use Rattle.std.specs.Coded.{codes};
    ghost use Rattle.pac_types.specs.contracts.statement.Stmt as stmt;

    ghost Value = { CatalogueState };

    ghost coded = { Prim.hlevel (codes, stmt.the_row.coded) };

    ghost view = { λ catalogue. record { tables = catalogue.tables; procs = catalogue.procs } };

    ghost invariant = { λ catalogue. IsNamed (record { tables = catalogue.tables; procs = catalogue.procs }) catalogue.table_names catalogue.proc_names };
}

impl Catalogue {
    /// The catalogue of these tables and procedures, whose names are numbered.
    pub(crate) fn of(
        tables: Listed<Table>,
        procs: Listed<Proc>,
        table_names: Names,
        proc_names: Names,
    ) -> Catalogue
        requires { IsNamed (record { tables = tables; procs = procs }) table_names proc_names }
        ensures { result ≡ record { tables = tables; procs = procs } }
    {
        Catalogue {
            tables,
            procs,
            table_names,
            proc_names,
        }
    }

    /// The tables, by their numbers.
    pub fn tables(&self) -> &[Table]
        ensures value { result.now ≡ self.now.tables }
        ensures few { length self.now.tables ≤ MAX_TABLES }
        ensures well_formed { All IsWellFormedTable self.now.tables }
    {
        self.tables.as_slice()
    }

    /// The procedures, by their numbers.
    pub fn procs(&self) -> &[Proc]
        ensures value { result.now ≡ self.now.procs }
        ensures few { length self.now.procs ≤ MAX_PROCS }
        ensures well_formed { All (IsProc self.now.tables) self.now.procs }
    {
        self.procs.as_slice()
    }

    /// The number of the table with this name. `None`: none has it.
    pub fn table_named(&self, name: &[u8]) -> Option<u16>
        ensures { result ≡ number_of (map (λ table. table.name) self.now.tables) name.now }
    {
        self.table_names.number_of_bytes(name)
    }

    /// The number of the procedure with this name. `None`: none has it.
    pub fn proc_named(&self, name: &[u8]) -> Option<u16>
        ensures { result ≡ number_of (map (λ proc. proc.name) self.now.procs) name.now }
    {
        self.proc_names.number_of_bytes(name)
    }
}

impl Exact for Catalogue {
    fn copy(&self, alloc: Global) -> Result<Catalogue, NoMemory> {
        let tables = self.tables.copy(alloc)?;
        let procs = self.procs.copy(alloc)?;
        let table_names = self.table_names.copy(alloc)?;
        let proc_names = self.proc_names.copy(alloc)?;
        Ok(Catalogue {
            tables,
            procs,
            table_names,
            proc_names,
        })
    }
}
