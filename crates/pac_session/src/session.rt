// A session.
ghost use Rattle.std.specs.Prelude.{◌≡◌, ◌≢◌, ◌≤◌, ◌<◌, ◌+◌, ◌^◌, ◌++◌, ◌∷◌, [], length, nat_le, false, Some as ASome, None as ANone, OnOk};
ghost use Rattle.std.specs.List.{All};
ghost use Rattle.std.specs.FinMap as map;
ghost use Rattle.pac_ops.specs.declared.limits.TheConstants.{MAX_TXNS};
ghost use Rattle.pac_types.specs.Execution.{first_over};
ghost use Rattle.pac_types.specs.OperationLimits.{HasFewOperations};
ghost use Rattle.pac_types.specs.Fits.{FitsCatalogue, TxnFits};
ghost use Rattle.pac_entry.specs.declared.limits.TheConstants.{MAX_BODY_LEN};
ghost use Rattle.pac_script.specs.Batches.{body_len};
ghost use Rattle.pac_request.specs.declared.request.Request.{Request as ARequest};
ghost use Rattle.pac_request.specs.declared.request.Reply.{Reply as AReply};
ghost use Rattle.pac_request.specs.RequestFits.{RequestFits};
ghost use Rattle.pac_session.specs.Session.{txn_of};
ghost use Rattle.pac_session.specs.Groups.{lacks_room};
ghost use Rattle.pac_session.specs.Open.{with_asked, with_closed, with_run};

use crate::execute::execute;
use crate::measured::Measured;
use pac_base::{Exact, NoMemory};
use pac_entry::{BODY_HEAD_LEN, MAX_BODY_LEN};
use pac_ops::Txn;
use pac_request::{Replies, Reply, Request};
use pac_serial::{ExecError, RunningTxn};
use pac_tables::{OrderedRows, Rows};
use pac_types::Catalogue;
use pac_value::{Key, Value};
use std::alloc::Global;
use std::marker::Model;
use std::mem;

/// A session: it executes requests over its tables, and holds the transactions and the replies of the open group.
#[derive(Drop)]
pub struct Session {
    alloc: Global,
    catalogue: Catalogue,
    limit: u64,
    most: u32,
    rows: OrderedRows,
    before: u64,
    txns: Vec<Txn>,
    // How many bytes the body of the transactions has.
    len: usize,
    held: Vec<Reply>,
    // Transactions of a group that was closed, whose lists have room.
    spare: Vec<Txn>,
    // What each transaction is executed in.
    running: RunningTxn,
}

impl Model for Session {
    ghost use Rattle.pac_session.specs.Open.{Open, open_code, IsWellFormed};

    ghost Value = { Open };

    ghost coded = { open_code };

    ghost view = { λ s. record { catalogue = s.catalogue; limit = s.limit; most = s.most; tables = s.rows.rows; before = s.before; txns = s.txns.items; held = s.held.items } };

    ghost invariant = { λ s. IsWellFormed (record { catalogue = s.catalogue; limit = s.limit; most = s.most; tables = s.rows.rows; before = s.before; txns = s.txns.items; held = s.held.items }) s.rows.tables s.len };
}

impl Session {
    /// The session over these tables, with that many transactions committed before it. A group holds at most `most` replies,
    /// and each table has at most `limit` rows. Takes no memory.
    pub fn new(
        alloc: Global,
        catalogue: Catalogue,
        rows: OrderedRows,
        before: u64,
        most: u32,
        limit: u64,
    ) -> Session
        requires operations { HasFewOperations catalogue.procs }
        requires fits { FitsCatalogue catalogue rows.tables rows.rows }
        requires within { first_over limit (length catalogue.tables) rows.rows ≡ ANone }
        requires some { 1 ≤ most }
        requires few { most ≤ MAX_TXNS }
        requires numbers { before ≤ 2 ^ 63 + 2 ^ 62 }
        ensures { result ≡ record { catalogue = catalogue; limit = limit; most = most; tables = rows.rows; before = before; txns = []; held = [] } }
    {
        Session {
            alloc,
            catalogue,
            limit,
            most,
            rows,
            before,
            txns: Vec::new(alloc),
            len: BODY_HEAD_LEN,
            held: Vec::new(alloc),
            spare: Vec::new(alloc),
            running: RunningTxn::new(alloc),
        }
    }

    /// The catalogue.
    pub fn catalogue(&self) -> &Catalogue
        ensures { result.now ≡ self.now.catalogue }
    {
        &self.catalogue
    }

    /// The tables, with what the open group changed.
    pub fn rows(&self) -> &OrderedRows
        ensures value { result.now.rows ≡ self.now.tables }
        ensures fits { FitsCatalogue self.now.catalogue result.now.tables self.now.tables }
        ensures within { first_over self.now.limit (length self.now.catalogue.tables) self.now.tables ≡ ANone }
    {
        &self.rows
    }

    /// The replies that the open group holds, first to last.
    pub fn held(&self) -> &[Reply]
        ensures { result.now ≡ self.now.held }
    {
        &self.held
    }

    /// Whether the body of the open group has no room for the entry of a transaction. A group without transactions has it.
    pub fn lacks_room(&self, txn: &Measured) -> bool
        ensures test { result ≡ lacks_room self.now.txns (ASome txn.now) }
        ensures alone { lacks_room [] (ASome txn.now) ≡ false }
    {
        self.len + txn.len() > MAX_BODY_LEN
    }

    /// Whether the open group has as many replies as it may hold.
    pub fn is_full(&self) -> bool
        ensures { result ≡ nat_le self.now.most (length self.now.held) }
    {
        u64::from(self.most) <= self.held.len() as u64
    }

    /// Executes a transaction, and holds its reply; where it is committed it joins the open group. It costs what the
    /// execution costs.
    ///
    /// # Errors
    ///
    /// [`NoMemory`] alone. The transaction may be executed then without being held: nothing more may be asked of the
    /// session.
    pub fn run(&mut self, txn: Measured) -> Result<(), NoMemory>
        requires fits { TxnFits self.old.catalogue txn }
        requires room { lacks_room self.old.txns (ASome txn) ≡ false }
        requires few { length self.old.held < self.old.most }
        ensures { OnOk result (self.new ≡ with_run txn self.old) }
    {
        match execute(
            &self.catalogue,
            txn.txn(),
            self.limit,
            &mut self.rows,
            &mut self.running,
        ) {
            Ok(()) => self.commit(txn),
            Err(ExecError::Abort { op, reason }) => self.hold(Reply::Aborted { op, reason }),
            Err(ExecError::Full { table }) => self.hold(Reply::AbortedFull { table }),
            Err(ExecError::NoMemory) => Err(NoMemory),
        }
    }

    // A transaction that was executed joins the open group.
    fn commit(&mut self, txn: Measured) -> Result<(), NoMemory>
        requires fits { TxnFits self.old.catalogue txn }
        requires room { lacks_room self.old.txns (ASome txn) ≡ false }
        requires few { length self.old.held < self.old.most }
        ensures { OnOk result (self.new ≡ record self.old { txns = self.old.txns ++ txn ∷ []; held = self.old.held ++ AReply.Committed (self.old.before + length self.old.txns + 1) ∷ [] }) }
    {
        let number = self.before + self.txns.len() as u64 + 1;
        self.held.push(Reply::Committed { txn: number })?;
        let len = txn.len();
        self.txns.push(txn.into_txn())?;
        self.len += len;
        Ok(())
    }

    // Holds a reply.
    fn hold(&mut self, reply: Reply) -> Result<(), NoMemory>
        requires few { length self.old.held < self.old.most }
        ensures { OnOk result (self.new ≡ record self.old { held = self.old.held ++ reply ∷ [] }) }
    {
        self.held.push(reply)?;
        Ok(())
    }

    // Shows a row.
    fn show(&mut self, table: u16, key: Key) -> Result<(), NoMemory>
        requires table { table < length self.old.catalogue.tables }
        requires few { length self.old.held < self.old.most }
        ensures { OnOk result (self.new ≡ record self.old { held = self.old.held ++ AReply.Shown table key (map.get self.old.tables (table, key)) ∷ [] }) }
    {
        let row = match self.rows.get(table, &key) {
            None => None,
            Some(row) => Some(row.copy(self.alloc)?),
        };
        self.hold(Reply::Shown { table, key, row })
    }

    /// Answers a request that asks for no transaction and no checkpoint, and holds its reply, if it has one. Takes time
    /// logarithmic in the rows of a table that is shown.
    ///
    /// # Errors
    ///
    /// [`NoMemory`] alone.
    pub fn answer(&mut self, request: Request) -> Result<(), NoMemory>
        requires fits { RequestFits self.old.catalogue request }
        requires none { txn_of request ≡ ANone }
        requires unsaved { request ≢ ARequest.Save }
        requires few { length self.old.held < self.old.most }
        ensures { OnOk result (self.new ≡ with_asked request self.old) }
    {
        match &request {
            Request::Show { table, key } => self.show(*table, *key),
            Request::Refused(fault) => self.hold(Reply::Refused(*fault)),
            _ => Ok(()),
        }
    }

    /// Takes transactions that nobody wants any more, for the room of their lists.
    pub fn reuse(&mut self, txns: Vec<Txn>)
        ensures { self.new ≡ self.old }
    {
        self.spare = txns;
    }

    /// A list for the arguments of a call: one with the room of an earlier one, where there is one left.
    pub fn spare_args(&mut self) -> Vec<Value>
        ensures { self.new ≡ self.old }
    {
        match self.spare.pop() {
            Some(Txn::Call(call)) => call.args.into_items(),
            _ => Vec::new(self.alloc),
        }
    }

    /// Closes the open group, and returns its transactions and replies. Takes no memory.
    pub fn close(&mut self) -> (Vec<Txn>, Replies)
        requires { self.old.before ≤ 2 ^ 63 + 2 ^ 62 }
        ensures closed { self.new ≡ with_closed self.old }
        ensures txns { result.0.items ≡ self.old.txns }
        ensures replies { result.1 ≡ self.old.held }
        ensures fit { All (TxnFits self.old.catalogue) self.old.txns }
        ensures few { length self.old.txns ≤ MAX_TXNS }
        ensures short { body_len self.old.txns ≤ MAX_BODY_LEN }
    {
        let mut next = mem::replace(&mut self.spare, Vec::new(self.alloc));
        next.clear();
        let txns = mem::replace(&mut self.txns, next);
        let held = mem::replace(&mut self.held, Vec::new(self.alloc));
        self.before += txns.len() as u64;
        self.len = BODY_HEAD_LEN;
        (txns, Replies::of(held))
    }
}
