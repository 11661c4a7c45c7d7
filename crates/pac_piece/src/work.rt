// Work, and work that is done.
ghost use Rattle.std.specs.Prelude.{◌≡◌, ◌↔◌, IsTrue, IfOk, IfErr};
ghost use Rattle.std.specs.FinMap.{empty};
ghost use Rattle.pac_piece.specs.Frames.{HasOneMore};
ghost use Rattle.pac_piece.specs.Values.{IsOutcomeOver, IsValueOf, copied};
ghost use Rattle.pac_piece.specs.Runnable.{IsRunnable};

use crate::frame::Frame;
use crate::rows::{copy_rows, same_rows};
use crate::run_all::run_code;
use pac_base::{Exact, Listed, NoMemory, Same};
use pac_ops::{Note, PieceId};
use pac_plan::{Code, Shared};
use pac_tables::{Write, Writes};
use pac_value::Env;
use std::alloc::Global;
use std::marker::Model;

/// What a piece is to do, apart from all that others do: its code, its inputs, and copies of the rows at the keys of its
/// access. Each copy is the [`Write`] that would put the row back.
#[derive(Drop)]
pub struct Work {
    pub piece: PieceId,
    pub code: Shared<Code>,
    pub env: Env,
    pub rows: Listed<Write>,
}

impl Exact for Work {
    // The code is shared, and the copy is one more owner of it.
    fn copy(&self, alloc: Global) -> Result<Work, NoMemory> {
        let code = self.code.copy(alloc)?;
        let env = self.env.copy(alloc)?;
        let rows = copy_rows(alloc, self.rows.as_slice())?;
        Ok(Work {
            piece: self.piece,
            code,
            env,
            rows,
        })
    }
}

impl Same for Work {
    fn same(&self, other: &Work) -> bool {
        self.piece == other.piece
            && self.env.same(&other.env)
            && same_rows(self.rows.as_slice(), other.rows.as_slice())
            && self.code.same(&other.code)
    }
}

/// Work with its value. It keeps by its type that it is that.
#[derive(Drop)]
pub struct Done {
    work: Work,
    writes: Writes,
    outs: Env,
    note: Option<Note>,
}

impl Model for Done {
    ghost use Rattle.std.specs.Prelude.{◌≡◌, List, Option, refl};
    ghost use Rattle.std.specs.Coded.{code_by, codes, coded_ℕ};
    ghost use Rattle.std.specs.FinMap as map;
    ghost use Rattle.std.specs.Ordering.{nat_cmp};
    ghost use Rattle.pac_value.specs.Expressions.{Values};
    ghost use Rattle.pac_value.specs.contracts.values.Value as value_type;
    ghost use Rattle.pac_ops.specs.declared.note.Note.{Note as ANote};
    ghost use Rattle.pac_ops.specs.contracts.note.Note as note_type;
    ghost use Rattle.pac_tables.specs.declared.writes.Write.{Write as AWrite};
    ghost use Rattle.pac_tables.specs.contracts.writes.Write as write_type;
    ghost use Rattle.pac_piece.specs.declared.work.Work.{Work as AWork};
    ghost use Rattle.pac_piece.specs.contracts.work.Work as work_type;
    ghost use Rattle.pac_piece.specs.Results.{WorkDone};
    ghost use Rattle.pac_piece.specs.Values.{IsValueOf};

    ghost Value = { WorkDone };

    ghost coded = { code_by (AWork × List AWrite × Values × Option ANote)
        (Prim.hlevel (
          codes,
          work_type.the_row.coded,
          write_type.the_row.coded,
          note_type.the_row.coded,
          map.code {R = nat_cmp} coded_ℕ value_type.the_row.coded,
        ))
        (λ done. (done.work, done.writes, done.outs, done.note))
        (λ p. record { work = p.0; writes = p.1; outs = p.2; note = p.3 })
        (λ done. refl) };

    ghost view = { λ done. record { work = done.work; writes = done.writes; outs = done.outs; note = done.note } };

    ghost invariant = { λ done. IsValueOf done.work done.writes done.outs done.note };
}

impl Done {
    /// Work with its value again, for one who took it apart and has no use for it yet. Takes no memory.
    pub fn of_parts(work: Work, writes: Writes, outs: Env, note: Option<Note>) -> Done
        requires { IsValueOf work writes outs note }
        ensures { result ≡ record { work = work; writes = writes; outs = outs; note = note } }
    {
        Done {
            work,
            writes,
            outs,
            note,
        }
    }

    /// The work.
    pub fn work(&self) -> &Work
        ensures { result.now ≡ self.now.work }
    {
        &self.work
    }

    /// The rows that the work wrote: one for each cell of its records, and of its operations that modify, were executed and
    /// left no note.
    pub fn writes(&self) -> &[Write]
        ensures { result.now ≡ self.now.writes }
    {
        self.writes.items()
    }

    /// The values of the variables that its operations gave values.
    pub fn outs(&self) -> &Env
        ensures { result.now ≡ self.now.outs }
    {
        &self.outs
    }

    /// The least note that its operations left, if there is one.
    pub fn note(&self) -> Option<Note>
        ensures { result ≡ self.now.note }
    {
        self.note
    }

    /// The work, and what it wrote, gave and noted. Takes no memory.
    pub fn into_parts(self) -> (Work, Writes, Env, Option<Note>)
        ensures { result ≡ (self.work, self.writes, self.outs, self.note) }
    {
        let Done {
            work,
            writes,
            outs,
            note,
        } = self;
        (work, writes, outs, note)
    }

    /// The work again. Takes no memory.
    pub fn into_work(self) -> Work
        ensures { result ≡ self.work }
    {
        let Done {
            work,
            writes: _,
            outs: _,
            note: _,
        } = self;
        work
    }
}

/// What is done is the value of its work: a law. Its writes lead from the copies to the rows after the operations.
pub fn is_value(done: &Done)
    ensures { IsValueOf done.now.work done.now.writes done.now.outs done.now.note }
{
    let _work = &done.work;
}

// Runs the code of the work over a copy of its inputs, and keeps each value that it gives.
fn run_apart(alloc: Global, work: &Work) -> Result<Frame<Env>, NoMemory>
    requires { IsRunnable work.now }
    ensures { IfOk result (IsOutcomeOver HasOneMore work.now.piece.txn work.now.code work.now.env (copied work.now) empty) }
{
    let env = work.env.copy(alloc)?;
    run_code(
        alloc,
        work.piece.txn,
        work.code.get(),
        env,
        Env::new(alloc),
        &work.rows,
    )
}

/// Does the work: runs its operations in order, each over what those before it left. It copies the inputs once, and takes
/// memory for what it writes and gives, not for what it reads.
///
/// # Errors
///
/// [`NoMemory`] with the work, where an allocation is refused.
pub fn run(alloc: Global, work: Work) -> Result<Done, (Work, NoMemory)>
    requires { IsRunnable work }
    ensures ok { IfOk result (λ done. done.work ≡ work) }
    ensures err { IfErr result (λ refused. refused.0 ≡ work) }
{
    match run_apart(alloc, &work) {
        Ok(frame) => {
            let Frame {
                env: _,
                outs,
                writes,
                note,
            } = frame;
            let writes = Writes::of(writes);
            Ok(Done {
                work,
                writes,
                outs,
                note,
            })
        }
        Err(refused) => Err((work, refused)),
    }
}
