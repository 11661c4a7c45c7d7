// A core is a machine that workers may share.
ghost use Rattle.std.specs.Prelude.{◌≡◌, [], length, map};
ghost use Rattle.pac_piece.specs.Runnable.{IsRunnable};
ghost use Rattle.pac_commute.specs.Loads.{next_in_job};
ghost use Rattle.pac_core.specs.Replay.{left, loaded_pieces, replay_code, with_batch_loaded, with_none_taken};
ghost use Rattle.pac_core.specs.Takes.{IsNextPiece};

use crate::answers::{Finish, ReadyPieces, Take};
use crate::replay::Core;
use pac_base::NoMemory;
use pac_keys::weight_of;
use pac_ops::{Batch, PieceId};
use pac_piece::{Done, Work, run};
use pac_tables::Rows;
use pac_workers::{Loads, Machine, Ready, Taken};
use std::alloc::Global;

impl<R: Rows> Machine for Core<R> {
    type Work = Work;

    type Done = Done;

    ghost job = { with_none_taken };

    ghost coded = { replay_code };

    ghost is_closed = { λ core. core.is_closed };

    ghost left = { left };

    ghost size = { λ core. length (loaded_pieces core) };

    ghost is_idle = { λ core. core.out ≡ [] };

    ghost can_run = { IsRunnable };

    ghost is_next = { IsNextPiece };

    fn unfinished(&self) -> u64 {
        Core::unfinished(self)
    }

    fn ready(&self) -> Ready {
        let ReadyPieces { pieces, weight } = Core::ready(self);
        Ready { pieces, weight }
    }

    fn piece(work: &Work) -> PieceId {
        work.piece
    }

    fn weight(work: &Work) -> u64 {
        weight_of(work.code.get())
    }

    fn run(alloc: Global, work: Work) -> Result<Done, (Work, NoMemory)> {
        run(alloc, work)
    }

    fn into_work(done: Done) -> Work {
        done.into_work()
    }

    fn close(&mut self) {
        Core::close(self);
    }

    fn take(&mut self) -> Result<Taken<Work>, NoMemory> {
        Ok(match Core::take(self)? {
            Take::Given(work) => Taken::Work(work),
            Take::Ran(_) => Taken::Ran,
            Take::NotReady => Taken::NotReady,
            Take::Done => Taken::Done,
        })
    }

    fn coming(&mut self) -> Result<Option<PieceId>, NoMemory> {
        Core::coming(self)
    }

    fn run_next(&mut self) -> Result<Option<PieceId>, NoMemory> {
        Core::run_next(self)
    }

    // It is refused too where it isn't of work that is out.
    fn finish(&mut self, done: Done) -> Result<(), Done> {
        match Core::finish(self, done) {
            Finish::Kept => Ok(()),
            Finish::Foreign(done) | Finish::NoMemory(done) => Err(done),
        }
    }

    fn give_back(&mut self, work: Work) {
        Core::give_back(self, work);
    }

    fn reclaim(&mut self) {
        self.take_back();
    }

    fn drain(&mut self) -> Result<u64, NoMemory> {
        Core::drain(self)
    }
}

impl<R: Rows> Loads for Core<R> {
    ghost with_batch = { with_batch_loaded };

    ghost next_txn = { λ core. next_in_job core.job core.batches };

    ghost params = { λ core. map (λ program. program.params) core.job.parts.programs };

    ghost tables = { λ core. core.job.parts.tables };

    fn load(&mut self, batch: Batch) -> Result<(), NoMemory> {
        match Core::load(self, batch) {
            Ok(()) => Ok(()),
            Err(_) => Err(NoMemory),
        }
    }
}
