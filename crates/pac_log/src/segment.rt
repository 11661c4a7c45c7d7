// The segment of a log that comes next.
ghost use Rattle.std.specs.Prelude.{◌≡◌, ◌≤◌, ◌++◌, ◌∷◌, [], IfOk, OnOk};
ghost use Rattle.pac_outside.specs.Causes.{EndsAtFault, HasCause};
ghost use Rattle.pac_outside.specs.Disk.{BothKnown, IfKnown, IsDurable, LeavesTorn};
ghost use Rattle.pac_outside.specs.GateByte.{OneImage};
ghost use Rattle.pac_log.specs.declared.limits.TheConstants.{MAX_BASE};
ghost use Rattle.pac_log.specs.Gates.{first_gate, next_segment};
ghost use Rattle.pac_log.specs.Logs.{HoldsLog, header_bytes};
ghost use Rattle.pac_log.specs.Places.{LogEndsAt};

use crate::header::header_and_gate;
use crate::log::Stage;
use crate::position::Position;
use crate::{Header, HeaderForm, Log};
use pac_base::{Exact, Listed, NoMemory, listed};
use pac_outside::{Disk, Failed, write_and_sync};
use std::alloc::Global;

/// A segment of a log without a batch, before it is written: its first gate, its header, and a closed gate.
#[derive(Drop)]
pub struct Segment {
    alloc: Global,
    gate: Position,
    bytes: Listed<u8>,
    ghost framed: { bytes ≡ header_bytes gate.header ++ 0 ∷ [] },
    ghost first: { gate ≡ first_gate gate },
}

impl Segment {
    // The one that comes after the log up to a gate.
    pub(crate) fn after(alloc: Global, gate: &Position) -> Result<Segment, NoMemory>
        requires { gate.now.txns ≤ MAX_BASE }
        ensures { IfOk result (λ segment. segment.gate ≡ next_segment gate.now) }
    {
        let form = HeaderForm::Later { base: gate.txns() };
        let text = &gate.header().text;
        let bytes = header_and_gate(alloc, form, text.as_slice())?;
        let header = Header {
            form,
            text: listed(text.as_slice().to_vec(alloc)?),
        };
        Ok(Segment {
            alloc,
            gate: Position::first(gate.catalogue().copy(alloc)?, header),
            bytes: listed(bytes),
        })
    }

    /// Writes it over what stands on a device: the header and a closed gate, which it syncs. From Ok on each crash leaves a log
    /// without a batch. Takes no memory.
    ///
    /// # Errors
    ///
    /// [`Failed`] where a call of the device failed, so only where its count of faults rose; no call comes after it. Nothing is
    /// promised of the device then.
    pub fn begin<D: Disk>(self, disk: &mut D) -> Result<Log, Failed>
        ensures log { IfOk result (λ log. log ≡ record { gate = self.gate; stage = Stage.Waiting }) }
        ensures begun { OnOk result (BothKnown (λ old new. OneImage (HoldsLog self.gate.header self.gate.catalogue []) new.now) (D.known disk.old) (D.known disk.new)) }
        ensures ends { OnOk result (IfKnown (λ new. LogEndsAt self.gate new.now) (D.known disk.new)) }

        // Nothing but these bytes is written.
        ensures durable { OnOk result (BothKnown (IsDurable 0 (header_bytes self.gate.header ++ 0 ∷ [])) (D.known disk.old) (D.known disk.new)) }
        ensures moments { BothKnown (LeavesTorn 0 (header_bytes self.gate.header ++ 0 ∷ [])) (D.known disk.old) (D.known disk.new) }

        // No call of the device comes after one that failed.
        ensures cause { HasCause (D.faults disk.old) (D.faults disk.new) result }
        ensures once { EndsAtFault (D.faults disk.old) (D.faults disk.new) result }
    {
        let Segment { alloc, gate, bytes } = self;
        write_and_sync(disk, 0, bytes.as_slice())?;
        Ok(Log::begun(alloc, gate))
    }
}
