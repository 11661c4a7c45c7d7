// Which calls fail in a step, and which image of the devices a crash leaves.
use crate::text::{halves, number};
use pac_outside::Fill;

/// The call that fails, counted from 1 (0: none), and whether all later ones fail too.
#[derive(Clone, Copy)]
pub struct Failing {
    pub call: u64,
    pub lasts: bool,
}

/// The faults of a step.
#[derive(Clone, Copy)]
pub struct StepFaults {
    /// Whether any line asked for a fault.
    pub any: bool,
    pub read: Failing,
    pub write: Failing,
    pub error: Failing,
    pub disk: Failing,
    pub fill: Fill,
    pub grown: bool,
}

impl Failing {
    /// No call fails.
    pub fn none() -> Failing {
        Failing {
            call: 0,
            lasts: false,
        }
    }
}

impl StepFaults {
    /// No call fails, and everything that was written is kept.
    pub fn none() -> StepFaults {
        StepFaults {
            any: false,
            read: Failing::none(),
            write: Failing::none(),
            error: Failing::none(),
            disk: Failing::none(),
            fill: Fill::New,
            grown: true,
        }
    }

    /// Adds the fault of a line such as `fail read 1`, `outage 7` or `crash old`. Returns `None` if there is none on it.
    pub fn add(&mut self, word: &str, rest: &str) -> Option<()> {
        self.any = true;
        match word {
            "fail" => self.add_failing(rest),
            "outage" => self.add_outage(rest),
            "crash" => self.add_crash(rest),
            _ => None,
        }
    }

    fn add_failing(&mut self, rest: &str) -> Option<()> {
        let (target, rest) = halves(rest);
        let failing = read_failing(rest)?;
        match target {
            "read" => self.read = failing,
            "write" => self.write = failing,
            "error" => self.error = failing,
            "disk" => self.disk = failing,
            _ => return None,
        }
        Some(())
    }

    fn add_outage(&mut self, rest: &str) -> Option<()> {
        let call = number(rest)?;
        self.disk = Failing { call, lasts: true };
        Some(())
    }

    fn add_crash(&mut self, rest: &str) -> Option<()> {
        let (fill, grown) = halves(rest);
        self.fill = read_fill(fill)?;
        self.grown = grown == "grown";
        Some(())
    }
}

fn read_failing(text: &str) -> Option<Failing> {
    let (call, lasts) = halves(text);
    let call = number(call)?;
    match lasts {
        "" => Some(Failing { call, lasts: false }),
        "on" => Some(Failing { call, lasts: true }),
        _ => None,
    }
}

fn read_fill(text: &str) -> Option<Fill> {
    match text {
        "old" => Some(Fill::Old),
        "new" => Some(Fill::New),
        _ => text.parse::<u8>().ok().map(Fill::Byte),
    }
}
