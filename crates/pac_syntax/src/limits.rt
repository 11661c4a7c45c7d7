// How large a catalogue's text and its parts may be.
ghost use Rattle.std.specs.Prelude.{◌≡◌, ◌<◌, Some, None, nat_lt, if◌then◌else◌};
ghost use Rattle.pac_syntax.specs.Grammar.{inside_block, in_loop, loop_turns, range_len};

/// The most bytes of a catalogue's text.
pub const MAX_CATALOGUE: usize = 65_536;

/// The most operators of a whole expression.
pub const MAX_OPERATORS: u8 = 64;

/// The most parentheses that are open at once.
pub const MAX_PARENS: u8 = 16;

/// The most conditionals and loops that stand in one another.
pub const MAX_NESTED: u8 = 16;

/// The most turns of a loop, and of a loop multiplied by the loops round it.
pub const MAX_TURNS: u64 = 256;

/// What stands round a statement: how many conditionals and loops, and the product of the numbers of turns of the loops.
#[derive(Clone, Copy, Debug, PartialEq, Eq)]
pub struct Around {
    pub nested: u8,
    pub turns: u32,
}

// How many turns a loop has from the one number on and below the other.
fn turns(from: i64, to: i64) -> u64
    ensures { result ≡ range_len from to }
{
    if from < to { to.abs_diff(from) } else { 0 }
}

impl Around {
    /// What stands round the statements of a procedure.
    pub(crate) const NOTHING: Around = Around {
        nested: 0,
        turns: 1,
    };

    /// What stands round the blocks of a conditional.
    pub(crate) fn inside(self) -> Around
        requires { self.nested < MAX_NESTED }
        ensures { result ≡ inside_block self }
    {
        Around {
            nested: self.nested + 1,
            turns: self.turns,
        }
    }

    /// What stands round the block of a loop from the one number on and below the other. `None`: it has too many turns.
    pub(crate) fn in_loop(self, from: i64, to: i64) -> Option<Around>
        requires { self.nested < MAX_NESTED }
        ensures { result ≡ (if nat_lt MAX_TURNS (loop_turns self from to) then None else Some (in_loop self from to)) }
    {
        let own = turns(from, to);
        if own > MAX_TURNS {
            return None;
        }
        let all = own * u64::from(self.turns);
        if all > MAX_TURNS {
            return None;
        }
        Some(Around {
            nested: self.nested + 1,
            turns: all as u32,
        })
    }
}
