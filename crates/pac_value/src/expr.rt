// Expressions.
ghost use Rattle.std.specs.Prelude.{◌≡◌};
ghost use Rattle.pac_value.specs.Expressions.{trap_name};

use crate::Value;
use pac_base::{Boxed, Exact, NoMemory, Same};
use std::alloc::Global;
use thiserror::Error;

/// An operator of two operands: arithmetic on ints, tests of equality on two values of one type, order on two ints or
/// two texts, and `&&` and `||` on bools.
#[derive(Clone, Copy, Debug, PartialEq, Eq)]
pub enum BinOp {
    Add,
    Sub,
    Mul,
    Div,
    Rem,
    Eq,
    Ne,
    Lt,
    Le,
    Gt,
    Ge,
    And,
    Or,
}

/// An expression over variables, which have numbers. Whether it is well typed depends on the types of its variables.
#[derive(Debug, Drop)]
pub enum Expr {
    /// A value that is written out.
    Lit(Value),
    /// A variable, by its number.
    Var(u16),
    /// An operator and its operands.
    Bin {
        op: BinOp,
        left: Boxed<Expr>,
        right: Boxed<Expr>,
    },
    /// The negation of a bool.
    Not(Boxed<Expr>),
}

/// Why a well typed expression has no value.
#[derive(Clone, Copy, Debug, PartialEq, Eq, Error)]
pub enum Trap {
    /// The result is no int of 64 bits.
    #[error("the result is no int of 64 bits")]
    Overflow,
    /// The divisor is zero.
    #[error("the divisor is zero")]
    DivZero,
}

impl Trap {
    /// The trap as it is printed.
    pub fn name(&self) -> &'static str
        ensures { result.now ≡ trap_name self.now }
    {
        match self {
            Trap::Overflow => "Overflow",
            Trap::DivZero => "DivZero",
        }
    }
}

impl Exact for BinOp {
    fn copy(&self, _: Global) -> Result<BinOp, NoMemory> {
        Ok(*self)
    }
}

impl Same for BinOp {
    fn same(&self, other: &BinOp) -> bool {
        *self == *other
    }
}

impl Exact for Trap {
    fn copy(&self, _: Global) -> Result<Trap, NoMemory> {
        Ok(*self)
    }
}

impl Same for Trap {
    fn same(&self, other: &Trap) -> bool {
        *self == *other
    }
}

impl Exact for Expr {
    fn copy(&self, alloc: Global) -> Result<Expr, NoMemory> {
        match self {
            Expr::Lit(value) => Ok(Expr::Lit(*value)),
            Expr::Var(var) => Ok(Expr::Var(*var)),
            Expr::Bin { op, left, right } => {
                let left = Boxed::new(alloc, left.get().copy(alloc)?)?;
                let right = Boxed::new(alloc, right.get().copy(alloc)?)?;
                Ok(Expr::Bin {
                    op: *op,
                    left,
                    right,
                })
            }
            Expr::Not(operand) => {
                let operand = Boxed::new(alloc, operand.get().copy(alloc)?)?;
                Ok(Expr::Not(operand))
            }
        }
    }
}

impl Same for Expr {
    fn same(&self, other: &Expr) -> bool {
        match (self, other) {
            (Expr::Lit(a), Expr::Lit(b)) => *a == *b,
            (Expr::Var(a), Expr::Var(b)) => *a == *b,
            (
                Expr::Bin { op, left, right },
                Expr::Bin {
                    op: other_op,
                    left: other_left,
                    right: other_right,
                },
            ) => {
                *op == *other_op
                    && left.get().same(other_left.get())
                    && right.get().same(other_right.get())
            }
            (Expr::Not(a), Expr::Not(b)) => a.get().same(b.get()),
            _ => false,
        }
    }
}
