// What the variables of a text stand for where its loops are unrolled.
ghost use Rattle.std.specs.Prelude.{◌≡◌, ◌+◌, ◌<◌, ◌≤◌, ◌^◌, length, IfOk, OnOk};
ghost use Rattle.pac_types.specs.Unrolled.{renaming, renamed, with_next, with_turn};
ghost use Rattle.pac_flat.specs.Names.{standing, point_of};

use pac_base::{Boxed, Exact, NoMemory};
use pac_value::{Expr, Value};
use std::alloc::Global;

/// How far unrolling has come: what each variable of the text stands for, and the number of the next variable.
#[derive(Drop)]
pub(crate) struct Point {
    pub(crate) names: Vec<Expr>,
    pub(crate) next: u16,
}

impl Point {
    /// From now on a variable of the text stands for the next variable, whose number is returned.
    pub(crate) fn name_next(&mut self, var: u16) -> Result<u16, NoMemory>
        requires { self.old.next < 65535 }
        ensures value { IfOk result (λ number. number ≡ self.old.next) }
        ensures point { OnOk result (point_of self.new ≡ with_next var (point_of self.old)) }
    {
        let number = self.next;
        name(&mut self.names, var, Expr::Var(number))?;
        self.next += 1;
        Ok(number)
    }

    /// From now on a variable of the text stands for the number of a turn.
    pub(crate) fn name_turn(&mut self, var: u16, number: i64) -> Result<(), NoMemory>
        ensures { OnOk result (point_of self.new ≡ with_turn var number (point_of self.old)) }
    {
        name(&mut self.names, var, Expr::Lit(Value::Int(number)))
    }

    /// An expression over what its variables stand for.
    pub(crate) fn renamed(&self, alloc: Global, expr: &Expr) -> Result<Expr, NoMemory>
        ensures { IfOk result (λ e. e ≡ renamed (point_of self.now).names expr.now) }
    {
        renamed(alloc, expr, self.names.as_slice())
    }
}

// A variable of the text stands for this from now on.
#[tactic(auto, using(crate::proofs::StandingLemmas::standing_set))]
fn name(names: &mut Vec<Expr>, var: u16, stands_for: Expr) -> Result<(), NoMemory>
    ensures { OnOk result (standing names.new.items ≡ renaming (standing names.old.items) var stands_for) }
{
    fill(names, var)?;
    names[usize::from(var)] = stands_for;
    Ok(())
}

// The list goes on to a variable, and the variables that are added stand for themselves.
#[tactic(auto, using(crate::proofs::StandingLemmas::standing_itself))]
fn fill(names: &mut Vec<Expr>, var: u16) -> Result<(), NoMemory>
    ensures same { OnOk result (standing names.new.items ≡ standing names.old.items) }
    ensures long { OnOk result (var < length names.new.items) }
{
    while names.len() <= usize::from(var) {
        let own = names.len() as u16;
        names.push(Expr::Var(own))?;
    }
    Ok(())
}

// What a variable of the text stands for.
fn stands_for(alloc: Global, var: u16, names: &[Expr]) -> Result<Expr, NoMemory>
    ensures { IfOk result (λ e. e ≡ standing names.now var) }
{
    match names.get(usize::from(var)) {
        Some(expr) => expr.copy(alloc),
        None => Ok(Expr::Var(var)),
    }
}

fn renamed(alloc: Global, expr: &Expr, names: &[Expr]) -> Result<Expr, NoMemory>
    ensures { IfOk result (λ e. e ≡ renamed (standing names.now) expr.now) }
{
    match expr {
        Expr::Lit(value) => Ok(Expr::Lit(*value)),
        Expr::Var(var) => stands_for(alloc, *var, names),
        Expr::Bin { op, left, right } => {
            let left = Boxed::new(alloc, renamed(alloc, left.get(), names)?)?;
            let right = Boxed::new(alloc, renamed(alloc, right.get(), names)?)?;
            Ok(Expr::Bin {
                op: *op,
                left,
                right,
            })
        }
        Expr::Not(operand) => {
            let operand = Boxed::new(alloc, renamed(alloc, operand.get(), names)?)?;
            Ok(Expr::Not(operand))
        }
    }
}
