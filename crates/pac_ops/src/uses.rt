// Which variables operations use and define, and which tables they access.
ghost use Rattle.std.specs.Prelude.{◌≡◌};
ghost use Rattle.pac_ops.specs.Uses.{expr_uses, exprs_use, conds_use, kind_uses, op_uses, defined_variable, accessed_table, modifies};

use crate::{FlatOp, OpKind};
use pac_value::Expr;

impl FlatOp {
    /// Whether the operation uses a variable: in its conditions, its key, its values or its test. It takes time that
    /// grows with the size of the operation.
    pub fn uses(&self, var: u16) -> bool
        ensures { result ≡ op_uses var self.now }
    {
        conds_use(self.conds.as_slice(), var) || self.kind.uses(var)
    }
}

impl OpKind {
    // Whether the key, a value or the test uses a variable.
    fn uses(&self, var: u16) -> bool
        ensures { result ≡ kind_uses var self.now }
    {
        match self {
            OpKind::Let { value, .. } => expr_uses(value, var),
            OpKind::Cond { test, .. } | OpKind::AbortIf { test } => expr_uses(test, var),
            OpKind::Read { key, .. } | OpKind::Has { key, .. } | OpKind::Delete { key, .. } => {
                expr_uses(key, var)
            }
            OpKind::Put { key, values, .. } => {
                expr_uses(key, var) || exprs_use(values.as_slice(), var)
            }
            OpKind::SetCol { key, value, .. } => expr_uses(key, var) || expr_uses(value, var),
        }
    }

    /// The variable that the operation defines, if it does.
    pub fn defined(&self) -> Option<u16>
        ensures { result ≡ defined_variable self.now }
    {
        match self {
            OpKind::Let { var, .. }
            | OpKind::Cond { var, .. }
            | OpKind::Read { var, .. }
            | OpKind::Has { var, .. } => Some(*var),
            _ => None,
        }
    }

    /// The table that the operation accesses, if it does.
    pub fn table(&self) -> Option<u16>
        ensures { result ≡ accessed_table self.now }
    {
        match self {
            OpKind::Read { table, .. }
            | OpKind::Has { table, .. }
            | OpKind::Put { table, .. }
            | OpKind::SetCol { table, .. }
            | OpKind::Delete { table, .. } => Some(*table),
            _ => None,
        }
    }

    /// Whether the operation modifies its table.
    pub fn modifies(&self) -> bool
        ensures { result ≡ modifies self.now }
    {
        matches!(
            self,
            OpKind::Put { .. } | OpKind::SetCol { .. } | OpKind::Delete { .. }
        )
    }
}

// Whether an expression uses a variable.
fn expr_uses(expr: &Expr, var: u16) -> bool
    ensures { result ≡ expr_uses var expr.now }
{
    match expr {
        Expr::Lit(_) => false,
        Expr::Var(other) => *other == var,
        Expr::Bin { left, right, .. } => expr_uses(left.get(), var) || expr_uses(right.get(), var),
        Expr::Not(operand) => expr_uses(operand.get(), var),
    }
}

// Whether one of several expressions does.
fn exprs_use(exprs: &[Expr], var: u16) -> bool
    ensures { result ≡ exprs_use var exprs.now }
{
    exprs.iter().any(|expr| expr_uses(expr, var))
}

// Whether a condition is on a variable.
fn conds_use(conds: &[(u16, bool)], var: u16) -> bool
    ensures { result ≡ conds_use var conds.now }
{
    conds.iter().any(|cond| cond.0 == var)
}
