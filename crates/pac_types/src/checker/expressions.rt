// Expressions by numbers, with their types.
ghost use Rattle.std.specs.Prelude.{◌≡◌};
ghost use Rattle.pac_base.specs.Refusals.{Reports};
ghost use Rattle.pac_types.specs.Faults.{is_left};
ghost use Rattle.pac_types.specs.Checking.{taken, is_right, result_ty, checked_expr, checked_wanted, checked_test};
ghost use Rattle.pac_value.specs.Scopes.{is_wanted, is_bool};

use crate::TypeError;
use crate::checker::scope::Scope;
use crate::type_error::{TypeFault, TypeFaultKind};
use pac_base::Boxed;
use pac_syntax::ExprNode;
use pac_value::{BinOp, Expr, Ty};
use std::alloc::Global;

/// An expression with a number for each name, its type, and the offset where it stands.
#[derive(Drop)]
pub(crate) struct Typed {
    pub at: usize,
    pub expr: Expr,
    pub ty: Ty,
}

// That an expression at an offset has a type that is taken there.
pub(crate) fn taken(at: usize, is_taken: bool) -> Result<(), TypeFault>
    ensures { result ≡ taken at is_taken }
{
    if is_taken {
        Ok(())
    } else {
        let kind = TypeFaultKind::WrongType;
        Err(TypeFault { at, kind })
    }
}

// Whether an operator takes a left operand of this type.
fn is_left(op: BinOp, ty: Ty) -> bool
    ensures { result ≡ is_left op ty }
{
    match op {
        BinOp::Add | BinOp::Sub | BinOp::Mul | BinOp::Div | BinOp::Rem => ty == Ty::Int,
        BinOp::Eq | BinOp::Ne => true,
        BinOp::Lt | BinOp::Le | BinOp::Gt | BinOp::Ge => ty != Ty::Bool,
        BinOp::And | BinOp::Or => ty == Ty::Bool,
    }
}

// Whether an operator takes a right operand of this type after a left one of that.
fn is_right(op: BinOp, left: Ty, right: Ty) -> bool
    ensures { result ≡ is_right op left right }
{
    match op {
        BinOp::Add | BinOp::Sub | BinOp::Mul | BinOp::Div | BinOp::Rem => right == Ty::Int,
        BinOp::And | BinOp::Or => right == Ty::Bool,
        _ => right == left,
    }
}

// The type of what an operator gives.
fn result_ty(op: BinOp) -> Ty
    ensures { result ≡ result_ty op }
{
    match op {
        BinOp::Add | BinOp::Sub | BinOp::Mul | BinOp::Div | BinOp::Rem => Ty::Int,
        _ => Ty::Bool,
    }
}

/// The expression of a node over the visible variables.
pub(crate) fn check_expr(alloc: Global, scope: &Scope, node: &ExprNode) -> Result<Typed, TypeError>
    ensures { Reports (λ typed. typed) result (checked_expr scope.now node.now) }
{
    match node {
        ExprNode::Literal(literal) => Ok(Typed {
            at: literal.at,
            expr: Expr::Lit(literal.value),
            ty: literal.value.ty(),
        }),
        ExprNode::Name(name) => {
            let variable = scope.find(name)?;
            Ok(Typed {
                at: name.at,
                expr: Expr::Var(variable.number),
                ty: variable.ty,
            })
        }
        ExprNode::Binary {
            at,
            op,
            left,
            right,
        } => {
            let left = check_expr(alloc, scope, left.get())?;
            taken(left.at, is_left(*op, left.ty))?;
            let right = check_expr(alloc, scope, right.get())?;
            taken(right.at, is_right(*op, left.ty, right.ty))?;
            Ok(Typed {
                at: *at,
                expr: Expr::Bin {
                    op: *op,
                    left: Boxed::new(alloc, left.expr)?,
                    right: Boxed::new(alloc, right.expr)?,
                },
                ty: result_ty(*op),
            })
        }
        ExprNode::Not { at, operand } => {
            let operand = check_expr(alloc, scope, operand.get())?;
            taken(operand.at, operand.ty == Ty::Bool)?;
            Ok(Typed {
                at: *at,
                expr: Expr::Not(Boxed::new(alloc, operand.expr)?),
                ty: Ty::Bool,
            })
        }
    }
}

// Whether an expression's type is what a key or a column wants.
pub(crate) fn wanted(ty: Ty, by: Option<Ty>) -> bool
    ensures { result ≡ is_wanted (Some ty) by }
{
    match (ty, by) {
        (Ty::Int, Some(Ty::Int)) | (Ty::Text, Some(Ty::Text)) => true,
        _ => false,
    }
}

/// The expression of a node where a key or a column wants its type.
pub(crate) fn check_wanted(
    alloc: Global,
    scope: &Scope,
    node: &ExprNode,
    by: Option<Ty>,
) -> Result<Expr, TypeError>
    ensures { Reports (λ expr. expr) result (checked_wanted scope.now node.now by) }
{
    let typed = check_expr(alloc, scope, node)?;
    taken(typed.at, wanted(typed.ty, by))?;
    Ok(typed.expr)
}

/// The expression of a node that is a condition.
pub(crate) fn check_test(alloc: Global, scope: &Scope, node: &ExprNode) -> Result<Expr, TypeError>
    ensures { Reports (λ expr. expr) result (checked_test scope.now node.now) }
{
    let typed = check_expr(alloc, scope, node)?;
    taken(typed.at, typed.ty == Ty::Bool)?;
    Ok(typed.expr)
}
