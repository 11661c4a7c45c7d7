// Writes expressions.
ghost use Rattle.std.specs.Prelude.{◌≡◌, OnOk};
ghost use Rattle.pac_value.specs.Growth.{Grew};
ghost use Rattle.pac_syntax.specs.Grammar.{precedence, left_level};
ghost use Rattle.pac_print.specs.Canonical.{spelled, operand_text, expr_text, further_text, exprs_text};

use pac_base::NoMemory;
use pac_syntax::{COMPARISONS, ExprNode, operator_symbol, precedence_of};
use pac_value::{BinOp, push_value};

// The level of what has no operator at its top.
const UNARY: u8 = 0;

// The loosest level of a left operand. Comparisons do not follow one another.
fn least_left_precedence(op: BinOp) -> u8
    ensures { result ≡ left_level (precedence op) }
{
    match precedence_of(op) {
        COMPARISONS => COMPARISONS,
        precedence => precedence + 1,
    }
}

fn level_of(expr: &ExprNode) -> u8
    ensures { result ≡ (spelled expr.now).level }
{
    match expr {
        ExprNode::Literal(_) | ExprNode::Name(_) | ExprNode::Not { .. } => UNARY,
        ExprNode::Binary { op, .. } => precedence_of(*op) + 1,
    }
}

#[cycle(expression)]
pub(crate) fn push_expr(out: &mut Vec<u8>, expr: &ExprNode) -> Result<(), NoMemory>
    ensures { OnOk result (Grew out.old.items out.new.items (expr_text expr.now)) }
{
    match expr {
        ExprNode::Literal(literal) => push_value(out, &literal.value),
        ExprNode::Name(name) => Ok(out.extend_from_slice(name.name.bytes())?),
        ExprNode::Binary {
            op,
            left,
            right,
            ..
        } => {
            push_operand(out, left.get(), least_left_precedence(*op))?;
            out.extend_from_slice(b" ")?;
            out.extend_from_slice(operator_symbol(*op).spelling())?;
            out.extend_from_slice(b" ")?;
            // Operators group from the left.
            push_operand(out, right.get(), precedence_of(*op))
        }
        ExprNode::Not { operand, .. } => {
            out.extend_from_slice(b"!")?;
            push_operand(out, operand.get(), UNARY)
        }
    }
}

// In parentheses, where it binds looser than it may.
#[cycle(expression)]
fn push_operand(out: &mut Vec<u8>, expr: &ExprNode, loosest: u8) -> Result<(), NoMemory>
    ensures { OnOk result (Grew out.old.items out.new.items (operand_text loosest (spelled expr.now))) }
{
    if level_of(expr) <= loosest {
        return push_expr(out, expr);
    }
    out.extend_from_slice(b"(")?;
    push_expr(out, expr)?;
    out.extend_from_slice(b")")?;
    Ok(())
}

fn push_further(out: &mut Vec<u8>, expr: &ExprNode) -> Result<(), NoMemory>
    ensures { OnOk result (Grew out.old.items out.new.items (further_text expr.now)) }
{
    out.extend_from_slice(b", ")?;
    push_expr(out, expr)
}

/// Expressions with a comma and a space between them.
pub(crate) fn push_exprs(out: &mut Vec<u8>, exprs: &[ExprNode]) -> Result<(), NoMemory>
    ensures { OnOk result (Grew out.old.items out.new.items (exprs_text exprs.now)) }
{
    let Some((first, others)) = exprs.split_first() else {
        return Ok(());
    };
    push_expr(out, first)?;
    for expr in others {
        push_further(out, expr)?;
    }
    Ok(())
}
