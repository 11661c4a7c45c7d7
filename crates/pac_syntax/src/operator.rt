// Operators: their symbols, and how loosely they bind.
ghost use Rattle.std.specs.Prelude.{◌≡◌};
ghost use Rattle.pac_syntax.specs.Grammar.{operator_symbol, precedence};
ghost use Rattle.pac_syntax.specs.Machine.{operator_of};
ghost use Rattle.pac_syntax.specs.Views.{next_precedence};

use pac_tokens::Symbol;
use pac_value::BinOp;

/// The precedence of comparisons, which do not follow one another.
pub const COMPARISONS: u8 = 2;

/// The operator that a symbol is.
pub(crate) fn operator_by(sign: Symbol) -> Option<BinOp>
    ensures { result ≡ operator_of sign }
{
    match sign {
        Symbol::Plus => Some(BinOp::Add),
        Symbol::Minus => Some(BinOp::Sub),
        Symbol::Star => Some(BinOp::Mul),
        Symbol::Slash => Some(BinOp::Div),
        Symbol::Percent => Some(BinOp::Rem),
        Symbol::Equal => Some(BinOp::Eq),
        Symbol::NotEqual => Some(BinOp::Ne),
        Symbol::Less => Some(BinOp::Lt),
        Symbol::LessEqual => Some(BinOp::Le),
        Symbol::Greater => Some(BinOp::Gt),
        Symbol::GreaterEqual => Some(BinOp::Ge),
        Symbol::And => Some(BinOp::And),
        Symbol::Or => Some(BinOp::Or),
        _ => None,
    }
}

/// The symbol of an operator.
pub fn operator_symbol(op: BinOp) -> Symbol
    ensures { result ≡ operator_symbol op }
{
    match op {
        BinOp::Add => Symbol::Plus,
        BinOp::Sub => Symbol::Minus,
        BinOp::Mul => Symbol::Star,
        BinOp::Div => Symbol::Slash,
        BinOp::Rem => Symbol::Percent,
        BinOp::Eq => Symbol::Equal,
        BinOp::Ne => Symbol::NotEqual,
        BinOp::Lt => Symbol::Less,
        BinOp::Le => Symbol::LessEqual,
        BinOp::Gt => Symbol::Greater,
        BinOp::Ge => Symbol::GreaterEqual,
        BinOp::And => Symbol::And,
        BinOp::Or => Symbol::Or,
    }
}

/// How loosely an operator binds: its precedence, from that of products on.
pub fn precedence_of(op: BinOp) -> u8
    ensures { result ≡ precedence op }
{
    match op {
        BinOp::Mul | BinOp::Div | BinOp::Rem => 0,
        BinOp::Add | BinOp::Sub => 1,
        BinOp::Eq | BinOp::Ne | BinOp::Lt | BinOp::Le | BinOp::Gt | BinOp::Ge => COMPARISONS,
        BinOp::And => 3,
        BinOp::Or => 4,
    }
}

/// The tightest precedence whose operators may follow after an operator of a precedence and its right operand.
pub(crate) fn next_precedence(precedence: u8) -> u8
    ensures { result ≡ next_precedence precedence }
{
    match precedence {
        COMPARISONS => COMPARISONS + 1,
        other => other,
    }
}
