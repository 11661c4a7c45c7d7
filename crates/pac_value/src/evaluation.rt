// The values of expressions.
ghost use Rattle.std.specs.Prelude.{◌≡◌, true, false, Some, IsSome, IfOk};
ghost use Rattle.pac_value.specs.Values.{type_of, value_cmp, as_key, key_value};
ghost use Rattle.pac_value.specs.Forms.{calculates, tests, key_given};
ghost use Rattle.pac_value.specs.Expressions.{value, type_in, types_of, decides, is_arithmetic, as_value, operator_type, applied, divided, quotient, remainder};
ghost use Rattle.pac_value.specs.declared.values.Ty.TheVariants.{Int as IntTy, Bool as BoolTy};
ghost use Rattle.pac_value.specs.declared.values.Value.TheVariants.{Int as AnInt};
ghost use Rattle.pac_value.specs.declared.expr.BinOp.TheVariants.{Lt};

use crate::{BinOp, Env, Expr, Key, Trap, Value};
use std::cmp::Ordering;

/// The value of an expression that is well typed where its variables have the types of their values. Operands are
/// evaluated from left to right; the right one of `&&` and `||` only where the left one does not decide. Takes no
/// memory, and time that grows with the size of the expression.
///
/// # Errors
///
/// The first trap that is met: `Overflow` exactly where a result leaves the 64 bits of an int, `DivZero` exactly where a
/// divisor is zero. An operand's trap comes before that of its operator.
#[cycle(eval)]
#[inline(always)]
pub fn eval(expr: &Expr, env: &Env) -> Result<Value, Trap>
    requires { IsSome (type_in (types_of env.now) expr.now) }
    ensures value { result ≡ value expr.now env.now }
    ensures typed { IfOk result (λ v. type_in (types_of env.now) expr.now ≡ Some (type_of v)) }
{
    match expr {
        Expr::Lit(value) => Ok(*value),
        Expr::Var(var) => Ok(*env.value_of(*var).unwrap()),
        Expr::Bin { op, .. } => {
            if is_arithmetic(*op) {
                return Ok(Value::Int(eval_int(expr, env)?));
            }
            eval_test(expr, env)
        }
        Expr::Not(_) => eval_test(expr, env),
    }
}

// The value of a test. It stands apart, since a call pays for the values that it may hold.
#[cycle(eval)]
fn eval_test(expr: &Expr, env: &Env) -> Result<Value, Trap>
    requires typed { IsSome (type_in (types_of env.now) expr.now) }
    requires test { tests expr.now ≡ true }
    ensures value { result ≡ value expr.now env.now }
    ensures typed { IfOk result (λ v. type_in (types_of env.now) expr.now ≡ Some (type_of v)) }
{
    match expr {
        Expr::Bin { op, left, right } => {
            let first = eval(left.get(), env)?;
            if decides(*op, first) {
                Ok(first)
            } else {
                apply(*op, first, eval(right.get(), env)?)
            }
        }
        Expr::Not(operand) => match eval(operand.get(), env)? {
            Value::Bool(truth) => Ok(Value::Bool(!truth)),
            _ => unreachable!(),
        },
        Expr::Lit(_) | Expr::Var(_) => unreachable!(),
    }
}

/// The key that an expression of an int or a text gives. Takes no memory.
///
/// # Errors
///
/// The trap that stops the expression, as [`eval`] returns it.
pub fn eval_key(expr: &Expr, env: &Env) -> Result<Key, Trap>
    requires typed { IsSome (type_in (types_of env.now) expr.now) }
    requires stored { type_in (types_of env.now) expr.now ≡ Some BoolTy → ⊥ }
    ensures key { result ≡ key_given expr.now env.now }
    ensures typed { IfOk result (λ key. type_in (types_of env.now) expr.now ≡ Some (type_of (key_value key))) }
{
    match expr {
        Expr::Lit(value) => Ok(key_of(value)),
        Expr::Var(var) => Ok(key_of(env.value_of(*var).unwrap())),
        Expr::Bin { .. } => Ok(Key::Int(eval_int(expr, env)?)),
        Expr::Not(_) => unreachable!(),
    }
}

// The key with an int's or a text's value.
fn key_of(value: &Value) -> Key
    requires { type_of value.now ≡ BoolTy → ⊥ }
    ensures key { result ≡ as_key value.now }
    ensures typed { type_of (key_value result) ≡ type_of value.now }
{
    match value {
        Value::Int(number) => Key::Int(*number),
        Value::Text(text) => Key::Text(*text),
        Value::Bool(_) => unreachable!(),
    }
}

// The value of an expression that is an int. A value is large, so that it pays to hand on the number alone.
#[cycle(int)]
#[inline(always)]
fn eval_int(expr: &Expr, env: &Env) -> Result<i64, Trap>
    requires { type_in (types_of env.now) expr.now ≡ Some IntTy }
    ensures { as_value result ≡ value expr.now env.now }
{
    match expr {
        Expr::Lit(value) => Ok(int_of(value)),
        Expr::Var(var) => Ok(int_of(env.value_of(*var).unwrap())),
        Expr::Bin { .. } => calculation(expr, env),
        Expr::Not(_) => unreachable!(),
    }
}

// What arithmetic gives. Operands that are variables or written out take no call.
#[cycle(int)]
fn calculation(expr: &Expr, env: &Env) -> Result<i64, Trap>
    requires int { type_in (types_of env.now) expr.now ≡ Some IntTy }
    requires form { calculates expr.now ≡ true }
    ensures { as_value result ≡ value expr.now env.now }
{
    match expr {
        Expr::Bin { op, left, right } => {
            let first = eval_int(left.get(), env)?;
            match eval_int(right.get(), env) {
                Ok(second) => calculate(*op, first, second),
                Err(trap) => Err(trap),
            }
        }
        _ => unreachable!(),
    }
}

// Whether an operator gives an int for two ints.
fn is_arithmetic(op: BinOp) -> bool
    ensures { result ≡ is_arithmetic op }
{
    matches!(
        op,
        BinOp::Add | BinOp::Sub | BinOp::Mul | BinOp::Div | BinOp::Rem
    )
}

// What arithmetic gives for two ints.
fn calculate(op: BinOp, left: i64, right: i64) -> Result<i64, Trap>
    requires { is_arithmetic op ≡ true }
    ensures { as_value result ≡ applied op (AnInt left) (AnInt right) }
{
    match op {
        BinOp::Add => left.checked_add(right).ok_or(Trap::Overflow),
        BinOp::Sub => left.checked_sub(right).ok_or(Trap::Overflow),
        BinOp::Mul => left.checked_mul(right).ok_or(Trap::Overflow),
        BinOp::Div => divide(left, right),
        BinOp::Rem => remainder(left, right),
        _ => unreachable!(),
    }
}

// What an operator that is none of arithmetic gives for operands of its types.
fn apply(op: BinOp, left: Value, right: Value) -> Result<Value, Trap>
    requires typed { IsSome (operator_type op (type_of left) (type_of right)) }
    requires other { is_arithmetic op ≡ false }
    ensures value { result ≡ applied op left right }
    ensures typed { IfOk result (λ v. operator_type op (type_of left) (type_of right) ≡ Some (type_of v)) }
{
    match op {
        BinOp::Eq => Ok(Value::Bool(left == right)),
        BinOp::Ne => Ok(Value::Bool(left != right)),
        BinOp::Lt => Ok(Value::Bool(compare(left, right).is_lt())),
        BinOp::Le => Ok(Value::Bool(compare(left, right).is_le())),
        BinOp::Gt => Ok(Value::Bool(compare(left, right).is_gt())),
        BinOp::Ge => Ok(Value::Bool(compare(left, right).is_ge())),
        BinOp::And | BinOp::Or => Ok(right),
        BinOp::Add | BinOp::Sub | BinOp::Mul | BinOp::Div | BinOp::Rem => unreachable!(),
    }
}

fn int_of(value: &Value) -> i64
    requires { type_of value.now ≡ IntTy }
    ensures { value.now ≡ AnInt result }
{
    match value {
        Value::Int(number) => *number,
        _ => unreachable!(),
    }
}

fn divide(left: i64, right: i64) -> Result<i64, Trap>
    ensures { as_value result ≡ divided right (quotient left right) }
{
    if right == 0 {
        return Err(Trap::DivZero);
    }
    left.checked_div(right).ok_or(Trap::Overflow)
}

fn remainder(left: i64, right: i64) -> Result<i64, Trap>
    ensures { as_value result ≡ divided right (remainder left right) }
{
    if right == 0 {
        return Err(Trap::DivZero);
    }
    // The least int has no quotient by -1, and the remainder 0.
    if right == -1 {
        return Ok(0);
    }
    Ok(left % right)
}

// The order of two ints or two texts.
fn compare(left: Value, right: Value) -> Ordering
    requires { IsSome (operator_type Lt (type_of left) (type_of right)) }
    ensures { result ≡ value_cmp left right }
{
    match left {
        Value::Int(left) => left.cmp(&int_of(&right)),
        Value::Text(left) => {
            let Value::Text(right) = right else {
                unreachable!()
            };
            left.cmp(&right)
        }
        Value::Bool(_) => unreachable!(),
    }
}

// Whether the left operand decides what `&&` or `||` gives.
fn decides(op: BinOp, left: Value) -> bool
    ensures { result ≡ decides op left }
{
    match op {
        BinOp::And => left == Value::Bool(false),
        BinOp::Or => left == Value::Bool(true),
        _ => false,
    }
}
