// What an operation finds before it does anything: whether its conditions hold, and which key it names.
ghost use Rattle.std.specs.Prelude.{◌≡◌, IsSome, Some};
ghost use Rattle.pac_value.specs.declared.values.Ty.TheVariants.{Bool as BoolTy};
ghost use Rattle.pac_value.specs.Expressions.{type_in, types_of};
ghost use Rattle.pac_ops.specs.Flat.{is_as_asked, all_hold};
ghost use Rattle.pac_ops.specs.Operations.{key_at};

use pac_value::{Env, Expr, Key, Trap, Value, eval_key};

/// Whether all conditions hold. One on a variable without a value doesn't.
pub fn all_hold(conds: &[(u16, bool)], env: &Env) -> bool
    ensures { result ≡ all_hold env.now conds.now }
{
    for cond in conds {
        if !is_as_asked(cond.1, env.get(cond.0)) {
            return false;
        }
    }
    true
}

// Whether a condition that asks for this holds of a value.
fn is_as_asked(asked: bool, value: Option<Value>) -> bool
    ensures { result ≡ is_as_asked asked value }
{
    match value {
        Some(Value::Bool(truth)) => truth == asked,
        Some(_) => !asked,
        None => false,
    }
}

/// The key that an expression of a key's type gives. Takes no memory.
///
/// # Errors
///
/// The trap that stops the expression.
pub fn key_of(key: &Expr, env: &Env) -> Result<Key, Trap>
    requires typed { IsSome (type_in (types_of env.now) key.now) }
    requires stored { type_in (types_of env.now) key.now ≡ Some BoolTy → ⊥ }
    ensures { result ≡ key_at key.now env.now }
{
    eval_key(key, env)
}
