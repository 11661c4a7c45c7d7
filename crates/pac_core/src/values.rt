// Values that pieces find.
ghost use Rattle.std.specs.Prelude.{◌≡◌, ◌↔◌, IsTrue, OnOk};
ghost use Rattle.std.specs.Option.{option_map};
ghost use Rattle.pac_value.specs.Restricted.{HasOnly};

use crate::kept_values::KeptValues;
use pac_base::NoMemory;
use pac_value::{Env, Value};

/// The values of variables, of those that have one, in place of what an environment had. It keeps its room.
pub(crate) fn find_values(env: &mut Env, vars: &[u16], kept: &KeptValues) -> Result<(), NoMemory>
    ensures { OnOk result (HasOnly vars.now kept.now env.new) }
{
    env.clear();
    for var in vars {
        if let Some(value) = kept.get(*var) {
            env.set(*var, &value)?;
        }
    }
    Ok(())
}

/// Whether an environment has the values that are kept of these variables, and no others.
pub(crate) fn are_values(vars: &[u16], kept: &KeptValues, env: &Env) -> bool
    ensures { IsTrue result ↔ HasOnly vars.now kept.now env.now }
{
    for var in vars {
        if !is_same(env.get(*var), kept.value_of(*var)) {
            return false;
        }
    }
    env.has_only(vars, env)
}

// Whether the two are the same value, or both none.
fn is_same(one: Option<Value>, other: Option<&Value>) -> bool
    ensures { IsTrue result ↔ (one ≡ option_map (λ value. value.now) other.entry) }
{
    match (one, other) {
        (Some(one), Some(other)) => one == *other,
        (None, None) => true,
        _ => false,
    }
}
