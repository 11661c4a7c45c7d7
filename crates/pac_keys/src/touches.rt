// The rows that operations may touch.
ghost use Rattle.std.specs.Prelude.{◌≡◌, IfOk, true, false};
ghost use Rattle.std.specs.List.{filter_map, list_any, AllByRecursion};
ghost use Rattle.pac_keys.specs.Probes.{CanProbe, is_open, key_touched, touch_of, probed};
ghost use Rattle.pac_ops.specs.Flat.{all_hold};

use crate::probe::Probe;
use pac_base::{NoMemory, listed};
use pac_ops::{all_hold, key_of};
use pac_plan::{Access, Touch};
use pac_value::{Env, Key};
use std::alloc::Global;

/// The access that probes give.
pub(crate) fn probed(alloc: Global, probes: &[Probe], env: &Env) -> Result<Access, NoMemory>
    requires { AllByRecursion (CanProbe env.now) probes.now }
    ensures { IfOk result (λ access. access ≡ probed env.now probes.now) }
{
    if any_open(probes, env) {
        return Ok(Access::Whole);
    }
    let touches = touches(alloc, probes, env)?;
    Ok(Access::Keys(listed(touches)))
}

// Whether an operation may run whose key isn't bounded.
fn any_open(probes: &[Probe], env: &Env) -> bool
    ensures { result ≡ list_any (is_open env.now) probes.now }
{
    probes.iter().any(|probe| is_open(probe, env))
}

// Whether the operation may run and its key isn't bounded.
fn is_open(probe: &Probe, env: &Env) -> bool
    ensures { result ≡ is_open env.now probe.now }
{
    !probe.is_bounded && all_hold(probe.conds.as_slice(), env)
}

// The touches of operations of which none is open.
fn touches(alloc: Global, probes: &[Probe], env: &Env) -> Result<Vec<Touch>, NoMemory>
    requires typed { AllByRecursion (CanProbe env.now) probes.now }
    requires closed { list_any (is_open env.now) probes.now ≡ false }
    ensures { IfOk result (λ touches. touches.items ≡ filter_map (touch_of env.now) probes.now) }
{
    let mut touches = Vec::new(alloc);
    for probe in probes {
        if let Some(key) = key_touched(probe, env) {
            touches.push(Touch {
                table: probe.table,
                key,
                is_write: probe.is_write,
            })?;
        }
    }
    Ok(touches)
}

// The key of an operation that may run, if it doesn't trap.
fn key_touched(probe: &Probe, env: &Env) -> Option<Key>
    requires typed { CanProbe env.now probe.now }
    requires closed { is_open env.now probe.now ≡ false }
    ensures { result ≡ key_touched env.now probe.now }
{
    if !all_hold(probe.conds.as_slice(), env) {
        return None;
    }
    key_of(&probe.key, env).ok()
}
