//! A script with other openings.

ghost use Rattle.std.specs.Prelude.{◌≡◌, true, map, IfOk};
ghost use Rattle.sweep.specs.Changes.{changed_script};
ghost use Rattle.sweep.specs.Choices.{are_open};

use crate::config::changed_config;
use crate::setting::Change;
use cam_types::Outcome;
use std::alloc::{AllocError, Global};
use trace_file::{Script, Step};

/// The script with these openings of its devices and adapters, and nothing else changed. A change of what isn't there changes
/// nothing, and of two changes of the same the first holds. It fails only if there is no memory.
pub fn changed_script(
    alloc: Global,
    script: &Script,
    changes: &[Change],
) -> Result<Script, AllocError>
    requires { are_open changes.now ≡ true }
    ensures { IfOk result (λ s. s ≡ changed_script script.now changes.now) }
{
    let config = changed_config(alloc, script.config(), changes)?;
    let drivers = copy_of_steps(alloc, script.drivers())?;
    let answers = copy_of_answers(alloc, script.answers())?;
    match Script::new(config, script.limits(), drivers, answers) {
        Some(script) => Ok(script),
        None => unreachable!(),
    }
}

fn copy_of_steps(alloc: Global, lists: &[Vec<Step>]) -> Result<Vec<Vec<Step>>, AllocError>
    ensures { IfOk result (λ all. map (λ l. l.items) all.items ≡ map (λ l. l.items) lists.now) }
{
    let mut all = Vec::with_capacity(alloc, lists.len())?;
    for list in lists {
        all.push(list.as_slice().to_vec(alloc)?)?;
    }
    Ok(all)
}

fn copy_of_answers(alloc: Global, lists: &[Vec<Outcome>]) -> Result<Vec<Vec<Outcome>>, AllocError>
    ensures { IfOk result (λ all. map (λ l. l.items) all.items ≡ map (λ l. l.items) lists.now) }
{
    let mut all = Vec::with_capacity(alloc, lists.len())?;
    for list in lists {
        all.push(list.as_slice().to_vec(alloc)?)?;
    }
    Ok(all)
}
