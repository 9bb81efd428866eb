//! The script of a history.

ghost use Rattle.std.specs.Prelude.{◌≡◌, None, count_by, IfOk, MatchResult};
ghost use Rattle.conversions.specs.Answers.{in_flight, others};
ghost use Rattle.conversions.specs.Arrivals.{arrivals};
ghost use Rattle.conversions.specs.Faults.{arrivals_fault, IsFault};
ghost use Rattle.conversions.specs.Scripted.{is_setting, scripted};

use crate::answers::{answers_of, others};
use crate::arrival::arrivals_of;
use crate::arrivals_script::script_by;
use crate::fault::ScriptFault;
use crate::omitted::{in_flight, settings};
use cam_event::History;
use std::alloc::Global;
use trace_file::Script;

/// The script of a history, and what the script can't say of it.
#[derive(Drop)]
pub struct Scripted {
    /// The script.
    pub script: Script,
    /// How many of its answers are something else than a plain completion: status 01, SCSI status 00, no sense data. A lane
    /// gives each of them to the command that had it as long as it sends its commands in the order of the history; in a run
    /// where it sends them in another order another command may get it. If there is none, each command of each run comes out
    /// as in the history.
    pub others: u32,
    /// How many commands were in flight at the history's end. Their results aren't known; the script completes them plainly.
    pub in_flight: u32,
    /// How many freezes, releases and adjustments by callers there were. The script has none of them.
    pub settings: u32,
}

/// The script that asks for what a history asked for: its configuration, the largest limits, each driver's submits in their
/// order with a pause before each of a later round, and for each lane the outcomes of its commands in the order in which it
/// sent them, up to the last that isn't a plain completion.
///
/// Requeues are left out, since they follow from errors, and so are freezes, releases and adjustments, which ask for nothing:
/// in a run of the script commands may be sent that had to wait in the history, and an error may meet another command.
///
/// # Errors
///
/// `Driver` names the first driver beyond 7. `Steps` if submits and pauses are more than 4,096. `OutOfMemory` if no memory is
/// left.
pub fn script_of(alloc: Global, history: &History) -> Result<Scripted, ScriptFault>
    ensures script { IfOk result (λ r. r.script ≡ scripted history.now) }
    ensures others { IfOk result (λ r. r.others ≡ others r.script.answers) }
    ensures in_flight { IfOk result (λ r. r.in_flight ≡ in_flight history.now.events) }
    ensures settings { IfOk result (λ r. r.settings ≡ count_by is_setting history.now.events) }
    ensures fault { MatchResult result
        (λ _. arrivals_fault (arrivals history.now.events) ≡ None)
        (λ fault. IsFault (arrivals_fault (arrivals history.now.events)) fault) }
{
    let script = script_only(alloc, history)?;
    let others = others(script.answers());
    Ok(Scripted {
        script,
        others,
        in_flight: in_flight(history.events()),
        settings: settings(history.events()),
    })
}

// The script alone.
fn script_only(alloc: Global, history: &History) -> Result<Script, ScriptFault>
    ensures script { IfOk result (λ s. s ≡ scripted history.now) }
    ensures fault { MatchResult result
        (λ _. arrivals_fault (arrivals history.now.events) ≡ None)
        (λ fault. IsFault (arrivals_fault (arrivals history.now.events)) fault) }
{
    let events = history.events();
    let config = history.config().copy(alloc)?;
    let all = arrivals_of(alloc, events)?;
    let answers = answers_of(alloc, events, config.lanes().len())?;
    let script = script_by(alloc, config, &all, answers)?;
    Ok(script)
}
