//! What is checked, audited and proved: a trace of this transport, or a recording of any scheduler.

use crate::audit_fault::AuditFault;
use cam_event::History;
use recording_file::Recording;
use round_net::{Net, NetFault};
use std::alloc::Global;

/// What was read to be checked, audited or proved.
#[derive(Drop)]
pub enum Input {
    /// A history of this transport, by its trace.
    Trace(History),
    /// What some scheduler did with requests.
    Recording(Recording),
}

impl Input {
    ghost use Rattle.std.specs.Prelude.{◌≡◌, None, IfOk, IfErr};
    ghost use Rattle.audit_report.specs.Inputs.{net_of_input, unsent_of, IsLegal, WhyNoNetOf};

    /// The net. Where a stay of a history has no send, the first of these in creation order is named.
    pub fn net(&self, alloc: Global) -> Result<Net, AuditFault>
        ensures net { IfOk result (λ net. net ≡ net_of_input self.now) }
        ensures complete { IfOk result (λ _. unsent_of self.now ≡ None) }
        ensures legal { IfOk result (λ _. IsLegal self.now) }
        ensures faults { IfErr result (WhyNoNetOf self.now) }
    {
        match self {
            Input::Trace(history) => net_of_history(alloc, history),
            Input::Recording(recording) => Ok(Net::of_recording(alloc, recording)?),
        }
    }
}

ghost use Rattle.std.specs.Prelude.{◌≡◌, None, true, IfOk, IfErr};
ghost use Rattle.audit_report.specs.Words.{net_of, unsent, history_rules, is_legal};
ghost use Rattle.audit_report.specs.Inputs.{WhyNoNetOf};

// That of a history.
fn net_of_history(alloc: Global, history: &History) -> Result<Net, AuditFault>
    ensures net { IfOk result (λ net. net ≡ net_of history.now.config history.now.events) }
    ensures complete { IfOk result (λ _. unsent history.now.events ≡ None) }
    ensures legal { is_legal history_rules history.now.config history.now.events ≡ true }
    ensures faults { IfErr result (WhyNoNetOf (Input.Trace history.now)) }
{
    let _events = history.events();
    match Net::of(alloc, history) {
        Ok(net) => Ok(net),
        Err(NetFault::Unsent(stay)) => Err(AuditFault::Unsent(stay)),
        Err(NetFault::OutOfMemory) => Err(AuditFault::OutOfMemory),
    }
}
