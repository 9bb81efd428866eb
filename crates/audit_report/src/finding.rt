//! What comes of a claim about a net, and the line that says so.

ghost use Rattle.std.specs.Prelude.{◌≡◌, ◌≢◌, ◌++◌, length, slice_index, codes, IfOk, OnOk};
ghost use Rattle.audit_report.specs.Words.{instance_of_rows, IsPricingFor, IsBest};
ghost use Rattle.audit_report.specs.Findings.{IsProved, IsRight, Says, is_proved, cause_text, gap_text, stay_text, finding_text};

use crate::costs::Costs;
use event_rules::Stay;
use itoa::Buffer;
use price_check::{Cause, Verdict, check};
use report_text::{Claim, push_name};
use round_net::Net;
use std::alloc::{AllocError, Global};

/// What comes of a claim that somebody made about a net.
#[derive(Clone, Copy)]
pub enum Finding {
    /// The prices prove that the schedule is a best one, and the numbers beside it are right.
    Proved,
    /// The schedule is admissible, but costs so much more than the prices are worth.
    Gap(u128),
    /// The schedule isn't admissible: the first stay, in creation order, with whose place something is wrong.
    NotAdmissible(Stay, Cause),
    /// The prices prove the schedule, but the stated cost is wrong.
    WrongBest,
    /// The prices prove the schedule, and the stated cost is right, but the stated excess is wrong.
    WrongExcess,
}

impl Finding {
    /// What comes of a claim about the net.
    pub fn of(alloc: Global, net: &Net, claim: &Claim) -> Result<Finding, AllocError>
        requires stays { length claim.now.schedule ≡ (instance_of_rows net.now).stays }
        requires cells { IsPricingFor (instance_of_rows net.now) claim.now.prices }
        ensures says { IfOk result (Says net.now claim.now) }
        ensures right { IfOk result (λ finding. IsRight net.now claim.now → finding ≡ Finding.Proved) }
    {
        let mut counts = vec![in alloc; 0u32; net.cells()]?;
        Ok(
            match check(net, &claim.schedule, &claim.prices, &mut counts) {
                Verdict::Proved => Finding::of_numbers(net, claim),
                Verdict::Gap(gap) => Finding::Gap(gap),
                Verdict::NotAdmissible(stay, cause) => Finding::NotAdmissible(stay, cause),
            },
        )
    }

    // What comes of the numbers that stand beside a best schedule.
    fn of_numbers(net: &Net, claim: &Claim) -> Finding
        requires stays { length claim.now.schedule ≡ (instance_of_rows net.now).stays }
        requires proved { IsProved net.now claim.now }
        requires best { IsBest (instance_of_rows net.now) (slice_index claim.now.schedule) }
        ensures says { Says net.now claim.now result }
        ensures right { IsRight net.now claim.now → result ≡ Finding.Proved }
    {
        let costs = Costs::of(net, &claim.schedule);
        if claim.best != costs.best {
            Finding::WrongBest
        } else if claim.excess != costs.excess {
            Finding::WrongExcess
        } else {
            Finding::Proved
        }
    }

    /// Whether the claim is right in all.
    pub fn is_proved(self) -> bool
        ensures { result ≡ is_proved self }
    {
        match self {
            Finding::Proved => true,
            _ => false,
        }
    }

    /// Puts the line that says it after the text.
    pub fn write(self, text: &mut Vec<u8>) -> Result<(), AllocError>
        ensures { OnOk result (text.new.items ≡ text.old.items ++ finding_text self) }
    {
        match self {
            Finding::Proved => text.extend_from_slice(b"proved\n"),
            Finding::Gap(gap) => write_gap(text, gap),
            Finding::NotAdmissible(stay, cause) => write_stay(text, stay, cause),
            Finding::WrongBest => text.extend_from_slice(b"not proved: best\n"),
            Finding::WrongExcess => text.extend_from_slice(b"not proved: excess\n"),
        }
    }
}

#[tactic(auto, unfolding(crate::specs::Findings::gap_text))]
fn write_gap(text: &mut Vec<u8>, gap: u128) -> Result<(), AllocError>
    ensures { OnOk result (text.new.items ≡ text.old.items ++ gap_text gap) }
{
    let mut digits = Buffer::new();
    text.extend_from_slice(b"not proved: gap ")?;
    text.extend_from_slice(digits.format(gap).as_bytes())?;
    text.extend_from_slice(b"\n")?;
    Ok(())
}

#[tactic(auto, unfolding(crate::specs::Findings::stay_text))]
fn write_stay(text: &mut Vec<u8>, stay: Stay, cause: Cause) -> Result<(), AllocError>
    ensures { OnOk result (text.new.items ≡ text.old.items ++ stay_text stay cause) }
{
    text.extend_from_slice(b"not proved: stay")?;
    push_name(text, stay)?;
    write_cause(text, cause)?;
    Ok(())
}

// Puts a space, a cause and a line feed after the text.
fn write_cause(text: &mut Vec<u8>, cause: Cause) -> Result<(), AllocError>
    ensures { OnOk result (text.new.items ≡ text.old.items ++ (codes " " ++ (cause_text cause ++ codes "\n"))) }
{
    text.extend_from_slice(b" ")?;
    text.extend_from_slice(cause_text(cause))?;
    text.extend_from_slice(b"\n")?;
    Ok(())
}

// What is wrong with a stay's place, in words.
fn cause_text(cause: Cause) -> &'static [u8]
    ensures { result.now ≡ cause_text cause }
{
    match cause {
        Cause::Early => b"early",
        Cause::Late => b"late",
        Cause::DeviceFull => b"device full",
        Cause::AdapterFull => b"adapter full",
        Cause::LinkFull => b"link full",
    }
}
