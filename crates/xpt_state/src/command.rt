//! The command by which a CCB is sent.

ghost use Rattle.std.specs.Prelude.{◌≡◌};
ghost use Rattle.xpt_state.specs.Rows.{command_by};

use cam_types::Command;
use xpt_core::Ccb;

/// The command by which the CCB of this number is sent.
pub(crate) fn command_of(ccb: u32, row: &Ccb) -> Command
    ensures { result ≡ command_by ccb row.now }
{
    Command {
        ccb,
        attempt: row.attempt,
        driver: row.submission.driver,
        device: row.submission.device,
        priority: row.submission.priority,
    }
}
