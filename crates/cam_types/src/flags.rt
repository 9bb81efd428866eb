//! The flags of a CCB that concern freezes.

ghost use Rattle.std.specs.Prelude.{◌≡◌, false};

/// What a CCB asks of the freezes of its device's queue, in the words of FreeBSD's `cam.h`.
#[derive(Clone, Copy, Debug, PartialEq, Eq, Default)]
pub struct Flags {
    /// CAM_DEV_QFREEZE: each of its sends adds one to the freezes of its device by callers.
    pub qfreeze: bool,
    /// CAM_DEV_QFRZDIS: its erring completions don't freeze its device.
    pub qfrzdis: bool,
}

impl Flags {
    /// Neither flag.
    pub fn none() -> Flags
        ensures { result ≡ record { qfreeze = false; qfrzdis = false } }
    {
        Flags {
            qfreeze: false,
            qfrzdis: false,
        }
    }
}
