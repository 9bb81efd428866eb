//! The options of `whatif` that ask for more openings.

use recording_file::NameKind;

/// An option that asks for more openings.
#[derive(Clone, Copy, Debug)]
pub enum ChangeOption {
    /// For a device.
    Device,
    /// For an adapter.
    Adapter,
    /// For a link.
    Link,
    /// For any of them, in the rounds in which it took nothing.
    NeverStopped,
}

impl ChangeOption {
    /// Its name.
    pub fn id(self) -> &'static str {
        match self {
            ChangeOption::Device => "device",
            ChangeOption::Adapter => "adapter",
            ChangeOption::Link => "link",
            ChangeOption::NeverStopped => "never-stopped",
        }
    }

    /// Why a word that hasn't its form is refused.
    pub fn form(self) -> &'static str {
        match self {
            ChangeOption::Device => "not a device and its change, as sda=+1, 0=x2 or 0==4",
            ChangeOption::Adapter => "not an adapter and its change, as 0=+1, 0=x2 or 0==64",
            ChangeOption::Link => "not a link and its change, as 0=+1, 0=x2 or 0==64",
            ChangeOption::NeverStopped => "not a device, adapter:N or link:N, as sda",
        }
    }

    /// What it names.
    pub fn what(self) -> &'static str {
        match self {
            ChangeOption::Device => "device",
            ChangeOption::Adapter => "adapter",
            ChangeOption::Link => "link",
            ChangeOption::NeverStopped => "device, adapter or link",
        }
    }

    /// Of which kind the names are that it takes.
    pub fn kind(self) -> NameKind {
        match self {
            ChangeOption::Device | ChangeOption::NeverStopped => NameKind::Device,
            ChangeOption::Adapter => NameKind::Adapter,
            ChangeOption::Link => NameKind::Link,
        }
    }
}
