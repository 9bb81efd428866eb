//! How many devices, adapters and links there are.

ghost use Rattle.std.specs.Prelude.{◌≡◌};
ghost use Rattle.recording_file.specs.Counts.{counts_of};
ghost use Rattle.recording_file.specs.Names.{named_count};
ghost use Rattle.recording_file.specs.Caps.{part_count};

use crate::name::NameKind;
use crate::part::PartKind;
use cam_types::Config;

/// How many devices, adapters and links there are.
#[derive(Clone, Copy)]
pub(crate) struct Counts {
    pub(crate) devices: u32,
    pub(crate) adapters: u32,
    pub(crate) links: u32,
}

impl Counts {
    #[tactic(auto, using(cam_types::proofs::ConfigLemmas::few_adapters, cam_types::proofs::ConfigLemmas::few_links))]
    pub(crate) fn of(config: &Config) -> Counts
        ensures { result ≡ counts_of config.now }
    {
        Counts {
            devices: config.devices().len() as u32,
            adapters: config.adapters().len() as u32,
            links: config.links().len() as u32,
        }
    }

    /// How many of a kind may have names.
    pub(crate) fn named(self, kind: NameKind) -> u32
        ensures { result ≡ named_count self kind }
    {
        match kind {
            NameKind::Driver => 256,
            NameKind::Device => self.devices,
            NameKind::Adapter => self.adapters,
            NameKind::Link => self.links,
        }
    }

    /// How many of a kind there are.
    pub(crate) fn parts(self, kind: PartKind) -> u32
        ensures { result ≡ part_count self kind }
    {
        match kind {
            PartKind::Device => self.devices,
            PartKind::Adapter => self.adapters,
            PartKind::Link => self.links,
        }
    }
}
