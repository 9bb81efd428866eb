//! The versions of scripts.

use crate::trace_fault::TraceFault;
use crate::trace_parser::{TraceParser, first_config};
use crate::version::Version;
use cam_types::Config;
use std::alloc::Global;

/// Which records of the configuration a script may have.
#[derive(Clone, Copy)]
pub(crate) enum ScriptVersion {
    /// Those of a trace of version 1, which has the standard weights and no link.
    One,
    /// Those of a trace of version 3: a table of weights and links too.
    Two,
}

impl ScriptVersion {
    ghost use Rattle.std.specs.Prelude.{◌≡◌, ◌≢◌, true, Ok, Err, IfOk};
    ghost use Rattle.trace_file.specs.ScriptReading.{first_parser, is_configuring};
    ghost use Rattle.trace_file.specs.ScriptVersions.{least_script, script_name, trace_version};
    ghost use Rattle.trace_file.specs.Sound.{IsSound};

    /// The least version that holds a configuration.
    pub(crate) fn least(config: &Config) -> ScriptVersion
        ensures { result ≡ least_script config.now }
    {
        match Version::least(config) {
            Version::One => ScriptVersion::One,
            Version::Two | Version::Three => ScriptVersion::Two,
        }
    }

    /// The version of the traces whose records of the configuration it has.
    pub(crate) fn traces(self) -> Version
        ensures { result ≡ trace_version self }
    {
        match self {
            ScriptVersion::One => Version::One,
            ScriptVersion::Two => Version::Three,
        }
    }

    /// The word that a script of this version begins with.
    pub(crate) fn name(self) -> &'static [u8]
        ensures { result.now ≡ script_name self }
    {
        match self {
            ScriptVersion::One => b"camscript1",
            ScriptVersion::Two => b"camscript2",
        }
    }

    /// A configuration to which no row was applied.
    #[tactic(auto, unfolding(crate::specs::Sound::IsSound))]
    pub(crate) fn first_parser(self, alloc: Global) -> Result<TraceParser, TraceFault>
        ensures value { result ≢ Err TraceFault.OutOfMemory → result ≡ Ok (first_parser self) }
        ensures sound { IfOk result IsSound }
        ensures configuring { IfOk result (λ t. is_configuring t ≡ true) }
    {
        let version = self.traces();
        Ok(TraceParser::Config(version, first_config(alloc, version)?))
    }
}
