//! The parser of a configuration, row by row.

ghost use Rattle.std.specs.Prelude.{◌≡◌, ◌≢◌, ◌≤◌, Err, IfOk};
ghost use Rattle.cam_types.specs.Topology.{IsConfig};
ghost use Rattle.cam_types.specs.declared.config.ConfigError.{ConfigError};
ghost use Rattle.record_text.specs.declared.config_row.ConfigRow.{ConfigRow};
ghost use Rattle.record_text.specs.ConfigParsing.{empty_table, standard_table, next_rank, row_rank, lacks_adapters, lacking, rows_before, with_row, finished, IsOrdered};

use crate::config_row::ConfigRow;
use crate::device_row::DeviceRow;
use cam_types::{Adapter, Config, ConfigError, ConfigFault, PartialConfig, WeightRow};
use std::alloc::{AllocError, Global};

/// A configuration in the making. Its rows come in this order: weights, links, adapters, devices, lanes.
#[derive(Drop)]
pub struct ConfigParser {
    /// What the last row was: 0 one of the weights, or none came yet; 1 a link; 2 an adapter; 3 a device; 4 a lane.
    pub rank: u32,
    /// Whether the weights are those of rows, and not the standard ones.
    pub table: bool,
    /// What the rows say.
    pub partial: PartialConfig,
}

impl ConfigParser {
    /// Nothing yet: rows of weights are due.
    pub fn new(alloc: Global) -> ConfigParser
        ensures value { result ≡ empty_table }
        ensures ordered { IsOrdered result }
    {
        ConfigParser {
            rank: 0,
            table: true,
            partial: PartialConfig::new(alloc),
        }
    }

    /// The standard weights alone. Rows of weights may take their place.
    pub fn standard(alloc: Global) -> Result<ConfigParser, AllocError>
        ensures value { IfOk result (λ c. c ≡ standard_table) }
        ensures ordered { IfOk result IsOrdered }
    {
        Ok(ConfigParser {
            rank: 0,
            table: false,
            partial: PartialConfig::standard(alloc)?,
        })
    }

    /// The least rank of the rows that may come next. A row of weights may come after links: it is then refused for what the
    /// configuration lacks.
    pub fn next_rank(&self) -> u32
        ensures { result ≡ next_rank self.now }
    {
        if self.rank <= 1 { 0 } else { self.rank }
    }

    /// Whether no adapter has come.
    pub fn lacks_adapters(&self) -> bool
        ensures { result ≡ lacks_adapters self.now }
    {
        self.rank < 2
    }

    /// What is lacking where no adapter has come.
    pub fn lacking(&self) -> ConfigFault
        ensures { result ≡ lacking self.now }
    {
        if self.partial.reaches_last() {
            ConfigFault::NoAdapters
        } else {
            ConfigFault::BadWeight
        }
    }

    /// How many rows of weights and links came: at most 20.
    pub fn rows_before(&self) -> u32
        ensures value { result ≡ rows_before self.now }
        ensures few { result ≤ 20 }
    {
        let weights = if self.table {
            self.partial.weight_count()
        } else {
            0
        };
        weights + self.partial.link_count()
    }

    /// One row more, or the rule that it breaks.
    pub fn with_row(self, alloc: Global, row: ConfigRow) -> Result<ConfigParser, ConfigError>
        requires ordered { IsOrdered self }
        requires place { next_rank self ≤ row_rank row }
        ensures value { result ≢ Err ConfigError.OutOfMemory → result ≡ with_row self row }
        ensures ordered { IfOk result IsOrdered }
        ensures rank { IfOk result (λ c. c.rank ≡ row_rank row) }
    {
        match row {
            ConfigRow::Weight(weight) => self.with_weight(alloc, weight),
            ConfigRow::Link(openings) => self.with_link(openings),
            ConfigRow::Sim(adapter) => self.with_adapter(adapter),
            ConfigRow::Dev(device) => self.with_device(device),
            ConfigRow::Lane(adapter) => self.with_lane(adapter),
        }
    }

    #[tactic(auto, unfolding(crate::specs::ConfigParsing::with_row))]
    fn with_weight(self, alloc: Global, row: WeightRow) -> Result<ConfigParser, ConfigError>
        requires ordered { IsOrdered self }
        requires place { next_rank self ≤ 0 }
        ensures value { result ≢ Err ConfigError.OutOfMemory → result ≡ with_row self (ConfigRow.Weight row) }
        ensures ordered { IfOk result IsOrdered }
        ensures rank { IfOk result (λ c. c.rank ≡ 0) }
    {
        if self.rank > 0 {
            return Err(ConfigError::Fault(self.lacking()));
        }
        let mut partial = if self.table {
            self.partial
        } else {
            PartialConfig::new(alloc)
        };
        partial.add_weight(row)?;
        Ok(ConfigParser {
            rank: 0,
            table: true,
            partial,
        })
    }

    #[tactic(auto, unfolding(crate::specs::ConfigParsing::with_row))]
    fn with_link(self, openings: u32) -> Result<ConfigParser, ConfigError>
        requires ordered { IsOrdered self }
        requires place { next_rank self ≤ 1 }
        ensures value { result ≢ Err ConfigError.OutOfMemory → result ≡ with_row self (ConfigRow.Link openings) }
        ensures ordered { IfOk result IsOrdered }
        ensures rank { IfOk result (λ c. c.rank ≡ 1) }
    {
        if !self.partial.reaches_last() {
            return Err(ConfigError::Fault(ConfigFault::BadWeight));
        }
        let mut partial = self.partial;
        partial.add_link(openings)?;
        Ok(ConfigParser {
            rank: 1,
            table: self.table,
            partial,
        })
    }

    #[tactic(auto, unfolding(crate::specs::ConfigParsing::with_row))]
    fn with_adapter(self, adapter: Adapter) -> Result<ConfigParser, ConfigError>
        requires ordered { IsOrdered self }
        requires place { next_rank self ≤ 2 }
        ensures value { result ≢ Err ConfigError.OutOfMemory → result ≡ with_row self (ConfigRow.Sim adapter) }
        ensures ordered { IfOk result IsOrdered }
        ensures rank { IfOk result (λ c. c.rank ≡ 2) }
    {
        if !self.partial.reaches_last() {
            return Err(ConfigError::Fault(ConfigFault::BadWeight));
        }
        let mut partial = self.partial;
        partial.add_adapter(adapter)?;
        Ok(ConfigParser {
            rank: 2,
            table: self.table,
            partial,
        })
    }

    #[tactic(auto, unfolding(crate::specs::ConfigParsing::with_row))]
    fn with_device(self, device: DeviceRow) -> Result<ConfigParser, ConfigError>
        requires ordered { IsOrdered self }
        requires place { next_rank self ≤ 3 }
        ensures value { result ≢ Err ConfigError.OutOfMemory → result ≡ with_row self (ConfigRow.Dev device) }
        ensures ordered { IfOk result IsOrdered }
        ensures rank { IfOk result (λ c. c.rank ≡ 3) }
    {
        if self.lacks_adapters() {
            return Err(ConfigError::Fault(self.lacking()));
        }
        let mut partial = self.partial;
        match partial.add_device(device.device()) {
            Ok(()) => Ok(ConfigParser {
                rank: 3,
                table: self.table,
                partial,
            }),
            Err(error) => Err(error),
        }
    }

    #[tactic(auto, unfolding(crate::specs::ConfigParsing::with_row))]
    fn with_lane(self, adapter: u32) -> Result<ConfigParser, ConfigError>
        requires { IsOrdered self }
        ensures value { result ≢ Err ConfigError.OutOfMemory → result ≡ with_row self (ConfigRow.Lane adapter) }
        ensures ordered { IfOk result IsOrdered }
        ensures rank { IfOk result (λ c. c.rank ≡ 4) }
    {
        if self.lacks_adapters() {
            return Err(ConfigError::Fault(self.lacking()));
        }
        let mut partial = self.partial;
        partial.add_lane(adapter)?;
        Ok(ConfigParser {
            rank: 4,
            table: self.table,
            partial,
        })
    }

    /// The configuration, or what it lacks.
    pub fn finish(self) -> Result<Config, ConfigFault>
        requires { IsOrdered self }
        ensures value { result ≡ finished self }
        ensures kept { IfOk result IsConfig }
    {
        self.partial.finish()
    }
}
