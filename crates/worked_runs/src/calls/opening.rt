//! What a transport is opened with.

use crate::calls::line::Words;
use crate::fault::Fault;
use cam_types::{Adapter, Config, Device, Limits, standard_weights};
use std::alloc::{AllocError, Global};
use xpt_state::Xpt;

/// The links, adapters, devices and lanes of a transport, and how far it goes.
#[derive(Drop)]
pub struct Opening {
    links: Vec<u32>,
    adapters: Vec<Adapter>,
    devices: Vec<Device>,
    lanes: Vec<u32>,
    limits: Limits,
}

impl Opening {
    /// Nothing yet, and the largest limits.
    pub fn new(alloc: Global) -> Opening {
        Opening {
            links: Vec::new(alloc),
            adapters: Vec::new(alloc),
            devices: Vec::new(alloc),
            lanes: Vec::new(alloc),
            limits: Limits::most(),
        }
    }

    /// Adds what a line says, and answers whether it says something of an opening: `limits` of CCBs, rounds, stays and
    /// events; `link` or `adapter` with its openings; `linked`, an adapter with its openings and its link; `device` with
    /// its adapter and its openings, at the next target; `lane` with its adapter.
    pub fn add(&mut self, words: &Words<'_>) -> Result<bool, AllocError> {
        let [first, second, third, fourth, ..] = words.numbers;
        match words.word {
            "limits" => match Limits::new(first, second, third, fourth) {
                Ok(limits) => self.limits = limits,
                Err(_) => return Ok(false),
            },
            "link" => self.links.push(first)?,
            "adapter" => self.add_adapter(first, None)?,
            "linked" => self.add_adapter(first, Some(second))?,
            "device" => self.add_device(first, second)?,
            "lane" => self.lanes.push(first)?,
            _ => return Ok(false),
        }
        Ok(true)
    }

    fn add_adapter(&mut self, openings: u32, link: Option<u32>) -> Result<(), AllocError> {
        self.adapters.push(Adapter { openings, link })?;
        Ok(())
    }

    fn add_device(&mut self, adapter: u32, openings: u32) -> Result<(), AllocError> {
        self.devices.push(Device {
            bus: u8::try_from(adapter).unwrap_or(u8::MAX),
            target: u16::try_from(self.devices.len()).unwrap_or(u16::MAX),
            lun: 0,
            openings,
        })?;
        Ok(())
    }

    /// The devices, by number.
    pub fn devices(&self) -> &[Device] {
        &self.devices
    }

    /// How far the transport goes.
    pub fn limits(&self) -> Limits {
        self.limits
    }

    /// Opens the transport.
    pub fn open(&self, alloc: Global) -> Result<Xpt, Fault> {
        let config = self.config(alloc)?;
        Ok(Xpt::open(alloc, config, self.limits)?)
    }

    /// The configuration, with the standard table of weights.
    pub fn config(&self, alloc: Global) -> Result<Config, Fault> {
        Ok(Config::with_links(
            alloc,
            &standard_weights(),
            &self.links,
            &self.adapters,
            &self.devices,
            &self.lanes,
        )?)
    }
}
