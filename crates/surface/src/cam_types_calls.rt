//! The calls of `cam_types`: priorities, limits, configurations, results and watched devices.

use crate::tell::{begin, end, tell};
use anyhow::Result;
use cam_types::{
    Adapter, BadLimit, BadPriority, Command, Config, ConfigError, ConfigFault, Device, Flags,
    Limits, Outcome, Priority, SenseBytes, Watched, WeightRow,
};
use std::alloc::{AllocError, Global};
use std::io;
use std::io::{Read, Write};

const DEVICE: Device = Device {
    bus: 0,
    target: 1,
    lun: 0,
    openings: 1,
};

const WEIGHTS: [WeightRow; 2] = [
    WeightRow {
        last: 255,
        weight: 1000,
    },
    WeightRow {
        last: 1279,
        weight: 1,
    },
];

/// Makes each call once, and prints a line of what they answer.
pub fn call_cam_types(rt: &HostRuntime) -> Result<()> {
    begin(rt, "cam_types")?;
    call_priority(rt)?;
    call_limits(rt)?;
    call_config(rt, rt.alloc())?;
    call_fault(rt, rt.alloc())?;
    call_weighted(rt, rt.alloc())?;
    call_linked(rt, rt.alloc())?;
    call_values(rt)?;
    call_reader(rt)?;
    call_writer(rt, rt.alloc())?;
    end(rt)
}

fn call_priority(rt: &HostRuntime) -> Result<()> {
    let made: Result<Priority, BadPriority> = Priority::new(1152u32);
    let priority: Priority = made?;
    let (number, run_level): (u32, u32) = (priority.number(), priority.run_level());
    tell(
        rt,
        "priority and run level",
        &[number as u64, run_level as u64],
    )
}

fn call_limits(rt: &HostRuntime) -> Result<()> {
    let made: Result<Limits, BadLimit> = Limits::new(3u32, 4u32, 5u32, 6u32);
    let (some, most): (Limits, Limits) = (made?, Limits::most());
    let (ccbs, rounds): (u32, u32) = (some.ccbs(), some.rounds());
    let (stays, events): (u32, u32) = (some.stays(), some.events());
    tell(
        rt,
        "limits",
        &[ccbs as u64, rounds as u64, stays as u64, events as u64],
    )?;
    tell(
        rt,
        "most stays and events",
        &[most.stays() as u64, most.events() as u64],
    )
}

fn call_config(rt: &HostRuntime, alloc: Global) -> Result<()> {
    let adapters: &[u32] = &[1];
    let devices: &[Device] = &[DEVICE];
    let lanes: &[u32] = &[0];
    let made: Result<Config, ConfigError> = Config::new(alloc, adapters, devices, lanes);
    let copied: Result<Config, AllocError> = made?.copy(alloc);
    let config: Config = copied?;
    let adapters: &[Adapter] = config.adapters();
    let devices: &[Device] = config.devices();
    let lanes: &[u32] = config.lanes();
    let counts = [
        adapters.len() as u64,
        devices.len() as u64,
        lanes.len() as u64,
    ];
    tell(rt, "adapters, devices and lanes", &counts)
}

fn call_fault(rt: &HostRuntime, alloc: Global) -> Result<()> {
    let made: Result<Config, ConfigError> = Config::new(alloc, &[], &[], &[]);
    let number = match made {
        Ok(_) => 0,
        Err(ConfigError::Fault(fault)) => number_of(fault),
        Err(ConfigError::OutOfMemory) => 9,
    };
    tell(rt, "fault", &[number])
}

fn call_weighted(rt: &HostRuntime, alloc: Global) -> Result<()> {
    let rows: &[WeightRow] = &WEIGHTS;
    let config: Config = Config::with_weights(alloc, rows, &[1], &[DEVICE], &[0])?;
    let rows: &[WeightRow] = config.weights();
    let weight: u32 = config.weight(Priority::new(128)?);
    tell(
        rt,
        "weights, and at 128",
        &[rows.len() as u64, weight as u64],
    )
}

fn call_linked(rt: &HostRuntime, alloc: Global) -> Result<()> {
    let rows: &[WeightRow] = &WEIGHTS;
    let links: &[u32] = &[1];
    let adapters: &[Adapter] = &[Adapter {
        openings: 1,
        link: Some(0),
    }];
    let config: Config = Config::with_links(alloc, rows, links, adapters, &[DEVICE], &[0])?;
    let links: &[u32] = config.links();
    tell(rt, "links", &[links.len() as u64])
}

fn call_values(rt: &HostRuntime) -> Result<()> {
    let flags = Flags {
        qfreeze: true,
        qfrzdis: false,
    };
    let outcome = Outcome {
        status: 0x0cu8,
        scsi: 0x02u8,
        sense: SenseBytes::first(&[0x70u8; 20]),
    };
    let command = Command {
        ccb: 0u32,
        attempt: 0u32,
        driver: 7u8,
        device: 0u32,
        priority: 1152u32,
    };
    let sense: &[u8] = outcome.sense.bytes();
    let values = [
        flags.qfreeze as u64,
        command.driver as u64,
        sense.len() as u64,
    ];
    tell(rt, "qfreeze, driver and bytes of sense", &values)
}

fn call_reader(rt: &HostRuntime) -> Result<()> {
    let mut bytes = [0u8; 4];
    let mut reader = Watched::new(b"abc".as_slice());
    let read: io::Result<usize> = reader.read(&mut bytes);
    let has_failed: bool = reader.failed();
    tell(rt, "read, failed", &[read? as u64, has_failed as u64])
}

fn call_writer(rt: &HostRuntime, alloc: Global) -> Result<()> {
    let mut writer = Watched::new(Vec::new(alloc));
    let written: io::Result<usize> = writer.write(b"abc");
    let flushed: io::Result<()> = writer.flush();
    let has_failed: bool = writer.failed();
    tell(
        rt,
        "written, flushed, failed",
        &[written? as u64, flushed.is_ok() as u64, has_failed as u64],
    )
}

// The number of a fault, in the order of their names.
fn number_of(fault: ConfigFault) -> u64 {
    match fault {
        ConfigFault::NoAdapters => 1,
        ConfigFault::TooMany => 2,
        ConfigFault::BadOpenings => 3,
        ConfigFault::NoAdapter => 4,
        ConfigFault::BadAddress => 5,
        ConfigFault::DoubleDevice => 6,
        ConfigFault::BadWeight => 7,
        ConfigFault::NoLink => 8,
    }
}
