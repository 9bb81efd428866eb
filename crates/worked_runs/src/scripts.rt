//! What scripts ask for, and scripts written again.

use cam_types::Watched;
use std::io;
use std::io::Read;
use trace_file::{Script, read_script, write_script};

/// Prints what a script asks for, or why it is none.
pub fn show_script(rt: &HostRuntime, script: impl Read + Drop) -> io::Result<()> {
    match read_script(rt.alloc(), &mut Watched::new(script)) {
        Ok(script) => {
            let limits = script.limits();
            println!(rt;
                "ccbs {} rounds {} stays {} events {}",
                limits.ccbs(),
                limits.rounds(),
                limits.stays(),
                limits.events()
            )?;
            show_steps(rt, &script)?;
            show_answers(rt, &script)
        }
        Err(fault) => rt.println(fault),
    }
}

/// Prints a script in its plain form, or why it is none or wasn't written.
pub fn write_again(rt: &HostRuntime, script: impl Read + Drop) -> io::Result<()> {
    let script = match read_script(rt.alloc(), &mut Watched::new(script)) {
        Ok(script) => script,
        Err(fault) => return rt.println(fault),
    };
    match write_script(rt.alloc(), &script, &mut Watched::new(io::writer(rt))) {
        Ok(()) => Ok(()),
        Err(fault) => rt.println(fault),
    }
}

// The steps of each driver, a line each.
fn show_steps(rt: &HostRuntime, script: &Script) -> io::Result<()> {
    for (driver, steps) in script.drivers().iter().enumerate() {
        println!(rt; "driver {driver} steps {}", steps.len())?;
        for step in steps {
            println!(rt; "{step:?}")?;
        }
    }
    Ok(())
}

// What each lane answers, a line for each answer, with the numbers in decimal.
fn show_answers(rt: &HostRuntime, script: &Script) -> io::Result<()> {
    for (lane, answers) in script.answers().iter().enumerate() {
        println!(rt; "lane {lane} answers {}", answers.len())?;
        for answer in answers {
            let (status, scsi) = (answer.status, answer.scsi);
            println!(rt;
                "status {status} scsi {scsi} sense {:?}",
                answer.sense.bytes()
            )?;
        }
    }
    Ok(())
}
