//! The calls of all runs, each made on a transport and beside it at the other doors to its state.

use crate::calls::call::Call;
use crate::calls::doors::Doors;
use crate::calls::run::{Line, Run};
use crate::fault::Fault;
use std::io;

/// Makes the calls of each run that the text lists, and tells what came of each call, and where a transport that takes the
/// same events, a history of them or the layers below give something else.
pub fn make_all(rt: &HostRuntime, text: &str) -> Result<(), Fault> {
    let runs = Run::read_all(rt.alloc(), text)?;
    for run in &runs {
        make_beside(rt, run)?;
    }
    Ok(())
}

// Tells what came of each call, and where the doors differ.
fn make_beside(rt: &HostRuntime, run: &Run<'_>) -> Result<(), Fault> {
    println!(rt; "== {}", run.name)?;
    let mut doors = Doors::open(rt.alloc(), &run.opening)?;
    make_lines(rt, &run.lines, &mut doors)?;
    if !doors.end(rt.alloc(), &run.opening)? {
        println!(rt; "the doors differ in the end")?;
    }
    Ok(())
}

fn make_lines(rt: &HostRuntime, lines: &[Line<'_>], doors: &mut Doors) -> io::Result<()> {
    for line in lines {
        print!(rt; "{}: ", line.text)?;
        make(rt, line.call, doors)?;
    }
    Ok(())
}

fn make(rt: &HostRuntime, call: Call, doors: &mut Doors) -> io::Result<()> {
    if let Call::Layer(layer) = call {
        return doors.tell(rt, layer);
    }
    let (answer, agree) = doors.make(call);
    println!(rt;
        "{answer}{}",
        if agree { "" } else { ", but not by all doors" }
    )
}
