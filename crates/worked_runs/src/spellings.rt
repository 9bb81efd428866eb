//! Numbers and paths as texts spell them.

use cam_path::CamPath;
use cam_types::read_number;
use std::io;
use std::io::Write;

/// Prints the number that a text spells, if that is at most the number before it.
pub fn show_number(rt: &HostRuntime, rest: &str) -> io::Result<()> {
    let (most, text) = rest.split_once(' ').unwrap_or((rest, ""));
    let most = read_number(most.as_bytes(), u64::MAX).unwrap_or(0);
    match read_number(text.as_bytes(), most) {
        Some(number) => println!(rt; "{number}"),
        None => rt.println("no number"),
    }
}

/// Prints each path, or why it is none, and how it stands to the path before it.
pub fn show_paths(rt: &HostRuntime, paths: &str) -> io::Result<()> {
    let mut before: Option<CamPath> = None;
    for word in paths.split(' ') {
        match CamPath::read(word.as_bytes()) {
            Ok(path) => {
                let sign = match before {
                    None => "",
                    Some(before) if before < path => "< ",
                    Some(_) => ">= ",
                };
                let mut text = Vec::from_slice(rt.alloc(), sign.as_bytes())?;
                path.write(&mut text)?;
                text.extend_from_slice(b"\n")?;
                io::writer(rt).write_all(&text)?;
                before = Some(path);
            }
            Err(fault) => rt.println(fault)?,
        }
    }
    Ok(())
}
