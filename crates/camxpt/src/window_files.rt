//! Writes each window of a capture as a recording.

use crate::import_fault::{FileOption, ImportFault};
use crate::output::{Output, file_output, print, standard_output};
use crate::window_reader::WindowSink;
use cam_types::Watched;
use capture::span_nanoseconds;
use capture_file::Counts;
use recording_file::{Recording, WriteFault, write_recording};
use std::alloc::{AllocError, Global};
use std::fs::File;
use std::{fs, io};
use window_recordings::CutWindow;

/// A folder for the recordings of windows, and standard output for a table of them.
#[derive(Drop)]
pub struct WindowFiles<'a> {
    rt: &'a HostRuntime,
    folder: &'a str,
    out: Output<io::Printer<'a, HostRuntime>>,
}

impl<'a> WindowFiles<'a> {
    /// Makes the folder if it isn't there, and prints the head of the table.
    pub fn new(rt: &'a HostRuntime, folder: &'a str) -> Result<WindowFiles<'a>, ImportFault> {
        if let Err(error) = fs::create_dir_all(rt, folder) {
            return Err(ImportFault::CannotWrite(FileOption::Out, error));
        }
        let mut files = WindowFiles {
            rt,
            folder,
            out: standard_output(rt),
        };
        files.print("file,from_ns,to_ns,round_ns,rounds,requests,carried\n")?;
        Ok(files)
    }

    fn print(&mut self, text: &str) -> Result<(), ImportFault> {
        match print(&mut self.out, text) {
            Ok(()) => Ok(()),
            Err(_) => Err(ImportFault::WriteFailed(self.out.failed())),
        }
    }
}

impl WindowSink for WindowFiles<'_> {
    fn take(
        &mut self,
        _number: u64,
        window: CutWindow,
        _counts: Counts,
    ) -> Result<(), ImportFault> {
        let alloc = self.rt.alloc();
        let mut name = String::new(alloc);
        if let Some(recording) = &window.recording {
            name = file_name(alloc, window.from)?;
            let path = format!(in alloc; "{}/{name}", self.folder)?;
            write_whole(self.rt, FileOption::Out, &path, recording)?;
        }
        let row = format!(in alloc;
            "{name},{},{},{},{},{},{}\n",
            window.from,
            window.until,
            span_nanoseconds(window.round),
            window.rounds,
            window.requests,
            window.carried
        )?;
        self.print(&row)
    }

    fn fail(&mut self, _number: u64, fault: ImportFault) -> Result<(), ImportFault> {
        Err(fault)
    }
}

/// The name of the recording of a window that begins at this time: seconds with six digits after the point.
pub fn file_name(alloc: Global, from: u64) -> Result<String, AllocError> {
    format!(in alloc;
        "{}.{:06}.csv",
        from / 1_000_000_000,
        from % 1_000_000_000 / 1_000
    )
}

/// Writes a recording to a file of a folder: whole, or not at all. The option is the one that asks for it.
pub fn write_whole(
    rt: &HostRuntime,
    option: FileOption,
    path: &str,
    recording: &Recording,
) -> Result<(), ImportFault> {
    let part = format!(in rt.alloc(); "{path}.part")?;
    let mut out = created(rt, option, &part)?;
    let done = match write_recording(rt.alloc(), recording, &mut Watched::new(&mut out)) {
        Ok(()) => return renamed(rt, option, &part, path),
        Err(WriteFault::OutOfMemory) => ImportFault::OutOfMemory(AllocError),
        Err(WriteFault::WriteFailed) => unwritten(option, out.failed()),
    };
    let _ = fs::remove_file(rt, &part);
    Err(done)
}

/// The same of a text.
pub fn write_text(
    rt: &HostRuntime,
    option: FileOption,
    path: &str,
    text: &str,
) -> Result<(), ImportFault> {
    let part = format!(in rt.alloc(); "{path}.part")?;
    let mut out = created(rt, option, &part)?;
    if print(&mut out, text).is_ok() {
        return renamed(rt, option, &part, path);
    }
    let fault = unwritten(option, out.failed());
    let _ = fs::remove_file(rt, &part);
    Err(fault)
}

fn created(rt: &HostRuntime, option: FileOption, path: &str) -> Result<Output<File>, ImportFault> {
    match File::create(rt, path) {
        Ok(file) => Ok(file_output(file)),
        Err(error) => Err(ImportFault::CannotWrite(option, error)),
    }
}

fn renamed(
    rt: &HostRuntime,
    option: FileOption,
    part: &str,
    path: &str,
) -> Result<(), ImportFault> {
    match fs::rename(rt, part, path) {
        Ok(()) => Ok(()),
        Err(error) => Err(ImportFault::CannotWrite(option, error)),
    }
}

fn unwritten(option: FileOption, failed: Option<io::Error>) -> ImportFault {
    match failed {
        Some(error) => ImportFault::CannotWrite(option, error),
        None => ImportFault::WriteFailed(None),
    }
}
