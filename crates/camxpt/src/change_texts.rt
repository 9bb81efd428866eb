//! What a list of changes is called: in words, and by the options that ask for it.

use std::alloc::{AllocError, Global};
use wait_causes::Grouping;
use what_if::{Change, Resource, Widening};
use wording::{Captions, shortened};

const DEVICE: &str = "device";

const NEVER_STOPPED: &str = "never-stopped";

/// The changes in words, as `sda: one more a round`.
pub fn words_of(
    alloc: Global,
    captions: Captions<'_>,
    changes: &[Change],
) -> Result<String, AllocError> {
    let mut text = String::new(alloc);
    for change in changes {
        if !text.is_empty() {
            text.push_str(", ")?;
        }
        push_name(alloc, &mut text, captions, change.resource)?;
        push_words(&mut text, change.widening)?;
    }
    Ok(text)
}

// Puts the name of the resource after the text, or what it is and its number.
fn push_name(
    alloc: Global,
    text: &mut String,
    captions: Captions<'_>,
    resource: Resource,
) -> Result<(), AllocError> {
    match resource {
        Resource::Device(device) => push_caption(alloc, text, captions, Grouping::Device, device),
        Resource::Adapter(adapter) => {
            push_caption(alloc, text, captions, Grouping::Adapter, adapter)
        }
        Resource::Link(link) => write!(text, "link {link}"),
    }
}

fn push_caption(
    alloc: Global,
    text: &mut String,
    captions: Captions<'_>,
    by: Grouping,
    number: u32,
) -> Result<(), AllocError> {
    match captions.name_by(by, number) {
        Some(name) => text.push_str(&shortened(alloc, name)?),
        None => text.push_str(&captions.caption(alloc, by, number)?),
    }
}

fn push_words(text: &mut String, widening: Widening) -> Result<(), AllocError> {
    match widening {
        Widening::More(1) => text.push_str(": one more a round"),
        Widening::More(number) => write!(text, ": {number} more a round"),
        Widening::Times(2) => text.push_str(": twice as many"),
        Widening::Times(number) => write!(text, ": {number} times as many"),
        Widening::AtLeast(number) => write!(text, ": at least {number} a round"),
        Widening::NeverStopped => text.push_str(": never stopped"),
    }
}

/// The options that ask for the changes, by numbers, as `--device 0=+1,adapter:0=x2`. Neighbours are in one word where one option
/// takes them.
pub fn options_of(alloc: Global, changes: &[Change]) -> Result<String, AllocError> {
    let mut text = String::new(alloc);
    let mut last = "";
    for change in changes {
        let option = option_of(*change);
        if option == last || last == DEVICE && option != NEVER_STOPPED {
            text.push(',')?;
        } else {
            let space = if text.is_empty() { "" } else { " " };
            write!(text, "{space}--{option} ")?;
            last = option;
        }
        push_change(&mut text, *change, last == DEVICE || last == NEVER_STOPPED)?;
    }
    Ok(text)
}

// The name of the option that asks for a change.
fn option_of(change: Change) -> &'static str {
    match (change.widening, change.resource) {
        (Widening::NeverStopped, _) => NEVER_STOPPED,
        (_, Resource::Device(_)) => DEVICE,
        (_, Resource::Adapter(_)) => "adapter",
        (_, Resource::Link(_)) => "link",
    }
}

// Puts a change after the text, as a word has it; that of an adapter or a link with what it is, if the option is of devices.
fn push_change(text: &mut String, change: Change, is_of_devices: bool) -> Result<(), AllocError> {
    let (kind, number) = match change.resource {
        Resource::Device(device) => ("", device),
        Resource::Adapter(adapter) => ("adapter:", adapter),
        Resource::Link(link) => ("link:", link),
    };
    if is_of_devices {
        text.push_str(kind)?;
    }
    match change.widening {
        Widening::More(count) => write!(text, "{number}=+{count}"),
        Widening::Times(count) => write!(text, "{number}=x{count}"),
        Widening::AtLeast(count) => write!(text, "{number}=={count}"),
        Widening::NeverStopped => write!(text, "{number}"),
    }
}
