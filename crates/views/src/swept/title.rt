//! What the changes of a sweep's settings are called.

use cam_path::path_name;
use cam_types::Config;
use std::alloc::{AllocError, Global};
use sweep::{Change, Place};
use wording::Page;

/// What each of the changes is of, as `device 0:1:0` and `adapter 0`.
pub(crate) fn titles(
    alloc: Global,
    config: &Config,
    changes: &[Change],
) -> Result<Vec<String>, AllocError> {
    let mut titles = Vec::with_capacity(alloc, changes.len())?;
    for change in changes {
        titles.push(title(alloc, config, change.place)?)?;
    }
    Ok(titles)
}

fn title(alloc: Global, config: &Config, place: Place) -> Result<String, AllocError> {
    match place {
        Place::Device(device) => {
            let path = path_name(alloc, config, device)?;
            format!(in alloc; "device {path}")
        }
        Place::Adapter(adapter) => format!(in alloc; "adapter {adapter}"),
    }
}

/// Puts the titles on the page, each with two spaces after it.
pub(crate) fn push_titles(page: &mut Page, titles: &[String]) {
    for title in titles {
        page.show(format_args!("{title}  "));
    }
}

/// Puts spaces in place of the titles on the page.
pub(crate) fn push_blank(page: &mut Page, titles: &[String]) {
    for title in titles {
        page.show(format_args!("{:>width$}  ", "", width = title.len()));
    }
}

/// Puts the openings of each of the changes on the page, flush right below its title.
pub(crate) fn push_openings(page: &mut Page, titles: &[String], changes: &[Change]) {
    for (title, change) in titles.iter().zip(changes.iter()) {
        page.show(format_args!("{:>width$}  ", change.openings, width = title.len()));
    }
}
