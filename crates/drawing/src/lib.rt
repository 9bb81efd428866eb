//! What draws where the commands of a history or the requests of a recording waited, and why: a page for a browser, and a
//! timeline for a viewer of traces.
#![tactic(auto)]

pub use layout::draw;
pub use timeline::timeline_json;

mod alike;
mod axis;
mod bars;
mod blame_table;
mod choice;
mod columns;
mod costliest;
mod device_row;
mod glossary;
mod lanes;
mod layout;
mod legend;
mod loads;
mod overview;
mod round_figures;
mod round_range;
mod scene;
mod section;
mod shades;
mod slots;
mod style;
mod summary;
mod tables;
mod timeline;
mod words;
