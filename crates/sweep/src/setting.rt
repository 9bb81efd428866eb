//! Settings: which openings are changed, and to how many.

ghost use Rattle.std.specs.Prelude.{◌≡◌, ◌++◌, ◌∷◌, map, IfOk};
ghost use Rattle.sweep.specs.Settings.{changes_of, with_first, settings};

use std::alloc::{AllocError, Global};

/// What has openings that are changed.
#[derive(Clone, Copy)]
pub enum Place {
    /// The device of this number.
    Device(u32),
    /// The adapter of this number.
    Adapter(u32),
}

/// How many openings a device or an adapter has in place of its own.
#[derive(Clone, Copy)]
pub struct Change {
    /// The device or the adapter.
    pub place: Place,
    /// Its openings, 1 to 255.
    pub openings: u32,
}

/// The numbers of openings of which each is tried.
#[derive(Drop)]
pub struct Choice {
    /// The device or the adapter.
    pub place: Place,
    /// Its openings, 1 to 255 each.
    pub openings: Vec<u32>,
}

/// What is changed together for a run.
#[derive(Drop)]
pub struct Setting {
    /// A change for each choice, in the order of the choices.
    pub changes: Vec<Change>,
}

/// All settings that the choices make: one for each combination of a number of each choice. The number of the last choice varies
/// fastest. Without choices there is one setting, which changes nothing.
pub fn settings(alloc: Global, choices: &[Choice]) -> Result<Vec<Setting>, AllocError>
    ensures { IfOk result (λ made. changes_of made.items ≡ settings choices.now) }
{
    let Some((first, rest)) = choices.split_first() else {
        let mut one = Vec::new(alloc);
        one.push(Setting {
            changes: Vec::new(alloc),
        })?;
        return Ok(one);
    };
    let others = settings(alloc, rest)?;
    each_with(alloc, first, &others)
}

// For each number of the choice, in order, each of the settings with it before its changes.
fn each_with(alloc: Global, choice: &Choice, others: &[Setting]) -> Result<Vec<Setting>, AllocError>
    ensures { IfOk result (λ made. changes_of made.items ≡ with_first choice.now (changes_of others.now)) }
{
    let mut made = Vec::new(alloc);
    for openings in &choice.openings {
        let change = Change {
            place: choice.place,
            openings: *openings,
        };
        push_with(alloc, &mut made, change, others)?;
    }
    Ok(made)
}

// Puts each of the settings, with this change before its own, after those made.
fn push_with(
    alloc: Global,
    made: &mut Vec<Setting>,
    change: Change,
    others: &[Setting],
) -> Result<(), AllocError>
    ensures { IfOk result (λ _. changes_of made.new.items ≡ changes_of made.old.items ++ map (λ changes. change ∷ changes) (changes_of others.now)) }
{
    for other in others {
        made.push(with(alloc, change, &other.changes)?)?;
    }
    Ok(())
}

// The setting of this change and then those.
fn with(alloc: Global, change: Change, changes: &[Change]) -> Result<Setting, AllocError>
    ensures { IfOk result (λ setting. setting.changes.items ≡ change ∷ changes.now) }
{
    let mut all = Vec::with_capacity(alloc, changes.len().saturating_add(1))?;
    all.push(change)?;
    all.extend_from_slice(changes)?;
    Ok(Setting { changes: all })
}
