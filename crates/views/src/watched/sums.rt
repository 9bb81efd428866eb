//! What requests waited by device, driver and run level, and who was in the way of whom: sums over windows, in which names stay and
//! numbers may change.

use crate::watched::costs::Costs;
use recording_file::NameKind;
use std::alloc::{AllocError, Global};
use std::collections::BTreeMap;
use wait_causes::{BlameRow, Explanation, Grouping, blame_of};

/// How many run levels there are.
pub const LEVELS: u32 = 5;

/// A device, a driver and a run level.
#[derive(Drop, PartialEq, Eq, PartialOrd, Ord)]
pub struct Place {
    /// The device's name.
    pub device: String,
    /// The driver's name.
    pub driver: String,
    /// The run level, from 0 to 4.
    pub level: u32,
}

/// Who waited for whom.
#[derive(Drop, PartialEq, Eq, PartialOrd, Ord)]
pub struct Pair {
    /// The driver that waited.
    pub waiting: String,
    /// The driver in the way; none if that was nobody.
    pub by: Option<String>,
}

/// How long some drivers waited for others, and what that cost.
#[derive(Clone, Copy, Default)]
pub struct Blame {
    /// The rounds that they waited.
    pub waited: u64,
    /// Those of these in which the best schedule at the recorded pace had sent the request.
    pub avoidable: u64,
    /// The weighted rounds of `waited`.
    pub cost: u64,
}

/// What requests waited.
#[derive(Drop)]
pub struct Sums {
    alloc: Global,
    places: BTreeMap<Place, Costs>,
    pairs: BTreeMap<Pair, Blame>,
    // How often each wait in rounds occurs, by wait and run level.
    waits: BTreeMap<(u32, u32), u64>,
}

impl Sums {
    /// Nothing.
    pub fn new(alloc: Global) -> Sums {
        Sums {
            alloc,
            places: BTreeMap::new(alloc),
            pairs: BTreeMap::new(alloc),
            waits: BTreeMap::new(alloc),
        }
    }

    /// Those of a recording that is explained.
    pub fn of(alloc: Global, explanation: &Explanation) -> Result<Sums, AllocError> {
        let mut sums = Sums::new(alloc);
        let mut numbered: BTreeMap<(u32, u8, u32), Costs> = BTreeMap::new(alloc);
        for stay in explanation.stays() {
            let (at, costs) = ((stay.device, stay.driver, stay.level), Costs::of(stay));
            if let Some(sum) = numbered.get_mut(&at) {
                *sum = sum.with(costs);
            } else {
                numbered.insert(at, costs)?;
            }
            sums.add_waits(stay.live.saturating_sub(stay.arrival), stay.level, 1)?;
        }
        for ((device, driver, level), costs) in &numbered {
            let place = Place {
                device: name_of(alloc, explanation, NameKind::Device, *device)?,
                driver: name_of(alloc, explanation, NameKind::Driver, u32::from(*driver))?,
                level: *level,
            };
            sums.add_costs(place, *costs)?;
        }
        for row in blame_of(alloc, explanation, Grouping::Driver)? {
            sums.add_pair(pair_of(alloc, explanation, &row)?, blame_in(&row))?;
        }
        Ok(sums)
    }

    /// Adds others.
    pub fn add(&mut self, other: &Sums) -> Result<(), AllocError> {
        for (place, costs) in &other.places {
            let place = Place {
                device: String::from_str(self.alloc, &place.device)?,
                driver: String::from_str(self.alloc, &place.driver)?,
                level: place.level,
            };
            self.add_costs(place, *costs)?;
        }
        for (pair, blame) in &other.pairs {
            let pair = Pair {
                waiting: String::from_str(self.alloc, &pair.waiting)?,
                by: match &pair.by {
                    Some(by) => Some(String::from_str(self.alloc, by)?),
                    None => None,
                },
            };
            self.add_pair(pair, *blame)?;
        }
        for ((wait, level), count) in &other.waits {
            self.add_waits(*wait, *level, *count)?;
        }
        Ok(())
    }

    fn add_costs(&mut self, place: Place, costs: Costs) -> Result<(), AllocError> {
        if let Some(sum) = self.places.get_mut(&place) {
            *sum = sum.with(costs);
        } else {
            self.places.insert(place, costs)?;
        }
        Ok(())
    }

    fn add_pair(&mut self, pair: Pair, blame: Blame) -> Result<(), AllocError> {
        if let Some(sum) = self.pairs.get_mut(&pair) {
            sum.waited = sum.waited.saturating_add(blame.waited);
            sum.avoidable = sum.avoidable.saturating_add(blame.avoidable);
            sum.cost = sum.cost.saturating_add(blame.cost);
        } else {
            self.pairs.insert(pair, blame)?;
        }
        Ok(())
    }

    fn add_waits(&mut self, wait: u32, level: u32, count: u64) -> Result<(), AllocError> {
        if let Some(sum) = self.waits.get_mut(&(wait, level)) {
            *sum = sum.saturating_add(count);
        } else {
            self.waits.insert((wait, level), count)?;
        }
        Ok(())
    }

    /// What the requests of each place waited.
    pub fn places(&self) -> &BTreeMap<Place, Costs> {
        &self.places
    }

    /// How long who waited for whom.
    pub fn pairs(&self) -> &BTreeMap<Pair, Blame> {
        &self.pairs
    }

    /// What all requests waited.
    pub fn whole(&self) -> Costs {
        let mut whole = Costs::default();
        for (_place, costs) in &self.places {
            whole = whole.with(*costs);
        }
        whole
    }

    /// What those of a run level waited.
    pub fn of_level(&self, level: u32) -> Costs {
        let mut sum = Costs::default();
        for (place, costs) in &self.places {
            if place.level == level {
                sum = sum.with(*costs);
            }
        }
        sum
    }

    /// What those of each device or driver waited, by its name.
    pub fn by_name(&self, kind: NameKind) -> Result<BTreeMap<String, Costs>, AllocError> {
        let mut found: BTreeMap<String, Costs> = BTreeMap::new(self.alloc);
        for (place, costs) in &self.places {
            let name = match kind {
                NameKind::Driver => &place.driver,
                _ => &place.device,
            };
            if let Some(sum) = found.get_mut(name) {
                *sum = sum.with(*costs);
            } else {
                found.insert(String::from_str(self.alloc, name)?, *costs)?;
            }
        }
        Ok(found)
    }

    /// The least wait in rounds that so many thousandths of the waits don't pass, of a run level or of all; 0 of none.
    pub fn rank(&self, level: Option<u32>, thousandths: u64) -> u32 {
        let mut all = 0u64;
        for ((_wait, of), count) in &self.waits {
            if level.is_none_or(|level| level == *of) {
                all = all.saturating_add(*count);
            }
        }
        let place = all.saturating_mul(thousandths).saturating_add(999) / 1_000;
        let mut passed = 0u64;
        for ((wait, of), count) in &self.waits {
            if level.is_none_or(|level| level == *of) {
                passed = passed.saturating_add(*count);
                if passed >= place {
                    return *wait;
                }
            }
        }
        0
    }
}

// The name of a device or driver, or its number if it has none.
fn name_of(
    alloc: Global,
    explanation: &Explanation,
    kind: NameKind,
    number: u32,
) -> Result<String, AllocError> {
    for name in explanation.names() {
        if name.kind() == kind && name.number() == number {
            return String::from_str(alloc, name.text());
        }
    }
    format!(in alloc; "{number}")
}

fn pair_of(alloc: Global, explanation: &Explanation, row: &BlameRow) -> Result<Pair, AllocError> {
    Ok(Pair {
        waiting: name_of(alloc, explanation, NameKind::Driver, row.waiting)?,
        by: match row.by {
            Some(number) => Some(name_of(alloc, explanation, NameKind::Driver, number)?),
            None => None,
        },
    })
}

fn blame_in(row: &BlameRow) -> Blame {
    Blame {
        waited: row.waited,
        avoidable: row.avoidable,
        cost: row.cost,
    }
}
