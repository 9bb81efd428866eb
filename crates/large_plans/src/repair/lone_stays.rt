//! Stays that stand alone: each has a node of its own beside those of rows, since others of its row would keep it past its end.

use crate::columns::Columns;
use crate::network::NetworkStay;
use crate::repair::windows::Windows;
use std::alloc::{AllocError, Global};

/// A stay that stands alone.
#[derive(Clone, Copy)]
pub struct LoneStay {
    /// Its number.
    pub stay: u32,
    /// The unit that sends it.
    pub unit: u32,
    /// The column of this unit.
    pub column: u32,
    /// What each round of waiting costs.
    pub weight: u32,
    /// The first round in which it may be sent.
    pub arrival: u32,
    /// The last one.
    pub last: u32,
    /// The round in which it is sent, if it is.
    pub sent: Option<u32>,
    /// The next one that the same unit sends in the same round.
    pub next: Option<u32>,
}

impl LoneStay {
    /// A stay of this number that isn't sent, if it has a row.
    pub fn of(number: u32, stay: &NetworkStay, columns: &Columns) -> Option<LoneStay> {
        let row = columns.column(columns.row_of(stay)?);
        Some(LoneStay {
            stay: number,
            unit: stay.unit,
            column: row.above?,
            weight: stay.weight,
            arrival: stay.arrival,
            last: stay.last,
            sent: None,
            next: None,
        })
    }

    /// What it costs to send it in a round.
    #[inline]
    pub fn cost(&self, round: u32) -> u32 {
        self.weight
            .saturating_mul(round.saturating_sub(self.arrival))
    }
}

/// All stays that stand alone.
#[derive(Drop)]
pub struct LoneStays {
    stays: Vec<LoneStay>,
    // Whether each stay of the network stands alone.
    is_lone: Vec<bool>,
    // The first one that each unit sends in each round, round by round.
    sent: Vec<Option<u32>>,
    units: usize,
    windows: Windows,
}

impl LoneStays {
    /// None, and no room for any.
    pub fn none(alloc: Global) -> LoneStays {
        LoneStays {
            stays: Vec::new(alloc),
            is_lone: Vec::new(alloc),
            sent: Vec::new(alloc),
            units: 0,
            windows: Windows::new(alloc),
        }
    }

    /// None, of a network with so many units, rounds and stays.
    pub fn of(
        alloc: Global,
        units: usize,
        rounds: u32,
        stays: usize,
    ) -> Result<LoneStays, AllocError> {
        let places = units.saturating_mul(rounds as usize);
        Ok(LoneStays {
            stays: Vec::new(alloc),
            is_lone: vec![in alloc; false; stays]?,
            sent: vec![in alloc; None; places]?,
            units,
            windows: Windows::of(alloc, units, rounds)?,
        })
    }

    /// How many there are.
    #[inline]
    pub fn len(&self) -> usize {
        self.stays.len()
    }

    /// All of them.
    pub fn all(&self) -> &[LoneStay] {
        &self.stays
    }

    /// Their windows.
    #[inline]
    pub fn windows(&self) -> &Windows {
        &self.windows
    }

    /// Whether a stay stands alone.
    pub fn has(&self, stay: u32) -> bool {
        self.is_lone.get(stay as usize).copied().unwrap_or(false)
    }

    /// One of them.
    #[inline]
    pub fn get(&self, number: u32) -> Option<LoneStay> {
        self.stays.get(number as usize).copied()
    }

    /// Whether one is sent in a round.
    pub fn sent_in(&self, number: u32, round: u32) -> bool {
        match self.get(number) {
            Some(lone) => lone.sent == Some(round),
            None => false,
        }
    }

    /// Adds one, and sends it in the round that it says.
    pub fn add(&mut self, lone: LoneStay) -> Result<(), AllocError> {
        let Ok(number) = u32::try_from(self.stays.len()) else {
            return Err(AllocError);
        };
        self.stays.push(LoneStay { sent: None, ..lone })?;
        self.windows
            .add(lone.unit, number, lone.arrival, lone.last)?;
        if let Some(is_lone) = self.is_lone.get_mut(lone.stay as usize) {
            *is_lone = true;
        }
        if let Some(round) = lone.sent {
            self.send(number, round);
        }
        Ok(())
    }

    /// The first one that a unit sends in a round.
    #[inline]
    pub fn first_sent(&self, unit: u32, round: u32) -> Option<u32> {
        self.sent.get(self.place(unit, round)).copied()?
    }

    /// Sends one in a round, and no longer in another.
    pub fn send(&mut self, number: u32, round: u32) {
        self.take_back(number);
        let Some(lone) = self.get(number) else {
            return;
        };
        let first = self.first_sent(lone.unit, round);
        self.put(
            number,
            LoneStay {
                sent: Some(round),
                next: first,
                ..lone
            },
        );
        self.put_first(lone.unit, round, Some(number));
    }

    /// Sends one no longer. First it is taken out of the list of its unit and round.
    pub fn take_back(&mut self, number: u32) {
        let Some(lone) = self.get(number) else {
            return;
        };
        if let Some(round) = lone.sent {
            self.unlink(number, &lone, round);
            self.put(
                number,
                LoneStay {
                    sent: None,
                    next: None,
                    ..lone
                },
            );
        }
    }

    // Takes one out of the list of its unit and round.
    fn unlink(&mut self, number: u32, lone: &LoneStay, round: u32) {
        let first = self.first_sent(lone.unit, round);
        if first == Some(number) {
            self.put_first(lone.unit, round, lone.next);
        } else if let Some(before) = self.before(first, number) {
            self.put_next(before, lone.next);
        }
    }

    // The one before this one in a list that begins so.
    fn before(&self, first: Option<u32>, number: u32) -> Option<u32> {
        let mut here = first?;
        for _ in 0..self.stays.len() {
            let next = self.get(here)?.next?;
            if next == number {
                return Some(here);
            }
            here = next;
        }
        None
    }

    fn put(&mut self, number: u32, lone: LoneStay) {
        if let Some(old) = self.stays.get_mut(number as usize) {
            *old = lone;
        }
    }

    fn put_next(&mut self, number: u32, next: Option<u32>) {
        if let Some(lone) = self.stays.get_mut(number as usize) {
            lone.next = next;
        }
    }

    fn put_first(&mut self, unit: u32, round: u32, first: Option<u32>) {
        let place = self.place(unit, round);
        if let Some(old) = self.sent.get_mut(place) {
            *old = first;
        }
    }

    #[inline]
    fn place(&self, unit: u32, round: u32) -> usize {
        (round as usize)
            .saturating_mul(self.units)
            .saturating_add(unit as usize)
    }
}
