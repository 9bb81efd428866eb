//! A table of CCB slots: values are taken in, found and given back by handles.

use crate::handle::Handle;
use slab::Slab;
use std::alloc::{AllocError, Global};
use std::fmt;
use std::marker::Model;
use thiserror::Error;

/// At most as many values as it was made for, each under the handle that `take` gave.
///
/// Nothing grows after `with_capacity`.
#[derive(Drop)]
pub struct CcbTable<T> {
    slots: Slab<Held<T>>,
    capacity: usize,
    taken: u32,
}

/// A value and its number.
#[derive(Drop)]
struct Held<T> {
    number: u32,
    value: T,
}

/// The table holds as many values as it may. The value is handed back.
#[derive(Debug, Drop, Error)]
#[error("the table of CCBs is full")]
#[error_bound(T: fmt::Debug)]
pub struct CcbFull<T>(pub T);

/// The handle's value was given back, or it never was a handle of the table.
#[derive(Clone, Copy, Debug, PartialEq, Eq, Error)]
#[error("the handle names no CCB")]
pub struct StaleCcb;

impl<T> Model for CcbTable<T> {
    ghost use Rattle.cam_ccb.specs.Table.{Table, IsSound};

    ghost Value = { Table T };

    ghost view = { λ t. record {
      slots = t.slots.slots;
      capacity = t.capacity;
      taken = t.taken;
    } };

    ghost invariant = { λ t. IsSound t.slots.slots t.capacity t.taken t.slots.capacity };
}

impl<T> CcbTable<T> {
    ghost use Rattle.std.specs.Prelude.{◌≡◌, ℕ, ◌+◌, ◌-◌, ◌^◌, ◌<◌, ◌≤◌, ◌==◌, ◌↔◌, [], None, Some, IsOk, IsSome, IfOk, IfErr, OnOk, OnErr, IsErr, MatchOption};
    ghost use Rattle.std.specs.Option.{option_copied, option_copied_mut};
    ghost use Rattle.std.specs.Borrow.{sem};
    ghost use Rattle.cam_ccb.specs.Table.{find, held_count, Updates};
    ghost use Rattle.cam_ccb.specs.Lends.{lends_get};

    /// An empty table for at most `capacity` values, with memory for them.
    pub fn with_capacity(alloc: Global, capacity: usize) -> Result<CcbTable<T>, AllocError>
        ensures { IfOk result (λ t. t ≡ record { slots = []; capacity = capacity; taken = 0 }) }
    {
        Ok(CcbTable {
            slots: Slab::with_capacity(alloc, capacity)?,
            capacity,
            taken: 0,
        })
    }

    /// How many values it holds.
    pub fn len(&self) -> usize
        ensures value { result ≡ held_count self.now }
        ensures most { result ≤ self.now.capacity }
    {
        self.slots.len()
    }

    /// Whether it holds none.
    pub fn is_empty(&self) -> bool
        ensures { result ≡ (held_count self.now == 0) }
    {
        self.slots.is_empty()
    }

    /// How many values it may hold.
    pub fn capacity(&self) -> usize
        ensures { result ≡ self.now.capacity }
    {
        self.capacity
    }

    /// How many values were taken in so far.
    pub fn taken(&self) -> u32
        ensures { result ≡ self.now.taken }
    {
        self.taken
    }

    /// Takes a value in under a new handle, whose number is how many were taken before: below
    /// 4,294,967,295. Where the table is full it stays as it is, and the value comes back.
    pub fn take(&mut self, value: T) -> Result<Handle, CcbFull<T>>
        requires { self.old.taken < 2 ^ 32 - 1 }

        // A new handle finds the value, and each other what it found before.
        ensures room { IsOk result ↔ (held_count self.old < self.old.capacity) }
        ensures number { IfOk result (λ handle. handle.number ≡ self.old.taken) }
        ensures absent { IfOk result (λ handle. find self.old handle ≡ None) }
        ensures adds { IfOk result (λ handle. Updates self.old self.new handle (Some value)) }
        ensures len { OnOk result (held_count self.new ≡ held_count self.old + 1) }
        ensures rest { OnOk result (self.new ≡ record self.old { slots = self.new.slots; taken = self.old.taken + 1 }) }

        ensures full { OnErr result (self.new ≡ self.old) }
        ensures value { IfErr result (λ e. e.0 ≡ value) }
    {
        if self.len() == self.capacity {
            return Err(CcbFull(value));
        }
        let number = self.taken;
        let slot = self.slots.insert_reserved(Held { number, value });
        self.taken += 1;
        Ok(Handle { slot, number })
    }

    /// The value under a handle.
    pub fn get(&self, handle: Handle) -> Option<&T>
        ensures value { option_copied result ≡ find self.now handle }
        ensures known { IsSome result → handle.number < self.now.taken }
    {
        match self.slots.get(handle.slot) {
            Some(held) if held.number == handle.number => Some(&held.value),
            _ => None,
        }
    }

    /// The value under a handle, for writing.
    pub fn get_mut(&mut self, handle: Handle) -> Option<&mut T>
        ensures* writes_back { sem 𝓛 (lends_get T.row self.entry handle result) }
        ensures value { option_copied_mut result ≡ find self.old handle }
    {
        match self.slots.get_mut(handle.slot) {
            Some(held) if held.number == handle.number => Some(&mut held.value),
            _ => None,
        }
    }

    /// Takes the value under a handle out again, and leaves the table as it is where there is none.
    pub fn give_back(&mut self, handle: Handle) -> Result<T, StaleCcb>
        ensures value { MatchOption (find self.old handle) (IsErr result) (λ value. result ≡ Ok value) }
        ensures known { IsOk result → handle.number < self.old.taken }
        ensures removes { OnOk result (Updates self.old self.new handle None) }
        ensures len { OnOk result (held_count self.new + 1 ≡ held_count self.old) }
        ensures rest { self.new ≡ record self.old { slots = self.new.slots } }
        ensures stale { OnErr result (self.new ≡ self.old) }
    {
        if self.get(handle).is_none() {
            return Err(StaleCcb);
        }
        match self.slots.try_remove(handle.slot) {
            Some(Held { number: _, value }) => Ok(value),
            None => unreachable!(),
        }
    }
}
