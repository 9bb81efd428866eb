//! The times at which spans begin and end, from which follows how many cover a time.

ghost use Rattle.std.specs.Prelude.{◌≡◌, ◌+◌, ◌-◌, ◌≤◌, IfOk, map};
ghost use Rattle.std.specs.List.{filter_map};
ghost use Rattle.slots.specs.Spans.{Span};
ghost use Rattle.slots.specs.Bounds.{AreBounds, AreInOrder, end_in_time, passed_by, up_to};

use crate::spans::Span;
use crate::times::{count_from, count_up_to, sorted};
use std::alloc::{AllocError, Global};

/// The beginnings of spans, and their ends that are below 2^64, each in their order. A span that is empty ends where it begins.
#[derive(Drop)]
pub struct Bounds {
    pub begins: Vec<u64>,
    pub ends: Vec<u64>,
}

/// How many beginnings and how many ends are up to a time.
#[derive(Clone, Copy)]
pub struct Passed {
    pub begins: usize,
    pub ends: usize,
}

/// The beginnings and ends of spans. It fails only if there is no memory.
pub fn bounds_of(alloc: Global, spans: &[Span]) -> Result<Bounds, AllocError>
    ensures { IfOk result (λ bounds. AreBounds spans.now bounds.begins.items bounds.ends.items) }
{
    let begins = begins_of(alloc, spans)?;
    let ends = ends_of(alloc, spans)?;
    Ok(Bounds {
        begins: sorted(begins),
        ends: sorted(ends),
    })
}

// Where spans begin.
fn begins_of(alloc: Global, spans: &[Span]) -> Result<Vec<u64>, AllocError>
    ensures { IfOk result (λ begins. begins.items ≡ map (λ (s : Span). s.from) spans.now) }
{
    spans.iter().map(|span| span.from).collect(alloc)
}

// Where they end.
fn ends_of(alloc: Global, spans: &[Span]) -> Result<Vec<u64>, AllocError>
    ensures { IfOk result (λ ends. ends.items ≡ filter_map end_in_time spans.now) }
{
    spans
        .iter()
        .filter_map(|span| end_in_time(span))
        .collect(alloc)
}

// Where a span ends, if that is below 2^64.
fn end_in_time(span: &Span) -> Option<u64>
    ensures { result ≡ end_in_time span.now }
{
    let end = span.until.max(span.from as u128);
    if end <= u64::MAX as u128 {
        Some(end as u64)
    } else {
        None
    }
}

impl Bounds {
    /// How many of the spans cover a time.
    pub fn covering(&self, time: u64) -> usize
        requires { AreInOrder self.now.begins.items self.now.ends.items }
        ensures { result + up_to self.now.ends.items time ≡ up_to self.now.begins.items time }
    {
        count_up_to(&self.begins, time) - count_up_to(&self.ends, time)
    }

    /// How many beginnings and ends are up to a time, if at least these are.
    pub fn up_to_from(&self, least: Passed, time: u64) -> Passed
        requires order { AreInOrder self.now.begins.items self.now.ends.items }
        requires begins { least.begins ≤ up_to self.now.begins.items time }
        requires ends { least.ends ≤ up_to self.now.ends.items time }
        ensures { result ≡ passed_by self.now.begins.items self.now.ends.items time }
    {
        Passed {
            begins: count_from(&self.begins, least.begins, time),
            ends: count_from(&self.ends, least.ends, time),
        }
    }
}

impl Passed {
    /// None.
    pub fn none() -> Passed
        ensures begins { result.begins ≡ 0 }
        ensures ends { result.ends ≡ 0 }
    {
        Passed { begins: 0, ends: 0 }
    }

    /// How many have begun and not ended.
    pub fn covering(self) -> usize
        requires { self.ends ≤ self.begins }
        ensures { result ≡ self.begins - self.ends }
    {
        self.begins - self.ends
    }
}
