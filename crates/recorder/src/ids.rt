//! The ids of requests in the order in which their arrivals were noted.

ghost use Rattle.std.specs.Prelude.{◌≡◌, ℕ, List, ◌+◌, ◌<◌, ◌++◌, ◌∷◌, [], length, nat_le, IfOk, MatchOption, vec_len, vec_capacity};
ghost use Rattle.recorder.specs.Ids.{IsIndex, IsPlace, IsAbsent};
ghost use Rattle.recorder.specs.NoteWindows.{staying_ids};

use crate::staying::stays;
use capture_windows::{Attempt, TimeSpan};
use std::alloc::{AllocError, Global};
use std::marker::Model;

/// Ids in their order, in a fixed amount of memory. The newest place of an id is found by its remainder.
#[derive(Drop)]
pub(crate) struct Ids {
    list: Vec<u64>,
    // By a remainder: how many ids there are up to the newest one that has it. 0 if none has.
    heads: Vec<u32>,
    // Of each id: how many there are up to the newest one before it that has its remainder.
    earlier: Vec<u32>,
}

impl Model for Ids {
    ghost use Rattle.std.specs.Prelude.{vec_capacity};
    ghost use Rattle.recorder.specs.Ids.{IdList, AreIds};

    ghost Value = { IdList };

    ghost view = { λ a. record { ids = a.list.items; room = vec_capacity a.list } };

    ghost invariant = { λ a. AreIds a.list.items a.heads.items a.earlier.items (vec_capacity a.list) (vec_capacity a.earlier) };
}

impl Ids {
    /// None, with room for so many.
    pub(crate) fn with_capacity(alloc: Global, room: u32) -> Result<Ids, AllocError>
        ensures { IfOk result (λ ids. ids ≡ record { ids = []; room = room }) }
    {
        // (an odd number: the addresses of structures have different remainders)
        let heads = vec![in alloc; 0; 2 * room as usize + 1]?;
        let earlier = Vec::with_capacity(alloc, room as usize)?;
        let list = Vec::with_capacity(alloc, room as usize)?;
        Ok(Ids {
            list,
            heads,
            earlier,
        })
    }

    /// Whether there is no room for one more.
    pub(crate) fn is_full(&self) -> bool
        ensures { result ≡ nat_le self.now.room (length self.now.ids) }
    {
        self.list.capacity() <= self.list.len()
    }

    /// Adds one at the end.
    pub(crate) fn push(&mut self, id: u64)
        requires { length self.old.ids < self.old.room }
        ensures { self.new ≡ record self.old { ids = self.old.ids ++ id ∷ [] } }
    {
        self.list.push_reserved(id);
        link(&mut self.heads, &mut self.earlier, id);
    }

    /// The newest place of an id.
    pub(crate) fn newest(&self, id: u64) -> Option<usize>
        ensures { MatchOption result (IsAbsent id self.now.ids) (IsPlace id self.now.ids) }
    {
        let mut count = self.heads[(id % self.heads.len() as u64) as usize];
        while count > 0 {
            let place = count as usize - 1;
            if self.list[place] == id {
                return Some(place);
            }
            count = self.earlier[place];
        }
        None
    }

    /// Keeps those whose attempts go on after a window and weren't withdrawn.
    pub(crate) fn keep_staying(&mut self, attempts: &[Attempt], span: TimeSpan)
        requires { length attempts.now ≡ length self.old.ids }
        ensures { self.new ≡ record self.old { ids = staying_ids span self.old.ids attempts.now } }
    {
        self.heads.fill(0);
        self.earlier.clear();
        let mut count = 0;
        for place in 0..self.list.len() {
            if stays(&attempts[place], span) {
                let id = self.list[place];
                self.list[count] = id;
                link(&mut self.heads, &mut self.earlier, id);
                count += 1;
            }
        }
        self.list.truncate(count);
    }
}

// Adds an id to those that are found by their remainders.
fn link(heads: &mut [u32], earlier: &mut Vec<u32>, id: u64)
    requires size { 0 < length heads.old }
    requires few { vec_len earlier.old < 4294967295 }
    requires room { vec_len earlier.old < vec_capacity earlier.old }
    ensures linked { (ids : List ℕ) → IsIndex ids heads.old earlier.old.items → IsIndex (ids ++ id ∷ []) heads.new earlier.new.items }
    ensures len { vec_len earlier.new ≡ vec_len earlier.old + 1 }
    ensures capacity { vec_capacity earlier.new ≡ vec_capacity earlier.old }
{
    let remainder = (id % heads.len() as u64) as usize;
    earlier.push_reserved(heads[remainder]);
    heads[remainder] = earlier.len() as u32;
}
