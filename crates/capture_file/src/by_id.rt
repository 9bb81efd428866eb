//! Attempts in the order of their ids.

ghost use Rattle.std.specs.Prelude.{◌≡◌, ◌<◌, [], ◌∷◌, ◌++◌, IsSome, OnOk, OnErr};
ghost use Rattle.std.specs.List.{AllByRecursion};
ghost use Rattle.std.specs.BTreeMap.{keys, values};
ghost use Rattle.capture_file.specs.declared.attempt.Attempt.{Attempt};
ghost use Rattle.capture_file.specs.Attempts.{IsRising, ids, with_id, put, without};

use crate::attempt::Attempt;
use std::alloc::{AllocError, Global};
use std::collections::BTreeMap;
use std::marker::Model;

/// Attempts in the order in which they came. Each is found by its id.
#[derive(Drop)]
pub(crate) struct ById {
    attempts: BTreeMap<u64, Attempt>,
}

impl Model for ById {
    ghost use Rattle.std.specs.Prelude.{List};
    ghost use Rattle.std.specs.BTreeMap.{values};
    ghost use Rattle.capture_file.specs.declared.attempt.Attempt.{Attempt};
    ghost use Rattle.capture_file.specs.Keys.{IsById};

    ghost Value = { List Attempt };

    ghost view = { λ a. values a.attempts };

    ghost invariant = { λ a. IsById a.attempts };
}

impl ById {
    /// None.
    pub(crate) fn new(alloc: Global) -> ById
        ensures { result ≡ [] }
    {
        ById {
            attempts: BTreeMap::new(alloc),
        }
    }

    /// All, by their ids.
    pub(crate) fn all(&self) -> &BTreeMap<u64, Attempt>
        ensures values { values result.now ≡ self.now }
        ensures keys { keys result.now ≡ ids self.now }
    {
        &self.attempts
    }

    /// That of an id.
    pub(crate) fn get(&self, id: u64) -> Option<Attempt>
        ensures found { result ≡ with_id id self.now }
        ensures rising { IsRising self.now }
    {
        self.attempts.get(&id).copied()
    }

    /// Adds one with a higher id than each other.
    pub(crate) fn push(&mut self, attempt: Attempt) -> Result<(), AllocError>
        requires { AllByRecursion (λ (a : Attempt). a.id < attempt.id) self.old }
        ensures ok { OnOk result (self.new ≡ self.old ++ attempt ∷ []) }
        ensures err { OnErr result (self.new ≡ self.old) }
    {
        self.attempts.insert(attempt.id, attempt)?;
        Ok(())
    }

    /// Puts an attempt in the place of the one with its id.
    pub(crate) fn put(&mut self, attempt: Attempt)
        requires { IsSome (with_id attempt.id self.old) }
        ensures { self.new ≡ put attempt self.old }
    {
        let Some(slot) = self.attempts.get_mut(&attempt.id) else {
            unreachable!()
        };
        *slot = attempt;
    }

    /// Takes out the one with an id, if there is one.
    pub(crate) fn remove(&mut self, id: u64)
        ensures { self.new ≡ without id self.old }
    {
        self.attempts.remove(&id);
    }
}
