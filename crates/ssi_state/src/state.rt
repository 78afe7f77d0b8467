//! States.

ghost use Rattle.std.specs.Prelude.{◌≡◌, ℕ, ◌<◌, ◌≤◌, length, take, IfOk};
ghost use Rattle.ssi_identities.specs.Facts.{IsWithinLimits};
ghost use Rattle.ssi_identities.specs.States.{fact_total_of, start_of, truth_of, with_truth};
ghost use Rattle.ssi_state.specs.Changes.{IsNextChange, IsUnchanged};

use ssi_base::OutOfMemory;
use ssi_identities::{Counts, start};
use std::alloc::Global;
use std::marker::Model;

/// How many facts are compared at once where many are equal.
const LONG: usize = 64;

/// How many facts are compared at once near a change.
const SHORT: usize = 8;

/// A truth value for each fact, by the fact's number.
#[derive(Drop)]
pub struct State {
    values: Vec<bool>,
}

impl Model for State {
    ghost use Rattle.std.specs.Prelude.{◌<◌, length};
    ghost use Rattle.ssi_identities.specs.States.{State as Values};

    ghost Value = { Values };

    ghost view = { λ state. record { facts = state.values.items } };

    ghost invariant = { λ state. length state.values.items < 65536 };
}

impl State {
    /// The state at the start: every track occupied, and all else false.
    pub fn start(alloc: Global, counts: &Counts) -> Result<State, OutOfMemory>
        requires { IsWithinLimits counts.now }
        ensures { IfOk result (λ state. state ≡ start_of counts.now) }
    {
        let values = start(alloc, counts)?;
        Ok(State { values })
    }

    /// How many facts it has.
    pub fn len(&self) -> u16
        ensures { result ≡ fact_total_of self.now }
    {
        self.values.len() as u16
    }

    /// Whether a fact is true.
    #[inline]
    pub fn get(&self, fact: u16) -> bool
        requires { fact < fact_total_of self.now }
        ensures { result ≡ truth_of self.now fact }
    {
        self.values[usize::from(fact)]
    }

    /// Gives a fact a value.
    #[inline]
    pub fn set(&mut self, fact: u16, value: bool)
        requires { fact < fact_total_of self.old }
        ensures { self.new ≡ with_truth self.old fact value }
    {
        self.values[usize::from(fact)] = value;
    }

    /// Takes over the values of another state of as many facts.
    pub fn copy_from(&mut self, other: &State)
        requires { fact_total_of self.old ≡ fact_total_of other.now }
        ensures { self.new ≡ other.now }
    {
        self.values.copy_from_slice(&other.values);
    }

    /// The first fact at or past `from` whose value differs from the one that it had before, and its value now; none
    /// where none differs.
    pub fn next_change(&self, before: &State, from: u16) -> Option<(u16, bool)>
        requires { fact_total_of before.now ≡ fact_total_of self.now }
        ensures { IsNextChange before.now self.now from result }
    {
        let near = self.past_equal_blocks(before, from);
        'facts: for fact in near..self.len() {
            let value = self.get(fact);
            if value != before.get(fact) {
                return Some((fact, value));
            }
        }
        None
    }

    /// A fact at or past `from`, with none between them that differs from before. Long blocks pass what is equal, and
    /// short ones leave few facts to look at one by one.
    fn past_equal_blocks(&self, before: &State, from: u16) -> u16
        requires { fact_total_of before.now ≡ fact_total_of self.now }
        ensures reached { from ≤ result }
        ensures unchanged { (fact : ℕ) → from ≤ fact → fact < result → IsUnchanged before.now self.now fact }
    {
        let first = usize::from(from);
        if self.values.len().saturating_sub(first) < SHORT {
            return from;
        }
        let (now, before) = (&self.values[first..], &before.values[first..]);
        let far = equal_blocks::<LONG>(now, before);
        let near = far + equal_blocks::<SHORT>(&now[far..], &before[far..]);
        (first + near) as u16
    }
}

/// How many items stand in the equal blocks of `N` items that both slices begin with.
#[inline]
fn equal_blocks<const N: usize>(now: &[bool], before: &[bool]) -> usize
    requires some { 0 < N }
    requires few { N ≤ 64 }
    requires same { length before.now ≡ length now.now }
    ensures within { result ≤ length now.now }
    ensures equal { take result before.now ≡ take result now.now }
{
    let (blocks, _) = now.as_chunks::<N>();
    let (others, _) = before.as_chunks::<N>();
    let mut equal = 0;
    while equal < blocks.len() && blocks[equal] == others[equal] {
        equal += 1;
    }
    equal * N
}
