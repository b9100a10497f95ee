// Sixty-four names, and the trees that they hold.
ghost use Rattle.std.specs.Prelude.{◌≡◌, ◌+◌, ◌-◌, ◌<◌, ◌≤◌, min, IfOk, OnOk};
ghost use Rattle.reckoner.specs.Refusals.{OnRefused};
ghost use Rattle.reckoner.specs.Trees.{weight_of_all};

use crate::booking::{Booking, Failure, NAMES, Reply, Trace};
use crate::refusal::Refusal;
use crate::tree::Tree;
use std::alloc::Global;

/// The words that a store cannot give away: one for itself and one for each name.
const KEPT: u64 = 1 + NAMES;

/// The fewest words that a store can have, and the most that count.
const LEAST: u64 = KEPT + 2;

const MOST: u64 = 262_144;

/// A count of words, and a tree for each name.
#[derive(Drop)]
pub struct House {
    pub count: u64,
    pub names: Vec<Tree>,
}

impl House {
    /// Every name holds nothing. Words past the most are not counted.
    pub fn new(alloc: Global, count: u64) -> Result<House, Failure>
        ensures least { OnOk result (67 ≤ count) }
        ensures count { IfOk result (λ house. house.count ≡ min count 262144) }
        ensures refused { OnRefused result (count < 67) }
    {
        if count < LEAST {
            return Err(Refusal::TooFewWords.into());
        }
        let mut names = Vec::new(alloc);
        names.resize_with(NAMES as usize, || Tree::Nothing)?;
        Ok(House {
            count: count.min(MOST),
            names,
        })
    }

    /// How many words no tree takes up.
    pub fn free_words(&self) -> u64
        ensures { result ≡ self.now.count - (65 + weight_of_all self.now.names.items) }
    {
        let mut taken = KEPT;
        for tree in &self.names {
            taken = taken.saturating_add(tree.weight());
        }
        self.count.saturating_sub(taken)
    }

    /// Books at the place to which the trace leads. A refused booking changes nothing.
    pub fn book(
        &mut self,
        alloc: Global,
        trace: &Trace,
        booking: &Booking,
    ) -> Result<Reply, Failure>
        ensures refused { OnRefused result (self.new ≡ self.old) }
    {
        trace.check()?;
        let free = self.free_words();
        let Some(tree) = self.names.get_mut(trace.name as usize - 1) else {
            return Err(Refusal::NoSuchName.into());
        };
        tree.book_below(alloc, &trace.subscripts, booking, free, 1)
    }
}
