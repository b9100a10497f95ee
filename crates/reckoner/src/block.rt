// Items one after another from a base on: the words of a row, or the trees of a table.
ghost use Rattle.reckoner.specs.Blocks.{IsAt, IsWithin, Widens, narrowed};
ghost use Rattle.reckoner.specs.Refusals.{OnRefused};
ghost use Rattle.reckoner.specs.declared.refusal.Refusal.TheVariants.{BadLength, Outside};
ghost use Rattle.std.specs.Prelude.{◌≡◌, ℕ, ◌+◌, ◌<◌, ◌≤◌, ◌↔◌, IfErr, IfOk, IsOk, OnOk, vec_len};

use crate::booking::Failure;
use crate::refusal::Refusal;
use std::alloc::{AllocError, Global};

/// A base, and the items from it on.
#[derive(Drop)]
pub struct Block<T> {
    pub base: i16,
    pub items: Vec<T>,
}

/// Where a subscript leads in a block of a base and as many items: the place of an item.
fn place(base: i16, n: usize, subscript: i32, step: u8) -> Result<usize, Refusal>
    ensures found { IsOk result ↔ IsWithin base n subscript }
    ensures item { IfOk result (λ k. (k < n) × IsAt base k subscript) }
    ensures refused { IfErr result (λ refusal. refusal ≡ Outside step) }
{
    let offset = i64::from(subscript) - i64::from(base);
    match usize::try_from(offset) {
        Ok(k) if k < n => Ok(k),
        _ => Err(Refusal::Outside(step)),
    }
}

impl<T: Default + Drop> Block<T> {
    /// As many blank items.
    pub fn blank(alloc: Global, base: i16, n: u64) -> Result<Block<T>, AllocError>
        ensures { IfOk result (λ block. (block.base ≡ base) × (vec_len block.items ≡ n)) }
    {
        let mut items = Vec::new(alloc);
        items.resize_with(n as usize, || T::default())?;
        Ok(Block { base, items })
    }

    /// Which item the subscript selects.
    pub fn select(&self, subscript: i32, step: u8) -> Result<usize, Refusal>
        ensures found { IsOk result ↔ IsWithin self.now.base (vec_len self.now.items) subscript }
        ensures item { IfOk result (λ k. (k < vec_len self.now.items) × IsAt self.now.base k subscript) }
        ensures refused { IfErr result (λ refusal. refusal ≡ Outside step) }
    {
        place(self.base, self.items.len(), subscript, step)
    }

    /// Blank items before the one that the subscript selects, or behind the last. They have to fit into the free words.
    pub fn insert(&mut self, subscript: i32, n: u64, free: u64, step: u8) -> Result<(), Failure>
        ensures widened { OnOk result ((k : ℕ) → IsAt self.old.base k subscript → Widens k n self.old.items.items self.new.items.items) }
        ensures room { OnOk result ((1 ≤ n) × (n ≤ free)) }
        ensures base { self.new.base ≡ self.old.base }
        ensures refused { OnRefused result (self.new ≡ self.old) }
    {
        let behind_last = self.items.len().saturating_add(1);
        let k = place(self.base, behind_last, subscript, step)?;
        if n == 0 {
            return Err(Refusal::BadLength.into());
        }
        if n > free {
            return Err(Refusal::NoRoom.into());
        }
        self.widen(k, n as usize)?;
        Ok(())
    }

    /// Blank items at a place.
    fn widen(&mut self, at: usize, n: usize) -> Result<(), AllocError>
        requires { at ≤ vec_len self.old.items }
        ensures widened { OnOk result (Widens at n self.old.items.items self.new.items.items) }
        ensures base { self.new.base ≡ self.old.base }
    {
        let reached = at.checked_add(n).ok_or(AllocError)?;
        let mut behind = self.items.split_off(at)?;
        self.items.resize_with(reached, || T::default())?;
        self.items.append(&mut behind)
    }

    /// As many items leave, from the selected one on. Not all of them may.
    pub fn delete(&mut self, subscript: i32, n: u64, step: u8) -> Result<(), Failure>
        ensures narrowed { OnOk result ((k : ℕ) → IsAt self.old.base k subscript → self.new.items.items ≡ narrowed k n self.old.items.items) }
        ensures some { OnOk result ((1 ≤ n) × (n < vec_len self.old.items)) }
        ensures base { self.new.base ≡ self.old.base }
        ensures refused { OnRefused result (self.new ≡ self.old) }
    {
        let k = self.select(subscript, step)?;
        check_row(self.items.len() - k, n)?;
        if n == self.items.len() as u64 {
            return Err(Refusal::BadLength.into());
        }
        self.narrow(k, n as usize)?;
        Ok(())
    }

    /// The items at a place leave.
    fn narrow(&mut self, at: usize, n: usize) -> Result<(), AllocError>
        requires { at + n ≤ vec_len self.old.items }
        ensures narrowed { OnOk result (self.new.items.items ≡ narrowed at n self.old.items.items) }
        ensures base { self.new.base ≡ self.old.base }
    {
        let mut behind = self.items.split_off(at + n)?;
        self.items.truncate(at);
        self.items.append(&mut behind)
    }
}

/// A row has an item at least, and no more than are left.
pub fn check_row(left: usize, n: u64) -> Result<(), Refusal>
    ensures found { IsOk result ↔ ((1 ≤ n) × (n ≤ left)) }
    ensures refused { IfErr result (λ refusal. refusal ≡ BadLength) }
{
    if n == 0 || n > left as u64 {
        return Err(Refusal::BadLength);
    }
    Ok(())
}
