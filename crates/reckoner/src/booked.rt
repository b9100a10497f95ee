// What each booking does at its place.
ghost use Rattle.std.specs.Prelude.{◌+◌, ◌≤◌, IfOk, vec_len};

use crate::block::{Block, check_row};
use crate::booking::{Failure, Reply, Shape};
use crate::refusal::Refusal;
use crate::tree::Tree;
use std::alloc::Global;

/// The highest type of a row.
const LAST_TYPE: u64 = 2;

/// The step at which no table can be taken.
const LAST_STEP: u8 = 4;

impl Tree {
    ghost use Rattle.reckoner.specs.Refusals.{OnRefused};
    ghost use Rattle.reckoner.specs.Trees.{IsEmpty, extent_of, weight_of};
    ghost use Rattle.reckoner.specs.declared.booking.Reply.TheVariants.{Extent};
    ghost use Rattle.std.specs.Prelude.{◌≡◌, ◌+◌, ◌<◌, ◌≤◌, ◌↔◌, length, IfOk, IsErr, OnErr, OnOk};

    /// The place becomes as many zeros, or as many nothings.
    pub(crate) fn take(
        &mut self,
        alloc: Global,
        shape: Shape,
        free: u64,
        step: u8,
    ) -> Result<(), Failure>
        ensures taken { OnOk result (extent_of self.new ≡ Extent shape.base shape.n shape.codes shape.kind) }
        ensures room { OnOk result ((1 ≤ shape.n) × (shape.n < free + weight_of self.old)) }
        ensures refused { OnErr result (self.new ≡ self.old) }
    {
        let Ok(base) = i16::try_from(shape.base) else {
            return Err(Refusal::BadField.into());
        };
        if shape.kind > LAST_TYPE || shape.codes && (shape.kind != 0 || step == LAST_STEP) {
            return Err(Refusal::BadField.into());
        }
        if shape.n == 0 {
            return Err(Refusal::BadLength.into());
        }
        if shape.n >= free.saturating_add(self.weight()) {
            return Err(Refusal::NoRoom.into());
        }
        *self = if shape.codes {
            Tree::Table(Block::blank(alloc, base, shape.n)?)
        } else {
            Tree::Row {
                kind: shape.kind as u8,
                words: Block::blank(alloc, base, shape.n)?,
            }
        };
        Ok(())
    }

    /// The place becomes nothing.
    pub(crate) fn free(&mut self, step: u8) -> Result<(), Refusal>
        ensures refused { IsErr result ↔ IsEmpty self.old }
        ensures gone { IsEmpty self.new }
    {
        if self.is_nothing() {
            return Err(Refusal::NothingThere(step));
        }
        *self = Tree::Nothing;
        Ok(())
    }

    /// The row of words of a type, to read.
    pub(crate) fn row(&self, kind: u64, at: i32, n: u64, step: u8) -> Result<&[u64], Refusal>
        ensures { IfOk result (λ row. length row.now ≡ n) }
    {
        match self {
            Tree::Nothing => Err(Refusal::NothingThere(step)),
            Tree::Table(_) => Err(Refusal::OtherSort(step)),
            Tree::Row { kind: own, words } => {
                let k = find_row(words, *own, kind, at, n, step)?;
                Ok(&words.items[k..k + n as usize])
            }
        }
    }

    /// Words stand in the place of as many others.
    pub(crate) fn rewrite(
        &mut self,
        kind: u64,
        at: i32,
        words: &[u64],
        step: u8,
    ) -> Result<(), Refusal>
        ensures refused { OnErr result (self.new ≡ self.old) }
    {
        match self {
            Tree::Nothing => Err(Refusal::NothingThere(step)),
            Tree::Table(_) => Err(Refusal::OtherSort(step)),
            Tree::Row {
                kind: own,
                words: old,
            } => {
                let k = find_row(old, *own, kind, at, words.len() as u64, step)?;
                old.items[k..k + words.len()].copy_from_slice(words);
                Ok(())
            }
        }
    }

    /// What is known of the place without its items.
    pub(crate) fn span(&self) -> Reply
        ensures { result ≡ extent_of self.now }
    {
        match self {
            Tree::Nothing => Reply::Nothing,
            Tree::Row { kind, words } => Reply::Extent {
                base: words.base,
                n: words.items.len() as u64,
                codes: false,
                kind: *kind,
            },
            Tree::Table(trees) => Reply::Extent {
                base: trees.base,
                n: trees.items.len() as u64,
                codes: true,
                kind: 0,
            },
        }
    }

    /// Zeros or nothings come in.
    pub(crate) fn insert(&mut self, at: i32, n: u64, free: u64, step: u8) -> Result<(), Failure>
        ensures refused { OnRefused result (self.new ≡ self.old) }
    {
        match self {
            Tree::Nothing => Err(Refusal::NothingThere(step).into()),
            Tree::Row { words, .. } => words.insert(at, n, free, step),
            Tree::Table(trees) => trees.insert(at, n, free, step),
        }
    }

    /// Words, or trees with all that is below them, leave.
    pub(crate) fn delete(&mut self, at: i32, n: u64, step: u8) -> Result<(), Failure>
        ensures refused { OnRefused result (self.new ≡ self.old) }
    {
        match self {
            Tree::Nothing => Err(Refusal::NothingThere(step).into()),
            Tree::Row { words, .. } => words.delete(at, n, step),
            Tree::Table(trees) => trees.delete(at, n, step),
        }
    }

    /// The base changes, and nothing else.
    pub(crate) fn rebase(&mut self, base: i64, step: u8) -> Result<(), Refusal>
        ensures refused { OnErr result (self.new ≡ self.old) }
    {
        if self.is_nothing() {
            return Err(Refusal::NothingThere(step));
        }
        let base = i16::try_from(base).map_err(|_| Refusal::BadField)?;
        match self {
            Tree::Nothing => {}
            Tree::Row { words, .. } => words.base = base,
            Tree::Table(trees) => trees.base = base,
        }
        Ok(())
    }

    /// Two trees of a table change places.
    pub(crate) fn exchange(&mut self, one: i32, other: i32, step: u8) -> Result<(), Refusal>
        ensures refused { OnErr result (self.new ≡ self.old) }
    {
        match self {
            Tree::Nothing => Err(Refusal::NothingThere(step)),
            Tree::Row { .. } => Err(Refusal::OtherSort(step)),
            Tree::Table(trees) => {
                let one = trees.select(one, step)?;
                let other = trees.select(other, step)?;
                trees.items.swap(one, other);
                Ok(())
            }
        }
    }
}

/// Where a row of as many words begins, in a block of words of a type of its own.
fn find_row(
    words: &Block<u64>,
    own: u8,
    kind: u64,
    at: i32,
    n: u64,
    step: u8,
) -> Result<usize, Refusal>
    ensures { IfOk result (λ k. k + n ≤ vec_len words.now.items) }
{
    let k = words.select(at, step)?;
    if u64::from(own) != kind {
        return Err(Refusal::OtherType);
    }
    check_row(words.items.len() - k, n)?;
    Ok(k)
}
