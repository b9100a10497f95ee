// Plain trees, and how a booking finds its place in one.
ghost use Rattle.reckoner.specs.Refusals.{OnRefused};
ghost use Rattle.std.specs.Prelude.{◌≡◌, ◌<◌, vec_len};

use crate::block::Block;
use crate::booking::{Booking, Failure, Reply};
use crate::refusal::Refusal;
use std::alloc::Global;
use std::fmt;

/// What a name, or an element of a table, holds.
#[derive(Drop)]
pub enum Tree {
    Nothing,
    Row { kind: u8, words: Block<u64> },
    Table(Block<Tree>),
}

impl Default for Tree {
    fn default() -> Tree {
        Tree::Nothing
    }
}

fn row<W: fmt::Write>(kind: u8, words: &Block<u64>, f: &mut fmt::Formatter<W>) -> fmt::Result {
    write!(f, "row base {} type {kind}:", words.base)?;
    for word in &words.items {
        write!(f, " {word}")?;
    }
    Ok(())
}

impl fmt::Display for Tree {
    fn fmt<W: fmt::Write>(&self, f: &mut fmt::Formatter<W>) -> fmt::Result {
        match self {
            Tree::Nothing => write!(f, "nothing"),
            Tree::Row { kind, words } => row(*kind, words, f),
            Tree::Table(trees) => {
                write!(f, "table base {}:", trees.base)?;
                for tree in &trees.items {
                    write!(f, " [{tree}]")?;
                }
                Ok(())
            }
        }
    }
}

impl Tree {
    ghost use Rattle.reckoner.specs.Refusals.{OnRefused};
    ghost use Rattle.reckoner.specs.Trees.{IsEmpty, weight_of};
    ghost use Rattle.std.specs.Prelude.{◌≡◌, ◌-◌, ◌^◌, ◌<◌, ◌↔◌, min, IsTrue};

    /// Whether there is nothing.
    pub fn is_nothing(&self) -> bool
        ensures { IsTrue result ↔ IsEmpty self.now }
    {
        matches!(self, Tree::Nothing)
    }

    /// The words of a store that the tree takes up: those of each block, and one in front of it.
    pub fn weight(&self) -> u64
        ensures { result ≡ min (weight_of self.now) (2 ^ 64 - 1) }
    {
        match self {
            Tree::Nothing => 0,
            Tree::Row { words, .. } => (words.items.len() as u64).saturating_add(1),
            Tree::Table(trees) => {
                let mut sum = (trees.items.len() as u64).saturating_add(1);
                for tree in &trees.items {
                    sum = sum.saturating_add(tree.weight());
                }
                sum
            }
        }
    }

    /// Books at the place to which the subscripts lead from here. The step is the one that the first of them is.
    #[cycle(book_below_book_in)]
    pub fn book_below(
        &mut self,
        alloc: Global,
        subscripts: &[i32],
        booking: &Booking,
        free: u64,
        step: u8,
    ) -> Result<Reply, Failure>
        ensures refused { OnRefused result (self.new ≡ self.old) }
    {
        let Some((subscript, rest)) = subscripts.split_first() else {
            return self.book(alloc, booking, free, step);
        };
        match self {
            Tree::Nothing => Err(Refusal::NothingThere(step).into()),
            Tree::Row { .. } => Err(Refusal::OtherSort(step).into()),
            Tree::Table(trees) => {
                let k = trees.select(*subscript, step)?;
                book_in(&mut trees.items, k, alloc, rest, booking, free, step)
            }
        }
    }

    /// Books at this place, which is at a step of the walk, in a store with so many free words.
    fn book(
        &mut self,
        alloc: Global,
        booking: &Booking,
        free: u64,
        step: u8,
    ) -> Result<Reply, Failure>
        ensures refused { OnRefused result (self.new ≡ self.old) }
    {
        match booking {
            Booking::Take(shape) => self.take(alloc, *shape, free, step)?,
            Booking::Free => self.free(step)?,
            Booking::Read { kind, at } => {
                return Ok(Reply::Word(self.row(*kind, *at, 1, step)?[0]));
            }
            Booking::Write { kind, at, word } => self.rewrite(*kind, *at, &[*word], step)?,
            Booking::Row { kind, at, n } => {
                let row = self.row(*kind, *at, *n, step)?;
                return Ok(Reply::Words(Vec::from_slice(alloc, row)?));
            }
            Booking::Rewrite { kind, at, words } => self.rewrite(*kind, *at, words, step)?,
            Booking::Span => return Ok(self.span()),
            Booking::Insert { at, n } => self.insert(*at, *n, free, step)?,
            Booking::Delete { at, n } => self.delete(*at, *n, step)?,
            Booking::Rebase(base) => self.rebase(*base, step)?,
            Booking::Exchange(one, other) => self.exchange(*one, *other, step)?,
        }
        Ok(Reply::Done)
    }
}

/// Books below one of several trees, at the place to which the subscripts lead from there.
#[cycle(book_below_book_in)]
fn book_in(
    trees: &mut Vec<Tree>,
    k: usize,
    alloc: Global,
    subscripts: &[i32],
    booking: &Booking,
    free: u64,
    step: u8,
) -> Result<Reply, Failure>
    requires { k < vec_len trees.old }
    ensures refused { OnRefused result (trees.new ≡ trees.old) }
{
    trees[k].book_below(alloc, subscripts, booking, free, step.saturating_add(1))
}
