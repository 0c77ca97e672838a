//! The pairs of items that two sequences have in common.

use std::alloc::{AllocError, Global};

/// The indexes of an item of the old sequence and of one of the new.
#[derive(Clone, Copy, Debug, PartialEq)]
pub(crate) struct Pair {
    pub(crate) old: usize,
    pub(crate) new: usize,
}

impl Pair {
    /// The first items of two sequences.
    pub(crate) const FIRST: Pair = Pair { old: 0, new: 0 };

    /// The items so many further.
    pub(crate) fn after(self, by: Pair) -> Pair {
        Pair {
            old: self.old.saturating_add(by.old),
            new: self.new.saturating_add(by.new),
        }
    }
}

/// How items are paired.
#[derive(Clone, Copy, Debug, PartialEq)]
pub(crate) enum Way {
    /// Equal ones: as many as there can be in order.
    Equal,
    /// One after another: all if there are as many of each, else equal ones.
    InTurn,
}

/// Adds pairs of the items between known pairs. The pairs are in order.
pub(crate) fn complete(
    alloc: Global,
    way: Way,
    old: &[u64],
    new: &[u64],
    known: &[Pair],
) -> Result<Vec<Pair>, AllocError> {
    let mut pairs = Vec::new(alloc);
    let mut from = Pair::FIRST;
    for pair in known {
        let (old, new) = (
            items_in(old, from.old, pair.old),
            items_in(new, from.new, pair.new),
        );
        push_between(alloc, way, old, new, from, &mut pairs)?;
        pairs.push(*pair)?;
        from = pair.after(Pair { old: 1, new: 1 });
    }
    let (old, new) = (
        items_in(old, from.old, old.len()),
        items_in(new, from.new, new.len()),
    );
    push_between(alloc, way, old, new, from, &mut pairs)?;
    Ok(pairs)
}

/// The items from one index to another. None if there are no such items.
fn items_in(items: &[u64], from: usize, to: usize) -> &[u64] {
    items.get(from..to).unwrap_or(&[])
}

/// Adds pairs of these items, which begin with the pair `from`.
fn push_between(
    alloc: Global,
    way: Way,
    old: &[u64],
    new: &[u64],
    from: Pair,
    pairs: &mut Vec<Pair>,
) -> Result<(), AllocError> {
    if old.is_empty() || new.is_empty() {
        return Ok(());
    }
    match way {
        Way::Equal => push_equal(alloc, old, new, from, pairs),
        Way::InTurn => push_in_turn(old, new, from, pairs),
    }
}

/// Adds pairs of items one after another.
fn push_in_turn(
    old: &[u64],
    new: &[u64],
    from: Pair,
    pairs: &mut Vec<Pair>,
) -> Result<(), AllocError> {
    let mut at = Pair::FIRST;
    for _ in 0..old.len().saturating_add(new.len()) {
        let (Some(first), Some(second)) = (old.get(at.old), new.get(at.new)) else {
            return Ok(());
        };
        let left_of_old = old.len().saturating_sub(at.old);
        let left_of_new = new.len().saturating_sub(at.new);
        let are_paired = left_of_old == left_of_new || first == second;
        if are_paired {
            pairs.push(from.after(at))?;
        }
        at = at.after(Pair {
            old: usize::from(are_paired || left_of_old > left_of_new),
            new: usize::from(are_paired || left_of_old < left_of_new),
        });
    }
    Ok(())
}

/// Adds the pairs of a longest common part: first those at the beginning and at the end.
fn push_equal(
    alloc: Global,
    old: &[u64],
    new: &[u64],
    from: Pair,
    pairs: &mut Vec<Pair>,
) -> Result<(), AllocError> {
    let begin = common_begin(old, new);
    push_run(from, begin, pairs)?;
    let (old, new) = (
        items_in(old, begin, old.len()),
        items_in(new, begin, new.len()),
    );
    let end = common_end(old, new);
    let till = Pair {
        old: old.len().saturating_sub(end),
        new: new.len().saturating_sub(end),
    };
    let from = from.after(Pair {
        old: begin,
        new: begin,
    });
    push_longest(
        alloc,
        items_in(old, 0, till.old),
        items_in(new, 0, till.new),
        from,
        pairs,
    )?;
    push_run(from.after(till), end, pairs)
}

/// The number of equal items before the first that differ.
fn common_begin(old: &[u64], new: &[u64]) -> usize {
    let least = old.len().min(new.len());
    for index in 0..least {
        if old[index] != new[index] {
            return index;
        }
    }
    least
}

/// The number of equal items behind the last that differ.
fn common_end(old: &[u64], new: &[u64]) -> usize {
    let least = old.len().min(new.len());
    for index in 0..least {
        if old[old.len() - 1 - index] != new[new.len() - 1 - index] {
            return index;
        }
    }
    least
}

/// Adds this many pairs, one after another.
fn push_run(from: Pair, count: usize, pairs: &mut Vec<Pair>) -> Result<(), AllocError> {
    for index in 0..count {
        pairs.push(from.after(Pair {
            old: index,
            new: index,
        }))?;
    }
    Ok(())
}

/// An item that more items of the new sequence are equal to is paired at the beginning and at the end alone.
const MOST_EQUAL: usize = 16;

/// An item of a sequence.
#[derive(Clone, Copy, PartialEq, Eq, PartialOrd, Ord)]
struct Item {
    key: u64,
    index: usize,
}

/// Adds the pairs of a longest common part (Hunt and Szymanski 1977).
fn push_longest(
    alloc: Global,
    old: &[u64],
    new: &[u64],
    from: Pair,
    pairs: &mut Vec<Pair>,
) -> Result<(), AllocError> {
    if old.is_empty() || new.is_empty() {
        return Ok(());
    }
    let items = sorted(alloc, new)?;
    let mut chains = Chains::new(alloc);
    for (index, key) in old.iter().enumerate() {
        chains.add_all(index, equal_to(&items, *key))?;
    }
    let longest = chains.longest(alloc)?;
    for pair in longest.iter().rev() {
        pairs.push(from.after(*pair))?;
    }
    Ok(())
}

/// The items of a sequence, by key and then by index.
fn sorted(alloc: Global, keys: &[u64]) -> Result<Vec<Item>, AllocError> {
    let mut items = Vec::with_capacity(alloc, keys.len())?;
    for (index, key) in keys.iter().enumerate() {
        items.push(Item { key: *key, index })?;
    }
    items.sort_unstable();
    Ok(items)
}

/// The items with this key. None if there are too many.
fn equal_to(items: &[Item], key: u64) -> &[Item] {
    let begin = items.partition_point(|item| item.key < key);
    let end = items.partition_point(|item| item.key <= key);
    if end.saturating_sub(begin) > MOST_EQUAL {
        return &[];
    }
    items.get(begin..end).unwrap_or(&[])
}

/// Pairs of equal items in order, of which this is the last.
#[derive(Clone, Copy)]
struct Chain {
    last: Pair,
    /// The chain of the pairs before it. None if it is the first.
    before: Option<usize>,
}

/// The chain of a length whose last item of the new sequence comes first.
#[derive(Clone, Copy)]
struct Best {
    last: usize,
    chain: usize,
}

/// The chains of two sequences.
#[derive(Drop)]
struct Chains {
    chains: Vec<Chain>,
    /// The best chain of each length, from 1.
    best: Vec<Best>,
}

impl Chains {
    /// No chains.
    fn new(alloc: Global) -> Chains {
        Chains {
            chains: Vec::new(alloc),
            best: Vec::new(alloc),
        }
    }

    /// Adds the pairs of an item of the old sequence with equal ones of the new, the last ones first: no
    /// chain has two of them.
    fn add_all(&mut self, old: usize, equal: &[Item]) -> Result<(), AllocError> {
        for item in equal.iter().rev() {
            self.add(Pair {
                old,
                new: item.index,
            })?;
        }
        Ok(())
    }

    /// Adds the longest chain that ends with this pair.
    fn add(&mut self, last: Pair) -> Result<(), AllocError> {
        let length = self.best.partition_point(|best| best.last < last.new);
        let before = length
            .checked_sub(1)
            .and_then(|shorter| self.best.get(shorter))
            .map(|best| best.chain);
        let best = Best {
            last: last.new,
            chain: self.chains.len(),
        };
        self.chains.push(Chain { last, before })?;
        match self.best.get_mut(length) {
            Some(longer) => *longer = best,
            None => self.best.push(best)?,
        }
        Ok(())
    }

    /// The pairs of the longest chain, from its last one.
    fn longest(&self, alloc: Global) -> Result<Vec<Pair>, AllocError> {
        let mut pairs = Vec::new(alloc);
        let mut next = self.best.last().map(|best| best.chain);
        for _ in 0..self.best.len() {
            let Some(chain) = next.and_then(|index| self.chains.get(index)) else {
                return Ok(pairs);
            };
            pairs.push(chain.last)?;
            next = chain.before;
        }
        Ok(pairs)
    }
}
