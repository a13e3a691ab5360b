//! `Numbers`: some of the numbers below a size, each once.
ghost use Rattle.std.specs.Prelude.{◌≡◌, ◌<◌, [], IfOk, length};
ghost use Rattle.std.specs.List.{IsDistinct};
ghost use Rattle.std.proofs.Common.{eqb};
ghost use Rattle.iv_hall.specs.Numbers.{AreSet, HasGained, HasGainedAll, HasLost, IsExchanged, IsOrder};

use std::alloc::{AllocError, Global};
use std::marker::Model;

/// Some of the numbers below a size, each once. `order` has all of them, at its front those that are in the list; `places` says where each
/// is. So each change takes the same time, and no memory.
#[derive(Drop)]
pub(crate) struct Numbers {
    order: Vec<u32>,
    places: Vec<usize>,
    count: usize,
}

impl Model for Numbers {
    ghost use Rattle.std.specs.Prelude.{◌≤◌, length, take};
    ghost use Rattle.iv_hall.specs.Numbers.{IsOrder, Numbers};

    ghost Value = { Numbers };

    ghost view = { λ n. record { list = take n.count n.order.items; size = length n.order.items } };

    ghost invariant = { λ n. (n.count ≤ length n.order.items) × IsOrder n.order.items n.places.items };
}

/// Brings a number to a place, and the number there to where it stood.
fn exchange(order: &mut Vec<u32>, places: &mut Vec<usize>, number: u32, to: usize)
    requires order { IsOrder order.old.items places.old.items }
    requires number { number < length order.old.items }
    requires to { to < length order.old.items }
    ensures { IsExchanged number to order.old.items places.old.items order.new.items places.new.items }
{
    let from = places[number as usize];
    let other = order[to];
    order[from] = other;
    order[to] = number;
    places[other as usize] = from;
    places[number as usize] = to;
}

impl Numbers {
    /// None of as many numbers.
    ///
    /// # Errors
    /// `AllocError` if a growth of memory was refused.
    pub(crate) fn new(alloc: Global, size: u32) -> Result<Numbers, AllocError>
        ensures { IfOk result (λ n. n ≡ record { list = []; size = size }) }
    {
        let mut order = Vec::new(alloc);
        let mut places = Vec::new(alloc);
        for number in 0..size {
            order.push(number)?;
            places.push(number as usize)?;
        }
        Ok(Numbers {
            order,
            places,
            count: 0,
        })
    }

    /// Those that are in the list.
    pub(crate) fn list(&self) -> &[u32]
        ensures list { result.now ≡ self.now.list }
        ensures once { IsDistinct eqb result.now }
    {
        &self.order[..self.count]
    }

    /// Puts a number in, if it is below the size.
    pub(crate) fn insert(&mut self, number: u32)
        ensures { HasGained number self.old self.new }
    {
        if (number as usize) < self.order.len() {
            let at = self.places[number as usize];
            if at >= self.count {
                exchange(&mut self.order, &mut self.places, number, self.count);
                self.count += 1;
            }
        }
    }

    /// Puts in all numbers of a list that are below the size.
    pub(crate) fn insert_all(&mut self, numbers: &[u32])
        ensures { HasGainedAll numbers.now self.old self.new }
    {
        for number in numbers {
            self.insert(*number);
        }
    }

    /// Takes a number out. The last one is in its place.
    pub(crate) fn remove(&mut self, number: u32)
        ensures { HasLost number self.old self.new }
    {
        if (number as usize) < self.order.len() {
            let at = self.places[number as usize];
            if at < self.count {
                self.count -= 1;
                exchange(&mut self.order, &mut self.places, number, self.count);
            }
        }
    }

    /// Puts a number in, if it is to be in and is below the size, or takes it out.
    pub(crate) fn set(&mut self, number: u32, is_in: bool)
        ensures { AreSet (λ m. m ≡ number) (λ m. is_in) self.old self.new }
    {
        if is_in {
            self.insert(number);
        } else {
            self.remove(number);
        }
    }

    /// Takes all out.
    pub(crate) fn clear(&mut self)
        ensures { self.new ≡ record { list = []; size = self.old.size } }
    {
        self.count = 0;
    }
}
