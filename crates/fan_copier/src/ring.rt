// The slots that a copy has taken from the pool, by the place of their block.
ghost use Rattle.std.specs.Prelude.{length, slice_set, ◌≡◌, ℕ, ◌<◌, true, is_some, Some, None};
ghost use Rattle.block_pool.specs.Lent.{PoolState, free_in};
ghost use Rattle.fan_copier.specs.Ring.{cell, taken, Owns, Readies, Gives, GivesAll};

use block_pool::{Pool, Slot};

/// The slots of a copy, by place.
#[derive(Drop)]
pub struct Ring {
    slots: [Option<Slot>; 16],
    pub ghost sixteen: { length slots ≡ 16 },
}

impl Ring {
    /// No place has a slot.
    pub fn new() -> Ring
        ensures empty { (i : ℕ) → cell result.slots i ≡ None }
        ensures none { taken result.slots ≡ 0 }
    {
        Ring {
            slots: [
                None, None, None, None, None, None, None, None, None, None, None, None, None, None,
                None, None,
            ],
        }
    }

    /// Takes a slot for a place that has none.
    pub fn ready(&mut self, pool: &mut Pool, place: usize)
        requires place { place < 16 }
        requires owns { Owns self.old.slots pool.old }
        requires room { cell self.old.slots place ≡ None → 0 < free_in pool.old.lent }
        ensures { Readies place self.old.slots self.new.slots pool.old pool.new }
    {
        if self.slots[place].is_none() {
            self.slots[place] = pool.take();
        }
    }

    /// The slot at a place.
    pub fn slot(&self, place: usize) -> &Slot
        requires { is_some (cell self.now.slots place) ≡ true }
        ensures { cell self.now.slots place ≡ Some result.now }
    {
        match &self.slots[place] {
            Some(slot) => slot,
            None => unreachable!(),
        }
    }

    /// How many places have a slot.
    pub fn held(&self) -> u32
        ensures { result ≡ taken self.now.slots }
    {
        let mut held = 0;
        for slot in &self.slots {
            if slot.is_some() {
                held += 1;
            }
        }
        held
    }

    /// Gives all slots back.
    pub fn give_back(&mut self, pool: &mut Pool)
        requires { Owns self.old.slots pool.old }
        ensures { GivesAll self.old.slots pool.old pool.new }
    {
        for place in 0..16 {
            self.give_one(pool, place);
        }
    }

    // Gives the slot of a place back.
    fn give_one(&mut self, pool: &mut Pool, place: usize)
        requires place { place < 16 }
        requires owns { Owns self.old.slots pool.old }
        ensures { Gives place self.old.slots self.new.slots pool.old pool.new }
    {
        if let Some(slot) = self.take_out(place) {
            pool.give(slot);
        }
    }

    // Empties a place.
    fn take_out(&mut self, place: usize) -> Option<Slot>
        requires { place < 16 }
        ensures was { result ≡ cell self.old.slots place }
        ensures now { self.new.slots ≡ slice_set self.old.slots place None }
    {
        self.slots[place].take()
    }
}
