use std::marker::Model;

/// A block that a pool lent, seen as its number. It can be neither copied nor cloned; where it is
/// dropped, its block stays lent.
#[derive(Drop)]
pub struct Slot {
    pub(crate) number: u32,
}

impl Model for Slot {
    ghost use Rattle.std.specs.Prelude.{ℕ};

    ghost Value = { ℕ };

    ghost view = { λ slot. slot.number };
}
