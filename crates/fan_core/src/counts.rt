use crate::Drives;

/// The numbers that a window knows: the blocks of the file, how many of them are read, the live drives,
/// how many blocks each drive wrote, and the slots for blocks that are held.
#[derive(Clone, Copy)]
pub struct Counts {
    pub blocks: u64,
    pub read: u64,
    pub live: Drives,
    pub written: [u64; 8],
    pub slots: u32,
}
