/// What is done next with a file: a block is read, the drive `d` writes this block, or nothing is left.
#[derive(Clone, Copy, Debug, PartialEq, Eq)]
pub enum Act {
    Read,
    Write { d: u32, block: u64 },
    Finished,
}
