use crate::{BLOCK_BYTES, Pool};
use std::test::Fail;

#[test]
fn a_lent_block_keeps_its_bytes(rt: HostRuntime) -> Result<(), Fail> {
    let mut pool = Pool::new(rt.alloc(), 2)?;
    let first = pool.take().ok_or("a block is free")?;
    pool.bytes_mut(&first).fill(1);
    let second = pool.take().ok_or("another is free")?;
    pool.bytes_mut(&second).fill(2);
    assert_eq!(rt; pool.free(), 0);
    pool.give(second);
    assert_eq!(rt; pool.free(), 1);
    let bytes = pool.bytes(&first);
    assert_eq!(rt; bytes.len(), BLOCK_BYTES);
    assert!(rt; bytes.iter().all(|byte| *byte == 1));
    pool.give(first);
    assert_eq!(rt; pool.free(), 2);
    Ok(())
}

#[test]
fn each_block_is_lent_once(rt: HostRuntime) -> Result<(), Fail> {
    let mut pool = Pool::new(rt.alloc(), 3)?;
    for left in [2, 1, 0] {
        assert!(rt; pool.take().is_some(), "at {left}");
        assert_eq!(rt; pool.free(), left);
    }
    assert!(rt; pool.take().is_none());
    Ok(())
}
