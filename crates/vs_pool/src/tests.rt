use crate::{OutOfMemory, Pool};
use std::test::Fail;

#[test]
fn a_pool_lends_what_it_has(rt: HostRuntime) -> Result<(), OutOfMemory> {
    let mut pool = Pool::new(rt.alloc(), 1, 4)?;
    assert_eq!(rt; pool.free(), 1);
    if let Some(buf) = pool.take() {
        assert_eq!(rt; buf.size(), 4);
        assert!(rt; pool.take().is_none());
        if pool.free() == 0 {
            pool.give(buf);
        }
    }
    assert_eq!(rt; pool.free(), 1);
    Ok(())
}

#[test]
fn a_buffer_takes_what_fits(rt: HostRuntime) -> Result<(), Fail> {
    let mut buf = Pool::new(rt.alloc(), 1, 4)?.take().expect(&rt, "a buffer");
    assert!(rt; buf.push_slice(b"abc") && !buf.push_slice(b"de"));
    assert_eq!(rt; buf.bytes(), b"abc".as_slice());
    assert!(rt; buf.push_slice(b"d"));
    buf.clear();
    assert!(rt; buf.bytes().is_empty());
    Ok(())
}
