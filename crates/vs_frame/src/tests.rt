use crate::{FrameRefusal, Framer, put_frame};
use std::test::Fail;

#[test]
fn a_frame_comes_once_it_is_whole(rt: HostRuntime) -> Result<(), Fail> {
    let mut framer = Framer::new(rt.alloc())?;
    framer.feed(b"\x00\x00\x00")?;
    assert!(rt; matches!(framer.next_frame(), Ok(None)));
    framer.feed(b"\x01\x61\x62")?;
    match framer.next_frame() {
        Ok(Some(message)) => assert_eq!(rt; message.as_bytes(), b"a".as_slice()),
        _ => assert!(rt; false),
    }
    assert_eq!(rt; framer.held(), 1);
    assert!(rt; matches!(framer.next_frame(), Ok(None)));
    Ok(())
}

#[test]
fn a_length_over_the_limit_is_refused_for_good(rt: HostRuntime) -> Result<(), Fail> {
    let mut framer = Framer::new(rt.alloc())?;
    framer.feed(b"\x01\x00\x00\x01")?;
    for _ in 0..2 {
        match framer.next_frame() {
            Err(refusal) => assert_eq!(rt;
                refusal,
                FrameRefusal::FrameTooLong { length: 16_777_217 }
            ),
            _ => assert!(rt; false),
        }
        framer.feed(b"\x00\x00\x00\x00")?;
    }
    Ok(())
}

#[test]
fn a_frame_is_put(rt: HostRuntime) -> Result<(), Fail> {
    let mut out = Vec::from_slice(rt.alloc(), b"x")?;
    put_frame(rt.alloc(), &mut out, b"a")?;
    assert_eq!(rt; out.as_slice(), b"x\x00\x00\x00\x01\x61".as_slice());
    Ok(())
}
