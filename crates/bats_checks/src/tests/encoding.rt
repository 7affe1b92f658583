//! The encoder of a session and a file.
use bats_encoder::{Encoder, OtherLength};
use bats_model::{Bytes, Session};
use std::test::Fail;

fn session(length: u64) -> Option<Session> {
    Session::new(2, 2, length, 0, true, [0; 16]).ok()
}

#[test]
fn refuses_a_file_of_another_length(rt: HostRuntime) -> Result<(), Fail> {
    let session = session(4).ok_or("a session")?;
    let file = Bytes::copy_of(rt.alloc(), &[1, 2, 3])?;
    let refused = Encoder::new(rt.alloc(), session, file).err();
    let lengths = OtherLength {
        found: 3,
        declared: 4,
    };
    assert_eq!(rt; refused, Some(lengths));
    Ok(())
}
