//! The example in memory: a file crosses a relay, or too few packets of it do.
ghost use Rattle.std.specs.Prelude.{◌≡◌, ◌<◌};

use crate::in_memory::{SendEnd, send_in_memory};
use bats_model::{Answer, Session};
use gf_rows::Steps;
use std::alloc::AllocGlobal;
use std::marker::Brand;
use std::process::Abort;
use std::sync::ledger::{Blank, Ledger};
use std::test::Fail;
use std::thread::Threads;

// What a receiver has of these bytes after so many batches of four packets, in a session of 11 bytes.
fn sent<R: Threads + Sync + AllocGlobal, C: Ledger, L: Ledger>(
    rt: &R,
    file: &[u8],
    batches: u32,
    counters: (Blank, Blank),
) -> Result<Result<Answer, SendEnd>, Fail>
    requires coef_name { counters.0.name ≡ C.name }
    requires coef_parts { counters.0.parts ≡ C.parts }
    requires coef_some { 0 < counters.0.parts }
    requires name { counters.1.name ≡ L.name }
    requires parts { counters.1.parts ≡ L.parts }
    requires some { 0 < counters.1.parts }
{
    let (coef_blank, blank) = counters;
    let mut coef_steps = Steps::<C>::new(coef_blank);
    let mut steps = Steps::<L>::new(blank);
    let session = Session::new(4, 2, 11, 0, false, [3; 16])?;
    Ok(send_in_memory(
        rt,
        rt.alloc(),
        session,
        file,
        batches,
        &mut coef_steps,
        &mut steps,
    ))
}

// The same, with counters of its own.
fn received<R: Threads + Sync + AllocGlobal>(
    rt: &R,
    file: &[u8],
    batches: u32,
) -> Result<Result<Answer, SendEnd>, Fail> {
    sent::<R, Brand, Brand>(rt, file, batches, (Blank::new(1), Blank::new(1)))
}

#[test]
fn a_file_crosses_a_relay(rt: HostRuntime) -> Result<(), Fail> {
    let answer = received(&rt, b"hello world", 3)??;
    assert!(rt; matches!(&answer, Answer::File(_)));
    if let Answer::File(file) = &answer {
        assert_eq!(rt; file.as_slice(), b"hello world".as_slice());
    }
    Ok(())
}

#[test]
fn one_batch_needs_more(rt: HostRuntime) -> Result<(), Fail> {
    for batches in [0, 1] {
        let answer = received(&rt, b"hello world", batches)??;
        assert!(rt;
            matches!(&answer, Answer::NeedMore { .. }),
            "{batches} batches"
        );
    }
    Ok(())
}

#[test]
fn a_file_of_another_length_is_refused(rt: HostRuntime) -> Result<(), Fail> {
    let refused = received(&rt, b"hello", 3)?.err();
    assert_eq!(rt; refused, Some(SendEnd::OtherLength));
    Ok(())
}
