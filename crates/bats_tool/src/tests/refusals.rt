// What each command refuses, as tables: the words, or the input.
use super::*;

// Compares what a command leaves that refuses: it writes nothing.
fn assert_refused<R: AllocGlobal + Threads + Sync + Abort>(
    rt: &R,
    words: &str,
    input: &[u8],
    status: Status,
    notes: &str,
) -> Result<(), Fail> {
    let run = make_run(rt, words, input, 3, [0, 0, 0])?;
    assert_left(rt, &run, status, &[], notes);
    Ok(())
}

#[test]
fn refuses_other_words(rt: HostRuntime) -> Result<(), Fail> {
    for line in [
        "",
        "sync",
        "sink --workers 0",
        "sink --workers=2",
        "sink --workers 2 --workers 2",
        "check --workers 65",
        "check --both",
        "source --m 2 --m 2 --t 2 --seed 00000000000000000000000000000000 --batches 1",
    ] {
        // Nothing is read: the first read would fail.
        let run = make_run(&rt, line, &[1, 2, 3, 4], 1000, [1, 0, 0])?;
        assert_left(&rt, &run, Status::Usage, &[], "bats: usage\n");
    }
    Ok(())
}

#[test]
fn refuses_other_inputs(rt: HostRuntime) -> Result<(), Fail> {
    for (front, change, more, notes) in [
        (0, AS_IT_IS, b"".as_slice(), "bats: input at=0 no-header\n"),
        (0, AS_IT_IS, b"\0", "bats: input at=0 no-header\n"),
        (31, AS_IT_IS, b"", "bats: input at=0 truncated\n"),
        (40, AS_IT_IS, b"", "bats: input at=32 truncated\n"),
        (32, AS_IT_IS, b"Q", "bats: input at=32 bad-tag byte=51\n"),
        (50, AS_IT_IS, b"\x0a", "bats: input at=50 bad-tag byte=0a\n"),
        (
            50,
            (2, b'T'),
            b"",
            "bats: input at=0 bad-header field=magic\n",
        ),
        (
            50,
            (3, 2),
            b"",
            "bats: input at=0 bad-header field=version\n",
        ),
        (50, (4, 33), b"", "bats: input at=0 bad-header field=m\n"),
        (50, (5, 2), b"", "bats: input at=0 bad-header field=mode\n"),
        (50, (6, 9), b"", "bats: input at=0 bad-header field=t\n"),
        (
            50,
            (14, 64),
            b"",
            "bats: input at=0 bad-header field=length\n",
        ),
        // A header alone.
        (32, (4, 33), b"", "bats: input at=0 bad-header field=m\n"),
        // A header whose seed is another.
        (
            50,
            AS_IT_IS,
            b"BTS\x01\x02\x80\0\x02\0\0\0\0\0\0\0\x04\0\0\0\0\0\0\0\0\0\0\0\0\0\0\0\x01",
            "bats: input at=50 other-session\n",
        ),
        // Of two causes the first in the input is told.
        (
            32,
            AS_IT_IS,
            b"QP\0\0\0\0\x02\0\x02\x04",
            "bats: input at=32 bad-tag byte=51\n",
        ),
    ] {
        let input = input_of(rt.alloc(), front, change, more)?;
        assert_refused(&rt, "sink", &input, Status::Input, notes)?;
        assert_refused(&rt, "check", &input, Status::Input, notes)?;
        assert_refused(&rt, RELAY, &input, Status::Input, notes)?;
    }
    Ok(())
}

#[test]
fn shows_the_records_before_a_refused_place(rt: HostRuntime) -> Result<(), Fail> {
    for (count, shown, notes) in [
        (0, 0, "bats: input at=0 no-header\n"),
        (31, 0, "bats: input at=0 truncated\n"),
        (33, 1, "bats: input at=32 truncated\n"),
        (40, 1, "bats: input at=32 truncated\n"),
        (49, 2, "bats: input at=41 truncated\n"),
    ] {
        let lines = first_lines(rt.alloc(), shown)?;
        let run = make_run(&rt, "show", &SMALL_OUTPUT[..count], 3, [0, 0, 0])?;
        assert_left(&rt, &run, Status::Input, &lines, notes);
    }
    Ok(())
}
