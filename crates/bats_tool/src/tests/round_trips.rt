// `sink` on what `source` sends, and the two files of need-more.
use super::*;

// A file of so many bytes.
fn file_of(alloc: Global, length: u32) -> Result<Vec<u8>, AllocError> {
    let mut bytes = Vec::new(alloc);
    for place in 0..length {
        bytes.push((place % 251) as u8)?;
    }
    Ok(bytes)
}

#[test]
fn receives_what_source_sends(rt: HostRuntime) -> Result<(), Fail> {
    // Batches of 5 symbols of 7 bytes, the systematic ones alone.
    for (length, batches) in [(1, 1), (7, 1), (35, 1), (36, 2), (349, 10), (350, 10)] {
        let file = file_of(rt.alloc(), length)?;
        let line = format!(in rt.alloc();
            "source --m 5 --t 7 --seed 000102030405060708090a0b0c0d0e0f --batches {batches} --systematic"
        )?;
        let sent = make_run(&rt, &line, &file, 1000, [0, 0, 0])?;
        let run = make_run(&rt, "sink", sent.output.written(), 1000, [0, 0, 0])?;
        assert_eq!(rt; run.status, Status::Done, "at {length}");
        assert_eq!(rt; run.output.written(), file.as_slice(), "at {length}");
    }
    Ok(())
}

// 977 symbols, of which the last is only in part the file's.
#[test]
fn receives_a_million_bytes(rt: HostRuntime) -> Result<(), Fail> {
    let file = file_of(rt.alloc(), 1_000_000)?;
    let line =
        "source --m 16 --t 1024 --seed 00000000000000000000000000000000 --batches 62 --systematic";
    let sent = make_run(&rt, line, &file, 100_000, [0, 0, 0])?;
    let run = make_run(
        &rt,
        "sink --workers 4",
        sent.output.written(),
        100_000,
        [0, 0, 0],
    )?;
    let notes = "sink: file length=1000000 packets=992 kept=992 inactive=1\n";
    assert_left(&rt, &run, Status::Done, file.as_slice(), notes);
    Ok(())
}

#[test]
fn writes_two_files_that_agree(rt: HostRuntime) -> Result<(), Fail> {
    let input = input_of(rt.alloc(), 41, (15, 3), &[])?;
    let run = make_run(&rt, "sink --both", &input, 1000, [0, 0, 0])?;
    assert_eq!(rt; run.status, Status::NeedMore);
    assert_eq!(rt;
        run.notes.written(),
        b"sink: need-more open=1 packets=1 kept=1 inactive=1\n".as_slice()
    );
    let both = run.output.written();
    assert!(rt; matches!(both, [1, 2, first, 1, 2, second] if first != second));
    // The packet is the sum of both symbols.
    let input = input_of(rt.alloc(), 32, AS_IT_IS, b"P\0\0\0\0\x01\x01\x02\x06")?;
    let run = make_run(&rt, "sink --both", &input, 1000, [0, 0, 0])?;
    assert_eq!(rt; run.status, Status::NeedMore);
    assert_eq!(rt;
        run.notes.written(),
        b"sink: need-more open=0 packets=1 kept=1 inactive=1\n".as_slice()
    );
    let both = run.output.written();
    assert!(rt;
        matches!(both, [a, b, c, d, e, f, g, h]
        if (a ^ c, b ^ d, e ^ g, f ^ h) == (2, 6, 2, 6) && (a, b) != (e, f))
    );
    Ok(())
}
