// Runs at the limits: 4,096 symbols, 1,048,576 records, and 8,192 kept packets.
use super::*;

#[test]
fn refuses_a_file_of_too_many_symbols(rt: HostRuntime) -> Result<(), Fail> {
    let line = "source --m 1 --t 1 --seed 00000000000000000000000000000000 --batches 0";
    let run = make_run(&rt, line, &[7; 4097], 1000, [0, 0, 0])?;
    assert_left(&rt, &run, Status::Limit, &[], "bats: limit symbols\n");
    let run = make_run(&rt, line, &[7; 4096], 1000, [0, 0, 0])?;
    assert_eq!(rt; run.status, Status::Done);
    assert_eq!(rt;
        run.notes.written(),
        b"source: length=4096 symbols=4096 batches=0 packets=0\n".as_slice()
    );
    Ok(())
}

// A packet file of as many records as there may be, the header of a file of one byte and packets that say that it is 7.
fn longest_input(alloc: Global) -> Result<Vec<u8>, AllocError> {
    let mut bytes = b"BTS\x01\x01\x80\0\x01\0\0\0\0\0\0\0\x01".to_vec(alloc)?;
    bytes.extend_from_slice(&[0; 16])?;
    for _ in 0..1_048_575 {
        bytes.extend_from_slice(b"P\0\0\0\0\x01\x07")?;
    }
    Ok(bytes)
}

#[test]
fn takes_as_many_records_as_may_be(rt: HostRuntime) -> Result<(), Fail> {
    let input = longest_input(rt.alloc())?;
    let run = make_run(&rt, "sink", &input, 1000, [0, 0, 0])?;
    let notes = "sink: file length=1 packets=1048575 kept=1 inactive=0\n";
    assert_left(&rt, &run, Status::Done, &[7], notes);
    Ok(())
}

#[test]
fn takes_no_more_records(rt: HostRuntime) -> Result<(), Fail> {
    let mut input = longest_input(rt.alloc())?;
    input.push(0)?;
    let run = make_run(&rt, "sink", &input, 1000, [0, 0, 0])?;
    assert_left(&rt, &run, Status::Limit, &[], "bats: limit records\n");
    Ok(())
}

// The packet file of so many batches of 32 packets of a file of one byte, which is 7.
fn many_packets<R: AllocGlobal + Threads + Sync>(rt: &R, batches: u32) -> Result<Ran, AllocError> {
    let source = format!(in rt.alloc();
        "source --m 32 --t 1 --table 1 --seed 00000000000000000000000000000000 --batches {batches}"
    )?;
    make_run(rt, &source, &[7], 1000, [0, 0, 0])
}

// The words of a relay with this rule, on so many batches: its status, its notes line, and how many bytes it writes.
fn assert_relayed<R: AllocGlobal + Threads + Sync + Abort>(
    rt: &R,
    batches: u32,
    rule: &str,
    status: Status,
    notes: &str,
    size: usize,
) -> Result<(), Fail> {
    let relay = format!(in rt.alloc();
        "relay --seed 00000000000000000000000000000000 --rule {rule}"
    )?;
    let sent = many_packets(rt, batches)?;
    let run = make_run(rt, &relay, sent.output.written(), 1000, [0, 0, 0])?;
    assert_eq!(rt; run.notes.written(), notes.as_bytes(), "instead of {notes}");
    assert_eq!(rt; run.status, status, "at {notes}");
    assert_eq!(rt; run.output.written().len(), size, "at {notes}");
    Ok(())
}

#[test]
fn relays_as_many_as_may_be_kept(rt: HostRuntime) -> Result<(), Fail> {
    let none = "relay: packets=8192 kept=8192 batches=256 sent=0\n";
    assert_relayed(&rt, 256, "fixed --count 0", Status::Done, none, 32)?;
    // 32 packets and 64 more of each batch, records of 38 bytes.
    let more = "relay: packets=8192 kept=8192 batches=256 sent=24576\n";
    assert_relayed(
        &rt,
        256,
        "extra --count 64",
        Status::Done,
        more,
        32 + 24_576 * 38,
    )?;
    assert_relayed(
        &rt,
        257,
        "fixed --count 0",
        Status::Limit,
        "bats: limit kept\n",
        0,
    )
}

#[test]
fn receives_as_many_as_may_be_kept(rt: HostRuntime) -> Result<(), Fail> {
    let sent = many_packets(&rt, 256)?;
    let run = make_run(&rt, "sink", sent.output.written(), 1000, [0, 0, 0])?;
    let notes = "sink: file length=1 packets=8192 kept=8192 inactive=0\n";
    assert_left(&rt, &run, Status::Done, &[7], notes);
    let mut twice = Vec::from_slice(rt.alloc(), sent.output.written())?;
    twice.extend_from_slice(sent.output.written())?;
    let run = make_run(&rt, "sink", &twice, 1000, [0, 0, 0])?;
    let notes = "sink: file length=1 packets=16384 kept=8192 inactive=0\n";
    assert_left(&rt, &run, Status::Done, &[7], notes);
    let sent = many_packets(&rt, 257)?;
    for words in ["sink", "check"] {
        let run = make_run(&rt, words, sent.output.written(), 1000, [0, 0, 0])?;
        assert_left(&rt, &run, Status::Limit, &[], "bats: limit kept\n");
    }
    Ok(())
}
