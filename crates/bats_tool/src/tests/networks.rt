// Networks at their limits, and trials. Lines are those of another program, which was written after the pages on formats alone.
use super::scripts::{GIVEN_TWICE, NO_RELAY, assert_script, script_of};
use super::*;

// A comment behind the script fills it up.
#[test]
fn takes_as_long_a_script_as_may_be(rt: HostRuntime) -> Result<(), Fail> {
    let script = script_of(rt.alloc(), 9, NO_RELAY, GIVEN_TWICE)?;
    let mut bytes = script.as_bytes().to_vec(rt.alloc())?;
    bytes.push(b'#')?;
    for _ in bytes.len()..4_194_304 {
        bytes.push(b' ')?;
    }
    let run = make_run(&rt, "replay", &bytes, 100_000, [0, 0, 0])?;
    let notes = "replay: file length=4 packets=3 kept=2 inactive=0\n";
    assert_left(&rt, &run, Status::Done, &[1, 2, 3, 4], notes);
    bytes.push(b' ')?;
    assert_script(&rt, &bytes, Status::Limit, "bats: limit script\n")
}

// A file of so many zero bytes, each of them a symbol, and nothing happens.
#[test]
fn plays_a_file_of_as_many_symbols_as_may_be(rt: HostRuntime) -> Result<(), Fail> {
    for (symbols, status, notes) in [
        (
            4096,
            Status::NeedMore,
            "replay: need-more open=0 packets=0 kept=0 inactive=4096\n",
        ),
        (4097, Status::Limit, "bats: limit symbols\n"),
    ] {
        let mut script = String::from_str(
            rt.alloc(),
            "m = 1\nt = 1\ntable = 0\nsystematic = true\nseed = \"00000000000000000000000000000000\"
relays = []\nlinks = []\nfile = \"",
        )?;
        for _ in 0..symbols {
            script.push_str("00")?;
        }
        script.push_str("\"\n")?;
        assert_script(&rt, script.as_bytes(), status, notes)?;
    }
    Ok(())
}

// The start of a script with a file of one byte, 7, in batches of so many packets.
fn one_byte(alloc: Global, m: u32) -> Result<String, AllocError> {
    format!(in alloc;
        "m = {m}
t = 1
table = 1
systematic = false
seed = \"00000000000000000000000000000000\"
file = \"07\"
relays = []
links = [[0, 1]]
event = [\n"
    )
}

#[test]
fn makes_as_many_packets_as_the_pool_takes(rt: HostRuntime) -> Result<(), Fail> {
    let mut script = one_byte(rt.alloc(), 1)?;
    for _ in 0..65_536 {
        script.push_str("{send=[0,0]},\n")?;
    }
    let mut more = String::from_str(rt.alloc(), script.as_str())?;
    script.push_str("]")?;
    let notes = "replay: need-more open=0 packets=0 kept=0 inactive=1\n";
    assert_script(&rt, script.as_bytes(), Status::NeedMore, notes)?;
    more.push_str("{send=[0,0]}]")?;
    assert_script(&rt, more.as_bytes(), Status::Limit, "bats: limit pool\n")
}

#[test]
fn gives_as_many_packets_as_the_sink_keeps(rt: HostRuntime) -> Result<(), Fail> {
    let alloc = rt.alloc();
    let mut script = one_byte(alloc, 32)?;
    for place in 0..8192 {
        let events = format!(in alloc;
            "{{send=[{},{}]}},{{give=[{place},1]}},\n",
            place / 32,
            place % 32
        )?;
        script.push_str(events.as_str())?;
    }
    let mut more = String::from_str(alloc, script.as_str())?;
    // The last packet once more.
    script.push_str("{give=[8191,1]}]")?;
    let run = make_run(&rt, "replay", script.as_bytes(), 100_000, [0, 0, 0])?;
    let notes = "replay: file length=1 packets=8193 kept=8192 inactive=0\n";
    assert_left(&rt, &run, Status::Done, &[7], notes);
    more.push_str("{send=[256,0]},{give=[8192,1]}]")?;
    assert_script(&rt, more.as_bytes(), Status::Limit, "bats: limit kept\n")
}

// The words of a trial behind its name, its status, and its line. Nothing is read: a first read would fail.
#[test]
fn tries(rt: HostRuntime) -> Result<(), Fail> {
    for (words, status, line) in [
        (
            "--number 0 --m 2 --t 1 --length 5 --batches 0 --relays 3 --loss 20",
            Status::NeedMore,
            "trial number=0 symbols=5 batches=0 arrived=0 kept=0 inactive=5 answer=need-more open=0\n",
        ),
        (
            "--number 0 --m 2 --t 1 --length 0 --batches 0 --relays 3 --loss 20",
            Status::Done,
            "trial number=0 symbols=0 batches=0 arrived=0 kept=0 inactive=0 answer=file\n",
        ),
        (
            "--number 1 --m 4 --t 2 --length 40 --batches 12 --relays 2 --loss 20",
            Status::Done,
            "trial number=1 symbols=20 batches=12 arrived=40 kept=31 inactive=13 answer=file\n",
        ),
        (
            "--number 18446744073709551615 --m 1 --t 3 --length 20 --batches 9 --relays 0 --loss 0 --table 1",
            Status::Done,
            "trial number=18446744073709551615 symbols=7 batches=9 arrived=9 kept=9 inactive=1 answer=file\n",
        ),
        (
            "--number 72623859790382856 --m 5 --t 7 --length 100 --batches 6 --relays 8 --loss 10 --table 1",
            Status::NeedMore,
            "trial number=72623859790382856 symbols=15 batches=6 arrived=28 kept=19 inactive=7 answer=need-more open=6\n",
        ),
        (
            "--number 3 --m 3 --t 2 --length 21 --batches 40 --relays 1 --loss 50 --table 1",
            Status::Done,
            "trial number=3 symbols=11 batches=40 arrived=57 kept=44 inactive=1 answer=file\n",
        ),
        (
            "--number 2 --m 2 --t 1 --length 9 --batches 30 --relays 1 --loss 100",
            Status::NeedMore,
            "trial number=2 symbols=9 batches=30 arrived=0 kept=0 inactive=9 answer=need-more open=0\n",
        ),
        (
            "--number 5 --m 32 --t 1 --length 3 --batches 2 --relays 8 --loss 1",
            Status::Done,
            "trial number=5 symbols=3 batches=2 arrived=64 kept=61 inactive=0 answer=file\n",
        ),
        (
            "--number 6 --m 8 --t 16 --length 250 --batches 14 --relays 2 --loss 25 --table 1 --workers 64",
            Status::Done,
            "trial number=6 symbols=16 batches=14 arrived=77 kept=68 inactive=1 answer=file\n",
        ),
        (
            "--number 7 --m 16 --t 1024 --length 1048576 --batches 384 --relays 3 --loss 20",
            Status::Done,
            "trial number=7 symbols=1024 batches=384 arrived=4972 kept=4265 inactive=0 answer=file\n",
        ),
    ] {
        let line_of_words = format!(in rt.alloc(); "trial {words}")?;
        let run = make_run(&rt, &line_of_words, &[1, 2, 3], 1000, [1, 0, 0])?;
        assert_left(&rt, &run, status, line.as_bytes(), "");
    }
    Ok(())
}
