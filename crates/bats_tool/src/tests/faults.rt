// Each call of a run failing in turn, as a table: of the input, of the output and of the notes.
use super::*;

// A run without a fault, with pieces of at most 3 bytes: the words, the input, what is written and noted, and how many
// calls there are of the input, of the output and of the notes.
#[derive(Clone, Copy)]
struct Calls {
    words: &'static str,
    input: &'static [u8],
    output: &'static [u8],
    notes: &'static str,
    reads: u64,
    writes: u64,
    reports: u64,
}

const SHOWN: &[u8] =
    b"header at=0 m=2 t=2 length=4 symbols=2 systematic=1 table=0 seed=00000000000000000000000000000000
packet at=32 batch=0 coefs=0100 payload=0102
packet at=41 batch=0 coefs=0001 payload=0304
";

// A script of one packet, which comes.
const SCRIPT: &[u8] = b"m=1
t=1
table=0
systematic=true
seed=\"00000000000000000000000000000000\"
file=\"07\"
relays=[]
links=[[0,1]]
event=[{send=[0,0]},{give=[0,1]}]";

const RUNS: [Calls; 8] = [
    // Two reads give the file, and the third its end. 11 writes for the header, 2 + 1 + 1 for each packet, and the flush.
    Calls {
        words: SMALL,
        input: &[1, 2, 3, 4],
        output: &SMALL_OUTPUT,
        notes: "source: length=4 symbols=2 batches=1 packets=2\n",
        reads: 3,
        writes: 20,
        reports: 17,
    },
    // 1 + 11 reads for the header, 1 + 2 + 1 + 1 for each packet, and one for the end. 2 writes, and the flush.
    Calls {
        words: "sink",
        input: &SMALL_OUTPUT,
        output: &[1, 2, 3, 4],
        notes: "sink: file length=4 packets=2 kept=2 inactive=0\n",
        reads: 23,
        writes: 3,
        reports: 17,
    },
    // As many reads. 12 writes for both lines, and the flush.
    Calls {
        words: "check",
        input: &SMALL_OUTPUT,
        output: b"batch 0 degree 2 kept 2\nanswer file\n",
        notes: "check: file length=4 packets=2 kept=2 inactive=0\n",
        reads: 23,
        writes: 13,
        reports: 18,
    },
    // As many reads. 11 writes for the header, 2 + 1 + 1 for the packet, and the flush.
    Calls {
        words: "relay --seed 00000000000000000000000000000000 --rule fixed --count 1",
        input: &SMALL_OUTPUT,
        output: b"BTS\x01\x02\x80\0\x02\0\0\0\0\0\0\0\x04\0\0\0\0\0\0\0\0\0\0\0\0\0\0\0\0P\0\0\0\0\x81\x0f\x90\x23",
        notes: "relay: packets=2 kept=2 batches=1 sent=1\n",
        reads: 23,
        writes: 16,
        reports: 15,
    },
    // As many reads. 33 writes for the header's line, 15 for each packet's, and the flush.
    Calls {
        words: "show",
        input: &SMALL_OUTPUT,
        output: SHOWN,
        notes: "show: headers=1 packets=2\n",
        reads: 23,
        writes: 64,
        reports: 10,
    },
    // One write, and the flush.
    Calls {
        words: "replay",
        input: SCRIPT,
        output: &[7],
        notes: "replay: file length=1 packets=1 kept=1 inactive=0\n",
        reads: 48,
        writes: 2,
        reports: 18,
    },
    // 11 writes for the header, 2 + 1 + 1 for the packet, and the flush.
    Calls {
        words: "replay --pool",
        input: SCRIPT,
        output: b"BTS\x01\x01\x80\0\x01\0\0\0\0\0\0\0\x01\0\0\0\0\0\0\0\0\0\0\0\0\0\0\0\0P\0\0\0\0\x01\x07",
        notes: "replay: file length=1 packets=1 kept=1 inactive=0\n",
        reads: 48,
        writes: 16,
        reports: 18,
    },
    // No read. 25 writes for the line, and the flush. The notes are flushed.
    Calls {
        words: "trial --number 0 --m 2 --t 1 --length 0 --batches 0 --relays 3 --loss 20",
        input: &[],
        output: b"trial number=0 symbols=0 batches=0 arrived=0 kept=0 inactive=0 answer=file\n",
        notes: "",
        reads: 0,
        writes: 26,
        reports: 1,
    },
];

// The run in which these calls fail.
fn run_of<R: AllocGlobal + Threads + Sync>(
    rt: &R,
    calls: &Calls,
    fails: [u64; 3],
) -> Result<Ran, AllocError> {
    make_run(rt, calls.words, calls.input, 3, fails)
}

#[test]
fn tells_each_read_that_fails(rt: HostRuntime) -> Result<(), Fail> {
    for calls in RUNS {
        for call in 1..calls.reads + 1 {
            let run = run_of(&rt, &calls, [call, 0, 0])?;
            assert_eq!(rt; run.status, Status::ReadFault, "at {call}");
            assert_eq!(rt; run.notes.written(), b"bats: read fault\n".as_slice());
            assert!(rt; calls.output.starts_with(run.output.written()), "at {call}");
        }
        let run = run_of(&rt, &calls, [calls.reads + 1, 0, 0])?;
        assert_left(&rt, &run, Status::Done, calls.output, calls.notes);
    }
    Ok(())
}

#[test]
fn tells_each_write_of_the_output_that_fails(rt: HostRuntime) -> Result<(), Fail> {
    for calls in RUNS {
        for call in 1..calls.writes + 1 {
            let run = run_of(&rt, &calls, [0, call, 0])?;
            assert_eq!(rt; run.status, Status::WriteFault, "at {call}");
            assert_eq!(rt; run.notes.written(), b"bats: write fault\n".as_slice());
            assert!(rt; calls.output.starts_with(run.output.written()), "at {call}");
        }
        let run = run_of(&rt, &calls, [0, calls.writes + 1, 0])?;
        assert_left(&rt, &run, Status::Done, calls.output, calls.notes);
    }
    Ok(())
}

#[test]
fn tells_each_write_of_the_notes_that_fails(rt: HostRuntime) -> Result<(), Fail> {
    for calls in RUNS {
        for call in 1..calls.reports + 1 {
            let run = run_of(&rt, &calls, [0, 0, call])?;
            assert_eq!(rt; run.status, Status::WriteFault, "at {call}");
            assert_eq!(rt; run.output.written(), calls.output, "at {call}");
            let notes = run.notes.written();
            assert!(rt; calls.notes.as_bytes().starts_with(notes), "at {call}");
        }
        let run = run_of(&rt, &calls, [0, 0, calls.reports + 1])?;
        assert_left(&rt, &run, Status::Done, calls.output, calls.notes);
    }
    Ok(())
}

// The lines that `show` writes before the read of this number: of 1 + 11 for the header, and 5 for each packet.
#[test]
fn shows_the_records_before_a_failed_read(rt: HostRuntime) -> Result<(), Fail> {
    for (from, to, shown) in [(1, 13, 0), (13, 18, 1), (18, 23, 2), (23, 24, 3)] {
        let lines = first_lines(rt.alloc(), shown)?;
        for call in from..to {
            let run = make_run(&rt, "show", &SMALL_OUTPUT, 3, [call, 0, 0])?;
            assert_left(&rt, &run, Status::ReadFault, &lines, "bats: read fault\n");
        }
    }
    Ok(())
}

#[test]
fn writes_nothing_before_a_failed_read_or_flush(rt: HostRuntime) -> Result<(), Fail> {
    for call in 1..24 {
        let run = make_run(&rt, "sink", &SMALL_OUTPUT, 3, [call, 0, 0])?;
        assert_left(&rt, &run, Status::ReadFault, &[], "bats: read fault\n");
    }
    for count in [0, 32, 40] {
        let run = make_run(&rt, "sink", &SMALL_OUTPUT[..count], 3, [0, 1, 0])?;
        assert_left(&rt, &run, Status::WriteFault, &[], "bats: write fault\n");
    }
    let run = make_run(&rt, "sink", SAMPLED_OUTPUT, 3, [0, 1, 0])?;
    assert_left(&rt, &run, Status::WriteFault, &[], "bats: write fault\n");
    // A failed read, and then a failed flush.
    let run = make_run(&rt, "sink", &SMALL_OUTPUT, 3, [1, 1, 0])?;
    assert_left(&rt, &run, Status::WriteFault, &[], "bats: write fault\n");
    Ok(())
}
