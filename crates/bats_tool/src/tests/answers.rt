// What each command answers, as tables: the words, the input, and what the run leaves.
ghost use Rattle.std.specs.Prelude.{◌≤◌};

use super::*;

// The input is what `input_of` makes of the three fields after the words.
#[derive(Clone, Copy)]
struct Row {
    words: &'static str,
    front: usize,
    change: (usize, u8),
    more: &'static [u8],
    status: Status,
    output: &'static [u8],
    notes: &'static str,
}

const EMPTY: &str =
    "source --m 2 --t 2 --seed 00000000000000000000000000000000 --batches 0 --systematic";

const SAMPLED: &str =
    "source --m 2 --t 1 --seed 00000000000000000000000000000000 --batches 1 --table 1";

// Runs that send, relay or receive a file, or check what was received.
const ANSWERED: [Row; 37] = [
    Row {
        words: SMALL,
        front: 0,
        change: AS_IT_IS,
        more: b"\x01\x02\x03\x04",
        status: Status::Done,
        output: b"BTS\x01\x02\x80\0\x02\0\0\0\0\0\0\0\x04\0\0\0\0\0\0\0\0\0\0\0\0\0\0\0\0P\0\0\0\0\x01\0\x01\x02P\0\0\0\0\0\x01\x03\x04",
        notes: "source: length=4 symbols=2 batches=1 packets=2\n",
    },
    Row {
        words: EMPTY,
        front: 0,
        change: AS_IT_IS,
        more: b"",
        status: Status::Done,
        output: b"BTS\x01\x02\x80\0\x02\0\0\0\0\0\0\0\0\0\0\0\0\0\0\0\0\0\0\0\0\0\0\0\0",
        notes: "source: length=0 symbols=0 batches=0 packets=0\n",
    },
    Row {
        words: SAMPLED,
        front: 0,
        change: AS_IT_IS,
        more: b"\x01\x07\x01\0\x02",
        status: Status::Done,
        output: SAMPLED_OUTPUT,
        notes: "source: length=5 symbols=5 batches=1 packets=2\n",
    },
    Row {
        words: "sink",
        front: 50,
        change: AS_IT_IS,
        more: b"",
        status: Status::Done,
        output: b"\x01\x02\x03\x04",
        notes: "sink: file length=4 packets=2 kept=2 inactive=0\n",
    },
    Row {
        words: "sink --both",
        front: 50,
        change: AS_IT_IS,
        more: b"",
        status: Status::Done,
        output: b"\x01\x02\x03\x04",
        notes: "sink: file length=4 packets=2 kept=2 inactive=0\n",
    },
    Row {
        words: "sink --workers 1",
        front: 50,
        change: AS_IT_IS,
        more: b"",
        status: Status::Done,
        output: b"\x01\x02\x03\x04",
        notes: "sink: file length=4 packets=2 kept=2 inactive=0\n",
    },
    Row {
        words: "sink --workers 2",
        front: 50,
        change: AS_IT_IS,
        more: b"",
        status: Status::Done,
        output: b"\x01\x02\x03\x04",
        notes: "sink: file length=4 packets=2 kept=2 inactive=0\n",
    },
    Row {
        words: "sink --workers 64",
        front: 50,
        change: AS_IT_IS,
        more: b"",
        status: Status::Done,
        output: b"\x01\x02\x03\x04",
        notes: "sink: file length=4 packets=2 kept=2 inactive=0\n",
    },
    Row {
        words: "sink",
        front: 32,
        change: AS_IT_IS,
        more: b"P\0\0\0\0\0\x01\x03\x04P\0\0\0\0\0\x01\x03\x04P\0\0\0\0\0\x01\x03\x04P\0\0\0\0\x01\0\x01\x02P\0\0\0\0\x01\0\x01\x02P\0\0\0\0\x01\0\x01\x02",
        status: Status::Done,
        output: b"\x01\x02\x03\x04",
        notes: "sink: file length=4 packets=6 kept=2 inactive=0\n",
    },
    Row {
        words: "sink",
        front: 50,
        change: AS_IT_IS,
        more: b"BTS\x01\x02\x80\0\x02\0\0\0\0\0\0\0\x04\0\0\0\0\0\0\0\0\0\0\0\0\0\0\0\0",
        status: Status::Done,
        output: b"\x01\x02\x03\x04",
        notes: "sink: file length=4 packets=2 kept=2 inactive=0\n",
    },
    Row {
        words: "sink",
        front: 41,
        change: AS_IT_IS,
        more: b"P\0\0\0\0\x01\0\x01\x03",
        status: Status::Inconsistent,
        output: b"",
        notes: "sink: inconsistent packets=2 kept=1 inactive=2\n",
    },
    // The file has no byte where this packet has one.
    Row {
        words: "sink",
        front: 32,
        change: (15, 3),
        more: b"P\0\0\0\0\0\x01\x03\x01",
        status: Status::Inconsistent,
        output: b"",
        notes: "sink: inconsistent packets=1 kept=1 inactive=2\n",
    },
    Row {
        words: "sink",
        front: 32,
        change: (15, 3),
        more: b"P\0\0\0\0\0\x01\x03\0P\0\0\0\0\x01\0\x01\x02",
        status: Status::Done,
        output: b"\x01\x02\x03",
        notes: "sink: file length=3 packets=2 kept=2 inactive=1\n",
    },
    Row {
        words: "sink",
        front: 41,
        change: (15, 3),
        more: b"",
        status: Status::NeedMore,
        output: b"",
        notes: "sink: need-more open=1 packets=1 kept=1 inactive=1\n",
    },
    Row {
        words: "sink",
        front: 32,
        change: AS_IT_IS,
        more: b"",
        status: Status::NeedMore,
        output: b"",
        notes: "sink: need-more open=0 packets=0 kept=0 inactive=2\n",
    },
    Row {
        words: "sink",
        front: 32,
        change: (15, 0),
        more: b"",
        status: Status::Done,
        output: b"",
        notes: "sink: file length=0 packets=0 kept=0 inactive=0\n",
    },
    // The batch has one symbol and two packets, so the second is zero.
    Row {
        words: "sink",
        front: 41,
        change: (15, 2),
        more: b"P\0\0\0\0\0\x01\0\0",
        status: Status::Done,
        output: b"\x01\x02",
        notes: "sink: file length=2 packets=2 kept=2 inactive=0\n",
    },
    Row {
        words: "sink",
        front: 41,
        change: (15, 2),
        more: b"P\0\0\0\0\0\x01\0\x01",
        status: Status::Inconsistent,
        output: b"",
        notes: "sink: inconsistent packets=2 kept=2 inactive=0\n",
    },
    // Twice 01 02 and three times 03 04, and then 01 02.
    Row {
        words: "sink",
        front: 32,
        change: AS_IT_IS,
        more: b"P\0\0\0\0\x02\x03\x07\x08P\0\0\0\0\x01\0\x01\x02",
        status: Status::Done,
        output: b"\x01\x02\x03\x04",
        notes: "sink: file length=4 packets=2 kept=2 inactive=0\n",
    },
    Row {
        words: "sink",
        front: 32,
        change: AS_IT_IS,
        more: b"P\0\0\0\0\x01\0\x01\x02P\0\0\0\0\x01\0\x01\x02P\0\0\0\0\x01\0\x01\x02P\0\0\0\0\x02\x03\x07\x08P\0\0\0\0\x02\x03\x07\x08P\0\0\0\0\x02\x03\x07\x08",
        status: Status::Done,
        output: b"\x01\x02\x03\x04",
        notes: "sink: file length=4 packets=6 kept=2 inactive=0\n",
    },
    // The sum of both symbols, of which none is known.
    Row {
        words: "sink",
        front: 32,
        change: AS_IT_IS,
        more: b"P\0\0\0\0\x01\x01\x02\x06",
        status: Status::NeedMore,
        output: b"",
        notes: "sink: need-more open=0 packets=1 kept=1 inactive=1\n",
    },
    // A sum of no symbol, which isn't zero, and one that is.
    Row {
        words: "sink",
        front: 32,
        change: AS_IT_IS,
        more: b"P\0\0\0\0\0\0\0\x01",
        status: Status::Inconsistent,
        output: b"",
        notes: "sink: inconsistent packets=1 kept=0 inactive=2\n",
    },
    Row {
        words: "sink",
        front: 32,
        change: AS_IT_IS,
        more: b"P\0\0\0\0\0\0\0\0",
        status: Status::NeedMore,
        output: b"",
        notes: "sink: need-more open=0 packets=1 kept=0 inactive=2\n",
    },
    // Packets of an empty file.
    Row {
        words: "sink",
        front: 32,
        change: (15, 0),
        more: b"P\0\0\0\0\x01\0\0\0",
        status: Status::Done,
        output: b"",
        notes: "sink: file length=0 packets=1 kept=1 inactive=0\n",
    },
    Row {
        words: "sink",
        front: 32,
        change: (15, 0),
        more: b"P\0\0\0\0\x01\0\0\x01",
        status: Status::Inconsistent,
        output: b"",
        notes: "sink: inconsistent packets=1 kept=1 inactive=0\n",
    },
    // Twice 80 is 1d.
    Row {
        words: "sink",
        front: 0,
        change: AS_IT_IS,
        more: b"BTS\x01\x01\x80\0\x01\0\0\0\0\0\0\0\x01\0\0\0\0\0\0\0\0\0\0\0\0\0\0\0\0P\0\0\0\0\x02\x1d",
        status: Status::Done,
        output: b"\x80",
        notes: "sink: file length=1 packets=1 kept=1 inactive=0\n",
    },
    // Two packets of a batch of four symbols.
    Row {
        words: "sink",
        front: 0,
        change: AS_IT_IS,
        more: b"BTS\x01\x02\x01\0\x01\0\0\0\0\0\0\0\x05\0\0\0\0\0\0\0\0\0\0\0\0\0\0\0\0P\0\0\0\0\x01\0\xcfP\0\0\0\0\0\x01\x8f",
        status: Status::NeedMore,
        output: b"",
        notes: "sink: need-more open=0 packets=2 kept=2 inactive=3\n",
    },
    Row {
        words: "check",
        front: 0,
        change: AS_IT_IS,
        more: b"BTS\x01\x02\x01\0\x01\0\0\0\0\0\0\0\x05\0\0\0\0\0\0\0\0\0\0\0\0\0\0\0\0P\0\0\0\0\x01\0\xcfP\0\0\0\0\0\x01\x8f",
        status: Status::NeedMore,
        output: b"batch 0 degree 4 kept 2\nanswer need-more open 0\n",
        notes: "check: need-more open=0 packets=2 kept=2 inactive=3\n",
    },
    Row {
        words: "check",
        front: 32,
        change: AS_IT_IS,
        more: b"P\0\0\0\0\x02\x03\x07\x08P\0\0\0\0\x01\0\x01\x02",
        status: Status::Done,
        output: b"batch 0 degree 2 kept 2\nanswer file\n",
        notes: "check: file length=4 packets=2 kept=2 inactive=0\n",
    },
    Row {
        words: "check --workers 64",
        front: 32,
        change: AS_IT_IS,
        more: b"P\0\0\0\0\x01\0\x01\x02P\0\0\0\0\x02\x03\x07\x08P\0\0\0\0\x02\x03\x07\x08",
        status: Status::Done,
        output: b"batch 0 degree 2 kept 2\nanswer file\n",
        notes: "check: file length=4 packets=3 kept=2 inactive=0\n",
    },
    Row {
        words: "check",
        front: 41,
        change: AS_IT_IS,
        more: b"",
        status: Status::NeedMore,
        output: b"batch 0 degree 2 kept 1\nanswer need-more open 1\n",
        notes: "check: need-more open=1 packets=1 kept=1 inactive=2\n",
    },
    Row {
        words: "check",
        front: 41,
        change: AS_IT_IS,
        more: b"P\0\0\0\0\x01\0\x01\x03",
        status: Status::Inconsistent,
        output: b"batch 0 degree 2 kept 1\nanswer inconsistent\n",
        notes: "check: inconsistent packets=2 kept=1 inactive=2\n",
    },
    // A batch of which no packet is kept has no line.
    Row {
        words: "check",
        front: 32,
        change: AS_IT_IS,
        more: b"P\0\0\0\0\0\0\0\0",
        status: Status::NeedMore,
        output: b"answer need-more open 0\n",
        notes: "check: need-more open=0 packets=1 kept=0 inactive=2\n",
    },
    // The numbers rise, in whatever order the packets come.
    Row {
        words: "check",
        front: 32,
        change: (15, 0),
        more: b"P\0\0\0\x05\x01\0\0\0P\0\0\x01\0\x01\0\0\0P\0\0\0\x03\x01\0\0\0P\0\0\0\x05\0\x01\0\0",
        status: Status::Done,
        output: b"batch 3 degree 0 kept 1\nbatch 5 degree 0 kept 2\nbatch 256 degree 0 kept 1\nanswer file\n",
        notes: "check: file length=0 packets=4 kept=4 inactive=0\n",
    },
    Row {
        words: "show",
        front: 32,
        change: (15, 0),
        more: b"BTS\x01\x02\x80\0\x02\0\0\0\0\0\0\0\0\0\0\0\0\0\0\0\0\0\0\0\0\0\0\0\0P\xff\xff\xff\xff\x0a\xb0\xcd\x0e",
        status: Status::Done,
        output: b"header at=0 m=2 t=2 length=0 symbols=0 systematic=1 table=0 seed=00000000000000000000000000000000\nheader at=32 m=2 t=2 length=0 symbols=0 systematic=1 table=0 seed=00000000000000000000000000000000\npacket at=64 batch=4294967295 coefs=0ab0 payload=cd0e\n",
        notes: "show: headers=2 packets=1\n",
    },
    Row {
        words: RELAY,
        front: 32,
        change: AS_IT_IS,
        more: b"",
        status: Status::Done,
        output: b"BTS\x01\x02\x80\0\x02\0\0\0\0\0\0\0\x04\0\0\0\0\0\0\0\0\0\0\0\0\0\0\0\0",
        notes: "relay: packets=0 kept=0 batches=0 sent=0\n",
    },
    // The first bytes of the words of the relay's key are 81 for output 0, and d0 for output 1.
    Row {
        words: RELAY,
        front: 41,
        change: AS_IT_IS,
        more: b"",
        status: Status::Done,
        output: b"BTS\x01\x02\x80\0\x02\0\0\0\0\0\0\0\x04\0\0\0\0\0\0\0\0\0\0\0\0\0\0\0\0P\0\0\0\0\x81\0\x81\x1fP\0\0\0\0\xd0\0\xd0\xbd",
        notes: "relay: packets=1 kept=1 batches=1 sent=2\n",
    },
];

// The runs of all rows, with pieces of at most so many bytes.
fn assert_answers<R: AllocGlobal + Threads + Sync + Abort>(rt: &R, most: usize) -> Result<(), Fail>
    requires { 1 ≤ most }
{
    for row in ANSWERED {
        let input = input_of(rt.alloc(), row.front, row.change, row.more)?;
        let run = make_run(rt, row.words, &input, most, [0, 0, 0])?;
        assert_left(rt, &run, row.status, row.output, row.notes);
    }
    Ok(())
}

#[test]
fn answers_as_listed(rt: HostRuntime) -> Result<(), Fail> {
    assert_answers(&rt, 1)?;
    assert_answers(&rt, 3)?;
    assert_answers(&rt, 1000)
}
