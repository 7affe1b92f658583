// Scripts of networks, as a table. Bytes and lines are those of another program, which was written after the pages on formats
// alone.
ghost use Rattle.std.specs.Prelude.{◌≤◌};

use super::*;

// The keys of a script but `relays`, `links` and `event`, a line each.
const KEYS: [&str; 6] = [
    "m = 2\n",
    "t = 2\n",
    "table = 0\n",
    "systematic = true\n",
    "seed = \"00000000000000000000000000000000\"\n",
    "file = \"01020304\"\n",
];

// A network, what happens in it, and what is left of a run.
#[derive(Clone, Copy)]
struct Row {
    words: &'static str,
    network: &'static str,
    events: &'static str,
    status: Status,
    output: &'static [u8],
    notes: &'static str,
}

pub const NO_RELAY: &str = "relays = []\nlinks = [[0, 1]]\n";

const ONE_RELAY: &str =
    "relays = [\"000102030405060708090a0b0c0d0e0f\"]\nlinks = [[0, 1], [1, 2]]\n";

const TWO_RELAYS: &str =
    "relays = [\"00000000000000000000000000000000\", \"00000000000000000000000000000000\"]
links = [[0, 1], [1, 2], [2, 1], [2, 3]]\n";

// Both packets, the second first, and the first once more.
pub const GIVEN_TWICE: &str =
    "[ { send = [0, 0] }, { send = [0, 1] }, { give = [1, 1] }, { give = [0, 1] }, { give = [0, 1] } ]";

// Packet 1 is lost. Packet 0 comes twice to relay 1, which mixes it; what relay 2 makes of that goes back to relay 1, and to
// the sink.
const ROUND: &str =
    "[ { send = [0, 0] }, { send = [0, 1] }, { give = [0, 1] }, { give = [0, 1] }, { mix = [1, 0] },
  { give = [2, 2] }, { mix = [2, 0] }, { give = [3, 1] }, { give = [3, 3] } ]";

const PLAYED: [Row; 20] = [
    Row {
        words: "replay",
        network: NO_RELAY,
        events: GIVEN_TWICE,
        status: Status::Done,
        output: &[1, 2, 3, 4],
        notes: "replay: file length=4 packets=3 kept=2 inactive=0\n",
    },
    Row {
        words: "replay --both --workers 64",
        network: NO_RELAY,
        events: GIVEN_TWICE,
        status: Status::Done,
        output: &[1, 2, 3, 4],
        notes: "replay: file length=4 packets=3 kept=2 inactive=0\n",
    },
    Row {
        words: "replay --pool",
        network: NO_RELAY,
        events: GIVEN_TWICE,
        status: Status::Done,
        output: &SMALL_OUTPUT,
        notes: "replay: file length=4 packets=3 kept=2 inactive=0\n",
    },
    Row {
        words: "replay",
        network: TWO_RELAYS,
        events: ROUND,
        status: Status::NeedMore,
        output: b"",
        notes: "replay: need-more open=1 packets=1 kept=1 inactive=2\n",
    },
    // The pool has what the relays made, and not what the source would send.
    Row {
        words: "replay --pool",
        network: TWO_RELAYS,
        events: ROUND,
        status: Status::NeedMore,
        output: b"BTS\x01\x02\x80\0\x02\0\0\0\0\0\0\0\x04\0\0\0\0\0\0\0\0\0\0\0\0\0\0\0\0P\0\0\0\0\x01\0\x01\x02P\0\0\0\0\0\x01\x03\x04P\0\0\0\0\x81\0\x81\x1fP\0\0\0\0\x12\0\x12\x24",
        notes: "replay: need-more open=1 packets=1 kept=1 inactive=2\n",
    },
    // Both packets over a relay, which mixes them.
    Row {
        words: "replay",
        network: ONE_RELAY,
        events: "[ { send = [0, 0] }, { send = [0, 1] }, { give = [0, 1] }, { give = [1, 1] }, { mix = [1, 0] },
            { mix = [1, 0] }, { give = [2, 2] }, { give = [3, 2] }, ]",
        status: Status::Done,
        output: &[1, 2, 3, 4],
        notes: "replay: file length=4 packets=2 kept=2 inactive=0\n",
    },
    // Nothing happens.
    Row {
        words: "replay",
        network: NO_RELAY,
        events: "[]",
        status: Status::NeedMore,
        output: b"",
        notes: "replay: need-more open=0 packets=0 kept=0 inactive=2\n",
    },
    // Each cause.
    Row {
        words: "replay",
        network: TWO_RELAYS,
        events: "[ { send = [0, 0] }, { give = [0, 2] } ]",
        status: Status::Script,
        output: b"",
        notes: "bats: script event=1 no-link\n",
    },
    Row {
        words: "replay --pool",
        network: NO_RELAY,
        events: "[ { send = [0, 2] } ]",
        status: Status::Script,
        output: b"",
        notes: "bats: script event=0 column-too-large\n",
    },
    Row {
        words: "replay",
        network: NO_RELAY,
        events: "[ { mix = [1, 0] } ]",
        status: Status::Script,
        output: b"",
        notes: "bats: script event=0 not-a-relay\n",
    },
    Row {
        words: "replay",
        network: ONE_RELAY,
        events: "[ { send = [7, 1] }, { mix = [0, 7] } ]",
        status: Status::Script,
        output: b"",
        notes: "bats: script event=1 not-a-relay\n",
    },
    Row {
        words: "replay",
        network: NO_RELAY,
        events: "[ { mix = [2, 0] } ]",
        status: Status::Script,
        output: b"",
        notes: "bats: script event=0 no-node\n",
    },
    Row {
        words: "replay",
        network: NO_RELAY,
        events: "[ { send = [0, 0] }, { give = [0, 1] }, { give = [0, 2] } ]",
        status: Status::Script,
        output: b"",
        notes: "bats: script event=2 no-node\n",
    },
    Row {
        words: "replay",
        network: NO_RELAY,
        events: "[ { give = [0, 1] } ]",
        status: Status::Script,
        output: b"",
        notes: "bats: script event=0 no-packet\n",
    },
    // Of two causes the first is told.
    Row {
        words: "replay",
        network: NO_RELAY,
        events: "[ { give = [4294967295, 4294967295] } ]",
        status: Status::Script,
        output: b"",
        notes: "bats: script event=0 no-packet\n",
    },
    Row {
        words: "replay",
        network: ONE_RELAY,
        events: "[ { send = [0, 0] }, { give = [0, 1] }, { mix = [1, 1] } ]",
        status: Status::Script,
        output: b"",
        notes: "bats: script event=2 nothing-held\n",
    },
    // The link leads the other way.
    Row {
        words: "replay",
        network: "relays = [\"00000000000000000000000000000000\"]\nlinks = [[0, 1], [0, 1], [1, 2]]\n",
        events: "[ { send = [0, 0] }, { give = [0, 1] }, { mix = [1, 0] }, { give = [1, 1] } ]",
        status: Status::Script,
        output: b"",
        notes: "bats: script event=3 no-link\n",
    },
    // A relay that is given its own output keeps nothing more, and its next output is another.
    Row {
        words: "replay",
        network: "relays = [\"000102030405060708090a0b0c0d0e0f\"]\nlinks = [[0, 1], [1, 1], [1, 2]]\n",
        events: "[ { send = [0, 1] }, { give = [0, 1] }, { mix = [1, 0] }, { give = [1, 1] }, { mix = [1, 0] }, { give = [2, 2] } ]",
        status: Status::NeedMore,
        output: b"",
        notes: "replay: need-more open=0 packets=1 kept=1 inactive=1\n",
    },
    // Keys of the script that are refused after all others were read.
    Row {
        words: "replay",
        network: NO_RELAY,
        events: "[ { send = [0, 0], give = [0, 1] } ]",
        status: Status::Script,
        output: b"",
        notes: "bats: script key=event\n",
    },
    Row {
        words: "replay",
        network: "relays = []\nlinks = [[1, 1]]\n",
        events: "[ { send = [0, 9] } ]",
        status: Status::Script,
        output: b"",
        notes: "bats: script key=links\n",
    },
];

// The script of these keys, one of which may be left out by its place, and of these parts.
pub fn script_of(
    alloc: Global,
    left_out: usize,
    network: &str,
    events: &str,
) -> Result<String, AllocError> {
    let mut script = String::new(alloc);
    for (place, key) in KEYS.iter().enumerate() {
        if place != left_out {
            script.push_str(key)?;
        }
    }
    script.push_str(network)?;
    script.push_str("event = ")?;
    script.push_str(events)?;
    script.push_str("\n")?;
    Ok(script)
}

// Plays all of them, with pieces of at most `most` bytes.
fn assert_plays<R: AllocGlobal + Threads + Sync + Abort>(rt: &R, most: usize) -> Result<(), Fail>
    requires { 1 ≤ most }
{
    for row in PLAYED {
        let script = script_of(rt.alloc(), 9, row.network, row.events)?;
        let run = make_run(rt, row.words, script.as_bytes(), most, [0, 0, 0])?;
        assert_left(rt, &run, row.status, row.output, row.notes);
    }
    Ok(())
}

#[test]
fn plays_scripts(rt: HostRuntime) -> Result<(), Fail> {
    assert_plays(&rt, 1)?;
    assert_plays(&rt, 3)?;
    assert_plays(&rt, 1000)
}

// Which two files are written is free, but for the first symbol.
#[test]
fn writes_two_files_of_a_network(rt: HostRuntime) -> Result<(), Fail> {
    let events = "[ { send = [0, 0] }, { give = [0, 1] } ]";
    let script = script_of(rt.alloc(), 9, NO_RELAY, events)?;
    let run = make_run(&rt, "replay --both", script.as_bytes(), 1000, [0, 0, 0])?;
    assert_eq!(rt; run.status, Status::NeedMore);
    assert_eq!(rt;
        run.notes.written(),
        b"replay: need-more open=1 packets=1 kept=1 inactive=2\n".as_slice()
    );
    let both = run.output.written();
    assert!(rt; matches!(both, [1, 2, a, b, 1, 2, c, d] if (a, b) != (c, d)));
    Ok(())
}

pub fn assert_script<R: AllocGlobal + Threads + Sync + Abort>(
    rt: &R,
    script: &[u8],
    status: Status,
    notes: &str,
) -> Result<(), Fail> {
    let run = make_run(rt, "replay", script, 1000, [0, 0, 0])?;
    assert_left(rt, &run, status, &[], notes);
    Ok(())
}

#[test]
fn tells_the_first_wrong_key(rt: HostRuntime) -> Result<(), Fail> {
    let alloc = rt.alloc();
    for (left_out, notes) in [
        (0, "bats: script key=m\n"),
        (1, "bats: script key=t\n"),
        (2, "bats: script key=table\n"),
        (3, "bats: script key=systematic\n"),
        (4, "bats: script key=seed\n"),
        (5, "bats: script key=file\n"),
    ] {
        let script = script_of(alloc, left_out, NO_RELAY, "[]")?;
        assert_script(&rt, script.as_bytes(), Status::Script, notes)?;
    }
    for (network, notes) in [
        ("links = []\n", "bats: script key=relays\n"),
        ("relays = []\n", "bats: script key=links\n"),
        ("relays = [\"00\"]\n", "bats: script key=relays\n"),
        (
            "links = []\nrelays = []\nnode = 1\n",
            "bats: script key=unknown\n",
        ),
        ("links = []\nlinks = []\n", "bats: script key=toml\n"),
    ] {
        let script = script_of(alloc, 9, network, "[]")?;
        assert_script(&rt, script.as_bytes(), Status::Script, notes)?;
    }
    assert_script(&rt, b"", Status::Script, "bats: script key=m\n")?;
    assert_script(
        &rt,
        b"m = 2\n\xff",
        Status::Script,
        "bats: script key=toml\n",
    )?;
    Ok(())
}
