//! Words that are commands, and words that are none.
use bats_words::{Command, WordsEnd, parse};
use std::alloc::{AllocError, Global};
use std::test::Fail;

const SEED: [u8; 16] = [
    0x00, 0x11, 0x22, 0x33, 0x44, 0x55, 0x66, 0x77, 0x88, 0x99, 0xaa, 0xbb, 0xcc, 0xdd, 0xee, 0xff,
];

// The words between single spaces, so that two spaces have an empty word between them.
fn words_of(alloc: Global, line: &str) -> Result<Vec<String>, AllocError> {
    let mut words = Vec::new(alloc);
    for word in line.split(' ') {
        words.push(String::from_str(alloc, word)?)?;
    }
    Ok(words)
}

fn parsed(rt: &impl AllocGlobal, line: &str) -> Result<Result<Command, WordsEnd>, AllocError> {
    Ok(parse(&words_of(rt.alloc(), line)?))
}

#[test]
fn reads_commands(rt: HostRuntime) -> Result<(), Fail> {
    let plain = Command::Source {
        m: 2,
        t: 2,
        table: 0,
        systematic: false,
        seed: SEED,
        first: 0,
        batches: 1,
    };
    let lowest = Command::Source {
        m: 1,
        t: 1,
        table: 0,
        systematic: false,
        seed: SEED,
        first: 0,
        batches: 0,
    };
    let highest = Command::Source {
        m: 32,
        t: 2048,
        table: 1,
        systematic: true,
        seed: SEED,
        first: 4_000_000_000,
        batches: 32767,
    };
    for (line, want) in [
        (
            "source --m 2 --t 2 --seed 00112233445566778899aabbccddeeff --batches 1",
            plain,
        ),
        (
            "source --batches 1 --seed 00112233445566778899AABBCCDDEEFF --t 2 --m 2",
            plain,
        ),
        (
            "source --m 00000000000000000002 --t 02 --seed 00112233445566778899aAbBcCdDeEfF --batches 1",
            plain,
        ),
        (
            "source --m 1 --t 1 --seed 00112233445566778899aabbccddeeff --batches 0 --table 0 --from 0",
            lowest,
        ),
        (
            "source --systematic --from 4000000000 --m 32 --table 1 --t 2048 --batches 32767 --seed 00112233445566778899aabbccddeeff",
            highest,
        ),
        (
            "source --from 4000000000 --m 32 --table 1 --t 2048 --batches 32767 --seed 00112233445566778899aabbccddeeff --systematic",
            highest,
        ),
    ] {
        assert_eq!(rt; parsed(&rt, line)?, Ok(want), "at {line}");
    }
    Ok(())
}

#[test]
fn reads_relay_sink_check_show_and_help(rt: HostRuntime) -> Result<(), Fail> {
    for (line, workers, both) in [
        ("sink", 1, false),
        ("sink --workers 1", 1, false),
        ("sink --workers 64 --both", 64, true),
        ("sink --both --workers 007", 7, true),
        ("sink --both", 1, true),
    ] {
        assert_eq!(rt;
            parsed(&rt, line)?,
            Ok(Command::Sink { workers, both }),
            "at {line}"
        );
    }
    for (line, extra, count) in [
        (
            "relay --seed 00112233445566778899aabbccddeeff --rule fixed --count 0",
            false,
            0,
        ),
        (
            "relay --count 64 --rule extra --seed 00112233445566778899AABBCCDDEEFF",
            true,
            64,
        ),
    ] {
        let seed = SEED;
        let want = Command::Relay { seed, extra, count };
        assert_eq!(rt; parsed(&rt, line)?, Ok(want), "at {line}");
    }
    for (line, workers) in [
        ("check", 1),
        ("check --workers 1", 1),
        ("check --workers 064", 64),
    ] {
        assert_eq!(rt;
            parsed(&rt, line)?,
            Ok(Command::Check { workers }),
            "at {line}"
        );
    }
    assert_eq!(rt; parsed(&rt, "show")?, Ok(Command::Show));
    assert_eq!(rt; parsed(&rt, "help")?, Ok(Command::Help));
    Ok(())
}

#[test]
fn refuses_other_words(rt: HostRuntime) -> Result<(), Fail> {
    assert_eq!(rt; parse(&Vec::new(rt.alloc())), Err(WordsEnd::Usage));
    for line in [
        "",
        "source",
        "sourc",
        "sync",
        "sinks",
        "helps",
        "--help",
        "-h",
        "relay",
        "Source --m 2 --t 2 --seed 00112233445566778899aabbccddeeff --batches 1",
        "--m 2 source --t 2 --seed 00112233445566778899aabbccddeeff --batches 1",
        // An option that is missing.
        "source --t 2 --seed 00112233445566778899aabbccddeeff --batches 1",
        "source --m 2 --seed 00112233445566778899aabbccddeeff --batches 1",
        "source --m 2 --t 2 --batches 1",
        "source --m 2 --t 2 --seed 00112233445566778899aabbccddeeff",
        // Words that are neither options with their values nor flags.
        "source --m=2 --t 2 --seed 00112233445566778899aabbccddeeff --batches 1",
        "source -m 2 --t 2 --seed 00112233445566778899aabbccddeeff --batches 1",
        "source --m 2 --t 2 --se 00112233445566778899aabbccddeeff --batches 1",
        "source --m 2 --t 2 --seed 00112233445566778899aabbccddeeff --batches 1 --help",
        "source --m 2 --t 2 --seed 00112233445566778899aabbccddeeff --batches 1 --",
        "source -- --m 2 --t 2 --seed 00112233445566778899aabbccddeeff --batches 1",
        "source --m 2 --t 2 --seed 00112233445566778899aabbccddeeff --batches 1 5",
        "source --m 2 --t 2 --seed 00112233445566778899aabbccddeeff --batches 1 --systematic 1",
        "source --m 2 --t 2 --seed 00112233445566778899aabbccddeeff --batches 1 --workers 2",
        // No value word.
        "source --m 2 --t 2 --seed 00112233445566778899aabbccddeeff --batches",
        "source --m --t 2 --seed 00112233445566778899aabbccddeeff --batches 1",
        "source --m  --t 2 --seed 00112233445566778899aabbccddeeff --batches 1",
        "source --m 2 --t 2 --seed 00112233445566778899aabbccddeeff --batches --systematic",
        // A name that comes twice.
        "source --m 2 --m 2 --t 2 --seed 00112233445566778899aabbccddeeff --batches 1",
        "source --m 2 --t 2 --seed 00112233445566778899aabbccddeeff --batches 1 --from 1 --from 1",
        "source --systematic --m 2 --t 2 --seed 00112233445566778899aabbccddeeff --batches 1 --systematic",
        // A number that is out of its range, or no number.
        "source --m 0 --t 2 --seed 00112233445566778899aabbccddeeff --batches 1",
        "source --m 33 --t 2 --seed 00112233445566778899aabbccddeeff --batches 1",
        "source --m 2 --t 0 --seed 00112233445566778899aabbccddeeff --batches 1",
        "source --m 2 --t 2049 --seed 00112233445566778899aabbccddeeff --batches 1",
        "source --m 2 --t 2 --seed 00112233445566778899aabbccddeeff --batches 32768",
        "source --m 2 --t 2 --seed 00112233445566778899aabbccddeeff --batches 1 --table 2",
        "source --m 2 --t 2 --seed 00112233445566778899aabbccddeeff --batches 1 --from 4000000001",
        "source --m 2 --t 2 --seed 00112233445566778899aabbccddeeff --batches 1 --from 18446744073709551616",
        "source --m 2 --t 2 --seed 00112233445566778899aabbccddeeff --batches 1 --from 99999999999999999999",
        "source --m 000000000000000000002 --t 2 --seed 00112233445566778899aabbccddeeff --batches 1",
        "source --m +2 --t 2 --seed 00112233445566778899aabbccddeeff --batches 1",
        "source --m -2 --t 2 --seed 00112233445566778899aabbccddeeff --batches 1",
        "source --m 2x --t 2 --seed 00112233445566778899aabbccddeeff --batches 1",
        "source --m 0x2 --t 2 --seed 00112233445566778899aabbccddeeff --batches 1",
        // A seed that is not 32 hexadecimal digits.
        "source --m 2 --t 2 --seed 00112233445566778899aabbccddeef --batches 1",
        "source --m 2 --t 2 --seed 00112233445566778899aabbccddeeff0 --batches 1",
        "source --m 2 --t 2 --seed 00112233445566778899aabbccddeefg --batches 1",
        "source --m 2 --t 2 --seed 0x112233445566778899aabbccddeeff --batches 1",
        // Other words of `relay`.
        "relay --seed 00112233445566778899aabbccddeeff --rule fixed",
        "relay --seed 00112233445566778899aabbccddeeff --count 1",
        "relay --rule fixed --count 1",
        "relay --seed 00112233445566778899aabbccddeeff --rule fixed --count 65",
        "relay --seed 00112233445566778899aabbccddeeff --rule Fixed --count 1",
        "relay --seed 00112233445566778899aabbccddeeff --rule fixe --count 1",
        "relay --seed 00112233445566778899aabbccddeeff --rule fixed extra --count 1",
        "relay --seed 00112233445566778899aabbccddeeff --rule fixed --count 1 --both",
        // Other words of `sink` and `check`, and words after `show` and `help`.
        "sink --workers",
        "sink --workers --both",
        "sink --workers 0",
        "sink --workers 65",
        "sink --workers=2",
        "sink --workers 2 --workers 2",
        "sink --both --both",
        "sink --both 2",
        "sink x",
        "sink --m 2",
        "check --both",
        "check --workers",
        "check --workers 0",
        "check --workers 65",
        "check --workers 2 --workers 2",
        "check 2",
        "checks",
        "show --both",
        "show x",
        "show ",
        "help sink",
        "help --workers 1",
        "help --help",
        "help ",
    ] {
        assert_eq!(rt; parsed(&rt, line)?, Err(WordsEnd::Usage), "at {line}");
    }
    Ok(())
}

#[test]
fn reads_replay(rt: HostRuntime) -> Result<(), Fail> {
    for (line, workers, both, pool) in [
        ("replay", 1, false, false),
        ("replay --workers 1", 1, false, false),
        ("replay --both", 1, true, false),
        ("replay --pool", 1, false, true),
        ("replay --workers 64 --both", 64, true, false),
        ("replay --both --workers 007", 7, true, false),
        ("replay --workers 64 --pool", 64, false, true),
        ("replay --pool --workers 2", 2, false, true),
    ] {
        let want = Command::Replay {
            workers,
            both,
            pool,
        };
        assert_eq!(rt; parsed(&rt, line)?, Ok(want), "at {line}");
    }
    Ok(())
}

#[test]
fn reads_trial(rt: HostRuntime) -> Result<(), Fail> {
    let lowest = Command::Trial {
        number: 0,
        m: 1,
        t: 1,
        table: 0,
        length: 0,
        batches: 0,
        relays: 0,
        loss: 0,
        workers: 1,
    };
    let highest = Command::Trial {
        number: u64::MAX,
        m: 32,
        t: 2048,
        table: 1,
        length: 8_388_608,
        batches: 256,
        relays: 8,
        loss: 100,
        workers: 64,
    };
    let most_batches = Command::Trial {
        number: 7,
        m: 1,
        t: 2,
        table: 1,
        length: 8192,
        batches: 8192,
        relays: 3,
        loss: 20,
        workers: 2,
    };
    for (line, want) in [
        (
            "trial --number 0 --m 1 --t 1 --length 0 --batches 0 --relays 0 --loss 0",
            lowest,
        ),
        (
            "trial --workers 1 --table 0 --loss 0 --relays 0 --batches 0 --length 0 --t 1 --m 1 --number 0",
            lowest,
        ),
        (
            "trial --number 18446744073709551615 --m 32 --t 2048 --length 8388608 --batches 256 --relays 8 --loss 100 --table 1 --workers 64",
            highest,
        ),
        (
            "trial --table 1 --loss 100 --batches 00000000000000000256 --workers 64 --m 032 --relays 08 --length 8388608 --number 18446744073709551615 --t 2048",
            highest,
        ),
        (
            "trial --number 7 --m 1 --t 2 --length 8192 --batches 8192 --relays 3 --loss 20 --table 1 --workers 2",
            most_batches,
        ),
    ] {
        assert_eq!(rt; parsed(&rt, line)?, Ok(want), "at {line}");
    }
    Ok(())
}

#[test]
fn refuses_other_words_of_replay_and_trial(rt: HostRuntime) -> Result<(), Fail> {
    for line in [
        // Other words of `replay`.
        "replay --both --pool",
        "replay --pool --both",
        "replay --pool --workers 2 --both",
        "replay --pool --pool",
        "replay --both --both",
        "replay --workers 2 --workers 2",
        "replay --workers",
        "replay --workers --pool",
        "replay --workers 0",
        "replay --workers 65",
        "replay --workers=2",
        "replay --pool 2",
        "replay --pool=2",
        "replay --po",
        "replay x",
        "replay ",
        "replay --table 1",
        "replays",
        "Replay",
        // An option of `trial` that is missing.
        "trial",
        "trial --m 2 --t 2 --length 4 --batches 3 --relays 1 --loss 10",
        "trial --number 1 --t 2 --length 4 --batches 3 --relays 1 --loss 10",
        "trial --number 1 --m 2 --length 4 --batches 3 --relays 1 --loss 10",
        "trial --number 1 --m 2 --t 2 --batches 3 --relays 1 --loss 10",
        "trial --number 1 --m 2 --t 2 --length 4 --relays 1 --loss 10",
        "trial --number 1 --m 2 --t 2 --length 4 --batches 3 --loss 10",
        "trial --number 1 --m 2 --t 2 --length 4 --batches 3 --relays 1",
        // A value of `trial` that is out of its range, or of another kind.
        "trial --number 18446744073709551616 --m 2 --t 2 --length 4 --batches 3 --relays 1 --loss 10",
        "trial --number 000000000000000000001 --m 2 --t 2 --length 4 --batches 3 --relays 1 --loss 10",
        "trial --number -1 --m 2 --t 2 --length 4 --batches 3 --relays 1 --loss 10",
        "trial --number 0x1 --m 2 --t 2 --length 4 --batches 3 --relays 1 --loss 10",
        "trial --number 1 --m 0 --t 2 --length 4 --batches 3 --relays 1 --loss 10",
        "trial --number 1 --m 33 --t 2 --length 4 --batches 3 --relays 1 --loss 10",
        "trial --number 1 --m 2 --t 0 --length 4 --batches 3 --relays 1 --loss 10",
        "trial --number 1 --m 2 --t 2049 --length 4 --batches 3 --relays 1 --loss 10",
        "trial --number 1 --m 2 --t 2048 --length 8388609 --batches 3 --relays 1 --loss 10",
        "trial --number 1 --m 1 --t 2 --length 4 --batches 8193 --relays 1 --loss 10",
        "trial --number 1 --m 2 --t 2 --length 4 --batches 3 --relays 9 --loss 10",
        "trial --number 1 --m 2 --t 2 --length 4 --batches 3 --relays 1 --loss 101",
        "trial --number 1 --m 2 --t 2 --length 4 --batches 3 --relays 1 --loss 10 --table 2",
        "trial --number 1 --m 2 --t 2 --length 4 --batches 3 --relays 1 --loss 10 --workers 0",
        "trial --number 1 --m 2 --t 2 --length 4 --batches 3 --relays 1 --loss 10 --workers 65",
        // More than 8,192 packets, or more than 4,096 symbols.
        "trial --number 1 --m 32 --t 2 --length 4 --batches 257 --relays 1 --loss 10",
        "trial --number 1 --m 3 --t 2 --length 4 --batches 2731 --relays 1 --loss 10",
        "trial --number 1 --m 2 --t 2 --length 4 --batches 4097 --relays 1 --loss 10",
        "trial --number 1 --m 32 --t 2 --length 4 --batches 8192 --relays 1 --loss 10",
        "trial --number 1 --m 2 --t 1 --length 4097 --batches 3 --relays 1 --loss 10",
        "trial --number 1 --m 2 --t 2047 --length 8388608 --batches 3 --relays 1 --loss 10",
        "trial --number 1 --m 2 --t 1 --length 8388608 --batches 3 --relays 1 --loss 10",
        // Other words of `trial`.
        "trial --number 1 --m 2 --t 2 --length 4 --batches 3 --relays 1 --loss 10 --number 1",
        "trial --number 1 --m 2 --t 2 --length 4 --batches 3 --relays 1 --loss 10 --table 0 --table 0",
        "trial --number 1 --m 2 --t 2 --length 4 --batches 3 --relays 1 --loss 10 --workers 2 --workers 2",
        "trial --number 1 --m 2 --t 2 --length 4 --batches 3 --relays 1 --loss 10 --both",
        "trial --number 1 --m 2 --t 2 --length 4 --batches 3 --relays 1 --loss 10 --pool",
        "trial --number 1 --m 2 --t 2 --length 4 --batches 3 --relays 1 --loss 10 --systematic",
        "trial --number 1 --m 2 --t 2 --length 4 --batches 3 --relays 1 --loss 10 --from 0",
        "trial --number 1 --m 2 --t 2 --length 4 --batches 3 --relays 1 --loss 10 --seed 00112233445566778899aabbccddeeff",
        "trial --number 1 --m 2 --t 2 --length 4 --batches 3 --relays 1 --loss 10 --table",
        "trial --number 1 --m 2 --t 2 --length 4 --batches 3 --relays 1 --loss 10 --workers",
        "trial --number 1 --m 2 --t 2 --length 4 --batches 3 --relays 1 --loss 10 x",
        "trial --number 1 --m 2 --t 2 --length 4 --batches 3 --relays 1 --loss 10 --help",
        "trial --number  --m 2 --t 2 --length 4 --batches 3 --relays 1 --loss 10",
        "trial --number=1 --m 2 --t 2 --length 4 --batches 3 --relays 1 --loss 10",
        "trial --number --m 2 --t 2 --length 4 --batches 3 --relays 1 --loss 10",
        "trial --number 1 --m 2 --t 2 --len 4 --batches 3 --relays 1 --loss 10",
        "trials --number 1 --m 2 --t 2 --length 4 --batches 3 --relays 1 --loss 10",
        "Trial --number 1 --m 2 --t 2 --length 4 --batches 3 --relays 1 --loss 10",
    ] {
        assert_eq!(rt; parsed(&rt, line)?, Err(WordsEnd::Usage), "at {line}");
    }
    Ok(())
}
