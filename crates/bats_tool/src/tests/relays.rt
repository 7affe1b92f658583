// Relays, and relays behind relays, as a table: the packets that come to the first of a row, and what each one sends. Bytes
// and lines are those of another program, which was written after the pages on formats alone.
ghost use Rattle.std.specs.Prelude.{◌≤◌};

use super::*;

// What one relay of a row sends: the bytes after the header, and its notes line.
#[derive(Clone, Copy)]
struct Relayed {
    words: &'static str,
    sent: &'static [u8],
    notes: &'static str,
}

// The bytes after the small header that come to the first relay, and the relays, each behind the one before.
#[derive(Clone, Copy)]
struct Row {
    packets: &'static [u8],
    relays: &'static [Relayed],
}

const RELAYED: [Row; 9] = [
    // As many as the rank, and one more.
    Row {
        packets: b"P\0\0\0\0\x01\0\x01\x02",
        relays: &[Relayed {
            words: "relay --seed 00000000000000000000000000000000 --rule extra --count 1",
            sent: b"P\0\0\0\0\x81\0\x81\x1fP\0\0\0\0\xd0\0\xd0\xbd",
            notes: "relay: packets=1 kept=1 batches=1 sent=2\n",
        }],
    },
    // As many as the rank.
    Row {
        packets: b"P\0\0\0\0\x01\0\x01\x02P\0\0\0\0\0\x01\x03\x04",
        relays: &[Relayed {
            words: "relay --seed 00000000000000000000000000000000 --rule extra --count 0",
            sent: b"P\0\0\0\0\x81\x0f\x90#P\0\0\0\0\xd0\xc5\x82\x8e",
            notes: "relay: packets=2 kept=2 batches=1 sent=2\n",
        }],
    },
    // In the other order, so that each factor is that of the other packet.
    Row {
        packets: b"P\0\0\0\0\0\x01\x03\x04P\0\0\0\0\x01\0\x01\x02",
        relays: &[Relayed {
            words: "relay --seed 00000000000000000000000000000000 --rule extra --count 0",
            sent: b"P\0\0\0\0\x0f\x81\x91 P\0\0\0\0\xc5\xd0\xa8\xf0",
            notes: "relay: packets=2 kept=2 batches=1 sent=2\n",
        }],
    },
    // Of five packets two are kept: the others are twice the first, the sum of both, and one that contradicts it.
    Row {
        packets: b"P\0\0\0\0\x01\0\x01\x02P\0\0\0\0\x02\0\x02\x04P\0\0\0\0\0\x01\x03\x04P\0\0\0\0\x01\x01\x02\x06P\0\0\0\0\x01\x01\x09\x09",
        relays: &[Relayed {
            words: "relay --seed 00000000000000000000000000000000 --rule extra --count 1",
            sent: b"P\0\0\0\0\x81\x0f\x90#P\0\0\0\0\xd0\xc5\x82\x8eP\0\0\0\0\xb2\xf4\xb3\x8e",
            notes: "relay: packets=5 kept=2 batches=1 sent=3\n",
        }],
    },
    // Only zeros: no batch is held.
    Row {
        packets: b"P\0\0\0\x05\0\0\0\0P\0\0\0\x06\0\0\x01\0",
        relays: &[Relayed {
            words: "relay --seed 00000000000000000000000000000000 --rule fixed --count 3",
            sent: b"",
            notes: "relay: packets=2 kept=0 batches=0 sent=0\n",
        }],
    },
    // Batches out of order, and the header again between them.
    Row {
        packets: b"P\0\0\0\x09\x03\x07\x0a\xc8P\0\0\0\0\0\x01\x03\x04BTS\x01\x02\x80\0\x02\0\0\0\0\0\0\0\x04\0\0\0\0\0\0\0\0\0\0\0\0\0\0\0\0P\xff\xff\xff\xff\xff\x01\0\x80P\0\0\0\x09\x01\x01\x1e(P\0\0\x01\0\0\x02\x06\x08",
        relays: &[Relayed {
            words: "relay --seed 000102030405060708090a0b0c0d0e0f --rule fixed --count 1",
            sent: b"P\0\0\0\0\0\xf6\x07\xffP\0\0\0\x09bJ\x05\x7fP\0\0\x01\0\0i\xbb\xb9P\xff\xff\xff\xff\xcc\xa6\0\xf9",
            notes: "relay: packets=5 kept=5 batches=4 sent=4\n",
        }],
    },
    // No output of any batch.
    Row {
        packets: b"P\0\0\0\0\x01\0\x01\x02P\0\0\0\0\0\x01\x03\x04",
        relays: &[Relayed {
            words: "relay --seed 000102030405060708090a0b0c0d0e0f --rule fixed --count 0",
            sent: b"",
            notes: "relay: packets=2 kept=2 batches=1 sent=0\n",
        }],
    },
    // A relay behind a relay, which takes three sums of two packets and keeps two of them.
    Row {
        packets: b"P\0\0\0\0\x01\0\x01\x02P\0\0\0\0\0\x01\x03\x04",
        relays: &[
            Relayed {
                words: "relay --seed 00000000000000000000000000000000 --rule fixed --count 3",
                sent: b"P\0\0\0\0\x81\x0f\x90#P\0\0\0\0\xd0\xc5\x82\x8eP\0\0\0\0\xb2\xf4\xb3\x8e",
                notes: "relay: packets=2 kept=2 batches=1 sent=3\n",
            },
            Relayed {
                words: "relay --seed 000102030405060708090a0b0c0d0e0f --rule extra --count 1",
                sent: b"P\0\0\0\0Z\x94\xfb\xdeP\0\0\0\0R\x01Q\xa0P\0\0\0\0g\x7f\xe6/",
                notes: "relay: packets=3 kept=2 batches=1 sent=3\n",
            },
        ],
    },
    // Three relays, of two batches.
    Row {
        packets: b"P\0\0\0\x01\0\x01\x03\x04P\0\0\0\0\x01\0\x01\x02P\0\0\0\0\0\x01\x03\x04P\0\0\0\x01\x07\x01\x05\x06",
        relays: &[
            Relayed {
                words: "relay --seed 000102030405060708090a0b0c0d0e0f --rule extra --count 0",
                sent: b"P\0\0\0\0\xf6\xe4\xc7FP\0\0\0\0EN\x97\xafP\0\0\0\x01\xb7!;GP\0\0\0\x01\x1e\x1b^\xb6",
                notes: "relay: packets=4 kept=4 batches=2 sent=4\n",
            },
            Relayed {
                words: "relay --seed 00000000000000000000000000000000 --rule fixed --count 2",
                sent: b"P\0\0\0\0\xb4:\xfa\x9dP\0\0\0\0\xe7\xef\xcbHP\0\0\0\x01F\xab\xbc\xa2P\0\0\0\x01e\xc3*\x05",
                notes: "relay: packets=4 kept=4 batches=2 sent=4\n",
            },
            Relayed {
                words: "relay --seed f0f1f2f3f4f5f6f7f8f9fafbfcfdfeff --rule extra --count 0",
                sent: b"P\0\0\0\0\xe9\x92B\xbdP\0\0\0\0<\x02:pP\0\0\0\x01:@\x9b\xdfP\0\0\0\x01\xd9=\x0c\xcd",
                notes: "relay: packets=4 kept=4 batches=2 sent=4\n",
            },
        ],
    },
];

// The small header, and then these bytes.
fn with_header(alloc: Global, more: &[u8]) -> Result<Vec<u8>, AllocError> {
    input_of(alloc, 32, AS_IT_IS, more)
}

// Sends the packets of a row over its relays, with pieces of at most so many bytes.
fn assert_relayed<R: AllocGlobal + Threads + Sync + Abort>(
    rt: &R,
    row: &Row,
    most: usize,
) -> Result<(), Fail>
    requires { 1 ≤ most }
{
    let mut bytes = with_header(rt.alloc(), row.packets)?;
    for relay in row.relays.iter() {
        let run = make_run(rt, relay.words, &bytes, most, [0, 0, 0])?;
        let left = with_header(rt.alloc(), relay.sent)?;
        assert_left(rt, &run, Status::Done, &left, relay.notes);
        bytes = left;
    }
    Ok(())
}

#[test]
fn relays_as_listed(rt: HostRuntime) -> Result<(), Fail> {
    for row in RELAYED.iter() {
        assert_relayed(&rt, row, 1)?;
        assert_relayed(&rt, row, 3)?;
        assert_relayed(&rt, row, 1000)?;
    }
    Ok(())
}
