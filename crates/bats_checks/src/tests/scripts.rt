use bats_sampler::{key_bytes, key_word};
use bats_script::{ScriptEnd, ScriptKey, read_script, trial_file};
use bats_world::Event;
use std::alloc::Global;
use std::test::Fail;

// The first words of the zero key are those of RFC 8439, appendix A.1, first vector.
#[test]
fn the_zero_key(rt: HostRuntime) -> Result<(), Fail> {
    let key = [0; 32];
    assert_eq!(rt; key_word(&key, 0), 0xade0_b876);
    assert_eq!(rt; key_word(&key, 1), 0x903d_f1a0);
    let bytes = key_bytes(rt.alloc(), &key, 5)?;
    assert_eq!(rt; bytes.as_slice(), [0x76, 0xb8, 0xe0, 0xad, 0xa0].as_slice());
    Ok(())
}

// A trial's file begins with the words of its key.
#[test]
fn a_file_of_five_bytes(rt: HostRuntime) -> Result<(), Fail> {
    let mut key = [0; 32];
    key[7] = 7;
    key[20] = 2;
    let file = trial_file(rt.alloc(), 7, 5)?;
    assert_eq!(rt; file.len(), 5);
    let expected = key_bytes(rt.alloc(), &key, 5)?;
    assert_eq!(rt; file.as_slice(), expected.as_slice());
    Ok(())
}

const NETWORK: &str = r#"
m = 2
t = 2
table = 0
systematic = true
seed = "00000000000000000000000000000000"
file = "01020304"
relays = ["000102030405060708090a0b0c0d0e0f"]
links = [[0, 1], [1, 2]]
event = [ { send = [0, 1] }, { give = [0, 1] }, { mix = [1, 0] }, { give = [4294967295, 2] } ]
"#;

#[test]
fn a_network_of_one_relay(rt: HostRuntime) -> Result<(), Fail> {
    let script = read_script(rt.alloc(), NETWORK.as_bytes())?;
    assert_eq!(rt; script.session.m(), 2);
    assert_eq!(rt; script.session.t(), 2);
    assert_eq!(rt; script.session.length(), 4);
    assert_eq!(rt; script.session.table(), 0);
    assert!(rt; script.session.systematic());
    assert_eq!(rt; script.session.seed(), [0; 16]);
    assert_eq!(rt; script.file.as_slice(), [1, 2, 3, 4].as_slice());
    assert_eq!(rt; script.relay_seeds.len(), 1);
    assert_eq!(rt;
        script.relay_seeds.as_slice(),
        [[0, 1, 2, 3, 4, 5, 6, 7, 8, 9, 10, 11, 12, 13, 14, 15]].as_slice()
    );
    assert_eq!(rt; script.links.as_slice(), [(0, 1), (1, 2)].as_slice());
    assert_eq!(rt; script.events.len(), 4);
    assert_eq!(rt;
        script.events.as_slice(),
        [
            Event::Send {
                batch: 0,
                column: 1
            },
            Event::Give { packet: 0, node: 1 },
            Event::Mix { node: 1, batch: 0 },
            Event::Give {
                packet: 4294967295,
                node: 2
            },
        ]
        .as_slice()
    );
    Ok(())
}

fn refusal(alloc: Global, text: &[u8]) -> Option<ScriptEnd> {
    read_script(alloc, text).err()
}

// Each text has the first wrong key that is told, and the right ones before it.
#[test]
fn the_first_wrong_key_is_told(rt: HostRuntime) {
    for (text, key) in [
        ("m = ", ScriptKey::Toml),
        ("m = 33\nx = 1", ScriptKey::Unknown),
        ("", ScriptKey::M),
        ("m = 33", ScriptKey::M),
        ("m = 32", ScriptKey::T),
        ("m = 32\nt = -1", ScriptKey::T),
        ("m = 32\nt = 2048\ntable = 2", ScriptKey::Table),
        (
            "m = 32\nt = 2048\ntable = 1\nsystematic = 1",
            ScriptKey::Systematic,
        ),
        (
            "m = 32\nt = 2048\ntable = 1\nsystematic = true\nseed = \"00\"",
            ScriptKey::Seed,
        ),
    ] {
        assert_eq!(rt;
            refusal(rt.alloc(), text.as_bytes()),
            Some(ScriptEnd::Key { key })
        );
    }
    assert_eq!(rt;
        refusal(rt.alloc(), &[0xff]),
        Some(ScriptEnd::Key {
            key: ScriptKey::Toml
        })
    );
}

// The keys before these are right.
fn refusal_after(alloc: Global, rest: &str) -> Result<Option<ScriptEnd>, Fail> {
    let mut text = String::from_str(
        alloc,
        r#"m = 1
t = 1
table = 1
systematic = false
seed = "000000000000000000000000000000FF"
"#,
    )?;
    text.push_str(rest)?;
    Ok(refusal(alloc, text.as_bytes()))
}

#[test]
fn later_keys(rt: HostRuntime) -> Result<(), Fail> {
    for (text, key) in [
        ("file = \"0\"", ScriptKey::File),
        ("file = \"\"\nrelays = [\"00\"]", ScriptKey::Relays),
        ("file = \"\"\nrelays = []", ScriptKey::Links),
        (
            "file = \"\"\nrelays = []\nlinks = [[1, 1]]",
            ScriptKey::Links,
        ),
        (
            "file = \"\"\nrelays = []\nlinks = [[0, 2]]",
            ScriptKey::Links,
        ),
        (
            "file = \"\"\nrelays = []\nlinks = [[0, 1, 1]]",
            ScriptKey::Links,
        ),
        (
            "file = \"\"\nrelays = []\nlinks = []\nevent = 1",
            ScriptKey::Event,
        ),
        (
            "file = \"\"\nrelays = []\nlinks = []\n[[event]]\nsend = [0]",
            ScriptKey::Event,
        ),
        (
            "file = \"\"\nrelays = []\nlinks = []\n[[event]]\nsend = [0, 0]\nmix = [0, 0]",
            ScriptKey::Event,
        ),
        (
            "file = \"\"\nrelays = []\nlinks = []\n[[event]]\nsend = [0, 4294967296]",
            ScriptKey::Event,
        ),
    ] {
        assert_eq!(rt;
            refusal_after(rt.alloc(), text)?,
            Some(ScriptEnd::Key { key })
        );
    }
    let none = refusal_after(rt.alloc(), "file = \"\"\nrelays = []\nlinks = []\n")?;
    assert_eq!(rt; none, None);
    Ok(())
}

#[test]
fn a_file_of_4097_symbols(rt: HostRuntime) -> Result<(), Fail> {
    let mut text = String::from_str(rt.alloc(), "relays = []\nlinks = []\nfile = \"")?;
    for _ in 0..4097 {
        text.push_str("00")?;
    }
    text.push_str("\"")?;
    assert_eq!(rt;
        refusal_after(rt.alloc(), text.as_str())?,
        Some(ScriptEnd::TooLong)
    );
    Ok(())
}
