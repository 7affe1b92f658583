ghost use Rattle.std.specs.Prelude.{◌≡◌, ◌+◌, ◌*◌, ◌/◌, ◌%◌, ◌≤◌, ◌<◌, ◌^◌, IfOk, OnOk, map};
ghost use Rattle.std.specs.Int.{div_ceil};
ghost use Rattle.std.specs.List.{range_with_len};
ghost use Rattle.bats_model.specs.Key.{key_word, key_byte, seeded_key, pick};
ghost use Rattle.bats_sampler.specs.Words.{bytes_from};

use bats_model::Bytes;
use rand_chacha::ChaCha20Rng;
use rand_core::SeedableRng;
use rand_core::utils::NextWord;
use std::alloc::{AllocError, Global};
use std::marker::Model;

/// The words of a key, read one at a time in the order of their places.
#[derive(Drop)]
pub struct KeyWords {
    key: [u8; 32],
    stream: ChaCha20Rng,
}

impl Model for KeyWords {
    ghost use Rattle.bats_sampler.specs.Words.{KeyPlace};
    ghost use Rattle.rand_chacha.specs.ChaCha.{key_of};
    ghost use Rattle.std.specs.Prelude.{◌≡◌};

    ghost Value = { KeyPlace };

    ghost view = { λ w. record {
      key = w.key;
      place = w.stream.word_pos;
    } };

    ghost invariant = { λ w. (w.stream.key ≡ key_of w.key) × (w.stream.stream ≡ 0) };
}

impl KeyWords {
    /// The words of this key, from word 0 on.
    pub fn new(key: [u8; 32]) -> KeyWords
        ensures { result ≡ record {
          key = key;
          place = 0;
        } }
    {
        KeyWords {
            key,
            stream: ChaCha20Rng::from_seed(key),
        }
    }

    // The words of this key, from this place on.
    fn at(key: [u8; 32], place: u32) -> KeyWords
        ensures { result ≡ record {
          key = key;
          place = place;
        } }
    {
        let mut stream = ChaCha20Rng::from_seed(key);
        stream.set_word_pos(u128::from(place));
        KeyWords { key, stream }
    }

    /// The next word.
    pub fn next_word(&mut self) -> u32
        requires { self.old.place + 1 < 2 ^ 68 }
        ensures value { result ≡ key_word self.old.key self.old.place }
        ensures after { self.new ≡ record self.old { place = self.old.place + 1 } }
    {
        self.stream.next_word()
    }
}

/// Word `place` of a key, after ChaCha20 (RFC 8439).
pub fn key_word(key: &[u8; 32], place: u32) -> u32
    ensures { result ≡ key_word key.now place }
{
    KeyWords::at(*key, place).next_word()
}

/// The key of a seed, a number, a byte for the kind of key, and a second number.
pub fn key_from(seed: [u8; 16], first: u32, kind: u8, second: u32) -> [u8; 32]
    ensures { result ≡ seeded_key seed first kind second }
{
    let a = first.to_be_bytes();
    let b = second.to_be_bytes();
    let mut key = [
        0, 0, 0, 0, 0, 0, 0, 0, 0, 0, 0, 0, 0, 0, 0, 0, a[0], a[1], a[2], a[3], kind, b[0], b[1],
        b[2], b[3], 0, 0, 0, 0, 0, 0, 0,
    ];
    key[0..16].copy_from_slice(&seed);
    key
}

/// The number below `n` that a word picks.
pub fn pick_below(word: u32, n: u32) -> u32
    ensures { result ≡ pick word n }
{
    (u64::from(word) * u64::from(n) / (1 << 32)) as u32
}

// The byte of a word at this place below 4, the lowest first.
fn byte_of(word: u32, place: u32) -> u8
    requires { place < 4 }
    ensures { result ≡ word / 256 ^ place % 256 }
{
    match place {
        0 => (word % 256) as u8,
        1 => (word / 0x100 % 256) as u8,
        2 => (word / 0x1_0000 % 256) as u8,
        _ => (word / 0x100_0000 % 256) as u8,
    }
}

/// The next `count` bytes of the words: four bytes a word, the lowest first. The rest of the last word is passed over.
pub fn next_bytes(alloc: Global, words: &mut KeyWords, count: u32) -> Result<Vec<u8>, AllocError>
    requires { (words.old.place < 2 ^ 32) × (count ≤ 8388608) }
    ensures bytes { IfOk result (λ bytes. bytes.items ≡ bytes_from words.old.key (4 * words.old.place) count) }
    ensures after { OnOk result (words.new ≡ record words.old { place = words.old.place + div_ceil count 4 }) }
{
    let mut bytes = Vec::with_capacity(alloc, count as usize)?;
    let mut word = 0;
    for i in 0..count {
        if i % 4 == 0 {
            word = words.next_word();
        }
        bytes.push(byte_of(word, i % 4))?;
    }
    Ok(bytes)
}

/// The first `count` bytes, at most 8,388,608, of the words of a key: four bytes a word, the lowest first.
pub fn key_bytes(alloc: Global, key: &[u8; 32], count: u64) -> Result<Bytes, AllocError>
    requires { count ≤ 8388608 }
    ensures { IfOk result (λ bytes. bytes ≡ map (λ i. key_byte key.now i) (range_with_len 0 count)) }
{
    let mut words = KeyWords::new(*key);
    Ok(Bytes::from(next_bytes(alloc, &mut words, count as u32)?))
}
