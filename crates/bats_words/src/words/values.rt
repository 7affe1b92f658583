//! The kinds of values: numbers in a range, and seeds.
ghost use Rattle.std.specs.Prelude.{◌≡◌, ◌≤◌, IfSome};
ghost use Rattle.bats_words.specs.WordValues.{number_in, rule_of, seed_of, is_number_word};

use hex::FromHex;

/// The number that a word of 1 to 20 decimal digits is, if it is from `low` to `high`.
pub(crate) fn number_in(word: &str, low: u64, high: u64) -> Option<u64>
    ensures value { result ≡ number_in low high word.now }
    ensures within { IfSome result (λ n. n ≤ high) }
{
    if !is_number_word(word) {
        return None;
    }
    let number = word.parse::<u64>().ok()?;
    (low <= number && number <= high).then_some(number)
}

/// The 16 bytes that a word of 32 hexadecimal digits of either case is.
pub(crate) fn seed_of(word: &str) -> Option<[u8; 16]>
    ensures { result ≡ seed_of word.now }
{
    <[u8; 16] as FromHex>::from_hex(word).ok()
}

/// Whether the word of a rule is `extra`; else it is `fixed`.
#[tactic(auto, unfolding(crate::specs::WordValues::rule_of))]
pub(crate) fn rule_of(word: &str) -> Option<bool>
    ensures { result ≡ rule_of word.now }
{
    match word {
        "extra" => Some(true),
        "fixed" => Some(false),
        _ => None,
    }
}

fn is_number_word(word: &str) -> bool
    ensures { result ≡ is_number_word word.now }
{
    if word.is_empty() || word.len() > 20 {
        return false;
    }
    word.as_bytes().iter().all(|byte| byte.is_ascii_digit())
}
