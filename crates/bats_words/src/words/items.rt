//! The options and flags among the words that follow a command's name.
ghost use Rattle.std.specs.Prelude.{◌≡◌, map, is_some, IsTrue, string_bytes};
ghost use Rattle.bats_words.specs.WordItems.{is_among, is_value_word, items_of, read_items};
ghost use Rattle.bats_words.specs.WordLookup.{are_names, come_once_among, known_names, texts_of};
ghost use Rattle.bats_words.specs.WordLookup.{times};

/// The names that a command knows.
pub(crate) struct Names {
    /// The names of its options, each followed by a value word.
    pub options: &'static [&'static str],
    /// The names of its flags, which stand alone.
    pub flags: &'static [&'static str],
}

/// Whether the words are options with their values, and flags, none of them twice.
pub(crate) fn are_read(names: &Names, words: &[String]) -> bool
    requires { IsTrue (are_names (known_names names.now)) }
    ensures { result ≡ is_some (read_items (known_names names.now) (map string_bytes words.now)) }
{
    are_items(names, words) && come_once(names.options, words) && come_once(names.flags, words)
}

/// Whether the words are options with their values, and flags.
fn are_items(names: &Names, words: &[String]) -> bool
    ensures { result ≡ is_some (items_of (known_names names.now) (map string_bytes words.now)) }
{
    let mut left = words.iter();
    while let Some(word) = left.next() {
        if is_among(names.flags, word.as_str()) {
            continue;
        }
        let Some(value) = left.next() else {
            return false;
        };
        if !is_among(names.options, word.as_str()) || !is_value_word(value.as_str()) {
            return false;
        }
    }
    true
}

/// Whether no name stands twice among the words.
fn come_once(names: &[&str], words: &[String]) -> bool
    ensures { result ≡ come_once_among (texts_of names.now) (map string_bytes words.now) }
{
    names.iter().all(|name| times(name, words) <= 1)
}

/// How many of the words are `name`.
fn times(name: &str, words: &[String]) -> usize
    ensures { result ≡ times name.now (map string_bytes words.now) }
{
    words.iter().filter(|word| word.as_str() == name).count()
}

fn is_among(names: &[&str], word: &str) -> bool
    ensures { result ≡ is_among (texts_of names.now) word.now }
{
    names.iter().any(|name| *name == word)
}

fn is_value_word(word: &str) -> bool
    ensures { result ≡ is_value_word word.now }
{
    match word.as_bytes() {
        [] => false,
        [first, ..] => *first != b'-',
    }
}
