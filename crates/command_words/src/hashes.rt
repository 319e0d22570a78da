//! Hashes among the words.
ghost use Rattle.std.specs.Prelude.{◌≡◌};
ghost use Rattle.std.specs.List.{list_all};
ghost use Rattle.command_words.specs.Hashes.{is_hash_word, is_lower_digit};

/// Whether a word is a block hash as it is printed: 64 hexadecimal digits, of which those beyond 9 are lower case letters.
pub fn is_hash_word(word: &[u8]) -> bool
    ensures { result ≡ is_hash_word word.now }
{
    word.len() == 64 && are_lower_digits(word)
}

fn are_lower_digits(word: &[u8]) -> bool
    ensures { result ≡ list_all is_lower_digit word.now }
{
    word.iter().all(|code| is_lower_digit(*code))
}

fn is_lower_digit(code: u8) -> bool
    ensures { result ≡ is_lower_digit code }
{
    (b'0' <= code && code <= b'9') || (b'a' <= code && code <= b'f')
}
