//! How many lines a text has.
ghost use Rattle.std.specs.Prelude.{◌≡◌, ◌==◌, count_by};

/// How many lines are ended in it.
pub(crate) fn count_ends(text: &[u8]) -> u64
    ensures { result ≡ count_by (λ byte. byte == 10) text.now }
{
    let mut count = 0;
    for i in 0..text.len() {
        if text[i] == b'\n' {
            count += 1;
        }
    }
    count
}
