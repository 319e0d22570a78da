//! A text cut in two.
ghost use Rattle.std.specs.Prelude.{◌≡◌, option_map};
ghost use Rattle.relay_script.specs.Reading.{cut_at, parts_in};

/// What stands before the first byte of this kind, and what stands behind it.
pub(crate) fn cut_at(byte: u8, text: &[u8]) -> Option<(&[u8], &[u8])>
    ensures { parts_in result ≡ cut_at byte text.now }
{
    for i in 0..text.len() {
        if text[i] == byte {
            return Some((&text[..i], &text[i + 1..]));
        }
    }
    None
}
