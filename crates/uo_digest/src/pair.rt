//! The text of two digests.
ghost use Rattle.std.specs.Prelude.{◌≡◌, ◌++◌, length};

use crate::Digest;

#[inline(always)]
fn put_both(text: &mut [u8], left: &[u8], right: &[u8])
    requires room { length text.old ≡ 64 }
    requires left { length left.now ≡ 32 }
    requires right { length right.now ≡ 32 }
    ensures { text.new ≡ left.now ++ right.now }
{
    let (first, second) = text.split_at_mut(32);
    first.copy_from_slice(left);
    second.copy_from_slice(right);
}

/// The 64 bytes of the left digest and the right one: the text of an inner node.
#[inline(always)]
pub fn pair_text(left: Digest, right: Digest) -> [u8; 64]
    ensures { result ≡ left.0 ++ right.0 }
{
    let mut text = [0u8; 64];
    put_both(&mut text, &left.0, &right.0);
    text
}
