//! One line of a script.
ghost use Rattle.std.specs.Prelude.{◌≡◌, ◌≤◌, IfSome};
ghost use Rattle.command_words.specs.Numbers.{number_in};
ghost use Rattle.relay_script.specs.Reading.{line_in, act_in, delivery_in};

use crate::cut::cut_at;
use command_words;
use std::str;

/// A line of a script.
#[derive(Clone, Copy, Debug, PartialEq, Eq)]
pub enum ScriptLine {
    /// The bridge takes the next event of its feed.
    Bridge,
    /// A follower asks for what comes next.
    Ask {
        /// The number of the follower, from 0 on.
        follower: u32,
    },
    /// The bridge replies to an ask.
    Serve {
        /// The number of the ask, from 0 on.
        ask: u64,
    },
    /// A follower gets a reply.
    Deliver {
        /// The number of the follower, from 0 on.
        follower: u32,
        /// The number of the reply, from 0 on.
        reply: u64,
    },
}

// The number of at most `most` whose decimal digits these are.
fn number_of(most: u64, digits: &[u8]) -> Option<u64>
    ensures is { result ≡ number_in most digits.now }
    ensures few { IfSome result (λ number. number ≤ most) }
{
    match str::from_utf8(digits) {
        Ok(word) => command_words::number_in(most, word),
        Err(_) => None,
    }
}

fn delivery_in(words: &[u8]) -> Option<ScriptLine>
    ensures { result ≡ delivery_in words.now }
{
    let (follower, reply) = cut_at(b' ', words)?;
    let follower = number_of(u32::MAX as u64, follower)?;
    let reply = number_of(u64::MAX, reply)?;
    Some(ScriptLine::Deliver {
        follower: follower as u32,
        reply,
    })
}

fn act_in(name: &[u8], words: &[u8]) -> Option<ScriptLine>
    ensures { result ≡ act_in name.now words.now }
{
    if name == b"ask".as_slice() {
        let follower = number_of(u32::MAX as u64, words)?;
        Some(ScriptLine::Ask {
            follower: follower as u32,
        })
    } else if name == b"serve".as_slice() {
        let ask = number_of(u64::MAX, words)?;
        Some(ScriptLine::Serve { ask })
    } else if name == b"deliver".as_slice() {
        delivery_in(words)
    } else {
        None
    }
}

/// The line that a text spells, without the byte that ends it.
pub(crate) fn line_in(text: &[u8]) -> Option<ScriptLine>
    ensures { result ≡ line_in text.now }
{
    if text == b"bridge".as_slice() {
        return Some(ScriptLine::Bridge);
    }
    let (name, words) = cut_at(b' ', text)?;
    act_in(name, words)
}
