//! Which of many texts go side by side: those of which as many blocks are made.

ghost use Rattle.std.specs.Prelude.{◌≡◌, ℕ, ◌+◌, ◌-◌, ◌*◌, ◌≤◌, ◌<◌, ◌↔◌, length, max, min, None, IfSome, IfNone, IsTrue};
ghost use Rattle.digest_lanes.specs.Groups.{AreOf, HasAll, HasLength, IsNextOf, NoneHas, block_lengths};
ghost use Rattle.digest_lanes.specs.Texts.{text_at};

/// The lengths from `low` on, and below `high` where there is one.
#[derive(Clone, Copy)]
pub(crate) struct Lengths {
    pub low: usize,
    pub high: Option<usize>,
}

pub(crate) fn has_length(text: &[u8], lengths: Lengths) -> bool
    ensures { IsTrue result ↔ HasLength lengths text.now }
{
    let low = lengths.low <= text.len();
    match lengths.high {
        None => low,
        Some(high) => low && text.len() < high,
    }
}

/// Of how many blocks texts are made: at least, and at most.
#[derive(Clone, Copy)]
pub(crate) struct Blocks {
    pub least: usize,
    pub most: usize,
}

impl Blocks {
    /// The same with one text more, which is made of so many.
    #[inline]
    pub(crate) fn with(self, blocks: usize) -> Blocks
        ensures least { result.least ≡ min self.least blocks }
        ensures most { result.most ≡ max self.most blocks }
    {
        Blocks {
            least: self.least.min(blocks),
            most: self.most.max(blocks),
        }
    }
}

/// The lengths of the texts of which so many blocks of `size` bytes are made, where the padding has `count` bytes of length.
pub(crate) fn lengths_of(size: usize, count: usize, blocks: usize) -> Lengths
    requires small { size + count ≤ 2048 }
    requires few { size * blocks ≤ 2048 }
    requires count { count ≤ size * blocks }
    ensures { result ≡ block_lengths size count blocks }
{
    Lengths {
        low: (size * blocks).saturating_sub(size + count),
        high: Some(size * blocks - count),
    }
}

/// The lengths of the texts of which more than 16 blocks are made.
pub(crate) fn long_lengths(size: usize, count: usize) -> Lengths
    requires small { size ≤ 128 }
    requires count { count ≤ size }
    ensures low { result.low ≡ size * 16 - count }
    ensures high { result.high ≡ None }
{
    Lengths {
        low: size * 16 - count,
        high: None,
    }
}

// Of how many blocks a text is made; 17 stands for more than 16.
fn blocks_in(text: &[u8], size: usize, count: usize) -> usize
    requires sized { 1 ≤ size }
    requires small { size ≤ 128 }
    requires count { count ≤ size }
    ensures some { 1 ≤ result }
    ensures from { size * result ≤ length text.now + (size + count) }
    ensures upto { result < 17 → length text.now + count < size * result }
{
    if text.len() < size * 16 - count {
        (text.len() + count) / size + 1
    } else {
        17
    }
}

/// The same of some texts: of how many blocks of `size` bytes each is made, where the padding has `count` bytes of length.
pub(crate) fn blocks_of(texts: &[&[u8]], size: usize, count: usize) -> Blocks
    requires sized { 1 ≤ size }
    requires small { size ≤ 128 }
    requires count { count ≤ size }
    ensures from { (i : ℕ) → i < length texts.now → size * result.least ≤ length (text_at texts.now i) + (size + count) }
    ensures upto { (i : ℕ) → i < length texts.now → result.most < 17 → length (text_at texts.now i) + count < size * result.most }
    ensures some { 1 ≤ result.least }
{
    let mut blocks = Blocks { least: 17, most: 0 };
    for i in 0..texts.len() {
        blocks = blocks.with(blocks_in(texts[i], size, count));
    }
    blocks
}

/// The first text from an index on that has such a length.
pub(crate) fn next_of(texts: &[&[u8]], lengths: Lengths, from: usize) -> Option<usize>
    ensures some { IfSome result (IsNextOf lengths texts.now from) }
    ensures none { IfNone result (NoneHas lengths texts.now from) }
{
    for i in from..texts.len() {
        if has_length(texts[i], lengths) {
            return Some(i);
        }
    }
    None
}

/// Fills a group with the indices of the next texts from an index on that have such a length; and the index behind the last of
/// them. `None` where there are not so many.
pub(crate) fn next_group(
    texts: &[&[u8]],
    lengths: Lengths,
    from: usize,
    group: &mut [usize],
) -> Option<usize>
    ensures of { IfSome result (λ end. AreOf lengths texts.now group.new) }
    ensures all { IfSome result (λ end. HasAll lengths texts.now from end group.new) }
    ensures far { IfSome result (λ end. (from + length group.new ≤ end) × (end ≤ max from (length texts.now))) }
{
    let mut end = from;
    for k in 0..group.len() {
        let i = next_of(texts, lengths, end)?;
        group[k] = i;
        end = i + 1;
    }
    Some(end)
}
