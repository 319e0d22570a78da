//! Bare reads of memory, to set searches beside.

/// What is met on a way down a tree of eight branches in each node, whose nodes lie all over the words: one read in each
/// level, which waits for the one above. Levels are at most 21.
pub fn descend(words: &[u64], levels: u32, start: u64) -> u64 {
    let mut seen = start;
    for level in 1..=levels.min(21) {
        let node = seen.wrapping_mul(0x9e37_79b9_7f4a_7c15) >> (64 - 3 * level);
        let apart = (words.len() >> (3 * level)) as u64;
        let met = words.get(node.wrapping_mul(apart) as usize).copied();
        seen ^= met.unwrap_or(0);
    }
    seen
}
