//! Names of what is measured.
use uo_digest::Digest;

/// A name for each number below 2^32. It begins as an id does, with eight bytes that are spread over all that there are.
pub fn name_of(number: u64) -> Digest {
    let bytes = number.wrapping_mul(0x9e37_79b9_7f4a_7c15).to_le_bytes();
    let mut name = [2; 32];
    name[0] = bytes[0];
    name[1] = bytes[1];
    name[2] = bytes[2];
    name[3] = bytes[3];
    name[4] = bytes[4];
    name[5] = bytes[5];
    name[6] = bytes[6];
    name[7] = bytes[7];
    Digest(name)
}
