//! The hash value of SHA-512/256 behind whole blocks.

ghost use Rattle.std.specs.Prelude.{◌≡◌, ◌%◌};

/// What has been taken in of a text that goes on behind whole blocks.
#[derive(Clone, Copy)]
pub(crate) struct Midstate {
    pub state: [u64; 8],
    pub taken: usize,
    ghost whole: { taken % 128 ≡ 0 },
}
