//! Why a block is refused.

/// Why a proof is refused.
#[derive(Clone, Copy, Debug, PartialEq, Eq)]
pub enum ProofRefusal {
    /// The target with this index, from 0, is no place of the forest.
    Outside(u32),
    /// This target is the same as that earlier one.
    Repeated(u32, u32),
    /// This target stands beneath that earlier one, or above it.
    Beneath(u32, u32),
    /// The proof gives another number of hashes than its targets need.
    HashCount { want: u64, got: u64 },
    /// The tree with its root in this row has no live entry.
    EmptyRoot { row: u8 },
    /// The targets and hashes come to another root in this row.
    RootDiffers { row: u8 },
}

/// Why what a block says of its witnesses does not hold (BIP 141).
#[derive(Clone, Copy, Debug, PartialEq, Eq)]
pub enum WitnessFault {
    /// The coinbase commits to witnesses, and its own witness is not exactly one item of 32 bytes.
    Form,
    /// The commitment is not the hash of the root over the ids with witnesses and of that item.
    Root,
    /// The coinbase does not commit to witnesses, and a transaction has some.
    Unexpected,
}

/// Why a block is refused: the first rule that it breaks. Transactions are numbered from 0, the coinbase, and so are the
/// inputs of each.
#[derive(Clone, Copy, Debug, PartialEq, Eq)]
pub enum Refusal {
    /// The bytes are no block.
    Block,
    /// The block does not extend the tip.
    Link,
    /// The header's merkle root is not that of the transactions.
    MerkleRoot,
    /// Two hashes at different places of a level of the merkle tree are paired and equal.
    MerkleRepeated {
        /// The level, from 0 for the ids.
        level: u8,
        /// The place of the left one.
        place: u32,
    },
    /// The coinbase does not commit to the block's witnesses as it has to from the network's witness height on (BIP 141).
    Witness(WitnessFault),
    /// The block weighs more than 4,000,000 (BIP 141).
    Weight {
        weight: u64,
    },
    /// The first transaction is no coinbase (one input, of 32 zero bytes and index 4,294,967,295, with a script of 2 to
    /// 100 bytes), or a later one has an input of that outpoint.
    Coinbase {
        tx: u32,
    },
    /// An output, or the sum of the outputs, is above 2,100,000,000,000,000 satoshi.
    Value {
        tx: u32,
    },
    /// An input has the outpoint of an earlier input of the block.
    Double {
        tx: u32,
        input: u32,
    },
    /// There is no room for the entries that the block adds, or no height after 2^31 - 1.
    Full,
    /// The block spends from outside, and no proof stands beside it.
    NoProof,
    /// What stands beside the block is no proof message.
    MessageForm,
    /// The proof message has another version than 1 and 2.
    MessageVersion {
        version: u8,
    },
    /// The proof message shows another number of outputs than the block spends from outside.
    Spends {
        got: u64,
        want: u64,
    },
    /// The proof does not hold.
    Proof(ProofRefusal),
    /// An input from outside names no live output.
    Missing {
        tx: u32,
        input: u32,
    },
    /// An input spends an output of a coinbase that is less than 100 blocks below.
    Immature {
        tx: u32,
        input: u32,
    },
    /// The inputs come to less than the outputs, or to more than 2,100,000,000,000,000 satoshi.
    Overspend {
        tx: u32,
    },
    /// The coinbase claims more than the subsidy and all fees.
    Subsidy {
        /// The sum of its outputs, in satoshi.
        claimed: u64,
        /// The subsidy and the fees, in satoshi.
        allowed: u128,
    },
}
