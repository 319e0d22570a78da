//! Published transactions: signed ones of BIP 143's examples.

/// The two ids of a transaction as they are printed, and its length without marker, flag and stacks.
#[derive(Drop)]
pub(super) struct Ids {
    pub(super) txid: &'static [u8; 64],
    pub(super) wtxid: &'static [u8; 64],
    pub(super) stripped_len: u64,
}

/// A transaction, and what is published of it.
#[derive(Drop)]
pub(super) struct Published {
    pub(super) text: &'static str,
    pub(super) ids: Ids,
}

pub(super) const PUBLISHED: [Published; 3] = [
    // BIP 143, native P2WPKH: two inputs, of which the second has a witness.
    Published {
        text: "01000000000102fff7f7881a8099afa6940d42d1e7f6362bec38171ea3edf433541db4e4ad969f0000000049483045022100\
            8b9d1dc26ba6a9cb62127b02742fa9d754cd3bebf337f7a55d114c8e5cdd30be022040529b194ba3f9281a99f2b1c0a19c04\
            89bc22ede944ccf4ecbab4cc618ef3ed01eeffffffef51e1b804cc89d182d279655c3aa89e815b1b309fe287d9b2b55d57b9\
            0ec68a0100000000ffffffff02202cb206000000001976a9148280b37df378db99f66f85c95a783a76ac7a6d5988ac909351\
            0d000000001976a9143bde42dbee7e4dbe6a21b2d50ce2f0167faa815988ac000247304402203609e17b84f6a7d30c80bfa6\
            10b5b4542f32a8a0d5447a12fb1366d7f01cc44a0220573a954c4518331561406f90300e8f3358f51928d43c212a8caed02d\
            e67eebee0121025476c2e83188368da1ff3e292e7acafcdb3566bb0ad253f62fc70f07aeee635711000000",
        ids: Ids {
            txid: b"e8151a2af31c368a35053ddd4bdb285a8595c769a3ad83e0fa02314a602d4609",
            wtxid: b"c36c38370907df2324d9ce9d149d191192f338b37665a82e78e76a12c909b762",
            stripped_len: 233,
        },
    },
    // BIP 143, P2SH-P2WPKH: one input with a witness and a script.
    Published {
        text: "01000000000101db6b1b20aa0fd7b23880be2ecbd4a98130974cf4748fb66092ac4d3ceb1a54770100000017160014790919\
            72186c449eb1ded22b78e40d009bdf0089feffffff02b8b4eb0b000000001976a914a457b684d7f0d539a46a45bbc043f35b\
            59d0d96388ac0008af2f000000001976a914fd270b1ee6abcaea97fea7ad0402e8bd8ad6d77c88ac02473044022047ac8e87\
            8352d3ebbde1c94ce3a10d057c24175747116f8288e5d794d12d482f0220217f36a485cae903c713331d877c1f64677e3622\
            ad4010726870540656fe9dcb012103ad1d8e89212f0b92c74d23bb710c00662ad1470198ac48c43f7d6f93a2a26873920400\
            00",
        ids: Ids {
            txid: b"ef48d9d0f595052e0f8cdcf825f7a5e50b6a388a81f206f3f4846e5ecd7a0c23",
            wtxid: b"680f483b2bf6c5dcbf111e69e885ba248a41a5e92070cfb0afec3cfc49a9fabb",
            stripped_len: 142,
        },
    },
    // BIP 143, native P2WSH: two inputs, and three witness items.
    Published {
        text: "01000000000102fe3dc9208094f3ffd12645477b3dc56f60ec4fa8e6f5d67c565d1c6b9216b36e000000004847304402200a\
            f4e47c9b9629dbecc21f73af989bdaa911f7e6f6c2e9394588a3aa68f81e9902204f3fcf6ade7e5abb1295b6774c8e0abd94\
            ae62217367096bc02ee5e435b67da201ffffffff0815cf020f013ed6cf91d29f4202e8a58726b1ac6c79da47c23d1bee0a69\
            25f80000000000ffffffff0100f2052a010000001976a914a30741f8145e5acadf23f751864167f32e0963f788ac00034730\
            4402200de66acf4527789bfda55fc5459e214fa6083f936b430a762c629656216805ac0220396f550692cd347171cbc1ef1f\
            51e15282e837bb2b30860dc77c8f78bc8501e503473044022027dc95ad6b740fe5129e7e62a75dd00f291a2aeb1200b84b09\
            d9e3789406b6c002201a9ecd315dd6a0e632ab20bbb98948bc0c6fb204f2c286963bb48517a7058e27034721026dccc749ad\
            c2a9d0d89497ac511f760f45c47dc5ed9cf352a58ac706453880aeadab210255a9626aebf5e29c0e6538428ba0d1dcf6ca98\
            ffdf086aa8ced5e0d0215ea465ac00000000",
        ids: Ids {
            txid: b"570e3730deeea7bd8bc92c836ccdeb4dd4556f2c33f2a1f7b889a4cb4e48d3ab",
            wtxid: b"dbff04c7044a569f179c843e929449f6a24be183e42c66be9032f1c9eaaf5811",
            stripped_len: 198,
        },
    },
];

/// The coinbase of the first block.
pub(super) const FIRST_COINBASE: Ids = Ids {
    txid: b"4a5e1e4baab89f3a32518a88c31bc87f618f76673e2cc77ab2127b7afdeda33b",
    wtxid: b"4a5e1e4baab89f3a32518a88c31bc87f618f76673e2cc77ab2127b7afdeda33b",
    stripped_len: 204,
};
