//! Proofs that the roots accept, and that are not right: at the first output's place they show one that was never made. Texts and digests are those
//! of a program in Python that was written from their description.

use super::{PLAIN, Row, check_rows};
use feed_run::Status;
use std::test::Fail;

/// Three blocks, of which the last two add an output each.
const ZERO: &str =
    "f9beb4d9920000000100000000000000000000000000000000000000000000000000000000000000000000005b2aaaebfd30c7a2b4f23b7e024fd0cf1be01e56\
    fc46b39358a8b724b8ed81e60000000000000000000000000101000000010000000000000000000000000000000000000000000000000000000000000000ffff\
    ffff0400000000ffffffff0100f2052a01000000015100000000";

const ONE: &str =
    "f9beb4d992000000010000005d1f208cb770b9cea3ac6509bad966689e74a97c51435bb9ede640cabbf6f3332a7d6a5ce258e9692bb459c6409fee2bdd16bd4c\
    37f1ff1ac242d3591d03764f0000000000000000000000000101000000010000000000000000000000000000000000000000000000000000000000000000ffff\
    ffff0401000000ffffffff0100f2052a01000000015100000000";

const TWO: &str =
    "f9beb4d99200000001000000a9ebbd3795610d483af663a66e5cc73440fe1a8e9aaf1d5902b99563a3a045b64b4eacdfc6d16a919f48681788a3156c46f9a445\
    c1bc3a898f9cb9b672a5e6130000000000000000000000000101000000010000000000000000000000000000000000000000000000000000000000000000ffff\
    ffff0402000000ffffffff0100f2052a01000000015100000000";

/// The heads of the frames of a message with a hash and of one without, before their version and kind.
const HEAD: &str = "555458505a000000";

const BARE_HEAD: &str = "555458503a000000";

/// One spend of the first output's place, whose number is 0 in both versions, and what it shows there.
const CLAIM: &str =
    "01000000000000000005050505050505050505050505050505050505050505050505050505050505050200000007000000000000000151";

/// Another one, whose leaf text has the digest of the first output's.
const SAME_LEAF: &str =
    "0100000000000000008a9fde627f30ed281fb9364326ca201694e1aecba457eb4ac9f24f33b7aa3af00200000007000000000000000151";

/// The hash that makes up for the claim, so that both come to the root.
const FITTING: &str = "0100d51ddccba37e43bac36fcebca23581ecbc56ee5ed911e8c731cf8c1f2a1564";

/// One that does not.
const OTHER: &str = "010cd911d0c5af724fb1cf63c2b0ae398de1e15ae252d51de4cb3dc38013261968";

/// The digest of the second leaf.
const SECOND: &str = "018f4fc6bbb196966ea07f5c889f6d10927d58fd20ff8bffa70bc685baad852a91";

/// A block that spends that output.
const BLOCK: &str =
    "f9beb4d9cf00000001000000c4016a647247fcff3fc531b516ce05fe3af059653e37c52e845a3c0cdf20cc8290f190af753cc54ae74713fc4ee770756a19a7c7\
    85ce6fbfbf9b2596a2ec57640000000000000000000000000201000000010000000000000000000000000000000000000000000000000000000000000000ffff\
    ffff0403000000ffffffff0100f2052a010000000151000000000100000001090909090909090909090909090909090909090909090909090909090909090900\
    00000000ffffffff010100000000000000015100000000";

const LINES: &str =
    "accepted 0 33f3f6bbca40e6edb95b43517ca9749e6866d9ba0965aca3ceb970b78c201f5d 0\n\
    accepted 1 b645a0a36395b902591daf9a8e1afe4034c75c6ea663f63a480d619537bdeba9 1\n\
    accepted 2 82cc20df0c3c5a842ec5373e6559f03afe05ce16b531c53ffffc4772646a01c4 2\n";

/// The digests of both leaves, and those of the claim and the hash.
const PAIRS: &str =
    "first 8396d76b7439e42111b03f4a2fc3291f9cb9a7c2ad5ee243c0fb463abea333f98f4fc6bbb196966ea07f5c889f6d10927d58fd20ff8bffa70bc685baad852a91\n\
    second 0c0c0c0c0e0c0c0c0b0c0c0c0c0c0c0c0d5d0c0c0c0c0c0c0c0c0c0c0c0c0c0c00d51ddccba37e43bac36fcebca23581ecbc56ee5ed911e8c731cf8c1f2a1564\n\
    digest 0cd911d0c5af724fb1cf63c2b0ae398de1e15ae252d51de4cb3dc38013261968\n";

/// The leaf texts of the first output and of the other claim.
const LEAVES: &str =
    "first 5b832db8ca26c25be1c542d6cceddda8c145615cff5c35727fb3462610807e20ae534dc3f64299199931772e03787d18156eb3151e0ed1b3098bdc8445\
    8618855b832db8ca26c25be1c542d6cceddda8c145615cff5c35727fb3462610807e20ae534dc3f64299199931772e03787d18156eb3151e0ed1b3098bdc8445\
    861885a9ebbd3795610d483af663a66e5cc73440fe1a8e9aaf1d5902b99563a3a045b62a7d6a5ce258e9692bb459c6409fee2bdd16bd4c37f1ff1ac242d3591d\
    03764f000000000300000000f2052a010000000151\n\
    second 5b832db8ca26c25be1c542d6cceddda8c145615cff5c35727fb3462610807e20ae534dc3f64299199931772e03787d18156eb3151e0ed1b3098bdc844\
    58618855b832db8ca26c25be1c542d6cceddda8c145615cff5c35727fb3462610807e20ae534dc3f64299199931772e03787d18156eb3151e0ed1b3098bdc844\
    58618858a9fde627f30ed281fb9364326ca201694e1aecba457eb4ac9f24f33b7aa3af0090909090909090909090909090909090909090909090909090909090\
    9090909000000000200000007000000000000000151\n\
    digest 8396d76b7439e42111b03f4a2fc3291f9cb9a7c2ad5ee243c0fb463abea333f9\n";

const REFUSED: &str =
    "refused 3 5ae3840fc06de4e50aebdc17260b65571e1cb603f151e805a1d4fe5daea3f23a proof root 1\n\
    supply 10000000000 issued 15000000000\n\
    end 4 2 82cc20df0c3c5a842ec5373e6559f03afe05ce16b531c53ffffc4772646a01c4 2\n";

/// An audit in which what comes is forged.
const FORGED: Row = Row {
    words: &["audit", "--watch", "w"],
    feed: &[],
    prior: "",
    list: "",
    setup: PLAIN,
    status: Status::Clash,
    report: &[LINES, "clash 3\n", PAIRS],
    out: &[],
};

const AUDITS: [Row; 6] = [
    Row {
        feed: &[ZERO, ONE, TWO, HEAD, "0200", CLAIM, FITTING, BLOCK],
        ..FORGED
    },
    // what comes behind it is not read
    Row {
        feed: &[
            ZERO, ONE, TWO, HEAD, "0100", CLAIM, FITTING, BLOCK, BLOCK, "ff",
        ],
        list: "51",
        ..FORGED
    },
    Row {
        feed: &[ZERO, ONE, TWO, HEAD, "0200", CLAIM, OTHER, BLOCK],
        list: "51",
        status: Status::SomeRefused,
        report: &[LINES, REFUSED],
        ..FORGED
    },
    // a lean message, where nothing is known
    Row {
        feed: &[ZERO, ONE, TWO, HEAD, "0201", CLAIM, FITTING, BLOCK],
        ..FORGED
    },
    // both texts are at the output's own place
    Row {
        feed: &[ZERO, ONE, TWO, HEAD, "0200", SAME_LEAF, SECOND, BLOCK],
        list: "51",
        report: &[LINES, "clash 3\n", LEAVES],
        ..FORGED
    },
    // both leaves are watched, so that their digests are known
    Row {
        feed: &[ZERO, ONE, TWO, BARE_HEAD, "0201", SAME_LEAF, "00", BLOCK],
        list: "51",
        report: &[LINES, "clash 3\n", LEAVES],
        ..FORGED
    },
];

/// A ticket behind the three blocks that shows the same claim.
const TICKETS: [Row; 1] = [Row {
    words: &["recheck", "--from", "t", "--watch", "w"],
    feed: &[ZERO, ONE, TWO],
    prior: "5554585401c4016a647247fcff3fc531b516ce05fe3af059653e37c52e845a3c0cdf20cc82000000000000000009090909090909090909090909090909090909\
        09090909090909090909090909000000000505050505050505050505050505050505050505050505050505050505050505020000000700000000000000015101\
        00d51ddccba37e43bac36fcebca23581ecbc56ee5ed911e8c731cf8c1f2a1564",
    list: "51",
    report: &["clash ticket\n", PAIRS],
    ..FORGED
}];

#[test]
fn clashes(rt: HostRuntime) -> Result<(), Fail> {
    check_rows(&rt, rt.alloc(), &AUDITS)?;
    check_rows(&rt, rt.alloc(), &TICKETS)
}
