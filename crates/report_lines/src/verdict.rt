//! Verdicts as they are printed.
ghost use Rattle.std.specs.Prelude.{Some};

use crate::hash_text::HashText;
use crate::words::{put_one, put_three, put_two};
use block_rules::{ProofRefusal, Refusal, Verdict, WitnessFault};
use std::fmt;

/// Why a proof is refused.
#[derive(Clone, Copy)]
pub(crate) struct ProofText<'a>(pub &'a ProofRefusal);

impl fmt::Display for ProofText<'_> {
    ghost use Rattle.report_lines.specs.Lines.{proof_text};

    ghost output = { λ why. Some (proof_text why.0.now) };

    fn fmt<W: fmt::Write>(&self, f: &mut fmt::Formatter<W>) -> fmt::Result {
        match self.0 {
            ProofRefusal::Outside(i) => put_one(f, "outside ", i),
            ProofRefusal::Repeated(i, j) => put_two(f, "repeated ", i, j),
            ProofRefusal::Beneath(i, j) => put_two(f, "beneath ", i, j),
            ProofRefusal::HashCount { want, got } => put_two(f, "hashes ", want, got),
            ProofRefusal::EmptyRoot { row } => put_one(f, "empty ", row),
            ProofRefusal::RootDiffers { row } => put_one(f, "root ", row),
        }
    }
}

/// What is wrong with a block's witnesses.
#[derive(Clone, Copy)]
struct WitnessText<'a>(&'a WitnessFault);

impl fmt::Display for WitnessText<'_> {
    ghost use Rattle.report_lines.specs.Lines.{witness_text};

    ghost output = { λ why. Some (witness_text why.0.now) };

    fn fmt<W: fmt::Write>(&self, f: &mut fmt::Formatter<W>) -> fmt::Result {
        match self.0 {
            WitnessFault::Form => f.write_str("form"),
            WitnessFault::Root => f.write_str("root"),
            WitnessFault::Unexpected => f.write_str("unexpected"),
        }
    }
}

/// Why a block is refused.
#[derive(Clone, Copy)]
struct RefusalText<'a>(&'a Refusal);

impl fmt::Display for RefusalText<'_> {
    ghost use Rattle.report_lines.specs.Lines.{refusal_text};

    ghost output = { λ why. Some (refusal_text why.0.now) };

    fn fmt<W: fmt::Write>(&self, f: &mut fmt::Formatter<W>) -> fmt::Result {
        match self.0 {
            Refusal::Block => f.write_str("block"),
            Refusal::Link => f.write_str("link"),
            Refusal::MerkleRoot => f.write_str("merkle root"),
            Refusal::MerkleRepeated { level, place } => {
                put_two(f, "merkle repeated ", level, place)
            }
            Refusal::Witness(why) => put_one(f, "witness ", &WitnessText(why)),
            Refusal::Weight { weight } => put_one(f, "weight ", weight),
            Refusal::Coinbase { tx } => put_one(f, "coinbase ", tx),
            Refusal::Value { tx } => put_one(f, "value ", tx),
            Refusal::Double { tx, input } => put_two(f, "double ", tx, input),
            Refusal::Full => f.write_str("full"),
            Refusal::NoProof => f.write_str("noproof"),
            Refusal::MessageForm => f.write_str("message form"),
            Refusal::MessageVersion { version } => put_one(f, "message version ", version),
            Refusal::Spends { got, want } => put_two(f, "spends ", got, want),
            Refusal::Proof(why) => put_one(f, "proof ", &ProofText(why)),
            Refusal::Missing { tx, input } => put_two(f, "missing ", tx, input),
            Refusal::Immature { tx, input } => put_two(f, "immature ", tx, input),
            Refusal::Overspend { tx } => put_one(f, "overspend ", tx),
            Refusal::Subsidy { claimed, allowed } => put_two(f, "subsidy ", claimed, allowed),
        }
    }
}

/// What a node says of an event.
#[derive(Clone, Copy)]
pub struct VerdictText<'a>(pub &'a Verdict);

impl fmt::Display for VerdictText<'_> {
    ghost use Rattle.report_lines.specs.Lines.{verdict_text};

    ghost output = { λ verdict. Some (verdict_text verdict.0.now) };

    fn fmt<W: fmt::Write>(&self, f: &mut fmt::Formatter<W>) -> fmt::Result {
        match self.0 {
            Verdict::Accepted {
                height,
                hash,
                leaves,
            } => put_three(f, "accepted ", height, &HashText(hash), leaves),
            Verdict::Refused {
                height,
                hash: Some(hash),
                why,
            } => put_three(f, "refused ", height, &HashText(hash), &RefusalText(why)),
            Verdict::Refused {
                height,
                hash: None,
                why,
            } => write!(f, "refused {height} - {}", RefusalText(why)),
            Verdict::RolledBack {
                count,
                height: Some(height),
                hash,
                leaves,
            } => write!(f, "rolledback {count} {height} {} {leaves}", HashText(hash)),
            Verdict::RolledBack {
                count,
                height: None,
                leaves,
                ..
            } => write!(f, "rolledback {count} - - {leaves}"),
            Verdict::TooDeep { asked, kept } => put_two(f, "toodeep ", asked, kept),
            Verdict::Stray => f.write_str("stray"),
        }
    }
}
