//! What the external inputs of a block spend.
ghost use Rattle.std.specs.Prelude.{◌≡◌, ℕ, ◌++◌, ◌∷◌, [], None, Some, map, IfOk, OnOk, IfErr, IsSome};
ghost use Rattle.std.specs.List.{AllByRecursion};
ghost use Rattle.block_rules.specs.Money.{found_of};
ghost use Rattle.node_rules.specs.Messages.{point_of};
ghost use Rattle.output_index.specs.Held.{leaf_at};
ghost use Rattle.bridge_prover.specs.Own.{first_missing, newest_in, leaves_in};
ghost use Rattle.node_rules.specs.Judged.{IsFirst};

use block_rules::{Found, Outside, Refusal, RuleFault};
use leaf_record::RecordView;
use output_index::{OutputName, Outputs};
use proof_wire::Rests;
use std::alloc::{AllocError, Global};
use uo_base::NoMemory;

// The outpoint of each external input.
fn names_of(alloc: Global, external: &[Outside]) -> Result<Vec<OutputName>, AllocError>
    ensures { IfOk result (λ names. names.items ≡ map point_of external.now) }
{
    let mut names = Vec::with_capacity(alloc, external.len())?;
    for at in external {
        names.push(OutputName {
            txid: at.txid,
            index: at.index,
        })?;
    }
    Ok(names)
}

// The newest live entry of each external input's outpoint, or the first input of which there is none.
pub(crate) fn numbers_of(
    alloc: Global,
    outputs: &Outputs,
    external: &[Outside],
) -> Result<Vec<u64>, RuleFault>
    ensures ok { IfOk result (λ numbers. map Some numbers.items ≡ newest_in outputs.now external.now) }
    ensures passes { OnOk result (first_missing outputs.now external.now ≡ None) }
    ensures err { IfErr result (λ fault. IsFirst (first_missing outputs.now external.now) fault) }
{
    let names = names_of(alloc, external)?;
    let newest = outputs.newest_of_all(alloc, &names)?;
    let mut numbers = Vec::with_capacity(alloc, external.len())?;
    for i in 0..external.len() {
        let Some(number) = newest[i] else {
            let at = external[i];
            return Err(RuleFault::Refused(Refusal::Missing {
                tx: at.tx,
                input: at.input,
            }));
        };
        numbers.push(number)?;
    }
    Ok(numbers)
}

// What the rules on money ask of an output.
fn found_in(leaf: &RecordView<'_>) -> Found
    ensures { result ≡ found_of leaf.now.rest }
{
    Found {
        amount: leaf.amount,
        height: leaf.height,
        coinbase: leaf.coinbase,
    }
}

/// What the external inputs of a block spend: the numbers of the entries, what the rules on money ask of each, and the rest of each.
#[derive(Drop)]
pub(crate) struct Spent {
    pub(crate) numbers: Vec<u64>,
    pub(crate) found: Vec<Found>,
    pub(crate) rests: Rests,
}

fn put_found(
    found: &mut Vec<Found>,
    rests: &mut Rests,
    outputs: &Outputs,
    number: u64,
) -> Result<(), NoMemory>
    ensures found { OnOk result (found.new.items ≡ found.old.items ++ map (λ leaf. found_of leaf.rest) (leaves_in outputs.now (number ∷ []))) }
    ensures rests { OnOk result (rests.new ≡ rests.old ++ map (λ leaf. leaf.rest) (leaves_in outputs.now (number ∷ []))) }
{
    match outputs.output(number) {
        Some(leaf) => {
            found.push(found_in(&leaf))?;
            rests.push(&leaf.rest())?;
        }
        None => {}
    }
    Ok(())
}

// What these entries are. Each record is read once, for the rules and for the message, since later it would have to be waited for again.
pub(crate) fn found_by(
    alloc: Global,
    outputs: &Outputs,
    numbers: Vec<u64>,
) -> Result<Spent, NoMemory>
    ensures numbers { IfOk result (λ spent. spent.numbers ≡ numbers) }
    ensures found { IfOk result (λ spent. spent.found.items ≡ map (λ leaf. found_of leaf.rest) (leaves_in outputs.now numbers.items)) }
    ensures rests { IfOk result (λ spent. spent.rests ≡ map (λ leaf. leaf.rest) (leaves_in outputs.now numbers.items)) }
{
    let mut found = Vec::with_capacity(alloc, numbers.len())?;
    let mut rests = Rests::with_room(alloc, numbers.len())?;
    for number in &numbers {
        put_found(&mut found, &mut rests, outputs, *number)?;
    }
    Ok(Spent {
        numbers,
        found,
        rests,
    })
}
