//! Every list of five calls, beside a plain list.
ghost use Rattle.std.specs.Prelude.{◌≡◌, OnOk, vec_len};
ghost use Rattle.output_index.specs.Held.{IsAbove};

use super::{forget, insert, record_of, spend, txid_of, unspend};
use output_index::Outputs;
use std::alloc::Global;
use std::process::Abort;
use std::test::Fail;

#[derive(Clone, Copy, Debug, PartialEq, Eq, Drop)]
enum State {
    Live,
    Spent,
    Gone,
}

/// An output of the plain list, whose place there is its number: which of two names it has.
#[derive(Clone, Copy, Debug, Drop)]
struct Plain {
    name: u32,
    state: State,
}

fn last_of(plain: &[Plain], name: u32) -> Option<usize> {
    plain.iter().rposition(|output| output.name == name && output.state == State::Live)
}

fn first_in(plain: &[Plain], state: State) -> Option<usize> {
    plain.iter().position(|output| output.state == state)
}

fn set_state(plain: &mut Vec<Plain>, place: usize, state: State)
    ensures { vec_len plain.new ≡ vec_len plain.old }
{
    if let Some(output) = plain.get_mut(place) {
        output.state = state;
    }
}

/// Makes a call, where its condition holds.
fn call(
    rt: &impl Abort,
    alloc: Global,
    outputs: &mut Outputs,
    plain: &mut Vec<Plain>,
    which: u32,
) -> Result<(), Fail>
    requires { IsAbove (vec_len plain.old) outputs.old }
    ensures { OnOk result (IsAbove (vec_len plain.new) outputs.new) }
{
    match which {
        0 | 1 => {
            insert(
                outputs,
                plain.len() as u64,
                record_of(alloc, txid_of(2, which), 0)?,
            )?;
            plain.push(Plain {
                name: which,
                state: State::Live,
            })?;
        }
        2 | 3 => {
            if let Some(place) = last_of(plain, which - 2) {
                spend(rt, outputs, place as u64);
                set_state(plain, place, State::Spent);
            }
        }
        4 => {
            if let Some(place) = first_in(plain, State::Spent) {
                unspend(rt, outputs, place as u64);
                set_state(plain, place, State::Live);
            }
        }
        _ => {
            if let Some(place) = first_in(plain, State::Spent) {
                forget(rt, outputs, place as u64);
                set_state(plain, place, State::Gone);
            }
        }
    }
    Ok(())
}

fn compare(rt: &impl Abort, outputs: &Outputs, plain: &[Plain]) {
    for name in 0..2 {
        let newest = last_of(plain, name).map(|place| place as u64);
        assert!(rt; outputs.newest(&txid_of(2, name), 0) == newest);
    }
    for (place, output) in plain.iter().enumerate() {
        assert!(rt; outputs.live(place as u64) == (output.state == State::Live));
        assert!(rt; outputs.output(place as u64).is_some() == (output.state != State::Gone));
    }
}

fn compare_list(rt: &impl Abort, alloc: Global, list: u32) -> Result<(), Fail> {
    let mut outputs = Outputs::new(alloc);
    let mut plain = Vec::new(alloc);
    let mut rest = list;
    for _called in 0..5 {
        call(rt, alloc, &mut outputs, &mut plain, rest % 6)?;
        compare(rt, &outputs, &plain);
        rest /= 6;
    }
    Ok(())
}

#[test]
fn short_lists(rt: HostRuntime) -> Result<(), Fail> {
    for list in 0..7_776 {
        compare_list(&rt, rt.alloc(), list)?;
    }
    Ok(())
}
