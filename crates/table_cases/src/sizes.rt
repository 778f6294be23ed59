//! Files of many records, up to the header's limits.

use crate::case::Refused::*;
use crate::case::{Verdict, check_load};
use std::alloc::{AllocError, Global};
use std::ops::Range;
use std::test::Fail;

/// The numbers of states, actions and entries. The actions are spread evenly over the states, and the entries over the actions.
#[derive(Clone, Copy, Debug)]
struct Shape(u16, u16, u16);

const CASES: [(Shape, Verdict); 17] = [
    (Shape(1, 0, 0), Ok(())),
    (Shape(1_024, 0, 0), Ok(())),
    (Shape(1_025, 0, 0), Err(File(3, 0, 5))),
    (Shape(1, 1, 0), Err(Record(6, 0, 31))),
    (Shape(1, 1, 1), Ok(())),
    (Shape(1, 1, 8), Ok(())),
    (Shape(1, 1, 9), Err(Record(6, 0, 31))),
    (Shape(1, 16, 16), Ok(())),
    (Shape(1, 17, 17), Err(Record(5, 0, 24))),
    (Shape(128, 2_048, 2_048), Ok(())),
    (Shape(129, 2_049, 2_049), Err(File(3, 0, 9))),
    (Shape(127, 2_033, 2_033), Err(Record(5, 126, 1_032))),
    (Shape(47, 750, 6_000), Ok(())),
    (Shape(47, 751, 6_001), Err(File(3, 0, 11))),
    (Shape(47, 749, 6_000), Err(Record(6, 93, 1_050))),
    (Shape(1_024, 2_048, 6_000), Ok(())),
    (Shape(1_024, 2_048, 6_001), Err(File(3, 0, 11))),
];

/// How many records belong to the owners before `i`.
fn before(i: u16, owners: u16, records: u16) -> u16 {
    let product = u32::from(i) * u32::from(records);
    let quotient = product.checked_div(u32::from(owners)).unwrap_or(0);
    u16::try_from(quotient).unwrap_or(u16::MAX)
}

/// The records that belong to the owner `i`.
fn share_of(i: u16, owners: u16, records: u16) -> Range<u16> {
    before(i, owners, records)..before(i.saturating_add(1), owners, records)
}

fn count(share: &Range<u16>) -> u8 {
    u8::try_from(share.len()).unwrap_or(u8::MAX)
}

fn push_numbers(bytes: &mut Vec<u8>, numbers: &[u16]) -> Result<(), AllocError> {
    for number in numbers {
        bytes.extend_from_slice(&number.to_be_bytes())?;
    }
    Ok(())
}

/// A record that has a share of the next section: its own fields, the first of the share, and how many.
fn push_owner(bytes: &mut Vec<u8>, own: &[u8], share: &Range<u16>) -> Result<(), AllocError> {
    bytes.extend_from_slice(own)?;
    bytes.extend_from_slice(&share.start.to_be_bytes())?;
    bytes.push(count(share))?;
    Ok(())
}

/// A file of the shape, with the price 1. It starts at the last state, and each entry leads there. A state with no actions
/// is an ending. Each entry has the weight 100, but for the first of an action, which has the rest.
fn file_of(heap: Global, Shape(states, actions, entries): Shape) -> Result<Vec<u8>, AllocError> {
    let last = states.wrapping_sub(1);
    let mut bytes = b"RCM\x00\x01".to_vec(heap)?;
    push_numbers(&mut bytes, &[states, last, actions, entries])?;
    bytes.extend_from_slice(&[0, 0, 0, 1])?;
    for s in 0..states {
        let share = share_of(s, states, actions);
        let kind = u8::from(share.is_empty());
        push_owner(&mut bytes, &[kind, 0, 0, 0, 0], &share)?;
    }
    for a in 0..actions {
        push_owner(&mut bytes, &[0, 0, 0, 1], &share_of(a, actions, entries))?;
    }
    for a in 0..actions {
        let share = share_of(a, actions, entries);
        let mut weight = 1_100u16.saturating_sub(100 * u16::from(count(&share)));
        for _ in share {
            push_numbers(&mut bytes, &[last, weight])?;
            weight = 100;
        }
    }
    Ok(bytes)
}

#[test]
fn sizes_up_to_the_limits(rt: HostRuntime) -> Result<(), Fail> {
    for (shape, expected) in CASES {
        let bytes = file_of(rt.alloc(), shape)?;
        check_load(&rt, &bytes, expected, &shape);
    }
    Ok(())
}
