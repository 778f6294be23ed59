//! Each field at its limits and just past them, and the rules.

use crate::case::Change::*;
use crate::case::Field::*;
use crate::case::Refused::*;
use crate::case::{Case, Verdict, try_cases};
use crate::files::{EXAMPLE, FORK};
use std::test::Fail;

const FILE_CASES: [Case<Verdict>; 40] = [
    Case(&[], Ok(())),
    Case(&[Length(0)], Err(File(1, 0, 0))),
    Case(&[Length(16)], Err(File(1, 0, 0))),
    Case(&[Length(17)], Err(File(4, 0, 0))),
    Case(&[Length(47)], Err(File(4, 0, 0))),
    Case(&[Length(49)], Err(File(4, 0, 0))),
    Case(&[Length(65_536)], Err(File(4, 0, 0))),
    Case(&[Length(65_537)], Err(File(1, 0, 0))),
    Case(&[Set(Mark(0), 0x51)], Err(File(2, 0, 0))),
    Case(&[Set(Mark(0), 0x53)], Err(File(2, 0, 0))),
    Case(&[Set(Mark(1), 0x42)], Err(File(2, 0, 0))),
    Case(&[Set(Mark(1), 0x44)], Err(File(2, 0, 0))),
    Case(&[Set(Mark(2), 0x4c)], Err(File(2, 0, 0))),
    Case(&[Set(Mark(2), 0x4e)], Err(File(2, 0, 0))),
    Case(&[Set(Version, 0)], Err(File(2, 0, 3))),
    Case(&[Set(Version, 2)], Err(File(2, 0, 3))),
    Case(&[Set(Version, 256)], Err(File(2, 0, 3))),
    Case(&[Set(Version, 257)], Err(File(2, 0, 3))),
    Case(&[Set(States, 0)], Err(File(3, 0, 5))),
    Case(&[Set(States, 1)], Err(File(4, 0, 0))),
    Case(&[Set(States, 1_024)], Err(File(4, 0, 0))),
    Case(&[Set(States, 1_025)], Err(File(3, 0, 5))),
    Case(&[Set(States, 65_535)], Err(File(3, 0, 5))),
    Case(&[Set(Start, 1)], Ok(())),
    Case(&[Set(Start, 2)], Err(File(3, 0, 7))),
    Case(&[Set(Start, 256)], Err(File(3, 0, 7))),
    Case(&[Set(Actions, 0), Set(Entries, 0)], Err(File(4, 0, 0))),
    Case(&[Set(Actions, 0), Set(Entries, 1)], Err(File(3, 0, 11))),
    Case(&[Set(Actions, 1), Set(Entries, 0)], Err(File(4, 0, 0))),
    Case(&[Set(Actions, 2_048)], Err(File(4, 0, 0))),
    Case(&[Set(Actions, 2_049)], Err(File(3, 0, 9))),
    Case(&[Set(Actions, 65_535)], Err(File(3, 0, 9))),
    Case(&[Set(Entries, 6_000)], Err(File(4, 0, 0))),
    Case(&[Set(Entries, 6_001)], Err(File(3, 0, 11))),
    Case(&[Set(Entries, 65_535)], Err(File(3, 0, 11))),
    Case(&[Set(Price, 0)], Err(File(3, 0, 13))),
    Case(&[Set(Price, 1)], Ok(())),
    Case(&[Set(Price, 1_000_000_000)], Ok(())),
    Case(&[Set(Price, 1_000_000_001)], Err(File(3, 0, 13))),
    Case(&[Set(Price, 4_294_967_295)], Err(File(3, 0, 13))),
];

const STATE_CASES: [Case<Verdict>; 21] = [
    Case(&[Set(Kind(0), 2)], Err(Record(5, 0, 17))),
    Case(&[Set(Kind(1), 2)], Err(Record(5, 1, 25))),
    Case(&[Set(Kind(1), 255)], Err(Record(5, 1, 25))),
    Case(&[Set(Kind(1), 0)], Ok(())),
    Case(&[Set(Price, 20), Set(Estimate(0), 20)], Ok(())),
    Case(
        &[Set(Price, 20), Set(Estimate(0), 21)],
        Err(Record(5, 0, 18)),
    ),
    Case(&[Set(Kind(1), 0), Set(Estimate(1), 100)], Ok(())),
    Case(
        &[Set(Kind(1), 0), Set(Estimate(1), 101)],
        Err(Record(5, 1, 26)),
    ),
    Case(&[Set(Estimate(1), 1)], Err(Record(5, 1, 26))),
    Case(&[Set(Estimate(0), 0x0100_0000)], Err(Record(5, 0, 18))),
    Case(&[Set(FirstAction(0), 1)], Err(Record(5, 0, 22))),
    Case(&[Set(FirstAction(1), 0)], Err(Record(5, 1, 30))),
    Case(&[Set(FirstAction(1), 2)], Err(Record(5, 1, 30))),
    Case(&[Set(FirstAction(1), 257)], Err(Record(5, 1, 30))),
    Case(&[Set(Kind(0), 1)], Err(Record(5, 0, 24))),
    Case(&[Set(ActionCount(0), 16)], Err(Record(5, 1, 30))),
    Case(&[Set(ActionCount(0), 17)], Err(Record(5, 0, 24))),
    Case(&[Set(ActionCount(0), 255)], Err(Record(5, 0, 24))),
    Case(&[Set(ActionCount(1), 1)], Err(Record(5, 1, 32))),
    Case(
        &[Set(Kind(1), 0), Set(ActionCount(1), 16)],
        Err(Record(8, 1, 32)),
    ),
    Case(
        &[Set(Kind(1), 0), Set(ActionCount(1), 17)],
        Err(Record(5, 1, 32)),
    ),
];

const ACTION_CASES: [Case<Verdict>; 13] = [
    Case(&[Set(Cost(0), 0)], Err(Record(6, 0, 33))),
    Case(&[Set(Cost(0), 1)], Ok(())),
    Case(&[Set(Cost(0), 1_000_000)], Ok(())),
    Case(&[Set(Cost(0), 1_000_001)], Err(Record(6, 0, 33))),
    Case(&[Set(Cost(0), 4_294_967_295)], Err(Record(6, 0, 33))),
    Case(&[Set(FirstEntry(0), 1)], Err(Record(6, 0, 37))),
    Case(&[Set(FirstEntry(0), 256)], Err(Record(6, 0, 37))),
    Case(&[Set(EntryCount(0), 0)], Err(Record(6, 0, 39))),
    Case(&[Set(EntryCount(0), 1)], Err(Record(8, 0, 39))),
    Case(&[Set(EntryCount(0), 3)], Err(Record(8, 0, 39))),
    Case(&[Set(EntryCount(0), 8)], Err(Record(8, 0, 39))),
    Case(&[Set(EntryCount(0), 9)], Err(Record(6, 0, 39))),
    Case(&[Set(EntryCount(0), 255)], Err(Record(6, 0, 39))),
];

const ENTRY_CASES: [Case<Verdict>; 14] = [
    Case(&[Set(EntryState(0), 2)], Err(Record(7, 0, 40))),
    Case(&[Set(EntryState(0), 256)], Err(Record(7, 0, 40))),
    Case(&[Set(EntryState(0), 0)], Ok(())),
    Case(&[Set(EntryState(1), 1)], Ok(())),
    Case(&[Set(EntryState(1), 2)], Err(Record(7, 1, 44))),
    Case(&[Set(Weight(0), 0)], Err(Record(7, 0, 42))),
    Case(&[Set(Weight(0), 1), Set(Weight(1), 999)], Ok(())),
    Case(&[Set(Weight(0), 999), Set(Weight(1), 1)], Ok(())),
    Case(&[Set(Weight(0), 256), Set(Weight(1), 744)], Ok(())),
    Case(
        &[Set(Weight(0), 1_000), Set(Weight(1), 0)],
        Err(Record(7, 1, 46)),
    ),
    Case(&[Set(Weight(0), 1_000)], Err(Rule(9, 0, 33))),
    Case(&[Set(Weight(0), 1_001)], Err(Record(7, 0, 42))),
    Case(&[Set(Weight(1), 1_001)], Err(Record(7, 1, 46))),
    Case(&[Set(Weight(1), 65_535)], Err(Record(7, 1, 46))),
];

// At the largest price 1,000,000,000 * 1000 = 10 * 1000 + 500 * 999,999,980 + 500 * 1,000,000,000.
const RULE_CASES: [Case<Verdict>; 11] = [
    Case(&[Set(Weight(0), 499)], Err(Rule(9, 0, 33))),
    Case(&[Set(Weight(1), 501)], Err(Rule(9, 0, 33))),
    Case(&[Set(Weight(0), 499), Set(Weight(1), 501)], Ok(())),
    Case(&[Set(Estimate(0), 20)], Ok(())),
    Case(&[Set(Estimate(0), 21)], Err(Rule(10, 0, 33))),
    Case(
        &[Set(Estimate(0), 20), Set(Cost(0), 9)],
        Err(Rule(10, 0, 33)),
    ),
    Case(
        &[Set(Estimate(0), 20), Set(EntryState(1), 1)],
        Err(Rule(10, 0, 33)),
    ),
    Case(
        &[
            Set(Price, 3_000_000),
            Set(Cost(0), 1_000_000),
            Set(Estimate(0), 2_000_000),
        ],
        Ok(()),
    ),
    Case(
        &[
            Set(Price, 3_000_000),
            Set(Cost(0), 1_000_000),
            Set(Estimate(0), 2_000_001),
        ],
        Err(Rule(10, 0, 33)),
    ),
    Case(
        &[
            Set(Price, 1_000_000_000),
            Set(Estimate(0), 1_000_000_000),
            Set(Kind(1), 0),
            Set(Estimate(1), 999_999_980),
        ],
        Ok(()),
    ),
    Case(
        &[
            Set(Price, 1_000_000_000),
            Set(Estimate(0), 1_000_000_000),
            Set(Kind(1), 0),
            Set(Estimate(1), 999_999_979),
        ],
        Err(Rule(10, 0, 33)),
    ),
];

const FORK_CASES: [Case<Verdict>; 24] = [
    Case(&[], Ok(())),
    Case(&[Set(Start, 2)], Ok(())),
    Case(&[Set(Start, 3)], Err(File(3, 0, 7))),
    Case(&[Set(Kind(2), 2)], Err(Record(5, 2, 33))),
    Case(&[Set(Estimate(2), 1)], Err(Record(5, 2, 34))),
    Case(&[Set(FirstAction(2), 2)], Err(Record(5, 2, 38))),
    Case(&[Set(FirstAction(2), 4)], Err(Record(5, 2, 38))),
    Case(&[Set(ActionCount(2), 1)], Err(Record(5, 2, 40))),
    Case(&[Set(Cost(2), 0)], Err(Record(6, 2, 55))),
    Case(&[Set(FirstEntry(1), 0)], Err(Record(6, 1, 52))),
    Case(&[Set(FirstEntry(1), 2)], Err(Record(6, 1, 52))),
    Case(&[Set(FirstEntry(2), 2)], Err(Record(6, 2, 59))),
    Case(&[Set(FirstEntry(2), 4)], Err(Record(6, 2, 59))),
    Case(&[Set(EntryState(3), 3)], Err(Record(7, 3, 74))),
    Case(&[Set(Weight(3), 1_001)], Err(Record(7, 3, 76))),
    Case(
        &[Set(ActionCount(1), 0), Set(FirstAction(2), 2)],
        Err(Record(8, 2, 40)),
    ),
    Case(
        &[Set(ActionCount(1), 2), Set(FirstAction(2), 4)],
        Err(Record(8, 2, 40)),
    ),
    Case(&[Set(EntryCount(2), 2)], Err(Record(8, 2, 61))),
    Case(&[Set(Weight(1), 401)], Err(Rule(9, 1, 48))),
    Case(&[Set(Weight(3), 999)], Err(Rule(9, 2, 55))),
    Case(&[Set(Estimate(1), 30)], Ok(())),
    Case(&[Set(Estimate(1), 31)], Err(Rule(10, 2, 55))),
    Case(
        &[
            Set(Cost(0), 100),
            Set(Estimate(0), 38),
            Set(Estimate(1), 30),
        ],
        Ok(()),
    ),
    Case(
        &[
            Set(Cost(0), 100),
            Set(Estimate(0), 39),
            Set(Estimate(1), 30),
        ],
        Err(Rule(10, 1, 48)),
    ),
];

#[test]
fn file_and_header(rt: HostRuntime) -> Result<(), Fail> {
    try_cases(&rt, rt.alloc(), EXAMPLE, &FILE_CASES)
}

#[test]
fn fields_of_states(rt: HostRuntime) -> Result<(), Fail> {
    try_cases(&rt, rt.alloc(), EXAMPLE, &STATE_CASES)
}

#[test]
fn fields_of_actions(rt: HostRuntime) -> Result<(), Fail> {
    try_cases(&rt, rt.alloc(), EXAMPLE, &ACTION_CASES)
}

#[test]
fn fields_of_entries(rt: HostRuntime) -> Result<(), Fail> {
    try_cases(&rt, rt.alloc(), EXAMPLE, &ENTRY_CASES)
}

#[test]
fn rules(rt: HostRuntime) -> Result<(), Fail> {
    try_cases(&rt, rt.alloc(), EXAMPLE, &RULE_CASES)
}

#[test]
fn records_past_the_first(rt: HostRuntime) -> Result<(), Fail> {
    try_cases(&rt, rt.alloc(), FORK, &FORK_CASES)
}
