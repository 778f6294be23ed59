//! Files with two faults: the earlier check, the lower record and the earlier field are told.

use crate::case::Change::*;
use crate::case::Field::*;
use crate::case::Refused::*;
use crate::case::{Case, Verdict, try_cases};
use crate::files::FORK;
use std::test::Fail;

const CASES: [Case<Verdict>; 29] = [
    Case(&[Set(Mark(0), 0), Length(16)], Err(File(1, 0, 0))),
    Case(&[Set(Mark(0), 0), Length(65_537)], Err(File(1, 0, 0))),
    Case(&[Set(Mark(2), 0), Set(Version, 2)], Err(File(2, 0, 0))),
    Case(&[Set(Version, 2), Set(States, 0)], Err(File(2, 0, 3))),
    Case(&[Set(States, 0), Set(Start, 3)], Err(File(3, 0, 5))),
    Case(&[Set(Start, 3), Set(Actions, 2_049)], Err(File(3, 0, 7))),
    Case(
        &[Set(Actions, 2_049), Set(Entries, 6_001)],
        Err(File(3, 0, 9)),
    ),
    Case(&[Set(Entries, 6_001), Set(Price, 0)], Err(File(3, 0, 11))),
    Case(&[Set(Price, 0), Length(77)], Err(File(3, 0, 13))),
    Case(&[Set(Kind(0), 2), Length(77)], Err(File(4, 0, 0))),
    Case(
        &[Set(Kind(0), 2), Set(Estimate(0), 1_001)],
        Err(Record(5, 0, 17)),
    ),
    Case(
        &[Set(Estimate(0), 1_001), Set(FirstAction(0), 1)],
        Err(Record(5, 0, 18)),
    ),
    Case(
        &[Set(FirstAction(0), 1), Set(ActionCount(0), 17)],
        Err(Record(5, 0, 22)),
    ),
    Case(
        &[Set(ActionCount(0), 17), Set(Kind(1), 2)],
        Err(Record(5, 0, 24)),
    ),
    Case(
        &[Set(Kind(2), 2), Set(ActionCount(1), 17)],
        Err(Record(5, 1, 32)),
    ),
    Case(
        &[Set(ActionCount(2), 1), Set(Cost(0), 0)],
        Err(Record(5, 2, 40)),
    ),
    Case(
        &[Set(Cost(0), 0), Set(FirstEntry(0), 1)],
        Err(Record(6, 0, 41)),
    ),
    Case(
        &[Set(FirstEntry(0), 1), Set(EntryCount(0), 0)],
        Err(Record(6, 0, 45)),
    ),
    Case(
        &[Set(EntryCount(0), 0), Set(Cost(1), 0)],
        Err(Record(6, 0, 47)),
    ),
    Case(
        &[Set(EntryCount(2), 0), Set(EntryState(0), 3)],
        Err(Record(6, 2, 61)),
    ),
    Case(
        &[Set(EntryState(0), 3), Set(Weight(0), 0)],
        Err(Record(7, 0, 62)),
    ),
    Case(
        &[Set(Weight(0), 0), Set(EntryState(1), 3)],
        Err(Record(7, 0, 64)),
    ),
    Case(
        &[Set(Weight(3), 0), Set(EntryCount(2), 2)],
        Err(Record(7, 3, 76)),
    ),
    Case(
        &[
            Set(Weight(3), 0),
            Set(ActionCount(1), 0),
            Set(FirstAction(2), 2),
        ],
        Err(Record(7, 3, 76)),
    ),
    Case(
        &[
            Set(EntryCount(2), 2),
            Set(ActionCount(1), 0),
            Set(FirstAction(2), 2),
        ],
        Err(Record(8, 2, 40)),
    ),
    Case(
        &[Set(EntryCount(2), 2), Set(Weight(0), 999)],
        Err(Record(8, 2, 61)),
    ),
    Case(
        &[Set(Weight(3), 999), Set(Weight(0), 999)],
        Err(Rule(9, 0, 41)),
    ),
    Case(
        &[Set(Weight(3), 999), Set(Estimate(0), 11)],
        Err(Rule(9, 2, 55)),
    ),
    Case(
        &[Set(Estimate(1), 31), Set(Estimate(0), 33)],
        Err(Rule(10, 0, 41)),
    ),
];

#[test]
fn first_fault_is_told(rt: HostRuntime) -> Result<(), Fail> {
    try_cases(&rt, rt.alloc(), FORK, &CASES)
}
