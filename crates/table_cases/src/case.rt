//! A case: a file with some changes, and what is to come of it.

use faults::{Layer, LoadFault};
use std::alloc::Global;
use std::fmt;
use std::ops::Range;
use std::process::Abort;
use std::test::Fail;
use table::Table;

/// A field of the file, with the number of its record.
#[derive(Clone, Copy)]
pub enum Field {
    /// One byte of the mark.
    Mark(u16),
    Version,
    States,
    Start,
    Actions,
    Entries,
    Price,
    Kind(u16),
    Estimate(u16),
    FirstAction(u16),
    ActionCount(u16),
    Cost(u16),
    FirstEntry(u16),
    EntryCount(u16),
    EntryState(u16),
    Weight(u16),
}

#[derive(Clone, Copy)]
pub enum Change {
    Set(Field, u32),
    /// Cuts the file to so many bytes, or fills it up with zeros.
    Length(usize),
}

/// Why a load is refused: the layer, with the cause's number, the record and the byte. Numbers, and not the `LoadFault` itself,
/// so that a case pins the number of its cause.
#[derive(Clone, Copy, PartialEq, Eq, Debug)]
pub enum Refused {
    File(u8, u32, u32),
    Record(u8, u32, u32),
    Rule(u8, u32, u32),
}

pub type Verdict = Result<(), Refused>;

/// The changes to a file, and what is expected of it then.
#[derive(Clone, Copy)]
pub struct Case<T>(pub &'static [Change], pub T);

impl From<LoadFault> for Refused {
    fn from(LoadFault { layer, fault }: LoadFault) -> Refused {
        let cause = fault.cause.code();
        match layer {
            Layer::File => Refused::File(cause, fault.record, fault.byte),
            Layer::Record => Refused::Record(cause, fault.record, fault.byte),
            Layer::Rule => Refused::Rule(cause, fault.record, fault.byte),
        }
    }
}

/// Records of one size, one after the other: the first byte, and the size.
#[derive(Clone, Copy)]
struct Section(u32, u16);

impl Section {
    fn field(self, record: u16, offset: u16, width: u16) -> Range<usize> {
        let Section(first, size) = self;
        let start = first as usize + usize::from(size) * usize::from(record) + usize::from(offset);
        start..start + usize::from(width)
    }
}

/// The number of two bytes that stands in a file, and 0 past its end.
fn number_at(file: &[u8], at: usize) -> u16 {
    match file.get(at..at.saturating_add(2)) {
        Some([high, low]) => u16::from_be_bytes([*high, *low]),
        _ => 0,
    }
}

impl Field {
    /// Where the field stands in a file.
    fn place(self, file: &[u8]) -> Range<usize> {
        let states_end = 17 + 8 * u32::from(number_at(file, 5));
        let actions_end = states_end + 7 * u32::from(number_at(file, 9));
        let header = Section(0, 17);
        let states = Section(17, 8);
        let actions = Section(states_end, 7);
        let entries = Section(actions_end, 4);
        match self {
            Field::Mark(i) => header.field(0, i, 1),
            Field::Version => header.field(0, 3, 2),
            Field::States => header.field(0, 5, 2),
            Field::Start => header.field(0, 7, 2),
            Field::Actions => header.field(0, 9, 2),
            Field::Entries => header.field(0, 11, 2),
            Field::Price => header.field(0, 13, 4),
            Field::Kind(s) => states.field(s, 0, 1),
            Field::Estimate(s) => states.field(s, 1, 4),
            Field::FirstAction(s) => states.field(s, 5, 2),
            Field::ActionCount(s) => states.field(s, 7, 1),
            Field::Cost(a) => actions.field(a, 0, 4),
            Field::FirstEntry(a) => actions.field(a, 4, 2),
            Field::EntryCount(a) => actions.field(a, 6, 1),
            Field::EntryState(e) => entries.field(e, 0, 2),
            Field::Weight(e) => entries.field(e, 2, 2),
        }
    }
}

/// A copy of the file with the changes. A change outside the file is a failure.
pub(crate) fn changed(heap: Global, file: &[u8], changes: &[Change]) -> Result<Vec<u8>, Fail> {
    let mut bytes = file.to_vec(heap)?;
    for change in changes {
        match *change {
            Change::Set(field, value) => {
                let Some(place) = bytes.as_mut_slice().get_mut(field.place(file)) else {
                    return Err(Fail::new("a change outside the file"));
                };
                // The low bytes of the value, from the last one on.
                for (byte, digit) in place.iter_mut().rev().zip(value.to_le_bytes()) {
                    *byte = digit;
                }
            }
            Change::Length(length) => bytes.resize(length, 0)?,
        }
    }
    Ok(bytes)
}

fn load(bytes: &[u8]) -> Verdict {
    let mut table = Table::nothing();
    table.load(bytes)?;
    Ok(())
}

pub(crate) fn check_load(
    rt: &impl Abort,
    bytes: &[u8],
    expected: Verdict,
    which: &impl fmt::Debug,
) {
    assert_eq!(rt; load(bytes), expected, "case {which:?}");
}

pub(crate) fn try_cases(
    rt: &impl Abort,
    heap: Global,
    file: &[u8],
    cases: &[Case<Verdict>],
) -> Result<(), Fail> {
    for (i, Case(changes, expected)) in cases.iter().enumerate() {
        let bytes = changed(heap, file, changes)?;
        check_load(rt, &bytes, *expected, &i);
    }
    Ok(())
}
