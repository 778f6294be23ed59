//! What a table answers: with nothing loaded, with a file, after a refused load, and after another file.

use crate::case::Change::Set;
use crate::case::{Change, Field, changed};
use crate::files::{EXAMPLE, FORK};
use Answer::*;
use Question::*;
use process::Model;
use std::process::Abort;
use std::test::Fail;
use table::Table;

/// A call of the table as data, so that constants can hold it and a failure prints it.
#[derive(Clone, Copy, Debug)]
enum Question {
    InOrder,
    States,
    Start,
    Price,
    Total,
    Terminal(u32),
    Estimate(u32),
    Actions(u32),
    Cost(u32, u32),
    Outcomes(u32, u32),
    Outcome(u32, u32, u32),
}

#[derive(Clone, Copy, PartialEq, Eq, Debug)]
enum Answer {
    Truth(bool),
    Number(u32),
    Pair(u32, u32),
}

const NOTHING_ANSWERS: [(Question, Answer); 11] = [
    (InOrder, Truth(false)),
    (States, Number(0)),
    (Start, Number(0)),
    (Price, Number(0)),
    (Total, Number(0)),
    (Terminal(0), Truth(false)),
    (Estimate(0), Number(0)),
    (Actions(0), Number(0)),
    (Cost(0, 0), Number(0)),
    (Outcomes(0, 0), Number(0)),
    (Outcome(0, 0, 0), Pair(0, 0)),
];

const EXAMPLE_ANSWERS: [(Question, Answer); 27] = [
    (InOrder, Truth(true)),
    (States, Number(2)),
    (Start, Number(0)),
    (Price, Number(100)),
    (Total, Number(1_000)),
    (Terminal(0), Truth(false)),
    (Terminal(1), Truth(true)),
    (Terminal(2), Truth(false)),
    (Estimate(0), Number(0)),
    (Estimate(1), Number(0)),
    (Estimate(2), Number(0)),
    (Actions(0), Number(1)),
    (Actions(1), Number(0)),
    (Actions(2), Number(0)),
    (Cost(0, 0), Number(10)),
    (Cost(0, 1), Number(0)),
    (Cost(1, 0), Number(0)),
    (Cost(2, 0), Number(0)),
    (Outcomes(0, 0), Number(2)),
    (Outcomes(0, 1), Number(0)),
    (Outcomes(1, 0), Number(0)),
    (Outcome(0, 0, 0), Pair(1, 500)),
    (Outcome(0, 0, 1), Pair(0, 500)),
    (Outcome(0, 0, 2), Pair(0, 0)),
    (Outcome(0, 1, 0), Pair(0, 0)),
    (Outcome(1, 0, 0), Pair(0, 0)),
    (Outcome(2, 0, 0), Pair(0, 0)),
];

/// Numbers whose bytes all count.
const LARGE_NUMBERS: [Change; 7] = [
    Set(Field::Price, 0x0102_0304),
    Set(Field::Kind(2), 0),
    Set(Field::Estimate(2), 0x0102_0304),
    Set(Field::Estimate(0), 10),
    Set(Field::Cost(2), 0x000a_0b0c),
    Set(Field::Weight(1), 0x0102),
    Set(Field::Weight(2), 742),
];

const FORK_ANSWERS: [(Question, Answer); 32] = [
    (InOrder, Truth(true)),
    (States, Number(3)),
    (Start, Number(1)),
    (Price, Number(0x0102_0304)),
    (Total, Number(1_000)),
    (Terminal(2), Truth(false)),
    (Terminal(u32::MAX), Truth(false)),
    (Estimate(0), Number(10)),
    (Estimate(1), Number(0)),
    (Estimate(2), Number(0x0102_0304)),
    (Estimate(3), Number(0)),
    (Estimate(u32::MAX), Number(0)),
    (Actions(0), Number(2)),
    (Actions(1), Number(1)),
    (Actions(2), Number(0)),
    (Actions(u32::MAX), Number(0)),
    (Cost(0, 0), Number(10)),
    (Cost(0, 1), Number(20)),
    (Cost(0, 2), Number(0)),
    (Cost(1, 0), Number(0x000a_0b0c)),
    (Cost(1, u32::MAX), Number(0)),
    (Outcomes(0, 0), Number(1)),
    (Outcomes(0, 1), Number(2)),
    (Outcomes(1, 0), Number(1)),
    (Outcomes(u32::MAX, 0), Number(0)),
    (Outcome(0, 0, 0), Pair(2, 1_000)),
    (Outcome(0, 0, 1), Pair(0, 0)),
    (Outcome(0, 1, 0), Pair(2, 0x0102)),
    (Outcome(0, 1, 1), Pair(1, 742)),
    (Outcome(0, 1, 2), Pair(0, 0)),
    (Outcome(1, 0, 0), Pair(2, 1_000)),
    (Outcome(1, 0, u32::MAX), Pair(0, 0)),
];

/// An estimate that the last check refuses.
const TOO_HIGH: [Change; 1] = [Set(Field::Estimate(1), 31)];

fn ask(table: &Table, question: Question) -> Answer {
    match question {
        InOrder => Truth(table.in_order()),
        States => Number(table.states()),
        Start => Number(table.start()),
        Price => Number(table.price()),
        Total => Number(table.total()),
        Terminal(s) => Truth(table.terminal(s)),
        Estimate(s) => Number(table.estimate(s)),
        Actions(s) => Number(table.actions(s)),
        Cost(s, a) => Number(table.cost(s, a)),
        Outcomes(s, a) => Number(table.outcomes(s, a)),
        Outcome(s, a, k) => {
            let (state, weight) = table.outcome(s, a, k);
            Pair(state, weight)
        }
    }
}

fn check_answers(rt: &impl Abort, table: &Table, answers: &[(Question, Answer)]) {
    for (question, answer) in answers {
        assert_eq!(rt; ask(table, *question), *answer, "{question:?}");
    }
}

/// The answers stay at a refused file, and change at one that loads.
#[test]
fn answers_are_of_the_last_file_that_loaded(rt: HostRuntime) -> Result<(), Fail> {
    let example = changed(rt.alloc(), EXAMPLE, &[])?;
    let fork = changed(rt.alloc(), FORK, &LARGE_NUMBERS)?;
    let refused = changed(rt.alloc(), FORK, &TOO_HIGH)?;
    let turns: [(&[u8], bool, &[(Question, Answer)]); 6] = [
        (&refused, false, &NOTHING_ANSWERS),
        (&example, true, &EXAMPLE_ANSWERS),
        (&refused, false, &EXAMPLE_ANSWERS),
        (&fork, true, &FORK_ANSWERS),
        (&refused, false, &FORK_ANSWERS),
        (&example, true, &EXAMPLE_ANSWERS),
    ];
    let mut table = Table::nothing();
    check_answers(&rt, &table, &NOTHING_ANSWERS);
    for (file, loads, answers) in turns {
        assert_eq!(rt; table.load(file).is_ok(), loads);
        check_answers(&rt, &table, answers);
    }
    Ok(())
}
