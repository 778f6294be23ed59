//! Calls on a plan, and their answers.

use crate::files::*;
use planner::Answer::*;
use planner::{Answer, Plan};
use planning::Advice::*;
use planning::Phase::*;
use planning::{Call, Refusal};
use std::process::Abort;
use table::Table;

/// What a plan says to a call.
type Reply = Result<Answer, Refusal>;

const UNFINISHED: Reply = Err(Refusal::Unfinished);

const UNKNOWN: Reply = Err(Refusal::UnknownState);

const OUT_OF_ORDER: Reply = Err(Refusal::OutOfOrder);

/// The table of a file, or of nothing where the file does not load.
fn loaded(bytes: &[u8]) -> Table<'_> {
    let mut table = Table::nothing();
    let _ = table.load(bytes);
    table
}

/// Makes the first calls on a plan over the file, then those of the exchanges, and compares the replies.
fn talk_after(rt: &impl Abort, first: &[Call], bytes: &[u8], exchanges: &[(Call, Reply)]) {
    let mut plan = Plan::after(loaded(bytes), first);
    for (i, (call, reply)) in exchanges.iter().enumerate() {
        assert_eq!(rt; plan.answer(*call), *reply, "call {i}");
    }
}

fn talk(rt: &impl Abort, bytes: &[u8], exchanges: &[(Call, Reply)]) {
    talk_after(rt, &[], bytes, exchanges);
}

/// The exchanges of a finished plan, whatever number of steps it took.
fn talk_when_finished(rt: &impl Abort, bytes: &[u8], exchanges: &[(Call, Reply)]) {
    let work = [Call::Work(7), Call::Advice(0), Call::Work(1_000_000)];
    talk_after(rt, &work, bytes, exchanges);
}

#[test]
fn example_in_portions(rt: HostRuntime) {
    talk(
        &rt,
        EXAMPLE,
        &[
            (Call::Figures, Ok(Figured(0, 100, Searching))),
            (Call::Advice(2), UNKNOWN),
            (Call::Advice(0), UNFINISHED),
            (Call::Work(0), Ok(Worked(0, 0, Searching))),
            (Call::Work(3), Ok(Worked(1, 2, Searching))),
            (Call::Figures, Ok(Figured(15, 100, Searching))),
            (Call::Work(3), Ok(Worked(0, 3, Costing))),
            (Call::Figures, Ok(Figured(19, 100, Costing))),
            (Call::Advice(0), UNFINISHED),
            (Call::Work(100), Ok(Worked(0, 5, Finished))),
            (Call::Figures, Ok(Figured(19, 20, Finished))),
            (Call::Advice(0), Ok(Advised(Act(0)))),
            (Call::Advice(1), Ok(Advised(Ending))),
            (Call::Advice(2), UNKNOWN),
            (Call::Work(4_294_967_295), Ok(Worked(0, 0, Finished))),
        ],
    );
}

#[test]
fn one_call_finishes_like_many(rt: HostRuntime) {
    talk(
        &rt,
        EXAMPLE,
        &[
            (Call::Work(11), Ok(Worked(1, 10, Finished))),
            (Call::Figures, Ok(Figured(19, 20, Finished))),
        ],
    );
    talk(
        &rt,
        EXAMPLE,
        &[
            (Call::Work(1), Ok(Worked(1, 0, Searching))),
            (Call::Work(1), Ok(Worked(0, 1, Searching))),
            (Call::Work(8), Ok(Worked(0, 8, Costing))),
            (Call::Work(1), Ok(Worked(0, 1, Finished))),
            (Call::Figures, Ok(Figured(19, 20, Finished))),
        ],
    );
}

#[test]
fn prices_estimates_and_loops(rt: HostRuntime) {
    talk(
        &rt,
        CHEAP,
        &[
            (Call::Work(1_000), Ok(Worked(1, 10, Finished))),
            (Call::Figures, Ok(Figured(19, 20, Finished))),
            (Call::Advice(0), Ok(Advised(WriteOff))),
        ],
    );
    talk(
        &rt,
        ESTIMATED,
        &[
            (Call::Figures, Ok(Figured(20, 100, Searching))),
            (Call::Work(1_000), Ok(Worked(1, 5, Finished))),
            (Call::Figures, Ok(Figured(20, 20, Finished))),
            (Call::Advice(0), Ok(Advised(Act(0)))),
        ],
    );
    talk(
        &rt,
        SLOW,
        &[
            (Call::Work(1_001), Ok(Worked(1, 1_000, Costing))),
            (Call::Work(1_001), Ok(Worked(0, 1, Finished))),
            (Call::Figures, Ok(Figured(1, 1_000, Finished))),
            (Call::Advice(0), Ok(Advised(Act(0)))),
        ],
    );
}

#[test]
fn no_work_and_no_actions(rt: HostRuntime) {
    talk(
        &rt,
        HOME,
        &[
            (Call::Figures, Ok(Figured(0, 0, Finished))),
            (Call::Advice(0), Ok(Advised(Ending))),
            (Call::Work(5), Ok(Worked(0, 0, Finished))),
        ],
    );
    talk(
        &rt,
        STUCK,
        &[
            (Call::Work(2), Ok(Worked(1, 1, Costing))),
            (Call::Work(2), Ok(Worked(0, 1, Finished))),
            (Call::Figures, Ok(Figured(100, 100, Finished))),
            (Call::Advice(0), Ok(Advised(WriteOff))),
        ],
    );
}

#[test]
fn choices_among_actions(rt: HostRuntime) {
    talk(
        &rt,
        DETOUR,
        &[
            (Call::Work(1_000), Ok(Worked(1, 10, Finished))),
            (Call::Figures, Ok(Figured(19, 20, Finished))),
            (Call::Advice(0), Ok(Advised(Act(0)))),
            (Call::Advice(2), Ok(Advised(NotReached))),
        ],
    );
    talk(
        &rt,
        TIE,
        &[
            (Call::Work(1_000), Ok(Worked(1, 2, Finished))),
            (Call::Figures, Ok(Figured(5, 5, Finished))),
            (Call::Advice(0), Ok(Advised(Act(1)))),
        ],
    );
    talk_when_finished(
        &rt,
        CHANGE,
        &[
            (Call::Figures, Ok(Figured(17, 17, Finished))),
            (Call::Advice(0), Ok(Advised(Act(1)))),
            (Call::Advice(2), Ok(Advised(NotReached))),
            (Call::Advice(3), Ok(Advised(Act(0)))),
        ],
    );
}

/// The numbers come from a value iteration over all states, written for this and not kept.
#[test]
fn demo_when_finished(rt: HostRuntime) {
    talk_when_finished(
        &rt,
        DEMO,
        &[
            (Call::Figures, Ok(Figured(1_228, 1_230, Finished))),
            (Call::Advice(0), Ok(Advised(NotReached))),
            (Call::Advice(1), Ok(Advised(Act(1)))),
            (Call::Advice(2), Ok(Advised(Act(1)))),
            (Call::Advice(3), Ok(Advised(Act(0)))),
            (Call::Advice(4), Ok(Advised(Act(1)))),
            (Call::Advice(5), Ok(Advised(WriteOff))),
            (Call::Advice(6), Ok(Advised(Ending))),
            (Call::Advice(7), Ok(Advised(Ending))),
            (Call::Advice(8), UNKNOWN),
        ],
    );
}

#[test]
fn out_of_order(rt: HostRuntime) {
    talk(
        &rt,
        b"",
        &[
            (Call::Work(5), OUT_OF_ORDER),
            (Call::Figures, OUT_OF_ORDER),
            (Call::Advice(0), OUT_OF_ORDER),
        ],
    );
}

#[test]
fn refusals_have_their_numbers(rt: HostRuntime) {
    assert_eq!(rt; Refusal::OutOfOrder.code(), 11);
    assert_eq!(rt; Refusal::UnknownState.code(), 12);
    assert_eq!(rt; Refusal::Unfinished.code(), 13);
}
