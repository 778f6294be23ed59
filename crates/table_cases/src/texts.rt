//! What is printed of a file: the description of its model, or the line of its refusal.

use crate::case::Change::*;
use crate::case::Field::*;
use crate::case::{Case, changed};
use crate::files::EXAMPLE;
use description::describe_file;
use std::test::Fail;

const TEXTS: [Case<&str>; 5] = [
    Case(
        &[],
        "states 2\nstart 0\nprice 100\ntotal 1000\n\
        state 0 open estimate 0\n  action 0 cost 10\n    outcome 0 state 1 weight 500\n    outcome 1 state 0 weight 500\n\
        state 1 ending estimate 0\n",
    ),
    Case(&[Length(16)], "refused 1 file 0 0\n"),
    Case(&[Set(Version, 2)], "refused 2 file 0 3\n"),
    Case(&[Set(Kind(1), 2)], "refused 5 record 1 25\n"),
    Case(&[Set(Estimate(0), 21)], "refused 10 rule 0 33\n"),
];

#[test]
fn description_or_refusal(rt: HostRuntime) -> Result<(), Fail> {
    for Case(changes, expected) in TEXTS {
        let bytes = changed(rt.alloc(), EXAMPLE, changes)?;
        let text = describe_file(rt.alloc(), &bytes)?;
        assert_eq!(rt; text.as_str(), expected);
    }
    Ok(())
}
