//! The checks of a table file, in their order: `check` takes a file exactly if it keeps the layout, and else tells the
//! first fault. What each check asks is in the crate `rcm`, specs/Checks.antt.

#![tactic(auto)]

ghost use Rattle.std.specs.Prelude.{◌≡◌, ◌<◌, MatchResult};
ghost use Rattle.rcm.specs.Format.{version_1};
ghost use Rattle.rcm.specs.Checks.{Sound, FirstFault};
ghost use Rattle.checks.specs.Contents.{bytes_of};

use faults::RecordFault;
use rcm::Framed;

mod actions;
mod counts;
mod filled;
mod outcomes;
mod section;
mod states;

use filled::FilledFile;

/// Takes the bytes as a framed file exactly if no check fails. Else tells the first fault.
pub fn check<'a>(bytes: &'a [u8]) -> Result<Framed<'a>, RecordFault>
    ensures { let b = bytes.now in
        MatchResult result
        (λ file. Sound version_1 b × (bytes_of file ≡ b))
        (λ f. FirstFault version_1 b f.cause f.«record» f.byte) }
{
    let filled = FilledFile::check(Framed::open(bytes)?)?;
    filled.check_rules()?;
    Ok(filled.file)
}
