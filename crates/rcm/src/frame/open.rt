//! Opens a file: the checks of it as a whole, its length, its opening, its header's numbers, and the length of its sections.

ghost use Rattle.std.specs.Prelude.{◌≡◌, ◌<◌, ◌≤◌, [], length, MatchResult};
ghost use Rattle.faults.specs.declared.Place.TheVariants.{InHeader};
ghost use Rattle.faults.specs.declared.Cause.TheVariants.{Length, Opening, Sections};
ghost use Rattle.faults.specs.declared.Layer.TheVariants.{File};
ghost use Rattle.faults.specs.Causes.{layer as layer_of};
ghost use Rattle.rcm.specs.Format.{version_1, u16_at, u32_at};
ghost use Rattle.rcm.specs.Layout.{head_of};
ghost use Rattle.rcm.specs.Checks.{FirstFault, whole, LengthRule, SectionsRule, OpeningPart, OpeningRule, HeaderRule, header_offset};
ghost use Rattle.rcm.specs.Checking.{RecordChecked, Checked, Passed, WellFramed};

use crate::bytes::{u16_at, u32_at};
use crate::format::{
    ACTIONS_MOST, BYTES_MOST, HEADER_WIDTH, OUTCOMES_MOST, PRICE_MOST, STATES_MOST, VERSION,
};
use crate::frame::Framed;
use crate::records::Head;
use faults::{Cause, FieldFault, Place, RecordFault, limited};

fn check_length(bytes: &[u8]) -> Result<(), RecordFault>
    ensures { let b = bytes.now in
        Checked version_1 b Length (λ _. LengthRule version_1 b whole) result }
{
    (HEADER_WIDTH as usize..=BYTES_MOST)
        .contains(&bytes.len())
        .then_some(())
        .ok_or(Cause::Length.fault(0, 0))
}

/// Reads the header from what follows the mark and the version.
fn read_head(rest: &[u8]) -> Head
    requires { 12 ≤ length rest.now }
    ensures states { result.states ≡ u16_at rest.now 0 }
    ensures start { result.start ≡ u16_at rest.now 2 }
    ensures actions { result.actions ≡ u16_at rest.now 4 }
    ensures outcomes { result.outcomes ≡ u16_at rest.now 6 }
    ensures price { result.price ≡ u32_at rest.now 8 }
{
    Head {
        states: u16_at(rest, 0),
        start: u16_at(rest, 2),
        actions: u16_at(rest, 4),
        outcomes: u16_at(rest, 6),
        price: u32_at(rest, 8),
    }
}

/// Checks the mark and the version, and reads the header from the rest of the file.
fn check_opening(bytes: &[u8]) -> Result<Head, RecordFault>
    requires { LengthRule version_1 bytes.now whole }
    ensures { let b = bytes.now in
        Checked version_1 b Opening
        (λ h. (h ≡ head_of b) × ((p : OpeningPart) → OpeningRule version_1 b p)) result }
{
    let [b'R', b'C', b'M', high, low, rest @ ..] = bytes else {
        return Err(Cause::Opening.fault(0, 0));
    };
    if u16::from_be_bytes([*high, *low]) != VERSION {
        return Err(Cause::Opening.fault(0, 3));
    }
    Ok(read_head(rest))
}

/// Checks the numbers of the header.
fn check_header(head: Head) -> Result<(), FieldFault>
    ensures { RecordChecked InHeader 0 0 header_offset (HeaderRule version_1 head) (λ _. Unit {0}) result }
{
    let states = u32::from(head.states);
    let actions = u32::from(head.actions);
    let outcomes_most = if actions == 0 { 0 } else { OUTCOMES_MOST };
    limited(states, 1, STATES_MOST, Place::InHeader.fault(0, 5))?;
    limited(
        u32::from(head.start),
        0,
        states - 1,
        Place::InHeader.fault(0, 7),
    )?;
    limited(actions, 0, ACTIONS_MOST, Place::InHeader.fault(0, 9))?;
    limited(
        u32::from(head.outcomes),
        0,
        outcomes_most,
        Place::InHeader.fault(0, 11),
    )?;
    limited(head.price, 1, PRICE_MOST, Place::InHeader.fault(0, 13))
}

fn check_sections(bytes: &[u8], head: Head) -> Result<(), RecordFault>
    requires { head ≡ head_of bytes.now }
    ensures { let b = bytes.now in
        Checked version_1 b Sections (λ _. SectionsRule version_1 b whole) result }
{
    if bytes.len() != head.end_byte() as usize {
        return Err(Cause::Sections.fault(0, 0));
    }
    Ok(())
}

/// The checks of the file as a whole, in their order. Gives the header.
fn check_frame(bytes: &[u8]) -> Result<Head, RecordFault>
    ensures { let b = bytes.now in
        MatchResult result
        (λ h. (h ≡ head_of b) × WellFramed version_1 b × Passed version_1 b 5)
        (λ f. (layer_of f.cause ≡ File) × FirstFault version_1 b f.cause f.«record» f.byte) }
{
    check_length(bytes)?;
    let head = check_opening(bytes)?;
    check_header(head)?;
    check_sections(bytes, head)?;
    Ok(head)
}

impl<'a> Framed<'a> {
    /// Takes a file if none of the checks of it as a whole fails. Else tells the first that fails.
    pub fn open(bytes: &'a [u8]) -> Result<Framed<'a>, RecordFault>
        ensures { let b = bytes.now in
            MatchResult result
            (λ file. file.bytes.now ≡ b)
            (λ f. (layer_of f.cause ≡ File) × FirstFault version_1 b f.cause f.«record» f.byte) }
    {
        let header = check_frame(bytes)?;
        Ok(Framed { bytes, header })
    }
}
