//! A file whose frame is in order: its header keeps its limits, and its length is that of its sections.

ghost use Rattle.std.specs.Prelude.{◌≡◌};
ghost use Rattle.rcm.specs.Format.{version_1};
ghost use Rattle.rcm.specs.Layout.{head_of};
ghost use Rattle.rcm.specs.Checking.{Frame, Passed};

mod open;
mod read;

use crate::records::Head;

/// The type carries that the checks of the file as a whole pass, so a record is read without a test but of its number.
#[derive(Clone, Copy)]
pub struct Framed<'a> {
    bytes: &'a [u8],
    // Kept beside the bytes that it is read from, since every record that is read asks for it.
    header: Head,
    ghost framed: { Frame version_1 bytes.now },
    ghost passed: { Passed version_1 bytes.now 5 },
    ghost headed: { header ≡ head_of bytes.now },
}
