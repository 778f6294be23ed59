//! A file whose records are in order: the type carries that the checks 1 to 8 pass.

ghost use Rattle.std.specs.Prelude.{◌≡◌, ◌<◌};
ghost use Rattle.rcm.specs.Format.{version_1};
ghost use Rattle.rcm.specs.Checking.{Passed};

mod consistency;
mod records;
mod weighted;
mod weights;

use rcm::Framed;

#[derive(Clone, Copy)]
pub(crate) struct FilledFile<'a> {
    pub(crate) file: Framed<'a>,
    ghost passed: { Passed version_1 file.bytes.now 9 },
}
