//! Loads a table: the file only if every check passes.

ghost use Rattle.std.specs.Prelude.{◌≡◌, [], MatchResult, MatchOption, IsSomeAnd, None};
ghost use Rattle.faults.specs.Causes.{layer as layer_of};
ghost use Rattle.rcm.specs.Format.{version_1};
ghost use Rattle.rcm.specs.Layout.{told, decoded};
ghost use Rattle.rcm.specs.Checks.{Sound, FirstFault, OneFirstFault};
ghost use Rattle.table.specs.Held.{held};

use crate::table::Table;
use checks::check;
use faults::LoadFault;

impl<'a> Table<'a> {
    /// A table with nothing. It is out of order.
    pub fn nothing() -> Table<'a>
        ensures { held result.file ≡ [] }
    {
        Table { file: None }
    }

    /// Loads a file exactly if no check fails. Else tells the first fault and its layer, and the table is as it was.
    pub fn load(&mut self, bytes: &'a [u8]) -> Result<(), LoadFault>
        ensures told { let b = bytes.now in
            MatchResult result
            (λ _. Sound version_1 b × (held self.new.file ≡ b)
            × (told version_1 (held self.new.file) ≡ decoded version_1 b))
            (λ f. (f.layer ≡ layer_of f.fault.cause)
            × FirstFault version_1 b f.fault.cause f.fault.«record» f.fault.byte
            × (self.new ≡ self.old)) }
        ensures one_first_fault { OneFirstFault version_1 }
    {
        self.file = Some(check(bytes)?);
        Ok(())
    }

    /// The bytes of the file that the table holds.
    pub fn bytes(&self) -> Option<&'a [u8]>
        ensures { MatchOption self.now.file (result ≡ None) (λ f. IsSomeAnd result (λ b. b.now ≡ f.bytes.now)) }
    {
        self.file.map(|file| file.bytes())
    }
}
