//! A section of a file: records of one kind, checked one after another.

ghost use Rattle.std.specs.Prelude.{◌≡◌, ℕ, ◌+◌, ◌<◌, ◌≤◌, ◌↔◌, List};
ghost use Rattle.faults.specs.declared.Place.{Place};
ghost use Rattle.faults.specs.Causes.{cause as cause_of};
ghost use Rattle.rcm.specs.Format.{version_1};
ghost use Rattle.rcm.specs.Layout.{sum_below};
ghost use Rattle.rcm.specs.Checks.{Fails, Broken};
ghost use Rattle.rcm.specs.Checking.{RecordChecked, Checked, Holds};
ghost use Rattle.checks.specs.Contents.{bytes_of};

use faults::{FieldFault, RecordFault};
use rcm::Framed;

/// A kind of record, by what the bytes of a file say of its section.
pub(crate) trait Section {
    /// The fields that have a rule, where each stands in a record, and the rules of a record.
    ghost Part: { Type 0 };

    ghost offset: { Part → ℕ };

    ghost rule: { List ℕ → ℕ → Part → Type 0 };

    /// The number of records, the first byte of each, and how many records of the next section each has.
    ghost size: { List ℕ → ℕ };

    ghost first_byte: { List ℕ → ℕ → ℕ };

    ghost owned: { List ℕ → ℕ → ℕ };

    /// What a fault of a field tells of where it stands.
    ghost place: { Place };

    /// The number of records.
    fn size(file: &Framed) -> u16
        ensures { result ≡ size (bytes_of file.now) };

    /// Checks the fields of a record, which comes after so many records of the next section. Gives how many it has.
    fn check(file: &Framed, i: u32, before: u32) -> Result<u32, FieldFault>
        requires known { i < size (bytes_of file.now) }
        requires placed { before ≡ sum_below (owned (bytes_of file.now)) i }
        ensures { let b = bytes_of file.now in
            RecordChecked place i (first_byte b i) offset (rule b i) (λ n. (n ≡ owned b i) × (n ≤ 255)) result };

    /// The records do not overlap.
    ghost apart: { (b : List ℕ) (i j : ℕ) (p : Part) → i < j → first_byte b i + offset p < first_byte b j };

    /// A broken rule is a fault of the section's cause, and there is no other.
    ghost fails: { (b : List ℕ) (i k : ℕ) → Fails version_1 b (cause_of place) i k ↔ Broken (size b) (first_byte b) offset (rule b) i k };
}

/// Checks the records of a section. Gives how many records of the next section they have.
pub(crate) fn check_section<S: Section>(file: &Framed) -> Result<u32, RecordFault>
    ensures { let b = bytes_of file.now in
        Checked version_1 b (cause_of S.place) (λ n. (n ≡ sum_below (S.owned b) (S.size b)) × Holds (S.size b) (S.rule b)) result }
{
    let mut before = 0;
    for i in 0..u32::from(S::size(file)) {
        before += S::check(file, i, before)?;
    }
    Ok(before)
}
