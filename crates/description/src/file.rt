//! The model that a table file means, as text, or why the file is refused.

ghost use Rattle.std.specs.Prelude.{IfOk, string_bytes};
ghost use Rattle.description.specs.Files.{Reported};

use crate::model::describe;
use std::alloc::{AllocError, Global};
use table::Table;

/// The text that describes the model of a file, or the line of its refusal; an error only for want of memory.
pub fn describe_file(heap: Global, bytes: &[u8]) -> Result<String, AllocError>
    ensures { IfOk result (λ text. Reported bytes.now (string_bytes text)) }
{
    let mut table = Table::nothing();
    match table.load(bytes) {
        Ok(()) => describe(heap, &table),
        Err(fault) => format!(in heap; "{fault}\n"),
    }
}
