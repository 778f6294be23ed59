//! Prints the model in recall.rcm as text, or why the file is refused. Only reads and prints: the text is made by
//! `describe_file`.

#![tactic(auto)]

use description::describe_file;
use std::io::{ErrorKind, Read};
use std::{fs, io};

const MODEL: &str = "recall.rcm";

/// As much as it takes to tell that a file is too long.
const MOST: u64 = 65_537;

/// The first bytes of the file; none where there is no file.
fn model_bytes(rt: &HostRuntime) -> io::Result<Vec<u8>> {
    let mut bytes = Vec::new(rt.alloc());
    match fs::open(rt, MODEL) {
        Ok(file) => {
            file.take(MOST).read_to_end(&mut bytes)?;
            Ok(bytes)
        }
        Err(e) if e.kind() == ErrorKind::NotFound => Ok(bytes),
        Err(e) => Err(e),
    }
}

fn main(rt: HostRuntime) -> io::Result<()> {
    let bytes = model_bytes(&rt)?;
    let text = describe_file(rt.alloc(), &bytes)?;
    print!(rt; "{text}")
}
