//! The table: a file that passed every check, or nothing. Its type carries the layout and the rules over the borrowed bytes,
//! so a question needs no test but whether there is a file, and of the range of its arguments.

ghost use Rattle.std.specs.Prelude.{IfSome};
ghost use Rattle.std.proofs.Props.{props};
ghost use Rattle.rcm.specs.Format.{version_1};
ghost use Rattle.rcm.specs.Checks.{Sound};

mod load;
mod model;

use rcm::Framed;

#[derive(Clone, Copy)]
pub struct Table<'a> {
    file: Option<Framed<'a>>,
    ghost kept: { IfSome file (λ f. Sound version_1 f.bytes.now) } by { Prim.hlevel props },
}
