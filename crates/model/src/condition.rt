ghost use Rattle.std.specs.Prelude.{Some};
ghost use Rattle.model.specs.Words.{word_of};

use std::fmt;

/// The condition of a program: there is none, it is on, or it is off.
#[derive(Clone, Copy, PartialEq, Eq)]
pub enum Condition {
    NoProgram,
    On,
    Off,
}

impl fmt::Display for Condition {
    ghost output = { λ condition. Some (word_of condition) };

    fn fmt<W: fmt::Write>(&self, f: &mut fmt::Formatter<W>) -> fmt::Result {
        f.write_str(match self {
            Condition::NoProgram => "none",
            Condition::On => "on",
            Condition::Off => "off",
        })
    }
}
