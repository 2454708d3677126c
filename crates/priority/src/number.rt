//! The number kind: a whole number from 1 to 255, and 1 is highest.
ghost use Rattle.std.specs.Prelude.{◌≡◌, ◌≤◌, IfOk};
ghost use Rattle.refusal.specs.Refusals.{refusal_of, first_refusal};
ghost use Rattle.priority.specs.Kinds.{number_reaches, number_refusals};
ghost use Rattle.std.proofs.Common.{rules};

use crate::Priority;
use refusal::Refusal;

/// A priority from 1, the highest, to 255.
#[derive(Clone, Copy, PartialEq, Eq, Debug)]
pub struct Number {
    value: u8,
    ghost ranged: { 1 ≤ value },
}

impl Number {
    /// The priority of that number, or refusal 11 outside 1 to 255.
    pub fn new(value: u16) -> Result<Number, Refusal>
        ensures answer { refusal_of result ≡ first_refusal (number_refusals value) }
        ensures value { IfOk result (λ n. n.value ≡ value) }
    {
        if value == 0 || value > 255 {
            return Err(Refusal::ValueRange);
        }
        Ok(Number { value: value as u8 })
    }

    /// The number it was made from.
    pub fn value(&self) -> u16
        ensures { result ≡ self.now.value }
    {
        u16::from(self.value)
    }
}

impl Priority for Number {
    ghost reaches = { λ a b. number_reaches a.value b.value };

    ghost total = { Prim.search rules };

    ghost transitive = { Prim.search rules };

    fn at_least(&self, other: &Number) -> bool {
        self.value <= other.value
    }
}
