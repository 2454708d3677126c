//! The house kind: a class from 0 to 3 and the weeks waited, 0 to 520. The lower class is higher,
//! and within a class the longer wait.
ghost use Rattle.std.specs.Prelude.{◌≡◌, ◌≤◌, IfOk};
ghost use Rattle.refusal.specs.Refusals.{refusal_of, first_refusal};
ghost use Rattle.priority.specs.Kinds.{house_reaches, house_refusals};
ghost use Rattle.std.proofs.Common.{rules};

use crate::Priority;
use refusal::Refusal;

/// A class and the weeks waited in it.
#[derive(Clone, Copy, PartialEq, Eq, Debug)]
pub struct House {
    class: u8,
    weeks: u16,
    ghost class_ranged: { class ≤ 3 },
    ghost weeks_ranged: { weeks ≤ 520 },
}

impl House {
    /// The priority of that class and wait, or refusal 11 outside 0 to 3 and 0 to 520.
    pub fn new(class: u16, weeks: u16) -> Result<House, Refusal>
        ensures answer { refusal_of result ≡ first_refusal (house_refusals class weeks) }
        ensures value { IfOk result (λ h. (h.class ≡ class) × (h.weeks ≡ weeks)) }
    {
        if class > 3 || weeks > 520 {
            return Err(Refusal::ValueRange);
        }
        Ok(House {
            class: class as u8,
            weeks,
        })
    }

    /// The class it was made from.
    pub fn class(&self) -> u16
        ensures { result ≡ self.now.class }
    {
        u16::from(self.class)
    }

    /// The weeks it was made from.
    pub fn weeks(&self) -> u16
        ensures { result ≡ self.now.weeks }
    {
        self.weeks
    }
}

impl Priority for House {
    ghost reaches = { λ a b. house_reaches a.class a.weeks b.class b.weeks };

    ghost total = { Prim.search rules };

    ghost transitive = { Prim.search rules };

    fn at_least(&self, other: &House) -> bool {
        self.class < other.class || (self.class == other.class && self.weeks >= other.weeks)
    }
}
