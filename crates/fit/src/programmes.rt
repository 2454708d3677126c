//! A programme of the fit source.
ghost use Rattle.std.specs.Prelude.{◌≡◌, ◌≤◌, IfOk, nat_eq};
ghost use Rattle.refusal.specs.Refusals.{refusal_of, first_refusal};
ghost use Rattle.fit.specs.Times.{day, programme_refusals};

use crate::times::DAY;
use refusal::Refusal;

/// A recorded programme: its length in minutes, and whether it may run in late hours only.
#[derive(Clone, Copy)]
pub struct Programme {
    length: u16,
    late: bool,
    ghost range: { (1 ≤ length) × (length ≤ day) },
}

impl Programme {
    /// A programme of this length, for late hours only when the mark is 1.
    /// Refuses 11 unless the length is 1 to 1,440 and the mark 0 or 1.
    pub fn new(length: u16, late_mark: u16) -> Result<Programme, Refusal>
        ensures answer { refusal_of result ≡ first_refusal (programme_refusals length late_mark) }
        ensures told { IfOk result (λ programme. (programme.length ≡ length) × (programme.late ≡ nat_eq late_mark 1)) }
    {
        if !(1..=DAY).contains(&length) || late_mark > 1 {
            return Err(Refusal::ValueRange);
        }
        Ok(Programme {
            length,
            late: late_mark == 1,
        })
    }

    /// How long the programme is, in minutes.
    pub fn length(&self) -> u16
        ensures { result ≡ self.now.length }
    {
        self.length
    }

    /// Whether the programme may run in late hours only.
    pub fn is_late(&self) -> bool
        ensures { result ≡ self.now.late }
    {
        self.late
    }
}
