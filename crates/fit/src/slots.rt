//! A slot of the fit source.
ghost use Rattle.std.specs.Prelude.{◌≡◌, ◌<◌, ◌≤◌, IfOk};
ghost use Rattle.refusal.specs.Refusals.{refusal_of, first_refusal};
ghost use Rattle.fit.specs.Times.{day, slot_refusals};

use crate::times::DAY;
use refusal::Refusal;

/// A free slot: when it starts, in minutes after midnight, and how long it is.
#[derive(Clone, Copy)]
pub struct Slot {
    start: u16,
    length: u16,
    ghost range: { (start < day) × (1 ≤ length) × (length ≤ day) },
}

impl Slot {
    /// A slot that starts then and is so long. Refuses 11 unless the start is 0 to 1,439 and the length 1 to 1,440.
    pub fn new(start: u16, length: u16) -> Result<Slot, Refusal>
        ensures answer { refusal_of result ≡ first_refusal (slot_refusals start length) }
        ensures told { IfOk result (λ slot. (slot.start ≡ start) × (slot.length ≡ length)) }
    {
        if start >= DAY || !(1..=DAY).contains(&length) {
            return Err(Refusal::ValueRange);
        }
        Ok(Slot { start, length })
    }

    /// When the slot starts, in minutes after midnight.
    pub fn start(&self) -> u16
        ensures { result ≡ self.now.start }
    {
        self.start
    }

    /// How long the slot is, in minutes.
    pub fn length(&self) -> u16
        ensures { result ≡ self.now.length }
    {
        self.length
    }
}
