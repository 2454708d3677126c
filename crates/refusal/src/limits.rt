//! How programmes and slots are numbered, and how many there may be.
ghost use Rattle.std.specs.Prelude.{◌≡◌};
ghost use Rattle.refusal.specs.Counting.{within};

/// The number of a programme or a slot, from 1; 0 stands for none.
pub type Num = u8;

/// The most programmes, and the most slots, of a week. `specs/Limits.antt` says it for the contracts.
pub const SIDE: usize = 200;

/// Whether the number is one of 1 to `count`.
pub fn is_within(count: usize, number: usize) -> bool
    ensures { result ≡ within count number }
{
    (1..=count).contains(&number)
}
