//! Priorities: what it takes to be one, the station's two kinds, and rankings of any kind.
#![tactic(auto)]

ghost use Rattle.std.specs.Prelude.{◌≡◌, Bool, true, ◌||◌};

pub mod house;
pub mod number;
pub mod places;
pub mod ranking;
#[cfg(test)]
mod tests;

/// A kind of priority: a sort of value with one question, which keeps two laws.
pub trait Priority: Sized {
    /// The first is at least as high as the second.
    ghost reaches: { Self → Self → Bool };

    /// Whether this priority is at least as high as the other.
    fn at_least(&self, other: &Self) -> bool
        ensures { result ≡ reaches self.now other.now };

    // Of any two values one is at least as high as the other.
    ghost total: { (a b : Self) → (reaches a b || reaches b a) ≡ true };

    // What is at least as high as b is at least as high as all that b is at least as high as.
    ghost transitive: { (a b c : Self) → reaches a b ≡ true → reaches b c ≡ true → reaches a c ≡ true };
}
