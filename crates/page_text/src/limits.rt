//! How long a page and a line may be. `specs/Limits.antt` says it for the contracts.

/// The most bytes of a page.
pub const PAGE_LIMIT: usize = 65_536;

/// The most bytes of a line, its line feed not counted.
pub const LINE_LIMIT: usize = 1_024;
