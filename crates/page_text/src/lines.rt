//! The lines of a page.
ghost use Rattle.std.specs.Prelude.{◌≡◌, ◌<◌, length, OnSome};
ghost use Rattle.std.specs.Iterator.{YieldsFirstRef, item_count};
ghost use Rattle.page_text.specs.Lines.{lines};

/// The lines of what is left of a page, each without its line feed.
#[derive(Clone, Copy, Drop)]
pub struct Lines<'a> {
    pub rest: &'a [u8],
}

impl<'a> Lines<'a> {
    /// The lines of a page.
    pub fn of(page: &'a [u8]) -> Lines<'a>
        ensures { result.rest.now ≡ page.now }
    {
        Lines { rest: page }
    }
}

impl<'a> Iterator for Lines<'a> {
    type Item = &'a [u8];

    ghost next_gives = { λ s r t. YieldsFirstRef (λ p. lines p.rest.now) s r t × OnSome r (length t.rest.now < length s.rest.now) };

    ghost remaining = { item_count (λ s. lines s.rest.now) };

    fn next(&mut self) -> Option<&'a [u8]> {
        if self.rest.is_empty() {
            return None;
        }
        let feed = self.rest.iter().position(|byte| *byte == b'\n');
        let (line, rest) = self.rest.split_at(feed.unwrap_or(self.rest.len()));
        self.rest = rest.get(1..).unwrap_or(rest);
        Some(line)
    }
}
