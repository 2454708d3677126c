//! The words of a line, and the whole numbers that they write.
ghost use Rattle.std.specs.Prelude.{◌≡◌, Some, None, MatchOption};
ghost use Rattle.std.specs.Iterator.{YieldsFirstRef, item_count};
ghost use Rattle.page_text.specs.Bytes.{blank, words, following, whole as whole_of, numbers as numbers_of, alone};

/// A tab, a carriage return or a space.
fn is_blank(byte: u8) -> bool
    ensures { result ≡ blank byte }
{
    matches!(byte, b'\t' | b'\r' | b' ')
}

/// The words of what is left of a line.
#[derive(Clone, Copy, Drop)]
pub struct Words<'a> {
    pub rest: &'a [u8],
}

impl<'a> Words<'a> {
    /// The words of a line.
    pub fn of(line: &'a [u8]) -> Words<'a>
        ensures { result.rest.now ≡ line.now }
    {
        Words { rest: line }
    }
}

impl<'a> Iterator for Words<'a> {
    type Item = &'a [u8];

    ghost next_gives = { YieldsFirstRef (λ s. words s.rest.now) };

    ghost remaining = { item_count (λ s. words s.rest.now) };

    fn next(&mut self) -> Option<&'a [u8]> {
        let start = self.rest.iter().position(|byte| !is_blank(*byte))?;
        let text = &self.rest[start..];
        let blank = text.iter().position(|byte| is_blank(*byte));
        let (word, rest) = text.split_at(blank.unwrap_or(text.len()));
        self.rest = rest;
        Some(word)
    }
}

/// What follows the words of the name in a line that begins with them, or none.
pub fn after_name<'a>(line: &'a [u8], name: &[u8]) -> Option<&'a [u8]>
    ensures { MatchOption result (following (words name.now) (words line.now) ≡ None) (λ rest. following (words name.now) (words line.now) ≡ Some (words rest.now)) }
{
    let mut have = Words::of(line);
    for word in Words::of(name) {
        if have.next() != Some(word) {
            return None;
        }
    }
    Some(have.rest)
}

/// The whole number that a word of 1 to 9 digits writes.
fn whole(word: &[u8]) -> Option<u32>
    ensures { result ≡ whole_of word.now }
{
    if word.is_empty() || word.len() > 9 {
        return None;
    }
    let mut number: u32 = 0;
    for byte in word {
        if !byte.is_ascii_digit() {
            return None;
        }
        number = number * 10 + u32::from(*byte - b'0');
    }
    Some(number)
}

/// The whole numbers that the next K words write.
fn next_numbers<const K: usize>(text: &mut Words<'_>) -> Option<[u32; K]>
    ensures { numbers_of K (words text.old.rest.now) ≡ alone result (words text.new.rest.now) }
{
    let mut found = [0u32; K];
    for place in &mut found {
        *place = whole(text.next()?)?;
    }
    Some(found)
}

/// The numbers of a line that is K whole numbers and nothing else.
pub fn numbers<const K: usize>(line: &[u8]) -> Option<[u32; K]>
    ensures { result ≡ numbers_of K (words line.now) }
{
    let mut words = Words::of(line);
    let found = next_numbers::<K>(&mut words)?;
    words.next().is_none().then_some(found)
}
