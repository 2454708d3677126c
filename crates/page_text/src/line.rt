//! What one line is: blank, a comment, text, or the header of a page.
ghost use Rattle.std.specs.Prelude.{◌≡◌, ◌<◌, ◌==◌, slice_index};
ghost use Rattle.page_text.specs.Bytes.{words};
ghost use Rattle.page_text.specs.Lines.{line_kind, alike, header_words, titled, header};

use crate::words::Words;

/// The kinds of line.
#[derive(Clone, Copy)]
pub enum LineKind {
    /// Nothing but blanks.
    Blank,
    /// A percent sign at the first byte.
    Comment,
    /// Anything else.
    Text,
}

/// The kinds of page.
#[derive(Clone, Copy)]
pub enum PageKind {
    /// Pairs of a row and a column.
    Pairs,
    /// A table of whole numbers.
    Table,
}

impl PageKind {
    /// The words of the header after the first.
    fn words(self) -> &'static [u8]
        ensures { result.now ≡ header_words self }
    {
        match self {
            PageKind::Pairs => b"matrix coordinate pattern general",
            PageKind::Table => b"matrix array integer general",
        }
    }
}

fn begins_with_percent(line: &[u8]) -> bool
    ensures { result ≡ (slice_index line.now 0 == 37) }
{
    line.starts_with(b"%")
}

/// The kind of a line.
pub fn line_kind(line: &[u8]) -> LineKind
    ensures { result ≡ line_kind line.now }
{
    if begins_with_percent(line) {
        LineKind::Comment
    } else if Words::of(line).next().is_none() {
        LineKind::Blank
    } else {
        LineKind::Text
    }
}

/// Whether both have the same words, in either case of letters.
fn same_words(have: &[u8], want: &[u8]) -> bool
    ensures { result ≡ alike (words have.now) (words want.now) }
{
    let mut have = Words::of(have);
    for word in Words::of(want) {
        if !have
            .next()
            .is_some_and(|other| other.eq_ignore_ascii_case(word))
        {
            return false;
        }
    }
    have.next().is_none()
}

/// Whether the first word is `%%MatrixMarket` and the others are those of this kind of page.
fn is_titled(line: &[u8], kind: PageKind) -> bool
    ensures { result ≡ titled (words (header_words kind)) (words line.now) }
{
    let mut words = Words::of(line);
    words.next() == Some(b"%%MatrixMarket".as_slice()) && same_words(words.rest, kind.words())
}

/// Whether the line is the header of a page of this kind.
pub fn is_header(line: &[u8], kind: PageKind) -> bool
    ensures { result ≡ header kind line.now }
{
    begins_with_percent(line) && is_titled(line, kind)
}
