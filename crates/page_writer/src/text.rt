//! How a page's text is made and read.
ghost use Rattle.std.specs.Prelude.{◌≡◌, ◌+◌, ◌≤◌, [], ◌++◌, length, IfOk, None};
ghost use Rattle.source.specs.Makes.{make_refusal_of};
ghost use Rattle.page_text.specs.Limits.{page_limit};
ghost use Rattle.page_writer.specs.Texts.{text_of};

use crate::PageText;
use page_text::limits::PAGE_LIMIT;
use refusal::MakeError;
use std::alloc::Global;

impl PageText {
    /// An empty text with room for the longest page. Refuses nothing; there may be no memory.
    pub fn new(heap: Global) -> Result<PageText, MakeError>
        ensures answer { make_refusal_of result ≡ None }
        ensures text { IfOk result (λ t. text_of t ≡ []) }
    {
        let bytes = Vec::with_capacity(heap, PAGE_LIMIT)?;
        Ok(PageText { bytes })
    }

    /// The bytes of the page.
    pub fn as_bytes(&self) -> &[u8]
        ensures { result.now ≡ text_of self.now }
    {
        self.bytes.as_slice()
    }

    /// Takes all bytes out.
    pub(crate) fn clear(&mut self)
        ensures { text_of self.new ≡ [] }
    {
        self.bytes.clear();
    }

    /// Adds bytes at the end.
    pub(crate) fn push(&mut self, more: &[u8])
        requires { length (text_of self.old) + length more.now ≤ page_limit }
        ensures text { text_of self.new ≡ text_of self.old ++ more.now }
        ensures longer { length (text_of self.new) ≡ length (text_of self.old) + length more.now }
    {
        let _ = self.bytes.extend_from_slice(more);
    }
}
