//! The pages of a week in a folder, as the programs read them, and the text that they write.
#![tactic(auto)]

ghost use Rattle.std.specs.Prelude.{◌≡◌, true, [], is_err, MatchResult};

use anyhow::anyhow;
use commands::week_pages::WeekBytes;
use page_text::fault::Page;
use page_writer::PageText;
use std::alloc::Global;
use std::io::Write;
use std::{env, fs, io};

/// What was read of a file, or an empty page where there is none.
fn page_or_empty(heap: Global, read: io::Result<Vec<u8>>) -> Vec<u8>
    ensures { MatchResult read (λ bytes. result ≡ bytes) (λ _. result.items ≡ []) }
{
    read.unwrap_or_else(|_| Vec::new(heap))
}

/// The bytes of the page in the folder; a missing file is an empty page.
pub fn read_page(rt: &HostRuntime, folder: &str, page: Page) -> anyhow::Result<Vec<u8>> {
    let name = page.file_name();
    let path = format!(in rt.alloc(); "{folder}/{name}")?;
    let read = fs::read(rt, path.as_str());
    Ok(page_or_empty(rt.alloc(), read))
}

/// The folder that a program's argument names, or else the one it is run in.
pub fn folder_argument(rt: &HostRuntime) -> anyhow::Result<String> {
    match env::args(rt)?.nth(1) {
        Some(folder) => Ok(folder),
        None => Ok(String::from_str(rt.alloc(), ".")?),
    }
}

/// The three pages of a week.
#[derive(Drop)]
pub struct WeekFiles {
    pairs: Vec<u8>,
    programmes: Vec<u8>,
    slots: Vec<u8>,
}

impl WeekFiles {
    /// Reads the pages in the folder.
    pub fn read(rt: &HostRuntime, folder: &str) -> anyhow::Result<WeekFiles> {
        Ok(WeekFiles {
            pairs: read_page(rt, folder, Page::Pairs)?,
            programmes: read_page(rt, folder, Page::Programmes)?,
            slots: read_page(rt, folder, Page::Slots)?,
        })
    }

    /// Their bytes.
    pub fn bytes(&self) -> WeekBytes<'_>
        ensures pairs { result.pairs.now ≡ self.now.pairs.items }
        ensures programmes { result.programmes.now ≡ self.now.programmes.items }
        ensures slots { result.slots.now ≡ self.now.slots.items }
    {
        WeekBytes {
            pairs: &self.pairs,
            programmes: &self.programmes,
            slots: &self.slots,
        }
    }
}

/// Writes a program's text. The program ends with status 1 where it is the line of a refusal.
pub fn write_answer(rt: &HostRuntime, answer: &Result<PageText, PageText>) -> anyhow::Result<()>
    ensures { is_err answer.now ≡ true → is_err result ≡ true }
{
    let (Ok(text) | Err(text)) = answer;
    rt.stdout().write_all(text.as_bytes())?;
    if answer.is_err() {
        return Err(anyhow!("refused"));
    }
    Ok(())
}
