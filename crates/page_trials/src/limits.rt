//! The longest line and page, and one byte more.
use crate::show::show_pairs;
use std::alloc::{AllocError, Global};
use std::io;

/// A page whose second line is a comment of that many bytes.
fn with_comment(heap: Global, length: usize) -> Result<Vec<u8>, AllocError> {
    let mut page = b"%%MatrixMarket matrix coordinate pattern general\n%".to_vec(heap)?;
    let end = page.len().saturating_add(length.saturating_sub(1));
    page.resize(end, b'x')?;
    page.extend_from_slice(b"\n2 1 0\n")?;
    Ok(page)
}

/// A page of that many bytes: blank lines follow its size line.
fn of_length(heap: Global, length: usize) -> Result<Vec<u8>, AllocError> {
    let mut page = b"%%MatrixMarket matrix coordinate pattern general\n2 1 0\n".to_vec(heap)?;
    page.resize(length, b'\n')?;
    Ok(page)
}

fn show(rt: &HostRuntime, case: &str, page: Result<Vec<u8>, AllocError>) -> io::Result<()> {
    match page {
        Ok(page) => show_pairs(rt, case, &page),
        Err(_) => println!(rt; "{case}: no memory"),
    }
}

pub(crate) fn limits(rt: &HostRuntime) -> io::Result<()> {
    show(rt, "line of 1,024 bytes", with_comment(rt.alloc(), 1_024))?;
    show(rt, "line of 1,025 bytes", with_comment(rt.alloc(), 1_025))?;
    show(rt, "page of 65,536 bytes", of_length(rt.alloc(), 65_536))?;
    show(rt, "page of 65,537 bytes", of_length(rt.alloc(), 65_537))
}
