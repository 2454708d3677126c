//! Pages of pairs, read into a grid.
ghost use Rattle.std.specs.Prelude.{◌≡◌, ◌^◌};
ghost use Rattle.source.specs.Pairs.{Pairs};
ghost use Rattle.grid.specs.GridPairs.{grid_pairs};
ghost use Rattle.pages.specs.Stages.{given};
ghost use Rattle.pages.specs.PairPages.{pair_format, read_pairs, pairs_left};
ghost use Rattle.pages.specs.PageLaws.{ReadsPairs, FirstFault};

use crate::content::{Content, read_into};
use grid::Grid;
use page_text::fault::{Fault, Page};
use page_text::line::PageKind;
use page_text::words::numbers;
use refusal::Refusal;
use refusal::limits::Num;
use source::OpenSource;

impl Content for Grid {
    ghost Shown = { Pairs };

    ghost shown = { grid_pairs };

    ghost Fixed = { Unit {0} };

    ghost fixed = { λ _. tt };

    ghost format = { λ _. pair_format };

    ghost room = { λ _. 2 ^ 64 };

    fn kind(&self) -> PageKind {
        PageKind::Pairs
    }

    fn clear(&mut self) {
        let _ = self.reset(0, 0);
    }

    fn take_size(&mut self, line: &[u8]) -> Result<usize, Refusal> {
        let sizes = numbers::<3>(line).ok_or(Refusal::SizeLine)?;
        let [rows, columns, entries] = sizes.map(|number| number as usize);
        if entries > rows * columns {
            return Err(Refusal::SizeLimit);
        }
        self.reset(rows, columns).map_err(|_| Refusal::SizeLimit)?;
        Ok(entries)
    }

    fn take_entry(&mut self, line: &[u8]) -> Result<(), Refusal> {
        let [row, column] = numbers::<2>(line).ok_or(Refusal::EntryLine)?;
        if !self.is_inside(row as usize, column as usize) {
            return Err(Refusal::EntryRange);
        }
        self.lift(row as Num, column as Num)
            .map_err(|_| Refusal::PairTwice)
    }
}

/// Reads a page of pairs into the grid. After a refusal the grid is 0 by 0.
pub fn read_pairs(grid: &mut Grid, page: Page, bytes: &[u8]) -> Result<(), Fault>
    ensures answer { given (λ _. grid_pairs grid.new) result ≡ read_pairs page bytes.now }
    ensures after { grid_pairs grid.new ≡ pairs_left (read_pairs page bytes.now) }
    ensures entries { ReadsPairs bytes.now (given (λ _. grid_pairs grid.new) result) }
    ensures first { FirstFault pair_format page bytes.now result }
{
    read_into(grid, page, bytes)
}
