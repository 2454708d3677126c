//! The five pages of a filed week: its three pages, then its plan and its certificate.
ghost use Rattle.std.specs.Prelude.{◌≡◌, ◌*◌, None, vec_len};
ghost use Rattle.refusal.specs.Limits.{side};
ghost use Rattle.source.specs.Makes.{make_refusal_of};
ghost use Rattle.pages.specs.Stages.{given};
ghost use Rattle.commands.specs.Pages.{read_filed, filed_of};

use crate::week_pages::{WeekBytes, WeekRead, WeekRoom, read_week};
use grid::Grid;
use page_text::fault::{Fault, Page};
use pages::pair_pages::read_pairs;
use pages::table_pages::{Columns, read_table};
use refusal::MakeError;
use refusal::limits::SIDE;
use std::alloc::Global;

/// The bytes of a filed week's five pages.
#[derive(Clone, Copy)]
pub struct FiledBytes<'a> {
    pub week: WeekBytes<'a>,
    pub plan: &'a [u8],
    pub proof: &'a [u8],
}

/// The room that reading a filed week takes, made before it is read.
#[derive(Drop)]
pub struct FiledRoom {
    week: WeekRoom,
    plan: Grid,
    entries: Vec<u16>,
    ghost room: { vec_len entries ≡ 2 * side },
}

/// A filed week as it was read: the week, the pairs of its plan, and the entries of its certificate.
#[derive(Drop)]
pub struct FiledRead {
    pub week: WeekRead,
    pub plan: Grid,
    pub entries: Vec<u16>,
}

impl FiledRoom {
    /// Room for the largest filed week. Refuses nothing; there may be no memory.
    pub fn new(heap: Global) -> Result<FiledRoom, MakeError>
        ensures answer { make_refusal_of result ≡ None }
    {
        Ok(FiledRoom {
            week: WeekRoom::new(heap)?,
            plan: Grid::new(heap, 0, 0)?,
            entries: vec![in heap; 0u16; 2 * SIDE]?,
        })
    }
}

/// Reads the pages in their order; the first fault is told.
pub fn read_filed(room: FiledRoom, bytes: &FiledBytes) -> Result<FiledRead, Fault>
    ensures { given filed_of result ≡ read_filed bytes.now.week.pairs.now bytes.now.week.programmes.now bytes.now.week.slots.now bytes.now.plan.now bytes.now.proof.now }
{
    let FiledRoom {
        week,
        mut plan,
        mut entries,
    } = room;
    let week = read_week(week, &bytes.week)?;
    read_pairs(&mut plan, Page::Plan, bytes.plan)?;
    let rows = read_table(&mut entries, Columns::One, Page::Proof, bytes.proof)?;
    entries.truncate(rows);
    Ok(FiledRead {
        week,
        plan,
        entries,
    })
}
