//! The three pages of a week: who may run where, and the priorities of both sides, of the number kind.
ghost use Rattle.std.specs.Prelude.{◌≡◌, ◌*◌, None, vec_len};
ghost use Rattle.refusal.specs.Limits.{side};
ghost use Rattle.source.specs.Makes.{make_refusal_of};
ghost use Rattle.pages.specs.Stages.{given};
ghost use Rattle.commands.specs.Pages.{read_week, week_of};

use grid::Grid;
use page_text::fault::{Fault, Page};
use pages::pair_pages::read_pairs;
use priority::number::Number;
use priority_pages::reading::read_priorities;
use priority_pages::room::PriorityRoom;
use refusal::MakeError;
use refusal::limits::SIDE;
use std::alloc::Global;

/// The bytes of a week's three pages.
#[derive(Clone, Copy)]
pub struct WeekBytes<'a> {
    pub pairs: &'a [u8],
    pub programmes: &'a [u8],
    pub slots: &'a [u8],
}

/// The room that reading a week takes, made before it is read.
#[derive(Drop)]
pub struct WeekRoom {
    pairs: Grid,
    programmes: PriorityRoom<Number>,
    slots: PriorityRoom<Number>,
    values: Vec<u16>,
    ghost room: { vec_len values ≡ 2 * side },
}

/// A week as it was read: its grid of pairs, and the priorities of both sides.
#[derive(Drop)]
pub struct WeekRead {
    pub pairs: Grid,
    pub programmes: Vec<Number>,
    pub slots: Vec<Number>,
}

impl WeekRoom {
    /// Room for the largest week. Refuses nothing; there may be no memory.
    pub fn new(heap: Global) -> Result<WeekRoom, MakeError>
        ensures answer { make_refusal_of result ≡ None }
    {
        Ok(WeekRoom {
            pairs: Grid::new(heap, 0, 0)?,
            programmes: PriorityRoom::new(heap)?,
            slots: PriorityRoom::new(heap)?,
            values: vec![in heap; 0u16; 2 * SIDE]?,
        })
    }
}

/// Reads the pages in their order; the first fault is told.
pub fn read_week(room: WeekRoom, bytes: &WeekBytes) -> Result<WeekRead, Fault>
    ensures { given week_of result ≡ read_week bytes.now.pairs.now bytes.now.programmes.now bytes.now.slots.now }
{
    let WeekRoom {
        mut pairs,
        programmes,
        slots,
        mut values,
    } = room;
    read_pairs(&mut pairs, Page::Pairs, bytes.pairs)?;
    let programmes = read_priorities(programmes, &mut values, Page::Programmes, bytes.programmes)?;
    let slots = read_priorities(slots, &mut values, Page::Slots, bytes.slots)?;
    Ok(WeekRead {
        pairs,
        programmes,
        slots,
    })
}
