//! An operator's lines, taken down one by one: the calls to be worked, and what is to be told for each line.
use commands::week_pages::WeekRead;
use desk::calls::Call;
use desk_text::calling::{OperatorCall, call_of};
use desk_text::commands::Unread;
use desk_text::reading::read_order;
use grid::Grid;
use page_text::lines::Lines;
use source::PairSource;
use std::alloc::{AllocError, Global};

/// What is told for a line.
#[derive(Drop)]
pub struct Note {
    /// The number of the line.
    pub line: usize,
    /// What the next of the calls is answered, or why no call is made for the line.
    pub call: Result<(), Unread>,
}

/// The calls to be worked, the first of which loads the week, and what is to be told for each line.
#[derive(Drop)]
pub struct Session {
    pub calls: Vec<OperatorCall<Grid>>,
    pub notes: Vec<Note>,
    places: usize,
}

/// How many entries the certificate of the week has: none where the load will be refused.
fn entries_of(week: &WeekRead) -> usize {
    let programmes = week.pairs.programmes() as usize;
    let slots = week.pairs.slots() as usize;
    if week.programmes.len() == programmes && week.slots.len() == slots {
        programmes + slots
    } else {
        0
    }
}

impl Session {
    /// A session that loads the week.
    pub fn new(heap: Global, week: WeekRead) -> Result<Session, AllocError> {
        let places = entries_of(&week);
        let WeekRead {
            pairs,
            programmes,
            slots,
        } = week;
        let mut calls = Vec::new(heap);
        calls.push(Call::Load(pairs, programmes, slots))?;
        Ok(Session {
            calls,
            notes: Vec::new(heap),
            places,
        })
    }

    /// Takes the line of that number down.
    fn take_line(&mut self, heap: Global, number: usize, line: &[u8]) -> Result<(), AllocError> {
        let order = read_order(line);
        if let Ok(Some(command)) = order {
            self.calls.push(call_of(heap, command, self.places)?)?;
        }
        if !matches!(order, Ok(None)) {
            self.notes.push(Note {
                line: number,
                call: order.map(|_| ()),
            })?;
        }
        Ok(())
    }

    /// Takes all lines of a text down.
    pub fn take(&mut self, heap: Global, text: &[u8]) -> Result<(), AllocError> {
        for (number, line) in (1..).zip(Lines::of(text)) {
            self.take_line(heap, number, line)?;
        }
        Ok(())
    }
}
