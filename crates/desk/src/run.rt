//! A run: a new week, worked by any list of calls. Its promise is the theorem of the week.
ghost use Rattle.std.specs.Prelude.{◌≡◌, ◌+◌, ◌≤◌, length, is_err, IfOk, vec_len, vec_capacity, nat_lt};
ghost use Rattle.week.specs.Sheets.{plan_in, certificate_in};
ghost use Rattle.desk.specs.Moments.{meaning};
ghost use Rattle.desk.specs.Runs.{Stands, Worked, Ran};
ghost use Rattle.desk.specs.Desks.{moment_of};

use crate::calls::{Call, Served};
use crate::desks::Desk;
use crate::edits::EditKind;
use crate::standing::Standing;
use priority::Priority;
use source::PairSource;
use std::alloc::{AllocError, Global};
use week::Week;

/// A new week, and room for the answers of a list of calls. It is made beforehand, so that the run
/// itself wants no memory.
#[derive(Drop)]
pub struct NewWeek<P> {
    week: Week,
    programmes: Vec<P>,
    slots: Vec<P>,
    answers: Vec<Served>,
    ghost unplanned: { (length (plan_in week.sheet).slot_of ≡ 0) × (length (plan_in week.sheet).programme_in ≡ 0) },
    ghost unnamed: { length (certificate_in week.sheet) ≡ 0 },
    ghost nobody: { (vec_len programmes ≡ 0) × (vec_len slots ≡ 0) },
    ghost unanswered: { vec_len answers ≡ 0 },
}

/// The list of calls is longer than the room for their answers.
#[derive(Clone, Copy, PartialEq, Eq, Debug)]
pub struct TooManyCalls;

impl<P> NewWeek<P> {
    /// A new week, with room for that many answers.
    pub fn new(heap: Global, calls: usize) -> Result<NewWeek<P>, AllocError>
        ensures room { IfOk result (λ new. calls ≤ vec_capacity new.answers) }
    {
        let week = Week::new(heap)?;
        let answers = Vec::with_capacity(heap, calls)?;
        Ok(NewWeek {
            week,
            programmes: Vec::new(heap),
            slots: Vec::new(heap),
            answers,
        })
    }
}

/// Works the calls down from the desk, and adds what each was answered.
fn work<S: PairSource + Drop, P: Priority + Copy, E: EditKind<S, P> + Drop>(
    mut desk: Desk<S, P>,
    calls: Vec<Call<S, P, E>>,
    mut answers: Vec<Served>,
) -> Vec<Served>
    requires { (vec_len answers ≡ 0) × (vec_len calls ≤ vec_capacity answers) }
    ensures { Stands P.Priority.reaches (moment_of (meaning S.PairSource.pairs P.Priority.reaches E.EditKind.rules) desk) → Worked (meaning S.PairSource.pairs P.Priority.reaches E.EditKind.rules) (moment_of (meaning S.PairSource.pairs P.Priority.reaches E.EditKind.rules) desk) calls.items result.items }
{
    for call in calls {
        let (next, answer) = desk.serve(call);
        desk = next;
        answers.push_reserved(answer);
    }
    answers
}

/// Works the calls down from a new week, and tells what each was answered. Refuses only a list that is
/// longer than the room for its answers.
pub fn run<S: PairSource + Drop, P: Priority + Copy, E: EditKind<S, P> + Drop>(
    new: NewWeek<P>,
    calls: Vec<Call<S, P, E>>,
) -> Result<Vec<Served>, TooManyCalls>
    ensures answer { is_err result ≡ nat_lt (vec_capacity new.answers) (vec_len calls) }
    ensures ran { IfOk result (λ answers. Ran (meaning S.PairSource.pairs P.Priority.reaches E.EditKind.rules) calls.items answers.items) }
{
    let NewWeek {
        week,
        programmes,
        slots,
        answers,
    } = new;
    if answers.capacity() < calls.len() {
        return Err(TooManyCalls);
    }
    let desk = Desk {
        standing: Standing::Open(week),
        source: None,
        programmes,
        slots,
    };
    Ok(work(desk, calls, answers))
}
