//! How a desk serves the calls of its week.
ghost use Rattle.std.specs.Prelude.{◌≡◌};
ghost use Rattle.desk.specs.Moments.{meaning};
ghost use Rattle.desk.specs.Desks.{Step};

use crate::calls::{Answer, Call, Question, Served, Unserved};
use crate::desks::Desk;
use crate::edits::EditKind;
use crate::lending::{ask_week, edit_week, load_week, write_page};
use crate::standing::Standing;
use filing::Wanted;
use page_writer::PageText;
use priority::Priority;
use source::PairSource;

impl<S: PairSource + Drop, P: Priority + Copy> Desk<S, P> {
    /// An edit, which only an open week offers.
    fn edit<E: EditKind<S, P> + Drop>(&mut self, edit: E) -> Served
        ensures { Step (meaning S.PairSource.pairs P.Priority.reaches E.EditKind.rules) self.old (Call.Edit edit) result self.new }
    {
        let Standing::Open(week) = &mut self.standing else {
            return Err(Unserved::NotOffered);
        };
        edit_week(
            edit,
            week,
            &mut self.source,
            &mut self.programmes,
            &mut self.slots,
        )?;
        Ok(Answer::Done)
    }

    /// A load, which only an open week offers. The kind of edits E says what the ledger enters as possible.
    fn load<E: EditKind<S, P>>(
        &mut self,
        source: S,
        mut programmes: Vec<P>,
        mut slots: Vec<P>,
    ) -> Served
        ensures { Step (meaning S.PairSource.pairs P.Priority.reaches E.EditKind.rules) self.old (Call.Load source programmes slots) result self.new }
    {
        let Standing::Open(week) = &mut self.standing else {
            return Err(Unserved::NotOffered);
        };
        load_week(week, &source, &mut programmes, &mut slots)?;
        self.source = Some(source);
        self.programmes = programmes;
        self.slots = slots;
        Ok(Answer::Done)
    }

    /// A question, which every week offers.
    fn ask<E: EditKind<S, P>>(&mut self, question: Question<P>) -> Served
        ensures { Step (meaning S.PairSource.pairs P.Priority.reaches E.EditKind.rules) self.old (Call.Ask question) result self.new }
    {
        ask_week(
            &self.standing,
            &self.source,
            &mut self.programmes,
            &mut self.slots,
            question,
        )
    }

    /// A page, which only a week that is handed over offers.
    fn write<E: EditKind<S, P>>(&mut self, wanted: Wanted, text: PageText) -> Served
        ensures { Step (meaning S.PairSource.pairs P.Priority.reaches E.EditKind.rules) self.old (Call.Write wanted text) result self.new }
    {
        let Standing::HandedOver(week) = &self.standing else {
            return Err(Unserved::NotOffered);
        };
        write_page(
            week,
            &self.source,
            &mut self.programmes,
            &mut self.slots,
            wanted,
            text,
        )
    }

    /// Hands an open week over.
    fn hand_over<E: EditKind<S, P>>(self) -> (Desk<S, P>, Served)
        ensures { Step (meaning S.PairSource.pairs P.Priority.reaches E.EditKind.rules) self Call.HandOver result.1 result.0 }
    {
        let (standing, served) = self.standing.hand_over();
        (Desk { standing, ..self }, served)
    }

    /// Reopens a week that is handed over.
    fn reopen<E: EditKind<S, P>>(self) -> (Desk<S, P>, Served)
        ensures { Step (meaning S.PairSource.pairs P.Priority.reaches E.EditKind.rules) self Call.Reopen result.1 result.0 }
    {
        let (standing, served) = self.standing.reopen();
        (Desk { standing, ..self }, served)
    }

    /// Works a call. The desk comes back with what the call came to.
    pub(crate) fn serve<E: EditKind<S, P> + Drop>(
        mut self,
        call: Call<S, P, E>,
    ) -> (Desk<S, P>, Served)
        ensures { Step (meaning S.PairSource.pairs P.Priority.reaches E.EditKind.rules) self call result.1 result.0 }
    {
        let served = match call {
            Call::Load(source, programmes, slots) => self.load::<E>(source, programmes, slots),
            Call::Edit(edit) => self.edit(edit),
            Call::Ask(question) => self.ask::<E>(question),
            Call::Write(wanted, text) => self.write::<E>(wanted, text),
            Call::HandOver => return self.hand_over::<E>(),
            Call::Reopen => return self.reopen::<E>(),
        };
        (self, served)
    }
}
