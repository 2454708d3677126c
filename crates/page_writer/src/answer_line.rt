//! The line that a program writes in place of a page: a verdict, or a refusal.
ghost use Rattle.std.specs.Prelude.{◌≡◌, ◌≤◌, [], length};
ghost use Rattle.refusal.specs.Refusals.{number_of};
ghost use Rattle.page_writer.specs.declared.answer_line.Declined.TheVariants.{Page, Week};
ghost use Rattle.page_writer.specs.Texts.{text_of, texts_of};
ghost use Rattle.page_writer.specs.AnswerLines.{line_at, refusal_line, verdict_line, answer_line, answer_lines};

use crate::PageText;
use page_text::fault::Fault;
use refusal::Refusal;

/// Why a program refuses: for a page, or for the week as a whole.
#[derive(Clone, Copy)]
pub enum Declined {
    /// A page is refused, at a line.
    Page(Fault),
    /// The pages are in order, but not together.
    Week(Refusal),
}

impl From<Fault> for Declined {
    ghost from_gives = { λ fault declined. declined ≡ Page fault };

    fn from(fault: Fault) -> Declined {
        Self::Page(fault)
    }
}

impl From<Refusal> for Declined {
    ghost from_gives = { λ refusal declined. declined ≡ Week refusal };

    fn from(refusal: Refusal) -> Declined {
        Self::Week(refusal)
    }
}

impl PageText {
    /// Writes the line of a refusal that belongs to that page and line, into an empty text.
    #[tactic(auto, using(crate::proofs::Digits::decimal_fits))]
    fn put_refusal(&mut self, refusal: Refusal, page: &str, line: usize)
        requires empty { text_of self.old ≡ [] }
        requires short { length page.now ≤ 100 }
        ensures { text_of self.new ≡ line_at (number_of refusal) page.now line }
    {
        self.push(b"refused ");
        self.push_number(refusal.number() as usize);
        self.push(b" ");
        self.push(page.as_bytes());
        self.push(b" ");
        self.push_number(line);
        self.push(b"\n");
    }

    /// Writes the line of a refusal: `refused NUMBER PAGE LINE`, with `week 0` for a refusal of no page.
    pub fn write_refusal(&mut self, declined: Declined)
        ensures { text_of self.new ≡ refusal_line declined }
    {
        self.clear();
        match declined {
            Declined::Page(fault) => {
                self.put_refusal(fault.refusal, fault.page.file_name(), fault.line)
            }
            Declined::Week(refusal) => self.put_refusal(refusal, "week", 0),
        }
    }

    /// Writes the line of a verdict: `accepted` or `rejected`.
    pub fn write_verdict(&mut self, accepted: bool)
        ensures { text_of self.new ≡ verdict_line accepted }
    {
        self.clear();
        if accepted {
            self.push(b"accepted\n");
        } else {
            self.push(b"rejected\n");
        }
    }

    /// Writes the line of what a program was told: a verdict, or a refusal.
    pub fn write_answer(&mut self, judged: Result<bool, Declined>)
        ensures { text_of self.new ≡ answer_line judged }
    {
        match judged {
            Ok(accepted) => self.write_verdict(accepted),
            Err(declined) => self.write_refusal(declined),
        }
    }

    /// The text with the line of a refusal in place of what it held.
    pub fn refusal(mut self, declined: Declined) -> PageText
        ensures { text_of result ≡ refusal_line declined }
    {
        self.write_refusal(declined);
        self
    }

    /// The text with the line of a verdict in place of what it held, or with the line of the refusal.
    pub fn answer(mut self, judged: Result<bool, Declined>) -> Result<PageText, PageText>
        ensures { texts_of result ≡ answer_lines judged }
    {
        self.write_answer(judged);
        if judged.is_ok() { Ok(self) } else { Err(self) }
    }
}
