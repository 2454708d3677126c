//! Working a session's calls, and telling what each line is answered.
use crate::session::Session;
use anyhow::anyhow;
use desk::calls::{Answer, Served};
use desk::run::{NewWeek, run};
use desk_text::answers::{answer_text, unread_text};
use std::io::Write;

/// Writes what the call of that line is answered.
fn tell_answer(rt: &HostRuntime, line: usize, answer: &Served) -> anyhow::Result<()> {
    let text = answer_text(rt.alloc(), answer)?;
    println!(rt; "{line}: {text}")?;
    if let Ok(Answer::Page(page)) = answer {
        rt.stdout().write_all(page.as_bytes())?;
    }
    Ok(())
}

/// Works the calls of the session, and writes what the load and each line are answered.
pub fn tell(rt: &HostRuntime, session: Session) -> anyhow::Result<()> {
    let Session { calls, notes, .. } = session;
    let new = NewWeek::new(rt.alloc(), calls.len())?;
    let Ok(answers) = run(new, calls) else {
        return Err(anyhow!("more calls than answers"));
    };
    let mut answers = answers.iter();
    if let Some(load) = answers.next() {
        let text = answer_text(rt.alloc(), load)?;
        println!(rt; "load: {text}")?;
    }
    for note in &notes {
        let line = note.line;
        match note.call {
            Ok(()) => {
                if let Some(answer) = answers.next() {
                    tell_answer(rt, line, answer)?;
                }
            }
            Err(unread) => {
                let text = unread_text(rt.alloc(), unread)?;
                println!(rt; "{line}: {text}")?;
            }
        }
    }
    Ok(())
}
