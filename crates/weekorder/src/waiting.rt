//! Reading a waiting list: one programme a line, its class and the weeks it has waited.
ghost use Rattle.std.specs.Prelude.{◌≡◌, min, IfOk};
ghost use Rattle.refusal.specs.Refusals.{refusal_of};
ghost use Rattle.page_text.specs.Bytes.{words, numbers as numbers_of};
ghost use Rattle.weekorder.specs.Waiting.{line_refusal, line_value};

use page_text::words::numbers;
use priority::house::House;
use refusal::Refusal;
use refusal::limits::SIDE;
use std::io;

/// Why a list is refused, and at which line.
#[derive(Clone, Copy)]
pub struct Fault {
    pub refusal: Refusal,
    pub line: usize,
}

/// The number in 16 bits. One beyond them is beyond every range, as 65,535 is.
fn narrow(number: u32) -> u16
    ensures { result ≡ min number 65535 }
{
    u16::try_from(number).unwrap_or(u16::MAX)
}

/// The priority that a line gives: two whole numbers, or refusal 6, in the ranges of the house kind,
/// or refusal 11.
fn priority_of(line: &[u8]) -> Result<House, Refusal>
    ensures answer { refusal_of result ≡ line_refusal (numbers_of 2 (words line.now)) }
    ensures value { IfOk result (λ house. (house.class, house.weeks) ≡ line_value (numbers_of 2 (words line.now))) }
{
    let [class, weeks] = numbers::<2>(line).ok_or(Refusal::EntryLine)?;
    House::new(narrow(class), narrow(weeks))
}

/// The list on standard input, or the fault of its first faulty line.
pub fn read_list<R: Input + AllocGlobal>(rt: &R) -> anyhow::Result<Result<Vec<House>, Fault>> {
    let mut list = Vec::new(rt.alloc());
    for line in rt.lines(rt.alloc()) {
        let text = line?;
        let number = list.len() + 1;
        if list.len() >= SIDE {
            return Ok(Err(Fault {
                refusal: Refusal::Mismatch,
                line: number,
            }));
        }
        match priority_of(text.as_bytes()) {
            Ok(priority) => list.push(priority)?,
            Err(refusal) => return Ok(Err(Fault {
                refusal,
                line: number,
            })),
        }
    }
    Ok(Ok(list))
}

#[cfg(test)]
mod tests {
    use super::*;

    fn refused(line: &str) -> u8 {
        let refusal = priority_of(line.as_bytes()).err();
        refusal.map_or(0, |refusal| refusal.number())
    }

    #[test]
    fn lines_are_taken_or_refused(rt: HostRuntime) {
        assert_eq!(rt; refused(" 3\t520 "), 0);
        assert_eq!(rt; refused("4 0"), 11);
        assert_eq!(rt; refused("0 999999999"), 11);
        assert_eq!(rt; refused("0 1234567890"), 6);
        assert_eq!(rt; refused("1"), 6);
        assert_eq!(rt; refused("1 2 3"), 6);
        assert_eq!(rt; refused("+1 2"), 6);
        assert_eq!(rt; refused(""), 6);
    }
}
