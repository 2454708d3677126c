//! weekorder: the order in which planning takes the programmes of a waiting list.
//!
//! Reads the list from standard input, one programme a line as `class weeks` (the house kind), and
//! prints the programmes highest first, ties by lower number: number, class and weeks of each.
//! The first line that is not two whole numbers in range is told as `refused NUMBER waiting LINE`;
//! then nothing else is printed, and the status is 1.
#![tactic(auto)]

mod order;
mod waiting;

use anyhow::anyhow;
use order::in_order;
use priority::house::House;
use priority::ranking::Ranking;
use waiting::{Fault, read_list};

fn print_order(rt: &HostRuntime, list: &mut [House]) -> anyhow::Result<()> {
    let ranking = Ranking::new(list);
    let places = in_order(rt.alloc(), &ranking)?;
    for place in places.iter() {
        if let Some(priority) = ranking.get(*place) {
            let class = priority.class();
            let weeks = priority.weeks();
            println!(rt; "{place} {class} {weeks}")?;
        }
    }
    Ok(())
}

fn main(rt: HostRuntime) -> anyhow::Result<()> {
    let mut list = match read_list(&rt)? {
        Ok(list) => list,
        Err(Fault { refusal, line }) => {
            let number = refusal.number();
            println!(rt; "refused {number} waiting {line}")?;
            return Err(anyhow!("refused"));
        }
    };
    print_order(&rt, &mut list)
}
