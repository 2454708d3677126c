//! Tables that are read and written by number, from 1.
ghost use Rattle.std.specs.Prelude.{◌≡◌, ◌≤◌, Err, IsOk, OnOk, replicate, vec_len, vec_capacity};
ghost use Rattle.refusal.specs.Tables.{at, put};

use std::alloc::AllocError;

/// What stands in the table under a number from 1 on; `none` under 0 and past the end.
pub fn entry<T: Copy>(none: T, table: &[T], number: usize) -> T
    ensures { result ≡ at none table.now number }
{
    if number == 0 {
        return none;
    }
    table.get(number - 1).copied().unwrap_or(none)
}

/// Writes under a number from 1 on; nothing under 0 and past the end.
pub fn write<T: Copy>(table: &mut [T], number: usize, value: T)
    ensures { table.new ≡ put table.old number value }
{
    if number == 0 || number > table.len() {
        return;
    }
    table[number - 1] = value;
}

/// Makes the table one of `count` times the value. It wants memory only where the table has no room for so many.
pub fn refill<T: Copy>(table: &mut Vec<T>, count: usize, value: T) -> Result<(), AllocError>
    ensures within_room { count ≤ vec_capacity table.old → IsOk result }
    ensures items { OnOk result (table.new.items ≡ replicate count value) }
    ensures len { OnOk result (vec_len table.new ≡ count) }
    ensures room { vec_capacity table.old ≤ vec_capacity table.new }
{
    table.clear();
    table.resize(count, value)
}
