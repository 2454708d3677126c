//! The kinds of priority that a page can have, and how a row makes one.
ghost use Rattle.std.specs.Prelude.{◌≡◌, ℕ, Bool, cond, Ok, Err};
ghost use Rattle.refusal.specs.declared.Refusal.TheVariants.{ValueRange};
ghost use Rattle.pages.specs.declared.table_pages.Columns.{Columns};
ghost use Rattle.pages.specs.declared.table_pages.Columns.TheVariants.{One, Two};
ghost use Rattle.pages.specs.Stages.{given};
ghost use Rattle.priority_pages.specs.PriorityPages.{number_of, house_of, is_number, is_house};

use pages::table_pages::Columns;
use priority::Priority;
use priority::house::House;
use priority::number::Number;
use refusal::Refusal;

/// A kind of priority that a page can have: how many columns its page has, and what a row makes.
pub trait PagePriority: Priority {
    /// The numbers of a row, by those of its first and its second column.
    ghost Numbers: { Type 0 };

    ghost numbers: { ℕ → ℕ → Numbers };

    /// Which of them make a priority, and those that a priority was made from.
    ghost fits: { Numbers → Bool };

    ghost made_of: { Self → Numbers };

    /// The columns of a page of this kind.
    ghost columns: { Columns };

    fn columns() -> Columns
        ensures { result ≡ columns };

    /// The priority of a row, or refusal 11. A kind of one column looks at the first number alone.
    fn of_row(first: u16, second: u16) -> Result<Self, Refusal>
        ensures { given made_of result ≡ cond (fits (numbers first second)) (Ok (numbers first second)) (Err ValueRange) };
}

impl PagePriority for Number {
    ghost Numbers = { ℕ };

    ghost numbers = { λ first second. first };

    ghost fits = { is_number };

    ghost made_of = { number_of };

    ghost columns = { One };

    fn columns() -> Columns {
        Columns::One
    }

    fn of_row(first: u16, _second: u16) -> Result<Number, Refusal> {
        Number::new(first)
    }
}

impl PagePriority for House {
    ghost Numbers = { ℕ × ℕ };

    ghost numbers = { λ first second. (first, second) };

    ghost fits = { is_house };

    ghost made_of = { house_of };

    ghost columns = { Two };

    fn columns() -> Columns {
        Columns::Two
    }

    fn of_row(first: u16, second: u16) -> Result<House, Refusal> {
        House::new(first, second)
    }
}
