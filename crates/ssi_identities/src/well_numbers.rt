//! Whether what has numbers differs by them, and whether numbers are those of what there is.

ghost use Rattle.std.specs.Prelude.{◌≡◌, ◌↔◌, ℕ, ◌<◌, ◌==◌, map, All, IsTrue};
ghost use Rattle.std.specs.List.{IsDistinct, list_any};

use crate::data_set::ModuleRow;

/// What is told from others of its list by a number.
pub trait Numbered {
    ghost number: { Self → ℕ };

    fn number(&self) -> u16
        ensures { result ≡ number self.now };
}

/// Points with a lie, by the points.
impl Numbered for (u16, bool) {
    ghost number = { λ lie. lie.0 };

    fn number(&self) -> u16 {
        self.0
    }
}

/// A module, by its address.
impl Numbered for ModuleRow {
    ghost number = { λ row. row.address };

    fn number(&self) -> u16 {
        u16::from(self.address)
    }
}

/// Whether no number stands twice.
pub fn do_numbers_differ<T: Numbered>(rows: &[T]) -> bool
    ensures { IsTrue result ↔ IsDistinct (λ a b. a == b) (map T.number rows.now) }
{
    for index in 0..rows.len() {
        let others = &rows[index + 1..];
        if has_number(others, rows[index].number()) {
            return false;
        }
    }
    true
}

fn has_number<T: Numbered>(rows: &[T], number: u16) -> bool
    ensures { result ≡ list_any (λ row. number == T.number row) rows.now }
{
    rows.iter().any(|row| number == row.number())
}

/// Whether each number is below the count.
pub fn are_below(numbers: &[u16], count: u16) -> bool
    ensures { IsTrue result ↔ All (λ number. number < count) numbers.now }
{
    numbers.iter().all(|number| *number < count)
}
