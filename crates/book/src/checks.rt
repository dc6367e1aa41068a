// Check 1 of document 01: the contents.
ghost use Rattle.std.specs.Prelude.{◌≡◌, ◌+◌, ◌<◌, ◌≤◌};
ghost use Rattle.book.specs.Format.{laid};
ghost use Rattle.book.specs.Steps.{step_entry, number_in};

use crate::{Book, Cursor, Step};

// Over an entry of the contents that names this kind, starts its body here and has whole records of `unit` bytes: the number is where the body ends.
fn entry(book: &[u8], here: Cursor, kind: usize, start: usize, unit: usize) -> Step
    requires { (start ≤ 17179869184) × (0 < unit) }
    ensures { (result ≡ step_entry book.now here.at kind start unit) × (number_in result ≤ start + 4294967295) }
{
    let (k, c) = here.next_u16(book)?;
    let (at, d) = c.next_u32(book)?;
    let (bytes, next) = d.next_u32(book)?;
    if (k == kind) & (at == start) & (bytes % unit == 0) {
        return Some((start + bytes, next));
    }
    None
}

// Check 1: the contents, walked from the starting cursor, and the end of the last body.
pub fn is_laid(book: &[u8]) -> bool
    ensures { result ≡ laid book.now }
{
    let here = Book::start();
    let Some((count, first)) = here.next_u16(book) else {
        return false;
    };
    let Some((second_body, second)) = entry(book, first, 1, 32, 4) else {
        return false;
    };
    let Some((third_body, third)) = entry(book, second, 2, second_body, 4) else {
        return false;
    };
    let Some((end, _)) = entry(book, third, 3, third_body, 2) else {
        return false;
    };
    (count == 3) & (end == book.len())
}
