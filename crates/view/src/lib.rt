// The listing of a book, read through one view: the lent bytes and the place reached. The functions over the view are thin: each takes it apart and calls one with the bytes and the place.
#![tactic(auto)]

mod listing;
mod text;

ghost use Rattle.std.specs.Prelude.{◌≡◌};
ghost use Rattle.book.specs.Format.{u16};
ghost use Rattle.book.specs.Steps.{step_by};
ghost use Rattle.view.specs.Listing.{Seen, Prints, Writes};

use book::{Book, Step};

// The bytes of the largest book: contents, modules, nets and pins.
pub const LARGEST: usize = 32 + 4 * Book::MODULES + 4 * Book::NETS + 2 * Book::PINS;

// The place of its last byte.
const LAST: usize = LARGEST - 1;

// Room for the text of a side: a name of 5 bytes, numbers of 20 digits, the lines of its modules with 5 bytes each.
const SIDE_ROOM: usize = 5 + 20 + 14 + 20 + 1 + 5 * Book::MODULES;

// Room for every listing.
pub const ROOM: usize = 6 + 20 + 1 + 2 * SIDE_ROOM;

// A book that is being read: its lent bytes and the place reached.
#[derive(Clone, Copy)]
pub struct View<'a> {
    pub book: &'a [u8],
    pub at: usize,
}

impl<'a> View<'a> {
    // At the start of the bytes.
    pub fn start(book: &'a [u8]) -> View<'a>
        ensures { (result.book ≡ book.entry) × (result.at ≡ 0) }
    {
        View {
            book,
            at: listing::start(),
        }
    }

    // At another place of the same bytes.
    pub fn moved(self, at: usize) -> View<'a>
        ensures { (result.book ≡ self.entry.book) × (result.at ≡ at) }
    {
        View {
            book: self.book,
            at,
        }
    }

    // The step over the number of 2 bytes at the place reached.
    pub fn next_u16(self) -> Step
        ensures { result ≡ step_by 2 u16 self.entry.book.now self.entry.at }
    {
        listing::step_at(self.book, self.at)
    }

    // Writes the listing of the book that begins at the place reached, or refusal 2 where a number stands past the largest book.
    pub fn list(self, past: Step, out: &mut [u8]) -> Option<usize>
        ensures { Writes (Seen past self.entry.book.now self.entry.at) out.old result out.new }
    {
        listing::list_at(self.book, self.at, past, out)
    }
}

// The listing of what came in, through one view: the length of its text, or none where the lent bytes have less than `ROOM`. Over the last byte of the largest book there is a step only where more came in.
pub fn list(input: &[u8], out: &mut [u8]) -> Option<usize>
    ensures { Writes (Prints input.now) out.old result out.new }
{
    let v = View::start(input);
    let past = v.moved(LAST).next_u16();
    v.list(past, out)
}
