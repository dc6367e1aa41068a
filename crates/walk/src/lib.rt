// The balancing walk.
#![tactic(auto, using(split::proofs::Loads::few_modules, split::proofs::Loads::few_pins, crate::proofs::Whole::long_enough))]

ghost use Rattle.std.specs.Prelude.{◌≡◌, ◌≤◌, length};
ghost use Rattle.book.specs.Format.{modules};
ghost use Rattle.side.specs.Sides.{bytes_for};
ghost use Rattle.walk.specs.Walk.{number, taken_of, way_of};
ghost use Rattle.walk.specs.Work.{is_meter};
ghost use Rattle.walk.specs.Call.{room_for, too_short, Written, Comes, checked_sound, Walked};
ghost use Rattle.walk.specs.Answer.{left_by};
ghost use Rattle.walk.specs.declared.NotDone.TheVariants.{Refused};

use book::netlist::Netlist;
use book::{Book, Refusal};

mod choose;
mod cut;
mod finish;
mod near;
mod round;
mod rows;
mod run;

// The walk came to a side: the last price and the count of rounds.
#[derive(Clone, Copy)]
pub struct Done {
    pub price: u32,
    pub rounds: usize,
}

// It came to none: it ended with 14 after this many rounds, or a check refused.
#[derive(Clone, Copy)]
pub enum NotDone {
    Stuck(usize),
    Refused(Refusal),
}

impl From<Refusal> for NotDone {
    ghost from_gives = { λ why r. r ≡ Refused why };

    fn from(why: Refusal) -> NotDone {
        NotDone::Refused(why)
    }
}

// The bytes that a side of the most modules needs.
const SIDE: usize = (Book::MODULES + 7) / 8;

// A round pins to the meter, or to the maker.
#[derive(Clone, Copy)]
pub enum Way {
    Meter,
    Maker,
}

impl Way {
    // Whether it pins X itself, and not what lies outside X.
    fn is_meter(self) -> bool
        ensures { result ≡ is_meter self }
    {
        match self {
            Way::Meter => true,
            Way::Maker => false,
        }
    }

    // Document 01's number of a way, which is the mark too.
    fn number(self) -> u8
        ensures { result ≡ number self }
    {
        match self {
            Way::Meter => 1,
            Way::Maker => 2,
        }
    }
}

// What a round comes to: it stops; it takes a module and pins; or it ends with 14.
#[derive(Clone, Copy)]
pub enum Turn {
    Stops,
    Takes(Way, u16),
    Ends,
}

impl Turn {
    // The module taken as its row says it.
    fn taken(self) -> u16
        ensures { result ≡ taken_of self }
    {
        match self {
            Turn::Takes(_, m) => m,
            _ => 65535,
        }
    }

    // The way as its row says it.
    fn way(self) -> u16
        ensures { result ≡ way_of self }
    {
        match self {
            Turn::Stops => 0,
            Turn::Takes(way, _) => u16::from(way.number()),
            Turn::Ends => 3,
        }
    }
}

// A row that a round writes: price, area of X, and what the round came to, which is written as two numbers.
#[derive(Clone, Copy)]
pub struct Row {
    pub price: u32,
    pub area: u32,
    pub turn: Turn,
}

// The walk as it stands: the marks, the near side and the row of the last round, and how many rounds there were. Marks are numbers, which `marks_of` reads; the arrays are of the largest size, since nothing is allocated.
#[derive(Clone, Copy)]
pub struct Standing {
    marks: [u8; Book::MODULES],
    x: [u8; SIDE],
    row: Row,
    rounds: usize,
}

// Check 8: a lent buffer is shorter than this call needs.
fn is_short(netlist: Netlist<'_>, side: &[u8], rows: &[u8]) -> bool
    ensures { result ≡ too_short netlist.entry.bytes.now side.now rows.now }
{
    let room = 12 * (choose::free_count(netlist) + 1);
    side::is_short(netlist, side) | (rows.len() < room)
}

// The walk where no check refuses.
fn walk_checked(
    netlist: Netlist<'_>,
    gate: gate::Gate,
    side: &mut [u8],
    rows: &mut [u8],
) -> Result<Done, NotDone>
    requires { (bytes_for (modules netlist.bytes.now) ≤ length side.old) × (room_for netlist.bytes.now ≤ length rows.old) }
    ensures { Written netlist.entry.bytes.now gate side.old rows.old (left_by result side.new rows.new) }
{
    let band = gate.band(finish::whole_area(netlist) as u32);
    let w = run::run(netlist, band, rows);
    finish::finish(netlist, w, side)
}

// Checks 7 and 8 of a book that reads, and the walk.
fn walk_sound(
    netlist: Netlist<'_>,
    gate: gate::Gate,
    side: &mut [u8],
    rows: &mut [u8],
) -> Result<Done, NotDone>
    ensures { Comes (checked_sound netlist.entry.bytes.now gate side.old rows.old) netlist.entry.bytes.now gate side.old rows.old (left_by result side.new rows.new) }
{
    if !gate.good() {
        return Err(NotDone::Refused(Refusal::Gate));
    }
    if is_short(netlist, &*side, &*rows) {
        return Err(NotDone::Refused(Refusal::Buffer));
    }
    walk_checked(netlist, gate, side, rows)
}

// The balancing walk on any bytes: checks 1 to 6, 7 and 8 first. The side is written where the walk stops, and the rows where no check refuses.
pub fn walk(
    book: &[u8],
    gate: gate::Gate,
    side: &mut [u8],
    rows: &mut [u8],
) -> Result<Done, NotDone>
    ensures { Walked book.now gate side.old rows.old (left_by result side.new rows.new) }
{
    let netlist = Netlist::new(book)?;
    walk_sound(netlist, gate, side, rows)
}
