// The rounds of the walk, one after the other.
ghost use Rattle.std.specs.Prelude.{◌≡◌, ◌+◌, ◌≤◌, length};
ghost use Rattle.book.specs.Checks.{most_modules};
ghost use Rattle.book.specs.Format.{modules, pins, mark};
ghost use Rattle.book.specs.Listed.{listed};
ghost use Rattle.walk.specs.Call.{room_for};
ghost use Rattle.walk.specs.Work.{Marked, OneRound};
ghost use Rattle.walk.specs.Runs.{standing_marks, Ran};

use crate::{Row, Standing, Turn};
use book::Book;
use book::netlist::Netlist;
use split::numbers::Numbers;

// The walk before its first round.
fn start(netlist: Netlist<'_>) -> Standing
    ensures { (standing_marks netlist.entry.bytes.now result ≡ listed (mark netlist.entry.bytes.now) (modules netlist.entry.bytes.now)) × (result.rounds ≡ 0) }
{
    let m = netlist.modules();
    let mut marks: [u8; Book::MODULES] = [0; Book::MODULES];
    split::load::marks(netlist, &mut marks[..m]);
    let x: [u8; crate::SIDE] = [0; crate::SIDE];
    let row = Row {
        price: 0,
        area: 0,
        turn: Turn::Stops,
    };
    Standing {
        marks,
        x,
        row,
        rounds: 0,
    }
}

impl Standing {
    // One round takes the walk as it stands and gives the next.
    fn round(self, numbers: &Numbers<'_>, band: gate::Band, flow: &mut [i32]) -> Standing
        requires { Marked numbers.now.netlist.bytes.now (standing_marks numbers.now.netlist.bytes.now self) × (length flow.old ≡ pins numbers.now.netlist.bytes.now) × (self.rounds ≤ most_modules) }
        ensures { OneRound numbers.now.netlist.bytes.now band (standing_marks numbers.now.netlist.bytes.now self) result.x result.row (standing_marks numbers.now.netlist.bytes.now result) × (result.rounds ≡ self.rounds + 1) }
    {
        let m = numbers.netlist.modules();
        let mut marks = self.marks;
        let mut x = self.x;
        let row = crate::round::round_on(numbers, band, &mut marks[..m], flow, &mut x);
        let rounds = self.rounds + 1;
        Standing {
            marks,
            x,
            row,
            rounds,
        }
    }
}

// All rounds and their rows, on a book's numbers.
fn run_on(numbers: &Numbers<'_>, band: gate::Band, flow: &mut [i32], rows: &mut [u8]) -> Standing
    requires { (length flow.old ≡ pins numbers.now.netlist.bytes.now) × (room_for numbers.now.netlist.bytes.now ≤ length rows.old) }
    ensures { Ran numbers.now.netlist.bytes.now band rows.old rows.new result }
{
    let mut w = start(numbers.netlist);
    loop {
        let place = 12 * w.rounds;
        w = w.round(numbers, band, &mut *flow);
        crate::rows::put_row(&mut *rows, place, w.row);
        match w.row.turn {
            Turn::Takes(_, _) => {}
            Turn::Stops | Turn::Ends => return w,
        }
    }
}

// The walk, in room of its own.
pub fn run(netlist: Netlist<'_>, band: gate::Band, rows: &mut [u8]) -> Standing
    requires { room_for netlist.bytes.now ≤ length rows.old }
    ensures { Ran netlist.entry.bytes.now band rows.old rows.new result }
{
    let numbers = Numbers::of(netlist);
    let p = netlist.pins();
    let mut flow: [i32; Book::PINS] = [0; Book::PINS];
    run_on(&numbers, band, &mut flow[..p], rows)
}
