// One round of the walk.
ghost use Rattle.std.specs.Prelude.{◌≡◌, ◌≤◌, length};
ghost use Rattle.book.specs.Format.{modules, pins};
ghost use Rattle.book.specs.Cards.{card_of};
ghost use Rattle.side.specs.Sides.{side_of, bytes_for};
ghost use Rattle.walk.specs.Walk.{choice};
ghost use Rattle.walk.specs.Parts.{marks_of, side_from};
ghost use Rattle.walk.specs.Work.{Marked, taking_from, Pins, Stepped, OneRound};

use crate::choose::{Candidates, Half};
use crate::{Row, Turn, Way};
use side::Sided;
use split::numbers::Numbers;

// The module that a round takes inside X, or outside it, as is asked.
fn seek(sided: Sided<'_>, marks: &[u8], on: bool) -> Option<usize>
    requires { Marked sided.netlist.bytes.now marks.now }
    ensures { result ≡ choice (card_of sided.entry.netlist.bytes.now) (marks_of marks.now) (side_of sided.entry.bits.now) (side_from on (side_of sided.entry.bits.now)) }
{
    let mut cut: [u8; crate::SIDE] = [0; crate::SIDE];
    crate::cut::cut_row(sided, &mut cut);
    let from = Candidates {
        marks,
        half: Half { x: sided.bits, on },
        cut: &cut,
    };
    from.choose()
}

// Below low: pins all of X to the meter, and one free module outside X. Above high: pins all outside X to the maker, and one free module inside X. If there is none, ends with 14.
fn take_one(sided: Sided<'_>, marks: &mut [u8], way: Way) -> Turn
    requires { Marked sided.netlist.bytes.now marks.old }
    ensures { (result ≡ taking_from sided.entry.netlist.bytes.now (marks_of marks.old) (side_of sided.entry.bits.now) way) × Pins sided.entry.netlist.bytes.now marks.old (side_of sided.entry.bits.now) result marks.new }
{
    let meter = way.is_meter();
    match seek(sided, &*marks, !meter) {
        Some(m) => {
            let half = Half {
                x: sided.bits,
                on: meter,
            };
            crate::choose::pin_half(&mut *marks, half, m, way.number());
            Turn::Takes(way, m as u16)
        }
        None => Turn::Ends,
    }
}

// A round with X known: its area is compared with the band.
fn step(sided: Sided<'_>, band: gate::Band, marks: &mut [u8]) -> Row
    requires { Marked sided.netlist.bytes.now marks.old }
    ensures { Stepped sided.entry.netlist.bytes.now band marks.old (side_of sided.entry.bits.now) result marks.new }
{
    let price = sided.price() as u32;
    let area = sided.area() as u32;
    let turn = match band.says(area) {
        gate::Verdict::Below => take_one(sided, marks, Way::Meter),
        gate::Verdict::Within => Turn::Stops,
        gate::Verdict::Above => take_one(sided, marks, Way::Maker),
    };
    Row { price, area, turn }
}

// A round from the marks.
pub fn round_on(
    numbers: &Numbers<'_>,
    band: gate::Band,
    marks: &mut [u8],
    flow: &mut [i32],
    x: &mut [u8],
) -> Row
    requires { Marked numbers.now.netlist.bytes.now marks.old × (length flow.old ≡ pins numbers.now.netlist.bytes.now) × (bytes_for (modules numbers.now.netlist.bytes.now) ≤ length x.old) }
    ensures { OneRound numbers.now.netlist.bytes.now band marks.old x.new result marks.new }
{
    crate::near::near(&*numbers, &*marks, flow, &mut *x);
    let sided = Sided {
        netlist: numbers.netlist,
        bits: &*x,
    };
    step(sided, band, &mut *marks)
}
