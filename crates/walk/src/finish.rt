// What the call answers and writes once the walk has ended.
#![tactic(auto, using(split::proofs::Loads::few_modules, crate::proofs::Ended::area_none, crate::proofs::Ended::area_more, crate::proofs::Ended::side_over))]

ghost use Rattle.std.specs.Prelude.{◌≡◌, ◌≤◌, length};
ghost use Rattle.line.specs.Card.{whole_area};
ghost use Rattle.book.specs.Format.{modules, area};
ghost use Rattle.book.specs.Cards.{card_of};
ghost use Rattle.side.specs.Prices.{most_area};
ghost use Rattle.side.specs.Sides.{side_of, bytes_for, SpareClear};
ghost use Rattle.walk.specs.Call.{side_bytes, over};
ghost use Rattle.walk.specs.Answer.{Finished};

use crate::{Done, NotDone, Turn};
use book::netlist::Netlist;

// The total area.
pub fn whole_area(netlist: Netlist<'_>) -> usize
    ensures { (result ≡ whole_area (card_of netlist.entry.bytes.now) (area netlist.entry.bytes.now)) × (result ≤ most_area) }
{
    let mut sum = 0;
    for m in 0..netlist.modules() {
        sum += netlist.area(m);
    }
    sum
}

// X as the side that the call writes. X stays a slice beside its netlist: a proof does not see that the numbers in a field are bytes.
fn write_side(netlist: Netlist<'_>, x: &[u8], side: &mut [u8])
    requires { (bytes_for (modules netlist.bytes.now) ≤ length x.now) × (bytes_for (modules netlist.bytes.now) ≤ length side.old) × SpareClear x.now (modules netlist.bytes.now) }
    ensures { side.new ≡ over (side_bytes (side_of x.now) (modules netlist.entry.bytes.now)) side.old }
{
    let n = (netlist.modules() + 7) / 8;
    side[..n].copy_from_slice(&x[..n]);
}

// Stopped: the side is written. Ended with 14: it is not.
pub fn finish(netlist: Netlist<'_>, w: crate::Standing, side: &mut [u8]) -> Result<Done, NotDone>
    requires { (bytes_for (modules netlist.bytes.now) ≤ length side.old) × SpareClear w.x (modules netlist.bytes.now) }
    ensures { Finished netlist.entry.bytes.now w side.old side.new result }
{
    match w.row.turn {
        Turn::Stops => {
            write_side(netlist, &w.x, side);
            Ok(Done {
                price: w.row.price,
                rounds: w.rounds,
            })
        }
        _ => Err(NotDone::Stuck(w.rounds)),
    }
}
