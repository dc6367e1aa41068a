// The split of a book: its near side, its far side, their price, and a fair flow of that value.
#![tactic(auto, using(crate::proofs::Loads::sound_netlist))]

pub mod bits;
pub mod engine;
pub mod load;
pub mod numbers;

ghost use Rattle.std.specs.Prelude.{◌≡◌, length};
ghost use Rattle.line.specs.Card.{price};
ghost use Rattle.book.specs.Format.{pins};
ghost use Rattle.book.specs.Cards.{nets_of, card_of};
ghost use Rattle.side.specs.Sides.{side_of};
ghost use Rattle.split.specs.Solved.{Solved};
ghost use Rattle.split.specs.Splits.{buffers, Room, Holds, SplitIf, Split, too_short};

use crate::numbers::Numbers;
use audit::Flowed;
use book::Refusal;
use book::netlist::Netlist;

// The price is the value of the flow.
fn split_exact(netlist: Netlist<'_>, near: &mut [u8], far: &mut [u8], flow: &mut [i32]) -> usize
    requires { Room netlist.bytes.now near.old far.old flow.old × (length flow.old ≡ pins netlist.bytes.now) }
    ensures { Solved (card_of netlist.entry.bytes.now) near.old far.old near.new far.new flow.new × (result ≡ price (nets_of netlist.entry.bytes.now) (side_of near.new)) }
{
    let numbers = Numbers::of(netlist);
    flow::engine::still(&mut *flow);
    engine::solve_on(&numbers.board(), near, far, &mut *flow);
    let flowed = Flowed { netlist, flow };
    flowed.value()
}

// The split of a sound book, in buffers that are long enough; the price is the value of the flow.
fn split_sound(netlist: Netlist<'_>, near: &mut [u8], far: &mut [u8], flow: &mut [i32]) -> usize
    requires { Room netlist.bytes.now near.old far.old flow.old }
    ensures { Holds netlist.entry.bytes.now result (buffers near.old far.old flow.old) (buffers near.new far.new flow.new) }
{
    let p = netlist.pins();
    split_exact(netlist, &mut *near, &mut *far, &mut flow[..p])
}

// Check 8.
fn is_short(netlist: Netlist<'_>, near: &[u8], far: &[u8], flow: &[i32]) -> bool
    ensures { result ≡ too_short netlist.entry.bytes.now (buffers near.now far.now flow.now) }
{
    side::is_short(netlist, near) | side::is_short(netlist, far) | (flow.len() < netlist.pins())
}

// Check 8 of a book that reads, then the split.
fn split_good(
    netlist: Netlist<'_>,
    near: &mut [u8],
    far: &mut [u8],
    flow: &mut [i32],
) -> Result<usize, Refusal>
    ensures { SplitIf (too_short netlist.entry.bytes.now (buffers near.old far.old flow.old)) netlist.entry.bytes.now (buffers near.old far.old flow.old) result (buffers near.new far.new flow.new) }
{
    if is_short(netlist, &*near, &*far, &*flow) {
        return Err(Refusal::Buffer);
    }
    Ok(split_sound(netlist, near, far, flow))
}

// The split, on any bytes: checks 1 to 6 and 8 first. It takes one search for each round of pushes, and one more for the far side.
pub fn split(
    book: &[u8],
    near: &mut [u8],
    far: &mut [u8],
    flow: &mut [i32],
) -> Result<usize, Refusal>
    ensures { Split book.now (buffers near.old far.old flow.old) result (buffers near.new far.new flow.new) }
{
    let netlist = Netlist::new(book)?;
    split_good(netlist, near, far, flow)
}
