// From any fair flow to one of the greatest value, with the near side and the far side.
ghost use Rattle.std.specs.Prelude.{◌≡◌, ◌<◌, ◌^◌, length};
ghost use Rattle.std.specs.List.{sum_by};
ghost use Rattle.line.specs.Card.{outside, Far};
ghost use Rattle.line.specs.Flow.{sent, Fair};
ghost use Rattle.line.proofs.Search.{Still};
ghost use Rattle.flow.specs.Cards.{side_of};
ghost use Rattle.flow.specs.Board.{board_card};
ghost use Rattle.flow.specs.Raise.{Summed, Summable, Ready, Raised, Greatest};

use crate::board::Board;
use crate::push::Ways;

// The flow of zeros. It is fair on every card, so that any card's first flow can be raised from it.
pub fn still(flow: &mut [i32])
    ensures { Still flow.new }
{
    flow.fill(0);
}

// What the pins of one net send.
fn net_sum(flow: &[i32]) -> u32
    requires { sum_by sent flow.now < 2 ^ 32 }
    ensures { result ≡ sum_by sent flow.now }
{
    flow.iter().map(|f| crate::num::sent_by(*f)).sum()
}

// What the pins of each net send.
pub fn net_sums(first: &[u16], flow: &[i32], sums: &mut [u32])
    requires { Summable first.now flow.now (length sums.old) }
    ensures { Summed first.now flow.now (length sums.old) sums.new }
{
    for (n, sum) in sums.iter_mut().enumerate() {
        *sum = net_sum(&flow[usize::from(first[n])..usize::from(first[n + 1])]);
    }
}

// From any fair flow to one of the greatest value, and the near side of document 01: a search from the meters, a push from every maker that it met, and again, until one meets none. What that one reached no step leaves, so its price is the value: it is cheapest, and inside all that are.
// A search looks at each pin at most three times. Each round but the last raises the value by 1 or more, and no side that separates is cheaper than the value, so the rounds end.
pub fn raise(
    board: &Board<'_>,
    queue: &mut [u16],
    how: &mut [u64],
    seen: &mut [u16],
    sums: &mut [u32],
    flow: &mut [i32],
)
    requires { Ready board.now.first.now board.now.mods.now board.now.weight.now board.now.mark.now queue.old how.old seen.old sums.old × Fair (board_card board.now) flow.old × (length flow.old ≡ length board.now.mods.now) }
    ensures { Raised (board_card board.now) board.now.mods.now sums.new flow.new (side_of how.new) }
{
    net_sums(board.first, &*flow, &mut *sums);
    loop {
        crate::search::search(
            board,
            &*sums,
            &*flow,
            false,
            &mut *queue,
            &mut *how,
            &mut *seen,
        );
        let ways = Ways {
            mods: board.mods,
            weight: board.weight,
            nets: board.nets,
            mark: board.mark,
            how: &*how,
        };
        let more = crate::push::push_makers(&ways, &mut *sums, &mut *flow);
        if !more {
            break;
        }
    }
}

// The far side of document 01, on a flow of the greatest value: one search from the makers against the steps. What it does not reach holds all cheapest sides and is one of them.
pub fn far(
    board: &Board<'_>,
    sums: &[u32],
    flow: &[i32],
    queue: &mut [u16],
    how: &mut [u64],
    seen: &mut [u16],
)
    requires { Ready board.now.first.now board.now.mods.now board.now.weight.now board.now.mark.now queue.old how.old seen.old sums.now × Greatest (board_card board.now) board.now.mods.now sums.now flow.now }
    ensures { Far (board_card board.now) (outside (side_of how.new)) }
{
    crate::search::search(board, sums, flow, true, queue, how, seen);
}
