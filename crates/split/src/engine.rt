// The engine at work on a card's slices. What it works in is its own: arrays of the largest size, since nothing is allocated, lent by fronts as long as the card's lists.
ghost use Rattle.std.specs.Prelude.{◌≡◌, ◌≤◌, length};
ghost use Rattle.line.specs.Flow.{Fair};
ghost use Rattle.flow.specs.Board.{board_card};
ghost use Rattle.flow.specs.Build.{Buildable};
ghost use Rattle.flow.specs.Cards.{card_of};
ghost use Rattle.flow.specs.Raise.{Ready};
ghost use Rattle.split.specs.Solved.{Rooms, Slices, Begins, Solved};

use book::Book;
use flow::board::Board;

// Near, far and flow, from any fair flow, in lent work.
fn solve_in(
    board: &Board<'_>,
    queue: &mut [u16],
    how: &mut [u64],
    seen: &mut [u16],
    sums: &mut [u32],
    near: &mut [u8],
    far: &mut [u8],
    flow: &mut [i32],
)
    requires { Ready board.now.first.now board.now.mods.now board.now.weight.now board.now.mark.now queue.old how.old seen.old sums.old × Fair (board_card board.now) flow.old × (length flow.old ≡ length board.now.mods.now) × Rooms (length board.now.mark.now) near.old far.old }
    ensures { Solved (board_card board.now) near.old far.old near.new far.new flow.new }
{
    flow::engine::raise(
        board,
        &mut *queue,
        &mut *how,
        &mut *seen,
        &mut *sums,
        &mut *flow,
    );
    crate::bits::write_side(&*how, true, &mut *near);
    flow::engine::far(board, &*sums, &*flow, &mut *queue, &mut *how, &mut *seen);
    crate::bits::write_side(&*how, false, &mut *far);
}

// The flow raised by the climb, in work of its own: fair as before, and most often of the greatest value already, so that the engine's search has little left to do.
pub fn lift(board: &Board<'_>, flow: &mut [i32])
    requires { Slices board.now.first.now board.now.mods.now board.now.weight.now board.now.mark.now × Fair (board_card board.now) flow.old × (length flow.old ≡ length board.now.mods.now) }
    ensures { Fair (board_card board.now) flow.new }
{
    let m = board.mark.len();
    let n = board.weight.len();
    let mut how: [u64; Book::MODULES] = [0; Book::MODULES];
    let mut seen: [u16; Book::NETS] = [0; Book::NETS];
    let mut sums: [u32; Book::NETS] = [0; Book::NETS];
    climb::climb::climb(board, &mut how[..m], &mut seen[..n], &mut sums[..n], flow);
}

// Near side, far side and flow of a card, from any fair flow, which is lifted first. The work is its own.
pub(crate) fn solve_on(board: &Board<'_>, near: &mut [u8], far: &mut [u8], flow: &mut [i32])
    requires { Slices board.now.first.now board.now.mods.now board.now.weight.now board.now.mark.now × Begins (board_card board.now) board.now.mods.now near.old far.old flow.old }
    ensures { Solved (board_card board.now) near.old far.old near.new far.new flow.new }
{
    lift(board, &mut *flow);
    let m = board.mark.len();
    let n = board.weight.len();
    let mut queue: [u16; Book::MODULES] = [0; Book::MODULES];
    let mut how: [u64; Book::MODULES] = [0; Book::MODULES];
    let mut seen: [u16; Book::NETS] = [0; Book::NETS];
    let mut sums: [u32; Book::NETS] = [0; Book::NETS];
    solve_in(
        board,
        &mut queue[..m],
        &mut how[..m],
        &mut seen[..n],
        &mut sums[..n],
        near,
        far,
        flow,
    );
}

// The same with the tables built first, in lent work.
fn solve_tabled(
    first: &[u16],
    mods: &[u16],
    weight: &[u16],
    mark: &[u8],
    nets: &mut [u16],
    at: &mut [u16],
    pins: &mut [u16],
    near: &mut [u8],
    far: &mut [u8],
    flow: &mut [i32],
)
    requires { Slices first.now mods.now weight.now mark.now × Buildable first.now mods.now weight.now mark.now nets.old at.old pins.old × Begins (card_of first.now mods.now weight.now mark.now) mods.now near.old far.old flow.old }
    ensures { Solved (card_of first.now mods.now weight.now mark.now) near.old far.old near.new far.new flow.new }
{
    flow::tables::build(first, mods, weight, &mut *nets, &mut *at, &mut *pins);
    let board = Board {
        first,
        mods,
        weight,
        nets: &*nets,
        at: &*at,
        pins: &*pins,
        mark,
    };
    solve_on(&board, near, far, flow);
}

// Near side, far side and flow of a card that is lent as slices, from any fair flow. The tables and the work are its own.
pub fn solve(
    first: &[u16],
    mods: &[u16],
    weight: &[u16],
    mark: &[u8],
    near: &mut [u8],
    far: &mut [u8],
    flow: &mut [i32],
)
    requires { Slices first.now mods.now weight.now mark.now × Begins (card_of first.now mods.now weight.now mark.now) mods.now near.old far.old flow.old }
    ensures { Solved (card_of first.now mods.now weight.now mark.now) near.old far.old near.new far.new flow.new }
{
    let p = mods.len();
    let end = mark.len() + 1;
    let mut nets: [u16; Book::PINS] = [0; Book::PINS];
    let mut at: [u16; Book::MODULES + 1] = [0; Book::MODULES + 1];
    let mut pins: [u16; Book::PINS] = [0; Book::PINS];
    solve_tabled(
        first,
        mods,
        weight,
        mark,
        &mut nets[..p],
        &mut at[..end],
        &mut pins[..p],
        near,
        far,
        flow,
    );
}
