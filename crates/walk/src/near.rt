// The near side for the modules now pinned, in arrays of the largest size, since nothing is allocated, lent by fronts as long as the card's lists.
ghost use Rattle.std.specs.Prelude.{◌≡◌, ◌≤◌, length};
ghost use Rattle.line.specs.Card.{remark};
ghost use Rattle.line.specs.Flow.{Fair};
ghost use Rattle.book.specs.Format.{modules, pins};
ghost use Rattle.book.specs.Cards.{card_of};
ghost use Rattle.side.specs.Sides.{bytes_for};
ghost use Rattle.flow.specs.Board.{board_card};
ghost use Rattle.flow.specs.Raise.{Ready};
ghost use Rattle.split.specs.Solved.{Slices};
ghost use Rattle.walk.specs.Parts.{marks_of};
ghost use Rattle.walk.specs.Work.{NearRow, Marked};

use book::Book;
use flow::board::Board;
use split::numbers::Numbers;

// From any fair flow, in lent work, which stays slices: a struct of `&mut` fields owes a clause on each field's ghost name at each call.
fn near_in(
    board: &Board<'_>,
    queue: &mut [u16],
    how: &mut [u64],
    seen: &mut [u16],
    sums: &mut [u32],
    flow: &mut [i32],
    x: &mut [u8],
)
    requires { Ready board.now.first.now board.now.mods.now board.now.weight.now board.now.mark.now queue.old how.old seen.old sums.old × Fair (board_card board.now) flow.old × (length flow.old ≡ length board.now.mods.now) × (bytes_for (length board.now.mark.now) ≤ length x.old) }
    ensures { NearRow (board_card board.now) x.old x.new }
{
    flow::engine::raise(
        board,
        &mut *queue,
        &mut *how,
        &mut *seen,
        &mut *sums,
        &mut *flow,
    );
    split::bits::write_side(&*how, true, &mut *x);
}

// The same in work of its own, the flow lifted first.
fn near_on(board: &Board<'_>, flow: &mut [i32], x: &mut [u8])
    requires { Slices board.now.first.now board.now.mods.now board.now.weight.now board.now.mark.now × Fair (board_card board.now) flow.old × (length flow.old ≡ length board.now.mods.now) × (bytes_for (length board.now.mark.now) ≤ length x.old) }
    ensures { NearRow (board_card board.now) x.old x.new }
{
    split::engine::lift(board, &mut *flow);
    let m = board.mark.len();
    let n = board.weight.len();
    let mut queue: [u16; Book::MODULES] = [0; Book::MODULES];
    let mut how: [u64; Book::MODULES] = [0; Book::MODULES];
    let mut seen: [u16; Book::NETS] = [0; Book::NETS];
    let mut sums: [u32; Book::NETS] = [0; Book::NETS];
    near_in(
        board,
        &mut queue[..m],
        &mut how[..m],
        &mut seen[..n],
        &mut sums[..n],
        flow,
        x,
    );
}

// From a flow of zeros, on the board of a book with the marks of the round.
pub fn near<'b>(numbers: &'b Numbers<'_>, marks: &'b [u8], flow: &mut [i32], x: &mut [u8])
    requires { Marked numbers.now.netlist.bytes.now marks.now × (length flow.old ≡ pins numbers.now.netlist.bytes.now) × (bytes_for (modules numbers.now.netlist.bytes.now) ≤ length x.old) }
    ensures { NearRow (remark (card_of numbers.now.netlist.bytes.now) (marks_of marks.now)) x.old x.new }
{
    let board = numbers.board_with(marks);
    flow::engine::still(&mut *flow);
    near_on(&board, flow, x);
}
