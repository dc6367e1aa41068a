// What a climb goes over and by: the board, the flow and the way as they are read, and the guide. What it writes, `how`, `seen`, `sums` and `flow`, stays slices: a struct of `&mut` fields was tried, and of what is lent as `&` out of one, as each look needs it, a proof knows the length and not the numbers.
ghost use Rattle.flow.specs.Push.{Level};
ghost use Rattle.climb.specs.Climb.{Guided, Sized};

use flow::board::Board;
use reach::{Guide, Rows};

// The board of a climb, made once where it begins: its arrays are those of a card, and a guide has room for it.
#[derive(Clone, Copy)]
pub struct Land<'a> {
    pub board: Board<'a>,
    pub ghost guided: { Guided board },
}

// A flow with the sums of its nets, as they are read between pushes: its numbers are small, and no net sends more than its weight.
#[derive(Clone, Copy)]
pub struct Load<'a> {
    pub land: &'a Land<'a>,
    pub sums: &'a [u32],
    pub flow: &'a [i32],
    pub ghost level: { Level land.now.board.mods.now land.now.board.weight.now sums.now flow.now },
}

// A flow and a way, as they are read between steps.
#[derive(Clone, Copy)]
pub struct Sight<'a> {
    pub load: Load<'a>,
    pub how: &'a [u64],
    pub seen: &'a [u16],
    pub ghost sized: { Sized load.land.now.board.mark.now load.land.now.board.weight.now how.now seen.now },
}

// How far each module is from the makers, and the rows of bits by which that is looked at. Nothing is proved of them.
#[derive(Drop)]
pub struct Scout {
    pub guide: Guide,
    pub rows: Rows,
}
