// A book's numbers and the tables of its pins in arrays of their own, and the boards that they lend. The arrays are of the largest size, since nothing is allocated.
#![tactic(auto, using(crate::proofs::Loads::few_modules, crate::proofs::Loads::few_nets, crate::proofs::Loads::few_pins))]

ghost use Rattle.std.specs.Prelude.{◌≡◌, length};
ghost use Rattle.book.specs.Format as format;
ghost use Rattle.book.specs.Listed.{listed};
ghost use Rattle.split.specs.Boards.{Firsts, Mods, Weights, Marks, Light, Tabled, Lends};

use crate::load;
use book::Book;
use book::netlist::Netlist;
use flow::board::Board;

// The arrays, each with what a board lends at its front.
#[derive(Drop)]
struct Arrays {
    first: [u16; Book::NETS + 1],
    mods: [u16; Book::PINS],
    weight: [u16; Book::NETS],
    nets: [u16; Book::PINS],
    at: [u16; Book::MODULES + 1],
    pins: [u16; Book::PINS],
    mark: [u8; Book::MODULES],
}

impl Arrays {
    // Before they are filled. All zeros and in one piece, so that each is cleared once and filled where it stands.
    const NEW: Self = Arrays {
        first: [0; Book::NETS + 1],
        mods: [0; Book::PINS],
        weight: [0; Book::NETS],
        nets: [0; Book::PINS],
        at: [0; Book::MODULES + 1],
        pins: [0; Book::PINS],
        mark: [0; Book::MODULES],
    };
}

// A book's numbers at the fronts of its arrays. Not inlined, nor the next: the arrays would be cleared and copied twice.
#[inline(never)]
fn load_fronts(
    netlist: Netlist<'_>,
    first: &mut [u16; Book::NETS + 1],
    mods: &mut [u16; Book::PINS],
    weight: &mut [u16; Book::NETS],
    mark: &mut [u8; Book::MODULES],
)
    ensures firsts { Firsts netlist.entry.bytes.now first.new }
    ensures modules { Mods netlist.entry.bytes.now mods.new }
    ensures weights { Weights netlist.entry.bytes.now weight.new }
    ensures marks { Marks netlist.entry.bytes.now mark.new }
    ensures light { Light netlist.entry.bytes.now weight.new }
{
    let n = netlist.nets();
    load::firsts(netlist, &mut first[..n + 1]);
    load::mods(netlist, &mut mods[..netlist.pins()]);
    load::weights(netlist, &mut weight[..n]);
    load::marks(netlist, &mut mark[..netlist.modules()]);
}

// The tables of its pins at the fronts of theirs.
#[inline(never)]
fn build_fronts(
    netlist: Netlist<'_>,
    first: &[u16; Book::NETS + 1],
    mods: &[u16; Book::PINS],
    weight: &[u16; Book::NETS],
    nets: &mut [u16; Book::PINS],
    at: &mut [u16; Book::MODULES + 1],
    pins: &mut [u16; Book::PINS],
)
    requires { Firsts netlist.bytes.now first.now × Mods netlist.bytes.now mods.now × Weights netlist.bytes.now weight.now }
    ensures { ∥ Tabled netlist.entry.bytes.now first.now mods.now weight.now nets.new at.new pins.new ∥₁ }
{
    let n = netlist.nets();
    let p = netlist.pins();
    flow::tables::build(
        &first[..n + 1],
        &mods[..p],
        &weight[..n],
        &mut nets[..p],
        &mut at[..netlist.modules() + 1],
        &mut pins[..p],
    );
}

// The arrays beside the netlist that they are of.
#[derive(Drop)]
pub struct Numbers<'a> {
    pub netlist: Netlist<'a>,
    arrays: Arrays,
    ghost firsts: { Firsts netlist.bytes.now arrays.first },
    ghost modules: { Mods netlist.bytes.now arrays.mods },
    ghost weights: { Weights netlist.bytes.now arrays.weight },
    ghost marks: { Marks netlist.bytes.now arrays.mark },
    // True of any weight, as in a board.
    ghost light: { Light netlist.bytes.now arrays.weight },
    ghost tables: { ∥ Tabled netlist.bytes.now arrays.first arrays.mods arrays.weight arrays.nets arrays.at arrays.pins ∥₁ },
}

impl<'a> Numbers<'a> {
    // Those of a book that reads. Not inlined: a caller's frame would hold the arrays twice.
    #[inline(never)]
    pub fn of(netlist: Netlist<'a>) -> Numbers<'a>
        ensures { result.netlist.bytes ≡ netlist.entry.bytes }
    {
        let mut arrays = Arrays::NEW;
        load_fronts(
            netlist,
            &mut arrays.first,
            &mut arrays.mods,
            &mut arrays.weight,
            &mut arrays.mark,
        );
        build_fronts(
            netlist,
            &arrays.first,
            &arrays.mods,
            &arrays.weight,
            &mut arrays.nets,
            &mut arrays.at,
            &mut arrays.pins,
        );
        Numbers { netlist, arrays }
    }

    // The book as a board.
    pub fn board(&self) -> Board<'_>
        ensures { Lends self.now.netlist.bytes.now result × (result.mark.now ≡ listed (format.mark self.now.netlist.bytes.now) (format.modules self.now.netlist.bytes.now)) }
    {
        self.board_with(&self.arrays.mark[..self.netlist.modules()])
    }

    // The book as a board with other marks.
    pub fn board_with<'b>(&'b self, mark: &'b [u8]) -> Board<'b>
        requires { length mark.now ≡ format.modules self.now.netlist.bytes.now }
        ensures { Lends self.now.netlist.bytes.now result × (result.mark ≡ mark.entry) }
    {
        let m = self.netlist.modules();
        let n = self.netlist.nets();
        let p = self.netlist.pins();
        Board {
            first: &self.arrays.first[..n + 1],
            mods: &self.arrays.mods[..p],
            weight: &self.arrays.weight[..n],
            nets: &self.arrays.nets[..p],
            at: &self.arrays.at[..m + 1],
            pins: &self.arrays.pins[..p],
            mark,
        }
    }
}
