// A book that reads, with its numbers. What the checks found stands in the type, so that no call asks it again.
#![tactic(auto, using(crate::proofs::Netlists::laid_netlist))]

ghost use Rattle.std.specs.Prelude.{◌≡◌, ◌<◌, is_ok, IfOk, Err, IfErr};
ghost use Rattle.book.specs.Format.{modules, nets, pins, area, mark, weight, pin_count, pin};
ghost use Rattle.book.specs.Checks.{read_of};
ghost use Rattle.book.specs.Marks.{number_of};
ghost use Rattle.book.specs.Sound.{Sound};

use crate::Refusal;
use crate::layout::Layout;
use crate::mark::Mark;

#[derive(Clone, Copy)]
pub struct Netlist<'a> {
    pub bytes: &'a [u8],
    ghost sound: { ∥ Sound bytes.now ∥₁ },
}

impl<'a> Netlist<'a> {
    // The book, where it reads: checks 1 to 6.
    pub fn new(book: &'a [u8]) -> Result<Netlist<'a>, Refusal>
        ensures reads { is_ok result ≡ is_ok (read_of book.now) }
        ensures same { IfOk result (λ n. n.bytes ≡ book.entry) }
        ensures why { IfErr result (λ why. read_of book.now ≡ Err why) }
    {
        crate::read(book)?;
        Ok(Netlist { bytes: book })
    }

    // It is laid out right.
    fn layout(self) -> Layout<'a>
        ensures { result.bytes ≡ self.entry.bytes }
    {
        Layout { bytes: self.bytes }
    }

    // How many modules it has. This and what follows hand the call on, so that a caller needs no word of the layout.
    pub fn modules(self) -> usize
        ensures { result ≡ modules self.entry.bytes.now }
    {
        self.layout().modules()
    }

    pub fn nets(self) -> usize
        ensures { result ≡ nets self.entry.bytes.now }
    {
        self.layout().nets()
    }

    pub fn pins(self) -> usize
        ensures { result ≡ pins self.entry.bytes.now }
    {
        self.layout().pins()
    }

    // The area of module m.
    pub fn area(self, m: usize) -> usize
        requires { m < modules self.bytes.now }
        ensures { (result ≡ area self.entry.bytes.now m) × (result < 65536) }
    {
        self.layout().area(m)
    }

    pub fn mark(self, m: usize) -> Mark
        requires { m < modules self.bytes.now }
        ensures { number_of result ≡ mark self.entry.bytes.now m }
    {
        let mark = self.layout().mark(m);
        if mark == 0 {
            return Mark::Free;
        }
        if mark == 1 { Mark::Meter } else { Mark::Maker }
    }

    // The weight of net n.
    pub fn weight(self, n: usize) -> usize
        requires { n < nets self.bytes.now }
        ensures { (result ≡ weight self.entry.bytes.now n) × (result < 65536) }
    {
        self.layout().weight(n)
    }

    pub fn pin_count(self, n: usize) -> usize
        requires { n < nets self.bytes.now }
        ensures { (result ≡ pin_count self.entry.bytes.now n) × (result < 65536) }
    {
        self.layout().pin_count(n)
    }

    // The module of pin p.
    pub fn pin(self, p: usize) -> usize
        requires { p < pins self.bytes.now }
        ensures { (result ≡ pin self.entry.bytes.now p) × (result < 65536) }
    {
        self.layout().pin(p)
    }
}
