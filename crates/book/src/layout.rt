// A book that is laid out right: the numbers that stand in it, and checks 2 to 6 of document 01, one by one. What check 1 found stands in the type.
#![tactic(auto, using(crate::proofs::Laid::laid_facts))]

ghost use Rattle.std.specs.Prelude.{◌≡◌, ◌+◌, ◌*◌, ◌<◌, ◌≤◌, length, is_some, IfSome};
ghost use Rattle.book.specs.Format.{laid, Laid, u32, field, modules, nets, pins, area, mark, weight, pin_count, pin, first_pin};
ghost use Rattle.book.specs.Checks.{bad_module, bad_net, bad_pin, counted, check3, check4, check5, lacks, most_nets, rest_of};

use crate::{Book, Refusal, u16_at, u32_at};

#[derive(Clone, Copy)]
pub struct Layout<'a> {
    pub bytes: &'a [u8],
    ghost right: { Laid bytes.now },
}

impl<'a> Layout<'a> {
    // Check 1: the book, where it is laid out right.
    pub fn new(book: &'a [u8]) -> Option<Layout<'a>>
        ensures right { is_some result ≡ laid book.now }
        ensures same { IfSome result (λ l. l.bytes ≡ book.entry) }
    {
        if crate::checks::is_laid(book) {
            Some(Layout { bytes: book })
        } else {
            None
        }
    }

    // How many modules a book has.
    pub fn modules(self) -> usize
        ensures { result ≡ modules self.entry.bytes.now }
    {
        u32_at(self.bytes, 8) / 4
    }

    pub fn nets(self) -> usize
        ensures { result ≡ nets self.entry.bytes.now }
    {
        u32_at(self.bytes, 18) / 4
    }

    pub fn pins(self) -> usize
        ensures { result ≡ pins self.entry.bytes.now }
    {
        u32_at(self.bytes, 28) / 2
    }

    // The number i bytes into the body whose start stands at `entry`.
    fn field(self, entry: usize, i: usize) -> usize
        requires { (entry + 4 ≤ length self.bytes.now) × (u32 self.bytes.now entry + i + 2 ≤ length self.bytes.now) }
        ensures { (result ≡ field self.entry.bytes.now entry i) × (result < 65536) }
    {
        u16_at(self.bytes, u32_at(self.bytes, entry) + i)
    }

    pub fn area(self, m: usize) -> usize
        requires { m < modules self.bytes.now }
        ensures { (result ≡ area self.entry.bytes.now m) × (result < 65536) }
    {
        self.field(4, 4 * m)
    }

    pub fn mark(self, m: usize) -> usize
        requires { m < modules self.bytes.now }
        ensures { (result ≡ mark self.entry.bytes.now m) × (result < 65536) }
    {
        self.field(4, 4 * m + 2)
    }

    pub fn weight(self, n: usize) -> usize
        requires { n < nets self.bytes.now }
        ensures { (result ≡ weight self.entry.bytes.now n) × (result < 65536) }
    {
        self.field(14, 4 * n)
    }

    pub fn pin_count(self, n: usize) -> usize
        requires { n < nets self.bytes.now }
        ensures { (result ≡ pin_count self.entry.bytes.now n) × (result < 65536) }
    {
        self.field(14, 4 * n + 2)
    }

    pub fn pin(self, p: usize) -> usize
        requires { p < pins self.bytes.now }
        ensures { (result ≡ pin self.entry.bytes.now p) × (result < 65536) }
    {
        self.field(24, 2 * p)
    }

    // Check 2: the counts are within the largest numbers.
    fn is_counted(self) -> bool
        ensures { result ≡ counted self.entry.bytes.now }
    {
        let m = self.modules();
        (Book::LEAST_MODULES <= m)
            & (m <= Book::MODULES)
            & (self.nets() <= Book::NETS)
            & (self.pins() <= Book::PINS)
    }

    // An area of 0 or a mark above 2.
    fn module_is_bad(self, m: usize) -> bool
        requires { m < modules self.bytes.now }
        ensures { result ≡ bad_module self.entry.bytes.now m }
    {
        (self.area(m) == 0) | (self.mark(m) > 2)
    }

    // Check 3: the first module that is bad.
    fn bad_module(self) -> Option<usize>
        ensures { result ≡ check3 self.entry.bytes.now }
    {
        (0..self.modules()).find(|&m| self.module_is_bad(m))
    }

    // A weight or pin count of 0.
    fn net_is_bad(self, n: usize) -> bool
        requires { n < nets self.bytes.now }
        ensures { result ≡ bad_net self.entry.bytes.now n }
    {
        (self.weight(n) == 0) | (self.pin_count(n) == 0)
    }

    // Check 4: the first net that is bad; failing that, the number of nets where the pin counts do not add up.
    fn bad_net(self) -> Option<usize>
        requires { nets self.bytes.now ≤ most_nets }
        ensures { result ≡ check4 self.entry.bytes.now }
    {
        let count = self.nets();
        let mut sum = 0;
        for n in 0..count {
            if self.net_is_bad(n) {
                return Some(n);
            }
            sum += self.pin_count(n);
        }
        if sum == self.pins() {
            None
        } else {
            Some(count)
        }
    }

    // The pin at p, pin j of its net: it names no module, or does not rise above the pin before it.
    fn pin_is_bad(self, p: usize, j: usize) -> bool
        requires { (p < pins self.bytes.now) × (j ≤ p) }
        ensures { result ≡ bad_pin self.entry.bytes.now p j }
    {
        let m = self.pin(p);
        let limit = self.modules();
        if 0 < j {
            (limit <= m) | (m <= self.pin(p - 1))
        } else {
            limit <= m
        }
    }

    // Check 5: the first pin that is bad, net after net.
    fn bad_pin(self) -> Option<usize>
        requires { first_pin self.bytes.now (nets self.bytes.now) ≡ pins self.bytes.now }
        ensures { result ≡ check5 self.entry.bytes.now }
    {
        let mut p = 0;
        'nets: {
            for n in 0..self.nets() {
                for j in 0..self.pin_count(n) {
                    if self.pin_is_bad(p, j) {
                        break 'nets Some(p);
                    }
                    p += 1;
                }
            }
            None
        }
    }

    // Check 6, of one mark: no module has it.
    fn lacks(self, wanted: usize) -> bool
        ensures { result ≡ lacks self.entry.bytes.now wanted }
    {
        (0..self.modules()).all(|m| self.mark(m) != wanted)
    }

    // Checks 2 to 6.
    pub(crate) fn read(self) -> Result<Book, Refusal>
        ensures { result ≡ rest_of self.entry.bytes.now }
    {
        if !self.is_counted() {
            return Err(Refusal::Counts);
        }
        if let Some(m) = self.bad_module() {
            return Err(Refusal::Module(m));
        }
        if let Some(n) = self.bad_net() {
            return Err(Refusal::Net(n));
        }
        if let Some(p) = self.bad_pin() {
            return Err(Refusal::Pin(p));
        }
        if self.lacks(1) | self.lacks(2) {
            return Err(Refusal::Marks);
        }
        Ok(Book {
            modules: self.modules(),
            nets: self.nets(),
            pins: self.pins(),
        })
    }
}
