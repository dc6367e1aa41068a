// A side: a row of bits in lent bytes, module m at bit m mod 8 of byte m div 8. Its count, its area, its price, and what a move changes.
#![tactic(auto, using(crate::proofs::Sides::lent, crate::proofs::Sides::sound_netlist))]

ghost use Rattle.std.specs.Prelude.{◌≡◌, cond, ◌*◌, ◌/◌, ◌≤◌, ◌<◌, length, pos, ◌-ℤ◌, true, false, IfOk, IfErr, Ok, Err};
ghost use Rattle.line.specs.Card.{crosses, cost, price, count_to};
ghost use Rattle.book.specs.Checks.{most_modules};
ghost use Rattle.book.specs.Format.{modules, nets, area, weight, pin_count};
ghost use Rattle.book.specs.declared.Refusal.TheVariants.{Buffer};
ghost use Rattle.book.specs.Cards.{pin_of, net_of, nets_of, area_of};
ghost use Rattle.side.specs.Sides.{side_of, bytes_for, SpareClear, spare_test, with_bit, without_bit};
ghost use Rattle.side.specs.Given.{AtNet, misplaced, separates, is_short, is_good, given};
ghost use Rattle.side.specs.Prices.{most_number, most_area, most_price, priced};
ghost use Rattle.side.specs.Moves.{is_free, change_of, changed_good, changed, apart_of, crosses_with};

use book::Refusal;
use book::mark::Mark;
use book::netlist::Netlist;

// A net apart from one module: whether that module has a pin on it, and whether another module's pin is on the side, and off it.
#[derive(Clone, Copy)]
struct Apart {
    has: bool,
    on: bool,
    off: bool,
}

// A side beside its netlist, long enough for its modules: module m at bit m mod 8 of byte m div 8.
#[derive(Clone, Copy)]
pub struct Sided<'a> {
    pub netlist: Netlist<'a>,
    pub bits: &'a [u8],
    ghost enough: { bytes_for (modules netlist.bytes.now) ≤ length bits.now },
}

// Whether module m is on the side.
pub fn inside(side: &[u8], m: usize) -> bool
    requires { m / 8 < length side.now }
    ensures { result ≡ side_of side.now m }
{
    let at = m / 8;
    let b = side[at];
    (b >> (m % 8)) & 1 == 1
}

// Puts module m on the side.
pub fn put(side: &mut [u8], m: usize)
    requires { m / 8 < length side.old }
    ensures { side.new ≡ with_bit side.old m }
{
    let at = m / 8;
    side[at] = side[at] | (1 << (m % 8));
}

// Takes module m off the side.
pub fn take_off(side: &mut [u8], m: usize)
    requires { m / 8 < length side.old }
    ensures { side.new ≡ without_bit side.old m }
{
    let at = m / 8;
    side[at] = side[at] & (255 - (1 << (m % 8)));
}

// How many ones the first n bytes of a side have: the modules of those bytes that are on the side.
fn ones(side: &[u8], n: usize) -> usize
    requires { (n ≤ length side.now) × (n ≤ bytes_for most_modules) }
    ensures { (result ≡ count_to (side_of side.now) (n * 8)) × (result ≤ n * 8) }
{
    let mut sum = 0;
    for i in 0..n {
        sum += u8::count_ones(side[i]) as usize;
    }
    sum
}

impl<'a> Sided<'a> {
    // Check 8: the side beside its netlist, where it is as long as the modules need.
    pub fn new(netlist: Netlist<'a>, bits: &'a [u8]) -> Result<Sided<'a>, Refusal>
        ensures good { IfOk result (λ s. (s.netlist.bytes ≡ netlist.entry.bytes) × (s.bits ≡ bits.entry) × (is_short netlist.entry.bytes.now bits.now ≡ false)) }
        ensures short { IfErr result (λ why. (why ≡ Buffer) × (is_short netlist.entry.bytes.now bits.now ≡ true)) }
    {
        if is_short(netlist, bits) {
            return Err(Refusal::Buffer);
        }
        Ok(Sided { netlist, bits })
    }

    // How many modules of the book are on a side whose spare bits are 0.
    pub fn count(self) -> usize
        requires { SpareClear self.bits.now (modules self.netlist.bytes.now) }
        ensures { result ≡ count_to (side_of self.entry.bits.now) (modules self.entry.netlist.bytes.now) }
    {
        ones(self.bits, (self.netlist.modules() + 7) / 8)
    }

    // Whether the spare bits of a side are 0.
    pub fn spare_clear(self) -> bool
        ensures { result ≡ spare_test self.entry.bits.now (modules self.entry.netlist.bytes.now) }
    {
        let m = self.netlist.modules();
        let j = m % 8;
        if j == 0 {
            return true;
        }
        let at = m / 8;
        let b = self.bits[at];
        b >> j == 0
    }

    // Whether module m is a meter off the side, or a maker on it.
    fn misplaced(self, m: usize) -> bool
        requires { m < modules self.netlist.bytes.now }
        ensures { result ≡ misplaced self.entry.netlist.bytes.now (side_of self.entry.bits.now) m }
    {
        let on = inside(self.bits, m);
        match self.netlist.mark(m) {
            Mark::Free => false,
            Mark::Meter => !on,
            Mark::Maker => on,
        }
    }

    // Whether a side holds every meter module and no maker module.
    pub fn separates(self) -> bool
        ensures { result ≡ separates self.entry.netlist.bytes.now (side_of self.entry.bits.now) }
    {
        (0..self.netlist.modules()).all(|m| !self.misplaced(m))
    }

    // What module m adds to the area of a side: its own area where it is on it.
    fn area_at(self, m: usize) -> usize
        requires { m < modules self.netlist.bytes.now }
        ensures { (result ≡ cond (side_of self.entry.bits.now m) (area self.entry.netlist.bytes.now m) 0) × (result ≤ most_number) }
    {
        if inside(self.bits, m) {
            self.netlist.area(m)
        } else {
            0
        }
    }

    // The area of a side.
    pub fn area(self) -> usize
        ensures { (result ≡ area_of self.entry.netlist.bytes.now (side_of self.entry.bits.now)) × (result ≤ most_area) }
    {
        let mut sum = 0;
        for m in 0..self.netlist.modules() {
            sum += self.area_at(m);
        }
        sum
    }

    // Whether net n has a pin on the side and a pin off it. A net with a netlist of its own would have to be asked to be of this one.
    pub fn crosses(self, n: usize, first: usize) -> bool
        requires { AtNet self.netlist.bytes.now n first }
        ensures { result ≡ crosses (side_of self.entry.bits.now) (net_of self.entry.netlist.bytes.now n) }
    {
        let mut on = false;
        let mut off = false;
        for j in 0..self.netlist.pin_count(n) {
            let b = inside(self.bits, pin_of(self.netlist, n, first, j));
            on = on | b;
            off = off | !b;
        }
        on & off
    }

    // What net n costs: its weight where it crosses.
    fn cost(self, n: usize, first: usize) -> usize
        requires { AtNet self.netlist.bytes.now n first }
        ensures { (result ≡ cost (side_of self.entry.bits.now) (net_of self.entry.netlist.bytes.now n)) × (result ≤ most_number) }
    {
        weigh(self.netlist, n, self.crosses(n, first))
    }

    // The price of a side: each net that crosses, once.
    pub fn price(self) -> usize
        ensures { (result ≡ price (nets_of self.entry.netlist.bytes.now) (side_of self.entry.bits.now)) × (result ≤ most_price) }
    {
        let mut sum = 0;
        let mut first = 0;
        for n in 0..self.netlist.nets() {
            sum += self.cost(n, first);
            first += self.netlist.pin_count(n);
        }
        sum
    }

    // Net n apart from module m.
    fn apart_from(self, n: usize, first: usize, m: usize) -> Apart
        requires { AtNet self.netlist.bytes.now n first }
        ensures { result ≡ apart_of (side_of self.entry.bits.now) m (net_of self.entry.netlist.bytes.now n) }
    {
        let mut has = false;
        let mut on = false;
        let mut off = false;
        for j in 0..self.netlist.pin_count(n) {
            let p = pin_of(self.netlist, n, first, j);
            let b = inside(self.bits, p);
            let own = p == m;
            has = has | own;
            on = on | (b & !own);
            off = off | (!b & !own);
        }
        Apart { has, on, off }
    }

    // The price after module m is moved to the other side, less the price before. Each pin is read once, and only a net with a pin of m adds to either sum.
    pub fn change(self, m: usize) -> i64
        requires { m < modules self.netlist.bytes.now }
        ensures { result ≡ change_of self.entry.netlist.bytes.now (side_of self.entry.bits.now) m }
    {
        let on = inside(self.bits, m);
        let mut gained = 0;
        let mut lost = 0;
        let mut first = 0;
        for n in 0..self.netlist.nets() {
            let a = self.apart_from(n, first, m);
            let before = crosses_with(a, on);
            let after = crosses_with(a, !on);
            gained += weigh(self.netlist, n, after & !before);
            lost += weigh(self.netlist, n, before & !after);
            first += self.netlist.pin_count(n);
        }
        less(gained, lost)
    }

    // Check 9 passes: the side holds every meter module and no maker module, and its spare bits are 0.
    pub fn is_good(self) -> bool
        ensures { result ≡ is_good self.entry.netlist.bytes.now self.entry.bits.now }
    {
        self.separates() & self.spare_clear()
    }
}

// The module of pin j of net n.
pub fn pin_of(netlist: Netlist<'_>, n: usize, first: usize, j: usize) -> usize
    requires { AtNet netlist.bytes.now n first × (j < pin_count netlist.bytes.now n) }
    ensures { (result ≡ pin_of netlist.entry.bytes.now n j) × (result < modules netlist.entry.bytes.now) }
{
    netlist.pin(first + j)
}

// The weight of net n where it counts, and 0 where it does not.
fn weigh(netlist: Netlist<'_>, n: usize, counts: bool) -> usize
    requires { n < nets netlist.bytes.now }
    ensures { (result ≡ cond counts (weight netlist.entry.bytes.now n) 0) × (result ≤ most_number) }
{
    if counts { netlist.weight(n) } else { 0 }
}

// Whether a net crosses with the module it was taken apart from on the side, or off it.
fn crosses_with(a: Apart, on: bool) -> bool
    ensures { result ≡ crosses_with a on }
{
    (a.on | (a.has & on)) & (a.off | (a.has & !on))
}

// What is gained less what is lost.
fn less(gained: usize, lost: usize) -> i64
    requires { (gained ≤ most_price) × (lost ≤ most_price) }
    ensures { result ≡ pos gained -ℤ pos lost }
{
    gained as i64 - lost as i64
}

// Check 8: the side is shorter than its modules need.
pub fn is_short(netlist: Netlist<'_>, side: &[u8]) -> bool
    ensures { result ≡ is_short netlist.entry.bytes.now side.now }
{
    side.len() < (netlist.modules() + 7) / 8
}

// Whether m is a free module of the book.
pub fn is_free(netlist: Netlist<'_>, m: usize) -> bool
    ensures { result ≡ is_free netlist.entry.bytes.now m }
{
    if m >= netlist.modules() {
        return false;
    }
    netlist.mark(m).is_free()
}

// Checks 1 to 6, 8 and 9, on any bytes: the side beside its netlist. Inlined, as a frame of its own would stand under each call.
#[inline(always)]
fn check<'a>(book: &'a [u8], side: &'a [u8]) -> Result<Sided<'a>, Refusal>
    ensures good { IfOk result (λ s. (s.netlist.bytes ≡ book.entry) × (s.bits ≡ side.entry) × (given book.now side.now ≡ Ok tt)) }
    ensures why { IfErr result (λ why. given book.now side.now ≡ Err why) }
{
    let sided = Sided::new(Netlist::new(book)?, side)?;
    if !sided.is_good() {
        return Err(Refusal::Side);
    }
    Ok(sided)
}

// The price of a side, on any bytes: checks 1 to 6, 8 and 9 first.
pub fn price(book: &[u8], side: &[u8]) -> Result<usize, Refusal>
    ensures { result ≡ priced book.now side.now }
{
    let sided = check(book, side)?;
    Ok(sided.price())
}

// What moving one module to the other side changes in the price, on any bytes: checks 1 to 6 and 8 to 10 first.
pub fn change(book: &[u8], side: &[u8], m: u32) -> Result<i64, Refusal>
    ensures { result ≡ changed book.now side.now m }
{
    let sided = check(book, side)?;
    if !is_free(sided.netlist, m as usize) {
        return Err(Refusal::Move);
    }
    Ok(sided.change(m as usize))
}
