// The module that a round takes, and the marks after it.
#![tactic(auto, using(crate::proofs::Marks::free_more, crate::proofs::Marks::none_free))]

ghost use Rattle.std.specs.Prelude.{◌≡◌, ◌+◌, ◌/◌, ◌<◌, ◌≤◌, length};
ghost use Rattle.line.specs.Card.{either};
ghost use Rattle.line.specs.Flow.{only};
ghost use Rattle.book.specs.First.{lowest};
ghost use Rattle.book.specs.Format.{modules, mark};
ghost use Rattle.side.specs.Sides.{bytes_for};
ghost use Rattle.walk.specs.Walk.{free_in, free_to};
ghost use Rattle.walk.specs.Parts.{half_of, marks_of, free_in_row, choice_in, Pinned};

use book::netlist::Netlist;

// The modules inside X, or those outside it, as is asked.
#[derive(Clone, Copy)]
pub struct Half<'a> {
    pub x: &'a [u8],
    pub on: bool,
}

impl Half<'_> {
    // Whether module m is one of them.
    fn has(self, m: usize) -> bool
        requires { m / 8 < length self.x.now }
        ensures { result ≡ half_of self.entry m }
    {
        if self.on {
            side::inside(self.x, m)
        } else {
            !side::inside(self.x, m)
        }
    }
}

// The modules that a round chooses from: free ones of a half; and a row of those with a pin on a net that X cuts.
#[derive(Clone, Copy)]
pub struct Candidates<'a> {
    pub marks: &'a [u8],
    pub half: Half<'a>,
    pub cut: &'a [u8],
    pub ghost half_fits: { bytes_for (length marks.now) ≤ length half.x.now },
    pub ghost cut_fits: { bytes_for (length marks.now) ≤ length cut.now },
}

impl Candidates<'_> {
    // Whether module m is free and of the half.
    fn is_free(&self, m: usize) -> bool
        requires { m < length self.now.marks.now }
        ensures { result ≡ free_in (marks_of self.now.marks.now) (half_of self.now.half) m }
    {
        self.half.has(m) & (self.marks[m] == 0)
    }

    // Whether it has a pin on a net that X cuts too.
    fn is_free_in(&self, m: usize) -> bool
        requires { m < length self.now.marks.now }
        ensures { result ≡ free_in_row self.now.marks.now (half_of self.now.half) self.now.cut.now m }
    {
        self.is_free(m) & side::inside(self.cut, m)
    }

    // The lowest of the free ones. It and the next are a line each: one function over a test would be no plainer.
    fn lowest_free(&self) -> Option<usize>
        ensures { result ≡ lowest (free_in (marks_of self.now.marks.now) (half_of self.now.half)) (length self.now.marks.now) }
    {
        (0..self.marks.len()).find(|&m| self.is_free(m))
    }

    // The lowest of those with a pin on a net that X cuts.
    fn lowest_cut(&self) -> Option<usize>
        ensures { result ≡ lowest (free_in_row self.now.marks.now (half_of self.now.half) self.now.cut.now) (length self.now.marks.now) }
    {
        (0..self.marks.len()).find(|&m| self.is_free_in(m))
    }

    // The module taken: the lowest free one with a pin on a net that X cuts; if none has, the lowest free one.
    pub fn choose(&self) -> Option<usize>
        ensures { result ≡ choice_in self.now.marks.now (half_of self.now.half) self.now.cut.now }
    {
        // Tried as `or_else`: the closure over `self` promises nothing there, and the proof does not close.
        match self.lowest_cut() {
            Some(m) => Some(m),
            None => self.lowest_free(),
        }
    }
}

// Whether module i is free, and is m or of the half.
fn is_pinned(marks: &[u8], half: Half<'_>, m: usize, i: usize) -> bool
    requires { (i < length marks.now) × (bytes_for (length marks.now) ≤ length half.x.now) }
    ensures { result ≡ free_in (marks_of marks.now) (either (half_of half.entry) (only m)) i }
{
    (half.has(i) | (i == m)) & (marks[i] == 0)
}

// Pins all of a half, and module m.
pub fn pin_half(marks: &mut [u8], half: Half<'_>, m: usize, to: u8)
    requires { bytes_for (length marks.old) ≤ length half.x.now }
    ensures { Pinned to (either (half_of half.entry) (only m)) (length marks.old) marks.old marks.new }
{
    for i in 0..marks.len() {
        if is_pinned(&*marks, half, m, i) {
            marks[i] = to;
        }
    }
}

// One more where module m is free.
fn free_at(netlist: Netlist<'_>, m: usize) -> usize
    requires { m < modules netlist.bytes.now }
    ensures { (free_to (mark netlist.entry.bytes.now) (m + 1) ≡ free_to (mark netlist.entry.bytes.now) m + result) × (result ≤ 1) }
{
    usize::from(netlist.mark(m).is_free())
}

// The free modules of the book.
pub fn free_count(netlist: Netlist<'_>) -> usize
    ensures { (result ≡ free_to (mark netlist.entry.bytes.now) (modules netlist.entry.bytes.now)) × (result ≤ modules netlist.entry.bytes.now) }
{
    let mut sum = 0;
    for m in 0..netlist.modules() {
        sum += free_at(netlist, m);
    }
    sum
}
