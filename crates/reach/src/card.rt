// A card and a flow on it, as they are lent.
ghost use Rattle.std.specs.Prelude.{◌≡◌, ◌+◌, ◌≤◌, ◌<◌, length};

use std::ops::Range;

// The nets of a card: the pins of net n are first[n] .. first[n + 1], `mods` has the module of each pin.
#[derive(Clone, Copy)]
pub struct Card<'a> {
    pub first: &'a [u16],
    pub mods: &'a [u16],
    pub weight: &'a [u16],
    ghost ends: { length first.now ≡ length weight.now + 1 },
}

impl<'a> Card<'a> {
    // How many nets the rows have room for.
    pub(crate) fn count(&self) -> usize
        ensures few { result ≤ 512 }
        ensures within { result ≤ length self.now.weight.now }
    {
        self.weight.len().min(crate::NETS)
    }

    // The pins of net n, as far as there are such.
    fn pins(&self, n: usize) -> Range<usize>
        requires { n < length self.now.weight.now }
        ensures rises { result.start ≤ result.end }
        ensures within { result.end ≤ length self.now.mods.now }
    {
        let end = usize::from(self.first[n + 1]).min(self.mods.len());
        usize::from(self.first[n]).min(end)..end
    }

    // The modules of the pins of net n.
    pub(crate) fn modules(&self, n: usize) -> &'a [u16]
        requires { n < length self.now.weight.now }
    {
        let pins = self.pins(n);
        &self.mods[pins.start..pins.end]
    }
}

// A flow on a card: what goes into the net at each pin, and what each net sends.
#[derive(Clone, Copy)]
pub struct Flow<'a, 'b> {
    pub card: Card<'a>,
    pub sums: &'b [u32],
    pub flow: &'b [i32],
    ghost nets: { length sums.now ≡ length card.weight.now },
    ghost pins: { length flow.now ≡ length card.mods.now },
}

impl<'b> Flow<'_, 'b> {
    // What goes into net n at its pins.
    pub(crate) fn at(&self, n: usize) -> &'b [i32]
        requires { n < length self.now.card.weight.now }
    {
        let pins = self.card.pins(n);
        &self.flow[pins.start..pins.end]
    }

    // Has net n no room for more than it sends?
    pub(crate) fn is_full(&self, n: usize) -> bool
        requires { n < length self.now.card.weight.now }
    {
        self.sums[n] >= u32::from(self.card.weight[n])
    }
}
