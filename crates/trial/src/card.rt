// Books made from lists.
ghost use Rattle.std.specs.Prelude.{◌≡◌, ◌+◌, ◌≤◌, ◌<◌, ◌++◌, [], length, take, drop, vec_len, replicate, ◌-◌, min, IfOk, OnOk};
ghost use Rattle.book.specs.Marks.{number_of};
ghost use Rattle.trial.specs.Bytes.{two_bytes, four_bytes, entry, contents};
ghost use Rattle.trial.specs.Cards.{module_records, pin_records, net_records, all_pins, book_of, put_over, edited_of};

use book::mark::Mark;
use std::alloc::{AllocError, Global};

// A module: its area and its mark.
#[derive(Clone, Copy)]
pub struct Module(pub u16, pub Mark);

// The modules of area 1.
pub const FREE: Module = Module(1, Mark::Free);

pub const METER: Module = Module(1, Mark::Meter);

pub const MAKER: Module = Module(1, Mark::Maker);

// A net: its weight and its pins.
#[derive(Clone, Copy)]
pub struct Net<'a>(pub u16, pub &'a [u16]);

// The three bodies of a book, as far as they are written.
#[derive(Drop)]
pub struct Draft {
    pub modules: Vec<u8>,
    pub nets: Vec<u8>,
    pub pins: Vec<u8>,
}

fn push(body: &mut Vec<u8>, x: u16) -> Result<(), AllocError>
    ensures { OnOk result (body.new.items ≡ body.old.items ++ two_bytes x) }
{
    body.extend_from_slice(&x.to_le_bytes())
}

fn push_wide(body: &mut Vec<u8>, x: u32) -> Result<(), AllocError>
    ensures { OnOk result (body.new.items ≡ body.old.items ++ four_bytes x) }
{
    body.extend_from_slice(&x.to_le_bytes())
}

fn capped(n: usize) -> u32
    ensures { result ≡ min n u32.MAX }
{
    u32::try_from(n).unwrap_or(u32::MAX)
}

// An entry of the contents: a kind of body, where the body starts and its length.
fn push_entry(book: &mut Vec<u8>, kind: u16, start: usize, size: usize) -> Result<(), AllocError>
    ensures { OnOk result (book.new.items ≡ book.old.items ++ entry kind start size) }
{
    push(&mut *book, kind)?;
    push_wide(&mut *book, capped(start))?;
    push_wide(&mut *book, capped(size))
}

impl Draft {
    // A book without a record.
    pub fn new(alloc: Global) -> Draft
        ensures { (result.modules.items ≡ []) × (result.nets.items ≡ []) × (result.pins.items ≡ []) }
    {
        Draft {
            modules: Vec::new(alloc),
            nets: Vec::new(alloc),
            pins: Vec::new(alloc),
        }
    }

    // A module.
    pub fn add_module(&mut self, area: u16, mark: Mark) -> Result<(), AllocError>
        ensures added { OnOk result (self.new.modules.items ≡ self.old.modules.items ++ two_bytes area ++ two_bytes (number_of mark)) }
        ensures others { (self.new.nets.items ≡ self.old.nets.items) × (self.new.pins.items ≡ self.old.pins.items) }
    {
        push(&mut self.modules, area)?;
        push(&mut self.modules, u16::from(u8::from(mark)))
    }

    // A net, and how many pins it has; the pins are added apart.
    pub fn add_net(&mut self, weight: u16, pins: u16) -> Result<(), AllocError>
        ensures added { OnOk result (self.new.nets.items ≡ self.old.nets.items ++ two_bytes weight ++ two_bytes pins) }
        ensures others { (self.new.modules.items ≡ self.old.modules.items) × (self.new.pins.items ≡ self.old.pins.items) }
    {
        push(&mut self.nets, weight)?;
        push(&mut self.nets, pins)
    }

    // A pin, on module m.
    pub fn add_pin(&mut self, m: u16) -> Result<(), AllocError>
        ensures added { OnOk result (self.new.pins.items ≡ self.old.pins.items ++ two_bytes m) }
        ensures others { (self.new.modules.items ≡ self.old.modules.items) × (self.new.nets.items ≡ self.old.nets.items) }
    {
        push(&mut self.pins, m)
    }

    fn add_modules(&mut self, modules: &[Module]) -> Result<(), AllocError>
        ensures added { OnOk result (self.new.modules.items ≡ self.old.modules.items ++ module_records modules.now) }
        ensures others { (self.new.nets.items ≡ self.old.nets.items) × (self.new.pins.items ≡ self.old.pins.items) }
    {
        for m in modules {
            self.add_module(m.0, m.1)?;
        }
        Ok(())
    }

    fn add_pins(&mut self, pins: &[u16]) -> Result<(), AllocError>
        ensures added { OnOk result (self.new.pins.items ≡ self.old.pins.items ++ pin_records pins.now) }
        ensures others { (self.new.modules.items ≡ self.old.modules.items) × (self.new.nets.items ≡ self.old.nets.items) }
    {
        for m in pins {
            self.add_pin(*m)?;
        }
        Ok(())
    }

    // Nets and their pins; a count beyond two bytes is the largest that they hold.
    fn add_nets(&mut self, nets: &[Net<'_>]) -> Result<(), AllocError>
        ensures added { OnOk result (self.new.nets.items ≡ self.old.nets.items ++ net_records nets.now) }
        ensures pins { OnOk result (self.new.pins.items ≡ self.old.pins.items ++ all_pins nets.now) }
        ensures others { self.new.modules.items ≡ self.old.modules.items }
    {
        for net in nets {
            self.add_net(net.0, u16::try_from(net.1.len()).unwrap_or(u16::MAX))?;
            self.add_pins(net.1)?;
        }
        Ok(())
    }

    // The book: its contents and the three bodies.
    pub fn book(&self, alloc: Global) -> Result<Vec<u8>, AllocError>
        ensures { IfOk result (λ v. v.items ≡
            contents (vec_len self.now.modules) (vec_len self.now.nets) (vec_len self.now.pins)
            ++ self.now.modules.items ++ self.now.nets.items ++ self.now.pins.items) }
    {
        let nets_at = self.modules.len().saturating_add(32);
        let pins_at = nets_at.saturating_add(self.nets.len());
        let mut book = Vec::new(alloc);
        push(&mut book, 3)?;
        push_entry(&mut book, 1, 32, self.modules.len())?;
        push_entry(&mut book, 2, nets_at, self.nets.len())?;
        push_entry(&mut book, 3, pins_at, self.pins.len())?;
        book.extend_from_slice(&self.modules)?;
        book.extend_from_slice(&self.nets)?;
        book.extend_from_slice(&self.pins)?;
        Ok(book)
    }
}

// A card from lists: its modules and its nets.
#[derive(Clone, Copy)]
pub struct Card<'a> {
    pub modules: &'a [Module],
    pub nets: &'a [Net<'a>],
}

// A number of two bytes to be put over what stands at an offset.
#[derive(Clone, Copy)]
pub struct Put(pub u16, pub u16);

impl Put {
    // Puts it over a book; what lies outside is left out.
    pub fn over(self, book: &mut [u8])
        ensures { book.new ≡ put_over book.old self }
    {
        let at = usize::from(self.0);
        if at + 2 <= book.len() {
            book[at..at + 2].copy_from_slice(&self.1.to_le_bytes());
        }
    }
}

// A row on a damaged book: its name, the book's length, and the numbers put over it.
#[derive(Clone, Copy)]
pub struct Edited<'a>(pub &'a str, pub usize, pub &'a [Put]);

impl Card<'_> {
    // The book of the card.
    pub fn book(&self, alloc: Global) -> Result<Vec<u8>, AllocError>
        ensures { IfOk result (λ v. v.items ≡ book_of self.now.modules.now self.now.nets.now) }
    {
        let mut draft = Draft::new(alloc);
        draft.add_modules(self.modules)?;
        draft.add_nets(self.nets)?;
        draft.book(alloc)
    }

    // The book with numbers put over its own, cut to a length or filled up with zeros.
    pub fn edited(&self, alloc: Global, puts: &[Put], size: usize) -> Result<Vec<u8>, AllocError>
        ensures { IfOk result (λ v. v.items ≡ edited_of (book_of self.now.modules.now self.now.nets.now) puts.now size) }
    {
        let mut book = self.book(alloc)?;
        for x in puts {
            x.over(book.as_mut_slice());
        }
        book.resize(size, 0)?;
        Ok(book)
    }
}

// Bridge.
pub const BRIDGE: Card<'static> = Card {
    modules: &[
        Module(3, Mark::Meter),
        Module(2, Mark::Free),
        Module(2, Mark::Free),
        Module(4, Mark::Maker),
    ],
    nets: &[Net(2, &[0, 1]), Net(1, &[1, 2]), Net(2, &[2, 3])],
};

pub const FAN: Card<'static> = Card {
    modules: &[METER, FREE, MAKER],
    nets: &[Net(1, &[0, 1, 2])],
};

pub const WITHOUT_NETS: Card<'static> = Card {
    modules: &[METER, MAKER],
    nets: &[],
};

// A module alone, which no book may have.
pub const ONE: Card<'static> = Card {
    modules: &[METER],
    nets: &[],
};
