// The rows of the table on buffers and on refused books.
use crate::lent::{self, Room};
use std::io;
use trial::{BRIDGE, Card, Edited, FREE, MAKER, METER, Net, ONE, Put};

// A card in buffers of these lengths.
#[derive(Clone, Copy)]
struct Buffers<'a>(&'a str, Card<'a>, Room);

// The sides need two bytes, the flow four numbers.
const NINE: Card<'static> = Card {
    modules: &[METER, FREE, FREE, FREE, FREE, FREE, FREE, FREE, MAKER],
    nets: &[Net(2, &[0, 7]), Net(1, &[7, 8])],
};

// The flow needs no number.
const BARE: Card<'static> = Card {
    modules: &[METER, FREE, MAKER],
    nets: &[],
};

// Buffers that do, and their tails.
static LONG: [Buffers<'static>; 7] = [
    Buffers("Bridge, no tails", BRIDGE, Room(1, 1, 6)),
    Buffers("Bridge, a tail of near", BRIDGE, Room(4, 1, 6)),
    Buffers("Bridge, a tail of far", BRIDGE, Room(1, 4, 6)),
    Buffers("Bridge, a tail of flow", BRIDGE, Room(1, 1, 9)),
    Buffers("9 modules, no tail", NINE, Room(2, 2, 4)),
    Buffers("no nets, an empty flow", BARE, Room(1, 1, 0)),
    Buffers("no nets, a tail of flow", BARE, Room(1, 1, 3)),
];

// Refusal 8.
static SHORT: [Buffers<'static>; 10] = [
    Buffers("Bridge, near empty", BRIDGE, Room(0, 1, 6)),
    Buffers("Bridge, far empty", BRIDGE, Room(1, 0, 6)),
    Buffers("Bridge, flow short by one", BRIDGE, Room(1, 1, 5)),
    Buffers("Bridge, flow empty", BRIDGE, Room(1, 1, 0)),
    Buffers("Bridge, all empty", BRIDGE, Room(0, 0, 0)),
    Buffers("Bridge, near empty and tails", BRIDGE, Room(0, 4, 9)),
    Buffers("9 modules, near short by one", NINE, Room(1, 2, 4)),
    Buffers("9 modules, far short by one", NINE, Room(2, 1, 4)),
    Buffers("9 modules, flow short by one", NINE, Room(2, 2, 3)),
    Buffers("no nets, all empty", BARE, Room(0, 0, 0)),
];

// Refusals 1 to 6.
static BOOKS: [Edited<'static>; 11] = [
    Edited("Bridge cut short", 71, &[]),
    Edited("one byte after Bridge", 73, &[]),
    Edited("no bytes", 0, &[]),
    Edited("area 0 of module 2", 72, &[Put(40, 0)]),
    Edited("mark 3 of module 1", 72, &[Put(38, 3)]),
    Edited("weight 0 of net 1", 72, &[Put(52, 0)]),
    Edited("pin counts one too few", 72, &[Put(58, 1)]),
    Edited("pin 5 names module 4", 72, &[Put(70, 4)]),
    Edited("pin 3 falls", 72, &[Put(66, 0)]),
    Edited("no meter module", 72, &[Put(34, 0)]),
    Edited("no maker module", 72, &[Put(46, 0)]),
];

// A book's refusal comes before that of the buffers.
static BOTH: [Edited<'static>; 5] = [
    Edited("Bridge cut short, all empty", 71, &[]),
    Edited("area 0 of module 2, all empty", 72, &[Put(40, 0)]),
    Edited("weight 0 of net 1, all empty", 72, &[Put(52, 0)]),
    Edited("pin 5 names module 4, all empty", 72, &[Put(70, 4)]),
    Edited("no meter module, all empty", 72, &[Put(34, 0)]),
];

fn show(rt: &(impl Print + AllocGlobal), row: &Buffers<'_>) -> io::Result<()> {
    let Buffers(name, card, room) = *row;
    let book = card.book(rt.alloc())?;
    lent::show(rt, name, &card, &book, room)
}

fn show_edited(rt: &(impl Print + AllocGlobal), row: &Edited<'_>, room: Room) -> io::Result<()> {
    let Edited(name, size, puts) = *row;
    let book = BRIDGE.edited(rt.alloc(), puts, size)?;
    lent::show(rt, name, &BRIDGE, &book, room)
}

pub fn run(rt: &(impl Print + AllocGlobal)) -> io::Result<()> {
    for row in &LONG {
        show(rt, row)?;
    }
    for row in &SHORT {
        show(rt, row)?;
    }
    for row in &BOOKS {
        show_edited(rt, row, Room(2, 3, 8))?;
    }
    show(rt, &Buffers("1 module", ONE, Room(1, 1, 0)))?;
    for row in &BOTH {
        show_edited(rt, row, Room(0, 0, 0))?;
    }
    show(rt, &Buffers("1 module, all empty", ONE, Room(0, 0, 0)))
}
