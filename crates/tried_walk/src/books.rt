// The rows of the table on refused books.
use crate::lent::{self, Room};
use gate::Gate::{self, Bounds, Open, Share};
use std::io;
use trial::{BRIDGE, Edited, ONE, Put};

// A damaged Bridge, and what is lent with it.
#[derive(Clone, Copy)]
struct Damaged<'a> {
    book: Edited<'a>,
    gate: Gate,
    room: Room,
}

// Refusals 1 to 6.
static BOOKS: [Damaged<'static>; 7] = [
    Damaged {
        book: Edited("Bridge cut short", 71, &[]),
        gate: Bounds {
            low: 5.0,
            high: 7.0,
        },
        room: Room(4, 40),
    },
    Damaged {
        book: Edited("one byte after Bridge", 73, &[]),
        gate: Bounds {
            low: 5.0,
            high: 7.0,
        },
        room: Room(4, 40),
    },
    Damaged {
        book: Edited("area 0 of module 2", 72, &[Put(40, 0)]),
        gate: Bounds {
            low: 5.0,
            high: 7.0,
        },
        room: Room(4, 40),
    },
    Damaged {
        book: Edited("weight 0 of net 1", 72, &[Put(52, 0)]),
        gate: Bounds {
            low: 5.0,
            high: 7.0,
        },
        room: Room(4, 40),
    },
    Damaged {
        book: Edited("pin 5 names module 4", 72, &[Put(70, 4)]),
        gate: Bounds {
            low: 5.0,
            high: 7.0,
        },
        room: Room(4, 40),
    },
    Damaged {
        book: Edited("no meter module", 72, &[Put(34, 0)]),
        gate: Open,
        room: Room(4, 40),
    },
    Damaged {
        book: Edited("no maker module", 72, &[Put(46, 0)]),
        gate: Open,
        room: Room(4, 40),
    },
];

// A book's refusal comes before that of the gate and that of the buffers.
static BOOK_FIRST: [Damaged<'static>; 6] = [
    Damaged {
        book: Edited("Bridge cut short, low above high", 71, &[]),
        gate: Bounds {
            low: 7.0,
            high: 5.0,
        },
        room: Room(4, 40),
    },
    Damaged {
        book: Edited("mark 3 of module 1, low above high", 72, &[Put(38, 3)]),
        gate: Bounds {
            low: 7.0,
            high: 5.0,
        },
        room: Room(4, 40),
    },
    Damaged {
        book: Edited("pin 3 falls, e 1", 72, &[Put(66, 0)]),
        gate: Share { r: 0.5, e: 1.0 },
        room: Room(4, 40),
    },
    Damaged {
        book: Edited("no meter module, low above high", 72, &[Put(34, 0)]),
        gate: Bounds {
            low: 7.0,
            high: 5.0,
        },
        room: Room(4, 40),
    },
    Damaged {
        book: Edited("Bridge cut short, both empty", 71, &[]),
        gate: Bounds {
            low: 5.0,
            high: 7.0,
        },
        room: Room(0, 0),
    },
    Damaged {
        book: Edited(
            "no maker module, low above high, both empty",
            72,
            &[Put(46, 0)],
        ),
        gate: Bounds {
            low: 7.0,
            high: 5.0,
        },
        room: Room(0, 0),
    },
];

fn show_all(rt: &(impl Print + AllocGlobal), rows: &[Damaged<'_>]) -> io::Result<()> {
    for row in rows {
        let Edited(name, size, puts) = row.book;
        let book = BRIDGE.edited(rt.alloc(), puts, size)?;
        lent::show(rt, name, &BRIDGE, &book, row.gate, row.room)?;
    }
    Ok(())
}

pub fn run(rt: &(impl Print + AllocGlobal)) -> io::Result<()> {
    show_all(rt, &BOOKS)?;
    show_all(rt, &BOOK_FIRST)?;
    let gate = Bounds {
        low: 7.0,
        high: 5.0,
    };
    lent::show(
        rt,
        "1 module",
        &ONE,
        &ONE.book(rt.alloc())?,
        gate,
        Room(0, 0),
    )
}
