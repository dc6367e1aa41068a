// The rows of the table on small books, in buffers longer than they need.
use crate::lent::{self, Room};
use std::io;
use trial::{BRIDGE, Card, FAN, FREE, MAKER, METER, Net, WITHOUT_NETS};

#[derive(Clone, Copy)]
pub struct Row<'a> {
    pub name: &'a str,
    pub card: Card<'a>,
}

// Document 01's books; Chain has other areas there, which no side or price depends on.
static DESK: [Row<'static>; 2] = [
    Row {
        name: "Chain",
        card: Card {
            modules: &[METER, FREE, FREE, MAKER],
            nets: &[Net(1, &[0, 1]), Net(1, &[1, 2]), Net(1, &[2, 3])],
        },
    },
    Row {
        name: "Fan",
        card: FAN,
    },
];

// Books whose nets join little.
static LOOSE: [Row<'static>; 9] = [
    Row {
        name: "no nets",
        card: WITHOUT_NETS,
    },
    Row {
        name: "no nets, maker before meter",
        card: Card {
            modules: &[MAKER, METER],
            nets: &[],
        },
    },
    Row {
        name: "no nets, several of each",
        card: Card {
            modules: &[FREE, METER, MAKER, FREE, MAKER, METER, FREE],
            nets: &[],
        },
    },
    Row {
        name: "nets of one pin",
        card: Card {
            modules: &[METER, FREE, MAKER, FREE],
            nets: &[Net(5, &[0]), Net(7, &[1]), Net(9, &[2])],
        },
    },
    Row {
        name: "all nets on one free module",
        card: Card {
            modules: &[METER, FREE, MAKER],
            nets: &[Net(65535, &[1]), Net(65535, &[1])],
        },
    },
    Row {
        name: "free modules on no net",
        card: Card {
            modules: &[FREE, METER, FREE, MAKER],
            nets: &[Net(3, &[1, 3])],
        },
    },
    Row {
        name: "Chain and a module on no net",
        card: Card {
            modules: &[METER, FREE, FREE, MAKER, FREE],
            nets: &[Net(1, &[0, 1]), Net(1, &[1, 2]), Net(1, &[2, 3])],
        },
    },
    Row {
        name: "a piece of free modules alone",
        card: Card {
            modules: &[METER, FREE, FREE, FREE, MAKER],
            nets: &[Net(1, &[0, 4]), Net(9, &[1, 2, 3])],
        },
    },
    Row {
        name: "a piece with the meter alone",
        card: Card {
            modules: &[METER, FREE, FREE, MAKER],
            nets: &[Net(4, &[0, 1]), Net(4, &[2, 3])],
        },
    },
];

// Several meters and makers.
static MARKED: [Row<'static>; 6] = [
    Row {
        name: "meters and makers in one net",
        card: Card {
            modules: &[METER, METER, MAKER, FREE, MAKER],
            nets: &[Net(3, &[0, 1, 2, 3, 4])],
        },
    },
    Row {
        name: "two meters joined",
        card: Card {
            modules: &[METER, METER, FREE, MAKER],
            nets: &[Net(9, &[0, 1]), Net(2, &[1, 2]), Net(3, &[2, 3])],
        },
    },
    Row {
        name: "two makers joined",
        card: Card {
            modules: &[METER, FREE, MAKER, MAKER],
            nets: &[Net(3, &[0, 1]), Net(2, &[1, 2]), Net(9, &[2, 3])],
        },
    },
    Row {
        name: "both joined, two ways between",
        card: Card {
            modules: &[METER, METER, FREE, FREE, MAKER, MAKER],
            nets: &[
                Net(65535, &[0, 1]),
                Net(65535, &[4, 5]),
                Net(2, &[0, 2]),
                Net(3, &[2, 4]),
                Net(5, &[1, 3]),
                Net(1, &[3, 5]),
            ],
        },
    },
    Row {
        name: "meter and maker joined",
        card: Card {
            modules: &[METER, FREE, MAKER],
            nets: &[Net(4, &[0, 2]), Net(1, &[0, 1])],
        },
    },
    Row {
        name: "meters and makers alone",
        card: Card {
            modules: &[METER, MAKER, METER, MAKER],
            nets: &[Net(7, &[0, 1]), Net(11, &[1, 2]), Net(13, &[0, 1, 2, 3])],
        },
    },
];

// The largest weight.
static HEAVY: [Row<'static>; 5] = [
    Row {
        name: "Chain with all weights 65535",
        card: Card {
            modules: &[METER, FREE, FREE, MAKER],
            nets: &[
                Net(65535, &[0, 1]),
                Net(65535, &[1, 2]),
                Net(65535, &[2, 3]),
            ],
        },
    },
    Row {
        name: "weights 65535, 65534 and 65535",
        card: Card {
            modules: &[METER, FREE, FREE, MAKER],
            nets: &[
                Net(65535, &[0, 1]),
                Net(65534, &[1, 2]),
                Net(65535, &[2, 3]),
            ],
        },
    },
    Row {
        name: "three nets of 65535 side by side",
        card: Card {
            modules: &[METER, MAKER],
            nets: &[
                Net(65535, &[0, 1]),
                Net(65535, &[0, 1]),
                Net(65535, &[0, 1]),
            ],
        },
    },
    Row {
        name: "two of 65535 meet one of 1",
        card: Card {
            modules: &[METER, METER, FREE, MAKER],
            nets: &[Net(65535, &[0, 2]), Net(65535, &[1, 2]), Net(1, &[2, 3])],
        },
    },
    Row {
        name: "two of 65535 meet two of 65535",
        card: Card {
            modules: &[METER, METER, FREE, MAKER, MAKER],
            nets: &[
                Net(65535, &[0, 2]),
                Net(65535, &[1, 2]),
                Net(65535, &[2, 3]),
                Net(65535, &[2, 4]),
            ],
        },
    },
];

// The split of each row's book.
pub fn show_all(rt: &(impl Print + AllocGlobal), rows: &[Row<'_>]) -> io::Result<()> {
    for row in rows {
        let book = row.card.book(rt.alloc())?;
        lent::show(rt, row.name, &row.card, &book, Room(5, 4, 60))?;
    }
    Ok(())
}

pub fn run(rt: &(impl Print + AllocGlobal)) -> io::Result<()> {
    let bridge = BRIDGE.book(rt.alloc())?;
    lent::show(rt, "Bridge", &BRIDGE, &bridge, Room(2, 3, 7))?;
    show_all(rt, &DESK)?;
    show_all(rt, &LOOSE)?;
    show_all(rt, &MARKED)?;
    show_all(rt, &HEAVY)
}
