// The rows of the table on books with many ways from meter to maker, nets of many pins, and sides that end within a byte.
use crate::rows::{Row, show_all};
use std::io;
use trial::{Card, FREE, MAKER, METER, Net};

// A way that takes back what an earlier one sent.
static UNDONE: [Row<'static>; 5] = [
    Row {
        name: "five nets, a cross first",
        card: Card {
            modules: &[METER, FREE, FREE, MAKER],
            nets: &[
                Net(1, &[1, 2]),
                Net(1, &[0, 1]),
                Net(1, &[2, 3]),
                Net(1, &[0, 2]),
                Net(1, &[1, 3]),
            ],
        },
    },
    Row {
        name: "the shortest way taken back",
        card: Card {
            modules: &[METER, FREE, FREE, MAKER, FREE, FREE, FREE, FREE],
            nets: &[
                Net(1, &[0, 1]),
                Net(1, &[1, 2]),
                Net(1, &[2, 3]),
                Net(1, &[0, 4]),
                Net(1, &[4, 5]),
                Net(1, &[2, 5]),
                Net(1, &[1, 6]),
                Net(1, &[6, 7]),
                Net(1, &[3, 7]),
            ],
        },
    },
    Row {
        name: "what took it back taken back",
        card: Card {
            modules: &[
                METER, FREE, FREE, FREE, FREE, FREE, FREE, FREE, FREE, FREE, FREE, FREE, FREE,
                FREE, FREE, MAKER,
            ],
            nets: &[
                Net(1, &[0, 1]),
                Net(1, &[1, 2]),
                Net(1, &[2, 15]),
                Net(1, &[0, 3]),
                Net(1, &[3, 4]),
                Net(1, &[2, 4]),
                Net(1, &[1, 5]),
                Net(1, &[5, 6]),
                Net(1, &[6, 15]),
                Net(1, &[0, 7]),
                Net(1, &[7, 8]),
                Net(1, &[4, 8]),
                Net(1, &[3, 9]),
                Net(1, &[9, 10]),
                Net(1, &[10, 11]),
                Net(1, &[11, 12]),
                Net(1, &[12, 13]),
                Net(1, &[13, 14]),
                Net(1, &[14, 15]),
            ],
        },
    },
    Row {
        name: "taken back in nets of many pins",
        card: Card {
            modules: &[FREE, FREE, FREE, FREE, FREE, FREE, METER, MAKER, FREE],
            nets: &[
                Net(2, &[0, 1, 3, 7]),
                Net(65535, &[4, 5, 7]),
                Net(1, &[4, 6, 7]),
                Net(1, &[0, 7]),
                Net(3, &[0, 1, 3]),
                Net(3, &[1, 5, 6]),
                Net(1, &[1, 7]),
                Net(5, &[0, 5, 6]),
                Net(65535, &[0, 1, 6]),
            ],
        },
    },
    Row {
        name: "the same with two of each mark",
        card: Card {
            modules: &[
                FREE, METER, MAKER, FREE, FREE, FREE, FREE, METER, MAKER, FREE,
            ],
            nets: &[
                Net(3, &[0, 1, 8]),
                Net(65534, &[1, 3, 4, 6]),
                Net(65534, &[2, 4]),
                Net(3, &[8]),
                Net(65534, &[2]),
                Net(3, &[0, 9]),
                Net(3, &[3, 5, 8]),
                Net(65535, &[0, 5, 6, 7]),
                Net(2, &[0, 2]),
                Net(5, &[0, 3, 8]),
            ],
        },
    },
];

// Nets of many pins, and near and far sides far apart.
static MANY: [Row<'static>; 4] = [
    Row {
        name: "a net of twelve pins",
        card: Card {
            modules: &[
                FREE, FREE, FREE, FREE, METER, FREE, FREE, MAKER, FREE, FREE, FREE, FREE,
            ],
            nets: &[Net(7, &[0, 1, 2, 3, 4, 5, 6, 7, 8, 9, 10, 11])],
        },
    },
    Row {
        name: "a net of twelve pins and others",
        card: Card {
            modules: &[
                FREE, FREE, FREE, FREE, METER, FREE, FREE, MAKER, FREE, FREE, FREE, FREE,
            ],
            nets: &[
                Net(7, &[0, 1, 2, 3, 4, 5, 6, 7, 8, 9, 10, 11]),
                Net(2, &[0, 4, 5]),
                Net(4, &[6, 7]),
                Net(1, &[1, 7, 11]),
            ],
        },
    },
    Row {
        name: "a middle piece and pieces apart",
        card: Card {
            modules: &[METER, FREE, FREE, FREE, FREE, MAKER, FREE, FREE, FREE],
            nets: &[
                Net(9, &[0, 1]),
                Net(2, &[1, 2]),
                Net(9, &[2, 3]),
                Net(2, &[3, 4]),
                Net(9, &[4, 5]),
                Net(1, &[6, 7]),
            ],
        },
    },
    Row {
        name: "two cheapest cuts side by side",
        card: Card {
            modules: &[METER, FREE, FREE, FREE, FREE, MAKER],
            nets: &[
                Net(3, &[0, 1]),
                Net(3, &[1, 2]),
                Net(3, &[2, 5]),
                Net(5, &[0, 3]),
                Net(5, &[3, 4]),
                Net(9, &[4, 5]),
            ],
        },
    },
];

// Sides that end within a byte, and at its end.
static BITS: [Row<'static>; 4] = [
    Row {
        name: "7 modules",
        card: Card {
            modules: &[METER, MAKER, FREE, FREE, FREE, FREE, FREE],
            nets: &[Net(2, &[0, 6]), Net(1, &[1, 5, 6])],
        },
    },
    Row {
        name: "8 modules",
        card: Card {
            modules: &[METER, MAKER, FREE, FREE, FREE, FREE, FREE, FREE],
            nets: &[Net(2, &[0, 7]), Net(1, &[1, 6, 7])],
        },
    },
    Row {
        name: "9 modules",
        card: Card {
            modules: &[MAKER, FREE, FREE, FREE, FREE, FREE, FREE, FREE, METER],
            nets: &[Net(2, &[7, 8]), Net(1, &[0, 6, 7])],
        },
    },
    Row {
        name: "16 modules",
        card: Card {
            modules: &[
                MAKER, FREE, FREE, FREE, FREE, FREE, FREE, FREE, FREE, FREE, FREE, FREE, FREE,
                FREE, FREE, METER,
            ],
            nets: &[Net(2, &[7, 8, 15]), Net(1, &[0, 7]), Net(1, &[8, 9])],
        },
    },
];

pub fn run(rt: &(impl Print + AllocGlobal)) -> io::Result<()> {
    show_all(rt, &UNDONE)?;
    show_all(rt, &MANY)?;
    show_all(rt, &BITS)
}
