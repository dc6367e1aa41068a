// The rows of the table on the rounds of a walk: which module each one pins, if any is free.
use crate::rows::{NINE_JOINED, NONE_FREE, Row, show_all};
use gate::Gate::{Bounds, Open};
use std::io;
use trial::Mark::{Free, Maker, Meter};
use trial::{Card, FREE, MAKER, METER, Module, Net};

// Modules that no net joins to the cut: the lowest-numbered free one is taken.
static LOOSE: [Row<'static>; 5] = [
    Row {
        name: "no nets, bounds 4 to 5",
        card: Card {
            modules: &[METER, Module(2, Free), FREE, Module(3, Free), MAKER],
            nets: &[],
        },
        gate: Bounds {
            low: 4.0,
            high: 5.0,
        },
    },
    Row {
        name: "no nets, bounds 0 to 0.5",
        card: Card {
            modules: &[METER, Module(2, Free), MAKER],
            nets: &[],
        },
        gate: Bounds {
            low: 0.0,
            high: 0.5,
        },
    },
    Row {
        name: "a piece with the meter, above",
        card: Card {
            modules: &[METER, Module(2, Free), Module(3, Free), MAKER],
            nets: &[Net(1, &[0, 1, 2])],
        },
        gate: Bounds {
            low: 1.0,
            high: 4.0,
        },
    },
    Row {
        name: "the cut net has no free module",
        card: Card {
            modules: &[FREE, FREE, METER, MAKER, FREE],
            nets: &[Net(1, &[2, 3])],
        },
        gate: Bounds {
            low: 3.0,
            high: 3.0,
        },
    },
    Row {
        name: "separate pieces, below",
        card: Card {
            modules: &[Module(2, Maker), FREE, FREE, FREE, FREE, METER],
            nets: &[Net(4, &[1, 2]), Net(4, &[3, 4])],
        },
        gate: Bounds {
            low: 3.0,
            high: 3.0,
        },
    },
];

// A module on a cut net is taken before a lower one that is on none.
static CHOICE: [Row<'static>; 4] = [
    Row {
        name: "outside, 3 before 1",
        card: Card {
            modules: &[METER, FREE, FREE, FREE, MAKER],
            nets: &[Net(1, &[0, 3]), Net(1, &[1, 2]), Net(1, &[3, 4])],
        },
        gate: Bounds {
            low: 2.0,
            high: 2.0,
        },
    },
    Row {
        name: "inside, 2 before 1",
        card: Card {
            modules: &[METER, FREE, FREE, FREE, MAKER],
            nets: &[Net(9, &[0, 1, 3]), Net(2, &[0, 2]), Net(1, &[2, 3, 4])],
        },
        gate: Bounds {
            low: 1.0,
            high: 3.0,
        },
    },
    Row {
        name: "a cut net of four, 1 before 2",
        card: Card {
            modules: &[METER, FREE, FREE, MAKER],
            nets: &[Net(3, &[0, 1, 2, 3])],
        },
        gate: Bounds {
            low: 2.0,
            high: 2.0,
        },
    },
    Row {
        name: "an uncut net of one pin",
        card: Card {
            modules: &[METER, FREE, FREE, MAKER],
            nets: &[Net(5, &[1]), Net(1, &[0, 2, 3])],
        },
        gate: Bounds {
            low: 2.0,
            high: 2.0,
        },
    },
];

// Several meter and maker modules, and none that is free.
static MARKS: [Row<'static>; 6] = [
    Row {
        name: "two meters, bounds 4 to 4",
        card: Card {
            modules: &[METER, FREE, METER, FREE, MAKER],
            nets: &[Net(2, &[0, 1, 2]), Net(1, &[1, 2, 3]), Net(1, &[3, 4])],
        },
        gate: Bounds {
            low: 4.0,
            high: 4.0,
        },
    },
    Row {
        name: "three meters and two makers",
        card: Card {
            modules: &[
                Module(2, Meter),
                Module(3, Maker),
                METER,
                FREE,
                Module(4, Free),
                Module(2, Meter),
                MAKER,
            ],
            nets: &[Net(3, &[0, 3]), Net(2, &[2, 3, 4]), Net(1, &[4, 5, 6])],
        },
        gate: Bounds {
            low: 5.0,
            high: 6.0,
        },
    },
    Row {
        name: "none free, within",
        card: NONE_FREE,
        gate: Bounds {
            low: 3.0,
            high: 3.0,
        },
    },
    Row {
        name: "none free, below",
        card: NONE_FREE,
        gate: Bounds {
            low: 4.0,
            high: 7.0,
        },
    },
    Row {
        name: "none free, above",
        card: NONE_FREE,
        gate: Bounds {
            low: 0.0,
            high: 2.0,
        },
    },
    Row {
        name: "none free, open",
        card: Card {
            modules: &[Module(4, Maker), Module(3, Meter)],
            nets: &[],
        },
        gate: Open,
    },
];

// Many rounds, and both ways in one walk.
static LONG: [Row<'static>; 5] = [
    Row {
        name: "nine in a row, bounds 5 to 5",
        card: NINE_JOINED,
        gate: Bounds {
            low: 5.0,
            high: 5.0,
        },
    },
    Row {
        name: "nine in a row, bounds 9 to 9",
        card: NINE_JOINED,
        gate: Bounds {
            low: 9.0,
            high: 9.0,
        },
    },
    Row {
        name: "below, then above",
        card: Card {
            modules: &[METER, FREE, Module(4, Free), FREE, MAKER],
            nets: &[
                Net(1, &[0, 1]),
                Net(9, &[1, 2]),
                Net(1, &[2, 3]),
                Net(9, &[3, 4]),
            ],
        },
        gate: Bounds {
            low: 3.0,
            high: 4.0,
        },
    },
    Row {
        name: "above, then below",
        card: Card {
            modules: &[METER, FREE, Module(6, Free), FREE, MAKER],
            nets: &[
                Net(3, &[0, 1]),
                Net(5, &[1, 2]),
                Net(4, &[2, 3]),
                Net(2, &[3, 4]),
            ],
        },
        gate: Bounds {
            low: 4.0,
            high: 5.0,
        },
    },
    Row {
        name: "large numbers",
        card: Card {
            modules: &[
                Module(65535, Meter),
                Module(65535, Free),
                Module(65535, Free),
                Module(65535, Maker),
            ],
            nets: &[
                Net(65535, &[0, 1]),
                Net(65535, &[0, 1]),
                Net(65534, &[1, 2]),
                Net(65535, &[1, 2, 3]),
            ],
        },
        gate: Bounds {
            low: 131070.0,
            high: 131070.0,
        },
    },
];

pub fn run(rt: &(impl Print + AllocGlobal)) -> io::Result<()> {
    show_all(rt, &LOOSE)?;
    show_all(rt, &CHOICE)?;
    show_all(rt, &MARKS)?;
    show_all(rt, &LONG)
}
