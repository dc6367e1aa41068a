// The rows of the table on small books, in buffers longer than they need.
use crate::lent::{self, Room};
use gate::Gate::{self, Bounds, Open, Share};
use std::io;
use trial::Mark::{Free, Maker, Meter};
use trial::{BRIDGE, Card, FREE, MAKER, METER, Module, Net};

#[derive(Clone, Copy)]
pub struct Row<'a> {
    pub name: &'a str,
    pub card: Card<'a>,
    pub gate: Gate,
}

// Bridge with all weights 1; whole, since a constant cannot cite a part of another.
pub const CHAIN: Card<'static> = Card {
    modules: &[
        Module(3, Meter),
        Module(2, Free),
        Module(2, Free),
        Module(4, Maker),
    ],
    nets: &[Net(1, &[0, 1]), Net(1, &[1, 2]), Net(1, &[2, 3])],
};

// Nine modules in a row, areas 1, all weights 1.
pub const NINE_JOINED: Card<'static> = Card {
    modules: &[METER, FREE, FREE, FREE, FREE, FREE, FREE, FREE, MAKER],
    nets: &[
        Net(1, &[0, 1]),
        Net(1, &[1, 2]),
        Net(1, &[2, 3]),
        Net(1, &[3, 4]),
        Net(1, &[4, 5]),
        Net(1, &[5, 6]),
        Net(1, &[6, 7]),
        Net(1, &[7, 8]),
    ],
};

// No free module.
pub const NONE_FREE: Card<'static> = Card {
    modules: &[Module(3, Meter), Module(4, Maker)],
    nets: &[Net(7, &[0, 1])],
};

// Document 01's cases.
static DESK: [Row<'static>; 4] = [
    Row {
        name: "Chain, bounds 5 to 7",
        card: CHAIN,
        gate: Bounds {
            low: 5.0,
            high: 7.0,
        },
    },
    Row {
        name: "Chain, share 0.5, 0.25",
        card: CHAIN,
        gate: Share { r: 0.5, e: 0.25 },
    },
    Row {
        name: "Chain, bounds 6 to 6",
        card: CHAIN,
        gate: Bounds {
            low: 6.0,
            high: 6.0,
        },
    },
    Row {
        name: "Bridge, bounds 3 to 4",
        card: BRIDGE,
        gate: Bounds {
            low: 3.0,
            high: 4.0,
        },
    },
];

// Gates that are wide.
static WIDE: [Row<'static>; 5] = [
    Row {
        name: "Chain, open",
        card: CHAIN,
        gate: Open,
    },
    Row {
        name: "Bridge, open",
        card: BRIDGE,
        gate: Open,
    },
    Row {
        name: "nine in a row, open",
        card: NINE_JOINED,
        gate: Open,
    },
    Row {
        name: "Chain, bounds 0 to 16777216",
        card: CHAIN,
        gate: Bounds {
            low: 0.0,
            high: 16777216.0,
        },
    },
    Row {
        name: "Bridge, bounds 0 to 16777216",
        card: BRIDGE,
        gate: Bounds {
            low: 0.0,
            high: 16777216.0,
        },
    },
];

// The ends of a gate are within it.
static ENDS: [Row<'static>; 6] = [
    Row {
        name: "Chain, bounds 3 to 3",
        card: CHAIN,
        gate: Bounds {
            low: 3.0,
            high: 3.0,
        },
    },
    Row {
        name: "Chain, bounds 3.5 to 5",
        card: CHAIN,
        gate: Bounds {
            low: 3.5,
            high: 5.0,
        },
    },
    Row {
        name: "Chain, bounds 5.5 to 7.5",
        card: CHAIN,
        gate: Bounds {
            low: 5.5,
            high: 7.5,
        },
    },
    Row {
        name: "Bridge, bounds 5 to 5",
        card: BRIDGE,
        gate: Bounds {
            low: 5.0,
            high: 5.0,
        },
    },
    Row {
        name: "Bridge, bounds 0 to 4.999",
        card: BRIDGE,
        gate: Bounds {
            low: 0.0,
            high: 4.999,
        },
    },
    Row {
        name: "Bridge, bounds 7 to 7",
        card: BRIDGE,
        gate: Bounds {
            low: 7.0,
            high: 7.0,
        },
    },
];

// Ended with 14, also while free modules are left on the other side.
static STUCK: [Row<'static>; 8] = [
    Row {
        name: "Chain, bounds 0 to 0",
        card: CHAIN,
        gate: Bounds {
            low: 0.0,
            high: 0.0,
        },
    },
    Row {
        name: "Chain, bounds 0 to 2.5",
        card: CHAIN,
        gate: Bounds {
            low: 0.0,
            high: 2.5,
        },
    },
    Row {
        name: "Chain, bounds 4 to 4",
        card: CHAIN,
        gate: Bounds {
            low: 4.0,
            high: 4.0,
        },
    },
    Row {
        name: "Bridge, bounds 4 to 4",
        card: BRIDGE,
        gate: Bounds {
            low: 4.0,
            high: 4.0,
        },
    },
    Row {
        name: "Chain, low above the total area",
        card: CHAIN,
        gate: Bounds {
            low: 12.0,
            high: 100.0,
        },
    },
    Row {
        name: "Bridge, low at the top",
        card: BRIDGE,
        gate: Bounds {
            low: 16777216.0,
            high: 16777216.0,
        },
    },
    Row {
        name: "all inside pinned by the round before",
        card: Card {
            modules: &[METER, FREE, Module(5, Free), MAKER],
            nets: &[Net(5, &[0, 1]), Net(1, &[1, 2]), Net(1, &[2, 3])],
        },
        gate: Bounds {
            low: 3.0,
            high: 4.0,
        },
    },
    Row {
        name: "a free module left inside",
        card: Card {
            modules: &[METER, FREE, Module(5, Free), MAKER],
            nets: &[Net(3, &[0, 1]), Net(2, &[1, 2]), Net(1, &[2, 3])],
        },
        gate: Bounds {
            low: 3.0,
            high: 6.0,
        },
    },
];

// The walk on each row's book.
pub fn show_all(rt: &(impl Print + AllocGlobal), rows: &[Row<'_>]) -> io::Result<()> {
    for row in rows {
        let book = row.card.book(rt.alloc())?;
        lent::show(rt, row.name, &row.card, &book, row.gate, Room(4, 120))?;
    }
    Ok(())
}

pub fn run(rt: &(impl Print + AllocGlobal)) -> io::Result<()> {
    show_all(rt, &DESK)?;
    show_all(rt, &WIDE)?;
    show_all(rt, &ENDS)?;
    show_all(rt, &STUCK)
}
