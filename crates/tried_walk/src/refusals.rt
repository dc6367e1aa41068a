// The rows of the table on buffers.
use crate::lent::{self, Room};
use crate::rows::NONE_FREE;
use gate::Gate::{self, Bounds, Open, Share};
use std::io;
use trial::{BRIDGE, Card, FREE, MAKER, METER, Net};

// A card in buffers of these lengths. Bridge's rows need 36 bytes, those of none free 12.
#[derive(Clone, Copy)]
struct Buffers<'a> {
    name: &'a str,
    card: Card<'a>,
    gate: Gate,
    room: Room,
}

// The side needs two bytes, the rows 60.
const NINE_MARKED: Card<'static> = Card {
    modules: &[METER, METER, FREE, FREE, MAKER, MAKER, FREE, MAKER, FREE],
    nets: &[Net(2, &[0, 2]), Net(1, &[2, 6, 7])],
};

// Buffers that do, and their tails.
static LONG: [Buffers<'static>; 8] = [
    Buffers {
        name: "Bridge, no tails",
        card: BRIDGE,
        gate: Bounds {
            low: 3.0,
            high: 4.0,
        },
        room: Room(1, 36),
    },
    Buffers {
        name: "Bridge, no tails, 14",
        card: BRIDGE,
        gate: Bounds {
            low: 4.0,
            high: 4.0,
        },
        room: Room(1, 36),
    },
    Buffers {
        name: "Bridge, a tail of rows",
        card: BRIDGE,
        gate: Bounds {
            low: 3.0,
            high: 4.0,
        },
        room: Room(1, 37),
    },
    Buffers {
        name: "Bridge, a tail of the side",
        card: BRIDGE,
        gate: Bounds {
            low: 3.0,
            high: 4.0,
        },
        room: Room(2, 36),
    },
    Buffers {
        name: "Bridge, open, no tails",
        card: BRIDGE,
        gate: Open,
        room: Room(1, 36),
    },
    Buffers {
        name: "9 modules, no tails",
        card: NINE_MARKED,
        gate: Bounds {
            low: 5.0,
            high: 5.0,
        },
        room: Room(2, 60),
    },
    Buffers {
        name: "none free, rows of 12 bytes",
        card: NONE_FREE,
        gate: Bounds {
            low: 3.0,
            high: 3.0,
        },
        room: Room(1, 12),
    },
    Buffers {
        name: "none free, 14, rows of 12 bytes",
        card: NONE_FREE,
        gate: Bounds {
            low: 4.0,
            high: 4.0,
        },
        room: Room(1, 12),
    },
];

// Refusal 8.
static SHORT: [Buffers<'static>; 9] = [
    Buffers {
        name: "Bridge, rows short by one",
        card: BRIDGE,
        gate: Bounds {
            low: 3.0,
            high: 4.0,
        },
        room: Room(1, 35),
    },
    Buffers {
        name: "Bridge, open, rows short by one",
        card: BRIDGE,
        gate: Open,
        room: Room(1, 35),
    },
    Buffers {
        name: "Bridge, open, room for one row",
        card: BRIDGE,
        gate: Open,
        room: Room(1, 12),
    },
    Buffers {
        name: "Bridge, rows empty",
        card: BRIDGE,
        gate: Bounds {
            low: 3.0,
            high: 4.0,
        },
        room: Room(1, 0),
    },
    Buffers {
        name: "Bridge, side empty",
        card: BRIDGE,
        gate: Bounds {
            low: 3.0,
            high: 4.0,
        },
        room: Room(0, 36),
    },
    Buffers {
        name: "Bridge, both empty",
        card: BRIDGE,
        gate: Open,
        room: Room(0, 0),
    },
    Buffers {
        name: "9 modules, side short by one",
        card: NINE_MARKED,
        gate: Bounds {
            low: 5.0,
            high: 5.0,
        },
        room: Room(1, 60),
    },
    Buffers {
        name: "9 modules, rows short by one",
        card: NINE_MARKED,
        gate: Bounds {
            low: 5.0,
            high: 5.0,
        },
        room: Room(2, 59),
    },
    Buffers {
        name: "none free, rows of 11 bytes",
        card: NONE_FREE,
        gate: Open,
        room: Room(1, 11),
    },
];

// A bad gate comes before short buffers.
static GATE_FIRST: [Buffers<'static>; 3] = [
    Buffers {
        name: "Bridge, low above high, rows short by one",
        card: BRIDGE,
        gate: Bounds {
            low: 7.0,
            high: 5.0,
        },
        room: Room(1, 35),
    },
    Buffers {
        name: "Bridge, low above high, side empty",
        card: BRIDGE,
        gate: Bounds {
            low: 7.0,
            high: 5.0,
        },
        room: Room(0, 36),
    },
    Buffers {
        name: "Bridge, r 1, both empty",
        card: BRIDGE,
        gate: Share { r: 1.0, e: 0.25 },
        room: Room(0, 0),
    },
];

fn show_all(rt: &(impl Print + AllocGlobal), rows: &[Buffers<'_>]) -> io::Result<()> {
    for row in rows {
        let book = row.card.book(rt.alloc())?;
        lent::show(rt, row.name, &row.card, &book, row.gate, row.room)?;
    }
    Ok(())
}

pub fn run(rt: &(impl Print + AllocGlobal)) -> io::Result<()> {
    show_all(rt, &LONG)?;
    show_all(rt, &SHORT)?;
    show_all(rt, &GATE_FIRST)
}
