// The rows of the table on gates, good and bad.
use crate::rows::{CHAIN, Row, show_all};
use gate::Gate::{self, Bounds, Share};
use std::io;
use trial::Mark::{Free, Maker, Meter};
use trial::{Card, Module, Net};

// A row of Chain: its name, and r and e of a share or low and high of bounds.
type Ends = (&'static str, f64, f64);

// A card of one free module, to areas 3 and 6 of 10.
const TENS: Card<'static> = Card {
    modules: &[Module(3, Meter), Module(3, Free), Module(4, Maker)],
    nets: &[Net(1, &[0, 1]), Net(1, &[1, 2])],
};

// Shares that are bad.
static BAD_SHARES: [Ends; 8] = [
    ("r 0", 0.0, 0.25),
    ("r minus 0", -0.0, 0.25),
    ("r below 0", -0.5, 0.25),
    ("r 1", 1.0, 0.25),
    ("r above 1", 1.5, 0.25),
    ("r not a number", f64::NAN, 0.25),
    ("r infinite", f64::INFINITY, 0.25),
    ("r infinite below 0", f64::NEG_INFINITY, 0.25),
];

// The same by e.
static BAD_SPREADS: [Ends; 7] = [
    ("e 1", 0.5, 1.0),
    ("e above 1", 0.5, 1.25),
    ("e below 0", 0.5, -0.25),
    ("e subnormal below 0", 0.5, -5.0e-324),
    ("e not a number", 0.5, f64::NAN),
    ("e infinite", 0.5, f64::INFINITY),
    ("r and e not numbers", f64::NAN, f64::NAN),
];

// Bounds that are bad.
static BAD_LOWS: [Ends; 8] = [
    ("low above high", 7.0, 5.0),
    ("low just above high", 5.000000000000001, 5.0),
    ("low below 0", -1.0, 7.0),
    ("low and high below 0", -2.0, -1.0),
    ("low subnormal below 0", -5.0e-324, 7.0),
    ("low not a number", f64::NAN, 7.0),
    ("low infinite", f64::INFINITY, 7.0),
    ("low infinite below 0", f64::NEG_INFINITY, 7.0),
];

// The same by high.
static BAD_HIGHS: [Ends; 7] = [
    ("high 16777218", 5.0, 16777218.0),
    ("high 16777217", 5.0, 16777217.0),
    ("high just above 16777216", 5.0, 16777216.000000004),
    ("high not a number", 5.0, f64::NAN),
    ("high infinite", 5.0, f64::INFINITY),
    ("low and high infinite", f64::INFINITY, f64::INFINITY),
    ("low and high not numbers", f64::NAN, f64::NAN),
];

// Shares at the ends of what is good.
static GOOD_SHARES: [Ends; 6] = [
    ("e 0", 0.5, 0.0),
    ("e minus 0", 0.5, -0.0),
    ("e just below 1", 0.5, 0.9999999999999999),
    ("r subnormal", 5.0e-324, 0.25),
    ("r just below 1", 0.9999999999999999, 0.25),
    (
        "r and e just below 1",
        0.9999999999999999,
        0.9999999999999999,
    ),
];

// The same of bounds.
static GOOD_BOUNDS: [Ends; 5] = [
    ("low minus 0", -0.0, 7.0),
    ("high minus 0", 0.0, -0.0),
    ("high 16777216", 5.0, 16777216.0),
    ("low just above 5", 5.000000000000001, 7.0),
    ("high just below 5", 4.0, 4.999999999999999),
];

// Shares whose last bit decides: each operation is rounded once, in the order written.
static ROUNDED: [Row<'static>; 7] = [
    Row {
        name: "low just above 3",
        card: TENS,
        gate: Share { r: 0.4, e: 0.25 },
    },
    Row {
        name: "low just above 6",
        card: TENS,
        gate: Share { r: 0.75, e: 0.2 },
    },
    Row {
        name: "low just above 3 by 0.6",
        card: TENS,
        gate: Share { r: 0.75, e: 0.6 },
    },
    Row {
        name: "high just below 7",
        card: Card {
            modules: &[Module(5, Meter), Module(2, Free), Module(18, Maker)],
            nets: &[Net(2, &[0, 1]), Net(1, &[1, 2])],
        },
        gate: Share { r: 0.2, e: 0.4 },
    },
    Row {
        name: "high 21",
        card: Card {
            modules: &[Module(19, Meter), Module(2, Free), Module(3, Maker)],
            nets: &[Net(2, &[0, 1]), Net(1, &[1, 2])],
        },
        gate: Share { r: 0.7, e: 0.25 },
    },
    Row {
        name: "low 13",
        card: Card {
            modules: &[Module(13, Meter), Module(2, Free), Module(10, Maker)],
            nets: &[Net(1, &[0, 1]), Net(1, &[1, 2])],
        },
        gate: Share { r: 0.65, e: 0.2 },
    },
    Row {
        name: "low just below 7",
        card: Card {
            modules: &[
                Module(3, Meter),
                Module(2, Free),
                Module(2, Free),
                Module(18, Maker),
            ],
            nets: &[Net(1, &[0, 1]), Net(1, &[1, 2]), Net(1, &[2, 3])],
        },
        gate: Share { r: 0.4, e: 0.3 },
    },
];

fn show(rt: &(impl Print + AllocGlobal), name: &str, gate: Gate) -> io::Result<()> {
    show_all(
        rt,
        &[Row {
            name,
            card: CHAIN,
            gate,
        }],
    )
}

fn show_shares(rt: &(impl Print + AllocGlobal), rows: &[Ends]) -> io::Result<()> {
    for (name, r, e) in rows {
        show(rt, name, Share { r: *r, e: *e })?;
    }
    Ok(())
}

fn show_bounds(rt: &(impl Print + AllocGlobal), rows: &[Ends]) -> io::Result<()> {
    for (name, low, high) in rows {
        show(
            rt,
            name,
            Bounds {
                low: *low,
                high: *high,
            },
        )?;
    }
    Ok(())
}

pub fn run(rt: &(impl Print + AllocGlobal)) -> io::Result<()> {
    show_shares(rt, &BAD_SHARES)?;
    show_shares(rt, &BAD_SPREADS)?;
    show_bounds(rt, &BAD_LOWS)?;
    show_bounds(rt, &BAD_HIGHS)?;
    show_shares(rt, &GOOD_SHARES)?;
    show_bounds(rt, &GOOD_BOUNDS)?;
    show_all(rt, &ROUNDED)
}
