// The rows of the table on the checker: values, marks, and what it is lent.
use crate::answers;
use crate::cards::{MAKERS, METERS};
use std::io;
use trial::{BRIDGE, Card, Edited, Put, WITHOUT_NETS};

// A flow and a claimed price.
#[derive(Clone, Copy)]
pub struct Claim<'a>(pub &'a str, pub &'a [i32], pub u32);

// A side, a flow and a claimed price.
#[derive(Clone, Copy)]
struct SideClaim<'a>(&'a str, &'a [u8], &'a [i32], u32);

// A damaged Bridge, and what is lent with it.
#[derive(Clone, Copy)]
struct Damaged<'a>(Edited<'a>, &'a [u8], &'a [i32], u32);

// Refusal 13: the value, the price of the side and the claimed price.
static VALUES: [Claim<'static>; 8] = [
    Claim("its flow", &[1, -1, 1, -1, 1, -1], 1),
    Claim("claimed price 2", &[1, -1, 1, -1, 1, -1], 2),
    Claim("claimed price 0", &[1, -1, 1, -1, 1, -1], 0),
    Claim(
        "claimed price 4294967295",
        &[1, -1, 1, -1, 1, -1],
        4294967295,
    ),
    Claim("sent back", &[-1, 1, -1, 1, -1, 1], 1),
    Claim(
        "sent back, claimed price 4294967295",
        &[-1, 1, -1, 1, -1, 1],
        4294967295,
    ),
    Claim("no flow", &[0, 0, 0, 0, 0, 0], 1),
    Claim("no flow, claimed price 0", &[0, 0, 0, 0, 0, 0], 0),
];

static OTHER_SIDES: [SideClaim<'static>; 2] = [
    SideClaim("side {0}", b"\x01", &[1, -1, 1, -1, 1, -1], 1),
    SideClaim(
        "side {0}, claimed price 2",
        b"\x01",
        &[1, -1, 1, -1, 1, -1],
        2,
    ),
];

static BARE: [Claim<'static>; 3] = [
    Claim("claimed price 0", &[], 0),
    Claim("claimed price 1", &[], 1),
    Claim("claimed price 0 and a tail", &[1, -2, 3], 0),
];

// Marked modules have no rule, and the value adds up all meter modules.
static METER_FLOWS: [Claim<'static>; 5] = [
    Claim("meter 1, flow between meters", &[2, -2, 1, -1, 1, -1], 1),
    Claim(
        "meter 1, flow back between meters",
        &[-2, 2, 1, -1, 1, -1],
        1,
    ),
    Claim("meter 1, flow from it alone", &[0, 0, 1, -1, 1, -1], 1),
    Claim(
        "meter 1, flow between meters alone",
        &[1, -1, 0, 0, 0, 0],
        1,
    ),
    Claim("meter 1, claimed price 2", &[2, -2, 1, -1, 1, -1], 2),
];

static MAKER_FLOWS: [Claim<'static>; 3] = [
    Claim("maker 2, flow between makers", &[1, -1, 1, -1, 2, -2], 1),
    Claim(
        "maker 2, flow back between makers",
        &[1, -1, 1, -1, -2, 2],
        1,
    ),
    Claim(
        "maker 2, flow between makers alone",
        &[0, 0, 0, 0, 1, -1],
        1,
    ),
];

// Refusal 8: both lent buffers, before any bit of the side.
static SHORT: [SideClaim<'static>; 8] = [
    SideClaim("no byte", b"", &[1, -1, 1, -1, 1, -1], 1),
    SideClaim("no byte and a short flow", b"", &[1, -1, 1, -1, 1], 1),
    SideClaim("no byte and a broken flow", b"", &[2, -1, 1, -1, 1, -1], 1),
    SideClaim("no byte and no number", b"", &[], 1),
    SideClaim("side {1} and a short flow", b"\x02", &[1, -1, 1, -1, 1], 1),
    SideClaim("flow short by one", b"\x03", &[1, -1, 1, -1, 1], 1),
    SideClaim(
        "flow broken and short by one",
        b"\x03",
        &[2, -1, 1, -1, 1],
        1,
    ),
    SideClaim("no number", b"\x03", &[], 1),
];

// Refusal 9, and tails.
static SIDES: [SideClaim<'static>; 6] = [
    SideClaim("side {1}", b"\x02", &[1, -1, 1, -1, 1, -1], 1),
    SideClaim("side {0, 3}", b"\x09", &[1, -1, 1, -1, 1, -1], 1),
    SideClaim(
        "side {0, 1} with a spare bit set",
        b"\x13",
        &[1, -1, 1, -1, 1, -1],
        1,
    ),
    SideClaim(
        "side {1} and a broken flow",
        b"\x02",
        &[2, -1, 1, -1, 1, -1],
        1,
    ),
    SideClaim("a tail of the side", b"\x03\xFF", &[1, -1, 1, -1, 1, -1], 1),
    SideClaim(
        "a tail of the flow",
        b"\x03",
        &[1, -1, 1, -1, 1, -1, 2147483647, -2147483648],
        1,
    ),
];

// Books that are refused, whatever else is lent.
static BOOKS: [Damaged<'static>; 6] = [
    Damaged(
        Edited("Bridge cut short, all else good", 71, &[]),
        b"\x03",
        &[1, -1, 1, -1, 1, -1],
        1,
    ),
    Damaged(
        Edited("Bridge cut short, no byte and no number", 71, &[]),
        b"",
        &[],
        2,
    ),
    Damaged(
        Edited(
            "Bridge with area 0 of module 2 and a short flow",
            72,
            &[Put(40, 0)],
        ),
        b"\x03",
        &[1],
        1,
    ),
    Damaged(
        Edited(
            "Bridge with weight 0 of net 1 and a broken flow",
            72,
            &[Put(52, 0)],
        ),
        b"\x03",
        &[2, -1, 1, -1, 1, -1],
        1,
    ),
    Damaged(
        Edited(
            "Bridge with pin 5 on module 4 and a broken flow",
            72,
            &[Put(70, 4)],
        ),
        b"\x03",
        &[2, -1, 1, -1, 1, -1],
        1,
    ),
    Damaged(
        Edited("Bridge with no meter and no number", 72, &[Put(34, 0)]),
        b"\x03",
        &[],
        1,
    ),
];

// The rows of a card, all with one side.
pub fn show(
    rt: &(impl Print + AllocGlobal),
    name: &str,
    card: &Card<'_>,
    side: &[u8],
    rows: &[Claim<'_>],
) -> io::Result<()> {
    let book = card.book(rt.alloc())?;
    for Claim(claim, flow, price) in rows {
        println!(rt;
            "{name}{claim}: {}",
            answers::check(&book, side, flow, *price)
        )?;
    }
    Ok(())
}

// Bridge, with any side.
fn show_sided(rt: &(impl Print + AllocGlobal), rows: &[SideClaim<'_>]) -> io::Result<()> {
    let book = BRIDGE.book(rt.alloc())?;
    for SideClaim(name, side, flow, price) in rows {
        println!(rt;
            "Bridge, {name}: {}",
            answers::check(&book, side, flow, *price)
        )?;
    }
    Ok(())
}

fn show_damaged(rt: &(impl Print + AllocGlobal), rows: &[Damaged<'_>]) -> io::Result<()> {
    for Damaged(Edited(name, size, puts), side, flow, price) in rows {
        let book = BRIDGE.edited(rt.alloc(), puts, *size)?;
        println!(rt; "{name}: {}", answers::check(&book, side, flow, *price))?;
    }
    Ok(())
}

pub fn run(rt: &(impl Print + AllocGlobal)) -> io::Result<()> {
    show(rt, "Bridge, ", &BRIDGE, b"\x03", &VALUES)?;
    show_sided(rt, &OTHER_SIDES)?;
    show(rt, "no nets, ", &WITHOUT_NETS, b"\x01", &BARE)?;
    show(rt, "Bridge with ", &METERS, b"\x03", &METER_FLOWS)?;
    show(rt, "Bridge with ", &MAKERS, b"\x03", &MAKER_FLOWS)?;
    show_sided(rt, &SHORT)?;
    show_sided(rt, &SIDES)?;
    show_damaged(rt, &BOOKS)
}
