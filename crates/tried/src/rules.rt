// The rows of the table on the checker's two rules: that of nets (refusal 11) and that of free modules (refusal 12).
use crate::cards::{HEAVY, LONE};
use crate::checks::{Claim, show};
use std::io;
use trial::{BRIDGE, Card, FAN, FREE, MAKER, METER, Net};

// Refusal 11: the numbers of a net, and its weight.
static NETS_BRIDGE: [Claim<'static>; 10] = [
    Claim("first number 2", &[2, -1, 1, -1, 1, -1], 1),
    Claim("first number 0", &[0, -1, 1, -1, 1, -1], 1),
    Claim("3 over net 0 of weight 2", &[3, -3, 1, -1, 1, -1], 1),
    Claim("3 back over net 0 of weight 2", &[-3, 3, 1, -1, 1, -1], 1),
    Claim("2 over net 1 of weight 1", &[2, -2, 2, -2, 2, -2], 2),
    Claim("3 over net 2 of weight 2", &[1, -1, 1, -1, 3, -3], 1),
    Claim("last number 0", &[1, -1, 1, -1, 1, 0], 1),
    Claim("last number -2", &[1, -1, 1, -1, 1, -2], 1),
    Claim("nets 1 and 2 broken", &[1, -1, 0, -1, 0, -1], 1),
    Claim("all nets broken", &[1, 0, 1, 0, 1, 0], 1),
];

// The same in a net of three pins and in one of one pin.
static PINS_FAN: [Claim<'static>; 4] = [
    Claim("its flow", &[1, 0, -1], 1),
    Claim("two senders", &[1, 1, -2], 1),
    Claim("two senders about a taker", &[1, -2, 1], 1),
    Claim("two takers", &[2, -1, -1], 1),
];

static PINS_LONE: [Claim<'static>; 3] = [
    Claim("carrying 0", &[2, -2, 0, 2, 0, -2], 2),
    Claim("carrying 1", &[2, -2, 1, 1, 0, -1], 2),
    Claim("carrying -1", &[1, -1, -1, 2, 0, -2], 2),
];

// Sums that would wrap at 32 bits.
static ENDS_BRIDGE: [Claim<'static>; 6] = [
    Claim(
        "net 0 of 2147483647, -2147483648",
        &[2147483647, -2147483648, 1, -1, 1, -1],
        1,
    ),
    Claim(
        "net 0 of -2147483648, 2147483647",
        &[-2147483648, 2147483647, 1, -1, 1, -1],
        1,
    ),
    Claim(
        "net 0 of 2147483647, -2147483647",
        &[2147483647, -2147483647, 1, -1, 1, -1],
        1,
    ),
    Claim(
        "net 0 of -2147483648 twice",
        &[-2147483648, -2147483648, 1, -1, 1, -1],
        1,
    ),
    Claim(
        "net 0 of 2147483647 twice",
        &[2147483647, 2147483647, 1, -1, 1, -1],
        1,
    ),
    Claim(
        "net 2 of -2147483648 twice",
        &[1, -1, 1, -1, -2147483648, -2147483648],
        1,
    ),
];

static ENDS_FAN: [Claim<'static>; 3] = [
    Claim("2147483647 twice and 2", &[2147483647, 2147483647, 2], 1),
    Claim("-2147483648 twice and 0", &[-2147483648, 0, -2147483648], 1),
    Claim(
        "-2147483648, 2147483647 and 1",
        &[-2147483648, 2147483647, 1],
        1,
    ),
];

// The largest weight, and sums that would wrap at 16 bits.
static WEIGHTS_HEAVY: [Claim<'static>; 4] = [
    Claim(
        "65535 over all nets",
        &[65535, -65535, 65535, -65535, 65535, -65535],
        65535,
    ),
    Claim(
        "65536 over all nets",
        &[65536, -65536, 65536, -65536, 65536, -65536],
        65535,
    ),
    Claim(
        "65536 over net 2",
        &[65535, -65535, 65535, -65535, 65536, -65536],
        65535,
    ),
    Claim("65537 taken of 1", &[1, -65537, 1, -1, 1, -1], 65535),
];

// Refusal 12: the lowest free module.
static MODULES_BRIDGE: [Claim<'static>; 7] = [
    Claim("module 1 sends from nothing", &[0, 0, 1, -1, 1, -1], 1),
    Claim(
        "module 1 keeps all, value and price equal",
        &[1, -1, 0, 0, 0, 0],
        1,
    ),
    Claim("module 1 keeps one of two", &[2, -2, 1, -1, 1, -1], 1),
    Claim("module 2 sends from nothing", &[0, 0, 0, 0, 1, -1], 1),
    Claim("module 2 keeps all", &[1, -1, 1, -1, 0, 0], 1),
    Claim("module 1 sends, module 2 keeps", &[0, 0, 1, -1, 0, 0], 1),
    Claim("module 1 keeps, module 2 sends", &[1, -1, 0, 0, 1, -1], 1),
];

static MODULES_FAN: [Claim<'static>; 2] = [
    Claim("module 1 keeps all", &[1, -1, 0], 1),
    Claim("module 1 sends from nothing", &[0, 1, -1], 1),
];

// Two faults at once.
static BOTH_BRIDGE: [Claim<'static>; 5] = [
    Claim("module 1 keeps and net 2 broken", &[1, -1, 0, 0, 1, 0], 1),
    Claim("module 1 keeps and 3 over net 2", &[1, -1, 0, 0, 3, -3], 1),
    Claim(
        "module 1 sends and claimed price 0",
        &[0, 0, 1, -1, 1, -1],
        0,
    ),
    Claim(
        "module 2 keeps and claimed price 2",
        &[1, -1, 1, -1, 0, 0],
        2,
    ),
    Claim(
        "net 0 broken and claimed price 2",
        &[2, -1, 1, -1, 1, -1],
        2,
    ),
];

// Bridge, and the side {0, 1}.
fn bridge(rt: &(impl Print + AllocGlobal), rows: &[Claim<'_>]) -> io::Result<()> {
    show(rt, "Bridge, ", &BRIDGE, b"\x03", rows)
}

// Fan, and the side {0}.
fn fan(rt: &(impl Print + AllocGlobal), rows: &[Claim<'_>]) -> io::Result<()> {
    show(rt, "Fan, ", &FAN, b"\x01", rows)
}

// One net of weight 1 with all 256 modules, the side {0} and the price 1. All numbers are x, but the first is a and the last z.
fn wide(rt: &(impl Print + AllocGlobal), name: &str, x: i32, a: i32, z: i32) -> io::Result<()> {
    let mut modules = [FREE; 256];
    modules[0] = METER;
    modules[1] = MAKER;
    let pins: Vec<u16> = (0..256).collect(rt.alloc())?;
    let card = Card {
        modules: &modules,
        nets: &[Net(1, &pins)],
    };
    let mut side = [0; 32];
    side[0] = 1;
    let mut flow = [x; 256];
    flow[0] = a;
    flow[255] = z;
    show(
        rt,
        "a net of 256 pins, ",
        &card,
        &side,
        &[Claim(name, &flow, 1)],
    )
}

pub fn run(rt: &(impl Print + AllocGlobal)) -> io::Result<()> {
    bridge(rt, &NETS_BRIDGE)?;
    fan(rt, &PINS_FAN)?;
    show(rt, "a net of one pin, ", &LONE, b"\x03", &PINS_LONE)?;
    bridge(rt, &ENDS_BRIDGE)?;
    fan(rt, &ENDS_FAN)?;
    wide(
        rt,
        "2147483647 but the last -2147483648",
        i32::MAX,
        i32::MAX,
        i32::MIN,
    )?;
    show(
        rt,
        "Bridge with all weights 65535, ",
        &HEAVY,
        b"\x03",
        &WEIGHTS_HEAVY,
    )?;
    bridge(rt, &MODULES_BRIDGE)?;
    fan(rt, &MODULES_FAN)?;
    wide(rt, "module 255 keeps all", 0, 1, -1)?;
    bridge(rt, &BOTH_BRIDGE)
}
