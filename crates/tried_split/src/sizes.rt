// The rows of the table on large books, in buffers that just do.
use crate::lent::{self, Room};
use std::io;
use trial::{Card, FREE, MAKER, METER, Module, Net};

// Three nets.
fn few(
    rt: &(impl Print + AllocGlobal),
    name: &str,
    modules: &[Module],
    pins: [&[u16]; 3],
) -> io::Result<()> {
    let [first, second, third] = pins;
    let card = Card {
        modules,
        nets: &[Net(3, first), Net(2, second), Net(4, third)],
    };
    let book = card.book(rt.alloc())?;
    lent::show(rt, name, &card, &book, Room(32, 32, 8))
}

fn few_nets(rt: &(impl Print + AllocGlobal)) -> io::Result<()> {
    let mut below = [FREE; 255];
    below[0] = METER;
    below[254] = MAKER;
    few(
        rt,
        "255 modules",
        &below,
        [&[0, 127, 253], &[127, 128, 254], &[8, 254]],
    )?;
    let mut most = [FREE; 256];
    most[8] = MAKER;
    most[255] = METER;
    few(
        rt,
        "256 modules",
        &most,
        [&[0, 7, 255], &[7, 8, 255], &[9, 247]],
    )
}

// The module of pin p. Each net has one module of each 64; modules 0 and 255 are on two nets alone.
fn module_of(p: usize) -> u16 {
    let n = p / 4 % 512;
    match p % 4 {
        0 if n % 256 == 0 => 0,
        0 => (1 + n % 63) as u16,
        1 => (64 + (3 * n + n / 8) % 64) as u16,
        2 => (128 + (5 * n + n / 16) % 64) as u16,
        _ if n % 256 == 255 => 255,
        _ => (192 + 5 * n % 63) as u16,
    }
}

// As large as a book can be: nets of weight 65535 and four pins.
fn full(rt: &(impl Print + AllocGlobal)) -> io::Result<()> {
    let mut modules = [FREE; 256];
    modules[0] = METER;
    modules[255] = MAKER;
    let pins: Vec<u16> = (0..2048).map(module_of).collect(rt.alloc())?;
    let nets: Vec<Net<'_>> = pins
        .chunks(4)
        .map(|four| Net(65535, four))
        .collect(rt.alloc())?;
    let card = Card {
        modules: &modules,
        nets: &nets,
    };
    let book = card.book(rt.alloc())?;
    lent::show(
        rt,
        "256 modules, 512 nets and 2048 pins",
        &card,
        &book,
        Room(32, 32, 2048),
    )
}

pub fn run(rt: &(impl Print + AllocGlobal)) -> io::Result<()> {
    few_nets(rt)?;
    full(rt)
}
