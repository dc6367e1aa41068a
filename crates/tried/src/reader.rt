// The reader's rows of the table: Bridge with at most four numbers put over its own, and books made to size.
use crate::answers;
use std::io;
use trial::{BRIDGE, Draft, Edited, Mark, Put};

// A book of so many modules, nets and pins, each net with so many of the first modules.
#[derive(Clone, Copy)]
struct Sized<'a>(&'a str, u16, u16, u16, u16);

// Refusal 1, and Bridge itself.
static LAYOUT: [Edited<'static>; 17] = [
    Edited("Bridge", 72, &[]),
    Edited("no bytes", 0, &[]),
    Edited("31 bytes", 31, &[]),
    Edited("cut short by one byte", 71, &[]),
    Edited("cut short by the last pin", 70, &[]),
    Edited("one byte after the last pin", 73, &[]),
    Edited("count of entries 4", 72, &[Put(0, 4)]),
    Edited("count of entries 2", 72, &[Put(0, 2)]),
    Edited("kind of the first entry 2", 72, &[Put(2, 2)]),
    Edited("kind of the last entry 4", 72, &[Put(22, 4)]),
    Edited("first body at 30", 72, &[Put(4, 30)]),
    Edited("second body one record early", 72, &[Put(14, 44)]),
    Edited("third body one byte late", 72, &[Put(24, 61)]),
    Edited("last length one pin short", 72, &[Put(28, 10)]),
    Edited("last length one pin long", 72, &[Put(28, 14)]),
    Edited("modules of 18 bytes", 72, &[Put(8, 18), Put(14, 50)]),
    // The sum of the lengths is right but for a multiple of 2^32.
    Edited(
        "lengths that wrap at 2^32",
        72,
        &[Put(18, 0xFFFC), Put(20, 0xFFFF), Put(24, 44), Put(28, 28)],
    ),
];

// Refusal 2: every limit on both sides.
static LIMITS: [Sized<'static>; 10] = [
    Sized("1 module", 1, 0, 0, 1),
    Sized("2 modules, no nets", 2, 0, 0, 1),
    Sized("32 bytes: no bodies", 0, 0, 0, 1),
    Sized("256 modules", 256, 512, 2048, 4),
    Sized("257 modules", 257, 512, 2048, 4),
    Sized("512 nets", 3, 512, 1024, 2),
    Sized("513 nets", 3, 513, 1026, 2),
    Sized("2048 pins in 8 nets", 256, 8, 2048, 256),
    Sized("2049 pins", 256, 512, 2049, 4),
    Sized("257 modules, 513 nets and 2049 pins", 257, 513, 2049, 4),
];

// Refusal 3: areas and marks.
static MODULES: [Edited<'static>; 7] = [
    Edited("area 1 of module 0", 72, &[Put(32, 1)]),
    Edited("area 65535 of module 3", 72, &[Put(44, 65535)]),
    Edited("area 0 of module 0", 72, &[Put(32, 0)]),
    Edited("area 0 of module 3", 72, &[Put(44, 0)]),
    Edited("mark 3 of module 0", 72, &[Put(34, 3)]),
    Edited("mark 3 of module 3", 72, &[Put(46, 3)]),
    Edited("mark 65535 of module 1", 72, &[Put(38, 65535)]),
];

// Refusal 4: weights and pin counts.
static NETS: [Edited<'static>; 8] = [
    Edited("weight 0 of net 0", 72, &[Put(48, 0)]),
    Edited("weight 0 of net 2", 72, &[Put(56, 0)]),
    Edited("weight 65535 of net 2", 72, &[Put(56, 65535)]),
    Edited("pin count 0 of net 0", 72, &[Put(50, 0)]),
    Edited("pin count 0 of net 2", 72, &[Put(58, 0)]),
    Edited("pin counts one too few", 72, &[Put(58, 1)]),
    Edited("pin counts one too many", 72, &[Put(50, 3)]),
    Edited(
        "pin counts far too many",
        72,
        &[Put(50, 65535), Put(54, 65535)],
    ),
];

// Refusals 5 and 6: pins, meter and maker.
static PINS: [Edited<'static>; 10] = [
    Edited("pin 0 names module 4", 72, &[Put(60, 4)]),
    Edited("pin 5 names module 4", 72, &[Put(70, 4)]),
    Edited("pin 5 names module 65535", 72, &[Put(70, 65535)]),
    Edited("pin 1 equals pin 0", 72, &[Put(62, 0)]),
    Edited("pin 5 equals pin 4", 72, &[Put(70, 2)]),
    Edited("pin 3 falls", 72, &[Put(66, 0)]),
    Edited("no meter module", 72, &[Put(34, 0)]),
    Edited("no maker module", 72, &[Put(46, 0)]),
    Edited("neither", 72, &[Put(34, 0), Put(46, 0)]),
    Edited("two meters", 72, &[Put(38, 1)]),
];

// Two faults at once.
static BOTH: [Edited<'static>; 15] = [
    Edited("layout and area", 72, &[Put(32, 0), Put(28, 10)]),
    Edited("area of module 3 and pin 0", 72, &[Put(44, 0), Put(60, 4)]),
    Edited("area of module 0 and pin 5", 72, &[Put(32, 0), Put(70, 4)]),
    Edited(
        "area of module 3 and weight of net 0",
        72,
        &[Put(44, 0), Put(48, 0)],
    ),
    Edited(
        "area of module 3 and mark of module 1",
        72,
        &[Put(44, 0), Put(38, 3)],
    ),
    Edited(
        "mark of module 3 and area of module 1",
        72,
        &[Put(46, 3), Put(36, 0)],
    ),
    Edited("weight of net 2 and pin 0", 72, &[Put(56, 0), Put(60, 4)]),
    Edited(
        "weight of net 2 and pin count of net 1",
        72,
        &[Put(56, 0), Put(54, 0)],
    ),
    Edited(
        "pin count of net 2 and weight of net 1",
        72,
        &[Put(58, 0), Put(52, 0)],
    ),
    Edited(
        "weight of net 2 and pin counts too many",
        72,
        &[Put(56, 0), Put(50, 3)],
    ),
    Edited(
        "pin counts too few and pin 0",
        72,
        &[Put(58, 1), Put(60, 4)],
    ),
    Edited(
        "pin 5 names no module and pin 3 falls",
        72,
        &[Put(70, 4), Put(66, 0)],
    ),
    Edited(
        "pin 3 names no module and pin 5 falls",
        72,
        &[Put(66, 4), Put(70, 2)],
    ),
    Edited("pin 5 and no meter module", 72, &[Put(70, 4), Put(34, 0)]),
    Edited(
        "area of module 0 and no maker module",
        72,
        &[Put(32, 0), Put(46, 0)],
    ),
];

fn show(rt: &(impl Print + AllocGlobal), rows: &[Edited<'_>]) -> io::Result<()> {
    for Edited(name, size, puts) in rows {
        let book = BRIDGE.edited(rt.alloc(), puts, *size)?;
        println!(rt; "{name}: {}", answers::read(&book))?;
    }
    Ok(())
}

// The first module is meter, the second maker, the others free; a net has the modules 0, 1, ..
fn show_sized(rt: &(impl Print + AllocGlobal), row: &Sized<'_>) -> io::Result<()> {
    let Sized(name, modules, nets, pins, each) = *row;
    let mut draft = Draft::new(rt.alloc());
    for m in 0..modules {
        let mark = match m {
            0 => Mark::Meter,
            1 => Mark::Maker,
            _ => Mark::Free,
        };
        draft.add_module(1, mark)?;
    }
    for _ in 0..nets {
        draft.add_net(1, each)?;
    }
    for m in (0..each).cycle().take(usize::from(pins)) {
        draft.add_pin(m)?;
    }
    println!(rt; "{name}: {}", answers::read(&draft.book(rt.alloc())?))
}

pub fn run(rt: &(impl Print + AllocGlobal)) -> io::Result<()> {
    show(rt, &LAYOUT)?;
    for row in &LIMITS {
        show_sized(rt, row)?;
    }
    show(rt, &MODULES)?;
    show(rt, &NETS)?;
    show(rt, &PINS)?;
    show(rt, &BOTH)
}
