// The rows of the table on a given side: its price, and what a move changes.
use crate::answers;
use std::io;
use trial::{BRIDGE, Card, FAN};

// A side, and the module to be moved.
#[derive(Clone, Copy)]
struct Side<'a>(&'a str, &'a [u8], u32);

static BRIDGE_SIDES: [Side<'static>; 15] = [
    Side("{0, 1}, moving 1", b"\x03", 1),
    Side("{0}, moving 1", b"\x01", 1),
    Side("{0, 1, 2}, moving 2", b"\x07", 2),
    Side("{0, 1}, moving 2", b"\x03", 2),
    Side("{0, 1}, moving 0", b"\x03", 0),
    Side("{0, 1}, moving 3", b"\x03", 3),
    Side("{0, 1}, moving 4", b"\x03", 4),
    Side("{0, 1}, moving 4294967295", b"\x03", 4294967295),
    Side("{1}, lacking the meter module", b"\x02", 1),
    Side("{0, 3}, holding the maker module", b"\x09", 1),
    Side("{0, 1} with a spare bit set", b"\x13", 1),
    Side("{0, 1} with the last spare bit set", b"\x83", 1),
    Side("no byte, moving 4", b"", 4),
    Side("{0, 1} and a tail of ones", b"\x03\xFF\xFF", 1),
    Side("{0, 1} and a tail of zeros", b"\x03\x00", 1),
];

static FAN_SIDES: [Side<'static>; 2] = [
    Side("{0}, moving 1", b"\x01", 1),
    Side("{0, 1}, moving 1", b"\x03", 1),
];

// The two calls.
fn show(rt: &impl Print, name: &str, book: &[u8], side: &[u8], m: u32) -> io::Result<()> {
    println!(rt; "{name}: {}", answers::price_of(book, side))?;
    println!(rt; "  and: {}", answers::change_of(book, side, m))
}

fn show_all(
    rt: &(impl Print + AllocGlobal),
    name: &str,
    card: &Card<'_>,
    rows: &[Side<'_>],
) -> io::Result<()> {
    let book = card.book(rt.alloc())?;
    for Side(side_name, side, m) in rows {
        print!(rt; "{name}, side ")?;
        show(rt, side_name, &book, side, *m)?;
    }
    Ok(())
}

pub fn run(rt: &(impl Print + AllocGlobal)) -> io::Result<()> {
    show_all(rt, "Bridge", &BRIDGE, &BRIDGE_SIDES)?;
    show_all(rt, "Fan", &FAN, &FAN_SIDES)?;
    // A book that is cut short is refused before the side is looked at.
    let cut_short = BRIDGE.edited(rt.alloc(), &[], 71)?;
    show(rt, "Bridge cut short, no byte", &cut_short, b"", 1)
}
