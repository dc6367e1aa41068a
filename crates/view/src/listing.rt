// The listing of a book, written into lent bytes.
ghost use Rattle.std.specs.Prelude.{◌≡◌, ◌+◌, ◌≤◌, length, drop};
ghost use Rattle.book.specs.Format.{modules, u16};
ghost use Rattle.book.specs.Steps.{step_by};
ghost use Rattle.side.specs.Sides.{side_of, SpareClear};
ghost use Rattle.view.specs.Text.{side_text, split_text, refused_text};
ghost use Rattle.view.specs.Puts.{Put, Rows, Ample, Listing};
ghost use Rattle.view.specs.Listing.{side_room, room, Seen, Writes};

use crate::text;
use book::netlist::Netlist;
use book::{Book, Cursor, Refusal, Step};
use side::Sided;

// The bytes of a side of the most modules.
const SIDE: usize = (Book::MODULES + 7) / 8;

// Where a reading starts.
pub fn start() -> usize
    ensures { result ≡ 0 }
{
    let c = Book::start();
    c.at
}

// The step over the number of 2 bytes at a place.
pub fn step_at(book: &[u8], at: usize) -> Step
    ensures { result ≡ step_by 2 u16 book.now at }
{
    let c = Cursor { at };
    c.next_u16(book)
}

// A side of the book: how many modules it has, their area, and which they are.
fn put_side(out: &mut [u8], at: usize, name: &[u8], side: Sided<'_>) -> usize
    requires { SpareClear side.bits.now (modules side.netlist.bytes.now) × (length name.now ≤ 5) × (at + side_room ≤ length out.old) }
    ensures { Put (side_text name.now side.entry.netlist.bytes.now (side_of side.entry.bits.now)) at out.old result out.new × (result ≤ at + side_room) }
{
    let count = side.count();
    let area = side.area();
    let then = text::put_pair(&mut *out, at, name, count, b" modules area ", area);
    text::put_modules(out, then, side.bits, side.netlist.modules())
}

// A book that is split: its price, its near side and its far side.
fn put_split(out: &mut [u8], netlist: Netlist<'_>, price: usize, near: &[u8], far: &[u8]) -> usize
    requires { Rows netlist.bytes.now near.now far.now × (room ≤ length out.old) }
    ensures { Put (split_text netlist.entry.bytes.now price (side_of near.now) (side_of far.now)) 0 out.old result out.new }
{
    let near = Sided {
        netlist,
        bits: near,
    };
    let far = Sided { netlist, bits: far };
    let end = text::put_number(&mut *out, 0, b"price ", price);
    let first = text::put_text(&mut *out, end, b"\n");
    let second = put_side(&mut *out, first, b"near ", near);
    put_side(out, second, b"far ", far)
}

// A refusal: its number and its place.
fn put_refusal(out: &mut [u8], why: Refusal) -> usize
    requires { room ≤ length out.old }
    ensures { Put (refused_text why) 0 out.old result out.new }
{
    let number = why.number();
    let place = why.place();
    text::put_pair(out, 0, b"refused ", number, b" at ", place)
}

// The listing of a book, split in lent work.
fn list_in(book: &[u8], near: &mut [u8], far: &mut [u8], flow: &mut [i32], out: &mut [u8]) -> usize
    requires { Ample near.old far.old (length flow.old) × (room ≤ length out.old) }
    ensures { Listing book.now out.old result out.new }
{
    match split::split(book, &mut *near, &mut *far, flow) {
        Ok(price) => {
            let netlist = Netlist { bytes: book };
            put_split(out, netlist, price, &*near, &*far)
        }
        Err(why) => put_refusal(out, why),
    }
}

// The listing of a book.
fn list_book(book: &[u8], out: &mut [u8]) -> usize
    requires { room ≤ length out.old }
    ensures { Listing book.now out.old result out.new }
{
    let mut near: [u8; SIDE] = [0; SIDE];
    let mut far: [u8; SIDE] = [0; SIDE];
    let mut flow: [i32; Book::PINS] = [0; Book::PINS];
    list_in(book, &mut near, &mut far, &mut flow, out)
}

// The listing of the book that begins at a place; past the end there is none, and nothing to read.
fn list_from(book: &[u8], at: usize, out: &mut [u8]) -> usize
    requires { room ≤ length out.old }
    ensures { Listing (drop at book.now) out.old result out.new }
{
    if at < book.len() {
        list_book(&book[at..], out)
    } else {
        list_book(b"", out)
    }
}

// The listing of the book that begins at a place, or refusal 2 where a number stands past the largest book.
pub fn list_at(book: &[u8], at: usize, past: Step, out: &mut [u8]) -> Option<usize>
    ensures { Writes (Seen past book.now at) out.old result out.new }
{
    if out.len() < crate::ROOM {
        return None;
    }
    match past {
        Some(_) => Some(put_refusal(out, Refusal::Counts)),
        None => Some(list_from(book, at, out)),
    }
}
