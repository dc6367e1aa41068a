// The split on lent buffers that are marked all over.
use book::Refusal;
use std::alloc::{AllocError, Global};
use std::io;
use trial::{BYTE, Card, Checked, Modules, Tails, Unwritten};

// What a flow is marked with.
const NUMBER: i32 = 77;

// From so many modules on a book is large: its far side is printed by what it lacks, and the checker, which takes an interpreter long, is left out.
const LARGE: usize = 64;

// The lengths of the buffers: bytes of near, bytes of far, numbers of the flow.
#[derive(Clone, Copy)]
pub struct Room(pub usize, pub usize, pub usize);

#[derive(Drop)]
struct Lent {
    near: Vec<u8>,
    far: Vec<u8>,
    flow: Vec<i32>,
}

// What the checker says of a flow with a side.
fn check(book: &[u8], side: &[u8], flow: &[i32], price: usize) -> Checked {
    let claim = u32::try_from(price).unwrap_or(u32::MAX);
    Checked(audit::check(book, side, flow, claim))
}

impl Lent {
    fn new(alloc: Global, room: Room) -> Result<Lent, AllocError> {
        Ok(Lent {
            near: vec![in alloc; BYTE; room.0]?,
            far: vec![in alloc; BYTE; room.1]?,
            flow: vec![in alloc; NUMBER; room.2]?,
        })
    }

    // The call.
    fn split(&mut self, book: &[u8]) -> Result<usize, Refusal> {
        split::split(book, &mut self.near, &mut self.far, &mut self.flow)
    }

    // Are all marked beyond so many bytes of each side and numbers of the flow?
    fn kept(&self, bytes: usize, pins: usize) -> bool {
        trial::kept(&self.near, BYTE, bytes)
            & trial::kept(&self.far, BYTE, bytes)
            & trial::kept(&self.flow, NUMBER, pins)
    }

    // The sides of a book of so many modules, and the checker's answers on a small one.
    fn print_sides(
        &self,
        rt: &impl Print,
        book: &[u8],
        modules: usize,
        price: usize,
    ) -> io::Result<()> {
        print!(rt; " near{}", Modules::On(&self.near, modules))?;
        if modules < LARGE {
            print!(rt; " far{}", Modules::On(&self.far, modules))?;
            print!(rt; " {}", check(book, &self.near, &self.flow, price))?;
            print!(rt; " {}", check(book, &self.far, &self.flow, price))
        } else {
            print!(rt; " far{}", Modules::AllBut(&self.far, modules))
        }
    }
}

fn pin_count(card: &Card<'_>) -> usize {
    card.nets
        .iter()
        .fold(0usize, |sum, net| sum.saturating_add(net.1.len()))
}

// The split of a book that was made from a card.
pub fn show(
    rt: &(impl Print + AllocGlobal),
    name: &str,
    card: &Card<'_>,
    book: &[u8],
    room: Room,
) -> io::Result<()> {
    let modules = card.modules.len();
    let mut lent = Lent::new(rt.alloc(), room)?;
    print!(rt; "{name}:")?;
    match lent.split(book) {
        Ok(price) => {
            print!(rt; " price {price}")?;
            lent.print_sides(rt, book, modules, price)?;
            let kept = lent.kept(modules.div_ceil(8), pin_count(card));
            println!(rt; " {}", Tails(kept))
        }
        Err(why) => println!(rt; " {}", Unwritten(why, lent.kept(0, 0))),
    }
}
