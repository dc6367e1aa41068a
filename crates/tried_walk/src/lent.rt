// The walk on lent buffers that are marked all over.
use crate::round::{self, Round};
use gate::Gate;
use std::alloc::{AllocError, Global};
use std::io;
use trial::{BYTE, Card, Modules, Tails, Unwritten};
use walk::{Done, NotDone};

// The lengths of the buffers: bytes of the side, bytes of the rows.
#[derive(Clone, Copy)]
pub struct Room(pub usize, pub usize);

#[derive(Drop)]
struct Lent {
    side: Vec<u8>,
    rows: Vec<u8>,
}

impl Lent {
    fn new(alloc: Global, room: Room) -> Result<Lent, AllocError> {
        Ok(Lent {
            side: vec![in alloc; BYTE; room.0]?,
            rows: vec![in alloc; BYTE; room.1]?,
        })
    }

    // Are both marked beyond so many bytes of the side and so many rows?
    fn kept(&self, bytes: usize, rounds: usize) -> bool {
        trial::kept(&self.side, BYTE, bytes)
            & trial::kept(&self.rows, BYTE, rounds.saturating_mul(round::SIZE))
    }

    // So many rows, a line each.
    fn print_rows(&self, rt: &impl Print, rounds: usize) -> io::Result<()> {
        for row in self.rows.chunks(round::SIZE).take(rounds) {
            if let Some(round) = Round::read(row) {
                println!(rt; "  {round}")?;
            }
        }
        Ok(())
    }
}

// The walk on a book that was made from a card.
pub fn show(
    rt: &(impl Print + AllocGlobal),
    name: &str,
    card: &Card<'_>,
    book: &[u8],
    gate: Gate,
    room: Room,
) -> io::Result<()> {
    let modules = card.modules.len();
    let mut lent = Lent::new(rt.alloc(), room)?;
    print!(rt; "{name}:")?;
    match walk::walk(book, gate, &mut lent.side, &mut lent.rows) {
        Ok(Done { price, rounds }) => {
            print!(rt;
                " price {price} rounds {rounds} side{}",
                Modules::On(&lent.side, modules)
            )?;
            let kept = lent.kept(modules.div_ceil(8), rounds);
            println!(rt; " {}", Tails(kept))?;
            lent.print_rows(rt, rounds)
        }
        Err(NotDone::Stuck(rounds)) => {
            let side = if lent.kept(0, rounds) {
                "untouched"
            } else {
                "touched or a tail lost"
            };
            println!(rt; " ended 14 rounds {rounds} side {side}")?;
            lent.print_rows(rt, rounds)
        }
        Err(NotDone::Refused(why)) => println!(rt; " {}", Unwritten(why, lent.kept(0, 0))),
    }
}
