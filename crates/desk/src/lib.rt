// The C interface: each exported function makes one call and hands its answer over as eight numbers.
#![tactic(auto)]

ghost use Rattle.std.specs.Prelude.{◌≡◌, ◌∷◌, [], ◌≤◌, pos};
ghost use Rattle.book.specs.Answer.{number_of, place_of};
ghost use Rattle.book.specs.Checks.{most_pins};
ghost use Rattle.split.specs.Splits.{buffers};
ghost use Rattle.desk.specs.Answers.{places, read_told, price_told, move_told, check_told, SplitTold, gate_of, WalkTold};

use book::Refusal;
use gate::Gate;
use walk::NotDone;

// The numbers of the three gates.
const OPEN: u32 = 0;

const SHARE: u32 = 1;

const BOUNDS: u32 = 2;

// The lowest bound of a gate.
const BOTTOM: f64 = 0.0;

// An answer that is done, with its values.
fn done(answer: &mut [i64; 8], x: i64, y: i64, z: i64)
    ensures { answer.new ≡ places 0 0 (x ∷ y ∷ z ∷ []) }
{
    *answer = [0, 0, 0, x, y, z, 0, 0];
}

// A refusal; the count of rounds is the one other number, and 0 but for the walk's 14.
fn refused(answer: &mut [i64; 8], why: Refusal, rounds: i64)
    requires { place_of why ≤ most_pins }
    ensures { answer.new ≡ places (number_of why) (place_of why) (pos 0 ∷ rounds ∷ []) }
{
    let number = why.number() as i64;
    let place = why.place() as i64;
    *answer = [number, place, 0, 0, rounds, 0, 0, 0];
}

// Checks 1 to 6: modules, nets, pins.
#[unsafe(no_mangle)]
pub extern "C" fn platelayer_read(book: &[u8], answer: &mut [i64; 8])
    ensures { answer.new ≡ read_told book.now }
{
    match book::read(book) {
        Ok(b) => done(answer, b.modules as i64, b.nets as i64, b.pins as i64),
        Err(why) => refused(answer, why, 0),
    }
}

// The price of a side.
#[unsafe(no_mangle)]
pub extern "C" fn platelayer_price(book: &[u8], side: &[u8], answer: &mut [i64; 8])
    ensures { answer.new ≡ price_told book.now side.now }
{
    match side::price(book, side) {
        Ok(price) => done(answer, price as i64, 0, 0),
        Err(why) => refused(answer, why, 0),
    }
}

// What moving one module to the other side changes in the price, with its sign.
#[unsafe(no_mangle)]
pub extern "C" fn platelayer_move(book: &[u8], side: &[u8], module: u32, answer: &mut [i64; 8])
    ensures { answer.new ≡ move_told book.now side.now «module» }
{
    match side::change(book, side, module) {
        Ok(change) => done(answer, change, 0, 0),
        Err(refusal) => refused(answer, refusal, 0),
    }
}

// The split: its price, with the near side, the far side and a flow written.
#[unsafe(no_mangle)]
pub extern "C" fn platelayer_split(
    book: &[u8],
    near: &mut [u8],
    far: &mut [u8],
    flow: &mut [i32],
    answer: &mut [i64; 8],
)
    ensures { SplitTold book.now (buffers near.old far.old flow.old) (buffers near.new far.new flow.new) answer.new }
{
    match split::split(book, near, far, flow) {
        Ok(cheapest) => done(answer, cheapest as i64, 0, 0),
        Err(why) => refused(answer, why, 0),
    }
}

// The checker: no value, only whether it accepts.
#[unsafe(no_mangle)]
pub extern "C" fn platelayer_check(
    book: &[u8],
    side: &[u8],
    flow: &[i32],
    price: u32,
    answer: &mut [i64; 8],
)
    ensures { answer.new ≡ check_told book.now side.now flow.now price }
{
    match audit::check(book, side, flow, price) {
        Ok(()) => done(answer, 0, 0, 0),
        Err(why) => refused(answer, why, 0),
    }
}

// The gate of a number, as the C interface hands it over; any number but the three is a bad gate: low above high.
fn gate_of(gate: u32, a: f64, b: f64) -> Gate
    ensures { result ≡ gate_of gate a b }
{
    let bad = Gate::Bounds {
        low: Gate::TOP,
        high: BOTTOM,
    };
    match gate {
        OPEN => Gate::Open,
        SHARE => Gate::Share { r: a, e: b },
        BOUNDS => Gate::Bounds { low: a, high: b },
        _ => bad,
    }
}

// The balancing walk: the last price and the count of rounds, with the side and the rows written.
#[unsafe(no_mangle)]
pub extern "C" fn platelayer_walk(
    book: &[u8],
    gate: u32,
    a: f64,
    b: f64,
    side: &mut [u8],
    rows: &mut [u8],
    answer: &mut [i64; 8],
)
    ensures { WalkTold book.now (gate_of gate a b) side.old rows.old side.new rows.new answer.new }
{
    match walk::walk(book, gate_of(gate, a, b), side, rows) {
        Ok(d) => done(answer, d.price as i64, d.rounds as i64, 0),
        Err(NotDone::Stuck(rounds)) => refused(answer, Refusal::Stuck, rounds as i64),
        Err(NotDone::Refused(why)) => refused(answer, why, 0),
    }
}
