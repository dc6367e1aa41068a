// The search by a queue, and how a step is told in one number.
// What it writes stays three slices, the queue, `how` and `seen`: as fields of one struct they were tried, and the proof of `engine::raise` did not close, since what is lent as `&` out of a `&mut` field, as `how` is to a push, keeps its length there and not its numbers.
ghost use Rattle.std.specs.Prelude.{◌≡◌, ◌≢◌, ◌↔◌, IsTrue, ◌+◌, ◌*◌, ◌≤◌, ◌<◌, length, get_or, ltb};
ghost use Rattle.flow.specs.Search.{or, gives, way_from, st, Room, Spread, PinDone, PinsDone, Fitted, Seen, Begun, Sizes, Found, Kind as Leaves, Enough, Mark};
ghost use Rattle.flow.specs.Kinds.{number_of};

use crate::board::Board;
use crate::kind::Kind;

// How the pins of one net are gone through: the pins lo .. hi, all of them or those that send, forwards or back; `from` is the pin left and the kind of step, `undo` the same where the pin entered sends less.
#[derive(Clone, Copy)]
struct Scan {
    lo: usize,
    hi: usize,
    from: u64,
    undo: u64,
    all: bool,
    back: bool,
}

// How a module was reached, in one number: its place in the queue and 1, the pin left and the kind of step, the pin entered. It stays one number: `Found` reads it by `rank`, `left`, `kind` and `entered` (specs/Search).
pub fn pack(rank: usize, from: u64, pin: usize) -> u64
    requires { (rank < 65536) × (from ≤ 4294901760) × (pin < 65536) }
    ensures { result ≡ rank * 4294967296 + from + pin }
{
    rank as u64 * 4294967296 + from + pin as u64
}

// The pin left and the kind of step, as `pack` takes them.
pub fn pack_from(a: u16, kind: Kind) -> u64
    requires { a < 16384 }
    ensures { result ≡ (a * 4 + number_of kind) * 65536 }
{
    (u64::from(a) * 4 + kind as u64) * 65536
}

// Is a pin with the number f entered?
fn picks(all: bool, back: bool, f: i32) -> bool
    ensures { result ≡ or all (ltb 0 (gives back f)) }
{
    all || crate::num::sends(back, f)
}

// A step to a pin that sends is by that pin, which sends less: that room is not the net's, which may be small however much the pin sends.
fn way_from(from: u64, undo: u64, back: bool, f: i32) -> u64
    requires { (from ≤ 4294901760) × (undo ≤ 4294901760) }
    ensures { (result ≡ way_from (ltb 0 (gives back f)) from undo) × (result ≤ 4294901760) }
{
    if crate::num::sends(back, f) {
        undo
    } else {
        from
    }
}

// Reaches the modules of a net's pins, all or those that send; the queue's tail goes from t to the result.
fn spread(
    mods: &[u16],
    flow: &[i32],
    scan: Scan,
    t: usize,
    queue: &mut [u16],
    how: &mut [u64],
) -> usize
    requires { (scan.lo ≤ scan.hi) × (scan.hi ≤ length mods.now) × (scan.hi ≤ length flow.now) × (scan.hi < 16384) × (scan.from ≤ 4294901760) × (scan.undo ≤ 4294901760) × Room mods.now queue.old how.old t }
    ensures { Spread mods.now flow.now scan.all scan.back scan.from scan.undo scan.lo scan.hi queue.old how.old t queue.new how.new result }
{
    let mut tail = t;
    for i in scan.lo..scan.hi {
        let m = usize::from(mods[i]);
        if how[m] == 0 && picks(scan.all, scan.back, flow[i]) {
            queue[tail] = mods[i];
            let from = way_from(scan.from, scan.undo, scan.back, flow[i]);
            how[m] = pack(tail + 1, from, i);
            tail += 1;
        }
    }
    tail
}

// What lets the steps pass that leave by pin a: pin a, which takes less, else the net's room, else the pins that send alone. What a pin takes comes first, since the net's room may be small however much the pin takes.
fn kind_of(sum: u32, weight: u16, takes: bool) -> Kind
    ensures { Leaves sum weight takes (number_of result) }
{
    if takes {
        Kind::Left
    } else if sum < u32::from(weight) {
        Kind::Room
    } else {
        Kind::Entered
    }
}

// Is there nothing new to be had from a net with the mark s by steps of this kind?
fn seen_enough(s: u16, kind: Kind) -> bool
    ensures { IsTrue result ↔ Enough s (number_of kind) }
{
    s > 1 || kind == Kind::Entered && s == 1
}

// The mark of a net after steps of this kind from pin a: 1 if the pins that send were reached, a + 2 if all were. It stays a number, which `Found` reads for a step by the net's room (`opens` of `Link`).
fn seen_mark(a: u16, kind: Kind) -> u16
    requires { a < 16384 }
    ensures only { number_of kind ≡ 2 → result ≡ 1 }
    ensures all { number_of kind ≢ 2 → result ≡ a + 2 }
{
    if kind == Kind::Entered { 1 } else { a + 2 }
}

// Whoever can be reached by leaving by pin a.
fn visit_pin(
    board: &Board<'_>,
    sums: &[u32],
    flow: &[i32],
    back: bool,
    a: u16,
    t: usize,
    queue: &mut [u16],
    how: &mut [u64],
    seen: &mut [u16],
) -> usize
    requires { (a < length board.now.mods.now) × Fitted board.now.mods.now board.now.weight.now sums.now flow.now × Room board.now.mods.now queue.old how.old t × Seen back board.now.first.now board.now.mods.now board.now.weight.now flow.now how.old seen.old × (length seen.old ≡ length board.now.weight.now) }
    ensures { PinDone back board.now.first.now board.now.mods.now board.now.weight.now flow.now sums.now board.now.nets.now a (st queue.old how.old seen.old) t (st queue.new how.new seen.new) result }
{
    let p = usize::from(a);
    let n = usize::from(board.nets[p]);
    if seen[n] > 1 {
        return t;
    }
    let takes = crate::num::sends(!back, flow[p]);
    let kind = kind_of(sums[n], board.weight[n], takes);
    if seen_enough(seen[n], kind) {
        return t;
    }
    seen[n] = seen_mark(a, kind);
    let scan = Scan {
        lo: usize::from(board.first[n]),
        hi: usize::from(board.first[n + 1]),
        from: pack_from(a, kind),
        undo: pack_from(a, Kind::Entered),
        all: kind != Kind::Entered,
        back,
    };
    spread(board.mods, flow, scan, t, queue, how)
}

// Whoever can be reached from module u in one step.
fn visit(
    board: &Board<'_>,
    sums: &[u32],
    flow: &[i32],
    back: bool,
    u: usize,
    t: usize,
    queue: &mut [u16],
    how: &mut [u64],
    seen: &mut [u16],
) -> usize
    requires { Fitted board.now.mods.now board.now.weight.now sums.now flow.now × (u < length board.now.mark.now) × Room board.now.mods.now queue.old how.old t × Seen back board.now.first.now board.now.mods.now board.now.weight.now flow.now how.old seen.old × (length seen.old ≡ length board.now.weight.now) }
    ensures { PinsDone back board.now.first.now board.now.mods.now board.now.weight.now flow.now sums.now board.now.nets.now board.now.pins.now u (get_or board.now.at.now u 0) (get_or board.now.at.now (u + 1) 0) (st queue.old how.old seen.old) t (st queue.new how.new seen.new) result }
{
    let mut tail = t;
    for a in &board.pins[usize::from(board.at[u])..usize::from(board.at[u + 1])] {
        tail = visit_pin(
            board,
            sums,
            flow,
            back,
            *a,
            tail,
            &mut *queue,
            &mut *how,
            &mut *seen,
        );
    }
    tail
}

// The mark of the modules from which a search begins.
fn start_mark(back: bool) -> u8
    ensures { result ≡ Mark back }
{
    if back { 2 } else { 1 }
}

// Queues the modules where the search begins, and none else; how many there are.
fn begin(mark: &[u8], k: u8, queue: &mut [u16], how: &mut [u64]) -> usize
    requires { (length how.old ≡ length mark.now) × (length queue.old ≡ length mark.now) × (length mark.now < 65535) }
    ensures { Begun k mark.now (length mark.now) queue.new how.new result }
{
    let mut t: usize = 0;
    for (m, mark) in mark.iter().enumerate() {
        if *mark == k {
            queue[t] = m as u16;
            how[m] = pack(t + 1, 0, 0);
            t += 1;
        } else {
            how[m] = 0;
        }
    }
    t
}

// What the meters reach by steps, with the step by which each module was reached; backwards, what reaches the makers, so that near and far are one search: `Found` reads `back`. A net is gone through at most twice, once for the pins that send and once for all, and each pin is left once.
pub fn search(
    board: &Board<'_>,
    sums: &[u32],
    flow: &[i32],
    back: bool,
    queue: &mut [u16],
    how: &mut [u64],
    seen: &mut [u16],
)
    requires { Fitted board.now.mods.now board.now.weight.now sums.now flow.now × Sizes board.now.mark.now board.now.weight.now (st queue.old how.old seen.old) }
    ensures { Found back board.now.first.now board.now.mods.now board.now.weight.now flow.now sums.now board.now.nets.now board.now.mark.now (st queue.new how.new seen.new) }
{
    seen.fill(0);
    let mut tail = begin(board.mark, start_mark(back), &mut *queue, &mut *how);
    let mut head: usize = 0;
    // The queue grows while it is read, so its places are no fixed range to go over.
    while head < tail {
        let u = usize::from(queue[head]);
        tail = visit(
            board,
            sums,
            flow,
            back,
            u,
            tail,
            &mut *queue,
            &mut *how,
            &mut *seen,
        );
        head += 1;
    }
}
