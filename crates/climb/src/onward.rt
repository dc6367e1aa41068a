// The next step of a way: from a module to one that is nearer to the makers and not on the way yet.
ghost use Rattle.std.specs.Prelude.{◌≡◌, ◌≢◌, false, suc, ◌+◌, ◌≤◌, ◌<◌, length, get_or, set, IfSome};
ghost use Rattle.flow.specs.Search.{In, rank, left};
ghost use Rattle.flow.specs.Push.{Trail};
ghost use Rattle.flow.specs.Kinds.{number_of};
ghost use Rattle.climb.specs.Climb.{Entry, Ahead, Replacing};

use crate::land::{Load, Sight};
use flow::board::Board;
use flow::kind::Kind;
use reach::Guide;

// A way of more steps than these is long.
pub const LONG: usize = 40;

// How the pins lo .. hi of a net are looked at, from its pin a: the distance sought, whether a takes, whether the net has room that the way does not use, and the rank that the step would have.
#[derive(Clone, Copy)]
struct Look {
    lo: usize,
    hi: usize,
    lower: u16,
    takes: bool,
    free: bool,
    rank: usize,
    a: u16,
}

// The kind of the step from a pin that takes or not to one that sends or not: by the net's room only if neither does.
fn kind_to(takes: bool, sends: bool) -> Kind
    ensures { (number_of result ≤ 2) × (number_of result ≡ 0 → (takes ≡ false) × (sends ≡ false)) }
{
    if takes {
        Kind::Left
    } else if sends {
        Kind::Entered
    } else {
        Kind::Room
    }
}

// The rank of the step that x tells.
pub fn rank_of(x: u64) -> usize
    ensures { result ≡ rank x }
{
    (x / 4294967296) as usize
}

// The rank of a step after the one that x tells.
fn rank_after(x: u64) -> usize
    ensures { result ≡ suc (rank x) }
{
    (x / 4294967296) as usize + 1
}

// The first step into the pins lo .. hi, as one number, if there is one.
fn entry(sight: &Sight<'_>, guide: &Guide, look: Look) -> Option<u64>
    requires { (look.hi ≤ length sight.now.load.land.now.board.mods.now) × (look.rank < 65536) × (look.a < 16384) }
    ensures { IfSome result (λ x. Entry sight.now.load.land.now.board.mods.now sight.now.load.land.now.board.mark.now sight.now.how.now look.lo look.hi look.free look.rank look.a x) }
{
    let board = &sight.load.land.board;
    for i in look.lo..look.hi {
        let m = usize::from(board.mods[i]);
        if guide.far[m] == look.lower {
            let f = sight.load.flow[i];
            if (look.takes | look.free | (f > 0)) & (sight.how[m] == 0) & (board.mark[m] != 1) {
                let kind = kind_to(look.takes, f > 0);
                let from = flow::search::pack_from(look.a, kind);
                return Some(flow::search::pack(look.rank, from, i));
            }
        }
    }
    None
}

// The first step that leaves by pin a to the distance before d, as one number, if there is one. Only a net by which the distance d was found has one.
fn leave_by(sight: &Sight<'_>, guide: &Guide, u: usize, a: u16, d: u16, rank: usize) -> Option<u64>
    requires { (a < length sight.now.load.land.now.board.mods.now) × (get_or sight.now.load.land.now.board.mods.now a 0 ≡ u) × (rank ≤ length sight.now.load.land.now.board.mark.now) × (0 < rank) × (0 < d) }
    ensures { IfSome result (λ x. Ahead sight.now.load.land.now.board sight.now.how.now sight.now.seen.now u rank x) }
{
    let board = &sight.load.land.board;
    let p = usize::from(a);
    let n = usize::from(board.nets[p]);
    if (guide.whole[n] != d) & (guide.part[n] != d) {
        return None;
    }
    let room = sight.load.sums[n] < u32::from(board.weight[n]);
    let look = Look {
        lo: usize::from(board.first[n]),
        hi: usize::from(board.first[n + 1]),
        lower: d - 1,
        takes: sight.load.flow[p] < 0,
        free: room & (sight.seen[n] == 0),
        rank,
        a,
    };
    entry(sight, guide, look)
}

// Of the next steps from u, one that carries the most, if there is one.
fn widest(sight: &Sight<'_>, guide: &Guide, u: usize, d: u16, rank: usize) -> Option<u64>
    requires { (u < length sight.now.load.land.now.board.mark.now) × (rank ≤ length sight.now.load.land.now.board.mark.now) × (0 < rank) × (0 < d) }
    ensures { IfSome result (λ x. Ahead sight.now.load.land.now.board sight.now.how.now sight.now.seen.now u rank x) }
{
    let board = &sight.load.land.board;
    let mut best: Option<u64> = None;
    let mut most: u32 = 0;
    for i in usize::from(board.at[u])..usize::from(board.at[u + 1]) {
        let step = leave_by(sight, guide, u, board.pins[i], d, rank);
        if let Some(x) = step {
            let room = flow::push::step_room(
                board.weight,
                board.nets,
                sight.load.sums,
                sight.load.flow,
                x,
            );
            if room > most {
                best = step;
                most = room;
            }
        }
    }
    best
}

// The next step from u, from the pin on where the last look at u ended, if there is one. On a long way each push costs much, so there the widest step is sought.
pub fn onward(sight: &Sight<'_>, u: usize, guide: &mut Guide) -> Option<u64>
    requires { u < length sight.now.load.land.now.board.mark.now }
    ensures { IfSome result (λ x. Ahead sight.now.load.land.now.board sight.now.how.now sight.now.seen.now u (suc (rank (get_or sight.now.how.now u 0))) x) }
{
    let board = &sight.load.land.board;
    let d = guide.far[u];
    let rank = rank_after(sight.how[u]);
    if (d == 0) | (rank > board.mark.len()) {
        return None;
    }
    if rank + usize::from(d) > LONG {
        return widest(sight, &*guide, u, d, rank);
    }
    let lo = usize::from(board.at[u]);
    let next = lo + usize::from(guide.own[u]);
    for i in next..usize::from(board.at[u + 1]) {
        let step = leave_by(sight, &*guide, u, board.pins[i], d, rank);
        if step.is_some() {
            guide.own[u] = (i - lo) as u16;
            return step;
        }
    }
    None
}

// x if the step that it tells leads to v.
fn only_to(board: &Board<'_>, how: &[u64], seen: &[u16], v: usize, x: u64) -> Option<u64>
    requires { Ahead board.now (set how.now v 0) seen.now (get_or board.now.mods.now (left (get_or how.now v 0)) 0) (rank (get_or how.now v 0)) x }
    ensures { IfSome result (λ y. Replacing board.now how.now seen.now v y) }
{
    if usize::from(board.mods[flow::push::entered_pin(x)]) == v {
        Some(x)
    } else {
        None
    }
}

// A step to the module v, which is on the way, from the module before it, in place of the one that is there; none if the widest step leads elsewhere.
pub fn instead(
    load: &Load<'_>,
    seen: &[u16],
    guide: &Guide,
    v: usize,
    how: &mut [u64],
) -> Option<u64>
    requires { Trail load.now.land.now.board.mods.now load.now.land.now.board.nets.now load.now.land.now.board.mark.now how.old (length load.now.land.now.board.weight.now) × In how.old v × (get_or load.now.land.now.board.mark.now v 0 ≢ 1) × (0 < rank (get_or how.old v 0)) × (length seen.now ≡ length load.now.land.now.board.weight.now) }
    ensures kept { how.new ≡ how.old }
    ensures step { IfSome result (λ x. Replacing load.now.land.now.board how.old seen.now v x) }
{
    let board = &load.land.board;
    let old = how[v];
    let u = usize::from(board.mods[flow::push::left_pin(old)]);
    let d = guide.far[u];
    if d == 0 {
        return None;
    }
    let rank = rank_of(old);
    how[v] = 0;
    let sight = Sight {
        load: *load,
        how: &*how,
        seen,
    };
    let step = widest(&sight, guide, u, d, rank);
    how[v] = old;
    only_to(board, &*how, seen, v, step?)
}
