// The way from a meter to the module reached last: one step more, one step back, and what a maker at its end takes.
ghost use Rattle.std.specs.Prelude.{◌≡◌, ◌≢◌, suc, ◌+◌, ◌≤◌, ◌<◌, length, get_or, set, IfNone};
ghost use Rattle.flow.specs.Search.{In, rank, left, kind, entered};
ghost use Rattle.climb.specs.Climb.{WayTo, Ahead, Replacing, SteadyOn};

use crate::land::{Land, Load, Scout};
use flow::board::Board;
use flow::kind::{Kind, step_kind};
use flow::push::{Ways, push_from};

// How many pushes an arrival at a maker is given.
const PUSHES: usize = 256;

// Puts the step that x tells to the module that it leads to. The room of a net is marked with the module that it leads to.
fn put_step(land: &Land<'_>, x: u64, how: &mut [u64], seen: &mut [u16]) -> usize
    requires { (left x < length land.now.board.nets.now) × (entered x < length land.now.board.mods.now) × (length how.old ≡ length land.now.board.mark.now) × (length seen.old ≡ length land.now.board.weight.now) }
    ensures { (result ≡ get_or land.now.board.mods.now (entered x) 0) × (how.new ≡ set how.old result x) × (kind x ≡ 0 → seen.new ≡ set seen.old (get_or land.now.board.nets.now (left x) 0) (result + 1)) × (kind x ≢ 0 → seen.new ≡ seen.old) }
{
    let v = usize::from(land.board.mods[flow::push::entered_pin(x)]);
    if step_kind(x) == Kind::Room {
        let n = usize::from(land.board.nets[flow::push::left_pin(x)]);
        seen[n] = (v + 1) as u16;
    }
    how[v] = x;
    v
}

// One step more: the module it leads to.
pub fn enter(land: &Land<'_>, u: usize, x: u64, how: &mut [u64], seen: &mut [u16]) -> usize
    requires { WayTo land.now.board how.old seen.old u × Ahead land.now.board how.old seen.old u (suc (rank (get_or how.old u 0))) x }
    ensures { WayTo land.now.board how.new seen.new result }
{
    put_step(land, x, &mut *how, &mut *seen)
}

// The step that x tells in place of the one to v, between the same modules: the way still ends at z.
fn swap(land: &Land<'_>, z: usize, v: usize, x: u64, how: &mut [u64], seen: &mut [u16])
    requires { WayTo land.now.board how.old seen.old z × In how.old v × (get_or land.now.board.mark.now v 0 ≢ 1) × Replacing land.now.board how.old seen.old v x }
    ensures { WayTo land.now.board how.new seen.new z }
{
    put_step(land, x, &mut *how, &mut *seen);
}

// One step back: the module before u.
pub fn leave(board: &Board<'_>, u: usize, how: &mut [u64], seen: &mut [u16]) -> usize
    requires { WayTo board.now how.old seen.old u × (get_or board.now.mark.now u 0 ≢ 1) }
    ensures { WayTo board.now how.new seen.new result × (rank (get_or how.new result 0) < rank (get_or how.old u 0)) }
{
    let x = how[u];
    let a = flow::push::left_pin(x);
    if step_kind(x) == Kind::Room {
        let n = usize::from(board.nets[a]);
        seen[n] = 0;
    }
    how[u] = 0;
    usize::from(board.mods[a])
}

// Back from z to the module before `stop`, or to the meter if there is no stop or it is not on the way.
pub fn back(
    board: &Board<'_>,
    z: usize,
    stop: Option<usize>,
    how: &mut [u64],
    seen: &mut [u16],
) -> usize
    requires { WayTo board.now how.old seen.old z }
    ensures { WayTo board.now how.new seen.new result × IfNone stop (get_or board.now.mark.now result 0 ≡ 1) }
{
    let mut u = z;
    while board.mark[u] != 1 {
        let here = stop == Some(u);
        u = leave(board, u, &mut *how, &mut *seen);
        if here {
            break;
        }
    }
    u
}

// Another step in place of the one to v, on the way to z, if the widest leads there; was it put?
fn mend(
    load: &Load<'_>,
    z: usize,
    v: usize,
    how: &mut [u64],
    seen: &mut [u16],
    scout: &mut Scout,
) -> bool
    requires { WayTo load.now.land.now.board how.old seen.old z }
    ensures { WayTo load.now.land.now.board how.new seen.new z }
{
    let board = &load.land.board;
    if v >= how.len() || how[v] == 0 || board.mark[v] == 1 {
        return false;
    }
    let step = crate::onward::instead(load, &*seen, &scout.guide, v, &mut *how);
    let Some(x) = step else {
        return false;
    };
    scout.rows.touch(board.nets, flow::push::left_pin(x));
    swap(load.land, z, v, x, &mut *how, &mut *seen);
    true
}

// At a maker z: pushes what the way can carry. A long way that carried something is mended where it is narrow; the result is where it could not be.
fn carry(
    land: &Land<'_>,
    z: usize,
    how: &mut [u64],
    seen: &mut [u16],
    scout: &mut Scout,
    sums: &mut [u32],
    flow: &mut [i32],
) -> Option<usize>
    requires { SteadyOn land.now.board sums.old flow.old × WayTo land.now.board how.old seen.old z × (get_or land.now.board.mark.now z 0 ≡ 2) }
    ensures { SteadyOn land.now.board sums.new flow.new × WayTo land.now.board how.new seen.new z }
{
    let ways = Ways {
        mods: land.board.mods,
        weight: land.board.weight,
        nets: land.board.nets,
        mark: land.board.mark,
        how: &*how,
    };
    let n = push_from(&ways, z, &mut *sums, &mut *flow);
    if (n.room == 0) | (crate::onward::rank_of(how[z]) <= crate::onward::LONG) {
        return Some(n.at);
    }
    let load = Load {
        land,
        sums: &*sums,
        flow: &*flow,
    };
    let mended = mend(&load, z, n.at, &mut *how, &mut *seen, &mut *scout);
    if mended { None } else { Some(n.at) }
}

// At a maker z: pushes what the way can carry, again while it can be mended, and goes back to before the step that carries no more. Elsewhere it stays.
pub fn deliver(
    land: &Land<'_>,
    z: usize,
    how: &mut [u64],
    seen: &mut [u16],
    scout: &mut Scout,
    sums: &mut [u32],
    flow: &mut [i32],
) -> usize
    requires { SteadyOn land.now.board sums.old flow.old × WayTo land.now.board how.old seen.old z }
    ensures { SteadyOn land.now.board sums.new flow.new × WayTo land.now.board how.new seen.new result }
{
    if land.board.mark[z] != 2 {
        return z;
    }
    let mut stop: Option<usize> = None;
    for _ in 0..PUSHES {
        stop = carry(
            land,
            z,
            &mut *how,
            &mut *seen,
            &mut *scout,
            &mut *sums,
            &mut *flow,
        );
        if stop.is_some() {
            break;
        }
    }
    back(&land.board, z, stop, &mut *how, &mut *seen)
}
