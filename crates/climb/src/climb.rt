ghost use Rattle.std.specs.Prelude.{◌≡◌, suc, ◌≤◌, ◌<◌, length, get_or, IfSome};
ghost use Rattle.line.specs.Flow.{Fair};
ghost use Rattle.flow.specs.Board.{board_card};
ghost use Rattle.flow.specs.Search.{rank};
ghost use Rattle.climb.specs.Climb.{Guided, Empty, Sized, SteadyOn, WayTo, Ahead};

use crate::land::{Land, Load, Scout, Sight};
use flow::board::Board;
use reach::{Card, FAR, Flow, Guide, Rows};

// How many steps a meter is given, forth and back, before the distances are looked at anew.
const TRIES: usize = 65536;

// The next step of the way to u, if there is one.
fn next_step<'a>(
    land: &'a Land<'a>,
    u: usize,
    how: &'a [u64],
    seen: &'a [u16],
    guide: &mut Guide,
    sums: &'a [u32],
    flow: &'a [i32],
) -> Option<u64>
    requires { SteadyOn land.now.board sums.now flow.now × WayTo land.now.board how.now seen.now u }
    ensures { IfSome result (λ x. Ahead land.now.board how.now seen.now u (suc (rank (get_or how.now u 0))) x) }
{
    let load = Load { land, sums, flow };
    let sight = Sight { load, how, seen };
    crate::onward::onward(&sight, u, guide)
}

// Ways from the meter s, each as far down as it goes; a module with no step onward is tried no more.
fn try_meter(
    land: &Land<'_>,
    s: usize,
    how: &mut [u64],
    seen: &mut [u16],
    scout: &mut Scout,
    sums: &mut [u32],
    flow: &mut [i32],
)
    requires { SteadyOn land.now.board sums.old flow.old × Sized land.now.board.mark.now land.now.board.weight.now how.old seen.old × Empty how.old × (s < length land.now.board.mark.now) × (get_or land.now.board.mark.now s 0 ≡ 1) }
    ensures { SteadyOn land.now.board sums.new flow.new × Empty how.new }
{
    how[s] = flow::search::pack(1, 0, 0);
    let mut u = s;
    for _ in 0..TRIES {
        let step = next_step(&*land, u, &*how, &*seen, &mut scout.guide, &*sums, &*flow);
        if let Some(x) = step {
            scout.rows.touch(land.board.nets, flow::push::left_pin(x));
            u = crate::ways::enter(land, u, x, &mut *how, &mut *seen);
            u = crate::ways::deliver(
                land,
                u,
                &mut *how,
                &mut *seen,
                &mut *scout,
                &mut *sums,
                &mut *flow,
            );
        } else {
            scout.guide.far[u] = FAR;
            if land.board.mark[u] == 1 {
                break;
            }
            u = crate::ways::leave(&land.board, u, &mut *how, &mut *seen);
        }
    }
    let end = crate::ways::back(&land.board, u, None, &mut *how, &mut *seen);
    how[end] = 0;
}

// Ways from every meter that can reach a maker.
fn try_all(
    land: &Land<'_>,
    how: &mut [u64],
    seen: &mut [u16],
    scout: &mut Scout,
    sums: &mut [u32],
    flow: &mut [i32],
)
    requires { SteadyOn land.now.board sums.old flow.old × Sized land.now.board.mark.now land.now.board.weight.now how.old seen.old × Empty how.old }
    ensures { SteadyOn land.now.board sums.new flow.new × Empty how.new }
{
    for s in 0..land.board.mark.len() {
        if (land.board.mark[s] == 1) & (scout.guide.far[s] != FAR) {
            try_meter(
                land,
                s,
                &mut *how,
                &mut *seen,
                &mut *scout,
                &mut *sums,
                &mut *flow,
            );
        }
    }
}

// Rounds of a look and of ways down to the makers, until no meter can reach a maker; a round a module at most.
fn climb_on(
    land: &Land<'_>,
    how: &mut [u64],
    seen: &mut [u16],
    scout: &mut Scout,
    sums: &mut [u32],
    flow: &mut [i32],
)
    requires { SteadyOn land.now.board sums.old flow.old × Sized land.now.board.mark.now land.now.board.weight.now how.old seen.old × Empty how.old }
    ensures { Fair (board_card land.now.board) flow.new }
{
    let card = Card {
        first: land.board.first,
        mods: land.board.mods,
        weight: land.board.weight,
    };
    for _ in 0..land.board.mark.len() {
        let now = Flow {
            card,
            sums: &*sums,
            flow: &*flow,
        };
        if !reach::look(now, &mut scout.rows, &mut scout.guide) {
            break;
        }
        seen.fill(0);
        try_all(
            land,
            &mut *how,
            &mut *seen,
            &mut *scout,
            &mut *sums,
            &mut *flow,
        );
    }
}

// From any fair flow to a fair one, in lent work; the guide and its rows are its own.
pub fn climb(
    board: &Board<'_>,
    how: &mut [u64],
    seen: &mut [u16],
    sums: &mut [u32],
    flow: &mut [i32],
)
    requires { Guided board.now × Sized board.now.mark.now board.now.weight.now how.old seen.old × (length sums.old ≡ length board.now.weight.now) × Fair (board_card board.now) flow.old × (length flow.old ≡ length board.now.mods.now) }
    ensures { Fair (board_card board.now) flow.new }
{
    let card = Card {
        first: board.first,
        mods: board.mods,
        weight: board.weight,
    };
    let mut scout = Scout {
        guide: Guide::NEW,
        rows: Rows::EMPTY,
    };
    flow::engine::net_sums(board.first, &*flow, &mut *sums);
    how.fill(0);
    scout.rows.begin(card, board.mark, &*sums);
    climb_on(&Land { board: *board }, how, seen, &mut scout, sums, flow);
}
