// The way back from a maker to a meter, as a search tells it: what it carries, and the push along it. The sums and the flow stay two slices, as a struct of `&mut` fields owes a clause on each field's ghost name at each call.
ghost use Rattle.std.specs.Prelude.{◌≡◌, suc, min, ◌≤◌, ◌<◌, length, get_or, set, pos};
ghost use Rattle.line.specs.Flow.{taken};
ghost use Rattle.line.proofs.Push.{push};
ghost use Rattle.flow.specs.Search.{In, left, entered};
ghost use Rattle.flow.specs.Raise.{MayCarry, Carried, MayRound, Rounded};
ghost use Rattle.flow.specs.Push.{room_at, way_room, Trail, Level, MayPush, PushedWay, new_sum, Pushable};

use crate::kind::{Kind, step_kind};
use crate::num::{sent_by, taken_by};

// The pin left, from the number of a module. How a module was reached stays one number: `Found` and `Trail` read it by `rank`, `left`, `kind` and `entered` (specs/Search).
pub fn left_pin(x: u64) -> usize
    ensures { result ≡ left x }
{
    (x / 262144 % 16384) as usize
}

// The pin entered.
pub fn entered_pin(x: u64) -> usize
    ensures { result ≡ entered x }
{
    (x % 65536) as usize
}

// How much the step that x tells can carry.
pub fn step_room(weight: &[u16], nets: &[u16], sums: &[u32], flow: &[i32], x: u64) -> u32
    requires { (left x < length flow.now) × (entered x < length flow.now) × (length nets.now ≡ length flow.now) × (length flow.now < 16384) × (get_or nets.now (left x) 0 < length weight.now) × (length sums.now ≡ length weight.now) × (get_or sums.now (get_or nets.now (left x) 0) 0 ≤ get_or weight.now (get_or nets.now (left x) 0) 0) × (taken (get_or flow.now (left x) (pos 0)) ≤ 65535) }
    ensures { result ≡ room_at weight.now nets.now sums.now flow.now x }
{
    match step_kind(x) {
        Kind::Left => taken_by(flow[left_pin(x)]),
        Kind::Entered => sent_by(flow[entered_pin(x)]),
        _ => {
            let n = usize::from(nets[left_pin(x)]);
            u32::from(weight[n]) - sums[n]
        }
    }
}

// The least room on a way, and the module nearest to the meter whose step has no more.
#[derive(Clone, Copy)]
pub struct Narrow {
    pub room: u32,
    pub at: usize,
}

// With one step more, the one to u, which is nearer to the meter: if the rooms are equal, u is kept.
fn narrower(n: Narrow, room: u32, u: usize) -> Narrow
    ensures { result.room ≡ min n.room room }
{
    if n.room < room {
        n
    } else {
        Narrow { room, at: u }
    }
}

// d more from pin a, d less from pin b, and the net's sum with them.
fn push_step(nets: &[u16], x: u64, d: u32, sums: &mut [u32], flow: &mut [i32])
    requires { Pushable flow.old sums.old nets.now d (left x) (entered x) }
    ensures { (flow.new ≡ push flow.old (left x) (entered x) d) × (sums.new ≡ set sums.old (get_or nets.now (left x) 0) (new_sum flow.old (left x) (entered x) d (get_or sums.old (get_or nets.now (left x) 0) 0))) }
{
    let a = left_pin(x);
    let b = entered_pin(x);
    let n = usize::from(nets[a]);
    let before = sent_by(flow[a]) + sent_by(flow[b]);
    let more = flow[a] + d as i32;
    let less = flow[b] - d as i32;
    sums[n] = sums[n] + sent_by(more) + sent_by(less) - before;
    flow[a] = more;
    flow[b] = less;
}

// The card's pins, weights, nets and marks, and how a search reached each module: the ways back to the meters. No `Board`: `push_from` asks for no tables.
#[derive(Clone, Copy)]
pub struct Ways<'a> {
    pub mods: &'a [u16],
    pub weight: &'a [u16],
    pub nets: &'a [u16],
    pub mark: &'a [u8],
    pub how: &'a [u64],
}

impl Ways<'_> {
    // How much the way from z back to a meter can carry, and where it is narrow.
    fn room(&self, sums: &[u32], flow: &[i32], z: usize) -> Narrow
        requires { Trail self.now.mods.now self.now.nets.now self.now.mark.now self.now.how.now (length self.now.weight.now) × Level self.now.mods.now self.now.weight.now sums.now flow.now × In self.now.how.now z }
        ensures { result.room ≡ way_room self.now.mods.now self.now.weight.now self.now.nets.now self.now.mark.now self.now.how.now sums.now flow.now (suc (length self.now.mark.now)) z }
    {
        let mut n = Narrow { room: 65535, at: z };
        let mut u = z;
        while self.mark[u] != 1 {
            let x = self.how[u];
            n = narrower(n, step_room(self.weight, self.nets, sums, flow, x), u);
            u = usize::from(self.mods[left_pin(x)]);
        }
        n
    }

    // Pushes d along the way from z back to a meter.
    fn push(&self, z: usize, d: u32, sums: &mut [u32], flow: &mut [i32])
        requires { MayPush self.now.mods.now self.now.nets.now self.now.mark.now self.now.how.now sums.old flow.old d z }
        ensures { PushedWay self.now.mods.now self.now.nets.now self.now.mark.now self.now.how.now sums.old flow.old d z sums.new flow.new }
    {
        let mut u = z;
        while self.mark[u] != 1 {
            let x = self.how[u];
            push_step(self.nets, x, d, &mut *sums, &mut *flow);
            u = usize::from(self.mods[left_pin(x)]);
        }
    }
}

// Pushes along the way from z back to a meter what it carries on the flow as it is now, and tells how much that was. Where the way was narrow is a guide alone: nothing rests on it.
pub fn push_from(ways: &Ways<'_>, z: usize, sums: &mut [u32], flow: &mut [i32]) -> Narrow
    requires { MayCarry ways.now.mods.now ways.now.weight.now ways.now.nets.now ways.now.mark.now ways.now.how.now sums.old flow.old z }
    ensures { (result.room ≡ way_room ways.now.mods.now ways.now.weight.now ways.now.nets.now ways.now.mark.now ways.now.how.now sums.old flow.old (suc (length ways.now.mark.now)) z) × Carried ways.now.mods.now ways.now.weight.now ways.now.nets.now ways.now.mark.now ways.now.how.now sums.old flow.old z sums.new flow.new }
{
    let n = ways.room(&*sums, &*flow, z);
    let d = n.room;
    if d > 0 {
        ways.push(z, d, &mut *sums, &mut *flow);
    }
    n
}

// Pushes from every maker that was reached, so that one search serves them all; was any? Each way is walked twice, once for its room and once to push. Net rule and module rule hold after each push as before it.
pub fn push_makers(ways: &Ways<'_>, sums: &mut [u32], flow: &mut [i32]) -> bool
    requires { MayRound ways.now.mods.now ways.now.weight.now ways.now.nets.now ways.now.mark.now ways.now.how.now sums.old flow.old }
    ensures { Rounded ways.now.mods.now ways.now.weight.now ways.now.nets.now ways.now.mark.now ways.now.how.now sums.old flow.old (length ways.now.mark.now) result sums.new flow.new }
{
    let mut any = false;
    for (z, mark) in ways.mark.iter().enumerate() {
        if *mark == 2 && ways.how[z] != 0 {
            push_from(ways, z, &mut *sums, &mut *flow);
            any = true;
        }
    }
    any
}
