// Level by level from the makers against the steps, by joining rows.
ghost use Rattle.std.specs.Prelude.{◌≡◌, ◌+◌, ◌≤◌, ◌<◌, length};

use crate::card::Flow;
use crate::guide::Guide;
use crate::rows::Rows;
use crate::sets::{Modules, NO_MODULES, NO_NETS, Nets};

// One more than the largest distance.
const END: u16 = 257;

// A search from the makers: the modules at the last distance, all that were reached, and the nets gone through, whole or in part.
#[derive(Drop)]
struct Search {
    front: Modules,
    reached: Modules,
    whole: Nets,
    part: Nets,
}

impl Search {
    const NEW: Self = Search {
        front: NO_MODULES,
        reached: NO_MODULES,
        whole: NO_NETS,
        part: NO_NETS,
    };

    // The new front, at the distance d: who of these was not reached before.
    fn settle(&mut self, found: &Modules, d: u16, guide: &mut Guide) {
        self.front = self.reached.join_new(found);
        for m in self.front.members() {
            guide.far[m] = d;
        }
    }

    // Who reaches the front: by the nets that have room or into which it sends, any module of the net; by its others, those that take from the net. Each net is gone through once as either. No step leads on to a meter.
    fn spread(&mut self, flow: Flow, rows: &Rows, d: u16, guide: &mut Guide) -> Modules {
        let mut met = NO_NETS;
        let mut sent = NO_NETS;
        for m in self.front.without(&rows.meters).members() {
            met.join(&rows.nets_of[m]);
            sent.join(&rows.sends[m]);
        }
        sent.join(&met.without(&rows.full));
        let whole = self.whole.join_new(&sent);
        let part = self.part.join_new(&met.without(&self.whole));
        let mut found = NO_MODULES;
        for n in whole.members() {
            guide.whole[n] = d;
            found.join(&rows.modules_of[n]);
        }
        for n in part.members() {
            guide.part[n] = d;
            join_takers(flow, n, &mut found);
        }
        found
    }

    // One level: from the modules at the distance d - 1 to those at d. Is there a front, and a meter that was not reached?
    fn level(&mut self, flow: Flow, rows: &Rows, d: u16, guide: &mut Guide) -> bool {
        let found = self.spread(flow, rows, d, &mut *guide);
        self.settle(&found, d, &mut *guide);
        !self.front.is_empty() && !rows.meters.is_inside(&self.reached)
    }
}

// Adds the modules that take from net n, if there is one.
fn join_takers(flow: Flow, n: usize, found: &mut Modules) {
    if n < flow.card.weight.len() {
        for (named, sent) in flow.card.modules(n).iter().zip(flow.at(n)) {
            if *sent < 0 {
                found.insert(usize::from(*named) % crate::MODULES);
            }
        }
    }
}

// The guide, by one search from the makers against the steps, level by level until every meter is met; was one met?
pub fn levels(flow: Flow, rows: &Rows, guide: &mut Guide) -> bool {
    let mut search = Search::NEW;
    guide.clear();
    search.settle(&rows.makers, 0, &mut *guide);
    for d in 1..END {
        if !search.level(flow, rows, d, &mut *guide) {
            break;
        }
    }
    rows.meters.meets(&search.reached)
}
