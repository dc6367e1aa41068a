// The rows of a card and of a flow on it that sends what the sums tell, but for the nets touched.
ghost use Rattle.std.specs.Prelude.{◌≡◌, ◌+◌, ◌≤◌, ◌<◌, length};

use crate::card::{Card, Flow};
use crate::sets::{Modules, NO_MODULES, NO_NETS, Nets};

// The nets of each module, the modules of each net, the nets that each module sends into, the nets that have no room, the nets touched, the makers and the meters.
#[derive(Drop)]
pub struct Rows {
    pub(crate) nets_of: [Nets; crate::MODULES],
    pub(crate) modules_of: [Modules; crate::NETS],
    pub(crate) sends: [Nets; crate::MODULES],
    pub(crate) full: Nets,
    touched: Nets,
    pub(crate) makers: Modules,
    pub(crate) meters: Modules,
}

impl Rows {
    // The rows of a card with no nets.
    pub const EMPTY: Self = Rows {
        nets_of: [NO_NETS; crate::MODULES],
        modules_of: [NO_MODULES; crate::NETS],
        sends: [NO_NETS; crate::MODULES],
        full: NO_NETS,
        touched: NO_NETS,
        makers: NO_MODULES,
        meters: NO_MODULES,
    };

    // Makes empty rows those of a card and of a flow that sends what the sums tell.
    pub fn begin(&mut self, card: Card, mark: &[u8], sums: &[u32]) {
        for n in 0..card.count() {
            self.note(card, n);
        }
        self.note_marks(&mark[..mark.len().min(crate::MODULES)]);
        self.touch_sent(&sums[..sums.len().min(crate::NETS)]);
    }

    // Net n among the nets of its modules, and they among its own.
    fn note(&mut self, card: Card, n: usize)
        requires few { n < 512 }
        requires within { n < length card.weight.now }
    {
        for named in card.modules(n) {
            let m = usize::from(*named) % crate::MODULES;
            self.nets_of[m].insert(n);
            self.modules_of[n].insert(m);
        }
    }

    // The makers and the meters.
    fn note_marks(&mut self, mark: &[u8])
        requires { length mark.now ≤ 256 }
    {
        for (m, kind) in mark.iter().enumerate() {
            if *kind == 2 {
                self.makers.insert(m);
            }
            if *kind == 1 {
                self.meters.insert(m);
            }
        }
    }

    // Touches the nets into which something is sent, so that rows begun for a flow of zeros are made right for any.
    fn touch_sent(&mut self, sums: &[u32])
        requires { length sums.now ≤ 512 }
    {
        for (n, sum) in sums.iter().enumerate() {
            if *sum > 0 {
                self.touched.insert(n);
            }
        }
    }

    // Touches the net of pin a, if there is one: the next look reads it anew.
    pub fn touch(&mut self, nets: &[u16], a: usize) {
        if let Some(n) = nets.get(a) {
            self.touched.insert(usize::from(*n) % crate::NETS);
        }
    }

    // Looks anew at every net that was touched; none is after it.
    pub(crate) fn redo(&mut self, flow: Flow) {
        let touched = self.touched;
        for n in touched.members() {
            if n < flow.card.weight.len() {
                self.redo_net(flow, n);
            }
        }
        self.touched = NO_NETS;
    }

    // Who sends into net n, and whether it has room.
    fn redo_net(&mut self, flow: Flow, n: usize)
        requires few { n < 512 }
        requires within { n < length flow.card.weight.now }
    {
        for (named, sent) in flow.card.modules(n).iter().zip(flow.at(n)) {
            self.sends[usize::from(*named) % crate::MODULES].put(n, *sent > 0);
        }
        self.full.put(n, flow.is_full(n));
    }
}
