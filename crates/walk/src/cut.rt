// The modules with a pin on a net that X cuts.
ghost use Rattle.std.specs.Prelude.{◌≤◌, length};
ghost use Rattle.book.specs.Format.{modules};
ghost use Rattle.side.specs.Sides.{side_of, bytes_for};
ghost use Rattle.side.specs.Given.{AtNet};
ghost use Rattle.walk.specs.Parts.{Adds, on_net, on_cut_net, CutRow};

use book::netlist::Netlist;
use side::Sided;

// Puts the modules of net n on.
fn put_net(netlist: Netlist<'_>, n: usize, first: usize, out: &mut [u8])
    requires { (bytes_for (modules netlist.bytes.now) ≤ length out.old) × AtNet netlist.bytes.now n first }
    ensures { Adds (on_net netlist.entry.bytes.now n) out.old out.new }
{
    for j in 0..netlist.pin_count(n) {
        side::put(&mut *out, side::pin_of(netlist, n, first, j));
    }
}

// Puts the modules of net n on, where X cuts it.
fn put_cut(sided: Sided<'_>, n: usize, first: usize, out: &mut [u8])
    requires { (bytes_for (modules sided.netlist.bytes.now) ≤ length out.old) × AtNet sided.netlist.bytes.now n first }
    ensures { Adds (on_cut_net sided.entry.netlist.bytes.now (side_of sided.entry.bits.now) n) out.old out.new }
{
    if sided.crosses(n, first) {
        put_net(sided.netlist, n, first, &mut *out);
    }
}

// The modules with a pin on a net that X cuts, as a row of bits.
pub fn cut_row(sided: Sided<'_>, out: &mut [u8])
    requires { bytes_for (modules sided.netlist.bytes.now) ≤ length out.old }
    ensures { CutRow sided.entry.netlist.bytes.now (side_of sided.entry.bits.now) out.old out.new }
{
    out.fill(0);
    let mut first = 0;
    for n in 0..sided.netlist.nets() {
        put_cut(sided, n, first, &mut *out);
        first += sided.netlist.pin_count(n);
    }
}
