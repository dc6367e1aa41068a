// The engine's answer written as a side.
ghost use Rattle.std.specs.Prelude.{◌≡◌, ◌/◌, ◌<◌, ◌≤◌, length};
ghost use Rattle.side.specs.Sides.{bytes_for};
ghost use Rattle.split.specs.Writes.{opened, wrote, picked_of, Written};

// Clears the byte of module m, where m is its first.
fn open_byte(out: &mut [u8], m: usize)
    requires { m / 8 < length out.old }
    ensures { out.new ≡ opened m out.old }
{
    if m % 8 == 0 {
        let at = m / 8;
        out[at] = 0;
    }
}

// Module m on the side or off it, where those below m are written.
fn write_module(out: &mut [u8], m: usize, on: bool)
    requires { m / 8 < length out.old }
    ensures { out.new ≡ wrote m on out.old }
{
    open_byte(&mut *out, m);
    if on {
        side::put(&mut *out, m);
    }
}

// Was the module reached, or was it not, as is asked.
fn picked(x: u64, reached: bool) -> bool
    ensures { result ≡ picked_of reached x }
{
    (x > 0) == reached
}

// The side of the modules that a search reached, or of those that it did not: `Written` reads `reached`.
pub fn write_side(how: &[u64], reached: bool, out: &mut [u8])
    requires { bytes_for (length how.now) ≤ length out.old }
    ensures { Written how.now reached (length how.now) out.old out.new }
{
    for (m, &x) in how.iter().enumerate() {
        write_module(&mut *out, m, picked(x, reached));
    }
}
