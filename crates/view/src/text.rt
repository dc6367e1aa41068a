// Text put into lent bytes from a place on. Each function answers the place after what it put.
// Not by `Display`: a `fmt::Write` may fail, and `Wrote` promises the text wherever there is room.
ghost use Rattle.std.specs.Prelude.{◌≡◌, ◌++◌, ◌∷◌, [], ◌+◌, ◌/◌, ◌<◌, ◌≤◌, length};
ghost use Rattle.side.specs.Sides.{side_of, bytes_for};
ghost use Rattle.view.specs.Text.{decimal, module_line, module_lines, pair_line};
ghost use Rattle.view.specs.Puts.{Put};

// A byte.
fn put_byte(out: &mut [u8], at: usize, b: u8) -> usize
    requires { at < length out.old }
    ensures { Put (b ∷ []) at out.old result out.new }
{
    out[at] = b;
    at + 1
}

// A text.
pub fn put_text(out: &mut [u8], at: usize, text: &[u8]) -> usize
    requires { at + length text.now ≤ length out.old }
    ensures { Put text.now at out.old result out.new }
{
    let end = at + text.len();
    out[at..end].copy_from_slice(text);
    end
}

// A number in decimal: its last digit after those of a tenth of it.
fn put_decimal(out: &mut [u8], at: usize, n: usize) -> usize
    requires { at + length (decimal n) ≤ length out.old }
    ensures { Put (decimal n) at out.old result out.new }
{
    if n < 10 {
        put_byte(out, at, b'0' + n as u8)
    } else {
        let last = put_decimal(&mut *out, at, n / 10);
        put_byte(out, last, b'0' + (n % 10) as u8)
    }
}

// A word and a number.
pub fn put_number(out: &mut [u8], at: usize, word: &[u8], n: usize) -> usize
    requires { at + length (word.now ++ decimal n) ≤ length out.old }
    ensures { Put (word.now ++ decimal n) at out.old result out.new }
{
    let then = put_text(&mut *out, at, word);
    put_decimal(out, then, n)
}

// A line of a word and a number, then another word and number.
pub fn put_pair(out: &mut [u8], at: usize, first: &[u8], n: usize, second: &[u8], k: usize) -> usize
    requires { at + length (pair_line first.now n second.now k) ≤ length out.old }
    ensures { Put (pair_line first.now n second.now k) at out.old result out.new }
{
    let then = put_number(&mut *out, at, first, n);
    let end = put_number(&mut *out, then, second, k);
    put_text(out, end, b"\n")
}

// The line of a module, where it is on the side.
fn put_module(out: &mut [u8], at: usize, side: &[u8], m: usize) -> usize
    requires { (m / 8 < length side.now) × (at + length (module_line (side_of side.now) m) ≤ length out.old) }
    ensures { Put (module_line (side_of side.now) m) at out.old result out.new }
{
    if side::inside(side, m) {
        let end = put_decimal(&mut *out, at, m);
        put_text(out, end, b"\n")
    } else {
        at
    }
}

// The modules of a side below so many, one a line, rising.
pub fn put_modules(out: &mut [u8], at: usize, side: &[u8], count: usize) -> usize
    requires { (bytes_for count ≤ length side.now) × (at + length (module_lines (side_of side.now) count) ≤ length out.old) }
    ensures { Put (module_lines (side_of side.now) count) at out.old result out.new }
{
    let mut next = at;
    for m in 0..count {
        next = put_module(&mut *out, next, side, m);
    }
    next
}
