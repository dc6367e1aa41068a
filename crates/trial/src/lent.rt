// Lent places that are marked all over before a call.
ghost use Rattle.std.specs.Prelude.{◌↔◌, IsTrue, All, drop};

// What lent bytes are marked with.
pub const BYTE: u8 = 0xA5;

// Are all places from one on still marked?
pub fn kept<T: PartialEq + Copy>(xs: &[T], mark: T, from: usize) -> bool
    ensures { IsTrue result ↔ All (λ x. IsTrue (T.eq x mark)) (drop from xs.now) }
{
    match xs.get(from..) {
        Some(rest) => rest.iter().all(|x| *x == mark),
        None => true,
    }
}
