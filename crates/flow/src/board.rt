// A card and its tables as slices of numbers, which always travel together.
ghost use Rattle.std.specs.Prelude.{◌≡◌, ℕ, ◌+◌, ◌<◌, length, get_or};
ghost use Rattle.flow.specs.Search.{Tables};

// The first pin of each net and the end of the last, the module of each pin, the weight of each net; the net of each pin, where each module's pins begin, the pins module by module; the mark of each module, which stays a number, as `card_of` reads it.
#[derive(Clone, Copy)]
pub struct Board<'a> {
    pub first: &'a [u16],
    pub mods: &'a [u16],
    pub weight: &'a [u16],
    pub nets: &'a [u16],
    pub at: &'a [u16],
    pub pins: &'a [u16],
    pub mark: &'a [u8],
    pub ghost tables: { ∥ Tables first.now mods.now weight.now nets.now at.now pins.now (length mark.now) ∥₁ },
    pub ghost firsts: { length first.now ≡ length weight.now + 1 },
    pub ghost below: { (p : ℕ) → p < length mods.now → get_or mods.now p 0 < length mark.now },
    pub ghost few: { length mods.now < 16384 },
    // True of any weight, which is a number of 16 bits; a proof does not see the width of a field's numbers.
    pub ghost light: { (n : ℕ) → get_or weight.now n 0 < 65536 },
}
