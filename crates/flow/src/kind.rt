// The kinds of a step, as the number of a module tells them.
ghost use Rattle.std.specs.Prelude.{◌≡◌};
ghost use Rattle.flow.specs.Search.{kind};
ghost use Rattle.flow.specs.Kinds.{number_of};

// What lets a step pass: the room of the net, the pin left, which takes less, or the pin entered, which sends less. Two bits hold a fourth number, which no step has.
#[derive(Clone, Copy, PartialEq, Eq)]
pub enum Kind {
    Room,
    Left,
    Entered,
    Unused,
}

// The kind of the step that x tells.
pub fn step_kind(x: u64) -> Kind
    ensures { number_of result ≡ kind x }
{
    match x / 65536 % 4 {
        0 => Kind::Room,
        1 => Kind::Left,
        2 => Kind::Entered,
        _ => Kind::Unused,
    }
}
