// What the mark of a module says.
ghost use Rattle.std.specs.Prelude.{◌≡◌, eqb};
ghost use Rattle.book.specs.Marks.{number_of};

#[derive(Clone, Copy)]
pub enum Mark {
    Free,
    Meter,
    Maker,
}

impl Mark {
    pub fn is_free(self) -> bool
        ensures { result ≡ eqb (number_of self) 0 }
    {
        match self {
            Mark::Free => true,
            Mark::Meter | Mark::Maker => false,
        }
    }

    pub fn is_meter(self) -> bool
        ensures { result ≡ eqb (number_of self) 1 }
    {
        match self {
            Mark::Meter => true,
            Mark::Free | Mark::Maker => false,
        }
    }
}

// Its number in a book.
impl From<Mark> for u8 {
    ghost from_gives = { λ mark n. n ≡ number_of mark };

    fn from(mark: Mark) -> u8 {
        match mark {
            Mark::Free => 0,
            Mark::Meter => 1,
            Mark::Maker => 2,
        }
    }
}
