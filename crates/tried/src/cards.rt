// Cards that differ little from Bridge; they stand whole, since a constant cannot cite a part of another.
use trial::Mark::{Free, Maker, Meter};
use trial::{Card, Module, Net};

// Bridge with two meters.
pub const METERS: Card<'static> = Card {
    modules: &[
        Module(3, Meter),
        Module(2, Meter),
        Module(2, Free),
        Module(4, Maker),
    ],
    nets: &[Net(2, &[0, 1]), Net(1, &[1, 2]), Net(2, &[2, 3])],
};

// Bridge with two makers.
pub const MAKERS: Card<'static> = Card {
    modules: &[
        Module(3, Meter),
        Module(2, Free),
        Module(2, Maker),
        Module(4, Maker),
    ],
    nets: &[Net(2, &[0, 1]), Net(1, &[1, 2]), Net(2, &[2, 3])],
};

// Bridge with all weights 65535.
pub const HEAVY: Card<'static> = Card {
    modules: &[
        Module(3, Meter),
        Module(2, Free),
        Module(2, Free),
        Module(4, Maker),
    ],
    nets: &[
        Net(65535, &[0, 1]),
        Net(65535, &[1, 2]),
        Net(65535, &[2, 3]),
    ],
};

// Bridge with the nets {0, 1}, {1} and {1, 2, 3}.
pub const LONE: Card<'static> = Card {
    modules: &[
        Module(3, Meter),
        Module(2, Free),
        Module(2, Free),
        Module(4, Maker),
    ],
    nets: &[Net(2, &[0, 1]), Net(1, &[1]), Net(2, &[1, 2, 3])],
};
