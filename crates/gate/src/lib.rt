// The gate of the balancing walk: which gates are good, the worked-out gate, and what it says of an area.
#![tactic(auto)]

ghost use Rattle.std.specs.Prelude.{◌≡◌};
ghost use Rattle.gate.specs.Gates.{good_gate, share_low, share_high, band_of, band_says};

// A gate is one of three: open, a share, or two bounds.
#[derive(Clone, Copy)]
pub enum Gate {
    Open,
    Share { r: f64, e: f64 },
    Bounds { low: f64, high: f64 },
}

// The worked-out gate.
#[derive(Clone, Copy)]
pub struct Band {
    pub low: f64,
    pub high: f64,
}

// What a gate says of an area.
#[derive(Clone, Copy)]
pub enum Verdict {
    Below,
    Within,
    Above,
}

impl Gate {
    // The highest bound, which no area exceeds.
    pub const TOP: f64 = 16777216.0;

    // Whether a gate is good; a bad one is refusal 7. A NaN fails each test.
    pub fn good(self) -> bool
        ensures { result ≡ good_gate self }
    {
        match self {
            Gate::Open => true,
            Gate::Share { r, e } => (0.0 < r) & (r < 1.0) & (0.0 <= e) & (e < 1.0),
            Gate::Bounds { low, high } => (0.0 <= low) & (low <= high) & (high <= Gate::TOP),
        }
    }

    // The band for the total area w. An open gate gets the widest, which every area lies within.
    pub fn band(self, w: u32) -> Band
        ensures { result ≡ band_of self w }
    {
        match self {
            Gate::Open => Band {
                low: 0.0,
                high: Gate::TOP,
            },
            Gate::Share { r, e } => share_band(r, e, w),
            Gate::Bounds { low, high } => Band { low, high },
        }
    }
}

// The band of a share: each operation rounds once, in the order written.
fn share_band(r: f64, e: f64, w: u32) -> Band
    ensures { (result.low ≡ share_low r e w) × (result.high ≡ share_high r e w) }
{
    let area = w as f64;
    Band {
        low: ((1.0 - e) * r) * area,
        high: ((1.0 + e) * r) * area,
    }
}

impl Band {
    // What the band says of an area, ends included.
    pub fn says(self, area: u32) -> Verdict
        ensures { result ≡ band_says self area }
    {
        let a = area as f64;
        if (self.low <= a) & (a <= self.high) {
            return Verdict::Within;
        }
        if a < self.low {
            return Verdict::Below;
        }
        Verdict::Above
    }
}
