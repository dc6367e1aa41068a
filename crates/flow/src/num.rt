// What a number of a flow sends and takes.
ghost use Rattle.std.specs.Prelude.{◌≡◌, ltb};
ghost use Rattle.line.specs.Flow.{sent, taken};
ghost use Rattle.flow.specs.Search.{gives};

// Does the number send, or take if the search goes backwards.
pub fn sends(back: bool, f: i32) -> bool
    ensures { result ≡ ltb 0 (gives back f) }
{
    if back { f < 0 } else { f > 0 }
}

// What a number sends.
pub fn sent_by(f: i32) -> u32
    ensures { result ≡ sent f }
{
    f.max(0).unsigned_abs()
}

// What a number takes: what it would send if it were turned round.
pub fn taken_by(f: i32) -> u32
    ensures { result ≡ taken f }
{
    f.min(0).unsigned_abs()
}
