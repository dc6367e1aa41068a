// Sets of small numbers as rows of bits, 64 to a word.
ghost use Rattle.std.specs.Prelude.{◌≡◌, ◌+◌, ◌-◌, ◌*◌, ◌^◌, ◌≤◌, ◌<◌, IfSome};
ghost use Rattle.std.specs.Iterator.{at_most};

// The words of a row of modules, and of a row of nets.
const MODULE_WORDS: usize = crate::MODULES / 64;

const NET_WORDS: usize = crate::NETS / 64;

pub type Modules = Set<MODULE_WORDS>;

pub type Nets = Set<NET_WORDS>;

// No module, and no net.
pub const NO_MODULES: Modules = Set {
    words: [0; MODULE_WORDS],
};

pub const NO_NETS: Nets = Set {
    words: [0; NET_WORDS],
};

// A set of numbers below 64 N.
#[derive(Clone, Copy)]
pub struct Set<const N: usize> {
    words: [u64; N],
}

impl<const N: usize> Set<N> {
    pub fn insert(&mut self, i: usize)
        requires { i < 64 * N }
    {
        self.words[i / 64] |= 1 << (i % 64);
    }

    pub fn remove(&mut self, i: usize)
        requires { i < 64 * N }
    {
        self.words[i / 64] &= !(1 << (i % 64));
    }

    // Has i as a member or not, as is asked.
    pub fn put(&mut self, i: usize, member: bool)
        requires { i < 64 * N }
    {
        if member {
            self.insert(i);
        } else {
            self.remove(i);
        }
    }

    // Adds the members of the other.
    pub fn join(&mut self, other: &Self) {
        for (word, more) in self.words.iter_mut().zip(other.words.iter()) {
            *word |= *more;
        }
    }

    // The members that the other has not.
    pub fn without(&self, other: &Self) -> Self {
        let mut left = *self;
        for (word, less) in left.words.iter_mut().zip(other.words.iter()) {
            *word &= !*less;
        }
        left
    }

    // Adds the members of the other: those that are new.
    pub fn join_new(&mut self, other: &Self) -> Self {
        let new = other.without(self);
        self.join(&new);
        new
    }

    pub fn is_empty(&self) -> bool {
        self.words.iter().all(|word| *word == 0)
    }

    // Have both a member?
    pub fn meets(&self, other: &Self) -> bool {
        self.words
            .iter()
            .zip(other.words.iter())
            .any(|(x, y)| *x & *y != 0)
    }

    // Are all members in the other?
    pub fn is_inside(&self, other: &Self) -> bool {
        self.words
            .iter()
            .zip(other.words.iter())
            .all(|(x, y)| *x & !*y == 0)
    }

    // The members, from the lowest.
    pub fn members(&self) -> Members<'_, N>
        requires some { 0 < N }
        requires few { 64 * N < 2 ^ 64 }
    {
        Members {
            words: &self.words,
            at: 0,
            rest: self.words[0],
        }
    }
}

// The members of a set that are still to come: those in `rest`, of the word at `at`, and those of the words after it.
#[derive(Drop)]
pub struct Members<'a, const N: usize> {
    words: &'a [u64; N],
    at: usize,
    rest: u64,
    ghost within: { at < N },
    ghost few: { 64 * N < 2 ^ 64 },
}

impl<const N: usize> Iterator for Members<'_, N> {
    type Item = usize;

    ghost next_gives = { λ _ result _. IfSome result (λ i. i < 64 * N) };

    ghost remaining = { λ s. at_most ((N - s.at) * 2 ^ 64 + s.rest) };

    fn next(&mut self) -> Option<usize> {
        // No `for` over the words: the place goes on where the call before left it.
        while self.rest == 0 {
            if self.at + 1 == N {
                return None;
            }
            self.at += 1;
            self.rest = self.words[self.at];
        }
        let place = (u64::trailing_zeros(self.rest) % 64) as usize;
        self.rest &= self.rest - 1;
        Some(self.at * 64 + place)
    }
}
