// The book reader: checks 1 to 6 of document 01 on any bytes, and the numbers that stand in a book that is laid out right.
#![tactic(auto)]

mod checks;
pub mod layout;
pub mod mark;
pub mod netlist;

ghost use Rattle.std.specs.Prelude.{◌≡◌, ℕ, ◌+◌, ◌*◌, ◌<◌, ◌≤◌, length, get_or};
ghost use Rattle.book.specs.Format.{u16, u32};
ghost use Rattle.book.specs.Steps.{step_by, number_in};
ghost use Rattle.book.specs.Answer.{number_of, place_of};
ghost use Rattle.book.specs.Checks.{read_of};

use layout::Layout;

// The counts of a book, and the largest numbers of every book.
#[derive(Clone, Copy)]
pub struct Book {
    pub modules: usize,
    pub nets: usize,
    pub pins: usize,
}

impl Book {
    pub const LEAST_MODULES: usize = 2;

    pub const MODULES: usize = 256;

    pub const NETS: usize = 512;

    pub const PINS: usize = 2048;

    // Where a reading starts.
    pub fn start() -> Cursor
        ensures { result.at ≡ 0 }
    {
        Cursor { at: 0 }
    }
}

// Why a call says no: a case for each number of document 01, 1 to 14, with its place where it has one.
#[derive(Clone, Copy)]
pub enum Refusal {
    Layout,
    Counts,
    Module(usize),
    Net(usize),
    Pin(usize),
    Marks,
    Gate,
    Buffer,
    Side,
    Move,
    NetRule(usize),
    ModuleRule(usize),
    Values,
    Stuck,
}

impl Refusal {
    // Its number in document 01.
    pub fn number(self) -> usize
        ensures { result ≡ number_of self }
    {
        match self {
            Refusal::Layout => 1,
            Refusal::Counts => 2,
            Refusal::Module(_) => 3,
            Refusal::Net(_) => 4,
            Refusal::Pin(_) => 5,
            Refusal::Marks => 6,
            Refusal::Gate => 7,
            Refusal::Buffer => 8,
            Refusal::Side => 9,
            Refusal::Move => 10,
            Refusal::NetRule(_) => 11,
            Refusal::ModuleRule(_) => 12,
            Refusal::Values => 13,
            Refusal::Stuck => 14,
        }
    }

    // Its place, 0 where it has none.
    pub fn place(self) -> usize
        ensures { result ≡ place_of self }
    {
        match self {
            Refusal::Module(at)
            | Refusal::Net(at)
            | Refusal::Pin(at)
            | Refusal::NetRule(at)
            | Refusal::ModuleRule(at) => at,
            _ => 0,
        }
    }
}

// A place in a book.
#[derive(Clone, Copy)]
pub struct Cursor {
    pub at: usize,
}

// A step of a cursor: the number it stood at and the cursor after it, or none at the end of the book.
pub type Step = Option<(usize, Cursor)>;

impl Cursor {
    // Over a little-endian number of 2 bytes.
    pub fn next_u16(self, book: &[u8]) -> Step
        ensures { (result ≡ step_by 2 u16 book.now self.at) × (number_in result < 65536) }
    {
        let at = self.at;
        let len = book.len();
        if len < 2 {
            return None;
        }
        if len - 2 < at {
            return None;
        }
        let number = usize::from(book[at]) + 256 * usize::from(book[at + 1]);
        Some((number, Cursor { at: at + 2 }))
    }

    // Over a little-endian number of 4 bytes.
    pub fn next_u32(self, book: &[u8]) -> Step
        ensures { (result ≡ step_by 4 u32 book.now self.at) × (number_in result < 4294967296) }
    {
        let (low, c) = self.next_u16(book)?;
        let (high, d) = c.next_u16(book)?;
        Some((low + 65536 * high, d))
    }
}

// The little-endian number of 2 bytes at an offset.
pub fn u16_at(book: &[u8], i: usize) -> usize
    requires { i + 2 ≤ length book.now }
    ensures { (result ≡ u16 book.now i) × (result < 65536) }
{
    let c = Cursor { at: i };
    match c.next_u16(book) {
        Some((n, _)) => n,
        None => 0,
    }
}

// The little-endian number of 4 bytes at an offset. One function over the step would have both contracts again.
pub fn u32_at(book: &[u8], i: usize) -> usize
    requires { i + 4 ≤ length book.now }
    ensures { (result ≡ u32 book.now i) × (result < 4294967296) }
{
    let c = Cursor { at: i };
    match c.next_u32(book) {
        Some((n, _)) => n,
        None => 0,
    }
}

// Checks 1 to 6, on any bytes.
#[tactic(auto, using(crate::proofs::Laid::laid_facts))]
pub fn read(book: &[u8]) -> Result<Book, Refusal>
    ensures { result ≡ read_of book.now }
{
    if !checks::is_laid(book) {
        return Err(Refusal::Layout);
    }
    let layout = Layout { bytes: book };
    layout.read()
}
