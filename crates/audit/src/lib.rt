// The checker: a flow, a side and a claimed price against a book, whoever made them. Any numbers of 32 bits, and no sum wraps.
#![tactic(auto, using(crate::proofs::Flows::lent_flow, crate::proofs::Flows::sound_netlist))]

ghost use Rattle.std.specs.Prelude.{◌≡◌, cond, ℕ, ◌+◌, ◌*◌, ◌≤◌, ◌<◌, length, get_or, set, ℤ, true, false, IfOk, IfErr};
ghost use Rattle.line.specs.Card.{price};
ghost use Rattle.line.specs.Flow.{sent, taken, meters};
ghost use Rattle.book.specs.Format.{modules, pins};
ghost use Rattle.book.specs.First.{lowest};
ghost use Rattle.book.specs.Checks.{most_pins};
ghost use Rattle.book.specs.declared.Refusal.TheVariants.{Buffer};
ghost use Rattle.book.specs.Cards.{card_of, nets_of};
ghost use Rattle.side.specs.Given.{AtNet};
ghost use Rattle.side.specs.Sides.{side_of};
ghost use Rattle.audit.specs.Checker.{agree, is_short_flow, judged, checked_sound, checked_of};
ghost use Rattle.audit.specs.Rules.{most_sent, sent_at, taken_at, bad_net_flow, check11, balance_of, ruled_of, value_sent, value_taken};
ghost use Rattle.audit.specs.Tallies.{Empty, Tally, Small, uneven, meters_to};

use book::netlist::Netlist;
use book::{Book, Refusal};
use side::Sided;

// What the meter modules of a fair flow send, and what they take: the value is the one less the other.
#[derive(Clone, Copy)]
struct Value {
    sent: u64,
    taken: u64,
}

// What a number sends into its net, and what it takes from it: the checker shares no code with the engine that it checks. The lowest number takes more than 32 bits with a sign can hold.
fn sent_of(x: i32) -> u64
    ensures { (result ≡ sent x) × (result ≤ most_sent) }
{
    u64::from(x.max(0).unsigned_abs())
}

fn taken_of(x: i32) -> u64
    ensures { (result ≡ taken x) × (result ≤ most_sent) }
{
    u64::from(x.min(0).unsigned_abs())
}

// The same of the number of pin p.
fn sent_at(flow: &[i32], p: usize) -> u64
    requires { p < length flow.now }
    ensures { (result ≡ sent_at flow.now p) × (result ≤ most_sent) }
{
    sent_of(flow[p])
}

fn taken_at(flow: &[i32], p: usize) -> u64
    requires { p < length flow.now }
    ensures { (result ≡ taken_at flow.now p) × (result ≤ most_sent) }
{
    taken_of(flow[p])
}

// Adds to the entry of module m.
fn add(sums: &mut [u64], m: usize, more: u64)
    requires { (m < length sums.old) × (get_or sums.old m 0 ≤ most_sent * most_pins) × (more ≤ most_sent) }
    ensures { sums.new ≡ set sums.old m (get_or sums.old m 0 + more) }
{
    sums[m] += more;
}

// Whether module m is free and sends more or less than it takes.
fn is_uneven(netlist: Netlist<'_>, sends: &[u64], takes: &[u64], m: usize) -> bool
    requires { (modules netlist.bytes.now ≤ length sends.now) × (modules netlist.bytes.now ≤ length takes.now) × (m < modules netlist.bytes.now) }
    ensures { result ≡ uneven netlist.entry.bytes.now sends.now takes.now m }
{
    netlist.mark(m).is_free() & (sends[m] != takes[m])
}

// Check 12, on the sums of all modules: the lowest free module that is uneven.
fn uneven_module(netlist: Netlist<'_>, sends: &[u64], takes: &[u64]) -> Option<usize>
    requires { (modules netlist.bytes.now ≤ length sends.now) × (modules netlist.bytes.now ≤ length takes.now) }
    ensures { result ≡ lowest (uneven netlist.entry.bytes.now sends.now takes.now) (modules netlist.entry.bytes.now) }
{
    (0..netlist.modules()).find(|&m| is_uneven(netlist, sends, takes, m))
}

// What module m adds to the sum of the meter modules: its own entry where it is one.
fn meter_at(netlist: Netlist<'_>, sums: &[u64], m: usize) -> u64
    requires { Small netlist.bytes.now sums.now × (m < modules netlist.bytes.now) }
    ensures { (result ≡ cond (meters (card_of netlist.entry.bytes.now) m) (get_or sums.now m 0) 0) × (result ≤ most_sent * most_pins) }
{
    if_on(netlist.mark(m).is_meter(), sums[m])
}

// The entries of the meter modules added up.
fn meter_sum(netlist: Netlist<'_>, sums: &[u64]) -> u64
    requires { Small netlist.bytes.now sums.now }
    ensures { result ≡ meters_to netlist.entry.bytes.now sums.now (modules netlist.entry.bytes.now) }
{
    let mut sum: u64 = 0;
    for m in 0..netlist.modules() {
        sum += meter_at(netlist, sums, m);
    }
    sum
}

// Check 13 passes: the value, which is what is sent less what is taken, the price of the side and the claimed price are all equal.
fn agree(sent: u64, taken: u64, price: usize, claim: u32) -> bool
    ensures { result ≡ agree sent taken price claim }
{
    if taken <= sent {
        (sent - taken == price as u64) & (price == claim as usize)
    } else {
        false
    }
}

// The number where the test holds, and 0 where it does not.
fn if_on(on: bool, x: u64) -> u64
    ensures { (result ≡ cond on x 0) × (result ≤ x) }
{
    if on { x } else { 0 }
}

// A flow beside its netlist, with a number for each pin.
#[derive(Clone, Copy)]
pub struct Flowed<'a> {
    pub netlist: Netlist<'a>,
    pub flow: &'a [i32],
    ghost enough: { pins netlist.bytes.now ≤ length flow.now },
}

impl<'a> Flowed<'a> {
    // Check 8: the flow beside its netlist, where it has a number for each pin.
    pub fn new(netlist: Netlist<'a>, flow: &'a [i32]) -> Result<Flowed<'a>, Refusal>
        ensures good { IfOk result (λ f. (f.netlist.bytes ≡ netlist.entry.bytes) × (f.flow ≡ flow.entry) × (is_short_flow netlist.entry.bytes.now flow.now ≡ false)) }
        ensures short { IfErr result (λ why. (why ≡ Buffer) × (is_short_flow netlist.entry.bytes.now flow.now ≡ true)) }
    {
        if flow.len() < netlist.pins() {
            return Err(Refusal::Buffer);
        }
        Ok(Flowed { netlist, flow })
    }

    // Whether the numbers of net n, whose pins begin at `first`, break the net rule.
    fn net_breaks(self, n: usize, first: usize) -> bool
        requires { AtNet self.netlist.bytes.now n first }
        ensures { result ≡ bad_net_flow self.entry.netlist.bytes.now self.entry.flow.now n }
    {
        let mut sent: u64 = 0;
        let mut taken: u64 = 0;
        for j in 0..self.netlist.pin_count(n) {
            sent += sent_at(self.flow, first + j);
            taken += taken_at(self.flow, first + j);
        }
        (sent != taken) | ((self.netlist.weight(n) as u64) < sent)
    }

    // Check 11: the first net that breaks the net rule.
    fn broken_net(self) -> Option<usize>
        ensures { result ≡ check11 self.entry.netlist.bytes.now self.entry.flow.now }
    {
        let mut first = 0;
        for n in 0..self.netlist.nets() {
            if self.net_breaks(n, first) {
                return Some(n);
            }
            first += self.netlist.pin_count(n);
        }
        None
    }

    // What each module sends and what it takes, all modules in one pass over the pins.
    fn tally(self, sends: &mut [u64], takes: &mut [u64])
        requires { Empty self.netlist.bytes.now sends.old × Empty self.netlist.bytes.now takes.old }
        ensures { Tally self.entry.netlist.bytes.now self.entry.flow.now sent sends.new × Tally self.entry.netlist.bytes.now self.entry.flow.now taken takes.new }
    {
        for p in 0..self.netlist.pins() {
            let m = self.netlist.pin(p);
            add(sends, m, sent_at(self.flow, p));
            add(takes, m, taken_at(self.flow, p));
        }
    }

    // Check 12, and the value, from one pass over the pins.
    fn balance(self) -> Result<Value, Refusal>
        ensures { result ≡ balance_of self.entry.netlist.bytes.now self.entry.flow.now }
    {
        let mut sends: [u64; Book::MODULES] = [0; Book::MODULES];
        let mut takes: [u64; Book::MODULES] = [0; Book::MODULES];
        self.tally(&mut sends, &mut takes);
        if let Some(m) = uneven_module(self.netlist, &sends, &takes) {
            return Err(Refusal::ModuleRule(m));
        }
        Ok(Value {
            sent: meter_sum(self.netlist, &sends),
            taken: meter_sum(self.netlist, &takes),
        })
    }

    // Checks 11 and 12, and the value.
    fn rules(self) -> Result<Value, Refusal>
        ensures { result ≡ ruled_of self.entry.netlist.bytes.now self.entry.flow.now }
    {
        if let Some(n) = self.broken_net() {
            return Err(Refusal::NetRule(n));
        }
        self.balance()
    }

    // Checks 11 to 13 beside a side, which is priced only where the rules pass.
    fn judge(self, sided: Sided<'_>, claim: u32) -> Result<(), Refusal>
        ensures { result ≡ judged (ruled_of self.entry.netlist.bytes.now self.entry.flow.now) (price (nets_of sided.entry.netlist.bytes.now) (side_of sided.entry.bits.now)) claim }
    {
        let value = self.rules()?;
        if !agree(value.sent, value.taken, sided.price(), claim) {
            return Err(Refusal::Values);
        }
        Ok(())
    }

    // The value of a flow: what the pins of meter modules send, less what they take, where they do not take more.
    pub fn value(self) -> usize
        requires { value_taken self.netlist.bytes.now self.flow.now ≤ value_sent self.netlist.bytes.now self.flow.now }
        ensures { value_taken self.entry.netlist.bytes.now self.entry.flow.now + result ≡ value_sent self.entry.netlist.bytes.now self.entry.flow.now }
    {
        let mut sent: u64 = 0;
        let mut taken: u64 = 0;
        for p in 0..self.netlist.pins() {
            let on = self.netlist.mark(self.netlist.pin(p)).is_meter();
            sent += if_on(on, sent_at(self.flow, p));
            taken += if_on(on, taken_at(self.flow, p));
        }
        (sent - taken) as usize
    }
}

// Checks 8, 9 and 11 to 13 of a netlist. Every lent buffer is measured before any bit of the side is looked at.
fn check_lent(netlist: Netlist<'_>, side: &[u8], flow: &[i32], claim: u32) -> Result<(), Refusal>
    ensures { result ≡ checked_sound netlist.entry.bytes.now side.now flow.now claim }
{
    let flowed = Flowed::new(netlist, flow)?;
    let sided = Sided::new(netlist, side)?;
    if !sided.is_good() {
        return Err(Refusal::Side);
    }
    flowed.judge(sided, claim)
}

// The checker, on any bytes and any numbers: checks 1 to 6, 8, 9 and 11 to 13. Nothing is written.
pub fn check(book: &[u8], side: &[u8], flow: &[i32], price: u32) -> Result<(), Refusal>
    ensures { result ≡ checked_of book.now side.now flow.now price }
{
    check_lent(Netlist::new(book)?, side, flow, price)
}
