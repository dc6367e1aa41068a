// What is printed of an answer.
ghost use Rattle.std.specs.Prelude.{◌≡◌, Some};
ghost use Rattle.trial.specs.Said.{refused_text, answer_text, checked_text, tails_text, unwritten_text, on, off, modules_text};

use book::Refusal;
use std::fmt;

// A refusal, its number and its place.
#[derive(Clone, Copy)]
pub struct Refused(pub Refusal);

impl fmt::Display for Refused {
    ghost output = { λ r. Some (refused_text r.0) };

    fn fmt<W: fmt::Write>(&self, f: &mut fmt::Formatter<W>) -> fmt::Result {
        write!(f, "refused {} at {}", self.0.number(), self.0.place())
    }
}

// An answer of a call, or why it was refused.
#[derive(Clone, Copy)]
pub struct Answer<T>(pub Result<T, Refusal>);

impl<T: fmt::Display> fmt::Display for Answer<T> {
    ghost output = { λ a. answer_text T.output a.0 };

    fn fmt<W: fmt::Write>(&self, f: &mut fmt::Formatter<W>) -> fmt::Result {
        match &self.0 {
            Ok(x) => write!(f, "{x}"),
            Err(why) => write!(f, "{}", Refused(*why)),
        }
    }
}

// What the checker says.
#[derive(Clone, Copy)]
pub struct Checked(pub Result<(), Refusal>);

impl fmt::Display for Checked {
    ghost output = { λ c. Some (checked_text c.0) };

    fn fmt<W: fmt::Write>(&self, f: &mut fmt::Formatter<W>) -> fmt::Result {
        match self.0 {
            Ok(()) => write!(f, "accepted"),
            Err(why) => write!(f, "{}", Refused(why)),
        }
    }
}

// Whether what lies behind the written part of lent buffers stayed marked.
#[derive(Clone, Copy)]
pub struct Tails(pub bool);

impl fmt::Display for Tails {
    ghost output = { λ t. Some (tails_text t.0) };

    fn fmt<W: fmt::Write>(&self, f: &mut fmt::Formatter<W>) -> fmt::Result {
        if self.0 {
            write!(f, "tails kept")
        } else {
            write!(f, "a tail lost")
        }
    }
}

// A refusal of a call on lent buffers, and whether they stayed marked.
#[derive(Clone, Copy)]
pub struct Unwritten(pub Refusal, pub bool);

impl fmt::Display for Unwritten {
    ghost output = { λ u. Some (unwritten_text u.0 u.1) };

    fn fmt<W: fmt::Write>(&self, f: &mut fmt::Formatter<W>) -> fmt::Result {
        let written = if self.1 { "nothing" } else { "something" };
        write!(f, "{} {written} written", Refused(self.0))
    }
}

// The modules on a side of so many modules, its spare bits too, or those it lacks; what lies outside the buffer is left out.
#[derive(Clone, Copy)]
pub enum Modules<'a> {
    On(&'a [u8], usize),
    AllBut(&'a [u8], usize),
}

fn is_on(side: &[u8], m: usize) -> bool
    ensures { result ≡ on side.now m }
{
    m / 8 < side.len() && side::inside(side, m)
}

fn is_off(side: &[u8], m: usize) -> bool
    ensures { result ≡ off side.now m }
{
    m / 8 < side.len() && !side::inside(side, m)
}

impl fmt::Display for Modules<'_> {
    ghost output = { λ x. Some (modules_text x) };

    fn fmt<W: fmt::Write>(&self, f: &mut fmt::Formatter<W>) -> fmt::Result {
        match *self {
            Modules::On(side, count) => {
                for m in 0..count.div_ceil(8).saturating_mul(8) {
                    if is_on(side, m) {
                        write!(f, " {m}")?;
                    }
                }
            }
            Modules::AllBut(side, count) => {
                write!(f, " all but")?;
                for m in 0..count {
                    if is_off(side, m) {
                        write!(f, " {m}")?;
                    }
                }
            }
        }
        Ok(())
    }
}
