// What the programs of the desk's table share: books made from lists, what is printed of an answer, and whether lent places stay marked.
#![tactic(auto)]

mod card;
mod lent;
mod said;
#[cfg(test)]
mod tests;

pub use book::mark::Mark;
pub use card::{
    BRIDGE, Card, Draft, Edited, FAN, FREE, MAKER, METER, Module, Net, ONE, Put, WITHOUT_NETS,
};
pub use lent::{BYTE, kept};
pub use said::{Answer, Checked, Modules, Refused, Tails, Unwritten};
