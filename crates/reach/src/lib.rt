// How far each module is from the makers, in steps on a flow as it is, and by which nets: a guide alone. Its numbers are promised to stay in what is lent and nothing more, so that a wrong one costs time and nothing else.
#![tactic(auto)]

mod card;
mod guide;
mod levels;
mod rows;
mod sets;

pub use card::{Card, Flow};
pub use guide::{FAR, Guide};
pub use rows::Rows;

// How many modules and nets the rows and a guide have room for.
pub const MODULES: usize = 256;

pub const NETS: usize = 512;

// The guide on the flow as it is now; can a meter reach a maker?
pub fn look(flow: Flow, rows: &mut Rows, guide: &mut Guide) -> bool {
    rows.redo(flow);
    levels::levels(flow, &*rows, &mut *guide)
}
