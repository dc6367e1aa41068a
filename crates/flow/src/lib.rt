// The flow engine: from any fair flow of a card to a greatest one, with the near side and the far side. It works on slices of numbers that are lent to it, and knows no book.
#![tactic(auto)]

pub mod board;
pub mod engine;
pub mod kind;
pub mod num;
pub mod push;
pub mod search;
pub mod tables;
