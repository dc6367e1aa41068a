// The calls, and what is printed of their answers.
use book::Book;
use std::fmt;
use trial::{Answer, Checked};

// What the reader says of a good book.
#[derive(Clone, Copy)]
pub struct Counts(Book);

impl fmt::Display for Counts {
    fn fmt<W: fmt::Write>(&self, f: &mut fmt::Formatter<W>) -> fmt::Result {
        let Book {
            modules,
            nets,
            pins,
        } = self.0;
        write!(f, "read {modules} modules {nets} nets {pins} pins")
    }
}

#[derive(Clone, Copy)]
pub struct Price(usize);

impl fmt::Display for Price {
    fn fmt<W: fmt::Write>(&self, f: &mut fmt::Formatter<W>) -> fmt::Result {
        write!(f, "price {}", self.0)
    }
}

#[derive(Clone, Copy)]
pub struct Change(i64);

impl fmt::Display for Change {
    fn fmt<W: fmt::Write>(&self, f: &mut fmt::Formatter<W>) -> fmt::Result {
        write!(f, "change {}", self.0)
    }
}

pub fn read(book: &[u8]) -> Answer<Counts> {
    Answer(book::read(book).map(Counts))
}

pub fn price_of(book: &[u8], side: &[u8]) -> Answer<Price> {
    Answer(side::price(book, side).map(Price))
}

pub fn change_of(book: &[u8], side: &[u8], m: u32) -> Answer<Change> {
    Answer(side::change(book, side, m).map(Change))
}

pub fn check(book: &[u8], side: &[u8], flow: &[i32], price: u32) -> Checked {
    Checked(audit::check(book, side, flow, price))
}
