// A row of the walk, as its round wrote it.
use std::fmt;

#[derive(Clone, Copy)]
pub struct Round {
    price: u32,
    area: u32,
    taken: Option<u16>,
    // A number and no enum: it is printed as the walk wrote it, and a case for each would only be turned back.
    way: u16,
}

// The bytes that a row needs.
pub const SIZE: usize = 12;

impl Round {
    // The row in so many bytes; 65535 stands for no module.
    pub fn read(row: &[u8]) -> Option<Round> {
        let [p0, p1, p2, p3, a0, a1, a2, a3, m0, m1, w0, w1] = *row else {
            return None;
        };
        Some(Round {
            price: u32::from_le_bytes([p0, p1, p2, p3]),
            area: u32::from_le_bytes([a0, a1, a2, a3]),
            taken: Some(u16::from_le_bytes([m0, m1])).filter(|m| *m != u16::MAX),
            way: u16::from_le_bytes([w0, w1]),
        })
    }
}

impl fmt::Display for Round {
    fn fmt<W: fmt::Write>(&self, f: &mut fmt::Formatter<W>) -> fmt::Result {
        write!(f, "price {} area {} module ", self.price, self.area)?;
        match self.taken {
            Some(m) => write!(f, "{m}")?,
            None => write!(f, "none")?,
        }
        write!(f, " way {}", self.way)
    }
}
