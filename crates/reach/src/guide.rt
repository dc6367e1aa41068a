// What a look finds.

// The distance of a module that was not reached.
pub const FAR: u16 = 65535;

// How far each module is; at what distance each net was gone through, whole or in part, and 0 if it was not; and a number for each module that is its user's own.
#[derive(Drop)]
pub struct Guide {
    pub far: [u16; crate::MODULES],
    pub whole: [u16; crate::NETS],
    pub part: [u16; crate::NETS],
    pub own: [u16; crate::MODULES],
}

impl Guide {
    // Before the first look. All zeros, so that it is made where it stands and not copied.
    pub const NEW: Self = Guide {
        far: [0; crate::MODULES],
        whole: [0; crate::NETS],
        part: [0; crate::NETS],
        own: [0; crate::MODULES],
    };

    // Forgets what was found.
    pub(crate) fn clear(&mut self) {
        self.far.fill(FAR);
        self.whole.fill(0);
        self.part.fill(0);
        self.own.fill(0);
    }
}
