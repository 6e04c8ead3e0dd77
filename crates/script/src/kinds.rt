// The first word of a line, and the rest where the line has more words.
#[derive(Clone, Copy)]
pub struct Split<'a> {
    pub word: &'a [u8],
    pub rest: Option<&'a [u8]>,
}

// What a line asks for.
#[derive(Drop)]
pub enum Command {
    // `read spdm CLASS ALGORITHM MESSAGE`: read SPDM measurement blocks, of a class and with a hash algorithm.
    ReadSpdm {
        class: Vec<u8>,
        algorithm: u64,
        message: Vec<u8>,
    },
    // `read dice MESSAGE`: read a DICE boot record.
    ReadDice {
        message: Vec<u8>,
    },
}
