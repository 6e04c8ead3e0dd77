// A part of the message, with the place of its first byte: it goes from there to the end of what is lent here, the message cut off behind the part.
#[derive(Clone, Copy)]
pub struct Part<'a> {
    pub(crate) message: &'a [u8],
    pub(crate) at: usize,
}

// What was read, and how many bytes it has.
#[derive(Clone, Copy)]
pub struct Read<T> {
    pub value: T,
    pub size: usize,
}

// How many came by so far, and the one that is wanted, once it came.
#[derive(Clone, Copy)]
pub struct Pick<T> {
    pub seen: usize,
    pub kept: Option<T>,
}
