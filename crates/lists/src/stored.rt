// Where an element stands, and how many elements there are.
#[derive(Clone, Copy)]
pub struct Stored {
    pub place: usize,
    pub count: usize,
}
