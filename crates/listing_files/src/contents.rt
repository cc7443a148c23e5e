// What is read of the three files of a listing: what the header and the lines are made of.
use names::MAX_ELEMENTS;

#[derive(Clone, Copy)]
pub struct Listed {
    pub selected: usize,
    pub kept: usize,
    pub rows: usize,
    // where the elements' names stand in the schema
    pub names: [usize; MAX_ELEMENTS],
}
