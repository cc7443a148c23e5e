// What the parser of a declaration's content carries from part to part. Its methods stand in `contents`, `groups`, `used_names` and `indicators`.

// `uses` are lent cells for the places of names that models use: `count` are noted, and those of the model that is read from `start` on.
// `predecessors` has for each position of that model those that it may come after.
#[derive(Drop)]
pub struct Parser<'a> {
    pub text: &'a [u8],
    pub uses: &'a mut [usize],
    pub count: usize,
    pub start: usize,
    pub predecessors: &'a mut [u64],
}
