// The columns of marks that judging a condition needs, a byte for each row. What `steps` and `next` hold before and after a call has no meaning.
#[derive(Drop)]
pub struct Scratch<'a> {
    // the rows where an alternative holds, gathered one alternative after the other
    pub held: &'a mut [u8],
    // the rows from which the steps of an alternative lead to some row
    pub steps: &'a mut [u8],
    pub next: &'a mut [u8],
}
