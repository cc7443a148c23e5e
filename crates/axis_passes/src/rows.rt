// A table that is selected on.
use cells::columns::Columns;

// The columns of its rows, and the text that their starts and lengths speak of. The texts are here for conditions that compare them: none does.
#[derive(Clone, Copy)]
pub struct Rows<'a> {
    pub columns: Columns<'a>,
    pub text: &'a [u8],
}
