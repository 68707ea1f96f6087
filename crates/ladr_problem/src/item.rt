// What stands in a list.
use fol_core::{Names, Raw};

/// An item of a list: the end of the list, a term, or names that are to differ.
#[derive(Drop)]
pub enum ListItem {
    End,
    Term(Raw),
    Names(Names),
}
