// What stands at a node of a term.

/// A variable or an element by its number, or a symbol by its number with the number of its arguments.
#[derive(Clone, Copy)]
pub enum Head {
    Variable(u64),
    Element(u32),
    Symbol(u64, usize),
}
