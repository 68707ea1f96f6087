// Numbers of terms, and terms by the numbers of their arguments.
use fol_core::Sym;

/// The number of a term in a bank.
#[derive(Clone, Copy, Default, PartialEq, Eq, Hash)]
pub struct TermId(pub u64);

/// A term by its head and the numbers of its arguments.
#[derive(Clone, Copy)]
pub enum Node<'a> {
    Var(u64),
    Elem(u32),
    App(Sym, &'a [TermId]),
}
