// What a rule takes of its parents, before anything of it is measured or built.
use crate::left::Left;
use term_unifiers::Solution;

/// A most general unifier of so many parents, renamed apart, and what is left of them, which is lent.
#[derive(Drop)]
pub struct Premises<'a> {
    pub unifier: Solution,
    pub many: u64,
    pub left: Vec<Left<'a>>,
}

/// A literal, path or side isn't there or isn't taken; what has to be equal isn't; or that is what the rule takes.
#[derive(Drop)]
pub enum Applied<'a> {
    Unfit,
    Apart,
    To(Premises<'a>),
}
