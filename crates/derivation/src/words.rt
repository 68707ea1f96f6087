// The words of a line: its first one and those behind.
use substitutions::Subst;

/// A satellite of a nucleus: the place in the nucleus, the clause's number, and its place there.
#[derive(Clone, Copy)]
pub struct Satellite {
    pub place: u64,
    pub clause: u64,
    pub literal: u64,
}

/// A paramodulation: the clause, literal and side of the equation, and the clause, literal and path of the term.
#[derive(Drop)]
pub struct Paramodulation {
    pub from: u64,
    pub equation: u64,
    pub side: u64,
    pub into: u64,
    pub literal: u64,
    pub path: Vec<u64>,
}

/// One rewriting: the rule's number, and the literal and path of the term.
#[derive(Drop)]
pub struct Rewrite {
    pub rule: u64,
    pub literal: u64,
    pub path: Vec<u64>,
}

/// The first word of a line, with the numbers of the lines that it takes.
#[derive(Drop)]
pub enum First {
    Assumption,
    Goal,
    Clausify(u64),
    Deny(u64),
    Copy(u64),
    BackRewrite(u64),
    BackUnitDel(u64),
    Resolve(u64, Satellite),
    Hyper(u64, Vec<Satellite>),
    Ur(u64, Vec<Satellite>),
    Factor(u64, u64, u64),
    Para(Paramodulation),
    XxRes(u64, u64),
    /// The clause of a line with these terms for its variables; no text has it yet.
    Instantiate(u64, Subst),
}

/// A word behind the first: literals are places, `UnitDel` has the number of the unit behind.
#[derive(Drop)]
pub enum Later {
    Rewrite(Rewrite),
    Flip(u64),
    Merge(u64),
    Xx(u64),
    UnitDel(u64, u64),
}
