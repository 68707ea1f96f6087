// The commands.
use crate::by_name::ByName;
use fol_core::{Name, Names};

/// What a parameter is assigned: a symbol, or a number, which may have `-` before it.
#[derive(Drop)]
pub enum Value {
    Symbol(Name),
    Number(bool, u64),
}

/// A command: a flag that is set or cleared; a parameter with its value; the precedence and the type of operators; names in
/// their order; a list that is opened; items for the program of a name, and the end of these; an interpretation.
#[derive(Drop)]
pub enum Command {
    Flag(bool, Name),
    Assign(Name, Value),
    Op(u32, Name, Names),
    FunctionOrder(Names),
    PredicateOrder(Names),
    Formulas(Name),
    List(Name),
    If(Name),
    EndIf,
    Interpretation(ByName),
}
