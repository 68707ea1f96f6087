// Laws of the search: the functions do nothing, and their contracts are the laws.
ghost use Rattle.cell_choice.specs.Numbers.{LeastNumbersSuffice};

/// An element above all that numerals, decisions and a cell's arguments name can be exchanged with a
/// greater one, so that a function's cell need be tried only up to the least of these.
pub fn least_numbers()
    ensures { LeastNumbersSuffice }
{}
