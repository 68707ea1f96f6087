// Laws of bindings: the functions do nothing, and their contracts are the laws.
ghost use Rattle.unify.specs.Laws.{BindingsAreSolved, ResolvedIsMostGeneral, UnitedIsMostGeneral, ApartHasNoUnifier, NothingIsBound, OldestAreBindings, BindingsStay};
ghost use Rattle.unify.specs.Rooms.{BanksHaveRoom, ContextsStay};

/// What bindings amount to is a most general unifier of all that was made the same.
pub fn resolved_is_most_general()
    ensures solved { BindingsAreSolved }
    ensures general { ResolvedIsMostGeneral }
    ensures united { UnitedIsMostGeneral }
    ensures apart { ApartHasNoUnifier }
{}

/// There are no bindings at first, the oldest ones stay bindings, and they stay so in a bank that
/// grows.
pub fn bindings_stay()
    ensures nothing { NothingIsBound }
    ensures oldest { OldestAreBindings }
    ensures grown { BindingsStay }
{}

/// There is room for terms where there is room for all terms of the bank in each context that occurs,
/// and no others come with what is bound then.
pub fn banks_have_room()
    ensures room { BanksHaveRoom }
    ensures contexts { ContextsStay }
{}
