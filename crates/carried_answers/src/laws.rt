// Laws of clauses with answers that words are followed on: the functions do nothing, and their contracts are the laws.
ghost use Rattle.carried_answers.specs.Leading.{AfterAlike, FirstLeads, FirstStops, FitsBefore, LeadsBefore, WordLeads, WordStops};

/// What words lead to doesn't depend on the numbers of variables; and a line is inferred just where its words, one by one, lead to
/// it from what its rule makes, under whatever numbers.
pub fn answers_are_led()
    ensures alike { AfterAlike }
    ensures first { FirstLeads }
    ensures none { FirstStops }
    ensures word { WordLeads }
    ensures stops { WordStops }
{}

/// More literals behind a clause stay as they are where words take places of the clause.
pub fn words_stay_before()
    ensures fits { FitsBefore }
    ensures leads { LeadsBefore }
{}
