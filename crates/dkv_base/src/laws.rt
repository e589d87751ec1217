// The laws of the definitions, each proved on a function of no arguments.
ghost use Rattle.dkv_base.specs.Laws.{AfterComposes, LegalComposes, AfterNothing, AfterIsSound};
ghost use Rattle.dkv_base.specs.Laws.{EntriesAreAMap, LooksUp, PutInserts, WithoutRemoves, StepsAreTold};

/// Legal commits lead from one sound state to another, and those in a row lead where their parts lead in turn.
pub fn commits_compose()
    ensures after { AfterComposes }
    ensures legal { LegalComposes }
    ensures nothing { AfterNothing }
    ensures sound { AfterIsSound }
{}

/// Entries in key order are the one list of a finite map, and their calls are the map's.
pub fn entries_are_a_map()
    ensures one_list { EntriesAreAMap }
    ensures entry_at { LooksUp }
    ensures put { PutInserts }
    ensures without { WithoutRemoves }
{}

/// After any steps of a term the situation is told by its base and its trail, and the trail is legal.
pub fn steps_are_told()
    ensures { StepsAreTold }
{}
