//! Laws of the definitions that the other clauses cite, for the proofs above this crate. Each
//! function does nothing.

ghost use Rattle.cic_rules.specs.Laws.{NamesMayGrow, AxiomsAscend, EntriesUseBefore, AxiomsAreReached, RowsAreSorted, FuelOfReduction, FuelOfConversion, FuelOfInference, FuelOfSorts, FuelOfChecks, FuelOfDeclarations, ScopeOfReduction, ScopeOfInference, ScopeOfSorts, ScopeOfChecks, ScopeOfRows, ScopeOfInductives, CheckedMayEnter, JudgedMayEnter, DeclareKeepsEnvironments, FoundPlacesAreThere, ScopeOfGlobals, ScopeOfContexts, ScopeOfTerms};

/// What is derived over some names is derived over every list that has them.
pub fn law_of_names()
    ensures { NamesMayGrow }
{}

/// The axioms of an entry are listed by their places. They are the assumptions and admitted
/// theorems that it reaches.
pub fn law_of_axioms()
    ensures ascend { AxiomsAscend }
    ensures before { EntriesUseBefore }
    ensures reached { AxiomsAreReached }
{}

/// The test of an inductive type finds the sort of a constructor's type as inference does, with
/// the same names and for the same units; the sorts of its arguments cost nothing more.
pub fn law_of_rows()
    ensures { RowsAreSorted }
{}

/// Under a lower limit a judgement answers the same for as many units, or it ends at the limit of
/// units, and under the higher one it spends more than the lower. One that ends at the limit of
/// units has none left.
pub fn law_of_fuel()
    ensures reduction { FuelOfReduction }
    ensures conversion { FuelOfConversion }
    ensures inference { FuelOfInference }
    ensures sorts { FuelOfSorts }
    ensures checks { FuelOfChecks }
    ensures declarations { FuelOfDeclarations }
{}

/// What the test of an inductive type gives may be entered, with the entries that are made of it.
pub fn law_of_families()
    ensures { CheckedMayEnter }
{}

/// What was judged may be entered, and declarations keep what is true of an environment.
pub fn law_of_declarations()
    ensures entries { JudgedMayEnter }
    ensures environments { DeclareKeepsEnvironments }
{}

/// What stands in scope: reduction keeps it, inference tells it, and a name that is found is that
/// of a global.
pub fn law_of_scopes()
    ensures reduction { ScopeOfReduction }
    ensures inference { ScopeOfInference }
    ensures sorts { ScopeOfSorts }
    ensures checks { ScopeOfChecks }
    ensures rows { ScopeOfRows }
    ensures inductives { ScopeOfInductives }
    ensures found { FoundPlacesAreThere }
    ensures globals { ScopeOfGlobals }
    ensures contexts { ScopeOfContexts }
    ensures terms { ScopeOfTerms }
{}
