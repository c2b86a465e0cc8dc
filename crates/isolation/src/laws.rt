// The theorems about accounts and their stamps. Each function does nothing: its contract is a theorem, so that the check asks for
// its proof.
ghost use Rattle.isolation.specs.Theorems.{FittingIsConsistent, NewestFitIsNewest, SomeVersionFits, ConflictIsClash};
ghost use Rattle.isolation.specs.Theorems.{StepsKeepLaw, LawfulIsIsolated, OneSolution, RulesHaveVectors, VectorsDecide};

// A version fits all cards read so far exactly when reading it keeps the snapshot consistent.
pub fn fitting_is_consistent()
    ensures { FittingIsConsistent }
{}

// So the newest version that fits keeps the snapshot consistent, and every newer one breaks it.
pub fn newest_fit_is_newest()
    ensures { NewestFitIsNewest }
{}

// Of every listed card some version fits, whatever the transaction has read.
pub fn some_version_fits()
    ensures { SomeVersionFits }
{}

// Some drafted card has a newer version than the one read exactly when granting the commit would let two independent committed
// transactions write one card.
pub fn conflict_is_clash()
    ensures { ConflictIsClash }
{}

// Each step of the rules keeps the account lawful.
pub fn steps_keep_law()
    ensures { StepsKeepLaw }
{}

// In a lawful account every snapshot is consistent and of committed versions, and nothing clashes.
pub fn lawful_is_isolated()
    ensures { LawfulIsIsolated }
{}

// A lawful account's stamps are its dependence vectors: they satisfy the equations, and nothing else does.
pub fn one_solution()
    ensures { OneSolution }
{}

// On every account that the rules make, the equations have one solution.
pub fn rules_have_vectors()
    ensures { RulesHaveVectors }
{}

// With it as stamps, the tests of fitting and of newer versions decide what the law asks, on every account that the rules make.
pub fn vectors_decide()
    ensures { VectorsDecide }
{}
