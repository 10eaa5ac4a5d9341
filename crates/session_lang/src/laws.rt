//! Laws of observations, simulation and names, for every session, comparison and name. Each
//! function does nothing, and its contract is the law.
ghost use Rattle.session_lang.specs.Laws.{BelowIsReflexive, BelowIsTransitive, MonotoneSessionsGrow, CallingFormsKeepOrder, ComparisonsGoWithBelow, MatchedSessionsSimulate, FollowedSessionsSimulate, HeapsCompose, SimulationsCompose, RoundTripSimulates, DifferentImportsHaveDifferentNames, DifferentExportsHaveDifferentNames, NamesArePlain, FixedNamesAreKept};

/// Each observation is below itself.
pub fn below_is_reflexive()
    ensures { BelowIsReflexive }
{}

/// What is below something that is below a third is below the third.
pub fn below_is_transitive()
    ensures { BelowIsTransitive }
{}

/// Where each observation is below the next, it is below all later ones.
pub fn monotone_sessions_grow()
    ensures { MonotoneSessionsGrow }
{}

/// The comparisons of both calling forms keep prefixes, and take a trap as its import call.
pub fn calling_forms_keep_order()
    ensures { CallingFormsKeepOrder }
{}

/// Under a comparison that keeps the order, what is below stays below where less is seen of the
/// one session or more of the other.
pub fn comparisons_go_with_below()
    ensures { ComparisonsGoWithBelow }
{}

/// Where each budget of the source has one of the target that shows the same, both halves of the
/// simulation hold, and the bound.
pub fn matched_sessions_simulate()
    ensures { MatchedSessionsSimulate }
{}

/// Where each budget of the target lies between two of the source, both halves of the simulation
/// hold, and the bound.
pub fn followed_sessions_simulate()
    ensures { FollowedSessionsSimulate }
{}

/// Heaps that agree over a middle one agree.
pub fn heaps_compose()
    ensures { HeapsCompose }
{}

/// Two simulations, one after the other, are one.
pub fn simulations_compose()
    ensures { SimulationsCompose }
{}

/// What is translated to WebAssembly and back simulates what it came from.
pub fn round_trip_simulates()
    ensures { RoundTripSimulates }
{}

/// Different modules and fields give different import names.
pub fn different_imports_have_different_names()
    ensures { DifferentImportsHaveDifferentNames }
{}

/// Different names give different export names.
pub fn different_exports_have_different_names()
    ensures { DifferentExportsHaveDifferentNames }
{}

/// Import names and export names are plain names.
pub fn names_are_plain()
    ensures { NamesArePlain }
{}

/// No export is renamed to `$init` or `$hi`, and `$trap` and `$high` are the names of their own
/// imports alone.
pub fn fixed_names_are_kept()
    ensures { FixedNamesAreKept }
{}
