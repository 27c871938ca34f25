//! What any list of calls keeps, as a call whose contract is the law.

ghost use Rattle.freemap.specs.History.{HistoriesKeepOwners};

/// No two live ranges ever overlap.
///
/// A history is a list of calls, each of which hands out blocks that were free or takes a live
/// range back; the contracts of the map's calls say that they are such. Where the live ranges were
/// pairwise disjoint and held exactly the blocks in use, so it is after any history, and after each
/// part of one. It does nothing when it runs.
pub fn histories()
    ensures { HistoriesKeepOwners }
{}
