//! What a table of rows means: its sheets and its least solution. The functions only carry theorems.

#![tactic(auto)]

ghost use Rattle.theory.specs.Determined.{Determines};
ghost use Rattle.theory.specs.Laws.{OneSheet, LeastSolution};
ghost use Rattle.theory.specs.Potential.{PotentialRanks, LeadsBound, KeyOrders, EdgesCover};

/// Each horizon has exactly one sheet, where a rank falls along every read.
pub fn one_sheet<V>()
    ensures { OneSheet V }
{}

/// The least solution is what the sheets of all horizons have in values.
pub fn least_solution<V>()
    ensures { LeastSolution V }
{}

/// A row reads only along its edges.
pub fn edges_cover()
    ensures { EdgesCover }
{}

/// Heights and stages rank a table at every horizon.
pub fn ranks()
    ensures { PotentialRanks }
{}

/// From a tick below the horizon, no read passes the horizon by more than the lead of the row that is read.
pub fn leads_bound()
    ensures { LeadsBound }
{}

/// A loop can make the rows in the order of height and lead.
pub fn key_orders()
    ensures { KeyOrders }
{}

/// Each horizon has exactly one sheet, and the least solution has exactly the values of the sheets.
pub fn determines<V>()
    ensures { Determines V }
{}
