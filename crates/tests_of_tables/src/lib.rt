//! Tests of tables that are kept while signed updates arrive: what hides a row is counted in whatever order it arrives,
//! and no chain of rows is walked to tell whether its last row is visible. Then of what is below a command line: which
//! history confirms, transactions that are printed, and each kind of line of a world's report.
#![tactic(auto)]

#[cfg(test)]
mod causes;
#[cfg(test)]
mod chains;
#[cfg(test)]
mod confirmed;
#[cfg(test)]
mod kept;
#[cfg(test)]
mod reports;
#[cfg(test)]
mod transactions;
#[cfg(test)]
mod updates;
