// Worked networks and full-size ones, grown on every event queue; and trees given by marks, pruned.
#![tactic(auto)]

#[cfg(test)]
mod chain;
#[cfg(test)]
mod full_size;
#[cfg(test)]
mod outcomes;
#[cfg(test)]
mod prunings;
#[cfg(test)]
mod refusals;
#[cfg(test)]
mod reports;
#[cfg(test)]
mod rows;
#[cfg(test)]
mod stages;
#[cfg(test)]
mod stepwise;
#[cfg(test)]
mod ties;
#[cfg(test)]
mod whole_runs;
#[cfg(test)]
mod worked;
