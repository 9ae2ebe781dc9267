// Worked cases, run as tests: sheets that are taken or refused, entries at the limits, and work lists.
#![tactic(auto)]

#[cfg(test)]
mod entries;
#[cfg(test)]
mod sheets;
#[cfg(test)]
mod work_lists;
#[cfg(test)]
mod written;
