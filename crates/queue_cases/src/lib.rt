// One table of calls, run on every event queue with the same answers.
#![tactic(auto)]

#[cfg(test)]
mod tests;
