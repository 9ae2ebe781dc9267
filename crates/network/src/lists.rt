// Entering a list of nodes and edges.
ghost use Rattle.std.specs.Prelude.{◌≡◌, map};
ghost use Rattle.network.specs.Lists.{given, enter_answer, entered_one, entered, taken_count};
ghost use Rattle.network.specs.Networks.{net_of};

use super::{Entry, Network};
use refusal::Refusal;

impl Network {
    // Enters what the entry says: the new number, or why not.
    pub fn enter(&mut self, entry: &Entry) -> Result<usize, Refusal>
        ensures answer { result ≡ enter_answer (net_of self.old) (given entry.now) }
        ensures after { net_of self.new ≡ entered_one (net_of self.old) (given entry.now) }
    {
        match *entry {
            Entry::Node { prize } => self.add_node(prize),
            Entry::Edge {
                first,
                second,
                cost,
                code,
            } => self.add_edge(first, second, cost, code),
        }
    }

    // Enters each entry in turn; a refused one changes nothing. Answers how many were taken.
    pub fn enter_all(&mut self, entries: &[Entry]) -> usize
        ensures answer { result ≡ taken_count (map given entries.now) (net_of self.old) }
        ensures after { net_of self.new ≡ entered (map given entries.now) (net_of self.old) }
    {
        let mut taken = 0;
        for entry in entries {
            let is_taken = self.enter(entry).is_ok();
            taken += is_taken as usize;
        }
        taken
    }
}
