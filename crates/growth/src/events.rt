// What time and an event do to the tables.
ghost use Rattle.std.specs.Prelude.{◌≡◌, ℕ, ◌+◌, ◌-◌, ◌*◌, ◌^◌, ◌<◌, ◌≤◌, false, Some, slice_index, slice_index_or};
ghost use Rattle.network.specs.Networks.{net_of};
ghost use Rattle.theory.specs.Due.{earliest};
ghost use Rattle.theory.specs.Growth.{ended, step, grow};
ghost use Rattle.growth.specs.Events.{growing, Passed};
ghost use Rattle.growth.specs.NodeTables.{depth_at};
ghost use Rattle.growth.specs.Records.{vacant};
ghost use Rattle.growth.specs.Refreshed.{dues_shown};
ghost use Rattle.growth.specs.Shown.{ShowsAll, Shown};

use crate::reads::edge_at;
use crate::{Event, Tables};
use network::Network;

impl Tables {
    // Time moves on, with n nodes.
    fn pass(&mut self, n: usize, time: u64)
        requires few { n ≤ 256 }
        requires later { self.old.time ≤ time }
        requires moats { (c : ℕ) → (slice_index_or self.old.family.clusters c vacant).moat + (time - self.old.time) < 2 ^ 64 }
        requires depths { (v : ℕ) → v < n → depth_at self.old.nodes.list v + (time - self.old.time) < 2 ^ 64 }
        requires total { self.old.total + (time - self.old.time) * growing self.old.family.clusters < 2 ^ 64 }
        requires steps { self.old.steps + 1 < 2 ^ 64 }
        ensures { Passed n time self.old self.new }
    {
        let by = time - self.time;
        self.total += by * self.family.growing() as u64;
        self.nodes.deepen(&self.family.clusters, n, by);
        self.family.pass(by);
        self.time = time;
        self.steps += 1;
    }

    // What is due under a number happens, and time moves on to when it is due. The number is the queue's, whose table contracts speak of.
    pub(crate) fn happen(&mut self, network: &Network, time: u64, number: usize)
        requires shown { Shown (net_of network.now) self.old }
        requires going { ended (grow (net_of network.now) self.old.steps) ≡ false }
        requires first { earliest (dues_shown (net_of network.now) self.old) ≡ Some (time, number) }
        ensures { ShowsAll (net_of network.now) self.new (step (net_of network.now) (grow (net_of network.now) self.old.steps)) }
    {
        self.pass(network.prizes().len(), time);
        match Event::from(number) {
            Event::Deactivated { cluster } => self.family.deactivate(cluster),
            Event::Merged { edge } => {
                let ends = edge_at(network, edge);
                let first = self.nodes.list[ends.first].cluster;
                let second = self.nodes.list[ends.second].cluster;
                let new = self.family.merge(first, second);
                self.nodes.regroup(first, second, new);
                self.chosen.marks[edge] = 1;
            }
        }
    }
}
