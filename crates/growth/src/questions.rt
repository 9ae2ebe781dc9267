// Questions about a growing network, also between two steps.
ghost use Rattle.std.specs.Prelude.{◌≡◌, ◌-◌, ◌≤◌};
ghost use Rattle.network.specs.Networks.{net_of};
ghost use Rattle.theory.specs.Growth.{active_count, ended, total, lower_bound};
ghost use Rattle.theory.specs.Laws.{EveryTreeAtLeast};
ghost use Rattle.theory.specs.Prune.{chosen};
ghost use Rattle.growth.specs.Asked.{cluster_answer};
ghost use Rattle.growth.specs.Grown.{network_of, steps_of, state_of};

use crate::{Growth, Standing, Tables};
use network::Network;
use queue::EventQueue;
use refusal::Refusal;

impl Tables {
    // The total of all moats less the time.
    fn bound(&self) -> u64
        requires { self.now.time ≤ self.now.total }
        ensures { result ≡ self.now.total - self.now.time }
    {
        self.total - self.time
    }
}

impl<Q: EventQueue> Growth<Q> {
    // The network as it was entered.
    pub fn network(&self) -> &Network
        ensures { net_of result.now ≡ network_of self.now }
    {
        &self.network
    }

    // How long growth has run, in half units.
    pub fn time(&self) -> u64
        ensures { result ≡ (state_of self.now).time }
    {
        self.tables.time
    }

    // How many maximal clusters are active.
    pub fn active(&self) -> usize
        ensures { result ≡ active_count (state_of self.now) }
    {
        self.tables.family.growing()
    }

    // Whether growth has ended: fewer than two maximal clusters are active.
    pub fn has_ended(&self) -> bool
        ensures { result ≡ ended (state_of self.now) }
    {
        self.active() < 2
    }

    // How many steps were accepted.
    pub fn steps(&self) -> usize
        ensures { result ≡ (state_of self.now).steps }
    {
        self.tables.steps
    }

    // The total of all moats, in half units.
    pub fn total(&self) -> u64
        ensures { result ≡ total (state_of self.now) }
    {
        self.tables.total
    }

    // What no tree's cost with lost prizes, doubled, is below.
    pub fn lower_bound(&self) -> u64
        ensures answer { result ≡ lower_bound (state_of self.now) }
        ensures law { EveryTreeAtLeast (network_of self.now) (steps_of self.now) }
    {
        self.tables.bound()
    }

    // A cluster's parts, state and moat; refused if it is not formed.
    pub fn cluster(&self, c: usize) -> Result<Standing, Refusal>
        ensures { result ≡ cluster_answer (state_of self.now) c }
    {
        if c >= self.tables.family.formed {
            return Err(Refusal::ClusterNotFormed);
        }
        let found = self.tables.family.clusters[c];
        Ok(Standing {
            parts: found.parts,
            phase: found.phase,
            moat: found.moat,
        })
    }

    // Whether an edge is chosen; one that is not entered is not.
    pub fn is_chosen(&self, s: usize) -> bool
        ensures { result ≡ chosen (state_of self.now).slots s }
    {
        self.tables
            .chosen
            .marks
            .get(s)
            .is_some_and(|mark| *mark == 1)
    }
}
