// Both prunings of a growing network.
ghost use Rattle.std.specs.Prelude.{◌≡◌};
ghost use Rattle.network.specs.Entries.{answer_of};
ghost use Rattle.theory.specs.Laws.{Laws};
ghost use Rattle.theory.specs.Prune.{plan};
ghost use Rattle.theory.specs.Strong.{strong_plan};
ghost use Rattle.growth.specs.Grown.{network_of, steps_of, state_of};
ghost use Rattle.growth.specs.Plans.{no_plan, plan_answer, nodes_written, edges_written};

use crate::{Growth, Snapshot};
use pruning::{Answer, prune_tree, strong_prune_tree};
use queue::EventQueue;
use refusal::Refusal;

impl<Q: EventQueue> Growth<Q> {
    // Refused without a node, and while two maximal clusters are active.
    fn check_plan(&self) -> Result<(), Refusal>
        ensures { result ≡ answer_of (no_plan (network_of self.now) (state_of self.now)) tt }
    {
        let empty = self.network.prizes().is_empty();
        if empty {
            return Err(Refusal::NoNode);
        }
        if !self.has_ended() {
            return Err(Refusal::StillGrowing);
        }
        Ok(())
    }

    // The plan: what pruning leaves of the grown tree. Writes 1 or 0 for each node and each edge to the front of the two lists, and answers for it.
    // Refused without a node, while two maximal clusters are active, or if a list is shorter than the nodes or the edges; nothing is written then.
    pub fn prune(&self, nodes_out: &mut [u8], edges_out: &mut [u8]) -> Result<Answer, Refusal>
        ensures answer { result ≡ plan_answer (network_of self.now) (state_of self.now) (plan (network_of self.now) (state_of self.now)) nodes_out.old edges_out.old }
        ensures nodes { nodes_out.new ≡ nodes_written (network_of self.now) (state_of self.now) (plan (network_of self.now) (state_of self.now)) nodes_out.old edges_out.old }
        ensures edges { edges_out.new ≡ edges_written (network_of self.now) (state_of self.now) (plan (network_of self.now) (state_of self.now)) nodes_out.old edges_out.old }
        ensures laws { Laws (network_of self.now) (steps_of self.now) }
    {
        self.check_plan()?;
        let grown = Snapshot {
            network: &self.network,
            tables: &self.tables,
        };
        let shapes = self.tables.family.shapes();
        let nodes = grown.grown_nodes();
        prune_tree(
            &self.network,
            &shapes[0..self.tables.family.formed],
            &self.tables.chosen.marks,
            &nodes,
            nodes_out,
            edges_out,
        )
    }

    // The strong plan: what hangs from the node of greatest net worth in the grown tree. Writes, answers and refuses as `prune` does.
    pub fn strong_prune(
        &self,
        nodes_out: &mut [u8],
        edges_out: &mut [u8],
    ) -> Result<Answer, Refusal>
        ensures answer { result ≡ plan_answer (network_of self.now) (state_of self.now) (strong_plan (network_of self.now) (state_of self.now)) nodes_out.old edges_out.old }
        ensures nodes { nodes_out.new ≡ nodes_written (network_of self.now) (state_of self.now) (strong_plan (network_of self.now) (state_of self.now)) nodes_out.old edges_out.old }
        ensures edges { edges_out.new ≡ edges_written (network_of self.now) (state_of self.now) (strong_plan (network_of self.now) (state_of self.now)) nodes_out.old edges_out.old }
        ensures laws { Laws (network_of self.now) (steps_of self.now) }
    {
        self.check_plan()?;
        let grown = Snapshot {
            network: &self.network,
            tables: &self.tables,
        };
        let nodes = grown.grown_nodes();
        let edges = grown.grown_edges(&nodes);
        strong_prune_tree(&self.network, &nodes, &edges, nodes_out, edges_out)
    }
}
