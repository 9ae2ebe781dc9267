// Opening a network, entering nodes and edges, and reading what was entered.
ghost use Rattle.std.specs.Prelude.{◌≡◌, map, IfOk};
ghost use Rattle.network.specs.Nets.{link, empty_net};
ghost use Rattle.network.specs.Entries.{node_refusal, before_code_refusal, answer_of, add_node_answer, add_node, add_edge_answer, add_edge};
ghost use Rattle.network.specs.Networks.{net_of};
ghost use Rattle.network.specs.Edges.{link_of};

use super::{Code, Edge, Network};
use refusal::Refusal;
use std::alloc::{AllocError, Global};

// How many nodes and edges a network has room for.
pub const MOST_NODES: usize = 256;

pub const MOST_EDGES: usize = 1024;

const MOST_AMOUNT: u64 = 1_000_000_000;

impl Network {
    // A network without a node. Only this call wants memory: it reserves the room of all entries.
    pub fn open(heap: Global) -> Result<Network, AllocError>
        ensures { IfOk result (λ n. net_of n ≡ empty_net) }
    {
        let prizes = Vec::with_capacity(heap, MOST_NODES)?;
        let edges = Vec::with_capacity(heap, MOST_EDGES)?;
        Ok(Network { prizes, edges })
    }

    // Takes every entry back; the room stays.
    pub fn clear(&mut self)
        ensures { net_of self.new ≡ empty_net }
    {
        self.edges.clear();
        self.prizes.clear();
    }

    // Whether a node with this prize can be entered.
    fn check_node(&self, prize: u64) -> Result<(), Refusal>
        ensures { result ≡ answer_of (node_refusal (net_of self.now) prize) tt }
    {
        if self.prizes.len() >= MOST_NODES {
            return Err(Refusal::NodesFull);
        }
        if prize > MOST_AMOUNT {
            return Err(Refusal::AmountTooLarge);
        }
        Ok(())
    }

    // Enters a node: its number, or why not.
    pub fn add_node(&mut self, prize: u64) -> Result<usize, Refusal>
        ensures answer { result ≡ add_node_answer (net_of self.old) prize }
        ensures after { net_of self.new ≡ add_node (net_of self.old) prize }
    {
        self.check_node(prize)?;
        let number = self.prizes.len();
        self.prizes.push_reserved(prize);
        Ok(number)
    }

    // Whether such an edge can be entered, before its code is looked at.
    fn check_edge(&self, first: usize, second: usize, cost: u64) -> Result<(), Refusal>
        ensures { result ≡ answer_of (before_code_refusal (net_of self.now) first second cost) tt }
    {
        let full = self.edges.len() >= MOST_EDGES;
        if full {
            return Err(Refusal::EdgesFull);
        }
        let costly = cost > MOST_AMOUNT;
        if costly {
            return Err(Refusal::AmountTooLarge);
        }
        if first >= self.prizes.len() || second >= self.prizes.len() {
            return Err(Refusal::UnknownNode);
        }
        if first == second {
            return Err(Refusal::EqualEnds);
        }
        Ok(())
    }

    // Enters an edge of two entered nodes: its number, or why not.
    pub fn add_edge(
        &mut self,
        first: usize,
        second: usize,
        cost: u64,
        code: &[u8],
    ) -> Result<usize, Refusal>
        ensures answer { result ≡ add_edge_answer (net_of self.old) (link first second cost code.now) }
        ensures after { net_of self.new ≡ add_edge (net_of self.old) (link first second cost code.now) }
    {
        self.check_edge(first, second, cost)?;
        let code = Code::new(code).ok_or(Refusal::BadCode)?;
        let number = self.edges.len();
        self.edges.push_reserved(Edge {
            first,
            second,
            cost,
            code,
        });
        Ok(number)
    }

    // The prize of each node, by number.
    pub fn prizes(&self) -> &[u64]
        ensures { result.now ≡ (net_of self.now).prizes }
    {
        self.prizes.as_slice()
    }

    // Each edge, by number.
    pub fn edges(&self) -> &[Edge]
        ensures { map link_of result.now ≡ (net_of self.now).edges }
    {
        self.edges.as_slice()
    }
}
