// Starting growth, and one step of it.
ghost use Rattle.std.specs.Prelude.{◌≡◌, Some};
ghost use Rattle.network.specs.Networks.{net_of};
ghost use Rattle.theory.specs.Growth.{start, step};
ghost use Rattle.theory.specs.Laws.{Laws};
ghost use Rattle.growth.specs.Grown.{network_of, steps_of, state_of, next_due, step_answer};

use crate::refresh::{fill, refresh};
use crate::{Event, Growth, Snapshot, Tables};
use network::Network;
use queue::EventQueue;
use refusal::Refusal;

impl<Q: EventQueue> Growth<Q> {
    // Starts growth: uses up the network and the queue, whatever table that brings. Each node is a cluster of its own, active, with moat 0.
    pub fn start(network: Network, mut queue: Q) -> Growth<Q>
        ensures network { network_of result ≡ net_of network }
        ensures state { state_of result ≡ start (net_of network) }
        ensures steps { steps_of result ≡ 0 }
        ensures laws { Laws (network_of result) (steps_of result) }
    {
        let tables = Tables::open(&network);
        let grown = Snapshot {
            network: &network,
            tables: &tables,
        };
        fill(&mut queue, &grown);
        Growth {
            network,
            tables,
            queue,
        }
    }

    // What a step takes: nothing once growth has ended.
    fn next_due(&self) -> Option<(u64, usize)>
        ensures { result ≡ next_due (network_of self.now) (state_of self.now) }
    {
        if self.has_ended() {
            return None;
        }
        self.queue.first()
    }

    // What is due first happens, and the queue follows.
    fn advance(&mut self, time: u64, number: usize)
        requires { Some (time, number) ≡ next_due (network_of self.old) (state_of self.old) }
        ensures network { network_of self.new ≡ network_of self.old }
        ensures state { state_of self.new ≡ step (network_of self.old) (state_of self.old) }
        ensures laws { Laws (network_of self.new) (steps_of self.new) }
    {
        self.tables.happen(&self.network, time, number);
        let grown = Snapshot {
            network: &self.network,
            tables: &self.tables,
        };
        refresh(&mut self.queue, &grown, number);
    }

    // One step: what is due first happens. Refused while fewer than two maximal clusters are active, and nothing is changed then.
    pub fn step(&mut self) -> Result<Event, Refusal>
        ensures answer { result ≡ step_answer (network_of self.old) (state_of self.old) }
        ensures network { network_of self.new ≡ network_of self.old }
        ensures state { state_of self.new ≡ step (network_of self.old) (state_of self.old) }
        ensures laws { Laws (network_of self.new) (steps_of self.new) }
    {
        let (time, number) = self.next_due().ok_or(Refusal::GrowthEnded)?;
        self.advance(time, number);
        Ok(Event::from(number))
    }
}
