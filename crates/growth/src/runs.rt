// Growing so many steps and to the end, and whole runs: a list of entries, a start, and any number of steps.
ghost use Rattle.std.specs.Prelude.{◌≡◌, ◌+◌, ◌*◌, true, map};
ghost use Rattle.network.specs.Lists.{given, entered};
ghost use Rattle.network.specs.Nets.{empty_net};
ghost use Rattle.network.specs.Networks.{net_of};
ghost use Rattle.theory.specs.Growth.{ended, grow};
ghost use Rattle.theory.specs.Laws.{Laws};
ghost use Rattle.theory.specs.Nets.{node_count};
ghost use Rattle.growth.specs.Grown.{network_of, steps_of, state_of};

use crate::Growth;
use network::{Entry, Network};
use queue::EventQueue;

// Takes every entry of a network back and enters those of the list in turn; a refused one changes nothing.
fn entered_anew(mut network: Network, entries: &[Entry]) -> Network
    ensures { net_of result ≡ entered (map given entries.now) empty_net }
{
    network.clear();
    network.enter_all(entries);
    network
}

// More steps than these are never accepted.
fn most_steps(network: &Network) -> usize
    ensures { result ≡ 2 * node_count (net_of network.now) }
{
    2 * network.prizes().len()
}

impl<Q: EventQueue> Growth<Q> {
    // So many steps, or as many as are accepted.
    pub fn grow(&mut self, steps: usize)
        ensures network { network_of self.new ≡ network_of self.old }
        ensures state { state_of self.new ≡ grow (network_of self.old) (steps_of self.old + steps) }
        ensures laws { Laws (network_of self.new) (steps_of self.new) }
    {
        for _ in 0..steps {
            if self.has_ended() {
                return;
            }
            let _ = self.step();
        }
    }

    // Steps until growth has ended.
    pub fn grow_to_end(&mut self)
        ensures network { network_of self.new ≡ network_of self.old }
        ensures state { state_of self.new ≡ grow (network_of self.old) (2 * node_count (network_of self.old)) }
        ensures ended { ended (state_of self.new) ≡ true }
        ensures laws { Laws (network_of self.new) (steps_of self.new) }
    {
        let most = most_steps(&self.network);
        self.grow(most);
    }
}

// A whole run, in the room of a network, whose entries are taken back first: each entry in turn, refused ones too, then the start, then so many steps, or as many as are accepted.
pub fn run<Q: EventQueue>(network: Network, entries: &[Entry], queue: Q, steps: usize) -> Growth<Q>
    ensures network { network_of result ≡ entered (map given entries.now) empty_net }
    ensures state { state_of result ≡ grow (network_of result) steps }
    ensures laws { Laws (network_of result) steps }
{
    let mut growth = Growth::start(entered_anew(network, entries), queue);
    growth.grow(steps);
    growth
}
