// Reads a sheet on standard input and prints its network's edges in work-list order, or why it was refused.
#![tactic(auto)]

use console::{print_edges, print_refusal, read_network};
use network::{MOST_EDGES, Network};

fn print_network(rt: &impl Print, network: &Network) -> anyhow::Result<()> {
    let nodes = network.prizes().len();
    let edges = network.edges().len();
    println!(rt; "nodes\t{nodes}")?;
    println!(rt; "edges\t{edges}")?;
    print_edges(rt, network, &[1; MOST_EDGES])
}

fn main(rt: HostRuntime) -> anyhow::Result<()> {
    match read_network(&rt)? {
        Ok(network) => print_network(&rt, &network),
        Err(why) => print_refusal(&rt, why),
    }
}
