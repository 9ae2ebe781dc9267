// Reads a sheet on standard input, grows its network to the end, and prints both plans, or why it was refused.
#![tactic(auto)]

use console::{print_edges, print_refusal, read_network};
use network::Network;
use queue::FlatQueue;
use report::{Kept, Report, plan_network};

// The kept nodes, by number.
fn print_nodes(rt: &impl Print, nodes: &[u8]) -> anyhow::Result<()> {
    for (number, mark) in nodes.iter().enumerate() {
        if *mark == 1 {
            println!(rt; "n\t{number}")?;
        }
    }
    Ok(())
}

fn print_plan(rt: &impl Print, network: &Network, word: &str, kept: &Kept) -> anyhow::Result<()> {
    let answer = kept.answer;
    println!(rt; "{word}\t{answer}")?;
    print_nodes(rt, &kept.nodes)?;
    print_edges(rt, network, &kept.edges)
}

fn print_report(rt: &impl Print, network: &Network, report: &Report) -> anyhow::Result<()> {
    let steps = report.steps;
    let floor = report.lower_bound;
    println!(rt; "steps\t{steps}")?;
    println!(rt; "floor\t{floor}")?;
    print_plan(rt, network, "plan", &report.plan)?;
    print_plan(rt, network, "strong", &report.strong)
}

fn plan(rt: &impl Print, network: Network) -> anyhow::Result<()> {
    let (growth, report) = plan_network(network, FlatQueue::open());
    match report {
        Ok(report) => print_report(rt, growth.network(), &report),
        Err(why) => print_refusal(rt, why),
    }
}

fn main(rt: HostRuntime) -> anyhow::Result<()> {
    match read_network(&rt)? {
        Ok(network) => plan(&rt, network),
        Err(why) => print_refusal(&rt, why),
    }
}
