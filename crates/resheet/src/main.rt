// Reads a sheet on standard input and prints it in the standard order: nodes first, then edges.
#![tactic(auto)]

use console::{print_refusal, read_network};
use network::Network;
use sheet::{MOST_BYTES, write_sheet};
use std::io;
use std::io::Write;

fn print_sheet(rt: &impl Print, network: &Network) -> anyhow::Result<()> {
    let mut text = [0u8; MOST_BYTES];
    match write_sheet(network, &mut text) {
        Ok(len) => {
            io::writer(rt).write_all(&text[..len])?;
            Ok(())
        }
        Err(why) => print_refusal(rt, why),
    }
}

fn main(rt: HostRuntime) -> anyhow::Result<()> {
    match read_network(&rt)? {
        Ok(network) => print_sheet(&rt, &network),
        Err(why) => print_refusal(&rt, why),
    }
}
