// What the programs share: the network that a sheet on standard input says, and its edges printed in work-list order.
#![tactic(auto)]

ghost use Rattle.std.specs.Prelude.{◌≡◌, ℕ, List, Ok, Err, IfOk, MatchResult};
ghost use Rattle.network.specs.Networks.{net_of};
ghost use Rattle.sheet.specs.Sheets.{read_sheet};

use network::{MOST_EDGES, Network};
use refusal::Refusal;
use sheet::SheetLoader;
use std::alloc::{AllocError, Global};
use std::io;
use std::io::Read;
use worklist::work_list;

// No more of the input is taken as the sheet.
const MOST_BYTES: u64 = 65_536;

fn read_input<R: Input + AllocGlobal>(rt: &R) -> io::Result<Vec<u8>> {
    let mut sheet = Vec::new(rt.alloc());
    rt.reader().take(MOST_BYTES).read_to_end(&mut sheet)?;
    Ok(sheet)
}

// The network that the sheet says, or why it is refused.
pub fn network_of(heap: Global, sheet: &[u8]) -> Result<Result<Network, Refusal>, AllocError>
    ensures { IfOk result (λ said. MatchResult said (λ n. read_sheet sheet.now ≡ Ok (net_of n)) (λ why. read_sheet sheet.now ≡ Err why)) }
{
    let mut network = Network::open(heap)?;
    let mut loader = SheetLoader::open(heap)?;
    let answer = loader.read(sheet, &mut network);
    Ok(answer.map(|()| network))
}

pub fn print_refusal(rt: &impl Print, why: Refusal) -> anyhow::Result<()> {
    println!(rt; "{why}")?;
    Ok(())
}

// The network of the sheet on standard input, or why the sheet is refused.
pub fn read_network<R: Input + AllocGlobal>(rt: &R) -> anyhow::Result<Result<Network, Refusal>>
    ensures { IfOk result (λ said. (sheet : List ℕ) × MatchResult said (λ n. read_sheet sheet ≡ Ok (net_of n)) (λ why. read_sheet sheet ≡ Err why)) }
{
    let sheet = read_input(rt)?;
    let answer = network_of(rt.alloc(), sheet.as_slice())?;
    Ok(answer)
}

fn print_edge(rt: &impl Print, network: &Network, number: u16) -> anyhow::Result<()> {
    if let Some(edge) = network.edges().get(number as usize) {
        let code = edge.code;
        println!(rt; "s\t{number}\t{code}")?;
    }
    Ok(())
}

// The marked edges, in work-list order.
pub fn print_edges(rt: &impl Print, network: &Network, marks: &[u8]) -> anyhow::Result<()> {
    // A list with a count beside it, as `work_list` answers: it wants no memory.
    let mut numbers = [0u16; MOST_EDGES];
    if let Ok(count) = work_list(network, marks, &mut numbers) {
        for number in numbers.iter().take(count) {
            print_edge(rt, network, *number)?;
        }
    }
    Ok(())
}
