// Reading a sheet into a network: whole, or not at all.
ghost use Rattle.std.specs.Prelude.{◌≡◌, IfOk};
ghost use Rattle.network.specs.Networks.{net_of};
ghost use Rattle.network.specs.Nets.{empty_net};
ghost use Rattle.sheet.specs.Sheets.{read_sheet, read_answer, read_leaves, enter_from, enter_record, Entered};
ghost use Rattle.sheet.specs.Readers.{entry_in};
ghost use Rattle.sheet.specs.Rounds.{WriteAfterRead};

use crate::Lines;
use network::{Entry, Network};
use refusal::Refusal;
use std::alloc::{AllocError, Global};

// Enters what a line says; a refusal of the network becomes the line's.
fn enter(network: &mut Network, new: Entry, line: usize) -> Result<(), Refusal>
    ensures { Entered result (net_of network.new) (enter_record line (net_of network.old) (entry_in new.entry)) }
{
    // By cases: with `map_err` and `?` the proof of the refusal did not close.
    match network.enter(&new) {
        Ok(_) => Ok(()),
        Err(_) => Err(Refusal::LineEntry { line }),
    }
}

// Enters line after line; a refusal leaves the lines before it entered.
fn enter_lines(sheet: &[u8], network: &mut Network) -> Result<(), Refusal>
    ensures { Entered result (net_of network.new) (enter_from (net_of network.old) sheet.now) }
{
    let mut lines = Lines::open(sheet);
    // A record says how far the next line is: nothing is counted but the lines, for their refusals.
    while !lines.is_done() {
        let record = lines.record()?;
        enter(network, record, lines.line)?;
        lines.line += 1;
    }
    Ok(())
}

// Keeps a spare network, so that reading a sheet wants no memory and never leaves one half loaded.
#[derive(Drop)]
pub struct SheetLoader {
    spare: Network,
}

impl SheetLoader {
    pub fn open(heap: Global) -> Result<SheetLoader, AllocError>
        ensures { IfOk result (λ l. net_of l.spare ≡ empty_net) }
    {
        Ok(SheetLoader {
            spare: Network::open(heap)?,
        })
    }

    // Reads the sheet: its network replaces the caller's, or the first bad line refuses it and the caller's stays.
    pub fn read(&mut self, sheet: &[u8], network: &mut Network) -> Result<(), Refusal>
        ensures answer { result ≡ read_answer (read_sheet sheet.now) }
        ensures after { net_of network.new ≡ read_leaves (net_of network.old) (read_sheet sheet.now) }
        ensures written_back { WriteAfterRead sheet.now }
    {
        self.spare.clear();
        enter_lines(sheet, &mut self.spare)?;
        std::mem::swap(&mut self.spare, network);
        Ok(())
    }
}
