// The flat queue, which looks through its table.
ghost use Rattle.std.specs.Prelude.{◌≡◌, length};
ghost use Rattle.queue.specs.Tables.{no_entries, first_entry, sooner};

use crate::{EventQueue, check_number};
use refusal::Refusal;

#[derive(Drop)]
pub struct FlatQueue {
    times: [Option<u64>; 1535],
    ghost full: { length times ≡ 1535 },
}

impl FlatQueue {
    pub fn open() -> FlatQueue
        ensures { result.times ≡ no_entries }
    {
        FlatQueue {
            times: [None; 1535],
        }
    }
}

impl EventQueue for FlatQueue {
    ghost table = { λ q. q.times };

    ghost sized = { λ q. q.full };

    fn set(&mut self, number: usize, time: u64) -> Result<(), Refusal> {
        check_number(number)?;
        self.times[number] = Some(time);
        Ok(())
    }

    fn remove(&mut self, number: usize) -> Result<(), Refusal> {
        check_number(number)?;
        self.times[number] = None;
        Ok(())
    }

    fn clear(&mut self) {
        self.times = [None; 1535];
    }

    fn first(&self) -> Option<(u64, usize)> {
        look_through(&self.times)
    }
}

// The first entry of a table.
pub(crate) fn look_through(times: &[Option<u64>]) -> Option<(u64, usize)>
    ensures { result ≡ first_entry times.now }
{
    times.iter().enumerate().fold(None, |found, (number, entry)| sooner(found, number, *entry))
}

// The earlier of what was found so far and the entry at `i`; an equal time keeps what was found.
fn sooner(found: Option<(u64, usize)>, i: usize, entry: Option<u64>) -> Option<(u64, usize)>
    ensures { result ≡ sooner found i entry }
{
    match (found, entry) {
        (_, None) => found,
        (None, Some(time)) => Some((time, i)),
        (Some((least, at)), Some(time)) => {
            if time < least {
                Some((time, i))
            } else {
                Some((least, at))
            }
        }
    }
}
