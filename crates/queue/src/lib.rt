// The event queue: a table from event numbers to times that says which event comes first.
#![tactic(auto)]

ghost use Rattle.std.specs.Prelude.{◌≡◌, ℕ, List, length, Some, None, Option};
ghost use Rattle.queue.specs.Tables.{no_entries, write_answer, with_entry, first_entry, WritesStand, FirstEntryStands};

use refusal::Refusal;

mod draining;
mod flat;
mod heaped;
mod timed;

pub use draining::{drain, take_first};
pub use flat::FlatQueue;
pub use heaped::HeapQueue;
pub use timed::TimedKey;

// Each call's effect on the table is all that a caller may know of a queue, so that one may stand for another.
pub trait EventQueue {
    // The time of each number from 0 to 1,534, or nothing.
    ghost table: { Self → List (Option ℕ) };

    // Gives the number this time, whatever it had; a number above 1,534 is refused, and the table stays.
    fn set(&mut self, number: usize, time: u64) -> Result<(), Refusal>
        ensures answer { result ≡ write_answer number }
        ensures after { table self.new ≡ with_entry (table self.old) number (Some time) };

    // Gives the number nothing, also where it had nothing; refuses as `set` does.
    fn remove(&mut self, number: usize) -> Result<(), Refusal>
        ensures answer { result ≡ write_answer number }
        ensures after { table self.new ≡ with_entry (table self.old) number None };

    // Gives every number nothing.
    fn clear(&mut self)
        ensures { table self.new ≡ no_entries };

    // The first entry, as time and number: the least time, and the lowest number among equal times.
    fn first(&self) -> Option<(u64, usize)>
        ensures { result ≡ first_entry (table self.now) };

    // The table has the numbers from 0 to 1,534 and no others.
    ghost sized: { (q : Self) → length (table q) ≡ 1535 };
}

// Refuses a number above 1,534.
fn check_number(number: usize) -> Result<(), Refusal>
    ensures { result ≡ write_answer number }
{
    if number > 1534 {
        return Err(Refusal::EventOutOfRange);
    }
    Ok(())
}

// The theorem on writes, asked for by this contract.
pub fn writes_stand()
    ensures { WritesStand }
{}

// The theorem on the first entry, asked for by this contract.
pub fn first_entry_stands()
    ensures { FirstEntryStands }
{}
