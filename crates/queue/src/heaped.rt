// The heap queue, which keeps a key for each entry of its table in a heap.
ghost use Rattle.std.specs.Prelude.{◌≡◌, ◌<◌, ◌≤◌, ◌++◌, length, MatchResult};
ghost use Rattle.refusal.specs.declared.Refusal.TheVariants.{ListTooShort};
ghost use Rattle.std.specs.List.Sorted.{IsPermutation};
ghost use Rattle.std.specs.List.{ContainsAt, AllByRecursion};
ghost use Rattle.heap.specs.Bags.{bag_of, room_of};
ghost use Rattle.queue.specs.Tables.{no_entries};
ghost use Rattle.queue.specs.Timed.{key_of, KeysOf, room_answer};

use crate::flat::look_through;
use crate::timed::TimedKey;
use crate::{EventQueue, check_number};
use heap::Heap;
use refusal::Refusal;

// On a list of 1,535 keys or more the heap holds the key of each entry of the table, once, and no other.
// On a shorter one it may lack some: the queue then looks through its table, and `try_open` refuses such a list, as `check_room` does.
#[derive(Drop)]
pub struct HeapQueue<'a> {
    heap: Heap<'a, TimedKey>,
    times: [Option<u64>; 1535],
    ghost full: { length times ≡ 1535 },
    ghost holds: { 1535 ≤ room_of heap → KeysOf times (bag_of heap) },
}

impl<'a> HeapQueue<'a> {
    // Refuses a list that is too short for a key of every number.
    pub fn check_room(keys: &[TimedKey]) -> Result<(), Refusal>
        ensures { result ≡ room_answer (length keys.now) }
    {
        if keys.len() < 1535 {
            return Err(Refusal::ListTooShort);
        }
        Ok(())
    }

    // An empty queue on the list, unless that is too short for a key of every number.
    pub fn try_open(keys: &'a mut [TimedKey]) -> Result<HeapQueue<'a>, Refusal>
        ensures { MatchResult result (λ q. (q.times ≡ no_entries) × (1535 ≤ length keys.old)) (λ why. (why ≡ ListTooShort) × (length keys.old < 1535)) }
    {
        HeapQueue::check_room(keys)?;
        Ok(HeapQueue::open(keys))
    }

    // An empty queue on the list, whatever that held.
    pub fn open(keys: &'a mut [TimedKey]) -> HeapQueue<'a>
        ensures { result.times ≡ no_entries }
    {
        HeapQueue {
            heap: Heap::open(keys),
            times: [None; 1535],
        }
    }
}

// Takes the key of a number's entry out of the heap, if it has one.
fn take_key(heap: &mut Heap<'_, TimedKey>, number: usize, entry: Option<u64>)
    ensures room { room_of heap.new ≡ room_of heap.old }
    ensures bag { AllByRecursion (ContainsAt (bag_of heap.old)) (key_of number entry) → IsPermutation (bag_of heap.old) (key_of number entry ++ bag_of heap.new) }
{
    if let Some(time) = entry {
        heap.take_equal(TimedKey { time, number });
    }
}

impl<'a> EventQueue for HeapQueue<'a> {
    ghost table = { λ q. q.times };

    ghost sized = { λ q. q.full };

    fn set(&mut self, number: usize, time: u64) -> Result<(), Refusal> {
        check_number(number)?;
        let old = self.times[number];
        take_key(&mut self.heap, number, old);
        // Refused only on a short list, where the heap does not count.
        let _ = self.heap.insert(TimedKey { time, number });
        self.times[number] = Some(time);
        Ok(())
    }

    fn remove(&mut self, number: usize) -> Result<(), Refusal> {
        check_number(number)?;
        let gone = self.times[number];
        take_key(&mut self.heap, number, gone);
        self.times[number] = None;
        Ok(())
    }

    fn clear(&mut self) {
        self.heap.clear();
        self.times = [None; 1535];
    }

    fn first(&self) -> Option<(u64, usize)> {
        if self.heap.room() < 1535 {
            return look_through(&self.times);
        }
        self.heap.least().map(|key| (key.time, key.number))
    }
}
