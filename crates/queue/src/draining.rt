// Taking entries out of a queue in order, whichever queue it is.
ghost use Rattle.std.specs.Prelude.{◌≡◌, ◌++◌, length, drop};
ghost use Rattle.queue.specs.Tables.{first_entry};
ghost use Rattle.queue.specs.Draining.{without_first, in_order, without};

use crate::EventQueue;

// Takes the first entry out.
pub fn take_first<Q: EventQueue>(queue: &mut Q) -> Option<(u64, usize)>
    ensures answer { result ≡ first_entry (Q.EventQueue.table queue.old) }
    ensures after { Q.EventQueue.table queue.new ≡ without_first (Q.EventQueue.table queue.old) }
{
    let (time, number) = queue.first()?;
    // Never refused: an entry's number is one of the table's.
    let _ = queue.remove(number);
    Some((time, number))
}

// Takes entries out in order into the list until it is full or the queue is empty, and answers how many.
pub fn drain<Q: EventQueue>(queue: &mut Q, out: &mut [(u64, usize)]) -> usize
    ensures answer { result ≡ length (in_order (length out.old) (Q.EventQueue.table queue.old)) }
    ensures after { Q.EventQueue.table queue.new ≡ without (length out.old) (Q.EventQueue.table queue.old) }
    ensures written { out.new ≡ in_order (length out.old) (Q.EventQueue.table queue.old) ++ drop result out.old }
{
    for (i, place) in out.iter_mut().enumerate() {
        let Some(entry) = take_first(queue) else {
            return i;
        };
        *place = entry;
    }
    out.len()
}
