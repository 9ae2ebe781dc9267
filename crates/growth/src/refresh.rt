// Keeping the queue's table in step with the due times.
ghost use Rattle.std.specs.Prelude.{◌≡◌, ℕ, ◌+◌, ◌<◌, ◌≤◌, true, None, slice_index_or};
ghost use Rattle.queue.specs.Tables.{with_entry};
ghost use Rattle.theory.specs.Nets.{edge_count};
ghost use Rattle.theory.specs.Due.{among};
ghost use Rattle.growth.specs.Refreshed.{Right, CaughtUp, is_at, touched, changed, Refreshed};
ghost use Rattle.growth.specs.Snapshots.{net_in, dues_in};

use crate::reads::edge_at;
use crate::{Event, Snapshot};
use queue::EventQueue;

impl Snapshot<'_> {
    // When what stands under this number is due; an edge that is not entered, not at all.
    fn due(&self, number: usize) -> Option<u64>
        ensures { result ≡ slice_index_or (dues_in self.now) number None }
    {
        match Event::from(number) {
            Event::Deactivated { cluster } => self.cluster_due(cluster),
            Event::Merged { edge } => {
                if edge >= self.network.edges().len() {
                    return None;
                }
                self.edge_due(edge)
            }
        }
    }

    // Whether an end of the edge is in this cluster.
    fn is_at(&self, c: usize, s: usize) -> bool
        requires { s < edge_count (net_in self.now) }
        ensures { result ≡ is_at (net_in self.now) self.now.tables.now c s }
    {
        let edge = edge_at(self.network, s);
        let nodes = &self.tables.nodes.list;
        nodes[edge.first].cluster == c || nodes[edge.second].cluster == c
    }
}

// Gives a number this entry, or none.
fn write_entry<Q: EventQueue>(queue: &mut Q, number: usize, entry: Option<u64>)
    ensures { Q.EventQueue.table queue.new ≡ with_entry (Q.EventQueue.table queue.old) number entry }
{
    // Either way the table is as the entry says: a number that it does not have leaves it as it was.
    let _ = match entry {
        None => queue.remove(number),
        Some(time) => queue.set(number, time),
    };
}

// Brings the entry of one number up to date.
fn write_due<Q: EventQueue>(queue: &mut Q, grown: &Snapshot, number: usize)
    ensures caught { CaughtUp (dues_in grown.now) (Q.EventQueue.table queue.old) (Q.EventQueue.table queue.new) }
    ensures here { Right (dues_in grown.now) (Q.EventQueue.table queue.new) number }
{
    write_entry(queue, number, grown.due(number));
}

// Every entry anew, whatever the queue held.
pub(crate) fn fill<Q: EventQueue>(queue: &mut Q, grown: &Snapshot)
    ensures { Q.EventQueue.table queue.new ≡ dues_in grown.now }
{
    queue.clear();
    // By number: there is no list of what stands under the numbers.
    for number in 0..1535usize {
        write_due(queue, grown, number);
    }
}

// Brings the edge's entry up to date if an end of it is in the cluster.
fn refresh_edge<Q: EventQueue>(queue: &mut Q, grown: &Snapshot, c: usize, s: usize)
    requires { s < edge_count (net_in grown.now) }
    ensures caught { CaughtUp (dues_in grown.now) (Q.EventQueue.table queue.old) (Q.EventQueue.table queue.new) }
    ensures here { is_at (net_in grown.now) grown.now.tables.now c s ≡ true → Right (dues_in grown.now) (Q.EventQueue.table queue.new) (511 + s) }
{
    if !grown.is_at(c, s) {
        return;
    }
    write_due(queue, grown, 511 + s);
}

// Brings the entries of the edges at a cluster up to date.
fn refresh_edges<Q: EventQueue>(queue: &mut Q, grown: &Snapshot, c: usize)
    ensures caught { CaughtUp (dues_in grown.now) (Q.EventQueue.table queue.old) (Q.EventQueue.table queue.new) }
    ensures here { (s : ℕ) → s < edge_count (net_in grown.now) → is_at (net_in grown.now) grown.now.tables.now c s ≡ true → Right (dues_in grown.now) (Q.EventQueue.table queue.new) (511 + s) }
{
    let count = grown.network.edges().len();
    // By number: under it the queue has the edge's entry.
    for s in 0..count {
        refresh_edge(queue, grown, c, s);
    }
}

// Brings the entries of the event's clusters up to date, and answers with the one that is maximal.
fn refresh_clusters<Q: EventQueue>(queue: &mut Q, grown: &Snapshot, number: usize) -> usize
    requires { 1 ≤ grown.now.tables.now.family.formed }
    ensures answer { result ≡ changed grown.now.tables.now number }
    ensures caught { CaughtUp (dues_in grown.now) (Q.EventQueue.table queue.old) (Q.EventQueue.table queue.new) }
    ensures here { (c : ℕ) → among c (touched grown.now.tables.now number) ≡ true → Right (dues_in grown.now) (Q.EventQueue.table queue.new) c }
{
    if let Event::Deactivated { cluster } = Event::from(number) {
        write_due(queue, grown, cluster);
        return cluster;
    }
    let new = grown.tables.family.formed - 1;
    write_due(queue, grown, new);
    if let Some((first, second)) = grown.tables.family.clusters[new].parts {
        write_due(queue, grown, first);
        write_due(queue, grown, second);
    }
    new
}

// After the event under a number: only entries at its clusters are written.
pub(crate) fn refresh<Q: EventQueue>(queue: &mut Q, grown: &Snapshot, number: usize)
    requires { 1 ≤ grown.now.tables.now.family.formed }
    ensures { Refreshed (net_in grown.now) grown.now.tables.now number (dues_in grown.now) (Q.EventQueue.table queue.old) (Q.EventQueue.table queue.new) }
{
    let c = refresh_clusters(queue, grown, number);
    refresh_edges(queue, grown, c);
}
