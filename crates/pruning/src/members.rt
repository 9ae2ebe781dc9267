// The nodes of a cluster, from the shapes of its family.
ghost use Rattle.std.specs.Prelude.{◌≡◌, ℕ, suc, ◌<◌, ◌≤◌, true, ◌&&◌, ◌||◌, length, Some, ◌==◌};
ghost use Rattle.theory.specs.Prune.{marked};
ghost use Rattle.pruning.specs.Pruned.{shape_at, member, held_below};

use super::reads::is_marked;
use super::shape::Shape;

// Marks a place, if the list reaches so far.
fn mark(marks: &mut [u8], v: usize)
    ensures { (u : ℕ) → u < length marks.old → marked marks.new u ≡ (marked marks.old u || v == u) }
{
    if v < marks.len() {
        marks[v] = 1;
    }
}

// Marks two places, each if the list reaches so far.
fn mark_both(marks: &mut [u8], first: usize, second: usize)
    ensures { (u : ℕ) → u < length marks.old → marked marks.new u ≡ ((marked marks.old u || first == u) || second == u) }
{
    mark(marks, first);
    mark(marks, second);
}

// Whether both parts of a cluster have lower numbers: its nodes are then theirs, and else it has none.
fn are_lower(shapes: &[Shape], c: usize, first: usize, second: usize) -> bool
    requires { (shape_at shapes.now c).parts ≡ Some (first, second) }
    ensures lower { result ≡ true → (first < c) × (second < c) }
    ensures nodes { (v : ℕ) → member shapes.now c v ≡ (result && (member shapes.now first v || member shapes.now second v)) }
{
    first < c && second < c
}

// Opens a cluster that is inside: a node alone is marked, and lower parts are inside from now on.
// The nodes that are marked, or in a cluster inside below `d`, are then those that were marked, or in one up to `d`.
fn open_up(shapes: &[Shape], d: usize, inside: &mut [u8], nodes: &mut [u8])
    requires listed { d < length shapes.now }
    requires room { d < length inside.old }
    ensures { (v : ℕ) → v < length nodes.old → (marked nodes.new v || held_below shapes.now d (marked inside.new) v) ≡ (marked nodes.old v || held_below shapes.now (suc d) (marked inside.old) v) }
{
    if !is_marked(inside, d) {
        return;
    }
    match shapes[d].parts {
        None => mark(nodes, d),
        Some((first, second)) => {
            if are_lower(shapes, d, first, second) {
                mark_both(inside, first, second);
            }
        }
    }
}

// The nodes of a cluster: the clusters inside it are opened from the last to the first, each once.
pub(crate) fn members_of(shapes: &[Shape], c: usize) -> [u8; 256]
    requires listed { c < length shapes.now }
    requires few { length shapes.now ≤ 511 }
    ensures { (v : ℕ) → v < 256 → marked result v ≡ member shapes.now c v }
{
    let mut nodes = [0u8; 256];
    let mut inside = [0u8; 511];
    mark(&mut inside, c);
    for d in (0..c + 1).rev() {
        open_up(shapes, d, &mut inside, &mut nodes);
    }
    nodes
}
