//! The tree hangs anew after an exchange: the part without the root hangs from the edge that enters. Only the edges on
//! the way from there up to the one that leaves are rerooted; the block of places of the part goes to behind the node on
//! which it hangs then, and the nodes on the two ways up from there and from where it was count it, or count it no more.

ghost use Rattle.std.specs.Prelude.{◌≡◌, ◌≢◌, ◌+◌, ◌-◌, ◌<◌, ◌≤◌, ◌^◌, ℕ, true, ◌⊎◌, length, slice_index, Bool, List};
ghost use Rattle.network_laws.specs.Network.{EndsBelow};
ghost use Rattle.net_simplex.specs.Rooted.{above, Hangs};
ghost use Rattle.net_simplex.specs.Walks.{part, IsWalk, first_place, HasWalk};
ghost use Rattle.net_simplex.specs.Rerooting.{Exchanges, AreResized, AreDistinct, IsRerootedTo, IsWayUp, Plants, ResizesLater, Settles, RerootsNext};

use crate::rooted::{far_end, plant, upper};
use crate::tree::{Tree, Walk};
use network_laws::NetEdge;

/// Of two nodes the later one goes up; `low` loses the block of `many` nodes, and `high` gains it.
fn resize_later(
    edges: &[NetEdge],
    tree: &Tree,
    low: u32,
    high: u32,
    many: u32,
    size: &mut [u32],
) -> (u32, u32)
    requires low { low < length tree.now.parent.items }
    requires high { high < length tree.now.parent.items }
    requires place { length tree.now.place.items ≡ length tree.now.parent.items }
    requires size { length size.old ≡ length tree.now.parent.items }
    requires low_hangs { slice_index tree.now.place.items high < slice_index tree.now.place.items low
        → slice_index tree.now.parent.items low < length edges.now }
    requires loses { slice_index tree.now.place.items high < slice_index tree.now.place.items low → many ≤ slice_index size.old low }
    requires high_hangs { slice_index tree.now.place.items low ≤ slice_index tree.now.place.items high
        → slice_index tree.now.parent.items high < length edges.now }
    requires gains { slice_index tree.now.place.items low ≤ slice_index tree.now.place.items high → slice_index size.old high + many < 2 ^ 32 }
    ensures { ResizesLater edges.now tree.now.place.items tree.now.parent.items many low high size.old result.0 result.1 size.new }
{
    if tree.place_of(high) < tree.place_of(low) {
        size[low as usize] -= many;
        return (upper(edges, tree, low), high);
    }
    size[high as usize] += many;
    (low, upper(edges, tree, high))
}

/// The block of `many` nodes goes from what `from` hangs on to what `to` hangs on, both included: the sizes on the way
/// between them change.
fn resize(edges: &[NetEdge], tree: &Tree, from: u32, to: u32, many: u32, size: &mut [u32])
    requires few { length tree.now.order.items ≤ 2 ^ 23 }
    requires block { many ≤ length tree.now.order.items }
    requires parent { length tree.now.parent.items ≡ length tree.now.order.items }
    requires walk { IsWalk (length tree.now.order.items) tree.now.order.items tree.now.place.items size.old (above edges.now tree.now.parent.items) }
    requires edges { (v : ℕ) → v < length tree.now.order.items → 0 < slice_index tree.now.place.items v
        → slice_index tree.now.parent.items v < length edges.now }
    requires from { from < length tree.now.order.items }
    requires to { to < length tree.now.order.items }
    requires held { (v : ℕ) → v < length tree.now.order.items → part tree.now.place.items size.old v from ≡ true → many ≤ slice_index size.old v }
    ensures same { length size.new ≡ length tree.now.order.items }
    ensures sizes { AreResized (length tree.now.order.items) tree.now.place.items size.old many from to size.new }
{
    let mut low = from;
    let mut high = to;
    'way: loop {
        if low == high {
            return;
        }
        let next = resize_later(edges, tree, low, high, many, size);
        low = next.0;
        high = next.1;
    }
}

/// The nodes at the places from `low` to before `high` take the places from `at` on.
fn plant_all(order: &[u32], low: u32, high: u32, at: u32, next: &mut [u32], place: &mut [u32])
    requires few { length next.old ≤ 2 ^ 23 }
    requires range { low ≤ high }
    requires there { high ≤ length order.now }
    requires room { at + high ≤ length next.old + low }
    requires nodes { (was : List ℕ) × AreDistinct (length place.old) order.now was }
    ensures { Plants order.now low high at next.old place.old next.new place.new }
{
    for i in low..high {
        plant(order[i as usize], at + (i - low), next, place);
    }
}

/// Copies the numbers from `low` to before `high`.
fn copy_range(from: &[u32], low: u32, high: u32, to: &mut [u32])
    requires range { low ≤ high }
    requires same { length from.now ≡ length to.old }
    requires there { high ≤ length to.old }
    ensures copied { (p : ℕ) → low ≤ p → p < high → slice_index to.new p ≡ slice_index from.now p }
    ensures others { (p : ℕ) → ((p < low) ⊎ (high ≤ p)) → slice_index to.new p ≡ slice_index to.old p }
{
    for p in low..high {
        to[p as usize] = from[p as usize];
    }
}

/// The first place of the block of `many` places from `start` on, where it goes to before place `after`.
fn begin_at(start: u32, many: u32, after: u32) -> u32
    requires { start < after → many ≤ after }
    ensures { result ≡ first_place start many after }
{
    if start < after {
        return after - many;
    }
    after
}

/// The block of `many` places from `start` on has its new places in `next` already; the nodes that it passes get theirs,
/// and the order is told of all.
fn settle(order: &mut [u32], start: u32, many: u32, after: u32, next: &mut [u32], place: &mut [u32])
    requires few { length order.old ≤ 2 ^ 23 }
    requires next { length next.old ≡ length order.old }
    requires place { length place.old ≡ length order.old }
    requires block { start + many ≤ length order.old }
    requires after { after ≤ length order.old }
    requires aside { (after ≤ start) ⊎ (start + many ≤ after) }
    requires some { 0 < many }
    requires nodes { (was : List ℕ) × AreDistinct (length place.old) order.old was }
    requires others { (p : ℕ) → p < length order.old → ((p < start) ⊎ (start + many ≤ p)) → slice_index place.old (slice_index order.old p) ≡ p }
    ensures { Settles (length order.old) order.old place.old next.old start many after order.new place.new }
{
    if start < after {
        plant_all(order, start + many, after, start, next, place);
        copy_range(next, start, after, order);
        return;
    }
    plant_all(order, after, start, after + many, next, place);
    copy_range(next, after, start + many, order);
}

/// The edge on which a node hangs, and its part: `held` places from `low` on.
#[derive(Clone, Copy)]
struct Branch {
    link: u32,
    low: u32,
    held: u32,
}

fn branch_of(tree: &Tree, walk: &Walk, v: u32) -> Branch
    requires place { v < length tree.now.place.items }
    requires size { v < length walk.now.size.items }
    requires parent { v < length tree.now.parent.items }
    ensures link { result.link ≡ slice_index tree.now.parent.items v }
    ensures low { result.low ≡ slice_index tree.now.place.items v }
    ensures held { result.held ≡ slice_index walk.now.size.items v }
{
    Branch {
        link: tree.parent_of(v),
        low: tree.place_of(v),
        held: walk.size_of(v),
    }
}

/// The next node of the way is planted around the part of the node before, and hangs on that node. Gives its edge and its
/// part as they were.
fn reroot_next(
    tree: &mut Tree,
    walk: &mut Walk,
    v: u32,
    before: Branch,
    base: u32,
    many: u32,
) -> Branch
    requires few { length tree.old.order.items ≤ 2 ^ 23 }
    requires next { length walk.old.next.items ≡ length tree.old.order.items }
    requires there { v < length tree.old.place.items }
    requires size { length walk.old.size.items ≡ length tree.old.place.items }
    requires parent { length tree.old.parent.items ≡ length tree.old.place.items }
    requires begins { slice_index tree.old.place.items v ≤ before.low }
    requires ends { before.low + before.held ≤ slice_index tree.old.place.items v + slice_index walk.old.size.items v }
    requires in_order { slice_index tree.old.place.items v + slice_index walk.old.size.items v ≤ length tree.old.order.items }
    requires room { base + slice_index walk.old.size.items v ≤ length tree.old.order.items }
    requires block { before.held ≤ many }
    requires nodes { (was : List ℕ) × AreDistinct (length tree.old.place.items) tree.old.order.items was }
    ensures rerooted { RerootsNext tree.old.order.items v before.link before.low before.held base many tree.old.place.items
        walk.old.size.items tree.old.parent.items walk.old.next.items tree.new.place.items walk.new.size.items
        tree.new.parent.items walk.new.next.items }
    ensures marks { tree.new.marks.items ≡ tree.old.marks.items }
    ensures order { tree.new.order.items ≡ tree.old.order.items }
    ensures link { result.link ≡ slice_index tree.old.parent.items v }
    ensures low { result.low ≡ slice_index tree.old.place.items v }
    ensures held { result.held ≡ slice_index walk.old.size.items v }
{
    let part = branch_of(tree, walk, v);
    let at = base + before.held;
    plant_all(
        &tree.order,
        part.low,
        before.low,
        at,
        &mut walk.next,
        &mut tree.place,
    );
    plant_all(
        &tree.order,
        before.low + before.held,
        part.low + part.held,
        at + (before.low - part.low),
        &mut walk.next,
        &mut tree.place,
    );
    tree.parent[v as usize] = before.link;
    walk.size[v as usize] = many - before.held;
    part
}

/// The way from the node of the edge that enters up to the child of the one that leaves, each edge of it rerooted: the
/// child's part is planted from place `base` on, the part of `from` first.
fn reroot_path(
    edges: &[NetEdge],
    tree: &mut Tree,
    walk: &mut Walk,
    child: u32,
    from: u32,
    by: u32,
    base: u32,
)
    requires few { length tree.old.order.items ≤ 2 ^ 23 }
    requires next { length walk.old.next.items ≡ length tree.old.order.items }
    requires room { base + slice_index walk.old.size.items child ≤ length tree.old.order.items }
    requires way { (was : List ℕ)
        × IsWayUp (length tree.old.order.items) edges.now tree.old.order.items tree.old.place.items was tree.old.parent.items
        child from walk.old.size.items }
    ensures rerooted { (was : List ℕ)
        → IsWayUp (length tree.old.order.items) edges.now tree.old.order.items tree.old.place.items was tree.old.parent.items
        child from walk.old.size.items
        → IsRerootedTo (length tree.old.order.items) tree.old.place.items was tree.old.parent.items
        (above edges.now tree.old.parent.items) child from base by child walk.old.size.items tree.new.place.items
        walk.new.size.items tree.new.parent.items walk.new.next.items }
    ensures marks { tree.new.marks.items ≡ tree.old.marks.items }
    ensures order { tree.new.order.items ≡ tree.old.order.items }
{
    let many = walk.size_of(child);
    let mut v = from;
    let mut part = branch_of(tree, walk, from);
    plant_all(
        &tree.order,
        part.low,
        part.low + part.held,
        base,
        &mut walk.next,
        &mut tree.place,
    );
    tree.parent[from as usize] = by;
    walk.size[from as usize] = many;
    'way: loop {
        if v == child {
            return;
        }
        v = far_end(edges, part.link, v);
        part = reroot_next(tree, walk, v, part, base, many);
    }
}

/// Hangs the tree anew: the edge of `child` has left it, and `by`, which ends at `from`, has entered.
pub fn reroot(edges: &[NetEdge], tree: &mut Tree, walk: &mut Walk, child: u32, from: u32, by: u32)
    requires few { length tree.old.order.items ≤ 2 ^ 23 }
    requires ends { EndsBelow (length tree.old.order.items) edges.now }
    requires next { length walk.old.next.items ≡ length tree.old.order.items }
    requires exchanges { (old : List Bool)
        × Exchanges (length tree.old.order.items) edges.now old tree.old.marks.items tree.old.order.items tree.old.place.items
        walk.old.size.items tree.old.parent.items child from by }
    ensures marks { tree.new.marks.items ≡ tree.old.marks.items }
    ensures rooted { Hangs (length tree.old.order.items) edges.now tree.new }
    ensures walk { HasWalk (length tree.old.order.items) edges.now tree.new walk.new }
{
    let to = far_end(edges, by, from);
    let start = tree.place_of(child);
    let many = walk.size_of(child);
    let after = tree.place_of(to) + 1;
    let above = upper(edges, tree, child);
    resize(edges, tree, above, to, many, &mut walk.size);
    let base = begin_at(start, many, after);
    reroot_path(edges, tree, walk, child, from, by, base);
    settle(
        &mut tree.order,
        start,
        many,
        after,
        &mut walk.next,
        &mut tree.place,
    );
}
