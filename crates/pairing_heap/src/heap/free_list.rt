// The nodes that hold no item.
ghost use Rattle.std.specs.Prelude.{◌≡◌, ℕ, ◌<◌, ◌≤◌, Some, None, List, [], length, drop, slice_index_or, slice_set, IfSome, IfNone, is_ok, IfOk, OnErr};
ghost use Rattle.orders.specs.Sorted.{insert};
ghost use Rattle.pairing_heap.specs.declared.node.Node.{Node};
ghost use Rattle.pairing_heap.specs.Forests.{made};
ghost use Rattle.pairing_heap.specs.Links.{relinked};
ghost use Rattle.pairing_heap.specs.Heaps.{Loose, LooseIn, Sound, loose_items, items_at, items};
ghost use Rattle.pairing_heap.specs.Calls.{head, tail, has_room, LeastFirst};

use crate::heap::{Full, Heap};
use crate::linking::relink;
use crate::node::{Link, Node};
use orders::Order;

// Puts node i before the free list.
fn release<E: Copy>(nodes: &mut [Node<E>], i: usize, free: Link)
    requires { i < length nodes.old }
    ensures { (d : Node E) → nodes.new ≡ relinked d nodes.old i None free }
{
    relink(nodes, i, Link::NONE, free);
}

// Takes node i, the first of the free list, for an item. Answers what follows it there.
fn occupy<E: Copy>(nodes: &mut [Node<E>], i: usize, item: E) -> Link
    requires { i < length nodes.old }
    ensures next_free { (d : Node E) → result ≡ (slice_index_or nodes.old i d).next }
    ensures taken { nodes.new ≡ slice_set nodes.old i (made item None None) }
{
    let free = nodes[i].next;
    nodes[i] = Node::new(item);
    free
}

// Makes one free list of the first `count` nodes.
pub(super) fn free_all<O: Order>(nodes: &mut [Node<O::Item>], count: usize) -> Link
    requires { count ≤ length nodes.old }
    ensures empty { Loose O.le nodes.new result 0 count None None }
    ensures no_items { items_at O.le nodes.new count None ≡ [] }
    ensures past { drop count nodes.new ≡ drop count nodes.old }
    ensures law { (bound : ℕ) → LeastFirst O.le bound }
{
    let mut free = Link::NONE;
    // By index, as the index is what is linked, and a node is read field by field and written whole.
    for i in 0..count {
        release(nodes, i, free);
        free = Link::to(i);
    }
    free
}

impl Heap {
    // Takes a node off the free list for an item, as a row of one tree.
    pub(super) fn take_node<O: Order>(
        &mut self,
        nodes: &mut [Node<O::Item>],
        item: O::Item,
    ) -> Result<Link, Full>
        requires { Sound O.le nodes.old self.old }
        ensures room { is_ok result ≡ has_room self.old.bound (items O.le nodes.old self.old) }
        ensures loose { IfOk result (λ row. LooseIn O.le nodes.new self.new row self.new.root) }
        ensures items { IfOk result (λ row. loose_items O.le nodes.new self.new.bound row self.new.root ≡ insert O.le item (items O.le nodes.old self.old)) }
        ensures refusal { OnErr result ((nodes.new ≡ nodes.old) × (self.new ≡ self.old)) }
        ensures same_bound { self.new.bound ≡ self.old.bound }
        ensures past { drop self.old.bound nodes.new ≡ drop self.old.bound nodes.old }
    {
        let Some(node) = self.free.get() else {
            return Err(Full);
        };
        self.free = occupy(nodes, node, item);
        self.len += 1;
        Ok(Link::to(node))
    }

    // Takes the root off and frees its node. Answers its item and the row of its children.
    pub(super) fn detach_root<O: Order>(
        &mut self,
        nodes: &mut [Node<O::Item>],
    ) -> Option<(O::Item, Link)>
        requires { Sound O.le nodes.old self.old }
        ensures nothing { IfNone result ((items O.le nodes.old self.old ≡ []) × (nodes.new ≡ nodes.old) × (self.new ≡ self.old)) }
        ensures head { IfSome result (λ r. Some r.0 ≡ head (items O.le nodes.old self.old)) }
        ensures loose { IfSome result (λ r. LooseIn O.le nodes.new self.new r.1 None) }
        ensures items { IfSome result (λ r. loose_items O.le nodes.new self.new.bound r.1 None ≡ tail (items O.le nodes.old self.old)) }
        ensures same_bound { self.new.bound ≡ self.old.bound }
        ensures past { drop self.old.bound nodes.new ≡ drop self.old.bound nodes.old }
    {
        let root = self.root.get()?;
        let item = nodes[root].item;
        let children = nodes[root].child;
        release(nodes, root, self.free);
        self.free = Link::to(root);
        self.len -= 1;
        Some((item, children))
    }
}
