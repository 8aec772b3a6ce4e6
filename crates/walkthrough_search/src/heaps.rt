// The pairing heap, over five nodes of which four count, and a sort by way of it.
ghost use Rattle.std.specs.Prelude.{nat_le};
ghost use Rattle.pairing_heap.specs.Heaps.{Sound};

use pairing_heap::heap::Heap;
use pairing_heap::node::Node;
use pairing_heap::sorting::{Lesser, sort};
use std::io;

fn pushed(rt: &HostRuntime, heap: &mut Heap, nodes: &mut [Node<u64>], n: u64) -> io::Result<()>
    requires { Sound nat_le nodes.old heap.old }
    ensures { Sound nat_le nodes.new heap.new }
{
    let word = match heap.push::<Lesser>(nodes, n) {
        Ok(()) => "done",
        Err(_) => "refused, no node is free",
    };
    println!(rt; "push {n}: {word}")
}

fn seen(rt: &HostRuntime, heap: &Heap, nodes: &[Node<u64>]) -> io::Result<()>
    requires { Sound nat_le nodes.now heap.now }
{
    let held = heap.len::<Lesser>();
    match heap.first::<Lesser>(nodes) {
        Some(n) => println!(rt; "first: {n}, of {held}"),
        None => println!(rt; "first: none, of {held}"),
    }
}

fn popped(rt: &HostRuntime, heap: &mut Heap, nodes: &mut [Node<u64>]) -> io::Result<()>
    requires { Sound nat_le nodes.old heap.old }
    ensures { Sound nat_le nodes.new heap.new }
{
    match heap.pop::<Lesser>(nodes) {
        Some(n) => println!(rt; "pop: {n}"),
        None => println!(rt; "pop: none"),
    }
}

fn fill(rt: &HostRuntime, heap: &mut Heap, nodes: &mut [Node<u64>]) -> io::Result<()>
    requires { Sound nat_le nodes.old heap.old }
    ensures { Sound nat_le nodes.new heap.new }
{
    for n in [5, 3, 9, 3, 1] {
        pushed(rt, heap, nodes, n)?;
    }
    Ok(())
}

fn empty(rt: &HostRuntime, heap: &mut Heap, nodes: &mut [Node<u64>]) -> io::Result<()>
    requires { Sound nat_le nodes.old heap.old }
    ensures { Sound nat_le nodes.new heap.new }
{
    for _ in 0..5 {
        popped(rt, heap, nodes)?;
    }
    Ok(())
}

pub fn push_and_pop(rt: &HostRuntime) -> anyhow::Result<()> {
    let mut nodes = [Node::new(0); 5];
    let mut heap = Heap::begin::<Lesser>(&mut nodes, 4);
    let capacity = heap.capacity();
    println!(rt; "a heap over 5 nodes of which {capacity} count")?;
    fill(rt, &mut heap, &mut nodes)?;
    seen(rt, &heap, &nodes)?;
    popped(rt, &mut heap, &mut nodes)?;
    pushed(rt, &mut heap, &mut nodes, 1)?;
    empty(rt, &mut heap, &mut nodes)?;
    pushed(rt, &mut heap, &mut nodes, 7)?;
    heap.clear::<Lesser>(&mut nodes);
    seen(rt, &heap, &nodes)?;
    Ok(())
}

pub fn sort_numbers(rt: &HostRuntime) -> anyhow::Result<()> {
    let mut numbers = [8, 3, 5, 3, 13, 0, 21, 1, 34, 2, 5, 8, 55, 1, 0, 89];
    sort(&mut numbers);
    println!(rt; "sixteen numbers sorted: {numbers:?}")?;
    Ok(())
}
