// The nodes of a heap, and the links between them.
ghost use Rattle.std.specs.Prelude.{◌≡◌, ◌<◌, Some, None};
ghost use Rattle.pairing_heap.specs.Index.{largest};

use std::marker::Model;

// A link to a node, or to none: in clauses, an Option of the node's index; in memory, one word, the largest for none. An
// Option<usize> takes two, and then the sort of random numbers took 2.50 times the instructions of a binary heap, where at
// most 2 are wanted.
#[derive(Clone, Copy, Debug, PartialEq, Eq)]
pub struct Link {
    index: usize,
}

impl Model for Link {
    ghost use Rattle.std.specs.Prelude.{ℕ, Option};

    ghost Value = { Option ℕ };

    ghost use Rattle.pairing_heap.specs.Index.{seen, kept, kept_seen};

    ghost view = { seen };

    ghost inverse = { kept };

    ghost inverse_ok = { λ l h. kept_seen l };
}

impl From<usize> for Link {
    ghost use Rattle.std.specs.Prelude.{◌≡◌};
    ghost use Rattle.pairing_heap.specs.Index.{seen};

    ghost from_gives = { λ n l. l ≡ seen (record { index = n }) };

    // A link to the node at an index; the largest index, which no slice reaches, means none.
    fn from(index: usize) -> Link {
        Link { index }
    }
}

impl Link {
    pub const NONE: Link = Link { index: usize::MAX };

    // A link to the node at an index.
    pub(crate) fn to(index: usize) -> Link
        requires { index < largest }
        ensures { result ≡ Some index }
    {
        Link::from(index)
    }

    // The index of the node, if there is one.
    pub fn get(self) -> Option<usize>
        ensures answers_where_it_leads { result ≡ self }
    {
        (self.index != usize::MAX).then_some(self.index)
    }
}

// A node of the heap's tree, with its first child and its next sibling; or one of the free list, with the next of it.
#[derive(Clone, Copy, Debug, PartialEq, Eq)]
pub struct Node<E> {
    pub item: E,
    pub child: Link,
    pub next: Link,
}

impl<E> Node<E> {
    // A node that leads nowhere.
    pub fn new(item: E) -> Node<E>
        ensures leads_nowhere { result ≡ record { item = item; child = None; next = None } }
    {
        Node {
            item,
            child: Link::NONE,
            next: Link::NONE,
        }
    }
}
