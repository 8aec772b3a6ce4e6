// Where the waiting rule begins, and what it lists.
ghost use Rattle.std.specs.Prelude.{◌≡◌, [], ◌∷◌};
ghost use Rattle.orders.specs.Lists.{Each};
ghost use Rattle.cut_sets.specs.WaitingRule.{search_of, loaded};
ghost use Rattle.cut_sets.specs.Laws.{AsManyEnterAsChoices, OrdersWays, AlwaysListsInOrder, AlwaysWaitsInOrder, GoesOneWay, ListsAllInTheEnd};
ghost use Rattle.cut_sets.specs.NextSets.{AlwaysComesNext};
ghost use Rattle.cut_sets.specs.WorkedExamples.{ComesOut, worked};

use crate::cut::line_of;
use crate::way::{Way, way_of};
use ranking::order::Ranking;
use tree::station_tree::{Tree, top_of};

// The one way that waits when a tree is loaded. What the waiting rule lists from there is promised for every charge of
// parts and every number of slots.
#[tactic(auto, using(crate::proofs::Ways::top_alone))]
pub fn first_way<T: Tree, R: Ranking>(tree: &T) -> Way
    ensures waits_alone_when_loaded { loaded (T.Tree.meaning tree.now) ≡ search_of (result ∷ []) [] }
    ensures ways_are_ordered { OrdersWays R.Ranking.model (T.Tree.meaning tree.now) }
    ensures always_lists_minimal_cut_sets_in_order { AlwaysListsInOrder R.Ranking.model (T.Tree.meaning tree.now) }
    ensures ways_always_wait_in_order { AlwaysWaitsInOrder R.Ranking.model (T.Tree.meaning tree.now) }
    ensures next_is_first_that_remains_or_none_or_blocked { AlwaysComesNext R.Ranking.model (T.Tree.meaning tree.now) }
    ensures steps_go_one_way_and_end { GoesOneWay R.Ranking.model (T.Tree.meaning tree.now) }
    ensures lists_all_with_enough_slots { ListsAllInTheEnd R.Ranking.model (T.Tree.meaning tree.now) }
    ensures as_many_ways_enter_as_choices { AsManyEnterAsChoices (T.Tree.meaning tree.now) }
    ensures worked_examples_come_out { Each ComesOut worked }
{
    let top = top_of(tree);
    way_of(line_of(tree, top), top)
}
