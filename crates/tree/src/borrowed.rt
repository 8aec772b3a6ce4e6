// A borrowed station tree answers as the tree does.
use crate::line::{Line, Name};
use crate::station_tree::Tree;

impl<T: Tree> Tree for &T {
    ghost meaning = { λ t. T.Tree.meaning t.now };

    ghost ruled = { λ t. T.Tree.ruled t.now };

    fn count(&self) -> usize {
        (**self).count()
    }

    fn line(&self, i: usize) -> Option<Line> {
        (**self).line(i)
    }

    fn name(&self, i: usize) -> Option<Name> {
        (**self).name(i)
    }
}
