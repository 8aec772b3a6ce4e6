// What a read tree answers as a station tree. Line and name are alike but in what they take of a row: a function of both
// would be longer.
ghost use Rattle.station_file.specs.Trees.{rows_of};

use crate::read_tree::ReadTree;
use tree::line::{Line, Name};
use tree::station_tree::Tree;

impl Tree for ReadTree {
    ghost meaning = { rows_of };

    ghost ruled = { λ t. t.ruled };

    fn count(&self) -> usize {
        self.rows.len()
    }

    fn line(&self, i: usize) -> Option<Line> {
        Some(self.rows.as_slice().get(i)?.line)
    }

    fn name(&self, i: usize) -> Option<Name> {
        Some(self.rows.as_slice().get(i)?.name)
    }
}
