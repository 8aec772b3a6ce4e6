// How a read tree begins, and how the reader fills it.
ghost use Rattle.std.specs.Prelude.{◌≡◌, true};
ghost use Rattle.tree.specs.Rules.{keeps_rules};
ghost use Rattle.station_file.specs.Trees.{rows_of, smallest};

use crate::read_tree::ReadTree;
use arrayvec::ArrayVec;
use tree::line::Row;

impl ReadTree {
    // Before any file: one gate without children that never holds, named A.
    pub fn new() -> Self
        ensures is_smallest { rows_of result ≡ smallest }
    {
        let mut rows = ArrayVec::new();
        rows.push(Row::default());
        ReadTree { rows }
    }

    // The rows in place of what it held.
    pub(crate) fn replace(&mut self, rows: ArrayVec<Row, 64>)
        requires { keeps_rules rows.items ≡ true }
        ensures { rows_of self.new ≡ rows.items }
    {
        self.rows = rows;
    }
}
