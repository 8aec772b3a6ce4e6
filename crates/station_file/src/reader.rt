// The reader of station files.
ghost use Rattle.std.specs.Prelude.{◌≡◌, List, [], IfErr, Ok, Err, MatchResult, OnOk};
ghost use Rattle.tree.specs.declared.line.Row.{Row};
ghost use Rattle.tabbed_text.specs.Fields.{lines_of};
ghost use Rattle.station_file.specs.Descriptions.{ReadsExactly};
ghost use Rattle.station_file.specs.Files.{read_rows, read_file, outcome, rows_or};
ghost use Rattle.station_file.specs.Trees.{rows_of};

use crate::faults::{StationCause, StationFault};
use crate::read_tree::ReadTree;
use crate::record::Record;
use arrayvec::ArrayVec;
use tabbed_text::fields::Fields;
use tree::line::Row;

// Reads every line into the rows, of which there are none yet.
#[tactic(auto, using(crate::proofs::FileReads::line_steps))]
fn read_rows(bytes: &[u8], rows: &mut ArrayVec<Row, 64>) -> Result<(), StationFault>
    requires { rows.old.items ≡ [] }
    ensures answer { result ≡ outcome (read_rows [] (lines_of bytes.now)) }
    ensures rows { rows_or (read_rows [] (lines_of bytes.now)) rows.new.items ≡ rows.new.items }
{
    let mut fields = Fields::new(bytes);
    // A walk to the end of the text: no number is counted.
    while !fields.is_done() {
        if rows.is_full() {
            return Err(StationFault::at(rows.len() + 1, 0, StationCause::TooManyLines));
        }
        let above = rows.as_slice();
        let mut record = Record { fields, above };
        let row = record.row()?;
        fields = record.fields;
        fields.end_line();
        rows.push(row);
    }
    Ok(())
}

// Asks every question of the file, and reads its lines into the rows, of which there are none yet.
#[tactic(auto, using(crate::proofs::Exactness::refuses_exactly))]
fn read_file(bytes: &[u8], rows: &mut ArrayVec<Row, 64>) -> Result<(), StationFault>
    requires { rows.old.items ≡ [] }
    ensures answer { result ≡ outcome (read_file bytes.now) }
    ensures rows { OnOk result (read_file bytes.now ≡ Ok rows.new.items) }
    ensures exact { IfErr result (λ f. (old : List Row) → ReadsExactly bytes.now (Err f) old old) }
{
    if !(1..=16_384).contains(&bytes.len()) {
        return Err(StationFault::at(0, 0, StationCause::Size));
    }
    let [.., b'\n'] = bytes else {
        return Err(StationFault::at(0, 0, StationCause::NoEnd));
    };
    read_rows(bytes, rows)
}

// Reads a station file into the tree, which stays as it is where the file is refused.
#[tactic(auto, using(crate::proofs::Exactness::reads_exactly, crate::proofs::Keeping::file_keeps))]
pub fn read(bytes: &[u8], tree: &mut ReadTree) -> Result<(), StationFault>
    ensures answers_by_the_questions { result ≡ outcome (read_file bytes.now) }
    ensures tells_what_is_read { MatchResult result (λ _. read_file bytes.now ≡ Ok (rows_of tree.new)) (λ f. read_file bytes.now ≡ Err f) }
    ensures fills_the_tree { rows_of tree.new ≡ rows_or (read_file bytes.now) (rows_of tree.old) }
    ensures reads_exactly { ReadsExactly bytes.now result (rows_of tree.old) (rows_of tree.new) }
{
    let mut rows = ArrayVec::new();
    read_file(bytes, &mut rows)?;
    tree.replace(rows);
    Ok(())
}
