// The charge sheet: what each part is charged in the order's year, and the total.
ghost use Rattle.std.specs.Prelude.{◌≡◌, ◌^◌, ◌<◌, IfSome};
ghost use Rattle.std.specs.List.{flat_map, slice_get};
ghost use Rattle.tabbed_text.specs.Writing.{Writes};
ghost use Rattle.station_file.specs.Trees.{rows_of};
ghost use Rattle.page.specs.Pages.{charged_at, charge_line, row_text, total_cost, sheet, sheet_of, answered, left_in};

use crate::faults::{PageCause, PageFault};
use crate::order::read_task;
use crate::refused::put_field;
use ranking::charge::charge;
use ranking::terms::Terms;
use station_file::read_tree::ReadTree;
use tabbed_text::whole::{Text, write_whole};
use tabbed_text::writer::Writer;
use tree::line::{Line, Name};
use tree::station_tree::Tree;

// A part's name and what it is charged.
#[derive(Clone, Copy)]
struct Charged {
    name: Name,
    cents: u64,
}

#[derive(Drop)]
struct Sheet<'a> {
    tree: &'a ReadTree,
    terms: Terms,
}

// Line i, where it is a part.
fn charged_at(tree: &ReadTree, i: usize, terms: Terms) -> Option<Charged>
    ensures value { result ≡ charged_at terms.year terms.growth (slice_get (rows_of tree.now) i) }
    ensures low { IfSome result (λ p. p.cents < 2 ^ 42) }
{
    let line = tree.line(i)?;
    let name = tree.name(i)?;
    match line {
        Line::Part(part) => Some(Charged {
            name,
            cents: charge(part, terms),
        }),
        Line::Gate(_) => None,
    }
}

// A name and a number on a line of their own.
fn put_charge(w: &mut Writer, charged: Charged)
    ensures { Writes (charge_line charged) w.old w.new }
{
    w.name(charged.name);
    put_field(w, charged.cents);
    w.byte(b'\n');
}

// The lines of all parts, and their total.
fn put_parts(w: &mut Writer, tree: &ReadTree, terms: Terms) -> u64
    ensures writes { Writes (flat_map (row_text terms.year terms.growth) (rows_of tree.now)) w.old w.new }
    ensures total { result ≡ total_cost terms.year terms.growth (rows_of tree.now) }
{
    let mut total = 0;
    // By number: so every station tree is asked for its lines.
    for i in 0..tree.count() {
        if let Some(charged) = charged_at(tree, i, terms) {
            put_charge(w, charged);
            total += charged.cents;
        }
    }
    total
}

impl Text for Sheet<'_> {
    ghost bytes = { λ s. sheet s.terms.year s.terms.growth (rows_of s.tree.now) };

    fn put(&self, w: &mut Writer) {
        let total = put_parts(w, self.tree, self.terms);
        w.text(b"total");
        put_field(w, total);
        w.byte(b'\n');
    }
}

// Writes the charge sheet that the input asks for, and answers its length; where the input or the room is refused, no
// byte is written.
#[tactic(auto, unfolding(crate::specs::Pages::answered, crate::specs::Pages::left_in))]
pub fn charge_sheet(input: &[u8], out: &mut [u8]) -> Result<usize, PageFault>
    ensures answers_length { result ≡ answered (sheet_of input.now) out.old }
    ensures writes_sheet { out.new ≡ left_in (sheet_of input.now) out.old }
{
    let mut tree = ReadTree::new();
    let order = read_task(input, &mut tree)?;
    let sheet = Sheet {
        tree: &tree,
        terms: order.terms,
    };
    write_whole(&sheet, out).ok_or(PageFault::at(0, 0, PageCause::NoRoom))
}
