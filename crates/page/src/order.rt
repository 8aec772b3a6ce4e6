// The order line: year, growth, letter of the ranking, number of sets.
ghost use Rattle.std.specs.Prelude.{◌≡◌, ◌≤◌, [], ◌∷◌, IfOk, Ok, Err, MatchOption, MatchResult};
ghost use Rattle.station_file.specs.Trees.{rows_of};
ghost use Rattle.tabbed_text.specs.Fields.{fields_of, more_fields};
ghost use Rattle.tabbed_text.specs.Remains.{remains};
ghost use Rattle.page.specs.Orders.{Letters, criterion_field, line_within, order_number, order_line, order_of, task_read, order_told, rows_told};
ghost use Rattle.page.specs.Tasks.{DecidesTask, ReadsTaskExactly};

use crate::faults::{PageCause, PageFault};
use ranking::terms::Terms;
use station_file::read_tree::ReadTree;
use station_file::reader::read;
use tabbed_text::fields::Fields;
use tabbed_text::letters::{UnknownLetter, letter};
use tabbed_text::numbers::number;

// What sets are ranked by first: price above rarity, or one of the others above price.
#[derive(Clone, Copy, PartialEq, Eq)]
pub enum Criterion {
    Price,
    Rarity,
    Class,
    Size,
}

#[derive(Clone, Copy, PartialEq, Eq)]
pub struct Order {
    pub terms: Terms,
    pub criterion: Criterion,
    pub sets: u32,
}

impl TryFrom<char> for Criterion {
    type Error = UnknownLetter;

    ghost try_from_gives = { Letters };

    fn try_from(letter: char) -> Result<Criterion, UnknownLetter> {
        match letter {
            'P' => Ok(Criterion::Price),
            'R' => Ok(Criterion::Rarity),
            'C' => Ok(Criterion::Class),
            'S' => Ok(Criterion::Size),
            _ => Err(UnknownLetter),
        }
    }
}

// Whether byte 10 stands among the first 32 bytes.
fn has_line(input: &[u8]) -> bool
    ensures { result ≡ line_within 32 input.now }
{
    input.iter().take(32).any(|b| *b == b'\n')
}

fn order_number(digits: &[u8], field: usize, low: u32, high: u32) -> Result<u32, PageFault>
    ensures value { result ≡ order_number low high field digits.now }
    ensures within { IfOk result (λ n. n ≤ high) }
{
    number(digits, low, high).ok_or(PageFault::at(1, field, PageCause::OrderField))
}

fn criterion_field(field: &[u8]) -> Result<Criterion, PageFault>
    ensures { result ≡ criterion_field field.now }
{
    let criterion = letter(field).and_then(|letter| Criterion::try_from(letter).ok());
    criterion.ok_or(PageFault::at(1, 3, PageCause::OrderField))
}

// The next field of the line, of which the caller has counted the fields.
fn next_field<'a>(fields: &mut Fields<'a>) -> Result<&'a [u8], PageFault>
    ensures value { MatchResult result (λ f. more_fields (remains fields.old) ≡ f.now ∷ more_fields (remains fields.new)) (λ _. more_fields (remains fields.old) ≡ []) }
{
    fields.next().ok_or(PageFault::at(1, 0, PageCause::NoOrder))
}

// The order of a line by its fields.
#[tactic(auto, using(crate::proofs::Ordering::four_unrolled, crate::proofs::Ordering::not_four))]
fn order_line(mut fields: Fields) -> Result<Order, PageFault>
    ensures { result ≡ order_line (fields_of (remains fields.entry)) }
{
    let first = fields.first();
    if fields.left() != 3 {
        return Err(PageFault::at(1, 0, PageCause::NoOrder));
    }
    let year = order_number(first, 1, 0, 10)?;
    let growth = order_number(next_field(&mut fields)?, 2, 0, 200)?;
    // Both numbers were read within the limits that terms ask.
    let Ok(terms) = Terms::new(year, growth) else {
        unreachable!()
    };
    let criterion = criterion_field(next_field(&mut fields)?)?;
    let sets = order_number(next_field(&mut fields)?, 4, 1, 64)?;
    Ok(Order {
        terms,
        criterion,
        sets,
    })
}

// The order, where the input begins with an order line.
fn read_order(input: &[u8]) -> Result<Order, PageFault>
    ensures value { result ≡ order_of input.now }
    ensures decides { DecidesTask input.now result }
{
    if !has_line(input) {
        return Err(PageFault::at(1, 0, PageCause::NoOrder));
    }
    order_line(Fields::new(input))
}

// Reads the order line and the station file after it, which fills the tree; where either is refused, the tree stays as
// it is.
pub fn read_task(input: &[u8], tree: &mut ReadTree) -> Result<Order, PageFault>
    ensures orders_within_limits { IfOk result (λ o. (o.terms.year ≤ 10) × (o.terms.growth ≤ 200)) }
    ensures answers_by_the_questions { result ≡ order_told (task_read input.now) }
    ensures fills_the_tree { rows_of tree.new ≡ rows_told (task_read input.now) (rows_of tree.old) }
    ensures tells_what_is_read { MatchResult result (λ o. task_read input.now ≡ Ok (o, rows_of tree.new)) (λ f. task_read input.now ≡ Err f) }
    ensures reads_exactly { ReadsTaskExactly input.now result (rows_of tree.old) (rows_of tree.new) }
{
    let order = read_order(input)?;
    let mut fields = Fields::new(input);
    fields.end_line();
    read(fields.rest(), tree)?;
    Ok(order)
}
