// What every record has, a name and a letter, and how the rest of it is read.
ghost use Rattle.std.specs.Prelude.{◌≡◌, ◌<◌, ◌≤◌, ◌≢◌, min, length, drop, IfOk, IfSome, Ok, Err, MatchResult};
ghost use Rattle.std.specs.List.{position};
ghost use Rattle.tree.specs.Names.{same_name};
ghost use Rattle.tabbed_text.specs.Fields.{fields_of, more_fields, after};
ghost use Rattle.tabbed_text.specs.Remains.{remains};
ghost use Rattle.station_file.specs.Faults.{station_fault};
ghost use Rattle.station_file.specs.Lines.{line_of, rows_above};
ghost use Rattle.station_file.specs.declared.letters.Kind.TheVariants.{Part};
ghost use Rattle.station_file.specs.Records.{body as body_of, name_field, new_name, next_field, none_left, number_field, record_of};

use crate::faults::{FieldCause, FieldFault, StationCause, StationFault};
use crate::letters::{Kind, record_kind};
use crate::names::name_of;
use crate::record::Record;
use tabbed_text::numbers::number;
use tree::line::{Gate, Line, Name, Row};

impl<'t, 'r> Record<'t, 'r> {
    // The number of the line.
    pub fn line(&self) -> usize
        ensures { result ≡ line_of self.now }
    {
        self.above.len() + 1
    }

    pub fn fault(&self, field: usize, cause: StationCause) -> StationFault
        ensures { result ≡ station_fault (line_of self.now) field cause }
    {
        StationFault::at(self.line(), field, cause)
    }

    // The first line above of that name.
    pub fn find(&self, name: Name) -> Option<usize>
        ensures value { result ≡ position (λ r. same_name r.name name) (rows_above self.now) }
        ensures within { IfSome result (λ i. i < 64) }
    {
        self.above.iter().position(|row| row.name == name)
    }

    fn name(&self, field: &[u8]) -> Result<Name, FieldFault>
        ensures { result ≡ name_field (line_of self.now) field.now }
    {
        name_of(field).ok_or(FieldFault::at(self.line(), 1, FieldCause::NotName))
    }

    // The name, where no line above has it.
    #[tactic(auto, using(crate::proofs::Reading::named_first))]
    fn new_name(&self, name: Name) -> Result<Name, StationFault>
        ensures { result ≡ new_name (line_of self.now) (rows_above self.now) name }
    {
        match self.find(name) {
            Some(_) => Err(self.fault(1, StationCause::NameTaken)),
            None => Ok(name),
        }
    }

    // The next field of the line; where there is none, the line has too few.
    pub fn field(&mut self) -> Result<&'t [u8], StationFault>
        ensures value { MatchResult result (λ f. next_field (line_of self.old) (more_fields (remains self.old.fields)) ≡ Ok f.now) (λ fault. next_field (line_of self.old) (more_fields (remains self.old.fields)) ≡ Err fault) }
        ensures more { more_fields (remains self.new.fields) ≡ drop 1 (more_fields (remains self.old.fields)) }
        ensures next_line { after 10 (remains self.new.fields) ≡ after 10 (remains self.old.fields) }
        ensures above { rows_above self.new ≡ rows_above self.old }
    {
        let fault = self.fault(0, StationCause::FieldCount);
        self.fields.next().ok_or(fault)
    }

    // Asks that no field is left in the line.
    pub fn end(mut self) -> Result<(), StationFault>
        ensures { result ≡ none_left (line_of self.entry) (more_fields (remains self.entry.fields)) }
    {
        match self.fields.next() {
            Some(_) => Err(self.fault(0, StationCause::FieldCount)),
            None => Ok(()),
        }
    }

    // The number that the line's field `field` says. As a call of its own it took a seventh of the reading of parts.
    #[inline(always)]
    pub fn number(
        &self,
        digits: &[u8],
        field: usize,
        low: u32,
        high: u32,
    ) -> Result<u32, FieldFault>
        ensures value { result ≡ number_field low high (line_of self.now) field digits.now }
        ensures within { IfOk result (λ n. n ≤ high) }
    {
        number(digits, low, high).ok_or(FieldFault::at(self.line(), field, FieldCause::NotNumber))
    }

    // How many fields are left in the line, of which no more than so many are counted.
    fn left(&self, most: usize) -> usize
        ensures { result ≡ min most (length (more_fields (remains self.now.fields))) }
    {
        let mut fields = self.fields;
        for n in 0..most {
            if fields.next().is_none() {
                return n;
            }
        }
        most
    }

    // What the fields after the letter say.
    fn body(&mut self, kind: Kind) -> Result<Line, StationFault>
        ensures value { result ≡ body_of (line_of self.old) (rows_above self.old) kind (more_fields (remains self.old.fields)) }
        ensures next_line { after 10 (remains self.new.fields) ≡ after 10 (remains self.old.fields) }
    {
        match kind {
            // Its fields are counted as they are read.
            Kind::Part => self.part(),
            _ => self.gate_body(kind),
        }
    }

    #[tactic(auto, using(crate::proofs::Reading::counted_enough))]
    fn gate_body(&self, kind: Kind) -> Result<Line, StationFault>
        requires no_part { kind ≢ Part }
        ensures { result ≡ body_of (line_of self.now) (rows_above self.now) kind (more_fields (remains self.now.fields)) }
    {
        // One field more than there may be is enough to refuse: the others need not be gone over.
        let count = self.left(kind.most() + 1);
        if !kind.takes(count) {
            return Err(self.fault(0, StationCause::FieldCount));
        }
        match kind {
            Kind::Part => unreachable!(),
            // `as`: at most 12, so that it is not cut.
            Kind::And => self.gate(3, count as u8),
            Kind::Or => self.gate(3, 1),
            Kind::AtLeast => self.vote(count - 1),
            Kind::Always => Ok(Line::Gate(Gate::ALWAYS)),
            Kind::Never => Ok(Line::Gate(Gate::NEVER)),
        }
    }

    // The row that the line says, of which no field is read yet.
    pub fn row(&mut self) -> Result<Row, StationFault>
        ensures value { result ≡ record_of (line_of self.old) (rows_above self.old) (fields_of (remains self.old.fields)) }
        ensures next_line { after 10 (remains self.new.fields) ≡ after 10 (remains self.old.fields) }
    {
        let first = self.fields.first();
        let letter = self.fields.next();
        let fault = self.fault(2, StationCause::Letter);
        let kind = letter.and_then(record_kind).ok_or(fault)?;
        let name = self.name(first)?;
        let name = self.new_name(name)?;
        let line = self.body(kind)?;
        Ok(Row { line, name })
    }
}
