// The records of gates with children: name, A or O, children; name, V, need, children.
ghost use Rattle.std.specs.Prelude.{◌≡◌, ◌+◌, ◌<◌, ◌≤◌, length, IfOk, IfSome};
ghost use Rattle.tabbed_text.specs.Fields.{more_fields};
ghost use Rattle.tabbed_text.specs.Remains.{remains};
ghost use Rattle.station_file.specs.Lines.{line_of, rows_above};
ghost use Rattle.station_file.specs.Names.{name_from, line_named};
ghost use Rattle.station_file.specs.Records.{child_field, children as children_of, gate_of, vote_fields};

use crate::faults::{StationCause, StationFault};
use crate::names::name_of;
use crate::record::Record;
use tree::line::{Gate, Line};
use tree::line_set::{alone, has};

impl<'t, 'r> Record<'t, 'r> {
    // The line above that the field names.
    #[tactic(auto, using(crate::proofs::Reading::named_first))]
    fn named(&self, name: &[u8]) -> Option<usize>
        ensures value { result ≡ line_named (rows_above self.now) (name_from name.now) }
        ensures within { IfSome result (λ i. i < 64) }
    {
        self.find(name_of(name)?)
    }

    // The line that the field names, where it is above and not yet in the set.
    fn child(&self, name: &[u8], set: u64, field: usize) -> Result<usize, StationFault>
        ensures value { result ≡ child_field (line_of self.now) field set (line_named (rows_above self.now) (name_from name.now)) }
        ensures within { IfOk result (λ i. i < 64) }
    {
        let fault = self.fault(field, StationCause::UnknownChild);
        let i = self.named(name).ok_or(fault)?;
        if has(set, i) {
            return Err(self.fault(field, StationCause::ChildTwice));
        }
        Ok(i)
    }

    // The set of the lines that the fields left in the line name; `first` is the number of the first of them.
    fn children(&self, first: usize) -> Result<u64, StationFault>
        requires { first + length (more_fields (remains self.now.fields)) ≤ 20 }
        ensures { result ≡ children_of (line_of self.now) first (rows_above self.now) 0 (more_fields (remains self.now.fields)) }
    {
        let mut set = 0;
        for (k, name) in self.fields.enumerate() {
            set |= alone(self.child(name, set, first + k)?);
        }
        Ok(set)
    }

    // A gate that needs so many of the lines that the fields left in the line name.
    pub fn gate(&self, first: usize, need: u8) -> Result<Line, StationFault>
        requires { first + length (more_fields (remains self.now.fields)) ≤ 20 }
        ensures { result ≡ gate_of (line_of self.now) first (rows_above self.now) need (more_fields (remains self.now.fields)) }
    {
        let children = self.children(first)?;
        Ok(Line::Gate(Gate { children, need }))
    }

    // A gate that needs as many of so many children as its third field says.
    #[tactic(auto, using(crate::proofs::Reading::vote_in_turn))]
    pub fn vote(mut self, count: usize) -> Result<Line, StationFault>
        requires counts { length (more_fields (remains self.fields)) ≡ count + 1 }
        requires few { count ≤ 12 }
        ensures { result ≡ vote_fields (line_of self.entry) (rows_above self.entry) (more_fields (remains self.entry.fields)) }
    {
        let digits = self.field()?;
        // `as`: the check proves that neither number is cut, so that there is no failure to answer.
        let need = self.number(digits, 3, 1, count as u32)?;
        self.gate(4, need as u8)
    }
}
