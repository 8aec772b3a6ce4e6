// The record of a part: name, E, rarity, class, discount, price.
ghost use Rattle.std.specs.Prelude.{◌≡◌};
ghost use Rattle.tabbed_text.specs.Fields.{more_fields, after};
ghost use Rattle.tabbed_text.specs.Remains.{remains};
ghost use Rattle.station_file.specs.Lines.{line_of};
ghost use Rattle.station_file.specs.Records.{part_body};

use crate::faults::StationFault;
use crate::record::Record;
use tree::line::{Line, Part};

impl<'t, 'r> Record<'t, 'r> {
    // The part that the four fields after the letter say.
    #[tactic(auto, using(crate::proofs::Reading::part_in_turn))]
    pub fn part(&mut self) -> Result<Line, StationFault>
        ensures value { result ≡ part_body (line_of self.old) (more_fields (remains self.old.fields)) }
        ensures next_line { after 10 (remains self.new.fields) ≡ after 10 (remains self.old.fields) }
    {
        let rarity = self.field()?;
        let class = self.field()?;
        let discount = self.field()?;
        let price = self.field()?;
        self.end()?;
        let rarity = self.number(rarity, 3, 0, 60_000)?;
        let class = self.number(class, 4, 0, 9)?;
        let discount = self.number(discount, 5, 0, 1_000)?;
        let price = self.number(price, 6, 0, 10_000_000)?;
        // `as`: within their limits class and discount are not cut, and no failure is left to answer.
        Ok(Line::Part(Part {
            rarity,
            class: class as u8,
            discount: discount as u16,
            price,
        }))
    }
}
