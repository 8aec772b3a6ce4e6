// The terms under which parts are charged.
ghost use Rattle.std.specs.Prelude.{◌≡◌, ◌≤◌};
ghost use Rattle.std.specs.Result.{result_map_both};
ghost use Rattle.ranking.specs.Terms.{asked, terms_number};

use std::marker::Model;

// The year, counted from the year of the list price, and the growth of prices per mille a year. Clauses see what terms say, so
// that a definition can name terms; that both keep their limits holds of all terms, and `year` and `growth` tell it.
#[derive(Clone, Copy, PartialEq, Eq)]
pub struct Terms {
    year: u32,
    growth: u32,
}

impl Model for Terms {
    ghost use Rattle.std.specs.Prelude.{◌≤◌};
    ghost use Rattle.ranking.specs.Terms.{Said};

    ghost Value = { Said };

    ghost view = { λ t. record { year = t.year; growth = t.growth } };

    ghost invariant = { λ t. (t.year ≤ 10) × (t.growth ≤ 200) };

    ghost inverse = { λ s. record { year = s.year; growth = s.growth } };
}

// Why terms are refused.
#[derive(Clone, Copy, Debug, PartialEq, Eq)]
pub enum TermsCause {
    Year,
    Growth,
}

impl Terms {
    // Asks first whether the year is at most 10, then whether the growth is at most 200.
    pub fn new(year: u32, growth: u32) -> Result<Terms, TermsCause>
        ensures asks_year_then_growth { result_map_both (λ t. (t.year, t.growth)) terms_number result ≡ asked year growth }
    {
        if year > 10 {
            return Err(TermsCause::Year);
        }
        if growth > 200 {
            return Err(TermsCause::Growth);
        }
        Ok(Terms { year, growth })
    }

    pub fn year(self) -> u32
        ensures is_year { result ≡ self.year }
        ensures at_most_ten { result ≤ 10 }
    {
        self.year
    }

    // Per mille.
    pub fn growth(self) -> u32
        ensures is_growth { result ≡ self.growth }
        ensures at_most_a_fifth { result ≤ 200 }
    {
        self.growth
    }
}
