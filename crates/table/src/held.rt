// An accepted table as the code has it. A module of its own: what the struct's invariant cites is brought in here.
ghost use Rattle.std.specs.Prelude.{◌≡◌, ◌<◌, ◌≤◌, [], ◌∷◌, ◌++◌, length};
ghost use Rattle.circuit.specs.Counting.{◌⊕◌, the_first};
ghost use Rattle.counting.specs.Bounds.{Below};

use circuit::Counts;
use sheet::{Fields, Kind, MISSING, Passed, Record};
use std::marker::Model;

// What stands in the places that no row has taken.
const NO_ROW: Fields = Fields {
    kind: Kind::BooleanConstant,
    p: 0,
    x: 0,
    y: 0,
    z: 0,
};

// Variable 1 and its unit.
const THE_FIRST: Counts = Counts {
    unknowns: 0,
    variables: 1,
    clauses: 1,
    slots: 2,
};

// The paper's sheet: the rows of an accepted table, their records, and what it counts. At most 256 rows, in fixed places: nothing is
// allocated. During the walk it holds the rows so far.
#[derive(Clone, Copy)]
pub struct Sheet {
    count: usize,
    rows: [Fields; 256],
    records: [Record; 256],
    counts: Counts,
}

impl Model for Sheet {
    ghost use Rattle.sheet.specs.Acceptance.{Sheet};

    ghost Value = { Sheet };

    ghost use Rattle.table.specs.Held.{held, in_places, IsHeld, back};

    ghost view = { held };

    ghost invariant = { IsHeld };

    ghost inverse = { in_places };

    ghost inverse_ok = { back };
}

impl Sheet {
    // Before the first row.
    pub fn start() -> Self
        ensures { result ≡ record { rows = []; records = []; counts = the_first } }
    {
        Sheet {
            count: 0,
            rows: [NO_ROW; 256],
            records: [MISSING; 256],
            counts: THE_FIRST,
        }
    }

    // One row more: what it says, its record, and what it counts.
    pub(crate) fn push(&mut self, f: Fields, passed: Passed)
        requires room { length self.old.rows < 256 }
        requires few { Below 100000000 self.old.counts }
        requires few_more { Below 170000 passed.counts }
        ensures rows { self.new.rows ≡ self.old.rows ++ f ∷ [] }
        ensures records { self.new.records ≡ self.old.records ++ passed.row ∷ [] }
        ensures counts { self.new.counts ≡ self.old.counts ⊕ passed.counts }
    {
        self.rows[self.count] = f;
        self.records[self.count] = passed.row;
        self.count += 1;
        self.count_more(passed.counts);
    }

    // So much more is counted.
    pub(crate) fn count_more(&mut self, more: Counts)
        requires few { Below 100000000 self.old.counts }
        requires few_more { Below 170000 more }
        ensures rows { self.new.rows ≡ self.old.rows }
        ensures records { self.new.records ≡ self.old.records }
        ensures counts { self.new.counts ≡ self.old.counts ⊕ more }
    {
        self.counts = counting::plus(self.counts, more);
    }

    // What the rows say, one after the other.
    pub fn rows(&self) -> &[Fields]
        ensures rows { result.now ≡ self.now.rows }
        ensures few { length self.now.rows ≤ 256 }
    {
        &self.rows[..self.count]
    }

    // Their records.
    pub fn records(&self) -> &[Record]
        ensures records { result.now ≡ self.now.records }
        ensures one_a_row { length self.now.records ≡ length self.now.rows }
    {
        &self.records[..self.count]
    }

    // What the table counts, both units included.
    pub fn counts(&self) -> Counts
        ensures { result ≡ self.now.counts }
    {
        self.counts
    }
}
