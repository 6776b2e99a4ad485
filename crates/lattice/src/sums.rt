//! Sums over the parties of rows of shares modulo q: of all, of all but one, and the one that is found by subtraction.
ghost use Rattle.std.specs.Prelude.{◌≡◌, ℕ, ◌+◌, ◌*◌, ◌<◌, map, length};
ghost use Rattle.std.specs.List.{range_with_len};
ghost use Rattle.protocol.specs.Group.{total, others, completed};
ghost use Rattle.protocol.specs.Parameters.{modulus};
ghost use Rattle.protocol.specs.Residues.{modular};
ghost use Rattle.lattice.specs.Lines.{at};
ghost use Rattle.lattice.specs.Sums.{without};
ghost use Rattle.protocol.specs.Sets.{number};

use protocol::set::Set;

/// Adds a row to a sum, entry by entry, modulo q.
pub fn add_row(set: Set, sum: &mut [u16], row: &[u16])
    requires { length row.now ≡ length sum.old }
    ensures { sum.new ≡ map (λ k. (modular (modulus (number set))).add (at sum.old k) (at row.now k)) (range_with_len 0 (length sum.old)) }
{
    for (k, entry) in sum.iter_mut().enumerate() {
        *entry = entry.wrapping_add(row[k]) & set.mask();
    }
}

/// What is left of a whole without a part, entry by entry, modulo q, in place of the part.
pub fn subtract_from(set: Set, whole: &[u16], part: &mut [u16])
    requires { length whole.now ≡ length part.old }
    ensures { part.new ≡ map (λ k. (modular (modulus (number set))).sub (at whole.now k) (at part.old k)) (range_with_len 0 (length part.old)) }
{
    for (k, entry) in part.iter_mut().enumerate() {
        *entry = whole[k].wrapping_sub(*entry) & set.mask();
    }
}

/// The rows of all parties, one after the other, and the set whose modulus they are summed by.
#[derive(Clone, Copy)]
pub struct Rows<'a> {
    pub set: Set,
    pub parties: usize,
    /// How many entries a row has.
    pub width: usize,
    pub rows: &'a [u16],
    ghost whole: { length rows.now ≡ parties * width },
}

impl Rows<'_> {
    /// The row of party j.
    fn row(&self, j: usize) -> &[u16]
        requires { j < self.now.parties }
        ensures long { length result.now ≡ self.now.width }
        ensures each { (k : ℕ) → k < self.now.width → at result.now k ≡ at self.now.rows.now (j * self.now.width + k) }
    {
        &self.rows[j * self.width..j * self.width + self.width]
    }

    /// The sum of the rows of all parties but the one that is left out, if there is one.
    fn sum_without(&self, left_out: Option<usize>, sum: &mut [u16])
        requires { length sum.old ≡ self.now.width }
        ensures { sum.new ≡ map (λ k. without (modular (modulus (number self.now.set))) self.now.parties left_out (λ j. at self.now.rows.now (j * self.now.width + k))) (range_with_len 0 self.now.width) }
    {
        sum.fill(0);
        // No `chunks_exact` over the rows: their width may be 0.
        for j in 0..self.parties {
            let counts = left_out != Some(j);
            if counts {
                add_row(self.set, sum, self.row(j));
            }
        }
    }

    /// The sum of the rows of all parties but one.
    pub fn sum_others(&self, left_out: usize, sum: &mut [u16])
        requires { length sum.old ≡ self.now.width }
        ensures { sum.new ≡ map (λ k. others (modular (modulus (number self.now.set))) self.now.parties left_out (λ j. at self.now.rows.now (j * self.now.width + k))) (range_with_len 0 self.now.width) }
    {
        self.sum_without(Some(left_out), sum);
    }

    /// The sum of the rows of all parties.
    pub fn sum_all(&self, sum: &mut [u16])
        requires { length sum.old ≡ self.now.width }
        ensures { sum.new ≡ map (λ k. total (modular (modulus (number self.now.set))) self.now.parties (λ j. at self.now.rows.now (j * self.now.width + k))) (range_with_len 0 self.now.width) }
    {
        self.sum_without(None, sum);
    }

    /// The row of one party, found by subtraction of the others' rows from the row of the whole; what stands in its own place is not
    /// read.
    pub fn complete(&self, party: usize, whole: &[u16], found: &mut [u16])
        requires room { length found.old ≡ self.now.width }
        requires whole { length whole.now ≡ self.now.width }
        ensures { found.new ≡ map (λ k. completed (modular (modulus (number self.now.set))) self.now.parties party (at whole.now k) (λ j. at self.now.rows.now (j * self.now.width + k)) party) (range_with_len 0 self.now.width) }
    {
        self.sum_others(party, found);
        subtract_from(self.set, whole, found);
    }
}
