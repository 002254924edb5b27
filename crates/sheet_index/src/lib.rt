#![tactic(auto)]
// An index of a part: a table of rows in lent words, so that a lookup walks at most from one slot to the next.
// Kept: in `index` what is indexed stands beside the slots: a `PartIndex` holds filled slots only.
ghost use Rattle.std.specs.Prelude.{◌*◌, ◌<◌, ◌≤◌, length};
ghost use Rattle.sheet_rows.specs.Rows.{rows};
ghost use Rattle.sheet_walks.specs.Walk.{Nth};
ghost use Rattle.sheet_index.specs.Index.{Filled, Indexed};
ghost use Rattle.sheet_index.specs.Once.{Filled-prop};

use sheet_rows::part::Part;
use sheet_walks::walk;
use sheet_walks::walk::Found;

// The elements of a part of a sheet from a row on, with the filled slots: slot j holds the row of the (j * stride)-th.
#[derive(Clone, Copy)]
pub struct PartIndex<'a> {
    pub sheet: &'a [u32],
    pub part: Part,
    pub from: usize,
    pub stride: u32,
    pub slots: &'a [u32],
    pub ghost filled: { Filled part (rows sheet.now) from stride slots.now (length slots.now) } by { Filled-prop part (rows sheet.now) from stride slots.now (length slots.now) },
}

// Fills slot j with the row of the (j * stride)-th element from a row on, while there are slots; how many it filled.
pub fn index(sheet: &[u32], part: Part, from: usize, stride: u32, slots: &mut [u32]) -> usize
    ensures { Indexed part (rows sheet.now) from stride slots.old slots.new result }
{
    let mut next = walk::seek(sheet, part, from);
    for (n, slot) in slots.iter_mut().enumerate() {
        let Found::At(q) = next else {
            return n;
        };
        let Ok(row) = u32::try_from(q) else {
            return n;
        };
        *slot = row;
        let Some(passed) = stride.checked_sub(1) else {
            return n + 1;
        };
        next = walk::nth(sheet, part, q + 1, passed);
    }
    slots.len()
}

impl PartIndex<'_> {
    // The last slot whose element is not after the n-th.
    fn slot_of(&self, n: u32) -> usize
        requires { (0 < self.now.stride) × (0 < length self.now.slots.now) }
        ensures { (result < length self.now.slots.now) × (result * self.now.stride ≤ n) × (result ≤ n) }
    {
        ((n / self.stride) as usize).min(self.slots.len() - 1)
    }

    // The n-th element, from the last slot before it.
    fn from_slot(&self, n: u32) -> Found
        ensures { Nth self.now.part (rows self.now.sheet.now) self.now.from n result }
    {
        if self.slots.is_empty() || self.stride == 0 {
            return walk::nth(self.sheet, self.part, self.from, n);
        }
        let j = self.slot_of(n);
        let left = n - j as u32 * self.stride;
        walk::nth(self.sheet, self.part, self.slots[j] as usize, left)
    }

    // The n-th element, by an index of any size. An index of every element answers without a walk.
    pub fn find(&self, n: u32) -> Found
        ensures { Nth self.now.part (rows self.now.sheet.now) self.now.from n result }
    {
        if self.stride == 1 {
            if let Some(row) = self.slots.get(n as usize) {
                return Found::At(*row as usize);
            }
        }
        self.from_slot(n)
    }
}
