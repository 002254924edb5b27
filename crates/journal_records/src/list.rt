// The records of a list, from its last to its first. A handle is a record's place with one added, 0 for none.
// Kept: a handle is a number and no Option: it is a word of a record, and who reads or writes it would convert it at each use.
ghost use Rattle.std.specs.Prelude.{◌≡◌, ◌+◌, ◌*◌, ◌≤◌, length};
ghost use Rattle.std.specs.Iterator.{at_most};
ghost use Rattle.journal_records.specs.Records.{cell};
ghost use Rattle.journal_records.specs.Lists.{clip, HandleBelow, Steps};

use crate::words;

// A handle of a record below a place, else none.
pub fn below(h: u32, top: usize) -> usize
    ensures { HandleBelow (clip top h) top result }
{
    let x = h as usize;
    if x <= top { x } else { 0 }
}

// The handle of what stands before record `r` in its list.
pub fn before(work: &[u32], r: usize) -> usize
    requires { r * 12 + 12 ≤ length work.now }
    ensures { HandleBelow (clip r (cell work.now r 8)) r result }
{
    below(crate::word(work, r, words::BEFORE), r)
}

// The records from that of a handle back to the first of its list.
#[derive(Drop)]
pub struct ListRecords<'a> {
    pub work: &'a [u32],
    pub next: usize,
    pub ghost room: { next * 12 ≤ length work.now },
}

pub fn records(work: &[u32], handle: usize) -> ListRecords<'_>
    requires { handle * 12 ≤ length work.now }
    ensures work { result.work.now ≡ work.now }
    ensures next { result.next ≡ handle }
{
    ListRecords { work, next: handle }
}

impl<'a> Iterator for ListRecords<'a> {
    type Item = usize;

    ghost next_gives = { λ s r t. Steps s.work.now s.next r t.work.now t.next };

    ghost remaining = { λ s. at_most s.next };

    fn next(&mut self) -> Option<usize> {
        if self.next == 0 {
            return None;
        }
        let r = self.next - 1;
        self.next = before(self.work, r);
        Some(r)
    }
}
