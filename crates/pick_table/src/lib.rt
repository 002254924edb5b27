#![tactic(auto)]
// Picks (document 01, Modules: Picks; document 02, wish 12): what the urls of an extern lead to, and the table of bases.
pub mod table;

ghost use Rattle.std.specs.Prelude.{◌≡◌, ◌<◌};
ghost use Rattle.sheet_rows.specs.Rows.{rows};
ghost use Rattle.pick_file.specs.File.{Capped, option_of};
ghost use Rattle.pick_table.specs.Table.{TableSound};
ghost use Rattle.pick_memo.specs.Memo.{MemoSound};
ghost use Rattle.pick_table.specs.Chosen.{Leads, Scratch, Placed, UrlTried, UrlsTried, NoExtern, Tried, FileTried, Final};

use ast::ProtoId;
use pick_memo::Memo;
use sheet_rows::part::Part;
use sheet_rows::row;
use sheet_walks::walk;
use table::{Source, Table};

// The picked document's number and the PROTO's id in it.
#[derive(Clone, Copy, Debug, PartialEq, Eq)]
pub struct Chosen {
    pub document: u32,
    pub id: ProtoId,
}

// What a url leads to, by the file of its base, which has a place in the table of bases. Another place would give the same.
pub fn pick_from(
    library: &[u32],
    source: Option<Source>,
    place: usize,
    fragment: Option<u32>,
    memo: &mut Memo,
    slots: &mut [u32],
) -> Option<Chosen>
    requires { Capped library.now × MemoSound (rows library.now) slots.old memo.old }
    ensures { Leads (rows library.now) source (option_of fragment) result × MemoSound (rows library.now) slots.new memo.new }
{
    let file = source?;
    let top = memo.pick_in(library, file.row, place, fragment, slots)?;
    Some(Chosen {
        document: file.number,
        id: top.id,
    })
}

// The walk over the externs for the bases of their urls: what a url is looked up by, and the table of the bases so far. The
// library's files are listed by their rows, or not at all; the words are the memo's.
#[derive(Drop)]
struct Walk<'a> {
    library: &'a [u32],
    files: &'a [u32],
    memo: Memo,
    slots: &'a mut [u32],
    table: Table,
}

impl Walk<'_> {
    // Where a base stands in the table, which it comes into if it is new and there is a place for it.
    fn place_of(&mut self, base: u32) -> Option<usize>
        requires { TableSound (rows self.old.library.now) self.old.table × Scratch self.old.library.now self.old.files.now self.old.slots.now self.old.memo }
        ensures { Placed (rows self.old.library.now) base self.old.table self.new.table result × Scratch self.old.library.now self.new.files.now self.new.slots.now self.new.memo × (self.new.library.now ≡ self.old.library.now) }
    {
        let known = table::position(&self.table.bases[..self.table.count], base);
        if let Some(j) = known {
            return Some(j);
        }
        let place = self.table.count;
        if place < 64 {
            let source = table::library_file(self.library, self.files, base);
            self.table.add(base, source);
            return Some(place);
        }
        None
    }

    // Tries a url; whether it leads to a prototype.
    fn try_url(&mut self, base: u32, fragment: Option<u32>) -> bool
        requires { TableSound (rows self.old.library.now) self.old.table × Scratch self.old.library.now self.old.files.now self.old.slots.now self.old.memo }
        ensures { UrlTried (rows self.old.library.now) base (option_of fragment) self.old.table self.new.table result × Scratch self.old.library.now self.new.files.now self.new.slots.now self.new.memo × (self.new.library.now ≡ self.old.library.now) }
    {
        let Some(j) = self.place_of(base) else {
            return false;
        };
        let source = self.table.files[j];
        let led = pick_from(
            self.library,
            source,
            j,
            fragment,
            &mut self.memo,
            self.slots,
        );
        led.is_some()
    }

    // Tries the urls of an extern, in order, up to its pick. Gives the row behind the last that was tried, from which the next
    // extern is sought.
    fn try_urls(&mut self, sheet: &[u32], at: usize) -> usize
        requires { TableSound (rows self.old.library.now) self.old.table × Scratch self.old.library.now self.old.files.now self.old.slots.now self.old.memo }
        ensures { UrlsTried (rows sheet.now) at (rows self.old.library.now) self.old.table self.new.table × Scratch self.old.library.now self.new.files.now self.new.slots.now self.new.memo × (self.new.library.now ≡ self.old.library.now) × NoExtern (rows sheet.now) at result }
    {
        let mut behind = at;
        for q in walk::elements(sheet, Part::Urls, at) {
            let r = row::row_at(sheet, q);
            behind = q + 1;
            if self.try_url(r.a, pick_file::optional(r.b)) {
                break;
            }
        }
        behind
    }

    // Tries the urls of the externs of the document that begins at a row of a sheet.
    fn gather(&mut self, sheet: &[u32], document: usize)
        requires { TableSound (rows self.old.library.now) self.old.table × Scratch self.old.library.now self.old.files.now self.old.slots.now self.old.memo }
        ensures { Tried (rows sheet.now) document (rows self.old.library.now) self.old.table self.new.table × Scratch self.old.library.now self.new.files.now self.new.slots.now self.new.memo × (self.new.library.now ≡ self.old.library.now) }
    {
        if sheet.len() / 8 <= document {
            return;
        }
        let mut externs = walk::elements(sheet, Part::Externs, document + 1);
        // Kept: the next extern is sought behind the urls that were tried; a `for` over the externs would read these again.
        while let Some(q) = externs.next() {
            externs.next = self.try_urls(sheet, q + 1);
        }
    }

    // The same of the file of the k-th base, if it has one.
    fn fetch(&mut self, k: usize)
        requires { (k < self.old.table.count) × TableSound (rows self.old.library.now) self.old.table × Scratch self.old.library.now self.old.files.now self.old.slots.now self.old.memo }
        ensures { FileTried (rows self.old.library.now) k self.old.table self.new.table × Scratch self.old.library.now self.new.files.now self.new.slots.now self.new.memo × (self.new.library.now ≡ self.old.library.now) }
    {
        let Some(file) = self.table.files[k] else {
            return;
        };
        let library = self.library;
        self.gather(library, file.row);
    }
}

// The table once the urls of every extern were tried: those of the root, then those of each fetched file, in the order in which
// the files' bases came into the table.
pub fn bases_of(root: &[u32], library: &[u32], slots: &mut [u32]) -> Table
    requires { Capped library.now }
    ensures { Final (rows root.now) (rows library.now) result }
{
    let from = slots.len() / 2;
    let (slots, list) = slots.split_at_mut(from);
    let many = table::list(library, list);
    let memo = Memo::fresh(slots);
    let mut walk = Walk {
        library,
        files: &list[..many],
        memo,
        slots,
        table: Table::new(),
    };
    walk.gather(root, 0);
    let mut k = 0;
    // Kept: what is fetched adds bases to the table that the loop goes through.
    while k < walk.table.count {
        walk.fetch(k);
        k += 1;
    }
    walk.table
}
