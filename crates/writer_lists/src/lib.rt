#![tactic(auto)]
// The lists of the journal, each walked from its last record. A handle is a record's place with one added, 0 for none.
// Kept: the journal's words with a record's place or handle, 0 for none: a view of a record would be made anew for each record.
// Kept: the output's words with the row that is reached: it is counted down, and the next list ends there.
pub mod rows;

ghost use Rattle.std.specs.Prelude.{◌≡◌, ◌+◌, ◌*◌, ◌<◌, ◌≤◌, length};
ghost use Rattle.sheet_rows.specs.Rows.{front};
ghost use Rattle.journal_records.specs.Records.{cell};
ghost use Rattle.journal_records.specs.Lists.{HandleBelow};
ghost use Rattle.writer_lists.specs.declared.Kind.TheVariants.{Fields, Interfaces, Statements, Routes, Associations};
ghost use Rattle.writer_lists.specs.Writing.{most, RowsFit, Wrote};
ghost use Rattle.writer_lists.specs.Lists.{id_rows, record_rows, list_rows, ids_handle, ListAt};

use journal_records;
use journal_records::list::{below, records};
use journal_records::words;
use sheet_rows::codes;
use sheet_rows::row::Row;

// Kept: a kind of list is handed on to `ids_of` and `head`, which are tables over it, as in specs/Lists: a match is their plain
// form, and closures for the two would be handed on together.
#[derive(Clone, Copy, Debug, PartialEq, Eq)]
pub enum Kind {
    Fields,
    Interfaces,
    Statements,
    Order,
    Roots,
    Routes,
    Associations,
}

pub fn count_ids(work: &[u32], h: usize) -> usize
    requires h_in_bounds { h * 12 ≤ length work.now }
    requires h_len_bound { length (id_rows work.now h) ≤ most }
    ensures { result ≡ length (id_rows work.now h) }
{
    records(work, h).count()
}

fn ids(work: &[u32], h: usize, out: &mut [u32], end: usize) -> usize
    requires h_in_bounds { h * 12 ≤ length work.now }
    requires rows_fit { RowsFit (id_rows work.now h) out.old end }
    ensures { Wrote (id_rows work.now h) out.old out.new end result }
{
    let mut p = end;
    for r in records(work, h) {
        p = rows::back(
            out,
            p,
            rows::line(
                codes::kind::ID,
                journal_records::word(work, r, words::id::ID),
                0,
                0,
                0,
                0,
                0,
                0,
            ),
        );
    }
    p
}

fn interface_ids(work: &[u32], r: usize) -> usize
    requires { r * 12 + 12 ≤ length work.now }
    ensures { HandleBelow (ids_handle Interfaces work.now r) r result }
{
    if journal_records::word(work, r, words::value::CLASS) == codes::class::NODES {
        return below(journal_records::word(work, r, words::value::PAYLOAD), r);
    }
    0
}

fn field_ids(work: &[u32], r: usize) -> usize
    requires { r * 12 + 12 ≤ length work.now }
    ensures { HandleBelow (ids_handle Fields work.now r) r result }
{
    if journal_records::word(work, r, words::field::IS) == codes::field::IS {
        return 0;
    }
    interface_ids(work, r)
}

// The handle of the ids that a record of such a list has.
#[tactic(auto, unfolding(crate::specs::Lists::ids_handle))]
fn ids_of(work: &[u32], kind: Kind, r: usize) -> usize
    requires { r * 12 + 12 ≤ length work.now }
    ensures { HandleBelow (ids_handle kind work.now r) r result }
{
    match kind {
        Kind::Fields => field_ids(work, r),
        Kind::Interfaces => interface_ids(work, r),
        Kind::Statements | Kind::Order | Kind::Roots | Kind::Routes | Kind::Associations => 0,
    }
}

fn field(work: &[u32], r: usize, n: u32) -> Row
    requires r_in_bounds { r * 12 + 12 ≤ length work.now }
    requires n_value { n ≡ length (id_rows work.now (ids_handle Fields work.now r)) }
    ensures { result ≡ front (record_rows Fields work.now r) }
{
    let name = journal_records::word(work, r, words::field::NAME);
    let inferred = journal_records::word(work, r, words::field::INFERRED);
    if journal_records::word(work, r, words::field::IS) == codes::field::IS {
        return rows::line(
            codes::kind::FIELD,
            name,
            codes::field::IS,
            journal_records::word(work, r, words::field::TARGET),
            inferred,
            0,
            0,
            0,
        );
    }
    let tag = journal_records::word(work, r, words::value::TYPE);
    if journal_records::word(work, r, words::value::CLASS) == codes::class::NODES {
        return rows::line(
            codes::kind::FIELD,
            name,
            codes::field::VALUE,
            0,
            inferred,
            tag,
            codes::class::NODES,
            n,
        );
    }
    rows::line(
        codes::kind::FIELD,
        name,
        codes::field::VALUE,
        0,
        inferred,
        tag,
        codes::class::PAYLOAD,
        journal_records::word(work, r, words::value::PAYLOAD),
    )
}

fn interface(work: &[u32], r: usize, n: u32) -> Row
    requires r_in_bounds { r * 12 + 12 ≤ length work.now }
    requires n_value { n ≡ length (id_rows work.now (ids_handle Interfaces work.now r)) }
    ensures { result ≡ front (record_rows Interfaces work.now r) }
{
    let access = journal_records::word(work, r, words::interface::ACCESS);
    let of = journal_records::word(work, r, words::interface::DECLARED);
    let name = journal_records::word(work, r, words::interface::NAME);
    let is = journal_records::word(work, r, words::interface::TARGET);
    let tag = journal_records::word(work, r, words::value::TYPE);
    let class = journal_records::word(work, r, words::value::CLASS);
    if class == codes::class::NONE {
        return rows::line(
            codes::kind::INTERFACE,
            access,
            of,
            name,
            is,
            0,
            codes::class::NONE,
            0,
        );
    }
    if class == codes::class::NODES {
        return rows::line(
            codes::kind::INTERFACE,
            access,
            of,
            name,
            is,
            tag,
            codes::class::NODES,
            n,
        );
    }
    rows::line(
        codes::kind::INTERFACE,
        access,
        of,
        name,
        is,
        tag,
        codes::class::PAYLOAD,
        journal_records::word(work, r, words::value::PAYLOAD),
    )
}

fn statement(work: &[u32], r: usize) -> Row
    requires { r * 12 + 12 ≤ length work.now }
    ensures { result ≡ front (record_rows Statements work.now r) }
{
    let a = journal_records::word(work, r, words::statement::KIND);
    let b = journal_records::word(work, r, words::statement::ID);
    if a == codes::statement::ROUTE {
        let c = journal_records::word(work, r, words::route::FROM_FIELD);
        let d = journal_records::word(work, r, words::route::TO_NODE);
        let e = journal_records::word(work, r, words::route::TO_FIELD);
        return rows::line(
            codes::kind::STATEMENT,
            codes::statement::ROUTE,
            b,
            c,
            d,
            e,
            journal_records::word(work, r, words::route::FROM),
            journal_records::word(work, r, words::route::TO),
        );
    }
    rows::line(
        codes::kind::STATEMENT,
        a.min(codes::statement::OTHER),
        b,
        0,
        0,
        0,
        0,
        0,
    )
}

fn route(work: &[u32], r: usize) -> Row
    requires { r * 12 + 12 ≤ length work.now }
    ensures { result ≡ front (record_rows Routes work.now r) }
{
    let b = journal_records::word(work, r, words::route::FROM_NODE);
    let c = journal_records::word(work, r, words::route::FROM_FIELD);
    let d = journal_records::word(work, r, words::route::TO_NODE);
    let e = journal_records::word(work, r, words::route::TO_FIELD);
    rows::line(
        codes::kind::STATEMENT,
        codes::statement::ROUTE,
        b,
        c,
        d,
        e,
        journal_records::word(work, r, words::route::REMAPPED_FROM),
        journal_records::word(work, r, words::route::REMAPPED_TO),
    )
}

fn association(work: &[u32], r: usize) -> Row
    requires { r * 12 + 12 ≤ length work.now }
    ensures { result ≡ front (record_rows Associations work.now r) }
{
    let a = journal_records::word(work, r, words::association::INTERFACE);
    let b = journal_records::word(work, r, words::association::NODE);
    rows::line(
        codes::kind::ASSOCIATION,
        a,
        b,
        journal_records::word(work, r, words::association::FIELD),
        0,
        0,
        0,
        0,
    )
}

// The first row of a record of such a list, which has `n` ids.
fn head(work: &[u32], kind: Kind, r: usize, n: u32) -> Row
    requires r_in_bounds { r * 12 + 12 ≤ length work.now }
    requires n_value { n ≡ length (id_rows work.now (ids_handle kind work.now r)) }
    ensures { result ≡ front (record_rows kind work.now r) }
{
    match kind {
        Kind::Fields => field(work, r, n),
        Kind::Interfaces => interface(work, r, n),
        Kind::Statements => statement(work, r),
        Kind::Order => rows::line(
            codes::kind::ORDER,
            journal_records::word(work, r, words::order::MARK).min(codes::mark::STATEMENT),
            0,
            0,
            0,
            0,
            0,
            0,
        ),
        Kind::Roots => rows::line(
            codes::kind::ID,
            journal_records::word(work, r, words::root::NODE),
            0,
            0,
            0,
            0,
            0,
            0,
        ),
        Kind::Routes => route(work, r),
        Kind::Associations => association(work, r),
    }
}

pub fn count_list(work: &[u32], kind: Kind, h: usize) -> usize
    requires h_in_bounds { h * 12 ≤ length work.now }
    requires h_len_bound { length (list_rows kind work.now h) ≤ most }
    ensures { result ≡ length (list_rows kind work.now h) }
{
    let mut n = 0;
    for r in records(work, h) {
        n += 1 + count_ids(work, ids_of(work, kind, r));
    }
    n
}

fn item(work: &[u32], kind: Kind, r: usize, out: &mut [u32], end: usize) -> usize
    requires r_in_bounds { r * 12 + 12 ≤ length work.now }
    requires rows_fit { RowsFit (record_rows kind work.now r) out.old end }
    ensures { Wrote (record_rows kind work.now r) out.old out.new end result }
{
    let q = ids(work, ids_of(work, kind, r), out, end);
    rows::back(out, q, head(work, kind, r, (end - q) as u32))
}

pub fn list(work: &[u32], kind: Kind, h: usize, out: &mut [u32], end: usize) -> usize
    requires h_in_bounds { h * 12 ≤ length work.now }
    requires rows_fit { RowsFit (list_rows kind work.now h) out.old end }
    ensures { Wrote (list_rows kind work.now h) out.old out.new end result }
{
    let mut p = end;
    for r in records(work, h) {
        p = item(work, kind, r, out, p);
    }
    p
}

// The list whose handle is word `j` of record `r`.
pub fn list_at(work: &[u32], kind: Kind, r: usize, j: usize, out: &mut [u32], end: usize) -> usize
    requires list_at { ListAt work.now r j }
    requires rows_fit { RowsFit (list_rows kind work.now (cell work.now r j)) out.old end }
    ensures { Wrote (list_rows kind work.now (cell work.now r j)) out.old out.new end result }
{
    list(work, kind, handle(work, r, j), out, end)
}

pub fn count_at(work: &[u32], kind: Kind, r: usize, j: usize) -> usize
    requires list_at { ListAt work.now r j }
    requires j_len_bound { length (list_rows kind work.now (cell work.now r j)) ≤ most }
    ensures { result ≡ length (list_rows kind work.now (cell work.now r j)) }
{
    count_list(work, kind, handle(work, r, j))
}

pub fn handle(work: &[u32], r: usize, j: usize) -> usize
    requires { (r * 12 + 12 ≤ length work.now) × (j < 12) }
    ensures { result ≡ cell work.now r j }
{
    journal_records::word(work, r, j) as usize
}
