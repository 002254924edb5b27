#![tactic(auto)]
// The nodes of the journal, with their instances.
// Kept: the journal's words with a record's place, and the output's with the row that is reached, as in `writer_lists`.
ghost use Rattle.std.specs.Prelude.{◌≡◌, ◌+◌, ◌*◌, ◌<◌, ◌≤◌, length};
ghost use Rattle.sheet_rows.specs.Rows.{front};
ghost use Rattle.sheet_rows.specs.Print.{node_rows, any_instance_rows};
ghost use Rattle.journal_records.specs.Records.{tag_instance};
ghost use Rattle.journal_reading.specs.Reading.{node_rec, instance_at};
ghost use Rattle.journal_reading.specs.WellFormed.{HandleAt};
ghost use Rattle.writer_lists.specs.Writing.{most, RowsFit, Wrote};
ghost use Rattle.writer_nodes.specs.Instances.{Legible, NodeIn, own_word, nested_rows};

use journal_records;
use journal_records::list::{before, records};
use journal_records::words;
use sheet_rows::codes;
use sheet_rows::row::Row;
use writer_lists;
use writer_lists::{Kind, rows};

// Kept: a match with `_`: extra roots and routes alone are asked for, and the definition gives all others the word of the routes.
fn own_word(kind: Kind) -> usize
    ensures { result ≡ own_word kind }
{
    match kind {
        Kind::Roots => words::instance::ROOTS,
        _ => words::instance::ROUTES,
    }
}

// Extra roots or routes of an instance and of those nested in it.
fn count_nested(work: &[u32], c: usize, kind: Kind, h: usize) -> usize
    requires legible { Legible work.now c }
    requires handle_at { HandleAt work.now c tag_instance h }
    requires h_len_bound { length (nested_rows kind work.now h) ≤ most }
    ensures { result ≡ length (nested_rows kind work.now h) }
{
    let j = own_word(kind);
    let mut n = 0;
    for r in records(work, h) {
        n += writer_lists::count_at(work, kind, r, j);
    }
    n
}

// The outer's come first, so they are written last.
fn nested(work: &[u32], c: usize, kind: Kind, h: usize, out: &mut [u32], end: usize) -> usize
    requires legible { Legible work.now c }
    requires handle_at { HandleAt work.now c tag_instance h }
    requires rows_fit { RowsFit (nested_rows kind work.now h) out.old end }
    ensures { Wrote (nested_rows kind work.now h) out.old out.new end result }
{
    if h == 0 {
        return end;
    }
    let r = h - 1;
    let p = nested(work, c, kind, before(work, r), out, end);
    writer_lists::list_at(work, kind, r, own_word(kind), out, p)
}

fn count_instance(work: &[u32], c: usize, h: usize) -> usize
    requires legible { Legible work.now c }
    requires handle_at { HandleAt work.now c tag_instance h }
    requires h_len_bound { length (any_instance_rows (instance_at work.now h)) ≤ most }
    ensures { result ≡ length (any_instance_rows (instance_at work.now h)) }
{
    if h == 0 {
        return 0;
    }
    let a = writer_lists::count_at(
        work,
        Kind::Associations,
        h - 1,
        words::instance::ASSOCIATIONS,
    );
    let b = count_nested(work, c, Kind::Routes, h);
    1 + count_nested(work, c, Kind::Roots, h) + b + a
}

// Name and associations are the outermost's.
fn instance(work: &[u32], c: usize, h: usize, out: &mut [u32], end: usize) -> usize
    requires legible { Legible work.now c }
    requires handle_at { HandleAt work.now c tag_instance h }
    requires rows_fit { RowsFit (any_instance_rows (instance_at work.now h)) out.old end }
    ensures { Wrote (any_instance_rows (instance_at work.now h)) out.old out.new end result }
{
    if h == 0 {
        return end;
    }
    let r = h - 1;
    let a = writer_lists::list_at(
        work,
        Kind::Associations,
        r,
        words::instance::ASSOCIATIONS,
        out,
        end,
    );
    let b = nested(work, c, Kind::Routes, h, out, a);
    let d = nested(work, c, Kind::Roots, h, out, b);
    let name = journal_records::word(work, r, words::instance::NAME);
    let first = rows::line(
        codes::kind::INSTANCE,
        name,
        (b - d) as u32,
        (a - b) as u32,
        (end - a) as u32,
        0,
        0,
        0,
    );
    rows::back(out, d, first)
}

fn first(work: &[u32], r: usize) -> Row
    requires { r * 12 + 12 ≤ length work.now }
    ensures { result ≡ front (node_rows (node_rec work.now r)) }
{
    let of = journal_records::word(work, r, words::node::TYPE);
    let name = journal_records::word(work, r, words::node::DEF);
    let origin = journal_records::word(work, r, words::node::ORIGIN);
    if origin == codes::origin::BUILTIN {
        return rows::line(
            codes::kind::NODE,
            of,
            name,
            codes::origin::BUILTIN,
            0,
            0,
            0,
            0,
        );
    }
    if origin < codes::origin::UNKNOWN {
        return rows::line(
            codes::kind::NODE,
            of,
            name,
            origin,
            journal_records::word(work, r, words::node::ID),
            0,
            0,
            0,
        );
    }
    rows::line(
        codes::kind::NODE,
        of,
        name,
        codes::origin::UNKNOWN,
        0,
        0,
        0,
        0,
    )
}

// The rows of node `r`.
pub fn count_node(work: &[u32], c: usize, r: usize) -> usize
    requires node_in { NodeIn work.now c r }
    requires r_len_bound { length (node_rows (node_rec work.now r)) ≤ most }
    ensures { result ≡ length (node_rows (node_rec work.now r)) }
{
    let a = count_instance(
        work,
        c,
        writer_lists::handle(work, r, words::node::INSTANCE),
    );
    let b = writer_lists::count_at(work, Kind::Order, r, words::node::ORDER);
    let d = writer_lists::count_at(work, Kind::Statements, r, words::node::STATEMENTS);
    let e = writer_lists::count_at(work, Kind::Interfaces, r, words::node::INTERFACES);
    1 + writer_lists::count_at(work, Kind::Fields, r, words::node::FIELDS) + e + d + b + a
}

pub fn node(work: &[u32], c: usize, r: usize, out: &mut [u32], end: usize) -> usize
    requires node_in { NodeIn work.now c r }
    requires rows_fit { RowsFit (node_rows (node_rec work.now r)) out.old end }
    ensures { Wrote (node_rows (node_rec work.now r)) out.old out.new end result }
{
    let a = instance(
        work,
        c,
        writer_lists::handle(work, r, words::node::INSTANCE),
        out,
        end,
    );
    let b = writer_lists::list_at(work, Kind::Order, r, words::node::ORDER, out, a);
    let d = writer_lists::list_at(work, Kind::Statements, r, words::node::STATEMENTS, out, b);
    let e = writer_lists::list_at(work, Kind::Interfaces, r, words::node::INTERFACES, out, d);
    let f = writer_lists::list_at(work, Kind::Fields, r, words::node::FIELDS, out, e);
    rows::back(out, f, first(work, r))
}
