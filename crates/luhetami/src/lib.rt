#![tactic(auto)]
// What C calls (include/luhetami.h). A slice is a pointer and a length; the result is the refusal, 0 where accepted, but for
// luhetami_check. Each operation's own crate has what it does and its wrong programs; here stand the names and the promises.
ghost use Rattle.std.specs.Prelude.{◌≡◌, length};
ghost use Rattle.words_answer.specs.Answer.{exported};
ghost use Rattle.moving_definition.specs.Moving.{moved, said_of};
ghost use Rattle.pages_definition.specs.Pages.{paged, said_paged};
ghost use Rattle.count_sheet.specs.Sheet.{counted_sheet, said_counted};
ghost use Rattle.expander_run.specs.Calls.{call_of};
ghost use Rattle.expander_export.specs.Exports.{SaysC, Demand1C, Demand3C};
ghost use Rattle.sheet_export.specs.Exports.{check_c};
ghost use Rattle.text_export.specs.Exports.{read_c, write_c};

// Expand. Answer: refusal, first place, second place, nodes, scopes, charges, rows of out.
#[unsafe(no_mangle)]
pub extern "C" fn luhetami_expand<'a>(
    root: &'a [u32],
    library: &'a [u32],
    max_nodes: u32,
    max_depth: u32,
    max_rows: u32,
    out: &mut [u32],
    ledger: &mut [u32],
    scopes: &mut [u32],
    work: &mut [u32],
    answer: &mut [u32],
) -> u32
    ensures says_c { SaysC (call_of root.now library.now max_nodes max_depth max_rows out.old ledger.old scopes.old work.old) answer.old result out.new ledger.new scopes.new answer.new }
    ensures demand1c { Demand1C (call_of root.now library.now max_nodes max_depth max_rows out.old ledger.old scopes.old work.old) answer.old result out.new ledger.new scopes.new answer.new }
    ensures demand3c { Demand3C (call_of root.now library.now max_nodes max_depth max_rows out.old ledger.old scopes.old work.old) result out.new ledger.new scopes.new answer.new }
{
    expander_export::expand(
        root, library, max_nodes, max_depth, max_rows, out, ledger, scopes, work, answer,
    )
}

// Read lines. Answer: refusal, place, rows. More lines than a u32 counts are refused.
#[unsafe(no_mangle)]
pub extern "C" fn luhetami_read_lines(lines: &[u8], words: &mut [u32], answer: &mut [u32]) -> u32
    ensures { record { result = result; lent = words.new; answer = answer.new } ≡ read_c lines.now words.old answer.old }
{
    text_export::read_lines(lines, words, answer)
}

// Write lines. Answer: refusal, place, bytes. Rows of more bytes than a u32 counts are refused.
#[unsafe(no_mangle)]
pub extern "C" fn luhetami_write_lines(words: &[u32], lines: &mut [u8], answer: &mut [u32]) -> u32
    ensures { record { result = result; lent = lines.new; answer = answer.new } ≡ write_c words.now lines.old answer.old }
{
    text_export::write_lines(words, lines, answer)
}

// Moving totals. Answer: refusal, totals, largest, place.
#[unsafe(no_mangle)]
pub extern "C" fn luhetami_moving(
    counts: &[u64],
    width: u32,
    totals: &mut [u64],
    answer: &mut [u64],
) -> u32
    ensures { record { result = result; lent = totals.new; answer = answer.new } ≡ exported 27 4 totals.old answer.old (said_of (moved counts.now «width» totals.old)) }
{
    moving_export::export(counts, width, totals, answer)
}

// Pages. Answer: refusal, bytes.
#[unsafe(no_mangle)]
pub extern "C" fn luhetami_pages(
    document: &[u32],
    ledger: &[u32],
    text: &mut [u8],
    work: &mut [u32],
    answer: &mut [u64],
) -> u32
    ensures { record { result = result; lent = text.new; answer = answer.new } ≡ exported 29 2 text.old answer.old (said_paged (paged document.now ledger.now (length work.old) text.old)) }
{
    pages_export::export(document, ledger, text, work, answer)
}

// Counts. Answer: refusal, totals.
#[unsafe(no_mangle)]
pub extern "C" fn luhetami_count(
    documents: &[u32],
    protocols: &[u32],
    names: &[u32],
    totals: &mut [u64],
    work: &mut [u32],
    answer: &mut [u64],
) -> u32
    ensures { record { result = result; lent = totals.new; answer = answer.new } ≡ exported 17 2 totals.old answer.old (said_counted (counted_sheet documents.now protocols.now names.now (length work.old) totals.old)) }
{
    count_export::export(documents, protocols, names, totals, work, answer)
}

// The check of a sheet by a form's number. Answer: 1 where it fits, else 0; the row. The result is the first of these.
#[unsafe(no_mangle)]
pub extern "C" fn luhetami_check(words: &[u32], form: u32, answer: &mut [u64]) -> u32
    ensures { record { result = result; answer = answer.new } ≡ check_c words.now form answer.old }
{
    sheet_export::export(words, form, answer)
}
