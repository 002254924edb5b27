#![tactic(auto)]
// The check of a sheet, and the first row that doesn't fit (document 01, Sheets).
pub mod grammar;

ghost use Rattle.std.specs.Prelude.{◌≡◌};
ghost use Rattle.sheet_rows.specs.Rows.{rows};
ghost use Rattle.sheet_check.specs.Grammar.{checked, is_sheet, is_expanded, checked_words, checked_numbered};

use grammar::Form;
use sheet_rows::row;

// The first row, from 0, that doesn't fit a sheet's form: the row count, where the sheet ends early. Words past the last
// whole row are no row.
#[derive(Clone, Copy, Debug, PartialEq, Eq)]
pub struct BadRow(pub usize);

// Whether a sheet fits its form.
pub fn check(sheet: &[u32], form: Form) -> Result<(), BadRow>
    ensures { result ≡ checked form (rows sheet.now) }
{
    let count = sheet.len() / 8;
    let mut s = grammar::start(form);
    for at in 0..count {
        s = grammar::step(form, s, row::row_at(sheet, at)).ok_or(BadRow(at))?;
    }
    if grammar::has_ended(form, s) {
        Ok(())
    } else {
        Err(BadRow(count))
    }
}

// Whether a sheet is of a form: whole rows, each of which fits.
pub fn is_sheet(sheet: &[u32], form: Form) -> bool
    ensures { result ≡ is_sheet form sheet.now }
{
    sheet.len() % 8 == 0 && check(sheet, form).is_ok()
}

pub fn is_expanded(sheet: &[u32]) -> bool
    ensures { result ≡ is_expanded sheet.now }
{
    is_sheet(sheet, Form::Expanded)
}

// The check with words past the last whole row counted as a row that doesn't fit.
fn check_words(sheet: &[u32], form: Form) -> Result<(), BadRow>
    ensures { result ≡ checked_words form sheet.now }
{
    check(sheet, form)?;
    if sheet.len() % 8 != 0 {
        return Err(BadRow(sheet.len() / 8));
    }
    Ok(())
}

// The same by the number of a form; no row fits a form of another number.
#[tactic(auto, unfolding(crate::specs::Grammar::checked_numbered, crate::specs::Grammar::form_of))]
pub fn check_numbered(sheet: &[u32], form: u32) -> Result<(), BadRow>
    ensures { result ≡ checked_numbered form sheet.now }
{
    let Ok(form) = Form::try_from(form) else {
        return Err(BadRow(0));
    };
    check_words(sheet, form)
}
