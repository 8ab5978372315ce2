ghost use Rattle.std.specs.Prelude.{◌≡◌, ◌++◌, [], IfErr, IfOk, OnOk, List, ℕ, map};
ghost use Rattle.csv.specs.Records.{fields_of};
ghost use Rattle.cu_tables.specs.Steps.Reads.{HasRead, ReadsHeader, ReadsRow};
ghost use Rattle.cu_tables.specs.Tables.{rows_below, table};
ghost use Rattle.cu_tables.specs.Taking.{Ends, EndsBelow};

use crate::fields::has_fields;
use csv::{ByteRecord, Reader, ReaderBuilder};
use cu_model::NoMemory;
use cu_progress::{Progress, Silent, Stage, Telling};
use std::alloc::Global;

/// Takes the rows of a table one after the other, until one is refused.
pub trait TakesRows {
    /// Why a row is refused.
    type Refusal: Drop;

    /// What it is before and after a row that it takes.
    ghost takes: { Self → List (List ℕ) → Self → Type 0 };

    /// What it is before and after a row that it refuses, and why it does.
    ghost refuses: { Self → List (List ℕ) → Self.Refusal → Self → Type 0 };

    /// Takes a row, or answers why it is refused.
    fn take_row(
        &mut self,
        alloc: Global,
        row: &ByteRecord,
    ) -> Result<Result<(), Self::Refusal>, NoMemory>
        ensures taken { IfOk result (λ answer. OnOk answer
            (takes self.old (fields_of row.now) self.new)) }
        ensures refused { IfOk result (λ answer. IfErr answer
            (λ why. refuses self.old (fields_of row.now) why self.new)) };
}

// A reader of the rows of a table text, none of them read yet.
fn rows_of(alloc: Global, text: &[u8]) -> Reader<&[u8]>
    ensures { HasRead result text.now [] }
{
    ReaderBuilder::new()
        .has_headers(false)
        .flexible(true)
        .from_reader(alloc, text)
}

// Reads the next row into `row`, and answers whether there was one.
fn next_row(rows: &mut Reader<&[u8]>, row: &mut ByteRecord) -> Result<bool, NoMemory>
    ensures { IfOk result (λ found. (text : List ℕ) → (done : List (List (List ℕ)))
        → HasRead rows.old text done
        → ReadsRow rows.new text done (fields_of row.new) found) }
{
    let Ok(found) = rows.read_byte_record(row) else {
        return Err(NoMemory);
    };
    Ok(found)
}

// Hands the rows that are left to the taker, until it refuses one, and tells how many bytes they have.
fn take_rows<T: TakesRows, P: Progress>(
    alloc: Global,
    rows: &mut Reader<&[u8]>,
    row: &mut ByteRecord,
    taker: &mut T,
    telling: &mut Telling<'_, P>,
) -> Result<Result<(), T::Refusal>, NoMemory>
    ensures { IfOk result (λ answer. (text : List ℕ) → (done : List (List (List ℕ)))
        → HasRead rows.old text done
        → (rest : List (List (List ℕ))) × (table text ≡ done ++ rest)
        × Ends T.takes T.refuses taker.old rest taker.new answer) }
{
    for _ in 0..u64::MAX {
        if !next_row(rows, row)? {
            return Ok(Ok(()));
        }
        match taker.take_row(alloc, row)? {
            Ok(()) => telling.add(bytes_of(row)),
            Err(refusal) => return Ok(Err(refusal)),
        }
    }
    Err(NoMemory)
}

// How many bytes the text of a row has, with a comma or a line's end behind each field.
fn bytes_of(row: &ByteRecord) -> u64 {
    (row.as_slice().len() as u64).saturating_add(row.len() as u64)
}

/// Hands each row of a table text to the taker in turn, until it refuses one, and answers that refusal. The taker is handed
/// no row after it, and stays as it was left then. An error of csv is answered as want of memory.
pub fn each_row<T: TakesRows>(
    alloc: Global,
    text: &[u8],
    taker: &mut T,
) -> Result<Result<(), T::Refusal>, NoMemory>
    ensures { IfOk result (λ answer. Ends T.takes T.refuses taker.old
        (table text.now) taker.new answer) }
{
    let mut rows = rows_of(alloc, text);
    let mut row = ByteRecord::new(alloc);
    let mut silent = Silent;
    let mut telling = Telling::begin(&mut silent, Stage::Reading, text.len() as u64);
    take_rows(alloc, &mut rows, &mut row, taker, &mut telling)
}

// Reads the first row, and answers whether it is this header.
fn take_header(
    rows: &mut Reader<&[u8]>,
    row: &mut ByteRecord,
    header: &[&[u8]],
) -> Result<bool, NoMemory>
    ensures { IfOk result (λ found. (text : List ℕ) → HasRead rows.old text []
        → ReadsHeader rows.new text (map (λ f. f.now) header.now) found) }
{
    if next_row(rows, row)? {
        Ok(has_fields(row, header))
    } else {
        Ok(false)
    }
}

/// Hands each row below the header to the taker in turn, until it refuses one, and answers that refusal. The taker is handed
/// no row after it, and stays as it was left then. Where the first row isn't the header, or there is none, the answer is
/// `no_header`, and nothing was taken. An error of csv is answered as want of memory.
pub fn each_row_below<T: TakesRows>(
    alloc: Global,
    header: &[&[u8]],
    no_header: T::Refusal,
    text: &[u8],
    taker: &mut T,
) -> Result<Result<(), T::Refusal>, NoMemory>
    ensures { IfOk result (λ answer. EndsBelow T.takes T.refuses no_header taker.old
        (rows_below (map (λ f. f.now) header.now) (table text.now)) taker.new answer) }
{
    let mut silent = Silent;
    let mut telling = Telling::begin(&mut silent, Stage::Reading, text.len() as u64);
    each_row_below_telling(alloc, header, no_header, text, taker, &mut telling)
}

/// [`each_row_below`], which counts the bytes of the rows that it hands on.
pub fn each_row_below_telling<T: TakesRows, P: Progress>(
    alloc: Global,
    header: &[&[u8]],
    no_header: T::Refusal,
    text: &[u8],
    taker: &mut T,
    telling: &mut Telling<'_, P>,
) -> Result<Result<(), T::Refusal>, NoMemory>
    ensures { IfOk result (λ answer. EndsBelow T.takes T.refuses no_header taker.old
        (rows_below (map (λ f. f.now) header.now) (table text.now)) taker.new answer) }
{
    let mut rows = rows_of(alloc, text);
    let mut row = ByteRecord::new(alloc);
    if !take_header(&mut rows, &mut row, header)? {
        return Ok(Err(no_header));
    }
    take_rows(alloc, &mut rows, &mut row, taker, telling)
}
