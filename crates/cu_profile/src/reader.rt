//! Reading profiles, row by row, and a whole text of them.

ghost use Rattle.std.specs.Prelude.{◌≡◌, ◌+◌, ◌<◌, ◌≤◌, ◌^◌, ◌++◌, [], All, IfErr, IfOk, Ok, OnErr, OnOk, Some, length, option_to_list, sum_by};
ghost use Rattle.std.specs.Option.{option_or};
ghost use Rattle.cu_model.specs.Profiles.{IsProfile};
ghost use Rattle.cu_tables.specs.Checks.{Gives, IsRefused};
ghost use Rattle.cu_profile.specs.declared.rows.TheConstants.{MAX_ROWS};
ghost use Rattle.cu_profile.specs.ProfileTexts.{fault_row, missing, profile_checked, profiles_of_text};
ghost use Rattle.cu_profile.specs.Steps.ReadRows.{AddsRow, BeginsRow, EndsProfile, EndsRows, IsBetweenRows, IsNew, KeepsProfile, RefusesRow, TakesRow, rows_behind};
ghost use Rattle.cu_profile.specs.declared.refusals.ProfileRefusal.TheVariants as refusal;

use crate::progress::ProfileRows;
use crate::refusals::ProfileRefusal;
use crate::rows::{PieceRow, check_row, header};
use csv::ByteRecord;
use cu_model::{MAX_PROFILES, NoMemory, Piece, PieceFault, PieceRefusal, Profile};
use cu_tables::{TakesRows, each_row_below};
use std::alloc::Global;
use std::mem;

impl ProfileRows {
    // No rows yet.
    fn new(alloc: Global) -> ProfileRows
        ensures { IsNew result }
    {
        ProfileRows {
            row: 0,
            last: None,
            first: 0,
            wrong_kind: None,
            pieces: Vec::new(alloc),
            profiles: Vec::new(alloc),
            fault: None,
        }
    }

    // Ends the last profile.
    fn end_profile(&mut self, alloc: Global) -> Result<(), NoMemory>
        ensures { OnOk result (EndsProfile self.old self.new) }
    {
        let pieces = mem::replace(&mut self.pieces, Vec::new(alloc));
        let profile = profile_of(self.first, self.wrong_kind.take(), pieces);
        self.first = self.row;
        keep_profile(profile, &mut self.profiles, &mut self.fault)
    }

    // Ends the last profile, where there is one.
    fn end_rows(&mut self, alloc: Global) -> Result<(), NoMemory>
        ensures { OnOk result (EndsRows self.old self.new) }
    {
        let Some(_) = self.last else {
            return Ok(());
        };
        self.end_profile(alloc)
    }

    // Ends the last profile, where there is one and the next row is of another.
    fn begin_row(&mut self, alloc: Global, profile: u32) -> Result<(), NoMemory>
        ensures { OnOk result (BeginsRow self.old self.new profile) }
    {
        let Some(last) = self.last else {
            return Ok(());
        };
        if last == profile {
            return Ok(());
        }
        self.end_profile(alloc)
    }

    // Adds a row to the last profile.
    fn add_row(&mut self, line: PieceRow) -> Result<(), NoMemory>
        requires { self.old.row < MAX_ROWS }
        ensures { OnOk result (AddsRow self.old self.new line) }
    {
        add_piece(line.piece, self.row, &mut self.pieces, &mut self.wrong_kind)?;
        self.last = Some(line.profile);
        self.row += 1;
        Ok(())
    }

    // The profiles that were read, once the last one ended.
    fn finish(mut self, alloc: Global) -> Result<Vec<Profile>, ProfileRefusal>
        ensures ok { IfOk result (λ profiles. rows_behind self [] ≡ Ok profiles.items) }
        ensures refused { IfErr result (IsRefused refusal.NoMemory (rows_behind self [])) }
        ensures valid { IfOk result (λ profiles. All IsProfile profiles.items) }
        ensures few { IfOk result (λ profiles. IsBetweenRows self → length profiles.items
            ≤ MAX_PROFILES) }
        ensures pieces { IfOk result (λ profiles. sum_by length profiles.items < 2 ^ 32) }
    {
        self.end_rows(alloc)?;
        match self.fault {
            None => Ok(self.profiles),
            Some(refusal) => Err(refusal),
        }
    }
}

impl TakesRows for ProfileRows {
    type Refusal = ProfileRefusal;

    ghost takes = { TakesRow };

    ghost refuses = { RefusesRow };

    fn take_row(
        &mut self,
        alloc: Global,
        row: &ByteRecord,
    ) -> Result<Result<(), ProfileRefusal>, NoMemory> {
        let line = match check_row(row, self.row, self.last) {
            Ok(line) => line,
            Err(refusal) => return Ok(Err(refusal)),
        };
        self.begin_row(alloc, line.profile)?;
        self.add_row(line)?;
        Ok(Ok(()))
    }
}

/// Reads the profiles of a table text: the header `profile,from,kind,value`, then one row for each piece, with the number
/// of its profile, the second of the day from which it holds, `travel`, `until` or `closed`, and its value. Profiles stand
/// in the order of their numbers, from 0. Numbers are ASCII digits, leading zeros allowed; what quotes, line ends, blank
/// lines and a byte-order mark mean is csv's.
///
/// A refused text is refused for the first check that fails: first each row is checked by itself, `Fields`, `Number`,
/// `Sequence`, `TooMany`, row by row, and then each profile, `Row`: a kind, and then the faults of its pieces in the order
/// of `PieceFault`. A number too wide for a piece is past its limit. `NoMemory` may come instead of any answer, also where
/// csv answers an error.
pub fn read_profiles(alloc: Global, bytes: &[u8]) -> Result<Vec<Profile>, ProfileRefusal>
    ensures given { Gives refusal.NoMemory (λ profiles. profiles.items)
        (profiles_of_text bytes.now) result }
    ensures valid { IfOk result (λ profiles. All IsProfile profiles.items) }
    ensures few { IfOk result (λ profiles. length profiles.items ≤ MAX_PROFILES) }
    ensures pieces { IfOk result (λ profiles. sum_by length profiles.items < 2 ^ 32) }
{
    let mut rows = ProfileRows::new(alloc);
    each_row_below(alloc, &header(), ProfileRefusal::Header, bytes, &mut rows)??;
    rows.finish(alloc)
}

// The profile of these pieces, which stand in the rows from `first` on.
fn profile_of(
    first: u32,
    wrong_kind: Option<u32>,
    pieces: Vec<Piece>,
) -> Result<Profile, ProfileRefusal>
    requires { first + length pieces.items < 2 ^ 32 }
    ensures { result ≡ profile_checked first wrong_kind pieces.items }
{
    if let Some(row) = wrong_kind {
        return Err(ProfileRefusal::Row {
            row,
            refusal: PieceRefusal::Kind,
        });
    }
    match Profile::of(pieces) {
        Ok(profile) => Ok(profile),
        Err(fault) => Err(ProfileRefusal::Row {
            row: fault_row(first, fault),
            refusal: PieceRefusal::Fault(fault),
        }),
    }
}

// The row that a fault of pieces names.
fn fault_row(first: u32, fault: PieceFault) -> u32
    requires { fault_row first fault < 2 ^ 32 }
    ensures { result ≡ fault_row first fault }
{
    match fault {
        PieceFault::Limit { piece } | PieceFault::Rising { piece } | PieceFault::Closed { piece } =>
            first + piece,
        PieceFault::Start | PieceFault::Early { .. } | PieceFault::Fifo { .. } => first,
    }
}

// Adds a profile to those before it, or keeps the first refusal of one.
fn keep_profile(
    profile: Result<Profile, ProfileRefusal>,
    profiles: &mut Vec<Profile>,
    fault: &mut Option<ProfileRefusal>,
) -> Result<(), NoMemory>
    ensures kept { OnOk result
        (KeepsProfile profile profiles.old.items fault.old profiles.new.items fault.new) }
    ensures unchanged { OnErr result (profiles.new.items ≡ profiles.old.items) }
{
    match profile {
        Ok(profile) => profiles.push(profile)?,
        Err(refusal) => *fault = fault.or(Some(refusal)),
    }
    Ok(())
}

// Adds a piece to those before it, or keeps the first row without one.
fn add_piece(
    piece: Option<Piece>,
    row: u32,
    pieces: &mut Vec<Piece>,
    wrong_kind: &mut Option<u32>,
) -> Result<(), NoMemory>
    ensures pieces { OnOk result (pieces.new.items ≡ pieces.old.items ++ option_to_list piece) }
    ensures wrong_kind { OnOk result (wrong_kind.new
        ≡ option_or wrong_kind.old (missing row piece)) }
    ensures unchanged { OnErr result (pieces.new.items ≡ pieces.old.items) }
{
    match piece {
        Some(piece) => pieces.push(piece)?,
        None => *wrong_kind = wrong_kind.or(Some(row)),
    }
    Ok(())
}
