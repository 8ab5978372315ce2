//! Reading measured profiles, row by row, and a whole text of them.

ghost use Rattle.std.specs.Prelude.{◌≡◌, ◌+◌, ◌<◌, ◌≤◌, ◌^◌, ◌++◌, All, IfErr, IfOk, List, None, Ok, OnErr, OnOk, Some, length, option_to_list, sum_by, if◌then◌else◌};
ghost use Rattle.std.specs.Option.{option_or};
ghost use Rattle.cu_model.specs.Profiles.{IsProfile};
ghost use Rattle.cu_profile.specs.declared.rows.TheConstants.{MAX_ROWS};
ghost use Rattle.cu_tables.specs.Checks.{IsRefused};
ghost use Rattle.cu_wait.specs.Converted.{AreConverted};
ghost use Rattle.cu_wait.specs.Measured.{IsMeasured};
ghost use Rattle.cu_wait.specs.MeasuredTexts.{is_none, measured_of_text};
ghost use Rattle.cu_wait.specs.Steps.ReadRows.{AddsRow, BeginsRow, EndsProfile, EndsRows, GivesRead, IsNew, KeepsProfile, RefusesRow, TakesRow};
ghost use Rattle.cu_wait.specs.declared.points.Point.{Point};
ghost use Rattle.cu_wait.specs.declared.refusals.MeasuredRefusal.TheVariants as refusal;
ghost use Rattle.cu_wait.specs.declared.rows.TheConstants.{MAX_MEASURED};

use crate::checks::points_refusal;
use crate::converting::converted;
use crate::measured::MeasuredProfile;
use crate::points::Point;
use crate::progress::MeasuredRows;
use crate::refusals::MeasuredRefusal;
use crate::rows::{PointRow, check_row, header};
use csv::ByteRecord;
use cu_model::{NoMemory, Profile};
use cu_progress::{Progress, Silent, Stage, Telling};
use cu_tables::{TakesRows, each_row_below_telling};
use std::alloc::Global;
use std::mem::replace;

/// The measured profiles of a text: the pieces that stand for each, and its points.
#[derive(Drop)]
pub struct ReadProfiles {
    pub profiles: Vec<Profile>,
    pub measured: Vec<MeasuredProfile>,
}

impl MeasuredRows {
    // No rows yet.
    fn new(alloc: Global) -> MeasuredRows
        ensures { IsNew result }
    {
        MeasuredRows {
            row: 0,
            last: None,
            first: 0,
            wrong_mode: None,
            points: Vec::new(alloc),
            profiles: Vec::new(alloc),
            measured: Vec::new(alloc),
            fault: None,
        }
    }

    // Ends the last profile.
    fn end_profile(&mut self, alloc: Global) -> Result<(), NoMemory>
        ensures { OnOk result (EndsProfile self.old self.new) }
    {
        let refusal = points_refusal(self.first, self.wrong_mode.take(), &self.points);
        let points = replace(&mut self.points, Vec::new(alloc));
        keep_profile(
            alloc,
            refusal,
            points,
            &mut self.profiles,
            &mut self.measured,
            &mut self.fault,
        )?;
        self.first = self.row;
        Ok(())
    }

    // Ends the last profile, where there is one.
    fn end_rows(&mut self, alloc: Global) -> Result<(), NoMemory>
        ensures { OnOk result (EndsRows self.old self.new) }
    {
        let Some(_) = self.last else {
            return Ok(());
        };
        self.end_profile(alloc)
    }

    // Ends the last profile, where there is one and the next row is of another.
    fn begin_row(&mut self, alloc: Global, profile: u32) -> Result<(), NoMemory>
        ensures { OnOk result (BeginsRow self.old self.new profile) }
    {
        let Some(last) = self.last else {
            return Ok(());
        };
        if last == profile {
            return Ok(());
        }
        self.end_profile(alloc)
    }

    // Adds a row to the last profile.
    fn add_row(&mut self, line: PointRow) -> Result<(), NoMemory>
        requires { self.old.row < MAX_ROWS }
        ensures { OnOk result (AddsRow self.old self.new line) }
    {
        add_point(line.point, self.row, &mut self.points, &mut self.wrong_mode)?;
        self.last = Some(line.profile);
        self.row += 1;
        Ok(())
    }

    // The profiles that were read, once the last one ended.
    fn finish(mut self, alloc: Global) -> Result<ReadProfiles, MeasuredRefusal>
        ensures given { GivesRead (λ read. read.profiles.items) (λ read. read.measured.items) self result }
        ensures valid { IfOk result (λ read. All IsProfile read.profiles.items) }
    {
        self.end_rows(alloc)?;
        match self.fault {
            None => Ok(ReadProfiles {
                profiles: self.profiles,
                measured: self.measured,
            }),
            Some(refusal) => Err(refusal),
        }
    }
}

impl TakesRows for MeasuredRows {
    type Refusal = MeasuredRefusal;

    ghost takes = { TakesRow };

    ghost refuses = { RefusesRow };

    fn take_row(
        &mut self,
        alloc: Global,
        row: &ByteRecord,
    ) -> Result<Result<(), MeasuredRefusal>, NoMemory> {
        let line = match check_row(row, self.row, self.last) {
            Ok(line) => line,
            Err(refusal) => return Ok(Err(refusal)),
        };
        self.begin_row(alloc, line.profile)?;
        self.add_row(line)?;
        Ok(Ok(()))
    }
}

/// Reads the measured profiles of a table text, and turns each into the profile in pieces that stands for it: at each second
/// it arrives when whoever waits as long as is best does, over midnight as well. The header is
/// `profile,second,mode,travel`; then comes one row for each point, with the number of its profile, its second of the day,
/// `line` or `step`, and its travel time. Profiles stand in the order of their numbers, from 0 to at most 49,709. Numbers,
/// quotes, line ends, blank lines and a byte-order mark mean what they do in a table of profiles.
///
/// Refused at the first check that fails, the text's in the order of its rows: `Header`, then `Fields`, `Number`,
/// `Sequence`, `TooMany`, row by row, and then the points of each profile: `Mode`, `Limit`, `Start`, `Rising`. Later points
/// may arrive earlier. A number too wide is past its limit. `NoMemory` may come instead of any answer, also where csv
/// answers an error; two points may need 43,201 pieces.
pub fn read_measured(alloc: Global, bytes: &[u8]) -> Result<Vec<Profile>, MeasuredRefusal>
    ensures ok { IfOk result (λ profiles. (measured : List (List Point))
        × (measured_of_text bytes.now ≡ Ok measured) × AreConverted measured profiles.items) }
    ensures refused { IfErr result (IsRefused refusal.NoMemory (measured_of_text bytes.now)) }
    ensures valid { IfOk result (λ profiles. All IsProfile profiles.items) }
    ensures few { IfOk result (λ profiles. length profiles.items ≤ MAX_MEASURED) }
    ensures pieces { IfOk result (λ profiles. sum_by length profiles.items < 2 ^ 32) }
{
    read_measured_telling(alloc, bytes, &mut Silent)
}

/// [`read_measured`]. How much of the text is turned into pieces is told as it goes.
pub fn read_measured_telling<P: Progress>(
    alloc: Global,
    bytes: &[u8],
    progress: &mut P,
) -> Result<Vec<Profile>, MeasuredRefusal>
    ensures ok { IfOk result (λ profiles. (measured : List (List Point))
        × (measured_of_text bytes.now ≡ Ok measured) × AreConverted measured profiles.items) }
    ensures refused { IfErr result (IsRefused refusal.NoMemory (measured_of_text bytes.now)) }
    ensures valid { IfOk result (λ profiles. All IsProfile profiles.items) }
    ensures few { IfOk result (λ profiles. length profiles.items ≤ MAX_MEASURED) }
    ensures pieces { IfOk result (λ profiles. sum_by length profiles.items < 2 ^ 32) }
{
    let ReadProfiles { profiles, .. } = read_with_points(alloc, bytes, progress)?;
    Ok(profiles)
}

/// [`read_measured_telling`], with the points of each profile beside its pieces.
pub fn read_with_points<P: Progress>(
    alloc: Global,
    bytes: &[u8],
    progress: &mut P,
) -> Result<ReadProfiles, MeasuredRefusal>
    ensures ok { IfOk result (λ read. (measured_of_text bytes.now ≡ Ok read.measured.items)
        × AreConverted read.measured.items read.profiles.items) }
    ensures refused { IfErr result (IsRefused refusal.NoMemory (measured_of_text bytes.now)) }
    ensures valid { IfOk result (λ read. All IsProfile read.profiles.items) }
    ensures few { IfOk result (λ read. length read.profiles.items ≤ MAX_MEASURED) }
    ensures pieces { IfOk result (λ read. sum_by length read.profiles.items < 2 ^ 32) }
{
    let mut rows = MeasuredRows::new(alloc);
    let mut telling = Telling::begin(progress, Stage::Measuring, bytes.len() as u64);
    each_row_below_telling(
        alloc,
        &header(),
        MeasuredRefusal::Header,
        bytes,
        &mut rows,
        &mut telling,
    )??;
    rows.finish(alloc)
}

// Adds the profile of these points to those before it, and the points, or keeps the first refusal of one.
fn keep_profile(
    alloc: Global,
    refusal: Option<MeasuredRefusal>,
    points: Vec<Point>,
    profiles: &mut Vec<Profile>,
    measured: &mut Vec<MeasuredProfile>,
    fault: &mut Option<MeasuredRefusal>,
) -> Result<(), NoMemory>
    requires { refusal ≡ None → IsMeasured points.items }
    ensures kept { OnOk result
        (KeepsProfile refusal points.items profiles.old.items measured.old.items fault.old
        profiles.new.items measured.new.items fault.new) }
    ensures valid { All IsProfile profiles.old.items → All IsProfile profiles.new.items }
{
    match refusal {
        None => {
            profiles.push(converted(alloc, &points)?)?;
            measured.push(MeasuredProfile::of(points))?;
        }
        Some(refusal) => *fault = fault.or(Some(refusal)),
    }
    Ok(())
}

// Adds a point to those before it, or keeps the first row without one.
fn add_point(
    point: Option<Point>,
    row: u32,
    points: &mut Vec<Point>,
    wrong_mode: &mut Option<u32>,
) -> Result<(), NoMemory>
    ensures points { OnOk result (points.new.items ≡ points.old.items ++ option_to_list point) }
    ensures wrong_mode { OnOk result (wrong_mode.new
        ≡ option_or wrong_mode.old (if is_none point then Some row else None)) }
    ensures unchanged { OnErr result (points.new.items ≡ points.old.items) }
{
    match point {
        Some(point) => points.push(point)?,
        None => *wrong_mode = wrong_mode.or(Some(row)),
    }
    Ok(())
}
