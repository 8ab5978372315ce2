//! Edit lines of a script: `s,PROFILE,FROM,KIND,VALUE,..` gives a profile new pieces, and `a,ROAD,PROFILE` gives a road
//! another profile.

ghost use Rattle.std.specs.Prelude.{◌≡◌, ◌≤◌, ◌<◌, ◌-◌, ◌^◌, Err, IfErr, IfOk, IfSome, IsOk, MatchResult, None, Ok, OnOk, Some, length, ℕ};
ghost use Rattle.cu_model.specs.declared.roads.Edit.TheVariants.{Assign};
ghost use Rattle.cu_model.specs.Edits.{IsEditInRange};
ghost use Rattle.cu_model.specs.Networks.{NetworkValue};
ghost use Rattle.cu_model.specs.Profiles.{IsProfile};
ghost use Rattle.cu_model.specs.Queries.{fields_of_line};
ghost use Rattle.cu_script.specs.EditLines.{SetsProfile, assign_checked, assign_of_fields, edit_of, set_of_fields};
ghost use Rattle.cu_script.specs.Steps.LineChanges.{Makes, Reads, SetsPieces, change_checked, piece_fields, set_answer};
ghost use Rattle.cu_script.specs.Steps.LinePieces.{all_named, pieces_begun, pieces_refusal};

use crate::lines::pieces::{check_profile, has_pieces, kept_number, take_pieces};
use cu_model::{Edit, NoMemory, PieceRefusal, Profile, cut_field};
use std::alloc::Global;
use std::marker::Model;
use thiserror::Error;

mod pieces;
/// The most bytes of an edit line.
pub const MAX_EDIT_LINE: u32 = 4_194_304;

/// The first check that an edit line fails, in this order.
#[derive(Clone, Copy, Debug, PartialEq, Eq, Error)]
pub enum EditRefusal {
    /// The first word is neither `s` nor `a`, the fields aren't as many as they should be, or one of the numbers is no
    /// number word.
    #[error("line")]
    Line,
    /// The road isn't below the number of roads.
    #[error("arc")]
    Arc,
    /// The profile isn't below the number of profiles.
    #[error("profile")]
    Profile,
    /// A kind is none of `travel`, `until` and `closed`, or a fault of the pieces.
    #[error("{0}")]
    Piece(PieceRefusal),
}

// What a line changes, its pieces still as they are written. A number too wide for 32 bits is the widest.
#[derive(Clone, Copy)]
enum Change<'a> {
    Set { profile: u32, pieces: &'a [u8] },
    Assign { arc: u32, profile: u32 },
}

/// An edit line that has passed its checks. Contracts see the line, and the numbers of roads and profiles that it was
/// checked against.
#[derive(Drop)]
pub struct EditLine<'a> {
    line: &'a [u8],
    arcs: u32,
    profiles: u32,
    change: Change<'a>,
}

impl<'a> Model for EditLine<'a> {
    ghost use Rattle.cu_script.specs.EditLines.{CheckedLine, edit_of};

    ghost Value = { CheckedLine };

    ghost use Rattle.std.specs.Prelude.{◌<◌, ◌-◌, ◌^◌};
    ghost use Rattle.cu_script.specs.Steps.LineChanges.{Makes, piece_fields};

    ghost view = { λ edit. record {
      line = edit.line.now;
      arcs = edit.arcs;
      profiles = edit.profiles;
    } };

    ghost invariant = { λ edit. (piece_fields edit.change < 2 ^ 32 - 1)
        × Makes edit.arcs edit.profiles
        (edit_of edit.arcs edit.profiles edit.line.now) edit.change };
}

/// Checks a line of a script, its line end cut off and of at most `MAX_EDIT_LINE` bytes, against a network with so many
/// roads and profiles. The line is `s`, the number of a profile, and at least one piece, which is three fields: a second, a
/// kind and a value. Or it is `a`, the number of a road, and that of a profile. Numbers may have any length. Each check is
/// made over the whole line before the next, in the order of `EditRefusal`. Takes no memory.
pub fn check_edit(line: &[u8], arcs: u32, profiles: u32) -> Result<EditLine<'_>, EditRefusal>
    requires few { length line.now ≤ MAX_EDIT_LINE }
    ensures accepted { IfOk result (λ checked. checked
        ≡ record { line = line.now; arcs = arcs; profiles = profiles }) }
    ensures refused { IfErr result (λ refusal. edit_of arcs profiles line.now ≡ Err refusal) }
    ensures sound { OnOk result (IsOk (edit_of arcs profiles line.now)) }
{
    let Some(change) = parse_change(line) else {
        return Err(EditRefusal::Line);
    };
    check_change(change, arcs, profiles)?;
    Ok(EditLine {
        line,
        arcs,
        profiles,
        change,
    })
}

impl EditLine<'_> {
    /// The edit that the line makes, its pieces in memory of their own. It may be applied to each network with so many roads
    /// and profiles as the line was checked against.
    pub fn take(self, alloc: Global) -> Result<Edit, NoMemory>
        ensures edit { IfOk result (λ edit.
            edit_of self.entry.arcs self.entry.profiles self.entry.line ≡ Ok edit) }
        ensures in_range { IfOk result (λ edit. (network : NetworkValue)
            → length network.arcs ≡ self.entry.arcs
            → length network.profiles ≡ self.entry.profiles → IsEditInRange network edit) }
        ensures profile { IfOk result SetsProfile }
    {
        match self.change {
            Change::Set { profile, pieces } => Ok(Edit::Set {
                profile,
                pieces: take_profile(alloc, pieces)?,
            }),
            Change::Assign { arc, profile } => Ok(Edit::Assign { arc, profile }),
        }
    }
}

// What a line changes, none where its words aren't those of an edit.
fn parse_change(line: &[u8]) -> Option<Change<'_>>
    ensures read { Reads (λ arcs profiles. edit_of arcs profiles line.now) result }
    ensures few { IfSome result
        (λ change. piece_fields change ≤ length (fields_of_line line.now)) }
{
    let (word, fields) = cut_field(line);
    if word == b"s".as_slice() {
        parse_set(fields?)
    } else if word == b"a".as_slice() {
        parse_assign(fields?)
    } else {
        None
    }
}

// The fields behind `s`: a profile's number, and at least one piece.
fn parse_set(fields: &[u8]) -> Option<Change<'_>>
    ensures read { Reads
        (λ arcs profiles. set_of_fields profiles (fields_of_line fields.now)) result }
    ensures few { IfSome result
        (λ change. piece_fields change ≤ length (fields_of_line fields.now)) }
{
    let (profile, pieces) = cut_field(fields);
    let profile = kept_number(profile)?;
    let pieces = pieces?;
    if has_pieces(pieces) {
        Some(Change::Set { profile, pieces })
    } else {
        None
    }
}

// The fields behind `a`: a road's number and a profile's.
fn parse_assign(fields: &[u8]) -> Option<Change<'_>>
    ensures read { Reads
        (λ arcs profiles. assign_of_fields arcs profiles (fields_of_line fields.now)) result }
    ensures few { IfSome result (λ change. piece_fields change ≡ 0) }
{
    let (arc, rest) = cut_field(fields);
    let (profile, rest) = cut_field(rest?);
    let arc = kept_number(arc)?;
    let profile = kept_number(profile)?;
    match rest {
        Some(_) => None,
        None => Some(Change::Assign { arc, profile }),
    }
}

// Checks a change against a network with so many roads and profiles.
fn check_change(change: Change<'_>, arcs: u32, profiles: u32) -> Result<(), EditRefusal>
    requires few { piece_fields change < 2 ^ 32 - 1 }
    ensures checked { MatchResult result
        (λ _. Makes arcs profiles (change_checked arcs profiles change.entry) change.entry)
        (λ refusal. change_checked arcs profiles change.entry ≡ Err refusal) }
{
    match change {
        Change::Set { profile, pieces } => check_set(profile, pieces, profiles),
        Change::Assign { arc, profile } => check_assign(arc, profile, arcs, profiles),
    }
}

fn check_set(profile: u32, pieces: &[u8], profiles: u32) -> Result<(), EditRefusal>
    requires few { length (fields_of_line pieces.now) < 2 ^ 32 - 1 }
    ensures checked { MatchResult result
        (λ _. SetsPieces profiles (set_answer profiles profile (fields_of_line pieces.now))
        profile (fields_of_line pieces.now))
        (λ refusal. set_answer profiles profile (fields_of_line pieces.now) ≡ Err refusal) }
{
    if profile >= profiles {
        return Err(EditRefusal::Profile);
    }
    match check_profile(pieces) {
        Ok(()) => Ok(()),
        Err(refusal) => Err(EditRefusal::Piece(refusal)),
    }
}

fn check_assign(arc: u32, profile: u32, arcs: u32, profiles: u32) -> Result<(), EditRefusal>
    ensures checked { MatchResult result
        (λ _. (assign_checked arcs profiles arc profile ≡ Ok (Assign arc profile))
        × (arc < arcs) × (profile < profiles))
        (λ refusal. assign_checked arcs profiles arc profile ≡ Err refusal) }
{
    if arc >= arcs {
        return Err(EditRefusal::Arc);
    }
    if profile >= profiles {
        return Err(EditRefusal::Profile);
    }
    Ok(())
}

// The profile of the pieces of a line, which have passed their checks.
fn take_profile(alloc: Global, pieces: &[u8]) -> Result<Profile, NoMemory>
    requires sound { pieces_refusal
        (all_named (pieces_begun (fields_of_line pieces.now))) ≡ None }
    requires few { length (fields_of_line pieces.now) < 2 ^ 32 - 1 }
    ensures pieces { IfOk result (λ profile. all_named
        (pieces_begun (fields_of_line pieces.now)) ≡ Some profile) }
    ensures profile { IfOk result IsProfile }
{
    let Ok(profile) = Profile::of(take_pieces(alloc, pieces)?) else {
        unreachable!()
    };
    Ok(profile)
}
