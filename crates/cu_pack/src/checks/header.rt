//! The first checks of a packed file: its head, its digest and its size.

ghost use Rattle.std.specs.Prelude.{◌≡◌, ◌≤◌, ◌<◌, ◌↔◌, IfErr, IfOk, IfSome, IsTrue, OnOk, codes, length, take};
ghost use Rattle.sha2.specs.Sha256.{sha256};
ghost use Rattle.cu_pack.specs.Checks.{AreBeforeInLimits, IsIn, IsPastLimit, IsRefusedIn, IsSealed, IsSized, IsWhole, body_in, digest_in};
ghost use Rattle.cu_pack.specs.Layouts.{AreInLimits};
ghost use Rattle.cu_pack.specs.Reading.{counts_in};
ghost use Rattle.cu_pack.specs.Spelling.{IsVersion};

use crate::body::Body;
use crate::bytes::{long, short};
use crate::cutting::Sections;
use crate::layout::{Counts, Layout};
use crate::refusals::{Field, PackRefusal};
use cu_chordal::MAX_EDGES;
use cu_model::{DAY, MAX_ARCS, MAX_NODES, MAX_PROFILES};
use sha2::{Digest, Sha256};

/// The sections of a file whose header, version, digest and size pass; or the first of these checks that fails.
pub fn check_header<'a>(bytes: &'a [u8], version: u32) -> Result<Sections<'a>, PackRefusal>
    requires version { IsVersion version }
    ensures ok { IfOk result
        (λ sections. IsSized bytes.now × IsIn version bytes.now × (sections ≡ bytes.now)) }
    ensures err { IfErr result (IsRefusedIn version bytes.now) }
{
    check_sealed(bytes, version)?;
    if let Some(field) = past_limit(bytes) {
        return Err(PackRefusal::Limit { field });
    }
    let counts = header_counts(bytes);
    let counted = Layout::of(&counts).length;
    let found = bytes.len() as u64;
    if counted != found {
        return Err(PackRefusal::Size { counted, found });
    }
    Ok(Sections::of(Body::of(bytes), counts))
}

// The bytes have a header of ours, of this version, that knows their number, and the digest is that of the bytes before
// it; or the first of these checks that fails.
fn check_sealed(bytes: &[u8], version: u32) -> Result<(), PackRefusal>
    requires version { IsVersion version }
    ensures ok { OnOk result (IsSealed bytes.now × IsIn version bytes.now) }
    ensures err { IfErr result (IsRefusedIn version bytes.now) }
{
    check_head(bytes, version)?;
    if !is_sealed(bytes) {
        return Err(PackRefusal::Digest);
    }
    Ok(())
}

// The bytes have a header of ours, of this version, that knows their number; or the first of these checks that fails.
fn check_head(bytes: &[u8], version: u32) -> Result<(), PackRefusal>
    requires version { IsVersion version }
    ensures ok { OnOk result (IsWhole bytes.now × IsIn version bytes.now) }
    ensures err { IfErr result (IsRefusedIn version bytes.now) }
{
    if bytes.len() < 84 {
        return Err(PackRefusal::Short);
    }
    if !is_ours(bytes) {
        return Err(PackRefusal::Magic);
    }
    let found = short(bytes, 8);
    if found != version {
        return Err(PackRefusal::Version { found });
    }
    let said = long(bytes, 44);
    let found = bytes.len() as u64;
    if said != found {
        return Err(PackRefusal::Length { said, found });
    }
    Ok(())
}

fn is_ours(bytes: &[u8]) -> bool
    requires long { 84 ≤ length bytes.now }
    ensures { IsTrue result ↔ (take 8 bytes.now ≡ codes "CATCHUPH") }
{
    &bytes[..8] == b"CATCHUPH".as_slice()
}

// Whether the last 32 bytes are SHA-256 of those before.
fn is_sealed(bytes: &[u8]) -> bool
    requires long { 84 ≤ length bytes.now }
    ensures { IsTrue result ↔ (digest_in bytes.now ≡ sha256 (body_in bytes.now)) }
{
    let (body, digest) = bytes.split_at(bytes.len() - 32);
    digest == Sha256::digest(body).as_slice()
}

// The version and the counts of a header.
#[tactic(auto, unfolding(crate::specs::Reading::counts_in))]
pub fn header_counts(bytes: &[u8]) -> Counts
    requires long { 84 ≤ length bytes.now }
    ensures { result ≡ counts_in bytes.now }
{
    Counts {
        version: short(bytes, 8),
        nodes: short(bytes, 12),
        arcs: short(bytes, 16),
        profiles: short(bytes, 20),
        edges: short(bytes, 24),
        pieces: long(bytes, 28),
        entries: long(bytes, 36),
    }
}

// The first count of a header that is past its limit.
fn past_limit(bytes: &[u8]) -> Option<Field>
    requires long { 84 ≤ length bytes.now }
    ensures none { result ≡ None → AreInLimits (counts_in bytes.now) }
    ensures past { IfSome result (IsPastLimit bytes.now) }
    ensures first { IfSome result (AreBeforeInLimits bytes.now) }
{
    let counts = header_counts(bytes);
    if counts.nodes > MAX_NODES {
        return Some(Field::Nodes);
    }
    if counts.arcs > MAX_ARCS {
        return Some(Field::Arcs);
    }
    if counts.profiles > MAX_PROFILES {
        return Some(Field::Profiles);
    }
    if counts.edges > MAX_EDGES {
        return Some(Field::Edges);
    }
    if counts.pieces > u64::from(MAX_PROFILES) * u64::from(DAY) {
        return Some(Field::Pieces);
    }
    if counts.entries > 2 * u64::from(MAX_EDGES) * u64::from(DAY) {
        return Some(Field::Entries);
    }
    None
}
