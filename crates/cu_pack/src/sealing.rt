//! The digest of a file, written in its place.

ghost use Rattle.std.specs.Prelude.{◌≡◌, ◌≤◌, length};
ghost use Rattle.cu_pack.specs.Checks.{sealed};

use sha2::{Digest, Sha256};

/// Writes the digest of all bytes but the last 32, of which there are as many, in the place of these. Takes no memory.
pub fn seal(bytes: &mut [u8])
    requires long { 32 ≤ length bytes.old }
    ensures sealed { bytes.new ≡ sealed bytes.old }
{
    let place = bytes.len() - 32;
    let digest = Sha256::digest(&bytes[..place]);
    bytes[place..].copy_from_slice(&digest);
}
