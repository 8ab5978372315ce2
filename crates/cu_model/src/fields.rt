//! The fields of a line, one comma after another.

ghost use Rattle.std.specs.Prelude.{◌≡◌, ◌==◌, position};
ghost use Rattle.cu_model.specs.Fields.{CutsField};

/// A line's first field, and what stands behind its comma; none where no comma follows.
pub fn cut_field(line: &[u8]) -> (&[u8], Option<&[u8]>)
    ensures cut { CutsField line.now result.0.now result.1 }
{
    match comma(line) {
        Some(end) => (&line[..end], Some(&line[end + 1..])),
        None => (line, None),
    }
}

// Where the first comma stands.
fn comma(line: &[u8]) -> Option<usize>
    ensures first { result ≡ position (λ byte. byte == 44) line.now }
{
    line.iter().position(|byte| *byte == b',')
}
