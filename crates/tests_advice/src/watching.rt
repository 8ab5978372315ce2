//! A writer that is watched.

use cu_advice::Watched;
use std::io::{BufWriter, Write};
use std::test::Fail;

#[test]
fn the_last_line_is_kept(rt: HostRuntime) -> Result<(), Fail> {
    let mut place = [0u8; 64];
    let mut watched = Watched::new(place.as_mut_slice());
    assert!(rt; watched.last_line().is_empty());
    assert!(rt; watched.write_all(b"unreachable\n").is_ok() && watched.flush().is_ok());
    assert!(rt; watched.last_line() == b"unreachable\n".as_slice());
    assert!(rt;
        watched.write_all(b"network: ").is_ok() && watched.write_all(b"roads header\n").is_ok()
    );
    assert!(rt; watched.last_line() == b"network: roads header\n".as_slice());
    assert!(rt;
        watched.flush().is_ok() && watched.write_all(b"\n").is_ok() && watched.flush().is_ok()
    );
    assert!(rt; watched.last_line() == b"\n".as_slice());
    Ok(())
}

#[test]
fn below_a_buffer_a_line_is_one_write(rt: HostRuntime) -> Result<(), Fail> {
    let mut place = [0u8; 64];
    let mut watched = Watched::new(place.as_mut_slice());
    let mut buffer = BufWriter::new(rt.alloc(), &mut watched)?;
    assert!(rt;
        buffer.write_all(b"unreachable").is_ok()
            && buffer.write_all(b"\n").is_ok()
            && buffer.flush().is_ok()
    );
    assert!(rt;
        buffer.write_all(b"file: ").is_ok()
            && buffer.write_all(b"digest\n").is_ok()
            && buffer.flush().is_ok()
    );
    drop(buffer);
    assert!(rt; watched.last_line() == b"file: digest\n".as_slice());
    Ok(())
}

#[test]
fn of_a_long_line_nothing_is_kept(rt: HostRuntime) -> Result<(), Fail> {
    let mut place = [0u8; 1024];
    let mut watched = Watched::new(place.as_mut_slice());
    assert!(rt;
        watched.write_all(&[b'a'; 255]).is_ok()
            && watched.write_all(b"\n").is_ok()
            && watched.flush().is_ok()
    );
    assert!(rt; watched.last_line().len() == 256);
    assert!(rt;
        watched.write_all(&[b'a'; 256]).is_ok()
            && watched.write_all(b"\n").is_ok()
            && watched.flush().is_ok()
    );
    assert!(rt; watched.last_line().is_empty());
    assert!(rt; watched.write_all(b"words\n").is_ok() && watched.flush().is_ok());
    assert!(rt; watched.last_line() == b"words\n".as_slice());
    Ok(())
}

#[test]
fn a_fault_is_the_writers(rt: HostRuntime) -> Result<(), Fail> {
    let mut place = [0u8; 3];
    let mut watched = Watched::new(place.as_mut_slice());
    assert!(rt; watched.write(b"words").is_ok_and(|count| count == 3));
    assert!(rt; watched.write_all(b"ds").is_err());
    assert!(rt; watched.last_line() == b"wor".as_slice());
    Ok(())
}
