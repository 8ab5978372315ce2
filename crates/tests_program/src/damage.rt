//! `ask` over packed files of both versions that are damaged: cut, changed, and changed with a digest
//! that is right again.

use crate::runs::{PLAIN, Run, says};
use cu_model::NoMemory;
use cu_samples::{BUILT, FIRST_VERSION, LATER_DIGEST};
use std::alloc::Global;
use std::test::Fail;

// Whether `ask` over this file has this status and says this of a query.
fn asks(alloc: Global, packed: &[u8], status: u8, said: &[u8]) -> bool {
    let asked = Run {
        words: "ask packed",
        packed,
        script: "q,0,2,28740\n",
        ..PLAIN
    };
    says(alloc, asked, status, said)
}

#[test]
fn cut_files_and_other_versions_are_refused(rt: HostRuntime) -> Result<(), Fail> {
    let mut third = BUILT;
    third[8] = 3;
    let mut none = FIRST_VERSION;
    none[8] = 0;
    let rows: [(&[u8], u8, &[u8]); 11] = [
        (&BUILT[..0], 6, b"file: short\n"),
        (&BUILT[..83], 6, b"file: short\n"),
        (&BUILT[..84], 6, b"file: length 440 84\n"),
        (&BUILT[..439], 6, b"file: length 440 439\n"),
        (&third, 6, b"file: version 3\n"),
        (&BUILT, 0, b"arrive=28990 arcs=2\n"),
        (&FIRST_VERSION[..83], 6, b"file: short\n"),
        (&FIRST_VERSION[..84], 6, b"file: length 392 84\n"),
        (&FIRST_VERSION[..391], 6, b"file: length 392 391\n"),
        (&none, 6, b"file: version 0\n"),
        (&FIRST_VERSION, 0, b"arrive=28990 arcs=2\n"),
    ];
    for (file, status, said) in &rows {
        assert!(rt; asks(rt.alloc(), *file, *status, *said));
    }
    Ok(())
}

// The line over the packed file of which the lowest bit of one byte is changed.
fn flipped_line(place: usize) -> &'static str {
    match place {
        0..=7 => "file: magic\n",
        8 => "file: version 3\n",
        9 => "file: version 258\n",
        10 => "file: version 65538\n",
        11 => "file: version 16777218\n",
        44 => "file: length 441 440\n",
        45 => "file: length 184 440\n",
        46 => "file: length 65976 440\n",
        47 => "file: length 16777656 440\n",
        48 => "file: length 4294967736 440\n",
        49 => "file: length 1099511628216 440\n",
        50 => "file: length 281474976711096 440\n",
        51 => "file: length 72057594037928376 440\n",
        _ => "file: digest\n",
    }
}

// The same in version 1.
fn first_flipped_line(place: usize) -> &'static str {
    match place {
        8 => "file: version 0\n",
        9 => "file: version 257\n",
        10 => "file: version 65537\n",
        11 => "file: version 16777217\n",
        44 => "file: length 393 392\n",
        45 => "file: length 136 392\n",
        46 => "file: length 65928 392\n",
        47 => "file: length 16777608 392\n",
        48 => "file: length 4294967688 392\n",
        49 => "file: length 1099511628168 392\n",
        50 => "file: length 281474976711048 392\n",
        51 => "file: length 72057594037928328 392\n",
        _ => flipped_line(place),
    }
}

// Whether `ask` says this of a file of which the lowest bit of one byte is changed.
fn asks_flipped(alloc: Global, packed: &[u8], place: usize, said: &str) -> Result<bool, NoMemory> {
    let mut file = Vec::from_slice(alloc, packed)?;
    if let Some(flipped) = file.get_mut(place) {
        *flipped ^= 1;
    }
    Ok(asks(alloc, &file, 6, said.as_bytes()))
}

#[test]
fn each_changed_byte_is_refused(rt: HostRuntime) -> Result<(), Fail> {
    for place in 0..440usize {
        assert!(rt; asks_flipped(rt.alloc(), &BUILT, place, flipped_line(place))?);
    }
    for place in 0..392usize {
        assert!(rt; asks_flipped(rt.alloc(), &FIRST_VERSION, place, first_flipped_line(place))?);
    }
    Ok(())
}

// A packed file with a few bytes changed, each named by its place, and the digest of the changed
// bytes, hashed by another program.
#[derive(Clone, Copy)]
struct Sealed {
    file: &'static [u8],
    changes: &'static [(usize, u8)],
    digest: [u8; 32],
    status: u8,
    said: &'static [u8],
}

const SEALED: [Sealed; 19] = [
    Sealed {
        file: &BUILT,
        changes: &[(12, 0x01), (14, 0x04)],
        digest: [
            0x54, 0xc8, 0x38, 0x59, 0x0a, 0x21, 0x6e, 0x18, 0x54, 0xc4, 0x32, 0x0c, 0x16, 0xd4,
            0x0d, 0xfe, 0xfc, 0x4f, 0x62, 0xbe, 0x26, 0x11, 0x28, 0x95, 0xf0, 0xad, 0x2b, 0x5a,
            0x78, 0xf8, 0x25, 0x7e,
        ],
        status: 6,
        said: b"file: limit nodes\n",
    },
    Sealed {
        file: &BUILT,
        changes: &[(20, 0x04)],
        digest: [
            0xbe, 0xe4, 0xd7, 0xc7, 0xa8, 0x27, 0x72, 0xc7, 0xab, 0xe2, 0x3e, 0x21, 0x7c, 0xd3,
            0xce, 0x59, 0xbb, 0x03, 0xf3, 0xc9, 0x87, 0xda, 0x8d, 0x32, 0x24, 0x72, 0xc5, 0xd7,
            0xb6, 0x95, 0x11, 0x7e,
        ],
        status: 6,
        said: b"file: size 448 440\n",
    },
    Sealed {
        file: &BUILT,
        changes: &[(52, 0x00)],
        digest: [
            0xd4, 0x4d, 0xe8, 0xbd, 0xb0, 0xa5, 0xcd, 0xb4, 0x61, 0x00, 0xd3, 0xe8, 0xd7, 0x68,
            0xab, 0xa7, 0x00, 0x01, 0x46, 0x8e, 0x48, 0x68, 0xa1, 0x3a, 0x5c, 0x2a, 0x4b, 0xcf,
            0x3e, 0xda, 0x89, 0x1a,
        ],
        status: 6,
        said: b"file: order 0\n",
    },
    Sealed {
        file: &BUILT,
        changes: &[(92, 0x09)],
        digest: [
            0x85, 0x67, 0x5b, 0x24, 0x78, 0xdd, 0xfc, 0xcc, 0x6e, 0x8d, 0x1e, 0x18, 0xf9, 0x8f,
            0xd7, 0x52, 0xa7, 0x81, 0xf8, 0x62, 0x95, 0x55, 0x3e, 0xee, 0x8e, 0xce, 0x15, 0xd2,
            0xda, 0x62, 0x45, 0x3a,
        ],
        status: 6,
        said: b"file: arc 1\n",
    },
    Sealed {
        file: &BUILT,
        changes: &[(200, 0x32)],
        digest: [
            0x9a, 0x4f, 0x67, 0x8e, 0xdc, 0xea, 0x92, 0xe1, 0x58, 0xad, 0xb6, 0x9c, 0x13, 0x75,
            0x78, 0x45, 0x0f, 0xd9, 0xc0, 0xb9, 0x7b, 0x84, 0x4f, 0xb1, 0x6b, 0xe7, 0xa8, 0xe1,
            0x2a, 0x05, 0xd8, 0xa7,
        ],
        status: 6,
        said: b"file: profile 1\n",
    },
    Sealed {
        file: &BUILT,
        changes: &[(232, 0x02)],
        digest: [
            0x83, 0xf3, 0x9d, 0x24, 0xfc, 0x96, 0x64, 0x08, 0x02, 0x94, 0x6f, 0xf7, 0x70, 0x85,
            0xf7, 0xd2, 0x6e, 0x98, 0x49, 0x6b, 0xb8, 0x16, 0xae, 0x52, 0x9a, 0xe0, 0xfb, 0x18,
            0x6e, 0x59, 0xc0, 0x8b,
        ],
        status: 6,
        said: b"file: graph 0\n",
    },
    Sealed {
        file: &BUILT,
        changes: &[(348, 0x44), (349, 0x70)],
        digest: [
            0x96, 0x7a, 0xd6, 0xad, 0xe0, 0xa0, 0x56, 0x41, 0x1d, 0xdf, 0x1a, 0x0e, 0x96, 0x97,
            0xf8, 0xa7, 0x76, 0x43, 0x3c, 0x1e, 0x87, 0x64, 0x80, 0x94, 0x78, 0xe0, 0xd7, 0xc4,
            0xb4, 0x50, 0x91, 0x36,
        ],
        status: 6,
        said: b"file: ways 2 up\n",
    },
    Sealed {
        file: &BUILT,
        changes: &[(340, 0x01), (344, 0x00)],
        digest: [
            0x40, 0x73, 0x80, 0x62, 0xc1, 0xbe, 0x1d, 0x7d, 0xd2, 0x65, 0xef, 0xa2, 0xf3, 0x57,
            0xc4, 0x98, 0xdb, 0xaf, 0xfa, 0xe0, 0xfb, 0x46, 0x3b, 0xee, 0x1f, 0xbc, 0xb6, 0xfc,
            0x99, 0xc1, 0x7e, 0xcc,
        ],
        status: 6,
        said: b"file: ways 2 up\n",
    },
    // A least bound that is too great, one that is too small, and one of an empty list.
    Sealed {
        file: &BUILT,
        changes: &[(392, 0xa1)],
        digest: [
            0x6b, 0xe2, 0x81, 0x8e, 0x27, 0x3f, 0x12, 0x0d, 0x85, 0x03, 0xe3, 0xc2, 0x8f, 0x3a,
            0x69, 0xeb, 0xb7, 0x14, 0xfd, 0x5a, 0x9d, 0x5c, 0x5b, 0xd7, 0x22, 0x46, 0x40, 0xb5,
            0xd0, 0x18, 0x5f, 0xa1,
        ],
        status: 6,
        said: b"file: bound 2 up\n",
    },
    Sealed {
        file: &BUILT,
        changes: &[(368, 0x3b)],
        digest: [
            0xd3, 0x71, 0x61, 0x03, 0x0d, 0xda, 0x5f, 0xbc, 0x27, 0xf3, 0x59, 0xfb, 0xb3, 0xfa,
            0x80, 0xd5, 0x45, 0xca, 0x1b, 0x88, 0xc5, 0x41, 0xd8, 0x82, 0x58, 0x94, 0xc6, 0xde,
            0x44, 0x4c, 0xcd, 0x10,
        ],
        status: 6,
        said: b"file: bound 0 down\n",
    },
    Sealed {
        file: &BUILT,
        changes: &[(367, 0x00)],
        digest: [
            0x85, 0x75, 0x47, 0x75, 0x2b, 0x3b, 0x8d, 0x80, 0x19, 0xc9, 0x34, 0xed, 0x7e, 0x78,
            0xb9, 0x56, 0x00, 0xcf, 0x2f, 0x75, 0x8b, 0xb9, 0xae, 0x31, 0xc0, 0xd3, 0x11, 0xb7,
            0x28, 0xe6, 0xd1, 0x5f,
        ],
        status: 6,
        said: b"file: bound 0 up\n",
    },
    // A road that takes a second longer than its bound.
    Sealed {
        file: &BUILT,
        changes: &[(152, 0x3d)],
        digest: [
            0xf5, 0xb8, 0xd5, 0x7e, 0xc9, 0x1f, 0x63, 0x9c, 0xe6, 0xd9, 0x8c, 0x8f, 0xdc, 0xcc,
            0x5f, 0xf9, 0x91, 0x8c, 0xd2, 0xcf, 0x3b, 0x3e, 0x6c, 0xec, 0xaa, 0x4a, 0x0e, 0xc8,
            0x9c, 0x1d, 0xcb, 0xe0,
        ],
        status: 6,
        said: b"file: bound 0 down\n",
    },
    // A forged way is taken as it stands.
    Sealed {
        file: &BUILT,
        changes: &[(336, 0x45)],
        digest: LATER_DIGEST,
        status: 0,
        said: b"arrive=29100 arcs=0 1\n",
    },
    // The bounds stand in version 2 alone.
    Sealed {
        file: &BUILT,
        changes: &[(8, 0x01)],
        digest: [
            0xa4, 0x8b, 0x75, 0x31, 0xbc, 0x77, 0xdc, 0x17, 0xb7, 0x75, 0x90, 0x81, 0xa4, 0xb5,
            0x8b, 0x9f, 0x38, 0x26, 0x37, 0x9d, 0xda, 0x70, 0x26, 0x3b, 0x6e, 0xd3, 0x80, 0x6c,
            0x7d, 0x6e, 0x29, 0x5a,
        ],
        status: 6,
        said: b"file: size 392 440\n",
    },
    Sealed {
        file: &FIRST_VERSION,
        changes: &[(8, 0x02)],
        digest: [
            0xae, 0xa2, 0x81, 0x3e, 0x48, 0xb3, 0x0b, 0x0e, 0x35, 0x81, 0x14, 0xe0, 0x13, 0x8b,
            0x63, 0xa6, 0x68, 0xbb, 0x73, 0x0f, 0x09, 0x75, 0x84, 0x63, 0x83, 0x6f, 0xfe, 0x57,
            0xba, 0xfb, 0x15, 0xf2,
        ],
        status: 6,
        said: b"file: size 440 392\n",
    },
    // The same checks in version 1, and a road that takes a second longer.
    Sealed {
        file: &FIRST_VERSION,
        changes: &[(20, 0x04)],
        digest: [
            0xa3, 0x11, 0xc2, 0xb1, 0x17, 0xb4, 0x0b, 0x67, 0xcd, 0x05, 0x09, 0x52, 0xcf, 0xfa,
            0x70, 0x75, 0x9a, 0x81, 0xb3, 0x76, 0x59, 0x86, 0xa1, 0x1d, 0xdd, 0xb8, 0x21, 0xf4,
            0x4b, 0xe7, 0xde, 0x59,
        ],
        status: 6,
        said: b"file: size 400 392\n",
    },
    Sealed {
        file: &FIRST_VERSION,
        changes: &[(348, 0x44), (349, 0x70)],
        digest: [
            0xf4, 0xfe, 0xe1, 0x7c, 0xea, 0x2d, 0xec, 0x0f, 0x19, 0x02, 0x5b, 0xef, 0x1f, 0x90,
            0xdb, 0xca, 0x9d, 0x3e, 0xde, 0xa4, 0x6c, 0x01, 0x4b, 0x28, 0x56, 0xbc, 0x0f, 0xea,
            0xb4, 0x9e, 0x5d, 0x7c,
        ],
        status: 6,
        said: b"file: ways 2 up\n",
    },
    Sealed {
        file: &FIRST_VERSION,
        changes: &[(336, 0x45)],
        digest: [
            0xaa, 0x11, 0x98, 0xeb, 0xcb, 0x69, 0xc0, 0xa5, 0xa1, 0x6e, 0x1f, 0xf1, 0xcd, 0x55,
            0x9b, 0xe9, 0x0b, 0xae, 0x9b, 0x71, 0xae, 0xe6, 0x4c, 0x85, 0x1c, 0x28, 0x56, 0xae,
            0x7d, 0xdb, 0xaf, 0xb9,
        ],
        status: 0,
        said: b"arrive=29100 arcs=0 1\n",
    },
    Sealed {
        file: &FIRST_VERSION,
        changes: &[(212, 0xfb)],
        digest: [
            0x1c, 0xe5, 0x60, 0x72, 0x3c, 0x90, 0x33, 0xd1, 0xe6, 0x09, 0x9f, 0xc4, 0xa9, 0x2b,
            0x7b, 0x9c, 0x21, 0x01, 0x05, 0x80, 0x91, 0x4d, 0x0f, 0x94, 0x2f, 0x2d, 0x96, 0x54,
            0xd4, 0x4f, 0x1e, 0xd8,
        ],
        status: 0,
        said: b"arrive=28991 arcs=2\n",
    },
];

// The file of a row, with its changes and its digest.
fn file_of(alloc: Global, row: &Sealed) -> Result<Vec<u8>, NoMemory> {
    let mut file = Vec::from_slice(alloc, row.file)?;
    for (place, byte) in row.changes {
        if let Some(changed) = file.get_mut(*place) {
            *changed = *byte;
        }
    }
    let body = file.len().saturating_sub(32);
    file.truncate(body);
    file.extend_from_slice(&row.digest)?;
    Ok(file)
}

// Whether `ask` over a sealed file has its status and says what it should.
fn is_sealed(alloc: Global, row: &Sealed) -> Result<bool, NoMemory> {
    let file = file_of(alloc, row)?;
    Ok(asks(alloc, &file, row.status, row.said))
}

#[test]
fn sealed_files_are_checked(rt: HostRuntime) -> Result<(), Fail> {
    for row in &SEALED {
        assert!(rt; is_sealed(rt.alloc(), row)?);
    }
    Ok(())
}
