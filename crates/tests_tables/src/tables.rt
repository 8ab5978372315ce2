//! Rows of texts, read and written.

use csv::ByteRecord;
use cu_model::NoMemory;
use cu_tables::{RowWriter, TakesRows, each_row, each_row_below, field, number_at};
use std::alloc::Global;

// Why a text isn't shown whole.
#[derive(Clone, Copy, PartialEq, Eq)]
enum Refusal {
    Header,
    Stop,
}

// Shows the rows with a bar behind each field and a semicolon behind each row, and refuses the row `stop`.
#[derive(Drop)]
struct Shown {
    text: Vec<u8>,
}

impl TakesRows for Shown {
    type Refusal = Refusal;

    ghost takes = { λ s row t. Unit {0} };

    ghost refuses = { λ s row why t. Unit {0} };

    fn take_row(
        &mut self,
        _alloc: Global,
        row: &ByteRecord,
    ) -> Result<Result<(), Refusal>, NoMemory> {
        if row.len() == 1 && field(row, 0) == b"stop".as_slice() {
            return Ok(Err(Refusal::Stop));
        }
        for i in 0..row.len() {
            self.text.extend_from_slice(field(row, i))?;
            self.text.push(b'|')?;
        }
        self.text.push(b';')?;
        Ok(Ok(()))
    }
}

// Whether a text is shown so, to this answer.
fn shows(alloc: Global, text: &[u8], shown: &[u8], answer: Result<(), Refusal>) -> bool {
    let mut taker = Shown {
        text: Vec::new(alloc),
    };
    each_row(alloc, text, &mut taker) == Ok(answer) && taker.text.as_slice() == shown
}

// Texts, how they are shown, and the answer.
const TEXTS: [(&[u8], &[u8], Result<(), Refusal>); 6] = [
    (b"", b"", Ok(())),
    (b"a,b\r\n\n\nc\n", b"a|b|;c|;", Ok(())),
    (b"\xef\xbb\xbfa\n1,,2", b"a|;1||2|;", Ok(())),
    (b"\"a,b\",\"c\"\"d\"\n", b"a,b|c\"d|;", Ok(())),
    (b" a , b\n", b" a | b|;", Ok(())),
    (b"a\nstop\nb\n", b"a|;", Err(Refusal::Stop)),
];

#[test]
fn goes_through_rows(rt: HostRuntime) {
    for (text, shown, answer) in &TEXTS {
        assert!(rt; shows(rt.alloc(), *text, *shown, *answer));
    }
}

// Whether a text whose first row has to be this header is shown so below it, to this answer.
fn shows_below(alloc: Global, text: &[u8], shown: &[u8], answer: Result<(), Refusal>) -> bool {
    let header = [b"x".as_slice(), b"y".as_slice()];
    let mut taker = Shown {
        text: Vec::new(alloc),
    };
    let found = each_row_below(alloc, &header, Refusal::Header, text, &mut taker);
    found == Ok(answer) && taker.text.as_slice() == shown
}

// The same of texts below a header.
const TEXTS_BELOW_A_HEADER: [(&[u8], &[u8], Result<(), Refusal>); 6] = [
    (b"", b"", Err(Refusal::Header)),
    (b"x,z\n1,2\n", b"", Err(Refusal::Header)),
    (b"x\n1\n", b"", Err(Refusal::Header)),
    (b"x,y\n", b"", Ok(())),
    (b"x,\"y\"\n1,2\nx,y\n", b"1|2|;x|y|;", Ok(())),
    (b"x,y\n1\nstop\n", b"1|;", Err(Refusal::Stop)),
];

#[test]
fn goes_through_rows_below_a_header(rt: HostRuntime) {
    for (text, shown, answer) in &TEXTS_BELOW_A_HEADER {
        assert!(rt; shows_below(rt.alloc(), *text, *shown, *answer));
    }
}

// Keeps the number of the first field of each row.
#[derive(Drop)]
struct Numbers {
    numbers: Vec<Option<u32>>,
}

impl TakesRows for Numbers {
    type Refusal = Refusal;

    ghost takes = { λ s row t. Unit {0} };

    ghost refuses = { λ s row why t. Unit {0} };

    fn take_row(
        &mut self,
        _alloc: Global,
        row: &ByteRecord,
    ) -> Result<Result<(), Refusal>, NoMemory> {
        if row.len() == 0 {
            return Ok(Err(Refusal::Stop));
        }
        self.numbers.push(number_at(row, 0))?;
        Ok(Ok(()))
    }
}

#[test]
fn reads_numbers(rt: HostRuntime) {
    let text = b"007\n4294967294\n4294967295\n99999999999999999999999\n\"\"\n-1\n1a\n";
    let mut taker = Numbers {
        numbers: Vec::new(rt.alloc()),
    };
    assert!(rt; each_row(rt.alloc(), text.as_slice(), &mut taker) == Ok(Ok(())));
    let widest = Some(4_294_967_295);
    let numbers = [
        Some(7),
        Some(4_294_967_294),
        widest,
        widest,
        None,
        None,
        None,
    ];
    assert!(rt; taker.numbers.as_slice() == numbers.as_slice());
}

#[test]
fn writes_rows(rt: HostRuntime) -> Result<(), NoMemory> {
    let mut writer = RowWriter::new(rt.alloc());
    writer.write_row(&[b"a".as_slice(), b"b,c".as_slice()])?;
    writer.write_row(&[b"".as_slice(), b"d\"e".as_slice()])?;
    let text = writer.finish()?;
    assert!(rt; text.as_slice() == b"a,\"b,c\"\n,\"d\"\"e\"\n".as_slice());
    Ok(())
}
