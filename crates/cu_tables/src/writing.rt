ghost use Rattle.std.specs.Prelude.{◌≡◌, [], length, map, option_map, Some, None, OnErr, OnOk, IfOk};
ghost use Rattle.cu_tables.specs.WrittenTexts.{AddsRow, MayFollow};

use csv::{Writer, WriterBuilder};
use cu_model::NoMemory;
use std::alloc::Global;
use std::marker::Model;

/// Writes rows into a text in memory, one line each, as csv's default writer does.
///
/// Its value is the text written so far, and how many fields its first row has. After a refusal it is none, and each later
/// call refuses too.
#[derive(Drop)]
pub struct RowWriter {
    writer: Writer<Vec<u8>>,
    width: Option<usize>,
    failed: bool,
}

impl Model for RowWriter {
    ghost use Rattle.std.specs.Prelude.{Option};
    ghost use Rattle.cu_tables.specs.WrittenTexts.{WrittenText};
    ghost use Rattle.cu_tables.specs.Steps.Written.{written, IsBetweenRows};

    ghost Value = { Option WrittenText };

    ghost view = { written };

    ghost invariant = { IsBetweenRows };
}

impl RowWriter {
    /// Writes into an empty text.
    pub fn new(alloc: Global) -> RowWriter
        ensures { result ≡ Some (record { text = []; width = None }) }
    {
        RowWriter {
            writer: WriterBuilder::new().from_writer(Vec::new(alloc)),
            width: None,
            failed: false,
        }
    }

    /// Writes one row, which has as many fields as the first row of the text.
    pub fn write_row(&mut self, fields: &[&[u8]]) -> Result<(), NoMemory>
        requires { MayFollow self.old (length fields.now) }
        ensures ok { OnOk result (AddsRow self.old self.new (map (λ f. f.now) fields.now)) }
        ensures refused { OnErr result (self.new ≡ None) }
    {
        if self.failed {
            return Err(NoMemory);
        }
        let Ok(()) = self.writer.write_fields(fields) else {
            self.failed = true;
            return Err(NoMemory);
        };
        self.width = Some(fields.len());
        Ok(())
    }

    /// The text that was written.
    pub fn finish(self) -> Result<Vec<u8>, NoMemory>
        ensures { IfOk result (λ text. option_map (λ written. written.text) self
            ≡ Some text.items) }
    {
        if self.failed {
            return Err(NoMemory);
        }
        match self.writer.into_inner() {
            Ok(text) => Ok(text),
            Err(_) => Err(NoMemory),
        }
    }
}
