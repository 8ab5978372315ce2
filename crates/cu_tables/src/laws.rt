ghost use Rattle.std.specs.Prelude.{◌≡◌, ◌<◌, ◌∷◌, [], map, ℕ, List};
ghost use Rattle.csv.proofs.RoundTrip.{rows_text};
ghost use Rattle.csv.specs.Writing.{read_back};
ghost use Rattle.cu_tables.specs.Tables.{table};

/// A law: what was written is read back as the rows that were given, where the text begins with an ASCII byte
/// and so with no byte-order mark. A row of no fields is read back as one empty field.
pub fn reads_back()
    ensures none { table (rows_text []) ≡ [] }
    ensures some { (rows : List (List (List ℕ))) → (first : ℕ) → (rest : List ℕ)
        → rows_text rows ≡ first ∷ rest → first < 128
        → table (rows_text rows) ≡ map read_back rows }
{}
