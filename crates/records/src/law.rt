ghost use Rattle.std.specs.Prelude.{◌≡◌, ◌++◌, ℕ, List, Some, true};
ghost use Rattle.std.specs.List.{AllByRecursion};
ghost use Rattle.serde_json.specs.Read.{read};
ghost use Rattle.records.specs.Cell.{Held, IsPlain};
ghost use Rattle.records.specs.Json.{record_data, rise};
ghost use Rattle.records.specs.Record.{Fits, record_text};

/// What the text of a record means: with these names it is the text of one list of cells only,
/// whatever follows it; and where the names are plain and each stands behind those before it, it is
/// the JSON of an object with exactly these members.
pub fn record_law()
    ensures one { (names : List (List ℕ)) (cells others : List Held) (rest more : List ℕ)
        → Fits names cells → Fits names others
        → record_text names cells ++ rest ≡ record_text names others ++ more
        → (cells ≡ others) × (rest ≡ more) }
    ensures json { (names : List (List ℕ)) (cells : List Held)
        → AllByRecursion IsPlain names → rise names ≡ true → Fits names cells
        → read (record_text names cells) ≡ Some (record_data names cells) }
{}
