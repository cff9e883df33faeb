//! What holds of the office's tables, whatever statement is run on them.

ghost use Rattle.std.specs.Prelude.{◌≡◌, ◌≤◌, ◌&&◌, ◌==◌, ℕ, false, List, Option, Some, All, Ok};
ghost use Rattle.std.specs.Prelude.{bytes_eq, filter, is_none, map, option_map};
ghost use Rattle.std.specs.List.{AllByRecursion};
ghost use Rattle.std.specs.Option.{option_to_list};
ghost use Rattle.sqlite.specs.Effect.{Database};
ghost use Rattle.sqlite_resolve.specs.Compile.{table_defined_by};
ghost use Rattle.sqlite_schema.specs.declared.schema.Schema.{Schema};
ghost use Rattle.tariff.specs.declared.step.Step.{Step};
ghost use Rattle.office_rules.specs.Decision.Edits.{applied};
ghost use Rattle.office_rules.specs.Office.Lookup.{open_shift, sale_numbered, sale_of_ref};
ghost use Rattle.office_rules.specs.Office.Lookup.{shift_numbered};
ghost use Rattle.office_rules.specs.Office.{IsOffice, Office, empty_office};
ghost use Rattle.office_rules.specs.Law.Store.{Meets};
ghost use Rattle.office_rules.specs.declared.decision.change.Edit.{Edit};
ghost use Rattle.office_rules.specs.declared.office.meter.Meter.{Meter};
ghost use Rattle.office_rules.specs.declared.office.sale.Sale.{Sale};
ghost use Rattle.office_rules.specs.declared.office.shift.Shift.{Shift};
ghost use Rattle.book_tables.specs.writing.Edited.{edited, is_sale, no_rows};
ghost use Rattle.book_tables.specs.reading.Found.{meters_numbered, tariffs_named};
ghost use Rattle.book_tables.specs.Holds.{HasOfficeOf, HoldsMembers, HoldsMembersOf, IsUntaken};
ghost use Rattle.book_tables.specs.Holds.{StandsFor};
ghost use Rattle.book_tables.specs.Kept.{kept};
ghost use Rattle.book_tables.specs.row.ReadBack.{ReadsBack};
ghost use Rattle.book_tables.specs.row.Rows.{Rows, present_format, shown_meter, shown_number};
ghost use Rattle.book_tables.specs.row.Rows.{shown_sale, shown_shift, shown_step};
ghost use Rattle.book_tables.specs.Stands.{AreMembersOf};
ghost use Rattle.book_tables.specs.row.Values.{AreMeterValues, AreSaleValues, AreShiftValues};
ghost use Rattle.book_tables.specs.row.Values.{AreStepValues, IsNumber, IsSoldAmount, IsTid};

/// A database stands for at most one office: the empty one if it has none of the tables, else the
/// one whose members its rows are.
pub fn stands_law()
    // It stands for at most one, and for the empty one where it has none of the tables.
    ensures one_office { (db : Database) (o p : Office) → StandsFor db o → StandsFor db p → o ≡ p }
    ensures untaken { (db : Database) → IsUntaken db.schema → StandsFor db empty_office }
    ensures members { (db : Database) (o : Office)
        → IsOffice o → HoldsMembers db o → StandsFor db o }
    // By the format of its tables, of which there is one: it holds the office's members in them,
    // and where there are none the office is empty.
    ensures held { (db : Database) (o : Office) (n : ℕ)
        → StandsFor db o → n ≤ present_format → HasOfficeOf n db.schema
        → HoldsMembersOf n db o × (n ≡ 0 → o ≡ empty_office) }
    ensures one_format { (s : Schema) (m n : ℕ) → m ≤ present_format → n ≤ present_format
        → HasOfficeOf m s → HasOfficeOf n s → m ≡ n }

    // The members of an office keep the rules of their values, so that no row of theirs is refused.
    ensures steps { (o : Office) (name : List ℕ) (steps : List Step)
        → IsOffice o → o.tariffs name ≡ Some steps → All AreStepValues steps }
    ensures meters { (o : Office) (number : List ℕ) (m : Meter)
        → IsOffice o → o.meters number ≡ Some m → AreMeterValues m }
    ensures shifts { (o : Office) → IsOffice o → All AreShiftValues o.shifts }
    ensures sales { (o : Office) → IsOffice o → All AreSaleValues o.sales }

    // What is stored of a value that keeps its rules reads back as that value.
    ensures number_back { (n : ℕ) (read : Option ℕ)
        → IsNumber n → ReadsBack shown_number IsNumber (shown_number n) read → read ≡ Some n }
    ensures tid_back { (tid : ℕ) (read : Option ℕ)
        → IsTid tid → ReadsBack shown_number IsTid (shown_number tid) read → read ≡ Some tid }
    ensures amount_back { (tenths : ℕ) (read : Option ℕ)
        → IsSoldAmount tenths → ReadsBack shown_number IsSoldAmount (shown_number tenths) read
        → read ≡ Some tenths }
    ensures step_back { (s : Step) (read : Option Step)
        → AreStepValues s → ReadsBack shown_step AreStepValues (shown_step s) read → read ≡ Some s }
    ensures meter_back { (m : Meter) (read : Option Meter)
        → AreMeterValues m → ReadsBack shown_meter AreMeterValues (shown_meter m) read
        → read ≡ Some m }
    ensures shift_back { (s : Shift) (read : Option Shift)
        → AreShiftValues s → ReadsBack shown_shift AreShiftValues (shown_shift s) read
        → read ≡ Some s }
    ensures sale_back { (s : Sale) (read : Option Sale)
        → AreSaleValues s → ReadsBack shown_sale AreSaleValues (shown_sale s) read → read ≡ Some s }

    // The text of each table defines it.
    ensures defined { AllByRecursion (λ k. table_defined_by k.text ≡ Ok k.table) kept }
{}

/// What the rows have of the office whose members they are, and how both change by an edit.
pub fn members_law()
    // An edit that its office decided leaves the rows its members; and so does a sale, with which
    // its totals come.
    ensures empty { AreMembersOf no_rows empty_office }
    ensures edited { (rows : Rows) (o : Office) (edit : Edit)
        → AreMembersOf rows o → Meets edit o → is_sale edit ≡ false
        → AreMembersOf (edited edit rows) (applied edit o) }

    // The rows that have what is looked up are what the office has under it.
    ensures tariff { (rows : Rows) (o : Office) (name : List ℕ) → AreMembersOf rows o
        → tariffs_named rows name ≡ option_to_list (option_map (λ _. name) (o.tariffs name)) }
    ensures meter { (rows : Rows) (o : Office) (number : List ℕ) → AreMembersOf rows o
        → map (λ r. r.1) (meters_numbered rows number) ≡ option_to_list (o.meters number) }

    // At most one shift and one sale pass each test.
    ensures shift_numbered { (o : Office) (number : ℕ) → IsOffice o
        → filter (λ s. s.number == number) o.shifts ≡ option_to_list (shift_numbered o number) }
    ensures open_shift { (o : Office) (operator : List ℕ) → IsOffice o
        → filter (λ s. bytes_eq s.operator operator && is_none s.closed) o.shifts
        ≡ option_to_list (open_shift o operator) }
    ensures sale_numbered { (o : Office) (number : ℕ) → IsOffice o
        → filter (λ s. s.number == number) o.sales ≡ option_to_list (sale_numbered o number) }
    ensures sale_of_ref { (o : Office) (operator order_ref : List ℕ) → IsOffice o
        → filter (λ s. bytes_eq s.operator operator && bytes_eq s.order_ref order_ref) o.sales
        ≡ option_to_list (sale_of_ref o operator order_ref) }
{}
