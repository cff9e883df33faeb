ghost use Rattle.std.specs.Prelude.{◌≡◌, ℕ, List, [], Option, Some, None, Ok, Contains, false};
ghost use Rattle.std.specs.Prelude.{true, filter, map, nat_lt, unwrap_or, Result, IfErr, IfSome};
ghost use Rattle.std.specs.Prelude.{All, Bool};
ghost use Rattle.sqlite.specs.Files.{file_state};
ghost use Rattle.sqlite.specs.State.{HasCleanDisk};
ghost use Rattle.sqlite_wal.specs.Recovery.{Image};
ghost use Rattle.audit.specs.Fails.{IsFailure};
ghost use Rattle.audit.specs.declared.audited.Audited.{Audited};
ghost use Rattle.audit_rows.specs.declared.finding.AuditFault.{AuditFault};
ghost use Rattle.sts_fields.specs.Day.{day_at};
ghost use Rattle.sts_fields.specs.Text.{Text};
ghost use Rattle.sts_token.specs.Token.{BlockFunction};
ghost use Rattle.book_tables.specs.row.Rows.{present_format};
ghost use Rattle.book_facts.specs.Lookups.{listed_shift};
ghost use Rattle.book_states.specs.declared.lookup.Found.{Found as WhatIsFound};
ghost use Rattle.book_states.specs.declared.lookup.Found.TheVariants.{Quote as Quoted};
ghost use Rattle.book_states.specs.declared.lookup.ListedMeter.{ListedMeter};
ghost use Rattle.book_states.specs.declared.lookup.ListedTariff.{ListedTariff};
ghost use Rattle.book_states.specs.declared.lookup.Quote.{Quote};
ghost use Rattle.books.specs.Lookups.{quote};
ghost use Rattle.books.specs.Path.{StandsIn};
ghost use Rattle.books.specs.declared.books.Books.{Books};
ghost use Rattle.sqlite_store.specs.declared.store.FileStore.{FileStore as Files};
ghost use Rattle.command_line.specs.Transform.{shipped};
ghost use Rattle.command_line.specs.declared.place.FilePlace.{FilePlace};
ghost use Rattle.command_line.specs.declared.transform.Shipped.{Shipped};
ghost use Rattle.papers.specs.Export.{export_of};
ghost use Rattle.papers.specs.Receipt.{receipt_of};
ghost use Rattle.desk_messages.specs.reply.Records.{sale_text};
ghost use Rattle.program_laws.specs.Sound.{EndsSound};
ghost use Rattle.office_commands.specs.commands.AtFile.{IsAskedOfFile};
ghost use Rattle.office_commands.specs.commands.Audited.{IsAudited};
ghost use Rattle.office_commands.specs.commands.LookedUp.{IsPurchaseFor};
ghost use Rattle.office_commands.specs.office.Audits.{AuditsIn};
ghost use Rattle.office_commands.specs.office.Closed.{IsClosed};
ghost use Rattle.vend_commands.specs.serving.Connections.{AreHeld, Service, service};
ghost use Rattle.program_laws.specs.Courses.{Course, KeepsLast, LiveOn};
ghost use Rattle.vend_core.specs.Law.Life.{AreLives, Life, SellsUnder};
ghost use Rattle.office_rules.specs.Office.{IsOffice, Office};
ghost use Rattle.office_rules.specs.declared.decision.answer.Answer.TheVariants.{Sold};
ghost use Rattle.office_rules.specs.declared.decision.request.Order.{Order};
ghost use Rattle.office_rules.specs.declared.office.sale.Sale.{Sale};
ghost use Rattle.office_commands.specs.port.Back.{is_untouched, lets_go_giving};
ghost use Rattle.office_commands.specs.port.Places.{places_of};
ghost use Rattle.vend_commands.specs.port.Machines.{loop_of, way};
ghost use Rattle.program_laws.specs.runs.EachRun.{KeepsEachRun};
ghost use Rattle.program_laws.specs.runs.Here.{here_of};
ghost use Rattle.program_laws.specs.runs.Promise.{KeepsPromise};
ghost use Rattle.program_laws.specs.runs.Words.{selling};
ghost use Rattle.program_laws.specs.Selling.{EndsSold, PrintsSale};
ghost use Rattle.office_commands.specs.office.Served.{TellsReply};
ghost use Rattle.desk_commands.specs.print.Pages.{ArePages};
ghost use Rattle.desk_commands.specs.print.ListTexts.{pages_text, shift_rows_text};
ghost use Rattle.program_laws.specs.WholeLists.{AreAllMeters, AreAllTariffs, whole_meters_text};
ghost use Rattle.program_laws.specs.WholeLists.{whole_tariffs_text};
ghost use Rattle.program_laws.specs.DeskLaw.{AreAnswered, AreAskable, AreHandedOut, ArePrinted};
ghost use Rattle.program_laws.specs.DeskLaw.{AreRead, AreSame};
ghost use Rattle.vend_ports.specs.print.Told.{Outputs};
ghost use Rattle.office_commands.specs.office.Visited.{seen_in};
ghost use Rattle.vend_ports.specs.declared.command_end.CommandEnd.{CommandEnd};
ghost use Rattle.vend_ports.specs.declared.command_end.CommandEnd.TheVariants.{Done};
ghost use Rattle.asks.specs.declared.lookup.Lookup.{Lookup};
ghost use Rattle.vend_ports.specs.commands.Timed.{IsTakenMoment};
ghost use Rattle.vend_ports.specs.port.Dial.{dial_of};
ghost use Rattle.vend_ports.specs.port.Texts.{texts_of};

use asks::ask_law;
use book_tables::PRESENT_FORMAT;
use books::{found_law, opening_law};
use desk::{Clock, date_law, meaning_law};
use desk_client::{page_law, question_law, told_law};
use office_commands::lost_law;
use office_rules::store_law;
use papers::{export_fields_law, export_law};
use sqlite::FileStore;
use sqlite_trees::store::Store;
use sts_fields::amount_law;
use tariff::purchase_law;
use vend_commands::{Door, Machine, OfficeFile, TextFiles};
use vend_core::{credited_law, life_law, lives_law, office_law, reached_law};

/// What the pages of a list print together where the last one is not full: the lines of all
/// tariffs after a name and of all meters after a number, each once, in the order of their bytes;
/// of all shifts after a number; and all sales after a number, as the export has them.
pub fn list_law()
    ensures tariffs { (office : Office) (moment : ℕ) (after : Option Text)
        (pages : List WhatIsFound)
        → ArePages office moment (Some (Lookup.Tariffs after)) pages None
        → (tariffs : List ListedTariff)
        × AreAllTariffs office (day_at moment) (unwrap_or after []) tariffs
        × (pages_text false pages ≡ whole_tariffs_text true tariffs) }
    ensures meters { (office : Office) (moment : ℕ) (after : Option Text)
        (pages : List WhatIsFound)
        → ArePages office moment (Some (Lookup.Meters after)) pages None
        → (meters : List ListedMeter) × AreAllMeters office (unwrap_or after []) meters
        × (pages_text false pages ≡ whole_meters_text true meters) }
    ensures shifts { (office : Office) (moment after : ℕ) (pages : List WhatIsFound)
        → IsOffice office
        → ArePages office moment (Some (Lookup.Shifts after)) pages None
        → pages_text false pages ≡ shift_rows_text true
        (map (listed_shift office) (filter (λ s. nat_lt after s.number) office.shifts)) }
    ensures sales { (office : Office) (moment after : ℕ) (pages : List WhatIsFound)
        → IsOffice office
        → ArePages office moment (Some (Lookup.Sales after)) pages None
        → pages_text false pages
        ≡ export_of true (filter (λ s. nat_lt after s.number) office.sales) }
{
    export_law();
}

/// A `sell` that ends as done on files that stood for an office printed the receipt of the sale
/// that the office's rules give for the order, at the moment that its words give or else at the
/// clock's; and this sale is in all that a crash may leave of the files once they are closed. Of a
/// granted sale it prints the receipt and nothing else: if memory ran out, that was before anything
/// was sold.
pub fn sell_law<H: OfficeFile, F: TextFiles, C: Clock>()
    ensures done { (file : H) (back : Option (H.Medium × H.Medium)) (texts : F) (clock : C)
        (place : FilePlace) (order : Order) (json : Bool) (office : Office) (o : Outputs)
        → StandsIn (H.image file place.path.now) office
        → IsAskedOfFile ⟦<FileStore<H::Medium> as Store>⟧
        (places_of H.Medium.Disk H.Salts.SaltSource H.OfficeFile file back)
        (is_untouched H.OfficeFile file back) (texts_of F.TextFiles texts)
        (dial_of C.Clock clock) place (selling order) json o Done
        → (moment : ℕ) × IsTakenMoment place.at (dial_of C.Clock clock) (Some moment)
        × EndsSold ⟦<FileStore<H::Medium> as Store>⟧
        (IsClosed H.Medium.Disk (lets_go_giving H.OfficeFile back)) place.transform order
        moment office o }
    ensures told { (sale : Sale) (o : Outputs) (end : CommandEnd)
        → TellsReply (Ok (Sold sale)) o end → PrintsSale sale o end }
{
    office_law();
}

/// The format of the files that the program writes, and tells.
pub fn format_law()
    ensures { PRESENT_FORMAT ≡ present_format }
{}

/// What `offer` prints is a purchase that `quote` prints: of the steps that hold for the
/// meter on the day, after the tenths that its month has before.
pub fn offer_law()
    ensures { (office : Office) (moment : ℕ) (meter : Text) (tender : ℕ) (quoted : Quote)
        → quote office moment meter tender ≡ Ok (Quoted quoted)
        → IsPurchaseFor office moment meter tender quoted }
{}

/// An `audit` that ends as done printed `sound` with what it counted. If the disk returned what was
/// written, it counted a database that an opening of the files may find, and this stands for an
/// office that requests may lead to. With a transform its tokens were written by this one.
pub fn sound_law<H: OfficeFile>()
    ensures { (file : H) (back : Option (H.Medium × H.Medium)) (path : Text) (wait : ℕ)
        (given : Option BlockFunction) (o : Outputs)
        → IsAudited (places_of H.Medium.Disk H.Salts.SaltSource H.OfficeFile file back path wait)
        given o Done
        → EndsSound H.Medium.Disk (H.image file path) (lets_go_giving H.OfficeFile back) given o }
{}

/// `audit` finds no broken row in files that stand for an office that lives lead to, if the disk
/// returned what was written and, with a transform, these lives took orders under it alone: it
/// counts, or could not read the files. So of a file that nothing else wrote it never prints
/// `broken`.
pub fn broken_law<H: OfficeFile>()
    ensures { (image : Image) (back : Option (H.Medium × H.Medium)) (given : Option BlockFunction)
        (answer : Result Audited AuditFault) (lives : List Life) (office : Office)
        → AreLives lives office
        → IfSome given (λ forward. All (SellsUnder forward) lives)
        → StandsIn image office
        → (told : AuditsIn H.Medium.Disk image (lets_go_giving H.OfficeFile back) given answer)
        → HasCleanDisk (file_state told.last) → IfErr answer IsFailure }
{
    found_law::<FileStore<H::Medium>>();
    reached_law();
}

/// What holds of connections that are served one after another, and of the openings between them:
/// while the disk returns what was written, they are lives of one office. Each connection went on
/// the last of them by the conversation over its own bytes, and by nothing beside; so what
/// `lives_law` of `vend_core` says of lives holds of these.
pub fn serve_law<H: OfficeFile, C: Clock, D: Door>()
    ensures { (first : Office) (clock : C) (forward : BlockFunction) (count : ℕ)
        (old new : Service D (Books (Files H.Medium H.Medium.Disk) Shipped
        ⟦<FileStore<H::Medium> as Store>⟧ shipped)) (printed : Text) (start : Course)
        → AreHeld (way D.Door D.Reader.remaining D.Writer.contents D.Line.uses)
        (C.reads clock) forward seen_in count old new printed
        → HasCleanDisk (seen_in new.books).state
        → KeepsLast first start.over start.life (seen_in old.books)
        → ∥ LiveOn first (way D.Door D.Reader.remaining D.Writer.contents D.Line.uses)
        forward seen_in count (service old.door start old.answers) new ∥₁ }
{
    lives_law();
}

/// What holds of each run of the program on a file, whatever lives were before it: stopped between
/// two calls or within one, or not at all.
///
/// While the disk returns what was written and nobody else writes the file, it adds lives to those
/// before, and whatever the file may hold after it stands for an office that all of them may leave.
/// Each sale that it got in a reply, read, exported or told a connection of `serve` is handed out
/// in these lives, and an order that any of them sold is sold once. The first of them opened the
/// empty office, or one that was found in the file.
///
/// No machine but its own is spoken of. So of several runs, each on a machine of its own, each is a
/// use of this.
pub fn run_law<M: Machine>()
    ensures { KeepsEachRun (here_of M.Office.Medium.Disk M.Office.Salts.SaltSource
        M.Office.OfficeFile M.Texts.TextFiles M.Clock.Clock
        (way M.Door.Door M.Door.Reader.remaining M.Door.Writer.contents M.Door.Line.uses)
        (loop_of M.Loopback.Loopback M.Loopback.Stream.remaining M.Loopback.Stream.contents)) }
{
    lives_law();
    life_law();
    office_law();
    store_law();
    opening_law::<FileStore<<M::Office as OfficeFile>::Medium>>();
    found_law::<FileStore<<M::Office as OfficeFile>::Medium>>();
    lost_law::<<M::Office as OfficeFile>::Medium>();
}

/// What holds of the lives that runs add one after another, each opened on what a stop of the one
/// before may leave, on one machine or on two.
///
/// Each sale that was handed out in them stands for ever, and no two of them differ under one
/// identifier, number or reference. The same words of `sell` print the receipt of the sale that
/// they made before, or why they print none. What a command printed by asking a desk is handed out
/// in the lives of the run of `serve` that answered.
pub fn program_law<M: Machine, N: Machine>()
    ensures { KeepsPromise (here_of M.Office.Medium.Disk M.Office.Salts.SaltSource
        M.Office.OfficeFile M.Texts.TextFiles M.Clock.Clock
        (way M.Door.Door M.Door.Reader.remaining M.Door.Writer.contents M.Door.Line.uses)
        (loop_of M.Loopback.Loopback M.Loopback.Stream.remaining M.Loopback.Stream.contents))
        (here_of N.Office.Medium.Disk N.Office.Salts.SaltSource
        N.Office.OfficeFile N.Texts.TextFiles N.Clock.Clock
        (way N.Door.Door N.Door.Reader.remaining N.Door.Writer.contents N.Door.Line.uses)
        (loop_of N.Loopback.Loopback N.Loopback.Stream.remaining N.Loopback.Stream.contents)) }
{
    lives_law();
    credited_law();
    life_law();
    office_law();
    store_law();
    run_law::<M>();
    run_law::<N>();
    amount_law();
    purchase_law();
    reached_law();
    ask_law();
    meaning_law();
    date_law();
    told_law();
    question_law();
    page_law();
}

/// What is told of a sale names it: two sales of an office with one receipt are one sale, and so
/// are two with one text in JSON. So the bytes that a customer holds acknowledge one sale.
pub fn receipt_once()
    ensures receipt { (o : Office) (s t : Sale) → IsOffice o → Contains o.sales s
        → Contains o.sales t → receipt_of s ≡ receipt_of t → s ≡ t }
    ensures json { (o : Office) (s t : Sale) → IsOffice o → Contains o.sales s
        → Contains o.sales t → sale_text s ≡ sale_text t → s ≡ t }
{
    export_fields_law();
}

/// What a command that asks a desk prints is what the same command prints of the desk's office. The
/// desk read what the command sent, and answered it by its own law, and its whole reply came.
pub fn at_desk_law()
    ensures askable { AreAskable }
    ensures line { AreAnswered }
    ensures printed { ArePrinted }
    ensures read { AreRead }
    ensures handed { AreHandedOut }
    ensures same { AreSame }
{
    amount_law();
    purchase_law();
    office_law();
    life_law();
    reached_law();
    store_law();
    ask_law();
    meaning_law();
    date_law();
    told_law();
    question_law();
    page_law();
}
