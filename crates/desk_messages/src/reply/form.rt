ghost use Rattle.std.specs.Prelude.{◌≡◌, ◌++◌, codes};
ghost use Rattle.desk_messages.specs.reply.Text.{field_line, media_type};
ghost use Rattle.desk_messages.specs.reply.Head.{answer_form, found_form};

use book_states::Found;
use office_rules::Answer;

/// What a sale is told as. All else that the office answers has one form only.
#[derive(Clone, Copy, Debug, PartialEq, Eq, Hash)]
pub enum Form {
    /// An object of JSON.
    Json,
    /// A text to be printed: a receipt or a report.
    Paper,
}

impl Form {
    // The form of an answer, where a sale is to have this one.
    pub(crate) fn of(self, answer: &Answer) -> Form
        ensures { result ≡ answer_form self answer.now }
    {
        match answer {
            Answer::Sold(_) | Answer::Reprinted(_) => self,
            Answer::Report(..) => Form::Paper,
            Answer::Done
            | Answer::Imported(_)
            | Answer::Withdrawn(_)
            | Answer::Opened(_)
            | Answer::Closed(_) => Form::Json,
        }
    }

    // The form of what was found, where a sale is to have this one.
    pub(crate) fn of_found(self, found: &Found) -> Form
        ensures { result ≡ found_form self found.now }
    {
        match found {
            Found::Sale(_) => self,
            Found::Health(_) | Found::Meter(_) | Found::Quote(_) | Found::ShiftTotals(..) =>
                Form::Json,
            Found::Tariffs(_) | Found::Meters(_) | Found::Shifts(_) | Found::Sales(_) => Form::Json,
        }
    }

    // The fields that tell of a body, up to its length.
    pub(crate) fn content_front(self) -> &'static str
        ensures { result.now ≡ field_line (codes "Content-Type") (media_type self)
            ++ codes "Content-Length: " }
    {
        match self {
            Form::Json => "Content-Type: application/json\r\nContent-Length: ",
            Form::Paper => "Content-Type: text/plain\r\nContent-Length: ",
        }
    }
}
