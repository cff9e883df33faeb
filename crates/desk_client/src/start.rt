ghost use Rattle.std.specs.Prelude.{◌≡◌, ◌≢◌, ◌++◌, ◌∷◌, ◌^◌, ◌<◌, ◌↔◌, ℕ, List, MatchOption};
ghost use Rattle.std.specs.Prelude.{IsTrue, Option, decimal};
ghost use Rattle.office_rules.specs.Decision.Refusals.{refusal_category};
ghost use Rattle.desk_client.specs.Start.{BeginsAs, IsDated, IsHttpDate, category_start, date_end};
ghost use Rattle.desk_client.specs.Start.{head_end, start_text};

use crate::text::{behind, number, value_at};
use httpdate::HttpDate;
use office_rules::{Category, Refusal};

// The bytes of a date.
const DATE_LEN: usize = 29;

// What a reply begins with, up to the length of its body: what is granted is told as JSON or as a
// paper, and a refusal as JSON, by a status for its category.
#[derive(Clone, Copy, PartialEq, Eq)]
pub(crate) enum Start {
    Json,
    Paper,
    Missing,
    Forbidden,
    Unfit,
    Unable,
}

impl Start {
    // The start of the reply that tells a refusal.
    pub(crate) fn of(refusal: Refusal) -> Start
        ensures { result ≡ category_start (refusal_category refusal) }
    {
        match refusal.category() {
            Category::Missing => Start::Missing,
            Category::Forbidden => Start::Forbidden,
            Category::Unfit | Category::UnfitRow(..) => Start::Unfit,
            Category::Unable => Start::Unable,
        }
    }

    // Its text.
    fn text(self) -> &'static str
        ensures { result.now ≡ start_text self }
    {
        match self {
            Start::Json => "HTTP/1.1 200 OK\r\n\
                Content-Type: application/json\r\nContent-Length: ",
            Start::Paper => "HTTP/1.1 200 OK\r\n\
                Content-Type: text/plain\r\nContent-Length: ",
            Start::Missing => "HTTP/1.1 404 Not Found\r\n\
                Content-Type: application/json\r\nContent-Length: ",
            Start::Forbidden => "HTTP/1.1 409 Conflict\r\n\
                Content-Type: application/json\r\nContent-Length: ",
            Start::Unfit => "HTTP/1.1 422 Unprocessable Entity\r\n\
                Content-Type: application/json\r\nContent-Length: ",
            Start::Unable => "HTTP/1.1 503 Service Unavailable\r\n\
                Content-Type: application/json\r\nContent-Length: ",
        }
    }
}

// What follows a head, behind the line with the length: there may be a date before the empty line.
fn behind_date(text: &[u8]) -> Option<&[u8]>
    ensures { MatchOption result
        ((dated : Option (List ℕ)) (rest : List ℕ) → IsDated dated
        → text.now ≢ date_end dated ++ rest)
        (λ rest. (dated : Option (List ℕ)) × IsDated dated
        × (text.now ≡ date_end dated ++ rest.now)) }
{
    if let Some(rest) = behind(text, b"\r\n") {
        return Some(rest);
    }
    let Some(value) = behind(text, b"Date: ") else {
        return None;
    };
    match behind_value(value) {
        Some(rest) => Some(rest),
        None => None,
    }
}

// What follows a date and an empty line.
fn behind_value(text: &[u8]) -> Option<&[u8]>
    ensures { MatchOption result
        ((date rest : List ℕ) → IsHttpDate date
        → text.now ≢ date ++ (13 ∷ 10 ∷ 13 ∷ 10 ∷ rest))
        (λ rest. (date : List ℕ) × IsHttpDate date
        × (text.now ≡ date ++ (13 ∷ 10 ∷ 13 ∷ 10 ∷ rest.now))) }
{
    if text.len() < DATE_LEN {
        return None;
    }
    let (date, rest) = text.split_at(DATE_LEN);
    if !is_date(date) {
        return None;
    }
    match behind(rest, b"\r\n\r\n") {
        Some(rest) => Some(rest),
        None => None,
    }
}

// The text is a date as HTTP writes it today: the older forms are no such text.
fn is_date(text: &[u8]) -> bool
    ensures { IsTrue result ↔ IsHttpDate text.now }
{
    let Ok(date) = HttpDate::parse_ascii(text) else {
        return false;
    };
    let shown = date.to_bytes();
    shown.as_slice() == text
}

// The input begins with this start, or is the front of it.
pub(crate) fn begins_as(input: &[u8], start: Start) -> bool
    ensures { IsTrue result ↔ BeginsAs input.now start }
{
    let text = start.text().as_bytes();
    behind(input, text).is_some() || behind(text, input).is_some()
}

// The length of the body that a head of this start tells, and what follows the head.
pub(crate) fn head_at(input: &[u8], start: Start) -> Option<(u64, &[u8])>
    ensures { MatchOption result
        ((len : ℕ) (dated : Option (List ℕ)) (rest : List ℕ) → len < 2 ^ 64 → IsDated dated
        → input.now ≢ start_text start ++ (decimal len ++ (head_end dated ++ rest)))
        (λ found. (found.0 < 2 ^ 64) × (dated : Option (List ℕ)) × IsDated dated
        × (input.now
        ≡ start_text start ++ (decimal found.0 ++ (head_end dated ++ found.1.now)))) }
{
    let Some(rest) = input.strip_prefix(start.text().as_bytes()) else {
        return None;
    };
    let Some((digits, rest)) = value_at(rest, b"\r\n") else {
        return None;
    };
    let Some(rest) = behind_date(rest) else {
        return None;
    };
    match number(digits) {
        Some(len) => Some((len, rest)),
        None => None,
    }
}
