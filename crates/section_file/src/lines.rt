// The lines of an answer, put onto the page.
ghost use Rattle.std.specs.Prelude.{◌≡◌, ◌∷◌, ◌≤◌, map, length};
ghost use Rattle.rules.specs.Trains.{told};
ghost use Rattle.rules.specs.Answers.{says};
ghost use Rattle.text.specs.Written.{decimal, signed};
ghost use Rattle.section_file.specs.Lines.{line, station_number, printed};
ghost use Rattle.section_file.specs.Printing.{with_more, Complete, refusal_line, station_lines};

use rules::{Answer, Refusal, Section, Station, Timing};
use text::page::Page;

// Puts a word, and then numbers, as a line.
fn put_line(page: &mut Page<8192>, word: &[u8], fields: &[i64])
    ensures { page.new ≡ with_more page.old (line (word.now ∷ map signed fields.now)) }
{
    page.put(word);
    for field in fields {
        page.put(b" ");
        page.put(text::write::number(*field).as_bytes());
    }
    page.put(b"\n");
}

// A station's number, as its trains' lines begin.
#[tactic(auto, unfolding(text::specs::Written::decimal))]
fn station_word(station: Station) -> &'static [u8]
    ensures { result.now ≡ decimal (station_number station) }
{
    match station {
        Station::One => b"1",
        Station::Two => b"2",
    }
}

// Puts a line for each train of a station, from its departures.
// A place and an arrival are proved to be numbers of an i64.
fn put_trains(page: &mut Page<8192>, timing: Timing, station: Station, departures: &[u32])
    requires room { length page.old ≤ 8192 }
    requires few { length departures.now ≤ 96 }
    ensures { page.new ≡ with_more page.old (station_lines timing station 0 departures.now) }
{
    for (place, departure) in departures.iter().enumerate() {
        let arrival = line::arrival(timing, station, *departure);
        put_line(
            page,
            station_word(station),
            &[place as i64, i64::from(*departure), arrival as i64],
        );
    }
}

// Puts a refusal as a line.
#[tactic(auto, unfolding(crate::specs::Lines::refused_word))]
fn put_refusal(page: &mut Page<8192>, refusal: Refusal)
    ensures { page.new ≡ with_more page.old (refusal_line refusal.number refusal.first refusal.second) }
{
    let number = i64::from(refusal.number);
    let first = i64::from(refusal.first);
    let second = i64::from(refusal.second);
    put_line(page, b"refused", &[number, first, second]);
}

// Puts an answer to a section, about the departures of its trains: a word with the value and the trains' lines, or the refusal.
#[tactic(auto, using(refusals::proofs::Table::numbers_positive))]
pub fn put_answer(
    page: &mut Page<8192>,
    word: &[u8],
    section: &Section,
    answer: Answer,
    departures: &[u32],
)
    requires { Complete (told section.now) (says answer) departures.now }
    ensures { page.new ≡ with_more page.old (printed word.now (told section.now) (says answer) departures.now) }
{
    match answer.outcome {
        Ok(value) => {
            put_line(page, word, &[value]);
            let ones = section.one.len() / costs::numbers(section.objective);
            let (one, two) = departures.split_at(ones);
            put_trains(page, section.timing, Station::One, one);
            put_trains(page, section.timing, Station::Two, two);
        }
        Err(refusal) => put_refusal(page, refusal),
    }
}
