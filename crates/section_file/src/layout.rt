// The sections of a file among its numbers.
ghost use Rattle.std.specs.Prelude.{◌≡◌, option_map, pos};
ghost use Rattle.std.specs.Int.Signed.{le_z};
ghost use Rattle.std.specs.List.{list_all};
ghost use Rattle.section_file.specs.Layout.{section_of, laid_out};

use rules::{Section, Timing};
use std::marker::Model;

// A section, and the departures that were recorded of it, none where it is to be planned.
#[derive(Drop)]
pub struct File<'a> {
    pub section: Section<'a>,
    pub recorded: &'a [i32],
}

// Clauses see the file that is meant; no list of it has more than 512 numbers.
impl<'a> Model for File<'a> {
    ghost use Rattle.std.specs.Prelude.{map, nat_abs, ◌≤◌, length};
    ghost use Rattle.rules.specs.Trains.{told};
    ghost use Rattle.section_file.specs.Layout.{File};

    ghost Value = { File };

    ghost view = { λ f. record { section = told f.section; recorded = map nat_abs f.recorded.now } };

    ghost invariant = { λ f. (length f.section.one.now ≤ 512) × (length f.section.two.now ≤ 512) × (length f.recorded.now ≤ 512) };
}

// Whether no number is below 0.
fn unsigned(values: &[i32]) -> bool
    ensures { result ≡ list_all (le_z (pos 0)) values.now }
{
    values.iter().all(|n| 0 <= *n)
}

// A section's numbers, and those that follow it. It begins with its count, which is from `least` to `most`.
fn section(values: &[i32], least: usize, most: usize, minus: bool) -> Option<(&[i32], &[i32])>
    ensures { option_map (λ p. (p.0.now, p.1.now)) result ≡ section_of least most minus values.now }
{
    let (count, rest) = values.split_first()?;
    let count = usize::try_from(*count).ok()?;
    if !(least..=most).contains(&count) {
        return None;
    }
    let (numbers, rest) = rest.split_at_checked(count)?;
    (minus || unsigned(numbers)).then_some((numbers, rest))
}

// The file that numbers are.
#[tactic(auto, using(crate::proofs::Sections::counted, crate::proofs::Sections::something_more, crate::proofs::Sections::nothing_more), unfolding(crate::specs::Layout::laid_out, rules::specs::Figures::figure))]
pub fn find(values: &[i32]) -> Option<File<'_>>
    ensures { result ≡ laid_out values.now }
{
    let (heading, rest) = section(values, 3, 3, false)?;
    let (one, rest) = section(rest, 0, 512, true)?;
    let (two, rest) = section(rest, 0, 512, true)?;
    let (recorded, rest) = section(rest, 0, 512, false)?;
    if !rest.is_empty() {
        return None;
    }
    // no number of a heading is below 0
    let timing = Timing {
        running: heading[1].unsigned_abs(),
        headway: heading[2].unsigned_abs(),
    };
    Some(File {
        section: Section {
            objective: heading[0].unsigned_abs(),
            timing,
            one,
            two,
        },
        recorded,
    })
}
