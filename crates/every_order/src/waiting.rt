// Schedules with random waiting: none has a smaller value than the plan, and the judge says of each what this program does.
use crate::checks::count;
use crate::random::Random;
use crate::schedules::Departures;
use crate::sections::Section;
use rules::Refusal;
use std::array;

// Moves one train's departure a second or two, later or earlier.
fn damage(section: &Section, departures: &mut Departures, random: &mut Random) {
    let train = random.below(section.count as u32) as usize;
    let seconds = 1 + random.below(2);
    let earlier = random.below(2) == 0;
    let departure = departures[train];
    departures[train] = if earlier && seconds <= departure {
        departure - seconds
    } else {
        departure.saturating_add(seconds)
    };
}

// Whether the judge says otherwise than this program: refusal 9 with the first pair in conflict, or the value.
fn judged_otherwise(section: &Section, departures: &Departures) -> bool {
    let answer = judge::judge(
        section.objective as u32,
        section.timing,
        section.one.as_slice(),
        section.two.as_slice(),
        &departures[..section.count],
    );
    let expected = match section.conflict(departures) {
        None => Ok(section.value(departures)),
        Some((first, second)) => Err(Refusal {
            number: 9,
            first,
            second,
        }),
    };
    answer.outcome != expected
}

// The differences over one random schedule, as it is and damaged.
fn tried(section: &Section, best: i64, random: &mut Random) -> u64 {
    let order = section.random_order(random);
    // six are drawn whatever the trains, so that every section takes as many numbers
    let waits: [u32; 6] = array::from_fn(|_| random.below(4));
    let departures = section.scheduled(&order, &waits);
    let mut moved = departures;
    damage(section, &mut moved, random);
    count(&[
        section.conflict(&departures).is_some(),
        section.value(&departures) < best,
        judged_otherwise(section, &departures),
        judged_otherwise(section, &moved),
    ])
}

// The differences over 20 random schedules.
pub fn differences(section: &Section, best: i64, random: &mut Random) -> u64 {
    let mut differences = 0u64;
    for _ in 0..20 {
        differences = differences.saturating_add(tried(section, best, random));
    }
    differences
}
