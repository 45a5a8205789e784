// The line as code: how long a departure waits for the one before it, and when a train arrives.
// Every public function is a definition of the rules.
#![tactic(auto)]

ghost use Rattle.std.specs.Prelude.{◌≡◌};
ghost use Rattle.rules.specs.Line.{gap as gap_of, arrival as arrival_at, apart as apart_of, same_station};

use rules::{Station, Timing};

// Whether two trains are of one station. A function beside `==`, since its promise is one of the line's (`one_same`).
pub fn same(station: Station, other: Station) -> bool
    ensures { result ≡ same_station station other }
{
    station == other
}

// Seconds from a departure at one station to the next departure at another, or at the same, at the earliest.
pub fn gap(timing: Timing, from: Station, next: Station) -> u32
    ensures { result ≡ gap_of timing from next }
{
    if same(from, next) {
        timing.headway
    } else {
        timing.running
    }
}

// The second at which a train arrives that leaves at a departure.
#[tactic(auto, unfolding(rules::specs::Line::arrival, rules::specs::Line::running))]
pub fn arrival(timing: Timing, station: Station, departure: u32) -> u64
    ensures { result ≡ arrival_at timing station departure }
{
    u64::from(departure) + u64::from(timing.running)
}

// Whether two departures are at least the gap apart.
pub fn apart(
    timing: Timing,
    station: Station,
    departure: u32,
    other: Station,
    departed: u32,
) -> bool
    ensures { result ≡ apart_of timing station departure other departed }
{
    gap(timing, station, other) <= departure.abs_diff(departed)
}
