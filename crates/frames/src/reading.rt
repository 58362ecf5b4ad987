// What goes in: the map, the session record and the lengths of a frame.
ghost use Rattle.std.specs.Prelude.{◌≡◌, ◌+◌, ◌≤◌};
ghost use Rattle.frames.specs.Frames.{map_in, phase_of, session_in, lent_in};

use crate::numbers;
use model::{Phase, Reason, Session};
use partitions::MapName;
use std::array;

// The map of a frame.
#[tactic(auto, using(basics::proofs::Choice::choices), unfolding(crate::specs::Frames::map_in))]
pub(crate) fn map_in(frame: &[u8; 5120]) -> MapName
    ensures { result ≡ map_in frame.now }
{
    if frame[0] == 2 {
        MapName::Map2
    } else {
        MapName::Map1
    }
}

// The phase of a number.
// Kept (plainer): as `writing::phase_number`.
#[tactic(auto, using(basics::proofs::Choice::choices), unfolding(crate::specs::Frames::phase_of))]
fn phase_of(number: u8) -> Phase
    ensures { result ≡ phase_of number }
{
    match number {
        1 => Phase::Ready,
        2 => Phase::Inert,
        4 => Phase::Dead(Reason::BitCleared),
        6 => Phase::Dead(Reason::DigestFailed),
        7 => Phase::Dead(Reason::LifeCycleFailed),
        _ => Phase::Off,
    }
}

// The session record of a frame.
pub(crate) fn session_in(frame: &[u8; 5120]) -> Session
    ensures { result ≡ session_in frame.now }
{
    Session {
        phase: phase_of(frame[1]),
        sensed: array::from_fn(|i| numbers::eight_at(frame, 8 + 8 * i)),
        locks: array::from_fn(|i| frame[88 + i] != 0),
        state: frame[2],
        count: frame[3],
    }
}

// How many words are lent of an area that has `most`, by the number at a place.
#[tactic(auto, using(crate::proofs::Lent::lent_least))]
pub(crate) fn lent_in(frame: &[u8; 5120], at: usize, most: usize) -> usize
    requires { at + 2 ≤ 5120 }
    ensures { (result ≡ lent_in frame.now at most) × (result ≤ most) }
{
    usize::from(numbers::two_at(frame, at)).min(most)
}
