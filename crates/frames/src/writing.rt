// What comes back: the session record, the answer, cells and copy written into a frame.
ghost use Rattle.std.specs.Prelude.{◌≡◌, ◌≤◌, length};
ghost use Rattle.frames.specs.Frames.{phase_number, with_session, with_answer, with_memory};

use crate::numbers;
use model::{Phase, Session};

// The number of a phase; that of a dead one is its reason's.
// Kept (plainer): a `From` would stand in `model`, beside the type, and `model` knows no frame.
#[tactic(auto, unfolding(crate::specs::Frames::phase_number))]
fn phase_number(phase: Phase) -> u8
    ensures { result ≡ phase_number phase }
{
    match phase {
        Phase::Off => 0,
        Phase::Ready => 1,
        Phase::Inert => 2,
        Phase::Dead(reason) => reason as u8,
    }
}

// Writes the session record into a frame.
pub(crate) fn put_session(frame: &mut [u8; 5120], session: Session)
    ensures { frame.new ≡ with_session session frame.old }
{
    frame[1] = phase_number(session.phase);
    frame[2] = session.state;
    frame[3] = session.count;
    frame[4..8].fill(0);
    frame[8..88].copy_from_slice(session.sensed.map(u64::to_le_bytes).as_flattened());
    frame[88..98].copy_from_slice(&session.locks.map(u8::from));
    frame[98..104].fill(0);
}

// Writes an answer into a frame, in place of the record.
pub(crate) fn put_answer(frame: &mut [u8; 5120], code: u8, value: u64)
    ensures { frame.new ≡ with_answer code value frame.old }
{
    frame[112] = code;
    frame[113..120].fill(0);
    frame[120..128].copy_from_slice(&value.to_le_bytes());
    frame[128..144].fill(0);
}

// Writes cells and copy into a frame.
pub(crate) fn put_memory(frame: &mut [u8; 5120], cells: &[u16], copy: &[u16])
    requires { (length cells.now ≤ 1030) × (length copy.now ≤ 1030) }
    ensures { frame.new ≡ with_memory cells.now copy.now frame.old }
{
    numbers::put_words(&mut frame[144..144 + 2 * cells.len()], cells);
    numbers::put_words(&mut frame[2204..2204 + 2 * copy.len()], copy);
    frame[4884..].fill(0);
}
