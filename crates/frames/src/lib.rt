// Single steps on any machine: a frame of 5,120 bytes holds a machine and a record; a step executes it and answers in its place. `specs/Frames.antt` has
// the layout.
#![tactic(auto)]

mod numbers;
mod reading;
mod writing;

ghost use Rattle.std.specs.Prelude.{◌≡◌, ◌≤◌, length};
ghost use Rattle.partitions.specs.Maps.{map_of};
ghost use Rattle.chip.specs.Chip.{lent_of, machine_of};
ghost use Rattle.frames.specs.Frames.{step_of, step_with, frame_on, frame_after};

use chip::Chip;
use model::{Outcome, Session};
use script::Reading;

// What a step gives back beside what is lent.
#[derive(Clone, Copy)]
struct Stepped {
    session: Session,
    code: u8,
    value: u64,
}

// Executes the record at the start of a script. Where there is none, the code and the value are those of the refusal, and nothing changes.
#[tactic(auto, unfolding(crate::specs::Frames::step_of, crate::specs::Frames::step_by))]
fn perform(
    chip: Chip<'_>,
    script: &[u8],
    cells: &mut [u16],
    copy: &mut [u16],
    session: Session,
) -> Stepped
    ensures { step_with (lent_of cells.new copy.new chip.entry.constants.now) result
        ≡ step_of (map_of chip.entry.map) script.now (machine_of (lent_of cells.old copy.old chip.entry.constants.now) session) }
{
    match script::read_at(script, 0) {
        Reading::Record(command, _) => {
            let Outcome { session, answer } = controller::execute(
                chip, cells, copy, session, command,
            );
            Stepped {
                session,
                code: model::code_of(answer),
                value: model::value_of(answer),
            }
        }
        Reading::End => Stepped {
            session,
            code: 0,
            value: 0,
        },
        Reading::Refused(refusal, at) => Stepped {
            session,
            code: refusal.code(),
            value: at as u64,
        },
    }
}

// Executes the record of a frame on what is lent, and writes what comes of it into the frame.
fn step_on(frame: &mut [u8; 5120], cells: &mut [u16], copy: &mut [u16], constants: &[u16])
    requires { (length cells.old ≤ 1030) × (length copy.old ≤ 1030) }
    ensures { frame.new ≡ frame_on (lent_of cells.old copy.old constants.now) frame.old }
{
    let chip = Chip {
        map: reading::map_in(frame),
        constants,
    };
    let session = reading::session_in(frame);
    let stepped = perform(chip, &frame[112..144], cells, copy, session);
    writing::put_session(frame, stepped.session);
    writing::put_answer(frame, stepped.code, stepped.value);
    writing::put_memory(frame, cells, copy);
}

// The frame after its command.
pub fn step(frame: &mut [u8; 5120])
    ensures { frame.new ≡ frame_after frame.old }
{
    let cell_count = reading::lent_in(frame, 104, 1030);
    let copy_count = reading::lent_in(frame, 106, 1030);
    let constant_count = reading::lent_in(frame, 110, 180);
    let mut cells: [u16; 1030] = numbers::words_at(frame, 144);
    let mut copy: [u16; 1030] = numbers::words_at(frame, 2204);
    let constants: [u16; 180] = numbers::words_at(frame, 4524);
    step_on(
        frame,
        &mut cells[..cell_count],
        &mut copy[..copy_count],
        &constants[..constant_count],
    );
}
