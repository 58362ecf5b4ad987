// One command of a script, by value: what everything above calls.
#![tactic(auto)]

ghost use Rattle.partitions.specs.Maps.{map_of};
ghost use Rattle.chip.specs.Chip.{lent_of, Executes};

use chip::Chip;
use model::{Command, Outcome, Session};

// Executes a command on what is lent, and gives the record and the answer back.
// Kept (plainer): cells and copy stay parameters beside the chip, since their `&` or `&mut` says at each command what it may change.
pub fn execute(
    chip: Chip<'_>,
    cells: &mut [u16],
    copy: &mut [u16],
    session: Session,
    command: Command,
) -> Outcome
    ensures { Executes (map_of chip.entry.map) command session (lent_of cells.old copy.old chip.entry.constants.now)
        (lent_of cells.new copy.new chip.entry.constants.now) result }
{
    match command {
        Command::Read(address) => direct_access::read(
            chip,
            &cells[..],
            &copy[..],
            session,
            address,
        ),
        Command::Write(address, value) => {
            direct_access::write(chip, cells, &copy[..], session, address, value)
        }
        Command::FrontRead(address) => {
            direct_access::front_read(chip, &cells[..], &copy[..], session, address)
        }
        Command::Digest(address) => direct_access::digest(chip, cells, &copy[..], session, address),
        Command::ReadLock(partition) => {
            direct_access::read_lock(chip, &cells[..], &copy[..], session, partition)
        }
        Command::Transition(target, token) => {
            transition::transition(chip, cells, &copy[..], session, target, token)
        }
        Command::PowerUp => power_up::power_up(chip, &cells[..], copy, session),
    }
}
