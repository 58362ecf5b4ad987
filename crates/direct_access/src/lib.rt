// The commands of the direct access interface, and front reads. The session record goes in by value and comes back in the outcome.
#![tactic(auto)]

ghost use Rattle.std.specs.Prelude.{◌≡◌, ◌+◌, ◌≤◌, length};
ghost use Rattle.words.specs.Programming.{program_answer, program_cells};
ghost use Rattle.partitions.specs.Map.{first_word, word_count};
ghost use Rattle.partitions.specs.Maps.{map_of};
ghost use Rattle.model.specs.declared.Command.{Command};
ghost use Rattle.model.specs.Commands.{direct_rule, granule, write_denied, read_denied, front_read_denied, digest_denied, read_value};
ghost use Rattle.chip.specs.Chip.{primitives, lent_of, machine_of, Executes};
ghost use Rattle.direct_access.specs.Access.{reached, programmed_answer, Answers};

use chip::{Chip, sizes_of};
use model::{Answer, Failure, Outcome, Session};
use partitions::Partition;
use words::Rule;

// An address of the map, with the number of its partition, and the partition.
#[derive(Clone, Copy)]
struct Place {
    number: usize,
    partition: Partition,
    address: usize,
}

// What every command on an address tests first, in the paper's order: what is lent, the phase, the address.
// Inlined, so that no place is handed back in memory.
#[tactic(auto, using(crate::proofs::Places::places), unfolding(partitions::specs::Map::partition_at))]
#[inline(always)]
fn reach(
    chip: Chip<'_>,
    cells: &[u16],
    copy: &[u16],
    session: Session,
    address: usize,
) -> Result<Place, Failure>
    ensures { result ≡ reached (map_of chip.entry.map) (machine_of (lent_of cells.now copy.now chip.entry.constants.now) session) address }
{
    chip.admit(sizes_of(cells, copy), session.phase)?;
    if chip.map.limit() <= address {
        return Err(Failure::Denied);
    }
    let number = chip.map.number_at(address);
    Ok(Place {
        number,
        partition: chip.map.partition_of(number),
        address,
    })
}

impl Place {
    // No direct access, a hardware digest, or sensed locked.
    #[tactic(auto, unfolding(model::specs::Commands::write_denied))]
    fn write_denied(self, locked: bool) -> bool
        ensures { result ≡ write_denied locked self.partition self.address }
    {
        let rights = self.partition.rights();
        let in_digest = self.partition.in_digest(self.address);
        !rights.direct | (rights.hardware & in_digest) | locked
    }

    // No direct access; data that are read-locked, or of a secret that is sensed locked. A read lock counts where the kind has one.
    #[tactic(auto, unfolding(model::specs::Commands::read_denied))]
    fn read_denied(self, locked: bool, read_locked: bool) -> bool
        ensures { result ≡ read_denied locked read_locked self.partition self.address }
    {
        let rights = self.partition.rights();
        let in_digest = self.partition.in_digest(self.address);
        !rights.direct
            | (!in_digest & ((rights.lockable & read_locked) | (rights.scrambled & locked)))
    }

    // No front reads, or the digest.
    #[tactic(auto, unfolding(model::specs::Commands::front_read_denied))]
    fn front_read_denied(self) -> bool
        ensures { result ≡ front_read_denied self.partition self.address }
    {
        !self.partition.rights().front | self.partition.in_digest(self.address)
    }

    // No hardware digest, not the start of the partition, or sensed locked.
    #[tactic(auto, unfolding(model::specs::Commands::digest_denied))]
    fn digest_denied(self, locked: bool) -> bool
        ensures { result ≡ digest_denied locked self.partition self.address }
    {
        !self.partition.rights().hardware | (self.address != self.partition.start) | locked
    }

    // The granule of the address, which lies in the words.
    #[tactic(auto, using(crate::proofs::Places::granules))]
    fn granule(self, words: &[u16]) -> u64
        requires { (first_word self.partition self.address + word_count self.partition self.address ≤ length words.now)
            × (word_count self.partition self.address ≤ 4) }
        ensures { result ≡ granule self.partition words.now self.address }
    {
        let granule = self.partition.granule_at(self.address);
        words::join(&words[granule.word..granule.word + granule.words])
    }

    // What a read answers: a digest plain, secret data unscrambled.
    #[tactic(auto, using(basics::proofs::Choice::choices), unfolding(model::specs::Commands::read_value))]
    fn read_value(self, chip: Chip<'_>, cells: &[u16]) -> u64
        requires { (first_word self.partition self.address + word_count self.partition self.address ≤ length cells.now)
            × (word_count self.partition self.address ≤ 4) }
        ensures { result ≡ read_value primitives chip.entry.constants.now self.partition cells.now self.address }
    {
        let stored = self.granule(cells);
        if self.partition.in_digest(self.address) {
            stored
        } else {
            chip.unscrambled(self.partition, stored)
        }
    }

    // The rule of refusal for a write: the old one for data of a kind that keeps it, else the new one.
    #[tactic(auto, using(basics::proofs::Choice::choices), unfolding(model::specs::Commands::direct_rule))]
    fn rule(self) -> Rule
        ensures { result ≡ direct_rule self.partition self.address }
    {
        if self.partition.rights().additive & !self.partition.in_digest(self.address) {
            Rule::KeepBits
        } else {
            Rule::BlankOnly
        }
    }
}

// Programs words and answers a value, or names the cell that refuses.
fn programmed(rule: Rule, cells: &mut [u16], at: usize, words: &[u16], value: u64) -> Answer
    ensures answer { result ≡ programmed_answer (program_answer rule cells.old at words.now) value }
    ensures words { cells.new ≡ program_cells rule cells.old at words.now }
{
    words::program(rule, cells, at, words).map_err(Failure::NotBlank)?;
    Ok(value)
}

// The answer to a read.
fn read_answer(
    chip: Chip<'_>,
    cells: &[u16],
    copy: &[u16],
    session: Session,
    address: usize,
) -> Answer
    ensures { Answers (map_of chip.entry.map) (Command.Read address) session (lent_of cells.now copy.now chip.entry.constants.now)
        (lent_of cells.now copy.now chip.entry.constants.now) result }
{
    let place = reach(chip, cells, copy, session, address)?;
    let locked = session.sensed_locked(place.number);
    let read_locked = session.read_locked(place.number);
    if place.read_denied(locked, read_locked) {
        return Err(Failure::Denied);
    }
    Ok(place.read_value(chip, cells))
}

// Kept (fixed): cells and copy stay parameters of each command beside the chip: their `&` or `&mut`, which callers rely on, says what it may change.
// Read: the granule of an address, in the cells.
pub fn read(chip: Chip<'_>, cells: &[u16], copy: &[u16], session: Session, address: u32) -> Outcome
    ensures { Executes (map_of chip.entry.map) (Command.Read address) session (lent_of cells.now copy.now chip.entry.constants.now)
        (lent_of cells.now copy.now chip.entry.constants.now) result }
{
    let answer = read_answer(chip, cells, copy, session, address as usize);
    Outcome { session, answer }
}

// Programs the granule of an address, and answers 0.
fn write_answer(
    chip: Chip<'_>,
    cells: &mut [u16],
    copy: &[u16],
    session: Session,
    address: usize,
    value: u64,
) -> Answer
    ensures { Answers (map_of chip.entry.map) (Command.Write address value) session (lent_of cells.old copy.now chip.entry.constants.now)
        (lent_of cells.new copy.now chip.entry.constants.now) result }
{
    let place = reach(chip, &cells[..], copy, session, address)?;
    if place.write_denied(session.sensed_locked(place.number)) {
        return Err(Failure::Denied);
    }
    let granule = place.partition.granule_at(place.address);
    let words = words::split(chip.scrambled(place.partition, value));
    let rule = place.rule();
    programmed(rule, cells, granule.word, &words[..granule.words], 0)
}

// Write: programs the granule of an address, if its words take the value by the rule of the place; a 4-byte granule uses the low half of the value.
pub fn write(
    chip: Chip<'_>,
    cells: &mut [u16],
    copy: &[u16],
    session: Session,
    address: u32,
    value: u64,
) -> Outcome
    ensures { Executes (map_of chip.entry.map) (Command.Write address value) session (lent_of cells.old copy.now chip.entry.constants.now)
        (lent_of cells.new copy.now chip.entry.constants.now) result }
{
    let answer = write_answer(chip, cells, copy, session, address as usize, value);
    Outcome { session, answer }
}

// The answer to a front read.
fn front_read_answer(
    chip: Chip<'_>,
    cells: &[u16],
    copy: &[u16],
    session: Session,
    address: usize,
) -> Answer
    ensures { Answers (map_of chip.entry.map) (Command.FrontRead address) session (lent_of cells.now copy.now chip.entry.constants.now)
        (lent_of cells.now copy.now chip.entry.constants.now) result }
{
    let place = reach(chip, cells, copy, session, address)?;
    if place.front_read_denied() {
        return Err(Failure::Denied);
    }
    Ok(place.granule(copy))
}

// Front read: the granule of an address in data of the kind HW_CFG, in the sensed copy.
pub fn front_read(
    chip: Chip<'_>,
    cells: &[u16],
    copy: &[u16],
    session: Session,
    address: u32,
) -> Outcome
    ensures { Executes (map_of chip.entry.map) (Command.FrontRead address) session (lent_of cells.now copy.now chip.entry.constants.now)
        (lent_of cells.now copy.now chip.entry.constants.now) result }
{
    let answer = front_read_answer(chip, cells, copy, session, address as usize);
    Outcome { session, answer }
}

// Programs a digest, and answers it.
fn digest_answer(
    chip: Chip<'_>,
    cells: &mut [u16],
    copy: &[u16],
    session: Session,
    address: usize,
) -> Answer
    ensures { Answers (map_of chip.entry.map) (Command.Digest address) session (lent_of cells.old copy.now chip.entry.constants.now)
        (lent_of cells.new copy.now chip.entry.constants.now) result }
{
    let place = reach(chip, &cells[..], copy, session, address)?;
    if place.digest_denied(session.sensed_locked(place.number)) {
        return Err(Failure::Denied);
    }
    let value = chip.computed_digest(&cells[..], place.partition);
    programmed(
        Rule::BlankOnly,
        cells,
        place.partition.digest / 2,
        &words::split(value),
        value,
    )
}

// Digest: computed over the stored data words of the partition that starts at the address, programmed if its location is blank, and answered.
pub fn digest(
    chip: Chip<'_>,
    cells: &mut [u16],
    copy: &[u16],
    session: Session,
    address: u32,
) -> Outcome
    ensures { Executes (map_of chip.entry.map) (Command.Digest address) session (lent_of cells.old copy.now chip.entry.constants.now)
        (lent_of cells.new copy.now chip.entry.constants.now) result }
{
    let answer = digest_answer(chip, cells, copy, session, address as usize);
    Outcome { session, answer }
}

// Read lock: of a partition whose kind has one, until the next power-up.
#[tactic(auto, using(crate::proofs::ReadLock::locks))]
pub fn read_lock(
    chip: Chip<'_>,
    cells: &[u16],
    copy: &[u16],
    session: Session,
    partition: u8,
) -> Outcome
    ensures { Executes (map_of chip.entry.map) (Command.ReadLock partition) session (lent_of cells.now copy.now chip.entry.constants.now)
        (lent_of cells.now copy.now chip.entry.constants.now) result }
{
    if let Err(failure) = chip.admit(sizes_of(cells, copy), session.phase) {
        return Outcome {
            session,
            answer: Err(failure),
        };
    }
    let number = usize::from(partition);
    if !chip.map.partition_of(number).rights().lockable {
        return Outcome {
            session,
            answer: Err(Failure::Denied),
        };
    }
    Outcome {
        session: session.with_lock(number),
        answer: Ok(0),
    }
}
