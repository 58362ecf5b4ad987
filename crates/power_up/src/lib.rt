// Power-up: the stored digests are checked, the life cycle is decoded, and copy and session are sensed anew.
#![tactic(auto)]

ghost use Rattle.std.specs.Prelude.{◌≡◌, List, ℕ, ◌+◌, ◌*◌, ◌/◌, ◌%◌, ◌≤◌, ◌<◌, length};
ghost use Rattle.basics.specs.Range.{listed};
ghost use Rattle.partitions.specs.Map.{limit};
ghost use Rattle.partitions.specs.Maps.{map_of};
ghost use Rattle.model.specs.declared.Command.TheVariants.{PowerUp};
ghost use Rattle.model.specs.PowerUp.{sensed_digest, digests, digest_holds, first_failing, copy_word, life_cycle_in, power_up_end, succeeds};
ghost use Rattle.chip.specs.Chip.{primitives, lent_of, result_of, Executes};
ghost use Rattle.power_up.specs.PowerUpEnd.{ended_as, powered_result, dead_outcome};

use chip::{Chip, sizes_of};
use life_cycle::{LifeCycle, SCRAP};
use model::{ENTRIES, Failure, Outcome, Phase, Reason, Session};
use partitions::Partition;
use std::array;

// The value for a life cycle that is not valid.
const INVALID: u64 = 0xFFFF;

// The stored digest of a partition that has one, else 0.
#[tactic(auto, using(crate::proofs::Checking::stored))]
fn sensed_digest(cells: &[u16], partition: Partition) -> u64
    ensures { result ≡ sensed_digest cells.now partition }
{
    if partition.rights().direct {
        chip::stored_digest(cells, partition)
    } else {
        0
    }
}

// What the copy holds for the four words from `at` on. They lie in one partition, all in its data or all in its digest.
// Kept (proof): tried as a method of `Stored`: open that the words of a slice in a field fit 16 bits, which `type_inv` says of a parameter alone.
fn sensed_block(chip: Chip<'_>, cells: &[u16], at: usize) -> [u16; 4]
    requires { (at % 4 ≡ 0) × (at < limit (map_of chip.map) / 2) }
    ensures { result ≡ listed (copy_word primitives (map_of chip.entry.map) chip.entry.constants.now cells.now) at 4 }
{
    let address = 2 * at;
    let partition = chip.map.partition_of(chip.map.number_at(address));
    if partition.rights().lockable {
        return [0; 4];
    }
    let block = words::block_at(cells, at);
    if partition.in_digest(address) {
        return words::split(block);
    }
    words::split(chip.unscrambled(partition, block))
}

// Sets the copy to all zero.
#[tactic(auto, using(crate::proofs::Sensing::zeros))]
fn clear(copy: &mut [u16])
    ensures { copy.new ≡ listed (λ j. 0) 0 (length copy.old) }
{
    copy.fill(0);
}

// A power-up that fails: nothing is sensed.
fn dead(copy: &mut [u16], reason: Reason, failure: Failure) -> Outcome
    ensures copy { copy.new ≡ listed (λ j. 0) 0 (length copy.old) }
    ensures outcome { result ≡ dead_outcome reason failure }
{
    clear(copy);
    Outcome {
        session: Session::unlocked(Phase::Dead(reason), [0; ENTRIES], 0, 0),
        answer: Err(failure),
    }
}

// 256 times the count plus the state.
fn value_of(life_cycle: LifeCycle) -> u64
    ensures { result ≡ 256 * life_cycle.count + life_cycle.state }
{
    256 * u64::from(life_cycle.count) + u64::from(life_cycle.state)
}

// A chip with cells that have as many words as its map.
#[derive(Clone, Copy)]
struct Stored<'a> {
    chip: Chip<'a>,
    cells: &'a [u16],
    ghost whole: { length cells.now ≡ limit (map_of chip.map) / 2 },
}

impl Stored<'_> {
    // Whether a partition has no hardware digest, stores none yet, or stores the one computed.
    #[tactic(auto, using(crate::proofs::Checking::checks))]
    fn digest_holds(self, partition: Partition) -> bool
        ensures { partition.start / 2 ≤ partition.digest / 2 → partition.digest / 2 ≤ length self.entry.cells.now
            → result ≡ digest_holds primitives self.entry.chip.constants.now self.entry.cells.now partition }
    {
        let stored = chip::stored_digest(self.cells, partition);
        !partition.rights().hardware
            || stored == 0
            || stored == self.chip.computed_digest(self.cells, partition)
    }

    // The first partition whose digest check fails.
    fn first_failing(self) -> Option<usize>
        ensures { result ≡ first_failing primitives (map_of self.entry.chip.map) self.entry.chip.constants.now self.entry.cells.now }
    {
        (0..self.chip.map.count()).find(|number| !self.digest_holds(
            self.chip.map.partition_of(*number),
        ))
    }

    // Latches the copy, block by block.
    fn latch(self, copy: &mut [u16])
        requires { length copy.old ≡ limit (map_of self.chip.map) / 2 }
        ensures { copy.new ≡ listed (copy_word primitives (map_of self.entry.chip.map) self.entry.chip.constants.now self.entry.cells.now) 0
            (limit (map_of self.entry.chip.map) / 2) }
    {
        // Kept (proof): once the borrows of `chunks_exact_mut(4)` are over, a proof knows the length of the copy and not its words.
        for number in 0..copy.len() / 4 {
            let at = 4 * number;
            copy[at..at + 4].copy_from_slice(&sensed_block(self.chip, self.cells, at));
        }
    }

    // The stored digests by the partitions' numbers.
    #[tactic(auto, unfolding(model::specs::PowerUp::digests, basics::specs::Range::listed))]
    fn stored_digests(self) -> [u64; ENTRIES]
        ensures { result ≡ digests self.entry.cells.now (map_of self.entry.chip.map) }
    {
        array::from_fn(|number| sensed_digest(self.cells, self.chip.map.partition_of(number)))
    }

    // A power-up that succeeds: copy and session are sensed from the cells.
    fn ready(self, copy: &mut [u16], life_cycle: LifeCycle) -> Outcome
        requires { length copy.old ≡ limit (map_of self.chip.map) / 2 }
        ensures { result_of (lent_of self.entry.cells.now copy.new self.entry.chip.constants.now) result
            ≡ powered_result (map_of self.entry.chip.map) (λ l. succeeds life_cycle.state life_cycle.count)
            (lent_of self.entry.cells.now copy.old self.entry.chip.constants.now) }
    {
        self.latch(copy);
        let sensed = self.stored_digests();
        Outcome {
            session: Session::unlocked(Phase::Ready, sensed, life_cycle.state, life_cycle.count),
            answer: Ok(value_of(life_cycle)),
        }
    }

    // The life cycle that the last words of the cells stand for.
    fn life_cycle_in(self) -> Option<LifeCycle>
        ensures { (copy : List ℕ) → result
            ≡ life_cycle_in (map_of self.entry.chip.map) (lent_of self.entry.cells.now copy self.entry.chip.constants.now) }
    {
        let counter = self.chip.counter_at();
        let state = self.chip.state_at();
        life_cycle::decode(
            self.chip.constants,
            &self.cells[counter..state],
            &self.cells[state..],
        )
    }

    // How a power-up ends: with the life cycle of the cells, or dead for a reason, with what is answered. The digest checks come first, then the life cycle
    // decides.
    #[tactic(auto, using(crate::proofs::PowerUpEnd::ends))]
    fn checked(self) -> Result<LifeCycle, (Reason, Failure)>
        ensures { (copy : List ℕ) → result
            ≡ ended_as (power_up_end primitives (map_of self.entry.chip.map) (lent_of self.entry.cells.now copy self.entry.chip.constants.now)) }
    {
        if let Some(number) = self.first_failing() {
            return Err((Reason::DigestFailed, Failure::DigestFailed(number)));
        }
        match self.life_cycle_in() {
            None => Err((Reason::LifeCycleFailed, Failure::LifeCycleFailed(INVALID))),
            Some(life_cycle) if life_cycle.state == SCRAP => {
                Err((
                    Reason::LifeCycleFailed,
                    Failure::LifeCycleFailed(value_of(life_cycle)),
                ))
            }
            Some(life_cycle) => Ok(life_cycle),
        }
    }
}

// The power-up command.
pub fn power_up(chip: Chip<'_>, cells: &[u16], copy: &mut [u16], session: Session) -> Outcome
    ensures { Executes (map_of chip.entry.map) PowerUp session (lent_of cells.now copy.old chip.entry.constants.now)
        (lent_of cells.now copy.new chip.entry.constants.now) result }
{
    if let Err(failure) = chip.judge(sizes_of(cells, &copy[..])) {
        return Outcome {
            session,
            answer: Err(failure),
        };
    }
    let stored = Stored { chip, cells };
    match stored.checked() {
        Ok(life_cycle) => stored.ready(copy, life_cycle),
        Err((reason, failure)) => dead(copy, reason, failure),
    }
}
