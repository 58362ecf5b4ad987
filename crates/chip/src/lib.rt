// What commands share: they judge what they are lent, and find keys and digests in it.
#![tactic(auto)]

ghost use Rattle.std.specs.Prelude.{◌≡◌, length};
ghost use Rattle.std.specs.Result.{result_err};
ghost use Rattle.digest.specs.Digest.{digest_words};
ghost use Rattle.partitions.specs.Maps.{map_of};
ghost use Rattle.constants.specs.Constants.{key_of, digest_start, digest_final};
ghost use Rattle.model.specs.Commands.{stored_digest, scrambled, unscrambled, counter_at, state_at};
ghost use Rattle.model.specs.Step.{judgement};
ghost use Rattle.chip.specs.Chip.{primitives, digest_within};
ghost use Rattle.chip.specs.Judging.{admission};

use model::{Failure, Phase, Sizes};
use partitions::{Kind, MapName, Partition};
use words::{block_at, eight_words};

// What is fixed of a chip: its map and its constants.
#[derive(Clone, Copy)]
pub struct Chip<'a> {
    pub map: MapName,
    pub constants: &'a [u16],
}

impl Chip<'_> {
    // Judges the lengths of cells and copy, and the constants, in the paper's order.
    #[tactic(auto, using(crate::proofs::Judging::judgements))]
    pub fn judge(self, sizes: Sizes) -> Result<(), Failure>
        ensures { result_err result ≡ judgement (map_of self.entry.map) sizes self.entry.constants.now }
    {
        let words = self.map.words();
        if sizes.cells != words {
            return Err(Failure::WrongLength);
        }
        if sizes.copy != words {
            return Err(Failure::WrongLength);
        }
        if self.constants.len() != constants::COUNT {
            return Err(Failure::WrongLength);
        }
        if !constants::valid_constants(self.constants) {
            return Err(Failure::InvalidConstants);
        }
        Ok(())
    }

    // What every command but power-up tests first: what is lent, then the phase.
    #[tactic(auto, using(crate::proofs::Judging::admissions), unfolding(model::specs::Session::is_ready))]
    pub fn admit(self, sizes: Sizes, phase: Phase) -> Result<(), Failure>
        ensures { result_err result ≡ admission (map_of self.entry.map) sizes self.entry.constants.now phase }
    {
        self.judge(sizes)?;
        match phase {
            Phase::Ready => Ok(()),
            Phase::Off | Phase::Inert | Phase::Dead(_) => Err(Failure::NotReady),
        }
    }

    // The key of a kind. Only the secrets have one.
    #[tactic(auto, unfolding(constants::specs::Constants::key_of))]
    pub fn key_of(self, kind: Kind) -> u128
        ensures { result ≡ key_of self.entry.constants.now kind }
    {
        match kind {
            Kind::Secret0 => eight_words(self.constants, constants::SECRET0_KEY),
            Kind::Secret1 => eight_words(self.constants, constants::SECRET1_KEY),
            Kind::Secret2 => eight_words(self.constants, constants::SECRET2_KEY),
            Kind::Software | Kind::AuthState | Kind::HwCfg | Kind::LifeCycle => 0,
        }
    }

    // A block as a partition stores it.
    // Kept (plainer): one function over either direction of the cipher would take a closure and its promise, in place of this one test and call.
    #[tactic(auto, using(basics::proofs::Choice::choices), unfolding(model::specs::Commands::scrambled))]
    pub fn scrambled(self, partition: Partition, block: u64) -> u64
        ensures { result ≡ scrambled primitives self.entry.constants.now partition block }
    {
        if !partition.rights().scrambled {
            return block;
        }
        present::encrypt(self.key_of(partition.kind), block)
    }

    // A block that a partition stored, in the clear.
    #[tactic(auto, using(basics::proofs::Choice::choices), unfolding(model::specs::Commands::unscrambled))]
    pub fn unscrambled(self, partition: Partition, block: u64) -> u64
        ensures { result ≡ unscrambled primitives self.entry.constants.now partition block }
    {
        if !partition.rights().scrambled {
            return block;
        }
        present::decrypt(self.key_of(partition.kind), block)
    }

    // The digest of data words, from the start value and the final key of the constants.
    #[tactic(auto, unfolding(constants::specs::Constants::digest_start, constants::specs::Constants::digest_final))]
    pub fn digest_of(self, data: &[u16]) -> u64
        ensures { result ≡ digest_words (digest_start self.entry.constants.now) (digest_final self.entry.constants.now) «data».now }
    {
        let start = block_at(self.constants, constants::DIGEST_START);
        let final_key = eight_words(self.constants, constants::DIGEST_FINAL);
        digest::digest(start, final_key, data)
    }

    // The digest of a partition's data words, as stored; 0 for a partition that does not lie in the cells.
    #[tactic(auto, using(crate::proofs::Reading::within_laws))]
    pub fn computed_digest(self, cells: &[u16], partition: Partition) -> u64
        ensures { result ≡ digest_within cells.now self.entry.constants.now partition }
    {
        match cells.get(partition.start / 2..partition.digest / 2) {
            Some(words) => self.digest_of(words),
            None => 0,
        }
    }

    // Where the 24 counter words of the life cycle start.
    #[tactic(auto, unfolding(model::specs::Commands::counter_at))]
    pub fn counter_at(self) -> usize
        ensures { result ≡ counter_at (map_of self.entry.map) }
    {
        let number = self.map.number_of_kind(Kind::LifeCycle);
        self.map.partition_of(number).start / 2
    }

    // Where its 20 state words start.
    #[tactic(auto, using(crate::proofs::LifeCyclePlace::state_near), unfolding(model::specs::Commands::state_at))]
    pub fn state_at(self) -> usize
        ensures { result ≡ state_at (map_of self.entry.map) }
    {
        self.counter_at() + 24
    }
}

// How many words are lent as cells and as sensed copy.
pub fn sizes_of(cells: &[u16], copy: &[u16]) -> Sizes
    ensures { result ≡ record { cells = length cells.now; copy = length copy.now } }
{
    Sizes {
        cells: cells.len(),
        copy: copy.len(),
    }
}

// The digest that a partition stores.
pub fn stored_digest(cells: &[u16], partition: Partition) -> u64
    ensures { result ≡ stored_digest partition cells.now }
{
    block_at(cells, partition.digest / 2)
}
