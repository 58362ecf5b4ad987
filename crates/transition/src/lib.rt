// The life cycle transition: a stroke is spent first, then the table is asked and the token hashed and compared, then the state words are programmed.
#![tactic(auto)]

ghost use Rattle.std.specs.Prelude.{◌≡◌, List, ℕ, suc, ◌+◌, ◌/◌, ◌≤◌, ◌<◌};
ghost use Rattle.words.specs.Programming.{program_answer, program_cells};
ghost use Rattle.partitions.specs.Map.{partition, number_of_kind};
ghost use Rattle.partitions.specs.Maps.{map_of};
ghost use Rattle.life_cycle.specs.Words.{counter_words, state_words};
ghost use Rattle.life_cycle.specs.Transitions.{table_entry};
ghost use Rattle.model.specs.declared.Command.{Command};
ghost use Rattle.model.specs.Commands.{life_cycle_rule, token_kind, token_offset, hashes_to, counter_at, state_at, locked_token, authorization};
ghost use Rattle.chip.specs.Chip.{primitives, lent_of, Executes};
ghost use Rattle.transition.specs.Permit.{compared_as, permit_of, as_before, inert, dead, moved_as};

use chip::{Chip, sizes_of};
use life_cycle::{SCRAP, STROKES, Token};
use model::{Answer, Failure, Outcome, Phase, Reason, Session};
use partitions::{Kind, MapName};
use words::{Rule, eight_words};

// A refusal that changes nothing.
fn as_before(session: Session, failure: Failure) -> Outcome
    ensures { result ≡ as_before session failure }
{
    Outcome {
        session,
        answer: Err(failure),
    }
}

// An answer that ends the session.
fn inert(session: Session, answer: Answer) -> Outcome
    ensures { result ≡ inert session answer }
{
    Outcome {
        session: session.in_phase(Phase::Inert),
        answer,
    }
}

// A cell refused.
fn dead(session: Session, cell: usize) -> Outcome
    ensures { result ≡ dead session cell }
{
    Outcome {
        session: session.in_phase(Phase::Dead(Reason::BitCleared)),
        answer: Err(Failure::NotBlank(cell)),
    }
}

// Programs the counter words of one stroke more.
fn spend(chip: Chip<'_>, cells: &mut [u16], count: u8) -> Result<(), usize>
    requires { count < 24 }
    ensures answer { result ≡ program_answer life_cycle_rule cells.old (counter_at (map_of chip.entry.map))
        (counter_words chip.entry.constants.now (suc count)) }
    ensures words { cells.new ≡ program_cells life_cycle_rule cells.old (counter_at (map_of chip.entry.map))
        (counter_words chip.entry.constants.now (suc count)) }
{
    let words = life_cycle::counter_words(chip.constants, count + 1);
    words::program(Rule::KeepBits, cells, chip.counter_at(), &words)
}

// Programs the state words of the target.
fn move_to(chip: Chip<'_>, cells: &mut [u16], session: Session, target: u8) -> Outcome
    ensures outcome { result ≡ moved_as session
        (program_answer life_cycle_rule cells.old (state_at (map_of chip.entry.map)) (state_words chip.entry.constants.now target)) }
    ensures words { cells.new ≡ program_cells life_cycle_rule cells.old (state_at (map_of chip.entry.map)) (state_words chip.entry.constants.now target) }
{
    let words = life_cycle::state_words(chip.constants, target);
    match words::program(Rule::KeepBits, cells, chip.state_at(), &words) {
        Ok(()) => inert(session, Ok(0)),
        Err(cell) => dead(session, cell),
    }
}

// The kind of the partition that stores a token.
#[tactic(auto, unfolding(model::specs::Commands::token_kind))]
fn kind_of(token: Token) -> Kind
    ensures { result ≡ token_kind token }
{
    match token {
        Token::Nothing | Token::RawUnlock | Token::TestUnlock | Token::TestExit => Kind::Secret0,
        Token::Rma => Kind::Secret2,
    }
}

// Its first word, counted from the start of the partition.
#[tactic(auto, unfolding(model::specs::Commands::token_offset))]
fn offset_of(token: Token) -> usize
    ensures value { result ≡ token_offset token }
    ensures small { result ≤ 8 }
{
    match token {
        Token::Nothing | Token::RawUnlock | Token::TestUnlock | Token::Rma => 0,
        Token::TestExit => 8,
    }
}

// The partition whose sensed digest locks a token.
fn lock_of(map: MapName, token: Token) -> usize
    ensures { result ≡ number_of_kind (map_of map) (token_kind token) }
{
    map.number_of_kind(kind_of(token))
}

// The first of the eight words of a stored token.
fn place_of(map: MapName, token: Token) -> usize
    ensures { result ≡ (partition (map_of map) (number_of_kind (map_of map) (token_kind token))).start / 2 + token_offset token }
{
    let partition = map.partition_of(lock_of(map, token));
    partition.start / 2 + offset_of(token)
}

// The test behind 0x23: the token given is hashed, and its hash compared with the stored one.
#[tactic(auto, using(basics::proofs::Choice::choices), unfolding(crate::specs::Permit::compared_as, model::specs::Commands::hashes_to))]
fn compared(stored: u128, given: u128) -> Result<(), Failure>
    ensures { result ≡ compared_as (hashes_to primitives given stored) }
{
    if stored == token_hash::hash_of(given) {
        Ok(())
    } else {
        Err(Failure::TokenDiffers)
    }
}

// The hash of a token that is stored is that of the sensed copy, and its partition has to be sensed locked.
#[tactic(auto, using(crate::proofs::Tokens::locks), unfolding(model::specs::Commands::stored_token))]
fn locked_permit(
    chip: Chip<'_>,
    copy: &[u16],
    session: Session,
    token: Token,
    given: u128,
) -> Result<(), Failure>
    ensures { (cells constants : List ℕ)
        → result ≡ permit_of (lent_of cells copy.now constants) (locked_token primitives (map_of chip.entry.map) session token given) }
{
    if !session.sensed_locked(lock_of(chip.map, token)) {
        return Err(Failure::TokenNotLocked);
    }
    compared(eight_words(copy, place_of(chip.map, token)), given)
}

// What the table's entry needs. The hash of the RAW_UNLOCK token is a constant and needs no lock.
#[tactic(auto, using(crate::proofs::Tokens::entries), unfolding(constants::specs::Constants::raw_unlock_hash))]
fn permitted(
    chip: Chip<'_>,
    copy: &[u16],
    session: Session,
    target: u8,
    given: u128,
) -> Result<(), Failure>
    ensures { (cells : List ℕ) → result ≡ permit_of (lent_of cells copy.now chip.entry.constants.now)
        (authorization primitives (map_of chip.entry.map) session (table_entry session.state target) given) }
{
    let needed = life_cycle::table_entry(session.state, target).ok_or(Failure::NotInTable)?;
    match needed {
        Token::Nothing => Ok(()),
        Token::RawUnlock => compared(
            eight_words(chip.constants, constants::RAW_UNLOCK_HASH),
            given,
        ),
        Token::TestUnlock | Token::TestExit | Token::Rma => locked_permit(
            chip, copy, session, needed, given,
        ),
    }
}

// The transition command. The token comes raw.
pub fn transition(
    chip: Chip<'_>,
    cells: &mut [u16],
    copy: &[u16],
    session: Session,
    target: u8,
    token: u128,
) -> Outcome
    ensures { Executes (map_of chip.entry.map) (Command.Transition target token) session
        (lent_of cells.old copy.now chip.entry.constants.now)
        (lent_of cells.new copy.now chip.entry.constants.now) result }
{
    if let Err(failure) = chip.admit(sizes_of(&cells[..], copy), session.phase) {
        return as_before(session, failure);
    }
    if !((session.state <= SCRAP) & (session.count <= STROKES)) {
        return as_before(session, Failure::NotReady);
    }
    if SCRAP < target {
        return as_before(session, Failure::UnknownTarget);
    }
    if STROKES <= session.count {
        return inert(session, Err(Failure::StrokesUsed));
    }
    if let Err(cell) = spend(chip, cells, session.count) {
        return dead(session, cell);
    }
    match permitted(chip, copy, session, target, token) {
        Ok(()) => move_to(chip, cells, session, target),
        Err(failure) => inert(session, Err(failure)),
    }
}
