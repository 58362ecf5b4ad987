// The types of the model: the session record, answers and commands. Their meaning is in `specs/`.
#![tactic(auto)]

ghost use Rattle.std.specs.Prelude.{◌≡◌};
ghost use Rattle.model.specs.Session.{fresh_session, unlocked, in_phase, with_lock, sensed_at, sensed_locked, read_locked};
ghost use Rattle.model.specs.Answers.{code_of, value_of};

// Why a phase is dead, each with its number: a programmed bit would have been cleared, a digest check failed, the life cycle is not usable.
#[derive(Clone, Copy, PartialEq, Eq, Debug)]
pub enum Reason {
    BitCleared = 4,
    DigestFailed = 6,
    LifeCycleFailed = 7,
}

// The phase of a session; a dead one carries its reason.
#[derive(Clone, Copy, PartialEq, Eq, Debug)]
pub enum Phase {
    Off,
    Ready,
    Inert,
    Dead(Reason),
}

// How many sensed digests, and how many read locks, a record has: as many as a fit map may have partitions before the last.
pub const ENTRIES: usize = 10;

// The session record: phase, sensed digests, read locks, life cycle state and stroke count.
// Kept (fixed): two arrays by a partition's number, since the definitions speak of the digests and of the locks as two lists.
#[derive(Clone, Copy, PartialEq, Eq, Debug)]
pub struct Session {
    pub phase: Phase,
    pub sensed: [u64; ENTRIES],
    pub locks: [bool; ENTRIES],
    pub state: u8,
    pub count: u8,
}

// How many words are lent as cells and as sensed copy.
#[derive(Clone, Copy, PartialEq, Eq, Debug)]
pub struct Sizes {
    pub cells: usize,
    pub copy: usize,
}

// Why a command is not done. `NotBlank` names the lowest cell that refused, `DigestFailed` the partition.
#[derive(Clone, Copy, PartialEq, Eq, Debug)]
pub enum Failure {
    NotBlank(usize),
    Denied,
    DigestFailed(usize),
    NotReady,
    LifeCycleFailed(u64),
    WrongLength,
    UnknownTarget,
    InvalidConstants,
    StrokesUsed,
    NotInTable,
    TokenNotLocked,
    TokenDiffers,
}

// What a command answers: the value that it is done with, or why it is not.
pub type Answer = Result<u64, Failure>;

// A command: addresses are byte addresses; a transition has the state to go to and the token given.
#[derive(Clone, Copy, PartialEq, Eq, Debug)]
pub enum Command {
    Read(u32),
    Write(u32, u64),
    FrontRead(u32),
    Digest(u32),
    ReadLock(u8),
    Transition(u8, u128),
    PowerUp,
}

// What a command gives back beside what is lent.
#[derive(Clone, Copy, PartialEq, Eq, Debug)]
pub struct Outcome {
    pub session: Session,
    pub answer: Answer,
}

impl Session {
    // A record with no read lock.
    pub fn unlocked(phase: Phase, sensed: [u64; ENTRIES], state: u8, count: u8) -> Session
        ensures { result ≡ unlocked phase sensed state count }
    {
        Session {
            phase,
            sensed,
            locks: [false; ENTRIES],
            state,
            count,
        }
    }

    // A fresh record: off, all else zero.
    pub fn fresh() -> Session
        ensures { result ≡ fresh_session }
    {
        Session::unlocked(Phase::Off, [0; ENTRIES], 0, 0)
    }

    // The record in another phase.
    pub fn in_phase(self, phase: Phase) -> Session
        ensures { result ≡ in_phase phase self }
    {
        Session { phase, ..self }
    }

    // The record with a partition read-locked; past the entries there is nothing to lock.
    pub fn with_lock(mut self, number: usize) -> Session
        ensures { result ≡ with_lock number self }
    {
        if number < ENTRIES {
            self.locks[number] = true;
        }
        self
    }

    // The sensed digest of a partition by its number; 0 past the entries.
    #[tactic(auto, unfolding(crate::specs::Session::sensed_at))]
    pub fn sensed_at(self, number: usize) -> u64
        ensures { result ≡ sensed_at self number }
    {
        self.sensed.get(number).copied().unwrap_or(0)
    }

    // Whether a partition is sensed locked.
    #[tactic(auto, unfolding(crate::specs::Session::sensed_locked))]
    pub fn sensed_locked(self, number: usize) -> bool
        ensures { result ≡ sensed_locked self number }
    {
        self.sensed_at(number) != 0
    }

    // The read lock of a partition by its number; it counts where the partition's kind has one.
    #[tactic(auto, unfolding(crate::specs::Session::read_locked))]
    pub fn read_locked(self, number: usize) -> bool
        ensures { result ≡ read_locked self number }
    {
        self.locks.get(number).copied().unwrap_or(false)
    }
}

// The number of an answer.
pub fn code_of(answer: Answer) -> u8
    ensures { result ≡ code_of answer }
{
    match answer {
        Ok(_) => 0x00,
        Err(Failure::NotBlank(_)) => 0x04,
        Err(Failure::Denied) => 0x05,
        Err(Failure::DigestFailed(_)) => 0x06,
        Err(Failure::NotReady | Failure::LifeCycleFailed(_)) => 0x07,
        Err(Failure::WrongLength) => 0x10,
        Err(Failure::UnknownTarget) => 0x11,
        Err(Failure::InvalidConstants) => 0x12,
        Err(Failure::StrokesUsed) => 0x20,
        Err(Failure::NotInTable) => 0x21,
        Err(Failure::TokenNotLocked) => 0x22,
        Err(Failure::TokenDiffers) => 0x23,
    }
}

// The value that goes with it: 0 unless the paper states one. That of a 4 is the cell.
pub fn value_of(answer: Answer) -> u64
    ensures { result ≡ value_of answer }
{
    match answer {
        Ok(value) | Err(Failure::LifeCycleFailed(value)) => value,
        Err(Failure::NotBlank(cell)) => cell as u64,
        Err(Failure::DigestFailed(partition)) => partition as u64,
        Err(_) => 0,
    }
}
