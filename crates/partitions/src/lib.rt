// The partitions of the fuse array: kinds and their rights, and the two maps by name. The partitions of a map are types with constants of their own,
// in the map's module.
#![tactic(auto)]

// The partition that a type stands for, by the type's constants.
// Kept (proof): no provided constant of a trait over these types, which a static can't take (unsupported-constant-expression).
macro_rules! partition {
    ($part:ident) => {
        Partition {
            kind: $part::KIND,
            start: $part::START,
            digest: $part::DIGEST,
            end: $part::END,
            granule: $part::GRANULE,
        }
    };
}

pub mod map1;
pub mod map2;

ghost use Rattle.std.specs.Prelude.{◌≡◌, ◌==◌, ◌/◌, length, position};
ghost use Rattle.partitions.specs.Map.{rights_of, number_at, partition, limit, in_digest, granule_at, first_word, word_count, kind_number, number_of_kind};
ghost use Rattle.partitions.specs.Maps.{map_of};

#[derive(Clone, Copy, PartialEq, Eq)]
pub enum Kind {
    Software,
    AuthState,
    HwCfg,
    Secret0,
    Secret1,
    Secret2,
    LifeCycle,
}

// What a kind is granted: direct access, a run-time read lock, a hardware digest, scrambled data, front reads, bits added to data that is not blank.
#[derive(Clone, Copy)]
pub struct Rights {
    pub direct: bool,
    pub lockable: bool,
    pub hardware: bool,
    pub scrambled: bool,
    pub front: bool,
    pub additive: bool,
}

// A partition in byte addresses: where it starts, where its digest is, the first address past it, and the granule of its data.
#[derive(Clone, Copy)]
pub struct Partition {
    pub kind: Kind,
    pub start: usize,
    pub digest: usize,
    pub end: usize,
    pub granule: usize,
}

// What documents 01 and 02 grant each kind, the three secrets alike.
impl Rights {
    const LIFE_CYCLE: Rights = Rights {
        direct: false,
        lockable: false,
        hardware: false,
        scrambled: false,
        front: false,
        additive: false,
    };

    const SOFTWARE: Rights = Rights {
        direct: true,
        lockable: true,
        ..Rights::LIFE_CYCLE
    };

    const AUTH_STATE: Rights = Rights {
        additive: true,
        ..Rights::SOFTWARE
    };

    const HW_CFG: Rights = Rights {
        direct: true,
        hardware: true,
        front: true,
        ..Rights::LIFE_CYCLE
    };

    const SECRET: Rights = Rights {
        direct: true,
        hardware: true,
        scrambled: true,
        ..Rights::LIFE_CYCLE
    };
}

impl Kind {
    #[tactic(auto, unfolding(crate::specs::Map::rights_of))]
    pub fn rights(self) -> Rights
        ensures { result ≡ rights_of self }
    {
        match self {
            Kind::Software => Rights::SOFTWARE,
            Kind::AuthState => Rights::AUTH_STATE,
            Kind::HwCfg => Rights::HW_CFG,
            Kind::Secret0 | Kind::Secret1 | Kind::Secret2 => Rights::SECRET,
            Kind::LifeCycle => Rights::LIFE_CYCLE,
        }
    }
}

// The words of a granule: the first, and how many there are.
#[derive(Clone, Copy)]
pub struct Granule {
    pub word: usize,
    pub words: usize,
}

impl Partition {
    // No bytes and no rights.
    pub const NOWHERE: Partition = Partition {
        kind: Kind::LifeCycle,
        start: 0,
        digest: 0,
        end: 0,
        granule: 4,
    };

    // Every digest is read and written in one piece.
    const DIGEST_GRANULE: usize = 8;

    // What its kind is granted.
    pub fn rights(self) -> Rights
        ensures { result ≡ rights_of self.kind }
    {
        self.kind.rights()
    }

    // Whether it is of a kind.
    fn is_of(self, kind: Kind) -> bool
        ensures { result ≡ (kind_number self.kind == kind_number kind) }
    {
        self.kind == kind
    }

    // Whether a byte address of the partition is in its digest; else it is in its data.
    #[tactic(auto, unfolding(crate::specs::Map::in_digest))]
    pub fn in_digest(self, address: usize) -> bool
        ensures { result ≡ in_digest self address }
    {
        self.digest <= address
    }

    // The granule of a byte address, in bytes.
    fn granule_size(self, address: usize) -> usize
        ensures { result ≡ granule_at self address }
    {
        if self.in_digest(address) {
            Partition::DIGEST_GRANULE
        } else {
            self.granule
        }
    }

    // The granule of a byte address, in words. A granule of no bytes has no words.
    pub fn granule_at(self, address: usize) -> Granule
        ensures { (result.word ≡ first_word self address) × (result.words ≡ word_count self address) }
    {
        let size = self.granule_size(address);
        if size == 0 {
            Granule { word: 0, words: 0 }
        } else {
            let words = size / 2;
            Granule {
                word: address / size * words,
                words,
            }
        }
    }
}

// The place of the first partition of a kind.
fn first_of(partitions: &[Partition], kind: Kind) -> Option<usize>
    ensures { result ≡ position (λ p. kind_number p.kind == kind_number kind) partitions.now }
{
    partitions
        .iter()
        .position(|partition| partition.is_of(kind))
}

// The maps that a caller can name.
#[derive(Clone, Copy)]
pub enum MapName {
    Map1,
    Map2,
}

impl MapName {
    // Its partitions, by number.
    #[tactic(auto, unfolding(crate::specs::Maps::map_of, crate::specs::Map1::map1, crate::specs::Map2::map2))]
    pub fn partitions(self) -> &'static [Partition]
        ensures { result.now ≡ map_of self }
    {
        match self {
            MapName::Map1 => &map1::PARTITIONS,
            MapName::Map2 => &map2::PARTITIONS,
        }
    }

    // How many partitions the map has.
    pub fn count(self) -> usize
        ensures { result ≡ length (map_of self) }
    {
        self.partitions().len()
    }

    // The first byte address past the map.
    #[tactic(auto, using(crate::proofs::Map::limit_last), unfolding(crate::specs::Map::limit))]
    pub fn limit(self) -> usize
        ensures { result ≡ limit (map_of self) }
    {
        match self.partitions() {
            [] => 0,
            [.., last] => last.end,
        }
    }

    // How many words of 16 bits its fuse array has.
    pub fn words(self) -> usize
        ensures { result ≡ limit (map_of self) / 2 }
    {
        self.limit() / 2
    }

    // The number of the partition that holds a byte address, or the count where none does.
    // Kept (fixed): no `Option` here and at the two below, whose definitions (`number_at`, `partition`, `number_of_kind`) name the count and nowhere.
    #[tactic(auto, unfolding(crate::specs::Maps::map_of))]
    pub fn number_at(self, address: usize) -> usize
        ensures { result ≡ number_at (map_of self) address }
    {
        match self {
            MapName::Map1 => map1::number_at(address),
            MapName::Map2 => map2::number_at(address),
        }
    }

    // The partition of a number, or nowhere past the last one.
    #[tactic(auto, unfolding(crate::specs::Map::partition, crate::specs::Map::nowhere))]
    pub fn partition_of(self, number: usize) -> Partition
        ensures { result ≡ partition (map_of self) number }
    {
        let partitions = self.partitions();
        partitions
            .get(number)
            .copied()
            .unwrap_or(Partition::NOWHERE)
    }

    // The number of the first partition of a kind, or the count where there is none.
    pub fn number_of_kind(self, kind: Kind) -> usize
        ensures { result ≡ number_of_kind (map_of self) kind }
    {
        first_of(self.partitions(), kind).unwrap_or(self.count())
    }
}
