// Map 1: a type for each partition, with the constants that belong to it.
// Kept (fixed): the paper names both forms, constants of a type for each partition and a match of the byte address over ranges, for either map.
ghost use Rattle.std.specs.Prelude.{◌≡◌};
ghost use Rattle.partitions.specs.Map.{number_at};
ghost use Rattle.partitions.specs.Map1.{map1};

use crate::{Kind, Partition};

// CREATOR_SW_CFG
#[derive(Clone, Copy)]
pub struct CreatorSwCfg;

impl CreatorSwCfg {
    pub const NUMBER: usize = 0;

    pub const KIND: Kind = Kind::Software;

    pub const START: usize = 0x000;

    pub const DIGEST: usize = 0x0F8;

    pub const END: usize = 0x100;

    pub const GRANULE: usize = 4;
}

// OWNER_SW_CFG
#[derive(Clone, Copy)]
pub struct OwnerSwCfg;

impl OwnerSwCfg {
    pub const NUMBER: usize = 1;

    pub const KIND: Kind = Kind::Software;

    pub const START: usize = 0x100;

    pub const DIGEST: usize = 0x1F8;

    pub const END: usize = 0x200;

    pub const GRANULE: usize = 4;
}

// HW_CFG: DEVICE_ID in its first 32 bytes
#[derive(Clone, Copy)]
pub struct HwCfg;

impl HwCfg {
    pub const NUMBER: usize = 2;

    pub const KIND: Kind = Kind::HwCfg;

    pub const START: usize = 0x200;

    pub const DIGEST: usize = 0x248;

    pub const END: usize = 0x250;

    pub const GRANULE: usize = 4;
}

// SECRET0: TEST_UNLOCK and TEST_EXIT tokens
#[derive(Clone, Copy)]
pub struct Secret0;

impl Secret0 {
    pub const NUMBER: usize = 3;

    pub const KIND: Kind = Kind::Secret0;

    pub const START: usize = 0x250;

    pub const DIGEST: usize = 0x270;

    pub const END: usize = 0x278;

    pub const GRANULE: usize = 8;
}

// SECRET1: flash address, flash data and SRAM seeds
#[derive(Clone, Copy)]
pub struct Secret1;

impl Secret1 {
    pub const NUMBER: usize = 4;

    pub const KIND: Kind = Kind::Secret1;

    pub const START: usize = 0x278;

    pub const DIGEST: usize = 0x2C8;

    pub const END: usize = 0x2D0;

    pub const GRANULE: usize = 8;
}

// SECRET2: RMA token and two root key shares
#[derive(Clone, Copy)]
pub struct Secret2;

impl Secret2 {
    pub const NUMBER: usize = 5;

    pub const KIND: Kind = Kind::Secret2;

    pub const START: usize = 0x2D0;

    pub const DIGEST: usize = 0x320;

    pub const END: usize = 0x328;

    pub const GRANULE: usize = 8;
}

// LIFE_CYCLE: 24 counter words, then 20 state words; no digest, so that its digest address is its end
#[derive(Clone, Copy)]
pub struct LifeCycle;

impl LifeCycle {
    pub const NUMBER: usize = 6;

    pub const KIND: Kind = Kind::LifeCycle;

    pub const START: usize = 0x328;

    pub const DIGEST: usize = 0x380;

    pub const END: usize = 0x380;

    pub const GRANULE: usize = 4;
}

// How many partitions it has.
pub const COUNT: usize = 7;

// Its partitions, by number.
pub(crate) static PARTITIONS: [Partition; COUNT] = [
    partition!(CreatorSwCfg),
    partition!(OwnerSwCfg),
    partition!(HwCfg),
    partition!(Secret0),
    partition!(Secret1),
    partition!(Secret2),
    partition!(LifeCycle),
];

// The number of the partition that holds a byte address, or COUNT where none does.
#[tactic(auto, using(crate::proofs::Ranges::map1_ranges), unfolding(crate::specs::Map::partition, crate::specs::Map::limit, crate::specs::Map1::map1))]
pub fn number_at(address: usize) -> usize
    ensures { result ≡ number_at map1 address }
{
    match address {
        CreatorSwCfg::START..CreatorSwCfg::END => CreatorSwCfg::NUMBER,
        OwnerSwCfg::START..OwnerSwCfg::END => OwnerSwCfg::NUMBER,
        HwCfg::START..HwCfg::END => HwCfg::NUMBER,
        Secret0::START..Secret0::END => Secret0::NUMBER,
        Secret1::START..Secret1::END => Secret1::NUMBER,
        Secret2::START..Secret2::END => Secret2::NUMBER,
        LifeCycle::START..LifeCycle::END => LifeCycle::NUMBER,
        _ => COUNT,
    }
}
