// Map 2: a type for each partition, with the constants that belong to it.
// Kept (fixed): the paper names both forms, constants of a type for each partition and a match of the byte address over ranges, for either map.
ghost use Rattle.std.specs.Prelude.{◌≡◌};
ghost use Rattle.partitions.specs.Map.{number_at};
ghost use Rattle.partitions.specs.Map2.{map2};

use crate::{Kind, Partition};

// VENDOR_TEST
#[derive(Clone, Copy)]
pub struct VendorTest;

impl VendorTest {
    pub const NUMBER: usize = 0;

    pub const KIND: Kind = Kind::Software;

    pub const START: usize = 0x000;

    pub const DIGEST: usize = 0x038;

    pub const END: usize = 0x040;

    pub const GRANULE: usize = 4;
}

// CREATOR_SW_CFG
#[derive(Clone, Copy)]
pub struct CreatorSwCfg;

impl CreatorSwCfg {
    pub const NUMBER: usize = 1;

    pub const KIND: Kind = Kind::Software;

    pub const START: usize = 0x040;

    pub const DIGEST: usize = 0x138;

    pub const END: usize = 0x140;

    pub const GRANULE: usize = 4;
}

// OWNER_SW_CFG
#[derive(Clone, Copy)]
pub struct OwnerSwCfg;

impl OwnerSwCfg {
    pub const NUMBER: usize = 2;

    pub const KIND: Kind = Kind::Software;

    pub const START: usize = 0x140;

    pub const DIGEST: usize = 0x238;

    pub const END: usize = 0x240;

    pub const GRANULE: usize = 4;
}

// ROT_CREATOR_AUTH_CODESIGN
#[derive(Clone, Copy)]
pub struct RotCreatorAuthCodesign;

impl RotCreatorAuthCodesign {
    pub const NUMBER: usize = 3;

    pub const KIND: Kind = Kind::Software;

    pub const START: usize = 0x240;

    pub const DIGEST: usize = 0x410;

    pub const END: usize = 0x418;

    pub const GRANULE: usize = 4;
}

// ROT_CREATOR_AUTH_STATE
#[derive(Clone, Copy)]
pub struct RotCreatorAuthState;

impl RotCreatorAuthState {
    pub const NUMBER: usize = 4;

    pub const KIND: Kind = Kind::AuthState;

    pub const START: usize = 0x418;

    pub const DIGEST: usize = 0x438;

    pub const END: usize = 0x440;

    pub const GRANULE: usize = 4;
}

// HW_CFG0
#[derive(Clone, Copy)]
pub struct HwCfg0;

impl HwCfg0 {
    pub const NUMBER: usize = 5;

    pub const KIND: Kind = Kind::HwCfg;

    pub const START: usize = 0x440;

    pub const DIGEST: usize = 0x480;

    pub const END: usize = 0x488;

    pub const GRANULE: usize = 4;
}

// HW_CFG1
#[derive(Clone, Copy)]
pub struct HwCfg1;

impl HwCfg1 {
    pub const NUMBER: usize = 6;

    pub const KIND: Kind = Kind::HwCfg;

    pub const START: usize = 0x488;

    pub const DIGEST: usize = 0x490;

    pub const END: usize = 0x498;

    pub const GRANULE: usize = 4;
}

// SECRET0: TEST_UNLOCK and TEST_EXIT tokens
#[derive(Clone, Copy)]
pub struct Secret0;

impl Secret0 {
    pub const NUMBER: usize = 7;

    pub const KIND: Kind = Kind::Secret0;

    pub const START: usize = 0x498;

    pub const DIGEST: usize = 0x4B8;

    pub const END: usize = 0x4C0;

    pub const GRANULE: usize = 8;
}

// SECRET1: flash address, flash data and SRAM seeds
#[derive(Clone, Copy)]
pub struct Secret1;

impl Secret1 {
    pub const NUMBER: usize = 8;

    pub const KIND: Kind = Kind::Secret1;

    pub const START: usize = 0x4C0;

    pub const DIGEST: usize = 0x510;

    pub const END: usize = 0x518;

    pub const GRANULE: usize = 8;
}

// SECRET2: RMA token and two root key shares
#[derive(Clone, Copy)]
pub struct Secret2;

impl Secret2 {
    pub const NUMBER: usize = 9;

    pub const KIND: Kind = Kind::Secret2;

    pub const START: usize = 0x518;

    pub const DIGEST: usize = 0x568;

    pub const END: usize = 0x570;

    pub const GRANULE: usize = 8;
}

// LIFE_CYCLE: 24 counter words, then 20 state words; no digest, so that its digest address is its end
#[derive(Clone, Copy)]
pub struct LifeCycle;

impl LifeCycle {
    pub const NUMBER: usize = 10;

    pub const KIND: Kind = Kind::LifeCycle;

    pub const START: usize = 0x570;

    pub const DIGEST: usize = 0x5C8;

    pub const END: usize = 0x5C8;

    pub const GRANULE: usize = 4;
}

// How many partitions it has.
pub const COUNT: usize = 11;

// Its partitions, by number.
pub(crate) static PARTITIONS: [Partition; COUNT] = [
    partition!(VendorTest),
    partition!(CreatorSwCfg),
    partition!(OwnerSwCfg),
    partition!(RotCreatorAuthCodesign),
    partition!(RotCreatorAuthState),
    partition!(HwCfg0),
    partition!(HwCfg1),
    partition!(Secret0),
    partition!(Secret1),
    partition!(Secret2),
    partition!(LifeCycle),
];

// The number of the partition that holds a byte address, or COUNT where none does.
#[tactic(auto, using(crate::proofs::Ranges::map2_ranges), unfolding(crate::specs::Map::partition, crate::specs::Map::limit, crate::specs::Map2::map2))]
pub fn number_at(address: usize) -> usize
    ensures { result ≡ number_at map2 address }
{
    match address {
        VendorTest::START..VendorTest::END => VendorTest::NUMBER,
        CreatorSwCfg::START..CreatorSwCfg::END => CreatorSwCfg::NUMBER,
        OwnerSwCfg::START..OwnerSwCfg::END => OwnerSwCfg::NUMBER,
        RotCreatorAuthCodesign::START..RotCreatorAuthCodesign::END =>
            RotCreatorAuthCodesign::NUMBER,
        RotCreatorAuthState::START..RotCreatorAuthState::END => RotCreatorAuthState::NUMBER,
        HwCfg0::START..HwCfg0::END => HwCfg0::NUMBER,
        HwCfg1::START..HwCfg1::END => HwCfg1::NUMBER,
        Secret0::START..Secret0::END => Secret0::NUMBER,
        Secret1::START..Secret1::END => Secret1::NUMBER,
        Secret2::START..Secret2::END => Secret2::NUMBER,
        LifeCycle::START..LifeCycle::END => LifeCycle::NUMBER,
        _ => COUNT,
    }
}
