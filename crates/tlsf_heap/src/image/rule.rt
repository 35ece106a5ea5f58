//! The rules of an image.

/// A rule of an image. Each is looked at only where those before it hold.
#[derive(Clone, Copy, Debug, PartialEq, Eq)]
pub enum Rule {
    /// Nothing is missing in front of the records, and the image begins with `TLSFIMG1`.
    Magic = 1,
    /// There are 1 to 65,535 records and at most 8 pools. The four bytes behind their numbers are zero, and the image
    /// ends with the last record.
    Length = 2,
    /// Each pool is where a pool can be, at or above the end of the one before. It has a first record, and its entry
    /// ends with two zero bytes.
    Pools = 3,
    /// The other pool entries are zero.
    UnusedPools = 4,
    /// The state of each record is vacant, free or live, and a vacant record is zero.
    States = 5,
    /// Each head, and each link of a block, is none or one of the records. A live block has no links in a list. A
    /// block has bytes.
    Links = 6,
    /// The chain of each pool ends, has blocks alone, and is linked back.
    Chains = 7,
    /// The blocks of each chain cover its pool end to end.
    Cover = 8,
    /// Each block is on the chain of a pool.
    OnChains = 9,
    /// No two free blocks stand side by side on a chain.
    Merged = 10,
    /// The list of each class ends, has free blocks of the class alone, and is linked back.
    Lists = 11,
    /// Each free block is on the list of a class.
    OnLists = 12,
}

const _: () = prove!(
    Rule::Magic as u32 == 1
        && Rule::Length as u32 == 2
        && Rule::Pools as u32 == 3
        && Rule::UnusedPools as u32 == 4
        && Rule::States as u32 == 5
        && Rule::Links as u32 == 6
        && Rule::Chains as u32 == 7
        && Rule::Cover as u32 == 8
        && Rule::OnChains as u32 == 9
        && Rule::Merged as u32 == 10
        && Rule::Lists as u32 == 11
        && Rule::OnLists as u32 == 12
);
