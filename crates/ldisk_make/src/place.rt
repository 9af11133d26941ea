// Where partitions may lie.
ghost use Rattle.std.specs.Prelude.{◌≡◌, map};
ghost use Rattle.std.specs.List.{list_all};
ghost use Rattle.ldisk_model.specs.DiskTable.{end_of, are_apart, is_placed, are_placed};
ghost use Rattle.ldisk_words.specs.View.{part_view};

use ldisk_words::PartWish;

/// Whether partitions may lie so on a disk of so many sectors: after the first sector, inside the disk, and each two
/// apart.
#[tactic(auto, unfolding(ldisk_model::specs::DiskTable::are_placed))]
pub fn are_placed(sectors: u32, parts: &[PartWish]) -> bool
    ensures { result ≡ are_placed sectors (map part_view parts.now) }
{
    match parts {
        [] => true,
        [part, others @ ..] => {
            is_placed(sectors, part) && are_all_apart(part, others) && are_placed(sectors, others)
        }
    }
}

#[tactic(auto, unfolding(ldisk_model::specs::DiskTable::is_placed))]
fn is_placed(sectors: u32, part: &PartWish) -> bool
    ensures { result ≡ is_placed sectors (part_view part.now) }
{
    part.start >= 1 && end_of(part) <= u64::from(sectors)
}

fn are_all_apart(part: &PartWish, others: &[PartWish]) -> bool
    ensures { result ≡ list_all (are_apart (part_view part.now)) (map part_view others.now) }
{
    match others {
        [] => true,
        [other, rest @ ..] => are_apart(part, other) && are_all_apart(part, rest),
    }
}

#[tactic(auto, unfolding(ldisk_model::specs::DiskTable::are_apart))]
fn are_apart(one: &PartWish, other: &PartWish) -> bool
    ensures { result ≡ are_apart (part_view one.now) (part_view other.now) }
{
    end_of(one) <= u64::from(other.start) || end_of(other) <= u64::from(one.start)
}

/// The first sector after a partition.
fn end_of(part: &PartWish) -> u64
    ensures { result ≡ end_of (part_view part.now) }
{
    u64::from(part.start) + u64::from(part.count)
}
