// Groups of tags, those of the files and the locales among them: check 17.
// All but the last group ask the records that were gathered.
#![tactic(auto, unfolding(format::specs::Verdicts::check, crate::specs::Groups::needs_check))]

ghost use Rattle.std.specs.Prelude.{◌≡◌};
ghost use Rattle.std.specs.List.{list_any};
ghost use Rattle.tags.specs.Tags.{has};
ghost use Rattle.tags.specs.Tables.{shown_by};
ghost use Rattle.groups.specs.Groups.{needs_check, pairs_check, signature_pairs, script_pairs};
ghost use Rattle.groups.specs.Groups.{led_by, led_groups, groups_check};

use format::{Refusal, Section, Verdict};
use tags::Table;

// The signature's pairs: a tag and the one that it needs.
const SIGNATURE_PAIRS: [(u32, u32); 2] = [(1011, 1005), (1012, 1002)];

// The header's pairs: scripts need their programs.
const SCRIPT_PAIRS: [(u32, u32); 4] = [(1023, 1085), (1024, 1086), (1025, 1087), (1026, 1088)];

// Three tags, and the one of them that leads the group.
struct LedGroup {
    leader: u32,
    tags: [u32; 3],
}

// The led groups, in order.
const LED_GROUPS: [LedGroup; 5] = [
    LedGroup {
        leader: 1049,
        tags: [1048, 1049, 1050],
    },
    LedGroup {
        leader: 1047,
        tags: [1047, 1112, 1113],
    },
    LedGroup {
        leader: 1054,
        tags: [1053, 1054, 1055],
    },
    LedGroup {
        leader: 1090,
        tags: [1090, 1114, 1115],
    },
    LedGroup {
        leader: 1081,
        tags: [1080, 1081, 1082],
    },
];

// One tag needs another.
fn needs(tags: &Table, tag: u32, other: u32) -> Verdict
    ensures { result ≡ needs_check (shown_by tags.now) tag other }
{
    if tags.has(tag) && !tags.has(other) {
        return Err(Refusal {
            number: 17,
            place: other,
        });
    }
    Ok(())
}

// The first tag of each pair needs the second.
fn pairs(tags: &Table, pairs: &[(u32, u32)]) -> Verdict
    ensures { result ≡ pairs_check (shown_by tags.now) pairs.now }
{
    for (tag, other) in pairs {
        needs(tags, *tag, *other)?;
    }
    Ok(())
}

// The signature's pairs.
fn signature_pairs(signature: &Table) -> Verdict
    ensures { result ≡ signature_pairs (shown_by signature.now) }
{
    pairs(signature, &SIGNATURE_PAIRS)
}

// Scripts need their programs.
fn script_pairs(header: &Table) -> Verdict
    ensures { result ≡ script_pairs (shown_by header.now) }
{
    pairs(header, &SCRIPT_PAIRS)
}

// Whether one of some tags is present.
fn any_of(tags: &Table, group: &[u32]) -> bool
    ensures { result ≡ list_any (has (shown_by tags.now)) group.now }
{
    group.iter().any(|tag| tags.has(*tag))
}

// A led group: all or none of its tags are present, with counts equal to the leader's.
fn led(header: &Table, group: &LedGroup) -> Verdict
    ensures { result ≡ led_by (shown_by header.now) group.now }
{
    if !any_of(header, &group.tags) {
        return Ok(());
    }
    files::present(header, &group.tags)?;
    files::counted(header, header.count(group.leader), &group.tags)
}

// The led groups, in order.
fn led_groups(header: &Table) -> Verdict
    ensures { result ≡ led_groups (shown_by header.now) }
{
    for group in &LED_GROUPS {
        led(header, group)?;
    }
    Ok(())
}

// Check 17, over what was gathered from signature and header.
pub fn check(pkg: &[u8], header: Section, first: &Table, second: &Table) -> Verdict
    ensures { result ≡ groups_check pkg.now header (shown_by first.now) (shown_by second.now) }
{
    signature_pairs(first)?;
    script_pairs(second)?;
    files::check(second)?;
    led_groups(second)?;
    locales::check(pkg, header, second.count(100))
}
