//! The rules of what a table describes.

ghost use Rattle.std.specs.Prelude.{◌≡◌, true};
ghost use Rattle.tlsf_heap.specs.Images.Rules.{first_unmet, has_ordered_pools, rules_of_sections, rules_of_table};
ghost use Rattle.tlsf_heap.specs.Images.Findings.{OnlyReads, Finds};

use super::chains::look_at_chains;
use super::links::look_at_links;
use super::lists::look_at_lists;
use super::pools::has_packed_pools;
use super::{HasSections, Rule};

/// The first rule, of those on pools, records, chains and lists, that a table breaks: `None` where it is that of a heap.
/// Its time is linear in the records.
pub fn first_broken<T: HasSections>(table: &mut T) -> Option<Rule>
    ensures value { result ≡ first_unmet (rules_of_table (T.sections table.old)) }
    ensures read { OnlyReads T.sections T.cells T.touches table.old table.new }
{
    if has_packed_pools(table) {
        first_behind_pools(table)
    } else {
        Some(Rule::Pools)
    }
}

/// The first rule, of those on records, chains and lists, that a table breaks, whose pools are where pools can be.
pub(crate) fn first_behind_pools<T: HasSections>(table: &mut T) -> Option<Rule>
    requires { has_ordered_pools (T.sections table.old) ≡ true }
    ensures { Finds result (first_unmet (rules_of_sections (T.sections table.old))) T.sections T.cells T.touches table.old table.new }
{
    let Some(blocks) = look_at_links(table) else {
        return Some(Rule::Links);
    };
    let Some(tally) = look_at_chains(table) else {
        return Some(Rule::Chains);
    };
    if !tally.covers {
        return Some(Rule::Cover);
    }
    if tally.blocks != blocks.all {
        return Some(Rule::OnChains);
    }
    if !tally.is_merged {
        return Some(Rule::Merged);
    }
    let Some(listed) = look_at_lists(table) else {
        return Some(Rule::Lists);
    };
    if listed != blocks.free {
        return Some(Rule::OnLists);
    }
    None
}
