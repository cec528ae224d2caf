//! Which records are kept where others are left out.
ghost use Rattle.std.specs.Prelude.{◌≡◌, ◌<◌, ◌^◌, length, IfOk};
ghost use Rattle.ledger_rules.specs.Kept.{next_of, AreWithin, AreOrdered, AreEnds, AreFlagsOf};

use owned_values::NoMemory;
use std::alloc::Global;

/// The record to which this one is linked, itself where it is linked to none.
fn next_of(links: &[Option<u32>], place: usize) -> usize
    requires within { AreWithin links.now }
    requires place { place < length links.now }
    ensures next { result ≡ next_of links.now place }
    ensures within { result < length links.now }
{
    match links[place] {
        Some(link) => link as usize,
        None => place,
    }
}

/// Where the links from each record end: first those to later records, and then those to earlier ones.
fn ends_of(alloc: Global, links: &[Option<u32>]) -> Result<Vec<u32>, NoMemory>
    requires few { length links.now < 2 ^ 32 }
    requires within { AreWithin links.now }
    requires ordered { AreOrdered links.now }
    ensures { IfOk result (λ ends. AreEnds links.now ends.items) }
{
    let mut ends = vec![in alloc; 0; links.len()]?;
    for place in (0..links.len()).rev() {
        let next = next_of(links, place);
        let end = if place < next {
            ends[next]
        } else {
            place as u32
        };
        ends[place] = end;
    }
    for place in 0..links.len() {
        let next = next_of(links, place);
        if next < place {
            ends[place] = ends[next];
        }
    }
    Ok(ends)
}

/// Which records are kept: those with a visible row, each record that one of these names, and each that names one.
/// `links` says of each record, counted from 0, which other it is linked to, as one of the two names the other; `seen`
/// whether it has a visible row.
///
/// It takes linear time, however far links lead.
pub fn keep(alloc: Global, links: &[Option<u32>], seen: &[bool]) -> Result<Vec<bool>, NoMemory>
    requires few { length links.now < 2 ^ 32 }
    requires long { length seen.now ≡ length links.now }
    requires within { AreWithin links.now }
    requires ordered { AreOrdered links.now }
    ensures { IfOk result (λ flags. AreFlagsOf links.now seen.now flags.items) }
{
    let ends = ends_of(alloc, links)?;
    let mut groups = vec![in alloc; false; links.len()]?;
    for (place, is_seen) in seen.iter().enumerate() {
        if *is_seen {
            groups[ends[place] as usize] = true;
        }
    }
    let mut flags = vec![in alloc; false; links.len()]?;
    for place in 0..links.len() {
        flags[place] = groups[ends[place] as usize];
    }
    Ok(flags)
}
