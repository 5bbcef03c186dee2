//! Lists of entries, each of which may stand in one of them only.

ghost use Rattle.std.specs.Prelude.{◌≡◌, ℕ, ◌<◌, ◌^◌, false, List, length, slice_index, Contains, IsTrue};
ghost use Rattle.std.specs.Prelude.{IfOk, IfSome, IfNone};
ghost use Rattle.entry_tables.specs.Links.{LeadsToEnd};
ghost use Rattle.entry_audit.specs.Owned.{link_at, behind_in, MayStandIn, MustStandIn, IsOwnedList, IsSeen, IsFollowed};

use std::alloc::{AllocError, Global};

/// An entry as a link of one of several lists.
#[derive(Clone, Copy, Debug, PartialEq, Eq)]
pub(crate) struct Link {
    /// The entry behind it, 0 for none.
    pub next: u32,
    /// The only list in which it may stand, by its number. There need not be such a list.
    pub owner: u32,
    /// Whether it has to stand there.
    pub must: bool,
}

/// A list, by its number, that is not as it should be; none where all are: from its head on, through next links, it
/// ends at 0, each entry in it may stand there, and each that has to is in it. Where there is no link the entry may
/// stand in no list. It takes a few steps for each list and each entry.
pub(crate) fn list_fault(
    alloc: Global,
    heads: &[u32],
    links: &[Option<Link>],
) -> Result<Option<u32>, AllocError>
    requires { length heads.now < 2 ^ 32 }
    ensures none { IfOk result (λ found. IfNone found ((owner : ℕ) → owner < length heads.now
        → (list : List ℕ) × IsOwnedList links.now owner (slice_index heads.now owner) list)) }
    ensures fault { IfOk result (λ found. IfSome found (λ owner. (owner < length heads.now)
        × ((list : List ℕ) → ¬ IsOwnedList links.now owner (slice_index heads.now owner) list))) }
{
    let mut seen = vec![in alloc; false; links.len()]?;
    let lists = heads.len() as u32;
    for list in 0..lists {
        if !follow(links, &mut seen, list, heads[list as usize]) {
            return Ok(Some(list));
        }
    }
    Ok(lacking(links, &seen, lists))
}

// Follows a list from its head on and marks its entries as seen. Whether it ends, and each of them may stand in it.
fn follow(links: &[Option<Link>], seen: &mut Vec<bool>, list: u32, head: u32) -> bool
    requires len { length seen.old.items ≡ length links.now }
    requires apart { (e : ℕ) → IsSeen seen.old.items e → ¬ MayStandIn list (link_at links.now e) }
    ensures ends { IsTrue result → (front : List ℕ)
        × IsFollowed links.now list head seen.old.items seen.new.items front 0 }
    ensures len { length seen.new.items ≡ length seen.old.items }
    ensures strange { result ≡ false → (whole : List ℕ) → LeadsToEnd (behind_in links.now) head whole
        → ¬ ((e : ℕ) → Contains whole e → MayStandIn list (link_at links.now e)) }
{
    let mut entry = head;
    while entry != 0 {
        let Some(next) = behind(links, seen, list, entry) else {
            return false;
        };
        seen[entry as usize] = true;
        entry = next;
    }
    true
}

// The entry behind one that may stand in a list and was not seen yet; else none.
fn behind(links: &[Option<Link>], seen: &[bool], list: u32, entry: u32) -> Option<u32>
    requires { length seen.now ≡ length links.now }
    ensures inside { IfSome result (λ next. entry < length seen.now) }
    ensures next { IfSome result (λ next. next ≡ behind_in links.now entry) }
    ensures may { IfSome result (λ next. MayStandIn list (link_at links.now entry)) }
    ensures unseen { IfSome result (λ next. ¬ IsSeen seen.now entry) }
    ensures none { IfNone result (MayStandIn list (link_at links.now entry) → IsSeen seen.now entry) }
{
    match links.get(entry as usize) {
        Some(Some(link)) if link.owner == list && !seen[entry as usize] => Some(link.next),
        Some(_) | None => None,
    }
}

// Of so many lists one in which an entry has to stand that was not seen; none where there is none.
fn lacking(links: &[Option<Link>], seen: &[bool], lists: u32) -> Option<u32>
    requires { length seen.now ≡ length links.now }
    ensures none { IfNone result ((owner e : ℕ) → owner < lists → MustStandIn owner (link_at links.now e)
        → IsSeen seen.now e) }
    ensures lacks { IfSome result (λ owner. (owner < lists)
        × ((e : ℕ) × MustStandIn owner (link_at links.now e) × (¬ IsSeen seen.now e))) }
{
    for (entry, link) in links.iter().enumerate() {
        if let Some(list) = lacks(*link, seen[entry], lists) {
            return Some(list);
        }
    }
    None
}

// The list, one of so many, in which an entry has to stand that was not seen; none where there is no such list.
fn lacks(link: Option<Link>, seen: bool, lists: u32) -> Option<u32>
    ensures none { IfNone result ((owner : ℕ) → owner < lists → MustStandIn owner link → IsTrue seen) }
    ensures below { IfSome result (λ owner. owner < lists) }
    ensures must { IfSome result (λ owner. MustStandIn owner link) }
    ensures unseen { IfSome result (λ owner. seen ≡ false) }
{
    match link {
        Some(link) if link.must && link.owner < lists && !seen => Some(link.owner),
        _ => None,
    }
}
