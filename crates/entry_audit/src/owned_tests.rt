use crate::owned::{Link, list_fault};

/// An entry that has to stand in a list.
fn must(next: u32, owner: u32) -> Option<Link> {
    Some(Link {
        next,
        owner,
        must: true,
    })
}

/// An entry that may stand in a list.
fn may(next: u32, owner: u32) -> Option<Link> {
    Some(Link {
        next,
        owner,
        must: false,
    })
}

// Entries 1 and 3 belong to list 0, and 2 to list 1, in which 4 may stand too. 5 is no entry, and 6 is past the end.
#[test]
fn lists_that_are_not_as_they_should_be_are_named(rt: HostRuntime) {
    for (heads, nexts, found) in [
        // Both are, without 4 and with it.
        ([1, 2], [3, 0, 0, 0], None),
        ([3, 2], [0, 4, 1, 0], None),
        ([1, 4], [3, 0, 0, 2], None),
        // It has an entry of the other.
        ([1, 2], [3, 3, 0, 0], Some(1)),
        ([4, 2], [3, 0, 0, 1], Some(0)),
        ([2, 1], [3, 0, 0, 0], Some(0)),
        // It comes back to an entry.
        ([1, 2], [3, 0, 1, 0], Some(0)),
        ([1, 2], [3, 2, 0, 0], Some(1)),
        ([1, 2], [3, 4, 0, 4], Some(1)),
        // It lacks an entry.
        ([3, 2], [3, 0, 0, 0], Some(0)),
        ([1, 2], [0, 0, 0, 0], Some(0)),
        ([1, 0], [3, 0, 0, 0], Some(1)),
        ([1, 4], [3, 0, 0, 0], Some(1)),
        // It has what is no entry.
        ([1, 2], [3, 5, 0, 0], Some(1)),
        ([1, 2], [3, 6, 0, 0], Some(1)),
        ([1, u32::MAX], [3, 0, 0, 0], Some(1)),
    ] {
        let links = [
            None,
            must(nexts[0], 0),
            must(nexts[1], 1),
            must(nexts[2], 0),
            may(nexts[3], 1),
            None,
        ];
        let answer = list_fault(rt.alloc(), &heads, &links);
        assert_eq!(rt; answer.ok(), Some(found));
    }
}

#[test]
fn entries_of_lists_that_there_are_not_stand_in_none(rt: HostRuntime) {
    let links = [None, must(0, 0), must(0, 1), must(0, u32::MAX)];
    for (heads, found) in [([1], None), ([2], Some(0)), ([3], Some(0))] {
        let answer = list_fault(rt.alloc(), &heads, &links);
        assert_eq!(rt; answer.ok(), Some(found));
    }
    let answer = list_fault(rt.alloc(), &[], &links);
    assert_eq!(rt; answer.ok(), Some(None));
}

#[test]
fn entry_0_stands_in_no_list(rt: HostRuntime) {
    for (entry, found) in [(may(0, 0), None), (must(0, 0), Some(0))] {
        let answer = list_fault(rt.alloc(), &[0], &[entry]);
        assert_eq!(rt; answer.ok(), Some(found));
    }
}
