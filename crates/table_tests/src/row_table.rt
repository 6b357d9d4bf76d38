// The row table.
use rows::RowTable;
use tables::VersionTable;
use words::{Ending, Refusal, Status, Version};

#[test]
fn seven_inserts_fit_and_the_eighth_finds_no_place(rt: HostRuntime) {
    let mut table = RowTable::new();
    for stamp in 1..8u64 {
        assert_eq!(rt; table.insert(127, stamp, 2850), Ok(0));
    }
    assert_eq!(rt; table.insert(127, 8, 2850), Err(Refusal::NoPlace));
    assert_eq!(rt; table.free_places(127), Ok(0));
    assert_eq!(rt; table.free_places(126), Ok(7));
}

// A cell with committed 2305, 1280 and 0 cut at each stamp of the table leaves as many versions.
#[test]
fn a_cut_removes_what_is_stamped_below(rt: HostRuntime) {
    let cases = [
        (0, 0),
        (1, 1),
        (1280, 1),
        (1281, 2),
        (2305, 2),
        (2306, 3),
        (u64::MAX, 3),
    ];
    for (stamp, removed) in cases {
        let mut table = RowTable::new();
        assert_eq!(rt; table.insert(0, 2305, 3000), Ok(0));
        assert_eq!(rt; table.insert(0, 1280, 2850), Ok(0));
        assert_eq!(rt; table.cut(0, stamp), Ok(removed), "removed");
        assert_eq!(rt; table.length(0), Ok(3u64.saturating_sub(removed)), "left");
    }
}

// Where two refusals fit, the one that is tested first is given.
#[test]
fn refusals_come_in_their_order(rt: HostRuntime) {
    let mut table = RowTable::new();
    for stamp in 1..8u64 {
        assert_eq!(rt; table.insert(5, stamp, 0), Ok(0));
    }
    assert_eq!(rt;
        table.insert(128, 0, 0),
        Err(Refusal::NoCell),
        "no cell before stamp taken"
    );
    assert_eq!(rt;
        table.insert(5, 7, 0),
        Err(Refusal::StampTaken),
        "stamp taken before no place"
    );
    assert_eq!(rt;
        table.raise(128, 9, 0),
        Err(Refusal::NoCell),
        "no cell before no version"
    );
    assert_eq!(rt;
        table.mark(5, 0, Ending::Abort),
        Err(Refusal::NoVersion),
        "0 is committed"
    );
    assert_eq!(rt;
        table.version(5, 8),
        Err(Refusal::NoVersion),
        "positions end at the length"
    );
}

#[test]
fn a_version_tells_its_four_parts(rt: HostRuntime) {
    let mut table = RowTable::new();
    assert_eq!(rt; table.insert(9, 1280, 2850), Ok(0));
    assert_eq!(rt; table.raise(9, 1280, 4096), Ok(0));
    assert_eq!(rt; table.mark(9, 1280, Ending::Commit), Ok(0));
    let version = Version {
        write: 1280,
        read: 4096,
        status: Status::Committed,
        value: 2850,
    };
    assert_eq!(rt; table.version(9, 0), Ok(version));
}
