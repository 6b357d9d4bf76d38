// The chained table.
use chains::{ChainTable, Record};
use std::test::Fail;
use tables::VersionTable;
use words::{Ending, Refusal};

// How many cells and records a table over so many heads and records has.
const SIZES: [(usize, usize, usize, u64); 15] = [
    (0, 0, 0, 0),
    (4, 0, 0, 0),
    (4, 1, 0, 1),
    (4, 2, 0, 2),
    (4, 3, 1, 3),
    (4, 4, 2, 4),
    (1, 4, 1, 4),
    (0, 4, 0, 4),
    (1024, 1025, 1023, 1025),
    (1024, 1026, 1024, 1026),
    (1025, 1027, 1024, 1027),
    (1023, 8192, 1023, 8192),
    (1024, 8191, 1024, 8191),
    (1025, 8193, 1024, 8192),
    (2000, 9000, 1024, 8192),
];

#[test]
fn sizes_follow_from_heads_and_records(rt: HostRuntime) -> Result<(), Fail> {
    let heap = rt.alloc();
    for (h, v, cells, used) in SIZES {
        let mut heads = vec![in heap; None; h]?;
        let mut records = vec![in heap; Record::blank(); v]?;
        let table = ChainTable::over(heads.as_mut_slice(), records.as_mut_slice());
        assert_eq!(rt; table.cells(), cells, "cells");
        assert_eq!(rt; table.records(), used, "records");
    }
    Ok(())
}

// Two cells share three free records; forty rounds of insert and cut use them again and again.
#[test]
fn records_are_used_again(rt: HostRuntime) {
    let mut heads = [None; 2];
    let mut records = [Record::blank(); 5];
    let mut table = ChainTable::over(&mut heads, &mut records);
    for round in 1..41u64 {
        let stamp = round * 256;
        assert_eq!(rt; table.free_places(0), Ok(3), "free before");
        assert_eq!(rt; table.insert(0, stamp, round), Ok(0));
        assert_eq!(rt; table.free_places(1), Ok(2), "the other cell has one less");
        assert_eq!(rt; table.mark(0, stamp, Ending::Commit), Ok(0));
        assert_eq!(rt; table.cut(0, stamp), Ok(1), "the older version goes");
    }
    assert_eq!(rt; table.length(0), Ok(1));
}

#[test]
fn cells_share_their_free_places(rt: HostRuntime) {
    let mut heads = [None; 2];
    let mut records = [Record::blank(); 5];
    let mut table = ChainTable::over(&mut heads, &mut records);
    for stamp in 1..4u64 {
        assert_eq!(rt; table.insert(0, stamp, 0), Ok(0));
    }
    assert_eq!(rt;
        table.insert(1, 9, 0),
        Err(Refusal::NoPlace),
        "cell 0 took the last"
    );
    assert_eq!(rt;
        table.insert(0, 3, 0),
        Err(Refusal::StampTaken),
        "stamp taken before no place"
    );
    assert_eq!(rt; table.cut(0, 2), Ok(2));
    assert_eq!(rt; table.insert(1, 9, 0), Ok(0));
}
