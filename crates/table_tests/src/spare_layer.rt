// The spare-place layer.
use chains::{ChainTable, Record};
use rows::RowTable;
use spare::SpareLayer;
use tables::VersionTable;
use words::{Ending, Refusal, Status, Version};

#[test]
fn eight_inserts_fit_and_the_ninth_finds_no_place(rt: HostRuntime) {
    let mut rows = RowTable::new();
    let mut table = SpareLayer::over(&mut rows);
    for stamp in 1..9u64 {
        assert_eq!(rt; table.insert(127, stamp, 2850), Ok(0));
    }
    assert_eq!(rt; table.insert(127, 9, 2850), Err(Refusal::NoPlace));
    assert_eq!(rt; table.length(127), Ok(9));
}

// The spare version, 1280, is inserted first and stands between 2305 and 0.
#[test]
fn the_spare_version_stands_by_its_stamp(rt: HostRuntime) {
    let mut rows = RowTable::new();
    let mut table = SpareLayer::over(&mut rows);
    assert_eq!(rt; table.insert(0, 1280, 7), Ok(0));
    assert_eq!(rt; table.insert(0, 2305, 8), Ok(0));
    assert_eq!(rt; table.raise(0, 1280, 4096), Ok(0));
    assert_eq!(rt; table.mark(0, 1280, Ending::Abort), Ok(0));
    let spare = Version {
        write: 1280,
        read: 4096,
        status: Status::Aborted,
        value: 7,
    };
    assert_eq!(rt; table.version(0, 1), Ok(spare));
    assert_eq!(rt; table.version(0, 3), Err(Refusal::NoVersion));
    assert_eq!(rt; table.insert(0, 1280, 9), Err(Refusal::StampTaken));
    assert_eq!(rt; table.cut(0, 2305), Ok(2), "the spare version goes too");
    assert_eq!(rt; table.free_places(0), Ok(8));
}

// Two layers on a chained table of one cell and three records: two spare places and two free records.
#[test]
fn layers_stand_on_layers(rt: HostRuntime) {
    let mut heads = [None; 1];
    let mut records = [Record::blank(); 3];
    let mut chains = ChainTable::over(&mut heads, &mut records);
    let mut low = SpareLayer::over(&mut chains);
    let mut table = SpareLayer::over(&mut low);
    for stamp in 1..5u64 {
        assert_eq!(rt; table.insert(0, stamp, 0), Ok(0));
    }
    assert_eq!(rt; table.insert(0, 5, 0), Err(Refusal::NoPlace));
    assert_eq!(rt; table.cut(0, 5), Ok(5));
    assert_eq!(rt; table.free_places(0), Ok(5));
}
