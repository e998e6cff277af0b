// A keep-list that is given more than its table holds.
use keep_list::KeepList;

#[test]
fn overflow(rt: HostRuntime) {
    let mut table = [7u8, 8];
    let mut list = KeepList::new(&mut table);
    assert_eq!(rt; list.get(0), None);
    for record in [1, 2, 3] {
        list.add(record);
    }
    assert_eq!(rt; list.total(), 3);
    assert_eq!(rt; list.held(), 2);
    assert_eq!(rt; list.get(0), Some(1));
    assert_eq!(rt; list.get(1), Some(2));
    assert_eq!(rt; list.get(2), None);
    assert_eq!(rt; table, [1, 2]);
}
