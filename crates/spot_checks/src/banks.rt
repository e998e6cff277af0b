// The limits of a flat bank.
use clock_bank::bank::Bank;
use clock_bank::counts::BankCounts;
use clock_bank::fault::BankFault;
use clock_bank::slots::Slots;
use flat_bank::FlatBank;
use std::test::Fail;

// The number of a refusal.
fn number(answer: Result<(), BankFault>) -> Option<u16> {
    answer.err().map(BankFault::number)
}

fn bank_of(threads: u16, slots: u32) -> BankCounts {
    BankCounts { threads, slots }
}

#[test]
fn counts(rt: HostRuntime) -> Result<(), Fail> {
    // (32 + 1280) * 32 numbers
    let table = vec![in rt.alloc(); 7u32; 41984]?;
    let table = table.as_slice();
    assert_eq!(rt; number(FlatBank::check(bank_of(32, 1280), table)), None);
    assert_eq!(rt; number(FlatBank::check(bank_of(0, 1280), table)), Some(1));
    assert_eq!(rt; number(FlatBank::check(bank_of(33, 1281), table)), Some(1));
    assert_eq!(rt; number(FlatBank::check(bank_of(32, 1281), table)), Some(2));
    assert!(rt; table.len() == 41984);
    assert_eq!(rt;
        number(FlatBank::check(bank_of(32, 1280), &table[1..])),
        Some(3)
    );
    assert_eq!(rt; number(FlatBank::check(bank_of(1, 0), &table[0..1])), None);
    assert_eq!(rt;
        number(FlatBank::check(bank_of(1, 0), &table[0..0])),
        Some(3)
    );
    Ok(())
}

#[test]
fn refused_make(rt: HostRuntime) {
    let mut table = [7u32; 5];
    let bank = FlatBank::new(bank_of(2, 1), &mut table);
    assert_eq!(rt; bank.thread_count(), 0);
    assert_eq!(rt; bank.slot_count(), 0);
    assert_eq!(rt; table, [7, 7, 7, 7, 7]);
}

#[test]
fn entry_limit(rt: HostRuntime) {
    let mut table = [7u32; 7];
    let mut bank = FlatBank::new(bank_of(2, 1), &mut table);
    let accepted = (0..65535).all(|_| bank.advance(1, Slots::post_to(0)).is_ok());
    assert!(rt; accepted);
    assert_eq!(rt; bank.thread_entry(1, 1).ok(), Some(65535));
    assert_eq!(rt; number(bank.advance(1, Slots::post_to(0))), Some(6));
    assert_eq!(rt; number(bank.advance(1, Slots::post_to(1))), Some(5));
    assert_eq!(rt; number(bank.advance(2, Slots::post_to(1))), Some(4));
    assert_eq!(rt; number(bank.advance(0, Slots::take_from(0))), None);
    assert_eq!(rt; table, [1, 65535, 0, 65535, 0, 65535, 7]);
}
